// Positions: of a number in an ascending list, of the marks in a list, and all of them.
ghost use Rattle.std.specs.Prelude.{◌≡◌, ◌≤◌, length};
ghost use Rattle.lists.specs.Lists.{pad, up_to};
ghost use Rattle.lists.specs.Counts.{Sorted};
ghost use Rattle.lists.specs.Marks.{lower_bound, marked};

use crate::slices::fill_zero;

// The number of words below bound in an ascending slice: the first position of one that is not, or the length.
pub fn partition_point(xs: &[u64], bound: u64) -> usize
    requires { Sorted xs.now }
    ensures { result ≡ lower_bound bound xs.now }
{
    xs.partition_point(|x| *x < bound)
}

// The positions of the words that are not 0 come to the front, ascending, and zeros after them. Returns their number.
pub fn gather(out: &mut [u64]) -> usize
    ensures value { result ≡ length (marked out.old) }
    ensures out_after { out.new ≡ pad (length out.old) (marked out.old) }
{
    let mut k: usize = 0;
    for p in 0..out.len() {
        let x = out[p];
        // Stored in any case: what stood at k is read already, and a branch on x is dear.
        out[k] = p as u64;
        if x != 0 {
            k += 1;
        }
    }
    fill_zero(&mut out[k..]);
    k
}

// The positions below n, and zeros after them.
pub fn up_to(out: &mut [u64], n: usize)
    requires { n ≤ length out.old }
    ensures { out.new ≡ pad (length out.old) (up_to n) }
{
    for (i, x) in out[..n].iter_mut().enumerate() {
        *x = i as u64;
    }
    fill_zero(&mut out[n..]);
}
