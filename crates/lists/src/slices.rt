// Whole slices: zeroed, tested for zeros, copied.
ghost use Rattle.std.specs.Prelude.{◌≡◌, ◌≤◌, length};
ghost use Rattle.lists.specs.Lists.{same, zeroed, put};

// Every word becomes 0.
#[tactic(auto, unfolding(crate::specs::Lists::zeroed))]
pub fn fill_zero(dst: &mut [u64])
    ensures { dst.new ≡ zeroed dst.old }
{
    dst.fill(0);
}

// Whether every word is 0. All are read: without an early exit the loop goes many words at a time.
pub fn all_zero(s: &[u64]) -> bool
    ensures { result ≡ same s.now (zeroed s.now) }
{
    s.iter().fold(0, |bits, x| bits | *x) == 0
}

// The first words of dst become those of src. Word by word: with `copy_from_slice` an archive for C would need memmove from outside.
pub fn copy(src: &[u64], dst: &mut [u64])
    requires { length src.now ≤ length dst.old }
    ensures { dst.new ≡ put 0 src.now dst.old }
{
    for i in 0..src.len() {
        dst[i] = src[i];
    }
}
