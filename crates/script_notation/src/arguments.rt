// The two lists that a call ends with, as words: codes, the atoms of a region, or the items of `rule`, `tip` and `plan`; and behind the
// codes of `offer` their source.
ghost use Rattle.std.specs.Prelude.{◌≤◌, length, IfSome};

use crate::calls::Call;
use crate::literals::{Ending, gather, items};
use crate::memory::Literals;
use crate::points::Point;
use crate::regions::{read_region, region_of};
use text::{ended, filled, kept};

// The two lists, and the source of a row, 0 where there is none.
#[derive(Clone, Copy)]
pub struct Lists<'a> {
    pub first: &'a [u64],
    pub second: &'a [u64],
    pub source: u64,
}

// The source that a line ends with, and the place after it; one that is left out is 0, Founded.
fn read_source(line: &[u8], at: usize) -> Option<(u64, usize)> {
    if ended(line, at) {
        return Some((0, at));
    }
    text::number(line, at)
}

// Conditions and outputs by their codes, and their source. Of a list that is too long for any row more numbers are kept than a row has,
// and so it is refused.
fn read_codes<'a>(
    line: &[u8],
    at: usize,
    first: &'a mut [u64],
    second: &'a mut [u64],
) -> Option<Lists<'a>>
    ensures { IfSome result (λ l. (length l.first.now ≤ length first.old) × (length l.second.now ≤ length second.old)) }
{
    let c = text::list(line, at, first)?;
    let o = text::list(line, c.at, second)?;
    let (source, end) = read_source(line, o.at)?;
    if !ended(line, end) {
        return None;
    }
    let n = kept(first, c.count);
    let m = kept(second, o.count);
    Some(Lists {
        first: &first[..n],
        second: &second[..m],
        source,
    })
}

// Conditions and outputs as items, with an arrow between them, of a row with this source.
fn read_rule<'a>(
    line: &[u8],
    at: usize,
    points: &[Option<Point>],
    source: u64,
    first: &'a mut [u64],
    second: &'a mut [u64],
) -> Option<Lists<'a>>
    ensures { IfSome result (λ l. (length l.first.now ≤ length first.old) × (length l.second.now ≤ length second.old)) }
{
    let mut conditions: Literals = filled(0);
    let mut outputs: Literals = filled(0);
    let Ending::Arrow(at) = items(line, at, points, true, &mut conditions)? else {
        return None;
    };
    let Ending::Line = items(line, at, points, true, &mut outputs)? else {
        return None;
    };
    let n = gather(&conditions, first);
    let m = gather(&outputs, second);
    Some(Lists {
        first: &first[..n],
        second: &second[..m],
        source,
    })
}

// A region as items.
fn read_plan<'a>(
    line: &[u8],
    at: usize,
    points: &[Option<Point>],
    atoms: u64,
    first: &'a mut [u64],
    second: &'a mut [u64],
) -> Option<Lists<'a>>
    ensures { IfSome result (λ l. (length l.first.now ≤ length first.old) × (length l.second.now ≤ length second.old)) }
{
    let mut set: Literals = filled(0);
    let Ending::Line = items(line, at, points, false, &mut set)? else {
        return None;
    };
    Some(region_of(atoms, &set, first, second))
}

// The lists of a call from `at` on, for a ledger over `atoms` atoms; none where the line has not the two lists, or more behind them. Both
// hold zeros before.
pub fn read_lists<'a>(
    call: Call,
    line: &[u8],
    at: usize,
    points: &[Option<Point>],
    atoms: u64,
    first: &'a mut [u64],
    second: &'a mut [u64],
) -> Option<Lists<'a>>
    ensures { IfSome result (λ l. (length l.first.now ≤ length first.old) × (length l.second.now ≤ length second.old)) }
{
    match call {
        Call::Offer => read_codes(line, at, first, second),
        Call::Rule => read_rule(line, at, points, 0, first, second),
        Call::Tip => read_rule(line, at, points, 1, first, second),
        Call::Plan => read_plan(line, at, points, atoms, first, second),
        Call::Deduce | Call::Next | Call::Close => read_region(line, at, atoms, first, second),
        _ if ended(line, at) => Some(Lists {
            first: &first[..0],
            second: &second[..0],
            source: 0,
        }),
        _ => None,
    }
}
