// The ledgers of a script, whose words lie in the program's arrays.
ghost use Rattle.std.specs.Prelude.{◌≤◌, length, IfSome};

use crate::memory::{Head, POSTINGS, Postings, ROWS, SLOTS, Slots};
use crate::points::Point;
use model::{POSTING_WORDS, SLOT_WORDS};
use wire::HEAD_TIER_ROWS_AT;

// What the calls of a script share: the words of all ledgers, and the atoms that have a name.
#[derive(Drop)]
pub struct Memory<'a> {
    pub heads: &'a mut [Head],
    pub slots: &'a mut [Slots],
    pub postings: &'a mut [Postings],
    pub points: &'a mut [Option<Point>],
}

// The words of one ledger: its header, and its slots and postings, as many as its rows take.
#[derive(Drop)]
pub struct Ledger<'a> {
    pub head: &'a mut Head,
    pub slots: &'a mut [u64],
    pub postings: &'a mut [u64],
}

// The parts of these words that a ledger of so many rows has; none where there is no room for them, or it would have no row.
fn part<'a>(
    head: &'a mut Head,
    slots: &'a mut Slots,
    postings: &'a mut Postings,
    rows: u64,
) -> Option<Ledger<'a>>
    ensures { IfSome result (λ l. (length l.slots.now ≤ SLOTS) × (length l.postings.now ≤ POSTINGS)) }
{
    if rows == 0 || ROWS < rows {
        return None;
    }
    let n = rows as usize;
    Some(Ledger {
        head,
        slots: &mut slots[..SLOT_WORDS * n],
        postings: &mut postings[..POSTING_WORDS * n],
    })
}

// The words for a ledger of this number and of so many rows.
pub fn place_for<'a>(
    heads: &'a mut [Head],
    slots: &'a mut [Slots],
    postings: &'a mut [Postings],
    index: u64,
    rows: u64,
) -> Option<Ledger<'a>>
    ensures { IfSome result (λ l. (length l.slots.now ≤ SLOTS) × (length l.postings.now ≤ POSTINGS)) }
{
    let i = index as usize;
    part(
        heads.get_mut(i)?,
        slots.get_mut(i)?,
        postings.get_mut(i)?,
        rows,
    )
}

// The ledger of this number; none where it is not made: the header of such a one is all zero.
pub fn ledger_at<'a>(
    heads: &'a mut [Head],
    slots: &'a mut [Slots],
    postings: &'a mut [Postings],
    index: u64,
) -> Option<Ledger<'a>> {
    let i = index as usize;
    let head = heads.get_mut(i)?;
    let rows = head[HEAD_TIER_ROWS_AT];
    part(head, slots.get_mut(i)?, postings.get_mut(i)?, rows)
}

// Two of a list of parts, at once; none where one is not there or both are the same.
fn both<T>(parts: &mut [T], i: usize, j: usize) -> Option<(&mut T, &mut T)> {
    if i < j {
        let (low, high) = parts.split_at_mut_checked(j)?;
        Some((low.get_mut(i)?, high.first_mut()?))
    } else {
        let (low, high) = parts.split_at_mut_checked(i)?;
        Some((high.first_mut()?, low.get_mut(j)?))
    }
}

// The ledgers of two numbers.
pub fn two_ledgers<'a>(
    heads: &'a mut [Head],
    slots: &'a mut [Slots],
    postings: &'a mut [Postings],
    index: u64,
    other: u64,
) -> Option<(Ledger<'a>, Ledger<'a>)> {
    let i = index as usize;
    let j = other as usize;
    let (head, other_head) = both(heads, i, j)?;
    let (slots, other_slots) = both(slots, i, j)?;
    let (postings, other_postings) = both(postings, i, j)?;
    let rows = head[HEAD_TIER_ROWS_AT];
    let other_rows = other_head[HEAD_TIER_ROWS_AT];
    Some((
        part(head, slots, postings, rows)?,
        part(other_head, other_slots, other_postings, other_rows)?,
    ))
}
