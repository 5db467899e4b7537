// `rebuild_postings`: the postings of all rows, one tick a posting, sorted in place.
ghost use Rattle.std.specs.Prelude.{◌≡◌, ◌≤◌, length, take};
ghost use Rattle.lists.specs.Lists.{pad};
ghost use Rattle.meter.specs.Meter.{ticks};
ghost use Rattle.model.specs.Slots.{row_in};
ghost use Rattle.model.specs.Postings.{row_postings, postings_of};
ghost use Rattle.slots.specs.Cursor.{list_of};
ghost use Rattle.slots.specs.Standing.{Stands};
ghost use Rattle.postings.specs.Steps.{walk};
ghost use Rattle.slots.specs.Layout.{rows_in};
ghost use Rattle.postings.specs.Filling.{side_postings, put, filled_to, FilledBy, posted, refiled, Postable, RowPostable, RowsPostable};

use lists::{fill_zero, sort};
use meter::{Meter, Stopped};
use model::{Header, MAX_ROWS, SLOT_WORDS};
use slots::Side;

// Writes the postings of one side of the row at a position from a place on, one tick before each; the place after the last. Where the
// meter stops it, those before stand.
fn post_side(
    slot: &[u64],
    side: Side,
    position: u64,
    postings: &mut [u64],
    at: usize,
    meter: &mut Meter,
) -> Result<usize, Stopped>
    requires { Postable slot.now side position at (length postings.old) }
    ensures { FilledBy result meter.new postings.new
        (walk put (side_postings position (list_of slot.now side)) (filled_to at postings.old) meter.old) }
{
    let mut next = at;
    let mut last: Option<u64> = None;
    let mut cursor = slots::start();
    while let Some((code, past)) = slots::next(slot, side, cursor) {
        cursor = past;
        let atom = code / 2;
        if last == Some(atom) {
            continue;
        }
        meter.tick()?;
        postings[next] = atom * MAX_ROWS + position;
        next += 1;
        last = Some(atom);
    }
    Ok(next)
}

// Writes the postings of the row in a slot, those of the conditions first.
fn post_row(
    slot: &[u64],
    position: u64,
    postings: &mut [u64],
    at: usize,
    meter: &mut Meter,
) -> Result<usize, Stopped>
    requires { RowPostable slot.now position at (length postings.old) }
    ensures { FilledBy result meter.new postings.new
        (walk put (row_postings position (row_in slot.now)) (filled_to at postings.old) meter.old) }
{
    let conditions = slots::conditions(slot);
    let outputs = slots::outputs(slot);
    let next = post_side(slot, conditions, position, postings, at, meter)?;
    post_side(slot, outputs, position, postings, next, meter)
}

// Writes the postings of the first rows in turn, from the front on; their number.
fn post_rows(
    slots: &[u64],
    rows: usize,
    postings: &mut [u64],
    meter: &mut Meter,
) -> Result<usize, Stopped>
    requires { RowsPostable rows slots.now (length postings.old) }
    ensures { FilledBy result meter.new postings.new
        (walk put (postings_of (rows_in rows slots.now)) (filled_to 0 postings.old) meter.old) }
{
    let mut next: usize = 0;
    for position in 0..rows {
        let start = SLOT_WORDS * position;
        let end = start + SLOT_WORDS;
        next = post_row(&slots[start..end], position as u64, postings, next, meter)?;
    }
    Ok(next)
}

// Zeros from a place on.
fn zero_from(words: &mut [u64], from: usize)
    requires { from ≤ length words.old }
    ensures { words.new ≡ pad (length words.old) (take from words.old) }
{
    fill_zero(&mut words[from..]);
}

// The postings of all rows, ascending, then zeros; their number. One tick a posting: where the meter stops it, every word is 0.
pub fn rebuild_postings(
    header: Header,
    slots: &[u64],
    postings: &mut [u64],
    meter: &mut Meter,
) -> Result<usize, Stopped>
    requires { Stands header slots.now postings.old }
    ensures { posted result meter.new postings.new
        ≡ refiled header.limits.tier_rows (rows_in header.rows slots.now)
        (ticks (length (postings_of (rows_in header.rows slots.now))) meter.old) }
{
    match post_rows(slots, header.rows as usize, postings, meter) {
        Ok(count) => {
            sort(postings, count, header.limits.atoms * MAX_ROWS);
            zero_from(postings, count);
            Ok(count)
        }
        Err(stopped) => {
            zero_from(postings, 0);
            Err(stopped)
        }
    }
}
