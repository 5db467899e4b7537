// The rows in the slots of a ledger: one by its items, and the lines of `dump`.
use crate::decoding::{Slot, condition_codes, front, is_packed, output_codes};
use crate::lines::put_call;
use model::{BODY_AT, GROUP_WORDS, SLOT_WORDS, SOURCE_AT, TOTAL_GROUPS_AT};
use script_notation::calls::{Asked, LineError};
use script_notation::ledgers::Ledger;
use script_notation::literals::put_items_by;
use script_notation::points::{Anywhere, Names, Point};
use std::num::wrapping_add_usize;
use text::{Writer, ended, kept};
use wire::{HEAD_ROWS_AT, HEAD_STALE_AT};
use words::run_count;

// The row of a slot by its items.
fn put_slot<N: Names>(out: &mut Writer, names: N, slot: &Slot) {
    let conditions = condition_codes(slot);
    let outputs = output_codes(slot);
    out.put(b' ');
    put_items_by(out, names, conditions.as_slice());
    out.put_text(b" -> ");
    put_items_by(out, names, outputs.as_slice());
}

// The row at a position by its items, ` ITEMS -> ITEMS`; nothing where there is none.
pub fn put_row_by<N: Names>(out: &mut Writer, names: N, slots: &[u64], position: u64) {
    let (rows, _) = slots.as_chunks::<SLOT_WORDS>();
    let i = position as usize;
    match rows.get(i) {
        Some(slot) => put_slot(out, names, slot),
        None => {}
    }
}

// The same by the names of points in any order.
pub fn put_row(out: &mut Writer, points: &[Option<Point>], slots: &[u64], position: u64) {
    put_row_by(out, Anywhere(points), slots, position);
}

// Groups as `INDEX:PRESENT:ABSENT` with commas between them, or `-` for none.
fn put_groups(out: &mut Writer, groups: &[[u64; GROUP_WORDS]]) {
    if groups.is_empty() {
        out.put(b'-');
    }
    for (i, group) in groups.iter().enumerate() {
        out.put_comma(0 < i);
        out.put_decimal(group[0]);
        out.put(b':');
        out.put_hexadecimal(group[1]);
        out.put(b':');
        out.put_hexadecimal(group[2]);
    }
}

// The groups of a slot.
fn put_body(out: &mut Writer, slot: &Slot) {
    let body = front(&slot[BODY_AT..], true, slot[TOTAL_GROUPS_AT]);
    let (groups, _) = body.as_chunks::<GROUP_WORDS>();
    out.put_text(b" groups=");
    put_groups(out, groups);
}

// The conditions and outputs of a slot by their codes; how many postings they have.
fn put_codes(out: &mut Writer, slot: &Slot) -> usize {
    let conditions = condition_codes(slot);
    let outputs = output_codes(slot);
    out.put_text(b" c=");
    out.put_list(conditions.as_slice());
    out.put_text(b" o=");
    out.put_list(outputs.as_slice());
    let c = run_count(conditions.as_slice(), 1);
    let o = run_count(outputs.as_slice(), 1);
    wrapping_add_usize(c, o)
}

// The line of a row; how many postings it has.
fn put_line(out: &mut Writer, position: u64, slot: &Slot) -> usize {
    let form = if is_packed(slot) {
        b" packed"
    } else {
        b" scalar"
    };
    out.put_field(b"\n row ", position);
    out.put_text(form);
    let postings = put_codes(out, slot);
    let names = b"tg= cg= hits= unshared= born= delivered=";
    out.put_fields(names, &slot[TOTAL_GROUPS_AT..BODY_AT]);
    out.put_field(b" source=", slot[SOURCE_AT]);
    put_body(out, slot);
    postings
}

// The lines of the rows; how many postings they have.
fn put_lines(out: &mut Writer, rows: u64, slots: &[u64]) -> usize {
    let (slots, _) = slots.as_chunks::<SLOT_WORDS>();
    let mut postings = 0;
    for (position, slot) in (0..rows).zip(slots) {
        postings = wrapping_add_usize(postings, put_line(out, position, slot));
    }
    postings
}

// The postings built, or `-` where stale.
fn put_postings(out: &mut Writer, stale: bool, postings: &[u64], count: usize) {
    out.put_text(b"\n postings ");
    if stale {
        out.put(b'-');
        return;
    }
    let n = kept(postings, count);
    out.put_list(&postings[..n]);
}

// `dump I`: a look inside. `dump I`, then a line for each row,
// ` row P FORM c=LIST o=LIST tg=N cg=N hits=N unshared=N born=N delivered=B source=N groups=LIST`, and ` postings LIST`.
pub fn dump(q: Asked, ledger: &Ledger, out: &mut Writer) -> Result<(), LineError> {
    if !ended(q.line, q.at) {
        return Err(LineError::Malformed);
    }
    let head = *ledger.head;
    put_call(out, q.line, q.index);
    let count = put_lines(out, head[HEAD_ROWS_AT], ledger.slots);
    let stale = head[HEAD_STALE_AT] != 0;
    put_postings(out, stale, ledger.postings, count);
    Ok(())
}
