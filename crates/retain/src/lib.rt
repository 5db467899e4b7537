// A row retained by a tier: its place, the rows that it replaces or evicts, and the ledger settled after it.
#![tactic(auto)]

ghost use Rattle.std.specs.Prelude.{◌≡◌, true, ℕ, ◌*◌, ◌+◌, ◌≤◌, ◌<◌, length, IfOk};
ghost use Rattle.lists.specs.Lists.{zeroed};
ghost use Rattle.words.specs.Region.{has, max_atoms};
ghost use Rattle.model.specs.Slots.{slots_of, row_in, entries_in};
ghost use Rattle.meter.specs.Meter.{pay};
ghost use Rattle.meter.specs.Results.{read_end};
ghost use Rattle.meter.specs.Read.{Paid};
ghost use Rattle.model.specs.Rows.{prepare_reads};
ghost use Rattle.model.specs.Records.{is_row, max_outputs, slot_words, posting_words, founded_rows};
ghost use Rattle.model.specs.Retention.{newborn, settle as settle_of, retain as retain_of};
ghost use Rattle.model.specs.Refusals.{ledger_in, lent_of};
ghost use Rattle.contents.specs.Lent.{lent};
ghost use Rattle.contents.specs.Accepted.{Accepted};
ghost use Rattle.slots.specs.Layout.{Held, tier_of};
ghost use Rattle.row_propose.specs.Proposed.{Proposed};
ghost use Rattle.row_write.specs.Forms.{form_of, new_entry};
ghost use Rattle.retain_compare.specs.Passes.{examined_by};
ghost use Rattle.retain.specs.Places.{room_of, room_reads, placed_by, position_of, evicted_by, Placing, slot_put};
ghost use Rattle.retain.specs.Ends.{retain_end, end_of, admit_end};

use lists::fill_zero;
use meter::{Purse, Unpaid};
use model::{Header, LearningLimits, MAX_ROWS, SLOT_WORDS, Source};
use retain_compare::compare;
use row_write::{Form, prepare, write_row};
use words::WORD_BITS;

// Where a proposal goes that no row subsumes: after all rows, into the first place that it replaces, or into a victim's place.
#[derive(Clone, Copy)]
pub enum Room {
    After,
    First(usize),
    Victim(usize),
}

// The place for a proposal: that of the first row marked; else after all rows while the tier is not full; else the victim's, or none where
// the floor guards the Founded rows and there is no Tip.
fn find_room(
    limits: LearningLimits,
    founded: u64,
    slots: &[u64],
    rows: usize,
    replaced: &[u64],
) -> Option<Room>
    requires fact_1 { Held max_atoms rows slots.now }
    requires fact_2 { founded ≡ founded_rows (entries_in rows slots.now) }
    ensures { result
        ≡ room_of limits (entries_in rows slots.now)
        (examined_by (has replaced.now) 0 (entries_in rows slots.now)) }
{
    match words::next_from(rows as u64, replaced, 0) {
        Some(first) => Some(Room::First(first as usize)),
        None => {
            if (rows as u64) < limits.tier_rows {
                return Some(Room::After);
            }
            let Some(victim) = tier::victim(slots, rows, founded <= limits.founded_floor) else {
                return None;
            };
            Some(Room::Victim(victim))
        }
    }
}

// The postings zeroed. Those of a stale ledger are zero already, and are not written again.
fn clear_postings(stale: bool, postings: &mut [u64])
    requires { stale ≡ true → postings.old ≡ zeroed postings.old }
    ensures { postings.new ≡ zeroed postings.old }
{
    if stale {
        return;
    }
    fill_zero(postings);
}

// The ledger after a row was added to the rows in the slots: one more born, the epoch one more or, after as many additions as the tier has
// places, 0 with all hits halved; the Founded rows counted anew; the postings zeroed, stale and full true.
fn settle(
    header: Header,
    rows: u64,
    evicted: u64,
    slots: &mut [u64],
    postings: &mut [u64],
) -> Header
    requires fact_1 { Held max_atoms rows slots.old }
    requires fact_2 { tier_of slots.old ≡ header.limits.tier_rows }
    requires fact_3 { 1 ≤ header.limits.tier_rows }
    requires fact_4 { length postings.old ≡ posting_words * header.limits.tier_rows }
    requires fact_5 { (header.stale ≡ true → postings.old ≡ zeroed postings.old) }
    ensures { lent result slots.new postings.new
        ≡ lent_of (settle_of header (entries_in rows slots.old) evicted) }
{
    clear_postings(header.stale, postings);
    let born = model::saturating_add(header.born, 1);
    let founded = tier::count_founded(slots, rows as usize);
    if header.limits.tier_rows - 1 <= header.epoch {
        tier::halve(slots, rows as usize);
        return Header {
            rows,
            born,
            epoch: 0,
            evicted,
            founded,
            stale: true,
            full: true,
            ..header
        };
    }
    Header {
        rows,
        born,
        epoch: header.epoch + 1,
        evicted,
        founded,
        stale: true,
        full: true,
        ..header
    }
}

// The slot at a position becomes that of the proposal's row, and no other word changes.
fn write_at(
    slots: &mut [u64],
    position: usize,
    p: &[u64],
    form: Form,
    hits: u64,
    born: u64,
    source: Source,
)
    requires fact_1 { slot_words * position + slot_words ≤ length slots.old }
    requires fact_2 { Proposed p.now }
    requires fact_3 { form ≡ form_of (row_in p.now) }
    ensures { slots.new ≡ slot_put position (new_entry (row_in p.now) hits born source) slots.old }
{
    let a = SLOT_WORDS * position;
    let e = a + SLOT_WORDS;
    write_row(&mut slots[a..e], p, form, hits, born, source);
}

// The proposal's row at its place: after all rows; over the first row that it replaces, the later ones that stay closed up;
// or over the victim.
// Gives how many rows there are then.
fn place(
    slots: &mut [u64],
    rows: usize,
    room: Room,
    replaced: &[u64],
    p: &[u64],
    form: Form,
    hits: u64,
    born: u64,
    source: Source,
) -> usize
    requires fact_1 { Placing room rows slots.old p.now }
    requires fact_2 { form ≡ form_of (row_in p.now) }
    ensures { (slots.new
        ≡ slots_of (tier_of slots.old)
        (placed_by room (has replaced.now) (entries_in rows slots.old)
        (new_entry (row_in p.now) hits born source)))
        × (result
        ≡ length (placed_by room (has replaced.now) (entries_in rows slots.old)
        (new_entry (row_in p.now) hits born source))) }
{
    match room {
        Room::After => {
            write_at(slots, rows, p, form, hits, born, source);
            rows + 1
        }
        Room::First(first) => {
            write_at(slots, first, p, form, hits, born, source);
            tier::close_up(slots, rows, first, replaced)
        }
        Room::Victim(victim) => {
            write_at(slots, victim, p, form, hits, born, source);
            rows
        }
    }
}

// The reads before a row comes to such a place: one for each row where one is replaced or evicted.
fn room_reads(room: Room, rows: u64) -> u64
    ensures { result ≡ room_reads room rows }
{
    match room {
        Room::After => 0,
        Room::First(_) | Room::Victim(_) => rows,
    }
}

// The position of a row that comes to such a place.
fn position(room: Room, rows: u64) -> u64
    ensures { result ≡ position_of room rows }
{
    match room {
        Room::After => rows,
        Room::First(first) => first as u64,
        Room::Victim(victim) => victim as u64,
    }
}

// The evictions after it: one more where a victim gave its place.
fn evictions(room: Room, evicted: u64) -> u64
    ensures { result ≡ evicted_by room evicted }
{
    match room {
        Room::After | Room::First(_) => evicted,
        Room::Victim(_) => model::saturating_add(evicted, 1),
    }
}

// The form of a proposal that comes to such a place, once its reads are paid: those of `prepare`, then those of the place.
fn pay_place(room: Room, rows: u64, p: &[u64], purse: &mut Purse) -> Result<Form, Unpaid>
    requires { Proposed p.now }
    ensures reads { read_end result purse.new
        ≡ pay (prepare_reads (row_in p.now) + room_reads room rows) purse.old.account purse.old.meter }
    ensures form { IfOk result (λ form. form ≡ form_of (row_in p.now)) }
{
    let prepared = prepare(p, purse);
    prepared.paid?;
    purse.pay_all(room_reads(room, rows))?;
    Ok(prepared.form)
}

// What a retention comes to: a row at a position subsumes the proposal, or the proposal has its own position.
#[derive(Clone, Copy, Debug, PartialEq, Eq)]
pub enum Kept {
    Subsumed(u64),
    Added(u64),
}

// The proposal's row in its place, and the ledger settled: the header after it.
fn add(
    header: Header,
    slots: &mut [u64],
    postings: &mut [u64],
    room: Room,
    replaced: &[u64],
    p: &[u64],
    form: Form,
    hits: u64,
    source: Source,
) -> Header
    requires fact_1 { Accepted header slots.old postings.old }
    requires fact_2 { Placing room header.rows slots.old p.now }
    requires fact_3 { form ≡ form_of (row_in p.now) }
    ensures { lent result slots.new postings.new
        ≡ lent_of (settle_of header
        (placed_by room (has replaced.now) (entries_in header.rows slots.old)
        (newborn header (row_in p.now) hits source)) (evicted_by room header.evicted)) }
{
    let born = model::saturating_add(header.born, 1);
    let rows = place(
        slots,
        header.rows as usize,
        room,
        replaced,
        p,
        form,
        hits,
        born,
        source,
    );
    let evicted = evictions(room, header.evicted);
    settle(header, rows as u64, evicted, slots, postings)
}

// A proposal that no row subsumes comes to its place: Added and its position. Declined, and nothing changes, where there is none;
// Declined or Stopped where a read before the first word is written is not paid.
fn admit(
    header: &mut Header,
    slots: &mut [u64],
    postings: &mut [u64],
    replaced: &[u64],
    p: &[u64],
    hits: u64,
    source: Source,
    purse: &mut Purse,
) -> Result<Kept, Unpaid>
    requires fact_1 { Accepted header.old slots.old postings.old }
    requires fact_2 { Proposed p.now }
    requires fact_3 { is_row header.old.limits.atoms (row_in p.now) ≡ true }
    ensures { retain_end result header.new slots.new postings.new purse.new
        ≡ admit_end (lent header.old slots.old postings.old) (has replaced.now) (row_in p.now) hits
        source purse.old.account purse.old.meter }
{
    let room = find_room(
        header.limits,
        header.founded,
        slots,
        header.rows as usize,
        replaced,
    );
    let Some(room) = room else {
        return Err(Unpaid::Declined);
    };
    let form = pay_place(room, header.rows, p, purse)?;
    let at = position(room, header.rows);
    let after = add(
        *header, slots, postings, room, replaced, p, form, hits, source,
    );
    *header = after;
    Ok(Kept::Added(at))
}

// A row retained by an accepted ledger, as the definition's `retain`: Subsumed and the position of a row that subsumes the proposal p;
// Added and its position, with the outputs of the rows that join it, once all reads are paid; Declined where the rows are protected.
// Where a read is not paid, Declined or Stopped, and neither the header nor a lent word changes. p is scratch afterwards.
pub fn retain(
    header: &mut Header,
    slots: &mut [u64],
    postings: &mut [u64],
    p: &mut [u64],
    most: u64,
    hits: u64,
    source: Source,
    purse: &mut Purse,
) -> Result<Kept, Unpaid>
    requires fact_1 { Accepted header.old slots.old postings.old }
    requires fact_2 { Proposed p.old }
    requires fact_3 { is_row header.old.limits.atoms (row_in p.old) ≡ true }
    requires fact_4 { most ≤ max_outputs }
    ensures { retain_end result header.new slots.new postings.new purse.new
        ≡ end_of (retain_of (ledger_in (lent header.old slots.old postings.old)) most hits source
        (row_in p.old) (Paid purse.old.account purse.old.meter)) }
{
    let mut replaced = [0u64; (MAX_ROWS / WORD_BITS) as usize];
    let found = compare(slots, header.rows as usize, p, most, &mut replaced, purse)?;
    if let Some(at) = found {
        return Ok(Kept::Subsumed(at));
    }
    admit(header, slots, postings, &replaced, p, hits, source, purse)
}
