// The operations that take no row into a ledger: make, hit, deduce, next output, begin, decide. None asks anything of its caller.
#![tactic(auto)]

ghost use Rattle.std.specs.Prelude.{◌≡◌};
ghost use Rattle.model.specs.Records.{fresh};
ghost use Rattle.model.specs.Operations.{make, hit, deduce, next_answer, next_output, begin, decide};
ghost use Rattle.contents.specs.Lent.{lent};
ghost use Rattle.row_deduce.specs.Walks.{walked};
ghost use Rattle.row_deduce.specs.Publication.{next_of};
ghost use Rattle.operations.specs.Ends.{unpriced, under, unpriced_decision, make_end, hit_end, refused_by, unmoved_by, deduced_by, deduce_end};
ghost use Rattle.operations.specs.Ends.{output_end, begin_end, decide_end};

use contents::{accept, limits_ok};
use lists::fill_zero;
use meter::{Capture, Meter, Sharing, Stopped};
use model::{
    BeginResult, DecideResult, DeduceAnswer, DeduceResult, Deduction, Header, HitResult,
    LearningLimits, Literal, MakeResult, NextAnswer, NextResult, OutputCursor, POSTING_WORDS,
    Refusal, SLOT_WORDS,
};
use row_deduce::{cursor_ok, deduction, next_publication_output};
use words::is_region;

// The header of a ledger with no rows.
fn fresh_header(limits: LearningLimits, number: u64) -> Header
    ensures { result ≡ fresh limits number }
{
    Header {
        limits,
        number,
        rows: 0,
        born: 0,
        epoch: 0,
        attempts: 0,
        remaining: Capture(limits.founded_work),
        sharing: Sharing(limits.share_work),
        evicted: 0,
        deliveries: 0,
        seeded: 0,
        founded: 0,
        stale: true,
        full: true,
        mark: None,
    }
}

// Makes the header, and zeroes the buffers unless it refuses.
fn try_make(
    limits: LearningLimits,
    number: u64,
    slots: &mut [u64],
    postings: &mut [u64],
) -> Result<Header, Refusal>
    ensures { make_end (unpriced result) slots.new postings.new
        ≡ make limits number slots.old postings.old }
{
    if !limits_ok(limits) {
        return Err(Refusal::Limits);
    }
    let tier = limits.tier_rows as usize;
    if slots.len() != SLOT_WORDS * tier {
        return Err(Refusal::Lengths);
    }
    if postings.len() != POSTING_WORDS * tier {
        return Err(Refusal::Lengths);
    }
    fill_zero(slots);
    fill_zero(postings);
    Ok(fresh_header(limits, number))
}

// Makes a ledger in two lent buffers, whatever they hold: refused by Limits or Lengths, or the fresh header, with every word 0.
pub fn make(
    limits: LearningLimits,
    number: u64,
    slots: &mut [u64],
    postings: &mut [u64],
) -> MakeResult
    ensures { make_end result slots.new postings.new
        ≡ make limits number slots.old postings.old }
{
    MakeResult {
        answer: try_make(limits, number, slots, postings),
        ticks: 0,
    }
}

// Begins a search over all rows: refused by Limits, Lengths or Contents, or the header with full true.
pub fn begin(header: Header, slots: &[u64], postings: &[u64]) -> BeginResult
    ensures { begin_end result slots.now postings.now
        ≡ begin (lent header slots.now postings.now) }
{
    let answer = accept(header, slots, postings, true);
    let after = match answer {
        Ok(()) => Header {
            full: true,
            ..header
        },
        Err(_) => header,
    };
    BeginResult {
        answer,
        header: after,
        ticks: 0,
    }
}

// Counts the hit, unless it refuses.
fn try_hit(
    header: Header,
    slots: &mut [u64],
    postings: &[u64],
    position: u64,
) -> Result<(), Refusal>
    ensures { hit_end (under header result) slots.new postings.now
        ≡ hit (lent header slots.old postings.now) position }
{
    accept(header, slots, postings, true)?;
    if header.rows <= position {
        return Err(Refusal::Position);
    }
    tier::hit(slots, position as usize);
    Ok(())
}

// Counts one hit, not shared yet, for the row at a position: refused by Limits, Lengths, Contents, or by Position if there is no such row.
pub fn hit(header: Header, slots: &mut [u64], postings: &[u64], position: u64) -> HitResult
    ensures { hit_end result slots.new postings.now
        ≡ hit (lent header slots.old postings.now) position }
{
    HitResult {
        answer: try_hit(header, slots, postings, position),
        header,
        ticks: 0,
    }
}

// A deduction that was refused: nothing is deduced, and no tick is made.
fn deduce_refused(refusal: Refusal, work: Meter) -> DeduceResult
    ensures { result ≡ refused_by refusal work }
{
    DeduceResult {
        answer: Err(refusal),
        deduction: Deduction::Nothing,
        meter: work,
        ticks: 0,
    }
}

// A deduction as the row's own gives it, done or stopped, with the ticks made since the meter stood at `before`.
fn deduce_done(found: Result<Deduction, Stopped>, before: Meter, meter: Meter) -> DeduceResult
    ensures { result ≡ deduced_by before (walked found meter) }
{
    let (answer, said) = match found {
        Ok(said) => (DeduceAnswer::Done, said),
        Err(Stopped) => (DeduceAnswer::Stopped, Deduction::Nothing),
    };
    DeduceResult {
        answer: Ok(answer),
        deduction: said,
        meter,
        ticks: meter.made(before),
    }
}

// What the row at a position says of a region: refused by Limits, Lengths, Contents, by Position if there is no such row, by Region if
// there is no region over the ledger's atoms; Stopped, or the deduction.
pub fn deduce(
    header: Header,
    slots: &[u64],
    postings: &[u64],
    position: u64,
    held: &[u64],
    cut: &[u64],
    work: Meter,
) -> DeduceResult
    ensures { deduce_end result
        ≡ deduce (lent header slots.now postings.now) position held.now cut.now work }
{
    if let Err(refusal) = accept(header, slots, postings, true) {
        return deduce_refused(refusal, work);
    }
    if header.rows <= position {
        return deduce_refused(Refusal::Position, work);
    }
    if !is_region(header.limits.atoms, held, cut) {
        return deduce_refused(Refusal::Region, work);
    }
    let a = SLOT_WORDS * (position as usize);
    let e = a + SLOT_WORDS;
    let mut meter = work;
    let found = deduction(&slots[a..e], held, cut, &mut meter);
    deduce_done(found, work, meter)
}

// The answer of what is next.
#[tactic(auto, unfolding(model::specs::Operations::next_answer))]
fn next_answer(found: Result<Option<Literal>, Stopped>) -> NextAnswer
    ensures { result ≡ next_answer (next_of found) }
{
    match found {
        Ok(Some(literal)) => NextAnswer::Output(literal),
        Ok(None) => NextAnswer::End,
        Err(Stopped) => NextAnswer::Stopped,
    }
}

// A next output that was refused: the cursor stays, and no tick is made.
fn next_refused(refusal: Refusal, cursor: OutputCursor, work: Meter) -> NextResult
    ensures { result ≡ unmoved_by refusal cursor work }
{
    NextResult {
        answer: Err(refusal),
        cursor,
        meter: work,
        ticks: 0,
    }
}

// The next output of the row at a position, with the cursor past it: refused as `deduce`, and by Cursor if the cursor is none of that
// row's; Stopped, End, or the output.
pub fn next_output(
    header: Header,
    slots: &[u64],
    postings: &[u64],
    position: u64,
    cursor: OutputCursor,
    held: &[u64],
    cut: &[u64],
    work: Meter,
) -> NextResult
    ensures { output_end result
        ≡ next_output (lent header slots.now postings.now) position cursor held.now cut.now
        work }
{
    if let Err(refusal) = accept(header, slots, postings, true) {
        return next_refused(refusal, cursor, work);
    }
    if header.rows <= position {
        return next_refused(Refusal::Position, cursor, work);
    }
    if !is_region(header.limits.atoms, held, cut) {
        return next_refused(Refusal::Region, cursor, work);
    }
    let a = SLOT_WORDS * (position as usize);
    let e = a + SLOT_WORDS;
    if !cursor_ok(&slots[a..e], cursor) {
        return next_refused(Refusal::Cursor, cursor, work);
    }
    let mut meter = work;
    let mut past = cursor;
    let found = next_publication_output(&slots[a..e], &mut past, held, cut, &mut meter);
    NextResult {
        answer: Ok(next_answer(found)),
        cursor: past,
        meter,
        ticks: meter.made(work),
    }
}

// Decides, unless it refuses.
fn try_decide(
    atoms: u64,
    held: &mut [u64],
    cut: &mut [u64],
    atom: u64,
    value: bool,
) -> Result<bool, Refusal>
    ensures { decide_end (unpriced_decision result) held.new cut.new
        ≡ decide atoms held.old cut.old atom value }
{
    if !is_region(atoms, held, cut) {
        return Err(Refusal::Region);
    }
    Ok(words::decide(atoms, held, cut, atom, value))
}

// Holds or cuts an atom of a region: refused by Region if there is no region over `atoms` atoms; false, and nothing changed, if the atom is
// not below `atoms` or the opposite is marked.
pub fn decide(atoms: u64, held: &mut [u64], cut: &mut [u64], atom: u64, value: bool) -> DecideResult
    ensures { decide_end result held.new cut.new ≡ decide atoms held.old cut.old atom value }
{
    DecideResult {
        answer: try_decide(atoms, held, cut, atom, value),
        ticks: 0,
    }
}
