// Closing: rounds of candidates, deductions and decisions. It asks nothing of its caller.
#![tactic(auto)]

ghost use Rattle.std.specs.Prelude.{◌≡◌};
ghost use Rattle.model.specs.Operations.{close};
ghost use Rattle.contents.specs.Lent.{lent};
ghost use Rattle.close.specs.Ends.{scratch_ok, answer_of, closed_end};

use close_publish::Halt;
use close_rounds::rounds;
use contents::accept;
use lists::fill_zero;
use meter::Meter;
use model::{CloseAnswer, CloseResult, Header, LearningLimits, Refusal};
use words::is_region;

// Whether the scratches have a word for each row and each atom.
fn scratch_ok(limits: LearningLimits, rows: &[u64], atoms: &[u64]) -> bool
    ensures { result ≡ scratch_ok limits rows.now atoms.now }
{
    if rows.len() != limits.tier_rows as usize {
        return false;
    }
    atoms.len() == limits.atoms as usize
}

// Rounds that go on to the end are Closed.
fn answer_of(end: Result<(), Halt>) -> CloseAnswer
    ensures { result ≡ answer_of end }
{
    match end {
        Ok(_) => CloseAnswer::Closed,
        Err(Halt::Conflict) => CloseAnswer::Conflict,
        Err(Halt::Stopped) => CloseAnswer::Stopped,
    }
}

// Closes a region under the rows of a ledger: refused by Limits, Lengths or Contents, or by Region if there is no region over the
// ledger's atoms; Closed if no row forces or requires a literal that the region lacks, Conflict if a row decides against it, Stopped if a
// tick was not made. Conflict and Stopped keep what was decided. Beside it the contradicted output of the last Require that was acted on.
// Both scratches end as zeros.
pub fn close(
    header: Header,
    slots: &mut [u64],
    postings: &mut [u64],
    held: &mut [u64],
    cut: &mut [u64],
    rows_scratch: &mut [u64],
    atoms_scratch: &mut [u64],
    work: Meter,
) -> CloseResult
    ensures { closed_end result slots.new postings.new held.new cut.new
        rows_scratch.new atoms_scratch.new
        ≡ close (lent header slots.old postings.old) held.old cut.old
        rows_scratch.old atoms_scratch.old work }
{
    let limits = header.limits;
    let others = scratch_ok(limits, rows_scratch, atoms_scratch);
    if let Err(refusal) = accept(header, slots, postings, others) {
        return CloseResult {
            answer: Err(refusal),
            contradicted: None,
            header,
            meter: work,
            ticks: 0,
        };
    }
    if !is_region(limits.atoms, held, cut) {
        return CloseResult {
            answer: Err(Refusal::Region),
            contradicted: None,
            header,
            meter: work,
            ticks: 0,
        };
    }
    let mut after = Header {
        full: true,
        ..header
    };
    let mut contradicted = None;
    let mut meter = work;
    let end = rounds(
        &mut after,
        slots,
        postings,
        held,
        cut,
        rows_scratch,
        atoms_scratch,
        &mut contradicted,
        &mut meter,
    );
    fill_zero(rows_scratch);
    fill_zero(atoms_scratch);
    CloseResult {
        answer: Ok(answer_of(end)),
        contradicted: contradicted,
        header: after,
        meter: meter,
        ticks: meter.made(work),
    }
}
