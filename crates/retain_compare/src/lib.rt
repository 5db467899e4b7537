// A proposal beside the rows of a tier: the rows that it joins or dominates, or a row that subsumes it. Every read is paid for from a
// purse, and one that is not paid ends the comparison. No row changes.
#![tactic(auto)]

ghost use Rattle.std.specs.Prelude.{◌≡◌, true, false, ℕ, ◌*◌, ◌≤◌, ◌/◌, ◌<◌, length, OnOk};
ghost use Rattle.words.specs.Region.{has, max_atoms};
ghost use Rattle.meter.specs.Meter.{pay, judged};
ghost use Rattle.meter.specs.Results.{read_end, judged_end, verdict_of};
ghost use Rattle.model.specs.Rows.{subsumes as subsumes_of};
ghost use Rattle.model.specs.Slots.{row_in, entries_in};
ghost use Rattle.model.specs.Records.{max_outputs};
ghost use Rattle.model.specs.Union.{joins};
ghost use Rattle.model.specs.Retention.{passed, first_pass, first_reads, second_pass, second_reads};
ghost use Rattle.slots.specs.Layout.{Laid, Held, proposal};
ghost use Rattle.row_propose.specs.Proposed.{Proposed};
ghost use Rattle.retain_compare.specs.Passes.{examined_by, row_reads, proposal_after};
ghost use Rattle.retain_compare.specs.Turns.{marked_if, WhereNo, sweep_reads, swept_marks, comparison, comparison_end, compared_of};
ghost use Rattle.retain_compare.specs.Turns.{WhereReplaces, both_passes, compare_reads};

use meter::{Purse, Unpaid};
use model::SLOT_WORDS;

// The second pass at one position, which is marked if the proposal p subsumes the row. A row that is marked already costs nothing, any
// other one read and those of the question.
fn sweep_row(
    row: &[u64],
    position: u64,
    p: &[u64],
    replaced: &mut [u64],
    purse: &mut Purse,
) -> Result<(), Unpaid>
    requires fact_1 { Laid row.now }
    requires fact_2 { Laid p.now }
    ensures paid { read_end result purse.new
        ≡ pay (sweep_reads (has replaced.old position) (row_in p.now) (row_in row.now)) purse.old.account
        purse.old.meter }
    ensures marked { OnOk result (replaced.new
        ≡ swept_marks (has replaced.old position) replaced.old position (row_in p.now)
        (row_in row.now)) }
{
    if words::contains(replaced, position) {
        return Ok(());
    }
    purse.pay()?;
    if row_subsume::subsumes(p, row, purse)? {
        words::insert(replaced, position);
    }
    Ok(())
}

// The second pass: every row that the proposal p subsumes is marked beside those that were. Rows marked already cost nothing.
pub fn second_pass(
    slots: &[u64],
    rows: usize,
    p: &[u64],
    replaced: &mut [u64],
    purse: &mut Purse,
) -> Result<(), Unpaid>
    requires fact_1 { Held max_atoms rows slots.now }
    requires fact_2 { Laid p.now }
    requires fact_3 { rows ≤ 64 * length replaced.old }
    ensures paid { read_end result purse.new
        ≡ pay (second_reads (row_in p.now) (examined_by (has replaced.old) 0 (entries_in rows slots.now)))
        purse.old.account purse.old.meter }
    ensures marked { OnOk result (examined_by (has replaced.new) 0 (entries_in rows slots.now)
        ≡ second_pass (row_in p.now) (examined_by (has replaced.old) 0 (entries_in rows slots.now))) }
{
    for i in 0..rows {
        let at = SLOT_WORDS * i;
        sweep_row(&slots[at..at + SLOT_WORDS], i as u64, p, replaced, purse)?;
    }
    Ok(())
}

// The first pass at one position: whether the row subsumes the proposal p. If not, and the two join, p has their union and the position is
// marked. One read, then those of the two questions.
fn compare_row(
    row: &[u64],
    position: u64,
    p: &mut [u64],
    most: u64,
    replaced: &mut [u64],
    purse: &mut Purse,
) -> Result<bool, Unpaid>
    requires fact_1 { Laid row.now }
    requires fact_2 { Proposed p.old }
    requires fact_3 { most ≤ max_outputs }
    ensures asked { judged_end result purse.new
        ≡ judged (subsumes_of (row_in row.now) (row_in p.old))
        (pay (row_reads most (row_in row.now) (row_in p.old)) purse.old.account purse.old.meter) }
    ensures joined { WhereNo (verdict_of result)
        ((p.new ≡ proposal (proposal_after most (row_in row.now) (row_in p.old)))
        × (replaced.new
        ≡ marked_if (joins most (row_in row.now) (row_in p.old)) replaced.old position)) }
{
    purse.pay()?;
    if row_subsume::subsumes(row, p, purse)? {
        return Ok(true);
    }
    if row_merge::union_outputs(row, p, most, purse)? {
        words::insert(replaced, position);
    }
    Ok(false)
}

// The first pass, position by position with the growing proposal p: the first position whose row subsumes it, or None, with the outputs of
// every row that joins it in p and those positions marked.
fn first_pass(
    slots: &[u64],
    rows: usize,
    p: &mut [u64],
    most: u64,
    replaced: &mut [u64],
    purse: &mut Purse,
) -> Result<Option<u64>, Unpaid>
    requires fact_1 { Held max_atoms rows slots.now }
    requires fact_2 { Proposed p.old }
    requires fact_3 { most ≤ max_outputs }
    requires fact_4 { rows ≤ 64 * length replaced.old }
    requires fact_5 { ((j : ℕ) → has replaced.old j ≡ false) }
    ensures { (comparison_end result purse.new
        ≡ comparison (first_pass most (row_in p.old) (entries_in rows slots.now))
        (pay (first_reads most (row_in p.old) (entries_in rows slots.now)) purse.old.account
        purse.old.meter))
        × WhereReplaces (compared_of result) ((first_pass most (row_in p.old) (entries_in rows slots.now)
        ≡ passed (examined_by (has replaced.new) 0 (entries_in rows slots.now)) (row_in p.new))
        × Proposed p.new) }
{
    for i in 0..rows {
        let at = SLOT_WORDS * i;
        if compare_row(
            &slots[at..at + SLOT_WORDS],
            i as u64,
            p,
            most,
            replaced,
            purse,
        )? {
            return Ok(Some(i as u64));
        }
    }
    Ok(None)
}

// The proposal p beside every row: the first position whose row subsumes it; or None, with the outputs of every row that joins it in p, and
// those positions marked as well as the ones of the rows that it then dominates.
pub fn compare(
    slots: &[u64],
    rows: usize,
    p: &mut [u64],
    most: u64,
    replaced: &mut [u64],
    purse: &mut Purse,
) -> Result<Option<u64>, Unpaid>
    requires fact_1 { Held max_atoms rows slots.now }
    requires fact_2 { Proposed p.old }
    requires fact_3 { most ≤ max_outputs }
    requires fact_4 { rows ≤ 64 * length replaced.old }
    requires fact_5 { ((j : ℕ) → has replaced.old j ≡ false) }
    ensures { (comparison_end result purse.new
        ≡ comparison (first_pass most (row_in p.old) (entries_in rows slots.now))
        (pay (compare_reads most (row_in p.old) (entries_in rows slots.now)) purse.old.account
        purse.old.meter))
        × WhereReplaces (compared_of result) ((both_passes (first_pass most (row_in p.old) (entries_in rows slots.now))
        ≡ passed (examined_by (has replaced.new) 0 (entries_in rows slots.now)) (row_in p.new))
        × Proposed p.new) }
{
    if let Some(position) = first_pass(slots, rows, p, most, replaced, purse)? {
        return Ok(Some(position));
    }
    second_pass(slots, rows, p, replaced, purse)?;
    Ok(None)
}
