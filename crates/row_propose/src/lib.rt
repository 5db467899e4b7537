// Rows on their way to a slot: the test of an offered row, and a row laid out as a proposal.
#![tactic(auto)]

ghost use Rattle.std.specs.Prelude.{◌≡◌, ◌&&◌, true, ◌<◌, ◌≤◌, length, OnOk};
ghost use Rattle.lists.specs.Lists.{put};
ghost use Rattle.meter.specs.Meter.{pay};
ghost use Rattle.meter.specs.Results.{read_end};
ghost use Rattle.model.specs.Records.{within, is_row_over, literals, slot_words, max_conditions, max_outputs};
ghost use Rattle.model.specs.Slots.{row_in};
ghost use Rattle.slots.specs.Cursor.{Sound, list_of};
ghost use Rattle.slots.specs.Layout.{Laid, proposal, row_of};
ghost use Rattle.row_propose.specs.Parts.{blank_of};

use lists::{copy, fill_zero};
use meter::{Purse, Unpaid};
use model::{BODY_AT, CONDITIONS_AT, OUTPUTS_AT};
use slots::Side;
use words::ascends;

// Whether the lists are a row over so many atoms, with at most so many conditions and outputs.
pub fn is_row(
    atoms: u64,
    most_conditions: u64,
    most_outputs: u64,
    conditions: &[u64],
    outputs: &[u64],
) -> bool
    ensures { result ≡ (within most_conditions most_outputs (row_of conditions.now outputs.now)
        && is_row_over atoms (row_of conditions.now outputs.now)) }
{
    if most_conditions < conditions.len() as u64 {
        return false;
    }
    if most_outputs < outputs.len() as u64 {
        return false;
    }
    if !ascends(conditions, 1, atoms) {
        return false;
    }
    ascends(outputs, 0, atoms)
}

// The first words of out become the literals of a side, if they are paid for: one read a literal.
fn copy_side(slot: &[u64], side: Side, out: &mut [u64], purse: &mut Purse) -> Result<(), Unpaid>
    requires fact_1 { Sound slot.now side }
    requires fact_2 { length (list_of slot.now side) ≤ length out.old }
    ensures paid { read_end result purse.new
        ≡ pay (length (list_of slot.now side)) purse.old.account purse.old.meter }
    ensures written { OnOk result (out.new ≡ put 0 (list_of slot.now side) out.old) }
{
    let mut cursor = slots::start();
    for word in out.iter_mut() {
        let Some((literal, past)) = slots::next(slot, side, cursor) else {
            break;
        };
        purse.pay()?;
        *word = literal;
        cursor = past;
    }
    Ok(())
}

// A proposal of so many conditions and outputs, with no literal yet.
fn blank(p: &mut [u64], conditions: u64, outputs: u64)
    requires { length p.old ≡ slot_words }
    ensures { p.new ≡ blank_of conditions outputs }
{
    fill_zero(p);
    p[CONDITIONS_AT] = conditions;
    p[OUTPUTS_AT] = outputs;
}

// p becomes the proposal of an offered row.
pub fn propose(conditions: &[u64], outputs: &[u64], p: &mut [u64])
    requires fact_1 { length p.old ≡ slot_words }
    requires fact_2 { length conditions.now ≤ max_conditions }
    requires fact_3 { length outputs.now ≤ max_outputs }
    ensures { p.new ≡ proposal (row_of conditions.now outputs.now) }
{
    let n = conditions.len();
    blank(p, n as u64, outputs.len() as u64);
    copy(conditions, &mut p[BODY_AT..]);
    let at = BODY_AT + n;
    copy(outputs, &mut p[at..]);
}

// p becomes the proposal of the row in a slot, if its literals are paid for: one read a literal.
pub fn to_literals(slot: &[u64], p: &mut [u64], purse: &mut Purse) -> Result<(), Unpaid>
    requires fact_1 { Laid slot.now }
    requires fact_2 { length p.old ≡ slot_words }
    ensures paid { read_end result purse.new
        ≡ pay (literals (row_in slot.now)) purse.old.account purse.old.meter }
    ensures written { OnOk result (p.new ≡ proposal (row_in slot.now)) }
{
    let n = slot[CONDITIONS_AT];
    blank(p, n, slot[OUTPUTS_AT]);
    copy_side(slot, slots::conditions(slot), &mut p[BODY_AT..], purse)?;
    let at = BODY_AT + n as usize;
    copy_side(slot, slots::outputs(slot), &mut p[at..], purse)
}
