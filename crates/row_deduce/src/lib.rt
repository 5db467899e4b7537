// What a row says of a region: its deduction, and its outputs one by one.
#![tactic(auto)]

ghost use Rattle.std.specs.Prelude.{◌≡◌, true, false, [], ◌∷◌, ◌+◌, ◌-◌, ◌*◌, ◌<◌, ◌≤◌, length};
ghost use Rattle.std.specs.Int.Bits.{bit_and, bit_or};
ghost use Rattle.words.specs.Literal.{code_bits, codes_wide, words_wide, opposite};
ghost use Rattle.words.specs.Region.{region};
ghost use Rattle.meter.specs.Meter.{ticks};
ghost use Rattle.model.specs.Records.{group_length};
ghost use Rattle.model.specs.Rows.{packed};
ghost use Rattle.model.specs.Slots.{row_in, codes_of};
ghost use Rattle.model.specs.Deduction.{deduction, deduction_ticks, failing, contradictions, chunks, packed_next, next_output};
ghost use Rattle.model.specs.Operations.{unloaded, bits_among, cursor_ok};
ghost use Rattle.slots.specs.Layout.{Holds, output_side};
ghost use Rattle.row_deduce.specs.Chunks.{chunk_at, chunks_from, group_at, Inside, Walkable, OneSigned, Publishable, SmallCodes, Matched};
ghost use Rattle.row_deduce.specs.Publication.{published_as, loaded_from, single_next, of_words, Pointed};
ghost use Rattle.row_deduce.specs.Walks.{literal, state_of, first_of, read_conditions, read_outputs, walked, once};

use meter::{Meter, Stopped};
use model::{Deduction, GROUP_WORDS, Literal, OutputCursor};
use slots::Side;

// How conditions stand in a region: all hold, one is undecided and the others hold, or nothing follows.
#[derive(Clone, Copy)]
pub enum ConditionState {
    Idle,
    Holds,
    Undecided(u64),
}

// The words of a group: its place among the words of a region, and its bits of each sign.
#[derive(Clone, Copy)]
struct Group {
    index: usize,
    present: u64,
    absent: u64,
}

// Group `g` of a packed side.
fn group_at(slot: &[u64], side: Side, g: usize) -> Group
    requires { (side.base + group_length * side.count ≤ length slot.now) × (g < side.count) }
    ensures { result ≡ group_at slot.now side g }
{
    let at = side.base + GROUP_WORDS * g;
    Group {
        index: slot[at] as usize,
        present: slot[at + 1],
        absent: slot[at + 2],
    }
}

// How the conditions of a group stand. It has no atom with both signs, so that two bits are two conditions.
fn group_state(k: Group, held: &[u64], cut: &[u64]) -> ConditionState
    requires fact_1 { Inside k held.now cut.now }
    requires fact_2 { bit_and k.present k.absent ≡ 0 }
    ensures { result ≡ state_of (region held.now cut.now)
        (failing (region held.now cut.now) (codes_of k.index k.present k.absent)) }
{
    let index = k.index;
    let h = held[index];
    let c = cut[index];
    let present = k.present & !h;
    let absent = k.absent & !c;
    let fails = absent | present;
    if fails == 0 {
        return ConditionState::Holds;
    }
    let clash = (absent & h) | (present & c);
    if clash != 0 || fails & (fails - 1) != 0 {
        return ConditionState::Idle;
    }
    let p = slots::take(index as u64, present, absent);
    ConditionState::Undecided(p.code)
}

// How a condition alone stands.
fn code_state(code: u64, held: &[u64], cut: &[u64]) -> ConditionState
    ensures { result ≡ state_of (region held.now cut.now)
        (failing (region held.now cut.now) (code ∷ [])) }
{
    if words::holds(held, cut, code) {
        return ConditionState::Holds;
    }
    if words::contradicts(held, cut, code) {
        return ConditionState::Idle;
    }
    ConditionState::Undecided(code)
}

// How the conditions of chunk `g` of a side stand.
fn chunk_state(slot: &[u64], side: Side, g: usize, held: &[u64], cut: &[u64]) -> ConditionState
    requires fact_1 { Walkable slot.now side held.now cut.now }
    requires fact_2 { side.packed ≡ true → OneSigned slot.now side }
    requires fact_3 { g < side.count }
    ensures { result ≡ state_of (region held.now cut.now)
        (failing (region held.now cut.now) (chunk_at slot.now side g)) }
{
    if side.packed {
        group_state(group_at(slot, side, g), held, cut)
    } else {
        code_state(slot[side.base + g], held, cut)
    }
}

// The least output of a group that is contradicted.
fn group_contradicted(k: Group, held: &[u64], cut: &[u64]) -> Option<u64>
    requires { Inside k held.now cut.now }
    ensures { result ≡ first_of (contradictions (region held.now cut.now)
        (codes_of k.index k.present k.absent)) }
{
    let index = k.index;
    let absent = k.absent & held[index];
    let present = k.present & cut[index];
    if absent | present == 0 {
        return None;
    }
    let least = slots::take(index as u64, present, absent);
    Some(least.code)
}

// The least output of chunk `g` of a side that is contradicted.
fn chunk_contradicted(slot: &[u64], side: Side, g: usize, held: &[u64], cut: &[u64]) -> Option<u64>
    requires fact_1 { Walkable slot.now side held.now cut.now }
    requires fact_2 { g < side.count }
    ensures { result ≡ first_of (contradictions (region held.now cut.now)
        (chunk_at slot.now side g)) }
{
    if side.packed {
        return group_contradicted(group_at(slot, side, g), held, cut);
    }
    let code = slot[side.base + g];
    if words::contradicts(held, cut, code) {
        Some(code)
    } else {
        None
    }
}

// How the conditions of a row stand, a tick before each chunk.
fn conditions(
    slot: &[u64],
    held: &[u64],
    cut: &[u64],
    meter: &mut Meter,
) -> Result<ConditionState, Stopped>
    requires { Matched slot.now held.now cut.now }
    ensures { walked result meter.new
        ≡ read_conditions (region held.now cut.now) []
        (chunks (packed (row_in slot.now)) (row_in slot.now).conditions) meter.old }
{
    let side = slots::conditions(slot);
    let mut state = ConditionState::Holds;
    for g in 0..side.count {
        meter.tick()?;
        match chunk_state(slot, side, g, held, cut) {
            ConditionState::Holds => {}
            ConditionState::Idle => return Ok(ConditionState::Idle),
            ConditionState::Undecided(code) => {
                // a second one that is undecided leaves nothing to follow
                let ConditionState::Holds = state else {
                    return Ok(ConditionState::Idle);
                };
                state = ConditionState::Undecided(code);
            }
        }
    }
    Ok(state)
}

// The first output of a row that is contradicted, a tick before each chunk.
fn outputs(
    slot: &[u64],
    held: &[u64],
    cut: &[u64],
    meter: &mut Meter,
) -> Result<Option<u64>, Stopped>
    requires { Matched slot.now held.now cut.now }
    ensures { walked result meter.new
        ≡ read_outputs (region held.now cut.now)
        (chunks (packed (row_in slot.now)) (row_in slot.now).outputs) meter.old }
{
    let side = slots::outputs(slot);
    for g in 0..side.count {
        meter.tick()?;
        let found = chunk_contradicted(slot, side, g, held, cut);
        if let Some(_) = found {
            return Ok(found);
        }
    }
    Ok(None)
}

// The opposite of a literal.
fn negation(code: u64) -> Literal
    requires { code < codes_wide code_bits }
    ensures { result ≡ literal (opposite code) }
{
    if code % 2 == 1 {
        Literal((code - 1) as u32)
    } else {
        Literal((code + 1) as u32)
    }
}

// What a row says of a region. Force: its conditions all hold. Require: one is undecided, the others hold, and an output is
// contradicted; the least of those is named. Nothing: else. Stopped: the ticks were not all made.
pub fn deduction(
    slot: &[u64],
    held: &[u64],
    cut: &[u64],
    meter: &mut Meter,
) -> Result<Deduction, Stopped>
    requires { Matched slot.now held.now cut.now }
    ensures { walked result meter.new
        ≡ once (deduction (region held.now cut.now) (row_in slot.now))
        (ticks (deduction_ticks (region held.now cut.now) (row_in slot.now)) meter.old) }
{
    meter.tick()?;
    let code = match conditions(slot, held, cut, meter)? {
        ConditionState::Idle => return Ok(Deduction::Nothing),
        ConditionState::Holds => return Ok(Deduction::Force),
        ConditionState::Undecided(code) => code,
    };
    match outputs(slot, held, cut, meter)? {
        None => Ok(Deduction::Nothing),
        Some(output) => {
            let named = output as u32;
            Ok(Deduction::Require {
                required: negation(code),
                contradicted: Literal(named),
            })
        }
    }
}

// The cursor past group `next` as it is loaded: without the outputs that are true in the region.
fn loaded(slot: &[u64], side: Side, next: u64, held: &[u64], cut: &[u64]) -> OutputCursor
    requires fact_1 { Publishable slot.now side held.now cut.now }
    requires fact_2 { next < side.count }
    ensures { result ≡ loaded_from (region held.now cut.now) (chunk_at slot.now side next) next }
{
    let k = group_at(slot, side, next as usize);
    let index = k.index;
    let h = held[index];
    let c = cut[index];
    OutputCursor {
        next: next + 1,
        word: index as u64,
        present: k.present & (c | !h),
        absent: k.absent & (h | !c),
    }
}

// The next output of a packed row: groups are loaded, a tick before each, until one has an output that is not yet true.
fn packed_next(
    slot: &[u64],
    side: Side,
    cursor: &mut OutputCursor,
    held: &[u64],
    cut: &[u64],
    meter: &mut Meter,
) -> Result<Option<Literal>, Stopped>
    requires fact_1 { Publishable slot.now side held.now cut.now }
    requires fact_2 { cursor.old.next ≤ side.count }
    requires fact_3 { cursor.old.word < words_wide code_bits }
    ensures { published_as result cursor.new meter.new
        ≡ packed_next (region held.now cut.now)
        (chunks_from slot.now side (side.count - cursor.old.next) cursor.old.next) cursor.old meter.old }
{
    // A while: the cursor that the caller keeps says which group is next, and none is loaded if the first has an output left.
    while cursor.absent | cursor.present == 0 {
        if side.count as u64 <= cursor.next {
            return Ok(None);
        }
        meter.tick()?;
        *cursor = loaded(slot, side, cursor.next, held, cut);
    }
    let p = slots::take(cursor.word, cursor.present, cursor.absent);
    meter.tick()?;
    cursor.present = p.present;
    cursor.absent = p.absent;
    let code = p.code as u32;
    Ok(Some(Literal(code)))
}

// The next output of a scalar row: the code at the cursor, true in the region or not.
fn scalar_next(
    slot: &[u64],
    side: Side,
    cursor: &mut OutputCursor,
    meter: &mut Meter,
) -> Result<Option<Literal>, Stopped>
    requires fact_1 { side.packed ≡ false }
    requires fact_2 { side.base + side.count ≤ length slot.now }
    requires fact_3 { SmallCodes slot.now side }
    ensures { published_as result cursor.new meter.new
        ≡ single_next slot.now side cursor.old meter.old }
{
    let next = cursor.next as usize;
    if side.count <= next {
        return Ok(None);
    }
    meter.tick()?;
    *cursor = OutputCursor {
        next: cursor.next + 1,
        word: 0,
        present: 0,
        absent: 0,
    };
    let code = slot[side.base + next] as u32;
    Ok(Some(Literal(code)))
}

// The next output of the side that a row's outputs are, and the cursor goes past it. A scalar row gives every output, a packed one those
// not yet true in the region when their group is loaded. None is left: None. Stopped: a tick was not made.
pub fn next_of_side(
    slot: &[u64],
    side: Side,
    cursor: &mut OutputCursor,
    held: &[u64],
    cut: &[u64],
    meter: &mut Meter,
) -> Result<Option<Literal>, Stopped>
    requires fact_1 { Matched slot.now held.now cut.now }
    requires fact_2 { Pointed (row_in slot.now) cursor.old }
    requires fact_3 { side ≡ output_side slot.now }
    ensures { published_as result cursor.new meter.new
        ≡ next_output (region held.now cut.now) (row_in slot.now) cursor.old meter.old }
{
    if side.packed {
        packed_next(slot, side, cursor, held, cut, meter)
    } else {
        scalar_next(slot, side, cursor, meter)
    }
}

// The next output of a row whose conditions all hold, and the cursor goes past it.
pub fn next_publication_output(
    slot: &[u64],
    cursor: &mut OutputCursor,
    held: &[u64],
    cut: &[u64],
    meter: &mut Meter,
) -> Result<Option<Literal>, Stopped>
    requires fact_1 { Matched slot.now held.now cut.now }
    requires fact_2 { Pointed (row_in slot.now) cursor.old }
    ensures { published_as result cursor.new meter.new
        ≡ next_output (region held.now cut.now) (row_in slot.now) cursor.old meter.old }
{
    let side = slots::outputs(slot);
    next_of_side(slot, side, cursor, held, cut, meter)
}

// Whether no group is loaded.
fn is_unloaded(cursor: OutputCursor) -> bool
    ensures { result ≡ unloaded cursor }
{
    cursor.word | (cursor.present | cursor.absent) == 0
}

// Whether bits are among those of a group.
fn are_among(bits: u64, all: u64) -> bool
    ensures { result ≡ bits_among bits all }
{
    bits & all == bits
}

// Whether word and bits of a cursor are of a group.
fn is_of_group(cursor: OutputCursor, k: Group) -> bool
    ensures { result ≡ of_words cursor k }
{
    cursor.word == k.index as u64
        && are_among(cursor.present, k.present)
        && are_among(cursor.absent, k.absent)
}

// Whether a cursor stands in the outputs of a row, as one that the calls give back.
pub fn cursor_ok(slot: &[u64], cursor: OutputCursor) -> bool
    requires { Holds slot.now }
    ensures { result ≡ cursor_ok (row_in slot.now) cursor }
{
    let side = slots::outputs(slot);
    let next = cursor.next as usize;
    if side.count < next {
        return false;
    }
    if !side.packed || next == 0 {
        return is_unloaded(cursor);
    }
    is_of_group(cursor, group_at(slot, side, next - 1))
}
