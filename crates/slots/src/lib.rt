// The two sides of a row in its slot, and the one cursor over their literals.
#![tactic(auto)]

ghost use Rattle.std.specs.Prelude.{◌≡◌, ◌∷◌, ◌<◌, ◌≤◌, length};
ghost use Rattle.std.specs.Int.Bits.{bit_or};
ghost use Rattle.model.specs.Records.{body_at};
ghost use Rattle.words.specs.Literal.{code_bits, words_wide};
ghost use Rattle.model.specs.Slots.{codes_of};
ghost use Rattle.slots.specs.Cursor.{begin, rest, given, Sound, Placed, PlacedStep, TakenFrom};
ghost use Rattle.slots.specs.Layout.{condition_side, output_side, Counted};

use model::{
    BODY_AT, CONDITION_GROUPS_AT, CONDITIONS_AT, GROUP_WORDS, OUTPUTS_AT, TOTAL_GROUPS_AT,
};
use words::WORD_BITS;

// One side of a slot: its form, the word where it begins, and how many codes or groups it has.
#[derive(Clone, Copy)]
pub struct Side {
    pub packed: bool,
    pub base: usize,
    pub count: usize,
}

// How many codes or groups were begun, and what is left of the group that was begun last.
#[derive(Clone, Copy)]
pub struct Cursor {
    pub next: usize,
    pub word: u64,
    pub present: u64,
    pub absent: u64,
}

// The first literal of a group, and the bits that are left of it.
#[derive(Clone, Copy)]
pub struct Pending {
    pub code: u64,
    pub present: u64,
    pub absent: u64,
}

// The first literal of a group that has one: trailing zeros of the joined masks give its atom, and of two signs absent is first.
pub fn take(word: u64, present: u64, absent: u64) -> Pending
    requires fact_1 { word < words_wide code_bits }
    requires fact_2 { 0 < bit_or absent present }
    ensures { codes_of word present absent ≡ result.code ∷ codes_of word result.present result.absent }
{
    let t = u64::trailing_zeros(absent | present) as u64;
    let mask: u64 = 1 << t;
    if absent & mask != 0 {
        Pending {
            code: 2 * (WORD_BITS * word + t),
            present,
            absent: absent & !mask,
        }
    } else {
        Pending {
            code: 2 * (WORD_BITS * word + t) + 1,
            present: present & !mask,
            absent,
        }
    }
}

// The cursor before the first literal of a side.
pub fn start() -> Cursor
    ensures { result ≡ begin }
{
    Cursor {
        next: 0,
        word: 0,
        present: 0,
        absent: 0,
    }
}

// The next literal of the group that was begun, which has one, with the cursor past it.
fn taken(c: Cursor) -> (u64, Cursor)
    requires { (c.word < words_wide code_bits) × (0 < bit_or c.absent c.present) }
    ensures { TakenFrom c result }
{
    let p = take(c.word, c.present, c.absent);
    (
        p.code,
        Cursor {
            present: p.present,
            absent: p.absent,
            ..c
        },
    )
}

// The next literal of a side with the cursor past it, or None where none is left.
pub fn next(slot: &[u64], side: Side, cursor: Cursor) -> Option<(u64, Cursor)>
    requires fact_1 { Sound slot.now side }
    requires fact_2 { Placed side cursor }
    ensures { (given slot.now side result ≡ rest slot.now side cursor) × PlacedStep side result }
{
    if cursor.absent | cursor.present != 0 {
        return Some(taken(cursor));
    }
    if side.count <= cursor.next {
        return None;
    }
    if side.packed {
        let at = side.base + GROUP_WORDS * cursor.next;
        return Some(taken(Cursor {
            next: cursor.next + 1,
            word: slot[at],
            present: slot[at + 1],
            absent: slot[at + 2],
        }));
    }
    let at = side.base + cursor.next;
    Some((
        slot[at],
        Cursor {
            next: cursor.next + 1,
            ..cursor
        },
    ))
}

// The side of the conditions of a slot.
pub fn conditions(slot: &[u64]) -> Side
    requires { body_at ≤ length slot.now }
    ensures { result ≡ condition_side slot.now }
{
    if slot[TOTAL_GROUPS_AT] == 0 {
        Side {
            packed: false,
            base: BODY_AT,
            count: slot[CONDITIONS_AT] as usize,
        }
    } else {
        Side {
            packed: true,
            base: BODY_AT,
            count: slot[CONDITION_GROUPS_AT] as usize,
        }
    }
}

// The side of the outputs of a slot, after the conditions.
pub fn outputs(slot: &[u64]) -> Side
    requires fact_1 { body_at ≤ length slot.now }
    requires fact_2 { Counted slot.now }
    ensures { result ≡ output_side slot.now }
{
    if slot[TOTAL_GROUPS_AT] == 0 {
        Side {
            packed: false,
            base: BODY_AT + slot[CONDITIONS_AT] as usize,
            count: slot[OUTPUTS_AT] as usize,
        }
    } else {
        Side {
            packed: true,
            base: BODY_AT + GROUP_WORDS * slot[CONDITION_GROUPS_AT] as usize,
            count: (slot[TOTAL_GROUPS_AT] - slot[CONDITION_GROUPS_AT]) as usize,
        }
    }
}
