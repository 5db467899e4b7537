// The codes of a row, read from the words of its slot, whatever they are.
ghost use Rattle.std.specs.Prelude.{◌+◌, ◌≤◌, length};
ghost use Rattle.model.specs.Records.{max_outputs};

use model::{
    BODY_AT, CONDITION_GROUPS_AT, CONDITIONS_AT, GROUP_WORDS, MAX_OUTPUTS, OUTPUTS_AT, SLOT_WORDS,
    TOTAL_GROUPS_AT,
};
use std::num::wrapping_sub_u64;
use words::{MAX_ATOMS, WORD_BITS};

// The most codes that a side of a row has.
const MOST: usize = MAX_OUTPUTS as usize;

// The words of a slot.
pub type Slot = [u64; SLOT_WORDS];

// Codes, as many as a side of a row has at most.
#[derive(Drop)]
pub struct Codes {
    list: [u64; MOST],
    count: usize,
    ghost fit: { count ≤ max_outputs },
}

impl Codes {
    // None.
    pub fn new() -> Codes {
        Codes {
            list: [0; MOST],
            count: 0,
        }
    }

    // A code behind the others, where there is room.
    fn push(&mut self, code: u64) {
        if self.count < MOST {
            self.list[self.count] = code;
            self.count += 1;
        }
    }

    // The codes of a group behind the others: of two signs absent is first.
    fn push_group(&mut self, index: u64, present: u64, absent: u64) {
        if MAX_ATOMS <= index {
            return;
        }
        for bit in 0..WORD_BITS {
            let code = 2 * (WORD_BITS * index + bit);
            if (absent >> bit) % 2 == 1 {
                self.push(code);
            }
            if (present >> bit) % 2 == 1 {
                self.push(code + 1);
            }
        }
    }

    // All of them.
    pub fn as_slice(&self) -> &[u64]
        ensures { length result.now ≤ max_outputs }
    {
        &self.list[..self.count]
    }
}

// Whether a row is packed: its codes stand in groups.
pub fn is_packed(slot: &Slot) -> bool {
    slot[TOTAL_GROUPS_AT] != 0
}

// The words of so many codes or groups; none where a slot cannot have as many.
fn word_count(packed: bool, count: u64) -> usize {
    if (SLOT_WORDS as u64) < count {
        return 0;
    }
    if packed {
        return GROUP_WORDS * (count as usize);
    }
    count as usize
}

// The words of the first so many codes or groups; none where there are not as many.
pub fn front(words: &[u64], packed: bool, count: u64) -> &[u64]
    ensures { length result.now ≤ length words.now }
{
    words.get(..word_count(packed, count)).unwrap_or(&[])
}

// The words of the conditions of a slot.
fn conditions(slot: &Slot) -> &[u64]
    ensures { BODY_AT + length result.now ≤ SLOT_WORDS }
{
    let body = &slot[BODY_AT..];
    if is_packed(slot) {
        return front(body, true, slot[CONDITION_GROUPS_AT]);
    }
    front(body, false, slot[CONDITIONS_AT])
}

// The words of the outputs of a slot.
fn outputs(slot: &Slot) -> &[u64]
    ensures { BODY_AT + length result.now ≤ SLOT_WORDS }
{
    let behind = &slot[BODY_AT + conditions(slot).len()..];
    if is_packed(slot) {
        let groups = wrapping_sub_u64(slot[TOTAL_GROUPS_AT], slot[CONDITION_GROUPS_AT]);
        return front(behind, true, groups);
    }
    front(behind, false, slot[OUTPUTS_AT])
}

// The codes of one side of a row, from its words.
fn codes_in(packed: bool, side: &[u64]) -> Codes {
    let mut codes = Codes::new();
    if packed {
        let (groups, _) = side.as_chunks::<GROUP_WORDS>();
        for group in groups {
            codes.push_group(group[0], group[1], group[2]);
        }
    } else {
        for code in side {
            codes.push(*code);
        }
    }
    codes
}

// The codes of the conditions of a row.
pub fn condition_codes(slot: &Slot) -> Codes {
    codes_in(is_packed(slot), conditions(slot))
}

// The codes of the outputs of a row.
pub fn output_codes(slot: &Slot) -> Codes {
    codes_in(is_packed(slot), outputs(slot))
}
