// A call of one of the functions for C, by its number or as an `Operation`, on raw words: what the programs `damaged` and `replay` share.
// Nothing is tested here: whatever the words are, they are lent as they are.
#![tactic(auto)]

use boundary::{
    ledger_begin, ledger_candidates, ledger_close, ledger_decide, ledger_deduce, ledger_deliver,
    ledger_hit, ledger_make, ledger_next_output, ledger_offer, ledger_seed,
};
use wire::{ANSWER_WORDS, CURSOR_WORDS, HEAD_ATOMS_AT, HEADER_WORDS, LIMITS_WORDS, METER_WORDS};

// The functions.
#[derive(Clone, Copy)]
pub enum Operation {
    Make,
    Begin,
    Hit,
    Deduce,
    NextOutput,
    Decide,
    Offer,
    Candidates,
    Close,
    Seed,
    Deliver,
}

// All of them, in the order of include/ledger.h.
pub const OPERATIONS: [Operation; 11] = [
    Operation::Make,
    Operation::Begin,
    Operation::Hit,
    Operation::Deduce,
    Operation::NextOutput,
    Operation::Decide,
    Operation::Offer,
    Operation::Candidates,
    Operation::Close,
    Operation::Seed,
    Operation::Deliver,
];

// How many words a call has.
pub const WORDS: usize = 2 * HEADER_WORDS + ANSWER_WORDS + METER_WORDS + CURSOR_WORDS + 3;

// What a call is lent. `words` are its arrays and numbers, one behind the other: the header (the tier's in `seed` and `deliver`; its first
// ten are the limits of `make`, its first the atoms of `decide`), the store's header, the answer, the meter, the cursor, the number of
// `make`, the source of `offer` or a position, the atom and the value of `decide`.
//
// Beside slots and postings there are, as `first` and `second`: conditions and outputs (`offer`), atoms and rows found (`candidates`), the
// store's slots and postings (`seed`, `deliver`), held and cut (the others); as `third` and `fourth` the scratch of `close`, for rows and
// for atoms.
#[derive(Drop)]
pub struct Lent<'a> {
    pub words: &'a mut [u64; WORDS],
    pub slots: &'a mut [u64],
    pub postings: &'a mut [u64],
    pub first: &'a mut [u64],
    pub second: &'a mut [u64],
    pub third: &'a mut [u64],
    pub fourth: &'a mut [u64],
}

// The words of a call, in parts: the header, the store's, the answer, the meter, the cursor, and the last three.
type Parts<'a> = (
    &'a mut [u64; HEADER_WORDS],
    &'a mut [u64; HEADER_WORDS],
    &'a mut [u64; ANSWER_WORDS],
    &'a mut [u64; METER_WORDS],
    &'a mut [u64; CURSOR_WORDS],
    &'a mut [u64; 3],
);

fn split(words: &mut [u64; WORDS]) -> Parts<'_> {
    let (head, rest) = words.split_first_chunk_mut().unwrap();
    let (store, rest) = rest.split_first_chunk_mut().unwrap();
    let (answer, rest) = rest.split_first_chunk_mut().unwrap();
    let (meter, rest) = rest.split_first_chunk_mut().unwrap();
    let (cursor, rest) = rest.split_first_chunk_mut().unwrap();
    let (given, _) = rest.split_first_chunk_mut().unwrap();
    (head, store, answer, meter, cursor, given)
}

// The limits at the head of a header.
fn limits_in(head: &[u64; HEADER_WORDS]) -> [u64; LIMITS_WORDS] {
    let mut limits = [0u64; LIMITS_WORDS];
    limits.copy_from_slice(&head[..LIMITS_WORDS]);
    limits
}

impl Operation {
    // The call: the refusal, or 0, as the function for C answers it.
    pub fn call(self, lent: &mut Lent) -> u64 {
        let (head, store, answer, meter, cursor, given) = split(lent.words);
        let slots = &mut *lent.slots;
        let postings = &mut *lent.postings;
        let first = &mut *lent.first;
        let second = &mut *lent.second;
        let third = &mut *lent.third;
        let fourth = &mut *lent.fourth;
        let limits = limits_in(head);
        let [number, atom, value] = *given;
        match self {
            Operation::Make => ledger_make(&limits, number, head, answer, slots, postings),
            Operation::Begin => ledger_begin(head, answer, slots, postings),
            Operation::Hit => ledger_hit(head, answer, slots, postings, number),
            Operation::Deduce => ledger_deduce(
                head, answer, meter, slots, postings, number, first, second,
            ),
            Operation::NextOutput => ledger_next_output(
                head, answer, meter, cursor, slots, postings, number, first, second,
            ),
            Operation::Decide => {
                ledger_decide(answer, head[HEAD_ATOMS_AT], first, second, atom, value)
            }
            Operation::Offer => ledger_offer(
                head, answer, meter, slots, postings, first, second, number,
            ),
            Operation::Candidates => ledger_candidates(
                head, answer, meter, slots, postings, first, second,
            ),
            Operation::Close => ledger_close(
                head, answer, meter, slots, postings, first, second, third, fourth,
            ),
            Operation::Seed => ledger_seed(
                head, store, answer, meter, slots, postings, first, second,
            ),
            Operation::Deliver => ledger_deliver(
                head, store, answer, meter, slots, postings, first, second,
            ),
        }
    }
}

// The call of a function by its number, from 0 on in the order of include/ledger.h; any other number is that of `offer`. Of fewer words than
// WORDS none are read or written: the call is then lent zeros.
pub fn call(
    operation: u64,
    words: &mut [u64],
    slots: &mut [u64],
    postings: &mut [u64],
    first: &mut [u64],
    second: &mut [u64],
    third: &mut [u64],
    fourth: &mut [u64],
) -> u64 {
    let operation = OPERATIONS
        .get(operation as usize)
        .copied()
        .unwrap_or(Operation::Offer);
    let mut zeros = [0u64; WORDS];
    let mut lent = Lent {
        words: words.first_chunk_mut().unwrap_or(&mut zeros),
        slots,
        postings,
        first,
        second,
        third,
        fourth,
    };
    operation.call(&mut lent)
}
