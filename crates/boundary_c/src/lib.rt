// The ledger for C, as a static library: each function of crate boundary under its name, with its contract. include/ledger.h says what the
// words are.
#![tactic(auto)]

ghost use Rattle.std.specs.Prelude.{◌≡◌, [], ◌∷◌};
ghost use Rattle.wire.specs.Replies.{left};
ghost use Rattle.boundary.specs.Calls.{make_call, begin_call, hit_call, deduce_call, output_call, decide_call};
ghost use Rattle.boundary.specs.Learning.{offer_call, candidates_call, close_call};
ghost use Rattle.boundary.specs.Sharing.{seed_call, deliver_call};

use wire::{ANSWER_WORDS, CURSOR_WORDS, HEADER_WORDS, LIMITS_WORDS, METER_WORDS};

// Make: the fresh header, every slot and posting 0; refused by 1 or 2.
#[unsafe(no_mangle)]
pub extern "C" fn ledger_make(
    limits: &[u64; LIMITS_WORDS],
    number: u64,
    head: &mut [u64; HEADER_WORDS],
    answer: &mut [u64; ANSWER_WORDS],
    slots: &mut [u64],
    postings: &mut [u64],
) -> u64
    ensures { left result (head.new ∷ answer.new ∷ slots.new ∷ postings.new ∷ [])
        ≡ make_call limits.now number head.old answer.old slots.old postings.old }
{
    boundary::ledger_make(limits, number, head, answer, slots, postings)
}

// Begin: the header with full true; refused by 1, 2 or 3.
#[unsafe(no_mangle)]
pub extern "C" fn ledger_begin(
    head: &mut [u64; HEADER_WORDS],
    answer: &mut [u64; ANSWER_WORDS],
    slots: &[u64],
    postings: &[u64],
) -> u64
    ensures { left result (head.new ∷ answer.new ∷ [])
        ≡ begin_call head.old answer.old slots.now postings.now }
{
    boundary::ledger_begin(head, answer, slots, postings)
}

// Hit: one hit more, not shared yet, for the row at a position; refused by 1, 2, 3 or 5.
#[unsafe(no_mangle)]
pub extern "C" fn ledger_hit(
    head: &mut [u64; HEADER_WORDS],
    answer: &mut [u64; ANSWER_WORDS],
    slots: &mut [u64],
    postings: &[u64],
    position: u64,
) -> u64
    ensures { left result (head.new ∷ answer.new ∷ slots.new ∷ [])
        ≡ hit_call head.old answer.old slots.old postings.now position }
{
    boundary::ledger_hit(head, answer, slots, postings, position)
}

// Deduce: what the row at a position says of a region; refused by 1, 2, 3, 5 or 6.
#[unsafe(no_mangle)]
pub extern "C" fn ledger_deduce(
    head: &[u64; HEADER_WORDS],
    answer: &mut [u64; ANSWER_WORDS],
    meter: &mut [u64; METER_WORDS],
    slots: &[u64],
    postings: &[u64],
    position: u64,
    held: &[u64],
    cut: &[u64],
) -> u64
    ensures { left result (answer.new ∷ meter.new ∷ [])
        ≡ deduce_call head.now answer.old meter.old slots.now postings.now position
        held.now cut.now }
{
    boundary::ledger_deduce(head, answer, meter, slots, postings, position, held, cut)
}

// Next output: the next output of the row at a position, and the cursor past it; refused by 1, 2, 3, 5, 6 or 8.
#[unsafe(no_mangle)]
pub extern "C" fn ledger_next_output(
    head: &[u64; HEADER_WORDS],
    answer: &mut [u64; ANSWER_WORDS],
    meter: &mut [u64; METER_WORDS],
    cursor: &mut [u64; CURSOR_WORDS],
    slots: &[u64],
    postings: &[u64],
    position: u64,
    held: &[u64],
    cut: &[u64],
) -> u64
    ensures { left result (answer.new ∷ meter.new ∷ cursor.new ∷ [])
        ≡ output_call head.now answer.old meter.old cursor.old slots.now
        postings.now position held.now cut.now }
{
    boundary::ledger_next_output(
        head, answer, meter, cursor, slots, postings, position, held, cut,
    )
}

// Decide: holds an atom of a region, or cuts it if `value` is 0; refused by 6.
#[unsafe(no_mangle)]
pub extern "C" fn ledger_decide(
    answer: &mut [u64; ANSWER_WORDS],
    atoms: u64,
    held: &mut [u64],
    cut: &mut [u64],
    atom: u64,
    value: u64,
) -> u64
    ensures { left result (answer.new ∷ held.new ∷ cut.new ∷ [])
        ≡ decide_call answer.old atoms held.old cut.old atom value }
{
    boundary::ledger_decide(answer, atoms, held, cut, atom, value)
}

// Offer: a row given to the ledger; refused by 1, 2, 3 or 4.
#[unsafe(no_mangle)]
pub extern "C" fn ledger_offer(
    head: &mut [u64; HEADER_WORDS],
    answer: &mut [u64; ANSWER_WORDS],
    meter: &mut [u64; METER_WORDS],
    slots: &mut [u64],
    postings: &mut [u64],
    conditions: &[u64],
    outputs: &[u64],
    source: u64,
) -> u64
    ensures { left result (head.new ∷ answer.new ∷ meter.new ∷ slots.new ∷ postings.new ∷ [])
        ≡ offer_call head.old answer.old meter.old slots.old postings.old
        conditions.now outputs.now source }
{
    boundary::ledger_offer(
        head, answer, meter, slots, postings, conditions, outputs, source,
    )
}

// Candidates: the rows to be looked at after atoms were decided, in `found`; refused by 1, 2 or 3.
#[unsafe(no_mangle)]
pub extern "C" fn ledger_candidates(
    head: &mut [u64; HEADER_WORDS],
    answer: &mut [u64; ANSWER_WORDS],
    meter: &mut [u64; METER_WORDS],
    slots: &[u64],
    postings: &mut [u64],
    atoms: &[u64],
    found: &mut [u64],
) -> u64
    ensures { left result (head.new ∷ answer.new ∷ meter.new ∷ postings.new ∷ found.new ∷ [])
        ≡ candidates_call head.old answer.old meter.old slots.now postings.old
        atoms.now found.old }
{
    boundary::ledger_candidates(head, answer, meter, slots, postings, atoms, found)
}

// Close: a region closed under the rows; both scratches end as zeros; refused by 1, 2, 3 or 6.
#[unsafe(no_mangle)]
pub extern "C" fn ledger_close(
    head: &mut [u64; HEADER_WORDS],
    answer: &mut [u64; ANSWER_WORDS],
    meter: &mut [u64; METER_WORDS],
    slots: &mut [u64],
    postings: &mut [u64],
    held: &mut [u64],
    cut: &mut [u64],
    rows: &mut [u64],
    atoms: &mut [u64],
) -> u64
    ensures { left result
        (head.new ∷ answer.new ∷ meter.new ∷ slots.new ∷ postings.new ∷ held.new
        ∷ cut.new ∷ rows.new ∷ atoms.new ∷ [])
        ≡ close_call head.old answer.old meter.old slots.old postings.old
        held.old cut.old rows.old atoms.old }
{
    boundary::ledger_close(head, answer, meter, slots, postings, held, cut, rows, atoms)
}

// Seed: a tier takes the rows of a store; refused by the tier's 1, 2 or 3, the store's 1, 2 or 3, or 7.
#[unsafe(no_mangle)]
pub extern "C" fn ledger_seed(
    tier: &mut [u64; HEADER_WORDS],
    store: &mut [u64; HEADER_WORDS],
    answer: &mut [u64; ANSWER_WORDS],
    meter: &mut [u64; METER_WORDS],
    tier_slots: &mut [u64],
    tier_postings: &mut [u64],
    store_slots: &[u64],
    store_postings: &[u64],
) -> u64
    ensures { left result
        (tier.new ∷ store.new ∷ answer.new ∷ meter.new ∷ tier_slots.new
        ∷ tier_postings.new ∷ [])
        ≡ seed_call tier.old store.old answer.old meter.old tier_slots.old
        tier_postings.old store_slots.now store_postings.now }
{
    boundary::ledger_seed(
        tier,
        store,
        answer,
        meter,
        tier_slots,
        tier_postings,
        store_slots,
        store_postings,
    )
}

// Deliver: a store takes the rows of a tier; refused as Seed is.
#[unsafe(no_mangle)]
pub extern "C" fn ledger_deliver(
    tier: &mut [u64; HEADER_WORDS],
    store: &mut [u64; HEADER_WORDS],
    answer: &mut [u64; ANSWER_WORDS],
    meter: &mut [u64; METER_WORDS],
    tier_slots: &mut [u64],
    tier_postings: &[u64],
    store_slots: &mut [u64],
    store_postings: &mut [u64],
) -> u64
    ensures { left result
        (tier.new ∷ store.new ∷ answer.new ∷ meter.new ∷ tier_slots.new
        ∷ store_slots.new ∷ store_postings.new ∷ [])
        ≡ deliver_call tier.old store.old answer.old meter.old tier_slots.old
        tier_postings.now store_slots.old store_postings.old }
{
    boundary::ledger_deliver(
        tier,
        store,
        answer,
        meter,
        tier_slots,
        tier_postings,
        store_slots,
        store_postings,
    )
}
