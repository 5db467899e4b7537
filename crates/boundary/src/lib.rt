// The ledger for C: one function for each public operation, over lent words alone. None asks anything of its caller.
// Each gives back 0, or the number of a refusal, and then no lent word is written. include/ledger.h says what the words are.
#![tactic(auto)]

ghost use Rattle.std.specs.Prelude.{◌≡◌, [], ◌∷◌};
ghost use Rattle.wire.specs.Replies.{left};
ghost use Rattle.boundary.specs.Calls.{make_call, begin_call, hit_call, deduce_call, output_call, decide_call};
ghost use Rattle.boundary.specs.Learning.{offer_call, candidates_call, close_call};
ghost use Rattle.boundary.specs.Sharing.{seed_call, deliver_call};

use close::close;
use offer::offer;
use operations::{begin, decide, deduce, hit, make, next_output};
use postings_search::candidates;
use transfers::{deliver, seed};
use wire::{
    ANSWER_WORDS, CURSOR_WORDS, HEADER_WORDS, LIMITS_WORDS, METER_WORDS, candidates_reply,
    close_reply, cursor_of, decide_reply, deduce_reply, done_reply, header_of, limits_of,
    make_reply, meter_of, next_reply, offer_reply, put_answer, put_cursor, put_header, put_made,
    put_meter, transfer_reply,
};

// Make: the fresh header, every slot and posting 0; refused by 1 or 2.
pub fn ledger_make(
    limits: &[u64; LIMITS_WORDS],
    number: u64,
    head: &mut [u64; HEADER_WORDS],
    answer: &mut [u64; ANSWER_WORDS],
    slots: &mut [u64],
    postings: &mut [u64],
) -> u64
    ensures { left result (head.new ∷ answer.new ∷ slots.new ∷ postings.new ∷ [])
        ≡ make_call limits.now number head.old answer.old slots.old postings.old }
{
    let made = make(limits_of(limits), number, slots, postings);
    let a = made.answer;
    let reply = make_reply(a);
    if reply.refusal != 0 {
        return reply.refusal;
    }
    put_made(a, head);
    put_answer(reply, made.ticks, answer);
    0
}

// Begin: the header with full true; refused by 1, 2 or 3.
pub fn ledger_begin(
    head: &mut [u64; HEADER_WORDS],
    answer: &mut [u64; ANSWER_WORDS],
    slots: &[u64],
    postings: &[u64],
) -> u64
    ensures { left result (head.new ∷ answer.new ∷ [])
        ≡ begin_call head.old answer.old slots.now postings.now }
{
    let begun = begin(header_of(head), slots, postings);
    let a = begun.answer;
    let reply = done_reply(a);
    if reply.refusal != 0 {
        return reply.refusal;
    }
    let header = begun.header;
    put_header(header, head);
    put_answer(reply, begun.ticks, answer);
    0
}

// Hit: one hit more, not shared yet, for the row at a position; refused by 1, 2, 3 or 5.
pub fn ledger_hit(
    head: &mut [u64; HEADER_WORDS],
    answer: &mut [u64; ANSWER_WORDS],
    slots: &mut [u64],
    postings: &[u64],
    position: u64,
) -> u64
    ensures { left result (head.new ∷ answer.new ∷ slots.new ∷ [])
        ≡ hit_call head.old answer.old slots.old postings.now position }
{
    let done = hit(header_of(head), slots, postings, position);
    let a = done.answer;
    let reply = done_reply(a);
    if reply.refusal != 0 {
        return reply.refusal;
    }
    let header = done.header;
    put_header(header, head);
    put_answer(reply, done.ticks, answer);
    0
}

// Deduce: what the row at a position says of a region; refused by 1, 2, 3, 5 or 6.
pub fn ledger_deduce(
    head: &[u64; HEADER_WORDS],
    answer: &mut [u64; ANSWER_WORDS],
    meter: &mut [u64; METER_WORDS],
    slots: &[u64],
    postings: &[u64],
    position: u64,
    held: &[u64],
    cut: &[u64],
) -> u64
    ensures { left result (answer.new ∷ meter.new ∷ [])
        ≡ deduce_call head.now answer.old meter.old slots.now postings.now position
        held.now cut.now }
{
    let deduced = deduce(
        header_of(head),
        slots,
        postings,
        position,
        held,
        cut,
        meter_of(meter),
    );
    let a = deduced.answer;
    let said = deduced.deduction;
    let reply = deduce_reply(a, said);
    if reply.refusal != 0 {
        return reply.refusal;
    }
    let work = deduced.meter;
    put_answer(reply, deduced.ticks, answer);
    put_meter(work, meter);
    0
}

// Next output: the next output of the row at a position, and the cursor past it; refused by 1, 2, 3, 5, 6 or 8.
pub fn ledger_next_output(
    head: &[u64; HEADER_WORDS],
    answer: &mut [u64; ANSWER_WORDS],
    meter: &mut [u64; METER_WORDS],
    cursor: &mut [u64; CURSOR_WORDS],
    slots: &[u64],
    postings: &[u64],
    position: u64,
    held: &[u64],
    cut: &[u64],
) -> u64
    ensures { left result (answer.new ∷ meter.new ∷ cursor.new ∷ [])
        ≡ output_call head.now answer.old meter.old cursor.old slots.now
        postings.now position held.now cut.now }
{
    let next = next_output(
        header_of(head),
        slots,
        postings,
        position,
        cursor_of(cursor),
        held,
        cut,
        meter_of(meter),
    );
    let a = next.answer;
    let reply = next_reply(a);
    if reply.refusal != 0 {
        return reply.refusal;
    }
    let work = next.meter;
    let place = next.cursor;
    put_answer(reply, next.ticks, answer);
    put_meter(work, meter);
    put_cursor(place, cursor);
    0
}

// Decide: holds an atom of a region, or cuts it if `value` is 0; refused by 6.
pub fn ledger_decide(
    answer: &mut [u64; ANSWER_WORDS],
    atoms: u64,
    held: &mut [u64],
    cut: &mut [u64],
    atom: u64,
    value: u64,
) -> u64
    ensures { left result (answer.new ∷ held.new ∷ cut.new ∷ [])
        ≡ decide_call answer.old atoms held.old cut.old atom value }
{
    let decided = decide(atoms, held, cut, atom, value != 0);
    let a = decided.answer;
    let reply = decide_reply(a);
    if reply.refusal != 0 {
        return reply.refusal;
    }
    put_answer(reply, decided.ticks, answer);
    0
}

// Offer: a row given to the ledger; refused by 1, 2, 3 or 4.
pub fn ledger_offer(
    head: &mut [u64; HEADER_WORDS],
    answer: &mut [u64; ANSWER_WORDS],
    meter: &mut [u64; METER_WORDS],
    slots: &mut [u64],
    postings: &mut [u64],
    conditions: &[u64],
    outputs: &[u64],
    source: u64,
) -> u64
    ensures { left result (head.new ∷ answer.new ∷ meter.new ∷ slots.new ∷ postings.new ∷ [])
        ≡ offer_call head.old answer.old meter.old slots.old postings.old
        conditions.now outputs.now source }
{
    let offered = offer(
        header_of(head),
        slots,
        postings,
        conditions,
        outputs,
        source,
        meter_of(meter),
    );
    let a = offered.answer;
    let reply = offer_reply(a);
    if reply.refusal != 0 {
        return reply.refusal;
    }
    let header = offered.header;
    let work = offered.meter;
    put_header(header, head);
    put_answer(reply, offered.ticks, answer);
    put_meter(work, meter);
    0
}

// Candidates: the rows to be looked at after atoms were decided, in `found`; refused by 1, 2 or 3.
pub fn ledger_candidates(
    head: &mut [u64; HEADER_WORDS],
    answer: &mut [u64; ANSWER_WORDS],
    meter: &mut [u64; METER_WORDS],
    slots: &[u64],
    postings: &mut [u64],
    atoms: &[u64],
    found: &mut [u64],
) -> u64
    ensures { left result (head.new ∷ answer.new ∷ meter.new ∷ postings.new ∷ found.new ∷ [])
        ≡ candidates_call head.old answer.old meter.old slots.now postings.old
        atoms.now found.old }
{
    let searched = candidates(
        header_of(head),
        slots,
        postings,
        atoms,
        found,
        meter_of(meter),
    );
    let a = searched.answer;
    let reply = candidates_reply(a);
    if reply.refusal != 0 {
        return reply.refusal;
    }
    let header = searched.header;
    let work = searched.meter;
    put_header(header, head);
    put_answer(reply, searched.ticks, answer);
    put_meter(work, meter);
    0
}

// Close: a region closed under the rows; both scratches end as zeros; refused by 1, 2, 3 or 6.
pub fn ledger_close(
    head: &mut [u64; HEADER_WORDS],
    answer: &mut [u64; ANSWER_WORDS],
    meter: &mut [u64; METER_WORDS],
    slots: &mut [u64],
    postings: &mut [u64],
    held: &mut [u64],
    cut: &mut [u64],
    rows: &mut [u64],
    atoms: &mut [u64],
) -> u64
    ensures { left result
        (head.new ∷ answer.new ∷ meter.new ∷ slots.new ∷ postings.new ∷ held.new
        ∷ cut.new ∷ rows.new ∷ atoms.new ∷ [])
        ≡ close_call head.old answer.old meter.old slots.old postings.old
        held.old cut.old rows.old atoms.old }
{
    let closed = close(
        header_of(head),
        slots,
        postings,
        held,
        cut,
        rows,
        atoms,
        meter_of(meter),
    );
    let a = closed.answer;
    let output = closed.contradicted;
    let reply = close_reply(a, output);
    if reply.refusal != 0 {
        return reply.refusal;
    }
    let header = closed.header;
    let work = closed.meter;
    put_header(header, head);
    put_answer(reply, closed.ticks, answer);
    put_meter(work, meter);
    0
}

// Seed: a tier takes the rows of a store; refused by the tier's 1, 2 or 3, the store's 1, 2 or 3, or 7.
pub fn ledger_seed(
    tier: &mut [u64; HEADER_WORDS],
    store: &mut [u64; HEADER_WORDS],
    answer: &mut [u64; ANSWER_WORDS],
    meter: &mut [u64; METER_WORDS],
    tier_slots: &mut [u64],
    tier_postings: &mut [u64],
    store_slots: &[u64],
    store_postings: &[u64],
) -> u64
    ensures { left result
        (tier.new ∷ store.new ∷ answer.new ∷ meter.new ∷ tier_slots.new
        ∷ tier_postings.new ∷ [])
        ≡ seed_call tier.old store.old answer.old meter.old tier_slots.old
        tier_postings.old store_slots.now store_postings.now }
{
    let seeded = seed(
        header_of(tier),
        tier_slots,
        tier_postings,
        header_of(store),
        store_slots,
        store_postings,
        meter_of(meter),
    );
    let a = seeded.answer;
    let reply = transfer_reply(a);
    if reply.refusal != 0 {
        return reply.refusal;
    }
    let receiver = seeded.tier;
    let giver = seeded.store;
    let work = seeded.meter;
    put_header(receiver, tier);
    put_header(giver, store);
    put_answer(reply, seeded.ticks, answer);
    put_meter(work, meter);
    0
}

// Deliver: a store takes the rows of a tier; refused as Seed is.
pub fn ledger_deliver(
    tier: &mut [u64; HEADER_WORDS],
    store: &mut [u64; HEADER_WORDS],
    answer: &mut [u64; ANSWER_WORDS],
    meter: &mut [u64; METER_WORDS],
    tier_slots: &mut [u64],
    tier_postings: &[u64],
    store_slots: &mut [u64],
    store_postings: &mut [u64],
) -> u64
    ensures { left result
        (tier.new ∷ store.new ∷ answer.new ∷ meter.new ∷ tier_slots.new
        ∷ store_slots.new ∷ store_postings.new ∷ [])
        ≡ deliver_call tier.old store.old answer.old meter.old tier_slots.old
        tier_postings.now store_slots.old store_postings.old }
{
    let delivered = deliver(
        header_of(tier),
        tier_slots,
        tier_postings,
        header_of(store),
        store_slots,
        store_postings,
        meter_of(meter),
    );
    let a = delivered.answer;
    let reply = transfer_reply(a);
    if reply.refusal != 0 {
        return reply.refusal;
    }
    let giver = delivered.tier;
    let receiver = delivered.store;
    let work = delivered.meter;
    put_header(giver, tier);
    put_header(receiver, store);
    put_answer(reply, delivered.ticks, answer);
    put_meter(work, meter);
    0
}
