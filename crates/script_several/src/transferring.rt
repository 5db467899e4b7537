// `seed T S M` and `deliver T S M`: `seed T S ANSWER charge=N T HEAD S HEAD`, ANSWER `Done` or `Stopped`, and `deliver` likewise; T is the
// tier, S the store, and T HEAD and S HEAD are each ledger's number and header. A ledger is not its own store:
// the same number twice is an error.
use boundary::{ledger_deliver, ledger_seed};
use script_answers::{put_call, put_case, put_charge, put_head, put_refused};
use script_notation::calls::{Call, LineError};
use script_notation::ledgers::{Ledger, Memory, two_ledgers};
use text::Writer;
use wire::{ANSWER_WORDS, METER_WORDS};

// The transfer itself: `seed`, or `deliver`. Its refusal, or 0, as the functions for C have it.
fn operate(
    call: Call,
    tier: &mut Ledger,
    store: &mut Ledger,
    answer: &mut [u64; ANSWER_WORDS],
    meter: &mut [u64; METER_WORDS],
) -> u64 {
    let head = &mut *tier.head;
    let slots = &mut *tier.slots;
    let postings = &mut *tier.postings;
    let store_head = &mut *store.head;
    let store_slots = &mut *store.slots;
    let store_postings = &mut *store.postings;
    match call {
        Call::Seed => ledger_seed(
            head,
            store_head,
            answer,
            meter,
            slots,
            postings,
            store_slots,
            store_postings,
        ),
        _ => ledger_deliver(
            head,
            store_head,
            answer,
            meter,
            slots,
            postings,
            store_slots,
            store_postings,
        ),
    }
}

// The line after the numbers of the two ledgers.
fn put_answer(
    out: &mut Writer,
    given: &[u64; 3],
    answer: &[u64; ANSWER_WORDS],
    tier: &Ledger,
    store: &Ledger,
) {
    put_case(out, b"Done - Stopped", answer);
    put_charge(out, answer[2]);
    out.put_field(b" ", given[0]);
    put_head(out, tier.head);
    out.put_field(b" ", given[1]);
    put_head(out, store.head);
}

pub fn transfer(
    call: Call,
    line: &[u8],
    at: usize,
    memory: &mut Memory,
    out: &mut Writer,
) -> Result<(), LineError> {
    let mut given = [0u64; 3];
    let mut answer = [0u64; ANSWER_WORDS];
    let at = text::numbers(line, at, &mut given).ok_or(LineError::Malformed)?;
    let [index, other, limit] = given;
    if !text::ended(line, at) || index == other {
        return Err(LineError::Malformed);
    }
    let (mut tier, mut store) = two_ledgers(
        memory.heads,
        memory.slots,
        memory.postings,
        index,
        other,
    ).ok_or(LineError::NoLedger)?;
    let mut meter = [0, limit];
    let refusal = operate(call, &mut tier, &mut store, &mut answer, &mut meter);
    put_call(out, line, index);
    if refusal != 0 {
        put_refused(out, refusal);
        return Ok(());
    }
    out.put_field(b" ", other);
    put_answer(out, &given, &answer, &tier, &store);
    Ok(())
}
