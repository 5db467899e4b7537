// `make I A TIER_ROWS CONDITIONS OUTPUTS FLOOR ATTEMPTS WORK SHARE_WORK SHARE_CONDITIONS SHARE_HITS NUMBER`: `make I HEAD`. A refused
// `make` leaves the ledger's number unmade; a ledger that the program has no room for is an error, and stays as it was.
use boundary::ledger_make;
use contents::limits_ok;
use script_answers::{put_call, put_head, put_refused};
use script_notation::calls::LineError;
use script_notation::ledgers::{Ledger, Memory, place_for};
use script_notation::memory::ATOMS;
use text::Writer;
use wire::{ANSWER_WORDS, HEAD_ATOMS_AT, HEAD_TIER_ROWS_AT, HEADER_WORDS, LIMITS_WORDS};

// Where the number stands in a line: behind the ledger and its limits.
const NUMBER_AT: usize = LIMITS_WORDS + 1;

// The rows to find room for: one where the limits are to be refused, none where there is no room for the atoms.
fn rows_for(limits: &[u64; LIMITS_WORDS]) -> Option<u64> {
    if !limits_ok(wire::limits_of(limits)) {
        return Some(1);
    }
    if ATOMS < limits[HEAD_ATOMS_AT] {
        return None;
    }
    Some(limits[HEAD_TIER_ROWS_AT])
}

// Makes the ledger in its place, which is empty where it is refused. The refusal, or 0, as the functions for C have it.
fn fill(limits: &[u64; LIMITS_WORDS], number: u64, ledger: &mut Ledger) -> u64 {
    let mut answer = [0u64; ANSWER_WORDS];
    *ledger.head = [0; HEADER_WORDS];
    ledger_make(
        limits,
        number,
        ledger.head,
        &mut answer,
        ledger.slots,
        ledger.postings,
    )
}

pub fn make(
    line: &[u8],
    at: usize,
    memory: &mut Memory,
    out: &mut Writer,
) -> Result<(), LineError> {
    let mut given = [0u64; NUMBER_AT + 1];
    let mut limits = [0u64; LIMITS_WORDS];
    let at = text::numbers(line, at, &mut given).ok_or(LineError::Malformed)?;
    if !text::ended(line, at) {
        return Err(LineError::Malformed);
    }
    let index = given[0];
    limits.copy_from_slice(&given[1..NUMBER_AT]);
    let rows = rows_for(&limits).ok_or(LineError::NoRoom)?;
    let mut ledger = place_for(memory.heads, memory.slots, memory.postings, index, rows).ok_or(
        LineError::NoRoom,
    )?;
    let refusal = fill(&limits, given[NUMBER_AT], &mut ledger);
    put_call(out, line, index);
    if refusal != 0 {
        put_refused(out, refusal);
        return Ok(());
    }
    put_head(out, ledger.head);
    Ok(())
}
