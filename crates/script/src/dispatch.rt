// The call of a line, by its first word.
use script_answers::dump;
use script_notation::calls::{Asked, Call, LineError, call_of};
use script_notation::ledgers::{Memory, ledger_at};
use script_notation::points::{InOrder, call_in_order};
use script_several::{decide, make, transfer};
use script_single::{act_by, candidates, next};
use text::Writer;
use wire::HEADER_WORDS;

// `reset`: all ledgers are gone.
fn reset(line: &[u8], at: usize, memory: &mut Memory, out: &mut Writer) -> Result<(), LineError> {
    if !text::ended(line, at) {
        return Err(LineError::Malformed);
    }
    memory.heads.fill([0; HEADER_WORDS]);
    out.put_text(b"reset");
    Ok(())
}

// A call on one ledger, whose number is the next word.
fn on_ledger(
    call: Call,
    line: &[u8],
    at: usize,
    memory: &mut Memory,
    out: &mut Writer,
) -> Result<(), LineError> {
    let (index, at) = text::number(line, at).ok_or(LineError::Malformed)?;
    let points = &mut *memory.points;
    let mut ledger = ledger_at(memory.heads, memory.slots, memory.postings, index).ok_or(
        LineError::NoLedger,
    )?;
    let q = Asked {
        call,
        index,
        line,
        at,
    };
    match call {
        Call::Dump => dump(q, &ledger, out),
        Call::Candidates => candidates(q, &mut ledger, out),
        Call::Next => next(q, &ledger, out),
        _ => act_by(q, &mut ledger, InOrder(points), out),
    }
}

// The call of a line, and its answer, whose end is yet to be put; of a line that is no call nothing is put.
pub fn run(line: &[u8], memory: &mut Memory, out: &mut Writer) -> Result<(), LineError> {
    let (word, at) = text::word(line, 0);
    let call = call_of(word).ok_or(LineError::UnknownCall)?;
    match call {
        Call::Make => make(line, at, memory, out),
        Call::Decide => decide(line, at, out),
        Call::Reset => reset(line, at, memory, out),
        Call::Point => call_in_order(line, at, memory.points, out),
        Call::Seed | Call::Deliver => transfer(call, line, at, memory, out),
        _ => on_ledger(call, line, at, memory, out),
    }
}
