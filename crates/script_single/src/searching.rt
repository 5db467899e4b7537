// Two more calls on one ledger:
// - `candidates I M ATOMS`: `candidates I COUNT LIST charge=N HEAD`, or `candidates I Stopped charge=N HEAD`
// - `next I M P NEXT,WORD,PRESENT,ABSENT HELD CUT`: `next I ANSWER charge=N cursor=NEXT,WORD,PRESENT,ABSENT HEAD`, ANSWER one of `Output
// CODE`, `End`, `Stopped`
use boundary::{ledger_candidates, ledger_next_output};
use script_answers::{Output, put_call, put_charge, put_end, put_head, put_refused};
use script_notation::arguments::Lists;
use script_notation::calls::{Asked, LineError};
use script_notation::ledgers::Ledger;
use script_notation::memory::{EachRow, List, Numbers};
use script_notation::regions::read_region;
use text::{Writer, ended, filled, kept};
use wire::{
    ANSWER_WORDS, CURSOR_WORDS, HEAD_ATOMS_AT, HEAD_TIER_ROWS_AT, HEADER_WORDS, METER_WORDS,
};

// The line after the ledger's number: how many rows there are, and which; or that it was stopped, which is any case but the first.
fn put_rows(out: &mut Writer, answer: &[u64; ANSWER_WORDS], rows: &[u64]) {
    if answer[0] != 0 {
        out.put_text(b" Stopped");
        return;
    }
    out.put_field(b" ", answer[1]);
    out.put(b' ');
    let n = kept(rows, answer[1] as usize);
    out.put_list(&rows[..n]);
}

pub fn candidates(q: Asked, ledger: &mut Ledger, out: &mut Writer) -> Result<(), LineError> {
    let mut meter = [0u64; METER_WORDS];
    let mut answer = [0u64; ANSWER_WORDS];
    let mut atoms: Numbers = filled(0);
    let mut rows: EachRow = filled(0);
    let at = text::numbers(q.line, q.at, &mut meter[1..2]).ok_or(LineError::Malformed)?;
    let l = text::list(q.line, at, &mut atoms).ok_or(LineError::Malformed)?;
    if !ended(q.line, l.at) {
        return Err(LineError::Malformed);
    }
    let atoms = atoms.get(..l.count).ok_or(LineError::NoRoom)?;
    let head = &mut *ledger.head;
    let n = kept(&rows, head[HEAD_TIER_ROWS_AT] as usize);
    let rows = &mut rows[..n];
    let slots = &mut *ledger.slots;
    let postings = &mut *ledger.postings;
    let refusal = ledger_candidates(head, &mut answer, &mut meter, slots, postings, atoms, rows);
    put_call(out, q.line, q.index);
    if refusal != 0 {
        put_refused(out, refusal);
        return Ok(());
    }
    put_rows(out, &answer, rows);
    put_end(out, answer[2], ledger.head);
    Ok(())
}

// The line after the ledger's number.
fn put_output(
    out: &mut Writer,
    answer: &[u64; ANSWER_WORDS],
    cursor: &[u64; CURSOR_WORDS],
    head: &[u64; HEADER_WORDS],
) {
    match Output::from(*answer) {
        Output::End => out.put_text(b" End"),
        Output::Code(code) => out.put_field(b" Output ", code),
        Output::Stopped => out.put_text(b" Stopped"),
    }
    put_charge(out, answer[2]);
    out.put_text(b" cursor=");
    out.put_list(cursor);
    put_head(out, head);
}

pub fn next(q: Asked, ledger: &Ledger, out: &mut Writer) -> Result<(), LineError> {
    let mut given = [0u64; 2];
    let mut meter = [0u64; METER_WORDS];
    let mut cursor = [0u64; CURSOR_WORDS];
    let mut answer = [0u64; ANSWER_WORDS];
    let mut held: List = filled(0);
    let mut cut: List = filled(0);
    let head = *ledger.head;
    let at = text::numbers(q.line, q.at, &mut given).ok_or(LineError::Malformed)?;
    let c = text::list(q.line, at, &mut cursor).ok_or(LineError::Malformed)?;
    if c.count != CURSOR_WORDS {
        return Err(LineError::Malformed);
    }
    let region = read_region(q.line, c.at, head[HEAD_ATOMS_AT], &mut held, &mut cut).ok_or(
        LineError::Malformed,
    )?;
    let Lists { first, second, .. } = region;
    let slots = &*ledger.slots;
    let postings = &*ledger.postings;
    meter[1] = given[0];
    let refusal = ledger_next_output(
        &head,
        &mut answer,
        &mut meter,
        &mut cursor,
        slots,
        postings,
        given[1],
        first,
        second,
    );
    put_call(out, q.line, q.index);
    if refusal != 0 {
        put_refused(out, refusal);
        return Ok(());
    }
    put_output(out, &answer, &cursor, &head);
    Ok(())
}
