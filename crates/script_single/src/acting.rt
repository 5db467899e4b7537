// The calls on one ledger that have numbers and then two lists, or none:
// - `begin I`, `hit I P`: `hit I Done charge=0 HEAD`
// - `offer I M CONDS OUTS [SOURCE]`: `offer I ANSWER charge=N HEAD`, ANSWER one of `Shut`, `Stopped`, `Declined`, `Subsumed P`, `Added P`;
// SOURCE is 0 for Founded, as where it is left out, or 1 for a Tip
// - `rule I M ITEMS -> ITEMS`: an offer by items, in any order, each counted once;
// `Subsumed P` and `Added P` are followed by the row at P as it is then
// - `tip I M ITEMS -> ITEMS`: the same, of a Tip
// - `deduce I M P HELD CUT`: `deduce I ANSWER charge=N HEAD`, ANSWER one of `Nothing`, `Force`, `Stopped`, `Require CODE contradicted=CODE`
// - `close I M HELD CUT`: `close I ANSWER charge=N held=LIST cut=LIST contradicted=CODE HEAD`, ANSWER one of `Closed`, `Conflict`,
// `Stopped`; `contradicted=none` where no Require was acted on
// - `plan I M ITEMS`: a closing by items, and an atom stands in the lists by its name where it has one; in the place of the contradicted
// output's code stands `because=ITEM`, or `because=-` for none
ghost use Rattle.std.specs.Prelude.{◌≤◌};

use boundary::{ledger_begin, ledger_close, ledger_deduce, ledger_hit, ledger_offer};
use script_answers::{
    Deduced, Offered, contradicted, put_call, put_case, put_charge, put_head, put_refused,
    put_row_by,
};
use script_notation::arguments::read_lists;
use script_notation::calls::{Asked, Call, LineError};
use script_notation::ledgers::Ledger;
use script_notation::literals::put_literal_by;
use script_notation::memory::{EachAtom, EachRow, Head, List};
use script_notation::points::{Anywhere, InOrder, Names, Point};
use script_notation::regions::put_region_by;
use text::{Writer, filled, kept};
use wire::{ANSWER_WORDS, HEAD_ATOMS_AT, HEAD_TIER_ROWS_AT, METER_WORDS};

// How many numbers stand before the lists.
fn number_count(call: Call) -> usize
    ensures { result ≤ 2 }
{
    match call {
        Call::Begin => 0,
        Call::Deduce => 2,
        _ => 1,
    }
}

// The closing, with scratch as long as the header's limits ask for.
fn close(
    head: &mut Head,
    answer: &mut [u64; ANSWER_WORDS],
    meter: &mut [u64; METER_WORDS],
    slots: &mut [u64],
    postings: &mut [u64],
    held: &mut [u64],
    cut: &mut [u64],
) -> u64 {
    let mut rows: EachRow = filled(0);
    let mut atoms: EachAtom = filled(0);
    let n = kept(&rows, head[HEAD_TIER_ROWS_AT] as usize);
    let m = kept(&atoms, head[HEAD_ATOMS_AT] as usize);
    let rows = &mut rows[..n];
    let atoms = &mut atoms[..m];
    ledger_close(head, answer, meter, slots, postings, held, cut, rows, atoms)
}

// The call itself, of these numbers and lists. Its refusal, or 0, as the functions for C have it.
fn operate(
    call: Call,
    given: &[u64; 2],
    ledger: &mut Ledger,
    first: &mut [u64],
    second: &mut [u64],
    source: u64,
    answer: &mut [u64; ANSWER_WORDS],
) -> u64 {
    let mut meter = [0u64; METER_WORDS];
    meter[1] = given[0];
    let head = &mut *ledger.head;
    let slots = &mut *ledger.slots;
    let postings = &mut *ledger.postings;
    match call {
        Call::Begin => ledger_begin(head, answer, slots, postings),
        Call::Hit => ledger_hit(head, answer, slots, postings, given[0]),
        Call::Offer | Call::Rule | Call::Tip => ledger_offer(
            head, answer, &mut meter, slots, postings, first, second, source,
        ),
        Call::Deduce => ledger_deduce(
            head, answer, &mut meter, slots, postings, given[1], first, second,
        ),
        _ => close(head, answer, &mut meter, slots, postings, first, second),
    }
}

// How an offer ended.
fn put_offered(out: &mut Writer, offered: Offered) {
    match offered {
        Offered::Shut => out.put_text(b" Shut"),
        Offered::Stopped => out.put_text(b" Stopped"),
        Offered::Declined => out.put_text(b" Declined"),
        Offered::Subsumed(position) => out.put_field(b" Subsumed ", position),
        Offered::Added(position) => out.put_field(b" Added ", position),
    }
}

// The same with the row that took the offer in.
fn put_joined<N: Names>(out: &mut Writer, offered: Offered, slots: &[u64], names: N) {
    put_offered(out, offered);
    match offered {
        Offered::Subsumed(position) | Offered::Added(position) => {
            put_row_by(out, names, slots, position)
        }
        _ => {}
    }
}

// What a row says.
fn put_deduced(out: &mut Writer, deduced: Deduced) {
    match deduced {
        Deduced::Nothing => out.put_text(b" Nothing"),
        Deduced::Force => out.put_text(b" Force"),
        Deduced::Stopped => out.put_text(b" Stopped"),
        Deduced::Require { code, contradicted } => {
            out.put_field(b" Require ", code);
            out.put_field(b" contradicted=", contradicted);
        }
    }
}

// The answer's words; of `rule` and `tip` with the row that took the offer in.
fn put_word<N: Names>(
    out: &mut Writer,
    call: Call,
    answer: &[u64; ANSWER_WORDS],
    slots: &[u64],
    names: N,
) {
    match call {
        Call::Offer => put_offered(out, Offered::from(*answer)),
        Call::Rule | Call::Tip => put_joined(out, Offered::from(*answer), slots, names),
        Call::Deduce => put_deduced(out, Deduced::from(*answer)),
        Call::Close | Call::Plan => put_case(out, b"Closed Conflict Stopped", answer),
        _ => out.put_text(b" Done"),
    }
}

// The output that a closing names, by its code.
fn put_contradicted(out: &mut Writer, output: Option<u64>) {
    match output {
        Some(code) => out.put_field(b" contradicted=", code),
        None => out.put_text(b" contradicted=none"),
    }
}

// The same as an item.
fn put_because<N: Names>(out: &mut Writer, output: Option<u64>, names: N) {
    out.put_text(b" because=");
    match output {
        Some(code) => put_literal_by(out, names, code),
        None => out.put(b'-'),
    }
}

// After the charge of `close` and `plan` the region, and the output that they name.
fn put_closed<N: Names>(
    out: &mut Writer,
    call: Call,
    answer: &[u64; ANSWER_WORDS],
    atoms: u64,
    held: &[u64],
    cut: &[u64],
    names: N,
) {
    match call {
        Call::Close => {
            put_region_by(out, atoms, held, cut, InOrder(&[]));
            put_contradicted(out, contradicted(answer));
        }
        Call::Plan => {
            put_region_by(out, atoms, held, cut, names);
            put_because(out, contradicted(answer), names);
        }
        _ => {}
    }
}

// The line after the ledger's number.
fn put_answer<N: Names>(
    out: &mut Writer,
    call: Call,
    answer: &[u64; ANSWER_WORDS],
    ledger: &Ledger,
    first: &[u64],
    second: &[u64],
    names: N,
) {
    let head = *ledger.head;
    put_word(out, call, answer, ledger.slots, names);
    put_charge(out, answer[2]);
    let atoms = head[HEAD_ATOMS_AT];
    put_closed(out, call, answer, atoms, first, second, names);
    put_head(out, &head);
}

// The call of a line, and its answer with these names.
pub fn act_by<N: Names>(
    q: Asked,
    ledger: &mut Ledger,
    names: N,
    out: &mut Writer,
) -> Result<(), LineError> {
    let mut given = [0u64; 2];
    let mut first: List = filled(0);
    let mut second: List = filled(0);
    let mut answer = [0u64; ANSWER_WORDS];
    let call = q.call;
    let n = number_count(call);
    let at = text::numbers(q.line, q.at, &mut given[..n]).ok_or(LineError::Malformed)?;
    let head = *ledger.head;
    let atoms = head[HEAD_ATOMS_AT];
    let points = names.points();
    let lists = read_lists(call, q.line, at, points, atoms, &mut first, &mut second).ok_or(
        LineError::Malformed,
    )?;
    let source = lists.source;
    let n = lists.first.len();
    let m = lists.second.len();
    let first = &mut first[..n];
    let second = &mut second[..m];
    let refusal = operate(call, &given, ledger, first, second, source, &mut answer);
    put_call(out, q.line, q.index);
    if refusal != 0 {
        put_refused(out, refusal);
        return Ok(());
    }
    put_answer(out, call, &answer, ledger, first, second, names);
    Ok(())
}

// The same with the names of points in any order.
pub fn act(
    q: Asked,
    ledger: &mut Ledger,
    points: &[Option<Point>],
    out: &mut Writer,
) -> Result<(), LineError> {
    act_by(q, ledger, Anywhere(points), out)
}
