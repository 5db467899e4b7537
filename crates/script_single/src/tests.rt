// A call is answered by the names of points in no order, and alike by those of points in order.
use crate::acting::{act, act_by};
use boundary::ledger_make;
use script_notation::calls::{Asked, Call};
use script_notation::ledgers::{Ledger, place_for};
use script_notation::memory::{Head, Postings, Slots};
use script_notation::points::{InOrder, Point, call, call_in_order};
use std::test::Fail;
use text::{Writer, filled};
use wire::{ANSWER_WORDS, LIMITS_WORDS};

// Limits for 10 atoms and one row.
const LIMITS: [u64; LIMITS_WORDS] = [10, 1, 4, 4, 0, 8, 1000, 100, 4, 1];

// Makes a ledger with those limits; its refusal, or 0.
fn make(ledger: &mut Ledger) -> u64 {
    let mut answer = [0u64; ANSWER_WORDS];
    ledger_make(
        &LIMITS,
        1,
        ledger.head,
        &mut answer,
        ledger.slots,
        ledger.postings,
    )
}

// The first rule of a ledger, from its meter's limit on.
fn rule() -> Asked<'static> {
    Asked {
        call: Call::Rule,
        index: 0,
        line: b"rule 0 1000 b -> a",
        at: 6,
    }
}

// The closing after it.
fn plan() -> Asked<'static> {
    Asked {
        call: Call::Plan,
        index: 0,
        line: b"plan 0 1000 !a",
        at: 6,
    }
}

// Whether this is the answer to the rule.
fn is_rule_answer(bytes: &[u8]) -> bool {
    let row =
        b"rule 0 Added 0 b -> a charge=2 rows=1 born=1 epoch=0 attempts=1 remaining=998 sharing=100";
    let rest = b" evicted=0 deliveries=0 seeded=0 stale=1 full=1 mark=none founded=1";
    bytes.strip_prefix(row.as_slice()) == Some(rest.as_slice())
}

// Whether this is the answer to the closing.
fn is_plan_answer(bytes: &[u8]) -> bool {
    bytes.starts_with(b"plan 0 Closed charge=5 held=- cut=a,b because=a rows=1 ")
}

#[test]
fn a_call_is_answered_by_its_names(rt: HostRuntime) -> Result<(), Fail> {
    let mut heads: [Head; 1] = [filled(0)];
    let mut slots: [Slots; 1] = [filled(0)];
    let mut postings: [Postings; 1] = [filled(0)];
    let mut points: [Option<Point>; 2] = [None; 2];
    let mut out = Writer::new();
    assert_eq!(rt; call(b"9 b", 0, &mut points[..1], &mut out), Ok(()));
    assert_eq!(rt; call(b"3 a", 0, &mut points[1..], &mut out), Ok(()));
    let mut ledger = place_for(&mut heads, &mut slots, &mut postings, 0, 1).ok_or("no place")?;
    assert_eq!(rt; make(&mut ledger), 0);
    let mut out = Writer::new();
    assert_eq!(rt; act(rule(), &mut ledger, &points, &mut out), Ok(()));
    assert!(rt; is_rule_answer(out.waiting()));
    let mut out = Writer::new();
    assert_eq!(rt; act(plan(), &mut ledger, &points, &mut out), Ok(()));
    assert!(rt; is_plan_answer(out.waiting()));
    Ok(())
}

#[test]
fn a_call_is_answered_by_names_in_order(rt: HostRuntime) -> Result<(), Fail> {
    let mut heads: [Head; 1] = [filled(0)];
    let mut slots: [Slots; 1] = [filled(0)];
    let mut postings: [Postings; 1] = [filled(0)];
    let mut points: [Option<Point>; 2] = [None; 2];
    let mut out = Writer::new();
    assert_eq!(rt; call_in_order(b"9 b", 0, &mut points, &mut out), Ok(()));
    assert_eq!(rt; call_in_order(b"3 a", 0, &mut points, &mut out), Ok(()));
    let mut ledger = place_for(&mut heads, &mut slots, &mut postings, 0, 1).ok_or("no place")?;
    assert_eq!(rt; make(&mut ledger), 0);
    let names = InOrder(&points);
    let mut out = Writer::new();
    assert_eq!(rt; act_by(rule(), &mut ledger, names, &mut out), Ok(()));
    assert!(rt; is_rule_answer(out.waiting()));
    let mut out = Writer::new();
    assert_eq!(rt; act_by(plan(), &mut ledger, names, &mut out), Ok(()));
    assert!(rt; is_plan_answer(out.waiting()));
    Ok(())
}
