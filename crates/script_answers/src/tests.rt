// A row by the names of points in no order, and alike by those of points in order.
use crate::rows::{put_row, put_row_by};
use model::{BODY_AT, CONDITIONS_AT, OUTPUTS_AT, SLOT_WORDS};
use script_notation::points::{InOrder, Point, call, call_in_order};
use text::Writer;

// The slot of the row 'atom 3 held: atom 9 cut'.
fn slot() -> [u64; SLOT_WORDS] {
    let mut slot = [0u64; SLOT_WORDS];
    slot[CONDITIONS_AT] = 1;
    slot[OUTPUTS_AT] = 1;
    slot[BODY_AT] = 7;
    slot[BODY_AT + 1] = 18;
    slot
}

#[test]
fn a_row_is_put_by_its_names(rt: HostRuntime) {
    let mut out = Writer::new();
    let mut points: [Option<Point>; 2] = [None; 2];
    assert_eq!(rt; call(b"9 b", 0, &mut points[..1], &mut out), Ok(()));
    assert_eq!(rt; call(b"3 a", 0, &mut points[1..], &mut out), Ok(()));
    let mut out = Writer::new();
    put_row(&mut out, &points, &slot(), 0);
    put_row(&mut out, &points, &slot(), 1);
    assert_eq!(rt; out.waiting(), b" a -> !b".as_slice());
}

#[test]
fn a_row_is_put_by_names_in_order(rt: HostRuntime) {
    let mut out = Writer::new();
    let mut points: [Option<Point>; 2] = [None; 2];
    assert_eq!(rt; call_in_order(b"9 b", 0, &mut points, &mut out), Ok(()));
    assert_eq!(rt; call_in_order(b"3 a", 0, &mut points, &mut out), Ok(()));
    let mut out = Writer::new();
    put_row_by(&mut out, InOrder(&points), &slot(), 0);
    assert_eq!(rt; out.waiting(), b" a -> !b".as_slice());
}
