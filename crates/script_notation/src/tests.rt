// Names whatever the order in which they were given: each function is shown points in no order, and its answer is the one that an order
// would give.
use crate::calls::LineError;
use crate::literals::{put_items, put_items_by, put_literal, put_literal_by};
use crate::points::{
    InOrder, Name, Names, Point, call, call_in_order, name_at, name_of, put_atom, put_atom_by,
};
use crate::regions::{put_region, put_region_by};
use text::Writer;

// Atom 9 by the name b, then atom 3 by the name a, and a free place.
fn given(out: &mut Writer) -> [Option<Point>; 3] {
    let mut points: [Option<Point>; 3] = [None; 3];
    let _ = call(b"9 b", 0, &mut points[..1], out);
    let _ = call(b"3 a", 0, &mut points[1..2], out);
    points
}

#[test]
fn a_name_is_found_in_any_order(rt: HostRuntime) {
    let mut out = Writer::new();
    let points = given(&mut out);
    assert_eq!(rt; out.waiting(), b"point 9 bpoint 3 a".as_slice());
    assert_eq!(rt; name_at(&points, 9), name_of(b"b"));
    assert_eq!(rt; name_at(&points, 3), name_of(b"a"));
    assert_eq!(rt; name_at(&points, 4), None::<Name>);
}

#[test]
fn a_free_place_is_taken_wherever_it_stands(rt: HostRuntime) {
    let mut out = Writer::new();
    let mut points = given(&mut out);
    points[2] = points[0];
    points[0] = None;
    assert_eq!(rt;
        call(b"3 c", 0, &mut points, &mut out),
        Err(LineError::NameTaken)
    );
    assert_eq!(rt; call(b"7 d", 0, &mut points, &mut out), Ok(()));
    assert_eq!(rt; name_at(&points, 7), name_of(b"d"));
    assert_eq!(rt; name_at(&points, 9), name_of(b"b"));
    assert_eq!(rt;
        call(b"8 e", 0, &mut points, &mut out),
        Err(LineError::NoRoom)
    );
}

#[test]
fn atoms_and_literals_are_put_by_their_names(rt: HostRuntime) {
    let mut out = Writer::new();
    let points = given(&mut out);
    let mut out = Writer::new();
    put_atom(&mut out, &points, 3);
    put_atom(&mut out, &points, 4);
    for code in [6, 7, 8, 9] {
        out.put(b' ');
        put_literal(&mut out, &points, code);
    }
    out.put(b' ');
    put_items(&mut out, &points, &[6, 7, 8, 19]);
    assert_eq!(rt; out.waiting(), b"a4 !a a !4 +4 !a,a,8,b".as_slice());
}

#[test]
fn a_region_is_put_by_its_names(rt: HostRuntime) {
    let mut out = Writer::new();
    let points = given(&mut out);
    let mut out = Writer::new();
    put_region(&mut out, 10, &[520], &[16], &points);
    assert_eq!(rt; out.waiting(), b" held=a,b cut=4".as_slice());
}

#[test]
fn points_in_order_are_put_alike(rt: HostRuntime) {
    let mut out = Writer::new();
    let mut points: [Option<Point>; 3] = [None; 3];
    assert_eq!(rt; call_in_order(b"9 b", 0, &mut points, &mut out), Ok(()));
    assert_eq!(rt; call_in_order(b"3 a", 0, &mut points, &mut out), Ok(()));
    assert_eq!(rt; out.waiting(), b"point 9 bpoint 3 a".as_slice());
    let names = InOrder(&points);
    assert_eq!(rt; names.name_at(3), name_of(b"a"));
    let mut out = Writer::new();
    put_atom_by(&mut out, names, 3);
    put_atom_by(&mut out, names, 4);
    for code in [6, 7, 8, 9] {
        out.put(b' ');
        put_literal_by(&mut out, names, code);
    }
    out.put(b' ');
    put_items_by(&mut out, names, &[6, 7, 8, 19]);
    put_region_by(&mut out, 10, &[520], &[16], names);
    assert_eq!(rt;
        out.waiting(),
        b"a4 !a a !4 +4 !a,a,8,b held=a,b cut=4".as_slice()
    );
}
