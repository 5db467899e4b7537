// The items of `rule`, `tip` and `plan`, parted by spaces or commas; `-` stands for none. An item is a literal:
// `+NAME` or `NAME` for present (held), `!NAME` for absent (cut); `+ATOM` and `!ATOM` by an atom's number;
// a number alone is a code in `rule` and `tip`, and an atom held in `plan`.
ghost use Rattle.std.specs.Prelude.{◌≤◌, length};

use crate::memory::ATOMS;
use crate::points::{Anywhere, Names, Point, atom_named, name_of, put_atom_by, put_name};
use std::num::wrapping_add_u64;
use text::{Writer, value, word};
use words::MAX_ATOMS;

// Every code is below this.
const ALL_CODES: u64 = 2 * MAX_ATOMS;

// The first code of no atom that there is room for. No ledger has it: it stands in a set for all codes from it on,
// for the memory of a set is fixed (`Literals`) and too small for all codes.
const UNFIT: u64 = 2 * ATOMS;

// Every code of a set is below this.
pub const CODES: u64 = UNFIT + 1;

// How items ended: by an arrow, behind which this place is, or with the line.
#[derive(Clone, Copy, Debug, PartialEq, Eq)]
pub enum Ending {
    Arrow(usize),
    Line,
}

// The atom that a word names or numbers.
fn atom_of(word: &[u8], points: &[Option<Point>]) -> Option<u64> {
    match name_of(word) {
        Some(name) => atom_named(points, name),
        None => value(word),
    }
}

// The literal of an atom that is named or numbered.
fn signed(word: &[u8], points: &[Option<Point>], present: bool) -> Option<u64> {
    let atom = atom_of(word, points)?;
    if MAX_ATOMS <= atom {
        return None;
    }
    Some(2 * atom + u64::from(present))
}

// The code that a word numbers.
fn code(word: &[u8]) -> Option<u64> {
    value(word).filter(|code| *code < ALL_CODES)
}

// The literal that a word is; with `codes` a number alone is a code.
fn item(word: &[u8], points: &[Option<Point>], codes: bool) -> Option<u64> {
    match word {
        [b'!', atom @ ..] => signed(atom, points, false),
        [b'+', atom @ ..] => signed(atom, points, true),
        [b'0'..=b'9', ..] if codes => code(word),
        _ => signed(word, points, true),
    }
}

// Puts the literals between the commas of a word among a set of codes; there is none in `-`.
fn items_in(word: &[u8], points: &[Option<Point>], codes: bool, set: &mut [u64]) -> Option<()> {
    if word == b"-".as_slice() {
        return Some(());
    }
    for part in word.split(|byte| *byte == b',') {
        let code = item(part, points, codes)?;
        words::insert(set, code.min(UNFIT));
    }
    Some(())
}

// Puts the literals from `at` on among a set of codes, up to an arrow or the end of the line.
pub fn items(
    line: &[u8],
    at: usize,
    points: &[Option<Point>],
    codes: bool,
    set: &mut [u64],
) -> Option<Ending> {
    let mut next = at;
    loop {
        let (word, after) = word(line, next);
        if word.is_empty() {
            return Some(Ending::Line);
        }
        if word == b"->".as_slice() {
            return Some(Ending::Arrow(after));
        }
        items_in(word, points, codes, set)?;
        next = after;
    }
}

// The codes of a set, ascending, as many as there is room for; answers how many.
pub fn gather(set: &[u64], list: &mut [u64]) -> usize
    ensures { result ≤ length list.old }
{
    let mut from: u64 = 0;
    for (i, place) in list.iter_mut().enumerate() {
        let Some(c) = words::next_from(CODES, set, from) else {
            return i;
        };
        *place = c;
        from = wrapping_add_u64(c, 1);
    }
    list.len()
}

// A literal: by its atom's name, with `!` where it is absent, or by its code where the atom has none.
fn put_item<N: Names>(out: &mut Writer, names: N, code: u64) {
    let Some(name) = names.name_at(code / 2) else {
        out.put_decimal(code);
        return;
    };
    if code % 2 == 0 {
        out.put(b'!');
    }
    put_name(out, name);
}

// A literal as an item of `plan`, where a number alone is an atom: by its atom's name, or by its atom with `+` or `!`.
pub fn put_literal_by<N: Names>(out: &mut Writer, names: N, code: u64) {
    let atom = code / 2;
    if code % 2 == 0 {
        out.put(b'!');
    } else if names.name_at(atom).is_none() {
        out.put(b'+');
    }
    put_atom_by(out, names, atom);
}

// The same by the names of points in any order.
pub fn put_literal(out: &mut Writer, points: &[Option<Point>], code: u64) {
    put_literal_by(out, Anywhere(points), code);
}

// Literals with commas between them, or `-` for none.
pub fn put_items_by<N: Names>(out: &mut Writer, names: N, codes: &[u64]) {
    if codes.is_empty() {
        out.put(b'-');
    }
    for (i, code) in codes.iter().enumerate() {
        out.put_comma(0 < i);
        put_item(out, names, *code);
    }
}

// The same by the names of points in any order.
pub fn put_items(out: &mut Writer, points: &[Option<Point>], codes: &[u64]) {
    put_items_by(out, Anywhere(points), codes);
}
