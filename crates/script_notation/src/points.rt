// `point ATOM NAME`: `point ATOM NAME`. From then on the name stands for the atom in `rule` and `plan`. A name is a letter and then
// letters, digits, `-`, `_` and `.`, 31 bytes at most. An atom has one name, and a name one atom; an error is another name for an atom, a
// name that is another atom's, an atom of 1,048,576 or more, a bad name, and the first name after 1,024. `reset` leaves the names.
ghost use Rattle.std.specs.Prelude.{◌≡◌, ◌≤◌, length};

use crate::calls::LineError;
use text::{Writer, ended, number, pack, word};
use words::MAX_ATOMS;

const MAX_NAME: usize = 31;

// The words of a name, and the bytes that each has.
const NAME_WORDS: usize = 4;

const WORD_BYTES: usize = 8;

// A name as words of eight bytes.
#[derive(Clone, Copy, Debug, PartialEq, Eq)]
pub struct Name(pub [u64; NAME_WORDS]);

// An atom that has a name.
#[derive(Clone, Copy, Debug, PartialEq, Eq)]
pub struct Point {
    atom: u64,
    name: Name,
}

// Whether a byte may stand in a name.
fn is_inner(byte: u8) -> bool {
    byte.is_ascii_alphanumeric() || matches!(byte, b'-' | b'_' | b'.')
}

// Whether a word is a name.
pub fn is_name(word: &[u8]) -> bool {
    match word {
        [] => false,
        [first, ..] => {
            first.is_ascii_alphabetic()
                && word.len() <= MAX_NAME
                && word.iter().all(|byte| is_inner(*byte))
        }
    }
}

// The name that a word is.
pub fn name_of(word: &[u8]) -> Option<Name> {
    if !is_name(word) {
        return None;
    }
    let mut words = [0; NAME_WORDS];
    for (packed, bytes) in words.iter_mut().zip(word.chunks(WORD_BYTES)) {
        *packed = pack(bytes);
    }
    Some(Name(words))
}

// The atom of a name.
pub fn atom_named(points: &[Option<Point>], name: Name) -> Option<u64> {
    points.iter().find_map(|place| match place {
        Some(point) if point.name == name => Some(point.atom),
        _ => None,
    })
}

// The name of an atom. Points stand in any order, with free places among them.
pub fn name_at(points: &[Option<Point>], atom: u64) -> Option<Name> {
    points
        .iter()
        .flatten()
        .find(|point| point.atom == atom)
        .map(|point| point.name)
}

// Points that are asked for names.
pub trait Names: Copy {
    // The points themselves.
    fn points(&self) -> &[Option<Point>];

    // The name of an atom.
    fn name_at(&self, atom: u64) -> Option<Name>;
}

// Points in any order, with free places among them.
#[derive(Clone, Copy)]
pub struct Anywhere<'a>(pub &'a [Option<Point>]);

impl Names for Anywhere<'_> {
    fn points(&self) -> &[Option<Point>]
        ensures { result.now ≡ self.now.0.now }
    {
        let Anywhere(points) = self;
        points
    }

    fn name_at(&self, atom: u64) -> Option<Name> {
        name_at(self.0, atom)
    }
}

// Points in the order of their atoms, before the free places, as `call_in_order` keeps them: a name is found by halves.
#[derive(Clone, Copy)]
pub struct InOrder<'a>(pub &'a [Option<Point>]);

impl Names for InOrder<'_> {
    fn points(&self) -> &[Option<Point>]
        ensures { result.now ≡ self.now.0.now }
    {
        self.0
    }

    fn name_at(&self, atom: u64) -> Option<Name> {
        match self.0.get(below(self.0, atom)) {
            Some(Some(point)) if point.atom == atom => Some(point.name),
            _ => None,
        }
    }
}

// How many points are of atoms below this one. Points stand in the order of their atoms, before the free places.
fn below(points: &[Option<Point>], atom: u64) -> usize
    ensures { result ≤ length points.now }
{
    points.partition_point(|place| match place {
        Some(point) => point.atom < atom,
        None => false,
    })
}

// A point in its place, the later ones a place further on.
fn insert(points: &mut [Option<Point>], point: Point) -> Result<(), LineError> {
    let at = below(points, point.atom);
    let rest = &mut points[at..];
    let [.., None] = rest else {
        return Err(LineError::NoRoom);
    };
    rest.copy_within(..rest.len() - 1, 1);
    rest[0] = Some(point);
    Ok(())
}

// A point in the first free place.
fn add(points: &mut [Option<Point>], point: Point) -> Result<(), LineError> {
    let free = points
        .iter_mut()
        .find(|place| place.is_none())
        .ok_or(LineError::NoRoom)?;
    *free = Some(point);
    Ok(())
}

// Whether an atom has not yet the name that it is given; an error where it has another, or the name is another atom's.
fn is_new<N: Names>(names: N, point: Point) -> Result<bool, LineError> {
    if MAX_ATOMS <= point.atom {
        return Err(LineError::Malformed);
    }
    if let Some(atom) = atom_named(names.points(), point.name) {
        return if atom == point.atom {
            Ok(false)
        } else {
            Err(LineError::NameTaken)
        };
    }
    if names.name_at(point.atom).is_some() {
        return Err(LineError::NameTaken);
    }
    Ok(true)
}

// A name.
pub fn put_name(out: &mut Writer, name: Name) {
    for packed in name.0 {
        out.put_packed(packed);
    }
}

// An atom by its name, or by its number where it has none.
pub fn put_atom_by<N: Names>(out: &mut Writer, names: N, atom: u64) {
    match names.name_at(atom) {
        Some(name) => put_name(out, name),
        None => out.put_decimal(atom),
    }
}

// The same by the names of points in any order.
pub fn put_atom(out: &mut Writer, points: &[Option<Point>], atom: u64) {
    put_atom_by(out, Anywhere(points), atom);
}

// The point that the rest of a line is, and the word that is its name.
fn point_in(line: &[u8], at: usize) -> Result<(Point, &[u8]), LineError> {
    let (atom, at) = number(line, at).ok_or(LineError::Malformed)?;
    let (word, at) = word(line, at);
    let name = name_of(word).ok_or(LineError::Malformed)?;
    if !ended(line, at) {
        return Err(LineError::Malformed);
    }
    Ok((Point { atom, name }, word))
}

// The answer's line.
fn put_point(out: &mut Writer, atom: u64, word: &[u8]) {
    out.put_field(b"point ", atom);
    out.put(b' ');
    out.put_text(word);
}

// The call of a line among points in any order: a new one takes the first free place.
pub fn call(
    line: &[u8],
    at: usize,
    points: &mut [Option<Point>],
    out: &mut Writer,
) -> Result<(), LineError> {
    let (point, word) = point_in(line, at)?;
    if is_new(Anywhere(points), point)? {
        add(points, point)?;
    }
    put_point(out, point.atom, word);
    Ok(())
}

// The same among points in the order of their atoms, before the free places, which keep that order.
pub fn call_in_order(
    line: &[u8],
    at: usize,
    points: &mut [Option<Point>],
    out: &mut Writer,
) -> Result<(), LineError> {
    let (point, word) = point_in(line, at)?;
    if is_new(InOrder(points), point)? {
        insert(points, point)?;
    }
    put_point(out, point.atom, word);
    Ok(())
}
