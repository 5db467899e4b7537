// The regions of a line: lists of atoms held and cut, as words, and back.
ghost use Rattle.std.specs.Prelude.{◌≤◌, length, IfSome};

use crate::arguments::Lists;
use crate::literals::CODES;
use crate::memory::ATOMS;
use crate::points::{Anywhere, Names, Point, put_atom_by};
use std::num::wrapping_add_u64;
use text::{Writer, ended, value, word};
use words::WORD_BITS;

// A set that was read: whether every atom lies below its bound, and the place after it.
#[derive(Clone, Copy)]
struct Set {
    fit: bool,
    at: usize,
}

// Puts an atom among the words where it is below `atoms`, and answers whether it is.
fn mark(atoms: u64, atom: u64, words: &mut [u64]) -> bool {
    if atoms <= atom {
        return false;
    }
    words::insert(words, atom);
    true
}

// The atoms between the commas of a word, put among the words; answers whether every one is below `atoms`.
fn read_atoms(word: &[u8], atoms: u64, words: &mut [u64]) -> Option<bool> {
    let mut fit = true;
    for item in word.split(|byte| *byte == b',') {
        let atom = value(item)?;
        fit = mark(atoms, atom, words) && fit;
    }
    Some(fit)
}

// The list of atoms that the next word is, put among the words, which hold none yet.
fn read_set(line: &[u8], at: usize, atoms: u64, words: &mut [u64]) -> Option<Set> {
    let (word, at) = word(line, at);
    if word == b"-".as_slice() {
        return Some(Set { fit: true, at });
    }
    let fit = read_atoms(word, atoms, words)?;
    Some(Set { fit, at })
}

// How many words a set over `atoms` atoms has: one too many where an atom does not fit, none where `atoms` is too large. Such words are no
// part of a region; they are lent all the same, for it is the function for C that refuses them.
fn word_count(atoms: u64, words: &[u64], fit: bool) -> usize
    ensures { result ≤ length words.now }
{
    if ATOMS < atoms {
        return 0;
    }
    let n = atoms.div_ceil(WORD_BITS) as usize;
    if words.len() <= n {
        return 0;
    }
    if fit { n } else { n + 1 }
}

// The region over `atoms` atoms that these words hold, if all its atoms fit.
fn region<'a>(
    atoms: u64,
    held: &'a mut [u64],
    held_fit: bool,
    cut: &'a mut [u64],
    cut_fit: bool,
) -> Lists<'a>
    ensures { (length result.first.now ≤ length held.old) × (length result.second.now ≤ length cut.old) }
{
    let n = word_count(atoms, held, held_fit);
    let m = word_count(atoms, cut, cut_fit);
    Lists {
        first: &held[..n],
        second: &cut[..m],
        source: 0,
    }
}

// The two lists from `at` on, held and cut, as a region over `atoms` atoms. The words hold no atom yet.
pub fn read_region<'a>(
    line: &[u8],
    at: usize,
    atoms: u64,
    held: &'a mut [u64],
    cut: &'a mut [u64],
) -> Option<Lists<'a>>
    ensures { IfSome result (λ l. (length l.first.now ≤ length held.old) × (length l.second.now ≤ length cut.old)) }
{
    let h = read_set(line, at, atoms, held)?;
    let c = read_set(line, h.at, atoms, cut)?;
    if !ended(line, c.at) {
        return None;
    }
    Some(region(atoms, held, h.fit, cut, c.fit))
}

// Puts the atom of a literal among those held or cut, and answers whether it is below `atoms`.
fn mark_code(atoms: u64, code: u64, held: &mut [u64], cut: &mut [u64]) -> bool {
    if code % 2 == 1 {
        mark(atoms, code / 2, held)
    } else {
        mark(atoms, code / 2, cut)
    }
}

// Puts the atoms of all literals of a set among those held and cut, and answers whether all lie below `atoms`.
fn mark_codes(atoms: u64, set: &[u64], held: &mut [u64], cut: &mut [u64]) -> bool {
    let mut fit = true;
    let mut from: u64 = 0;
    // Each code is above the one before it and below CODES, so CODES turns are enough.
    for _ in 0..CODES {
        let Some(code) = words::next_from(CODES, set, from) else {
            return fit;
        };
        fit = mark_code(atoms, code, held, cut) && fit;
        from = wrapping_add_u64(code, 1);
    }
    fit
}

// The region over `atoms` atoms of the literals of a set of codes. The words hold no atom yet.
pub fn region_of<'a>(atoms: u64, set: &[u64], held: &'a mut [u64], cut: &'a mut [u64]) -> Lists<'a>
    ensures { (length result.first.now ≤ length held.old) × (length result.second.now ≤ length cut.old) }
{
    let fit = mark_codes(atoms, set, held, cut);
    region(atoms, held, fit, cut, fit)
}

// The atoms of a set, with commas between them, or `-` for none.
fn put_atoms<N: Names>(out: &mut Writer, atoms: u64, words: &[u64], names: N) {
    let mut some = false;
    for atom in 0..atoms {
        if words::contains(words, atom) {
            out.put_comma(some);
            put_atom_by(out, names, atom);
            some = true;
        }
    }
    if !some {
        out.put(b'-');
    }
}

// A region: the atoms held, and the atoms cut, by their names.
pub fn put_region_by<N: Names>(out: &mut Writer, atoms: u64, held: &[u64], cut: &[u64], names: N) {
    out.put_text(b" held=");
    put_atoms(out, atoms, held, names);
    out.put_text(b" cut=");
    put_atoms(out, atoms, cut, names);
}

// The same by the names that they have in `points`, which stand in any order.
pub fn put_region(
    out: &mut Writer,
    atoms: u64,
    held: &[u64],
    cut: &[u64],
    points: &[Option<Point>],
) {
    put_region_by(out, atoms, held, cut, Anywhere(points));
}
