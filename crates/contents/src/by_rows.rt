// A quick way to see that lent words are the postings of the rows: each posting is looked for at one place, past the last one of its atom.
// The places are guesses, and nothing is known of them: a yes is sure, a no says nothing.
ghost use Rattle.std.specs.Prelude.{◌≡◌, true, ℕ, ◌≤◌, ◌<◌, length, drop, IfSome};
ghost use Rattle.lists.specs.Lists.{same, sort_of, distinct};
ghost use Rattle.lists.specs.Counts.{is, times, Each, Sorted};
ghost use Rattle.words.specs.Literal.{code_bits, atoms_wide, codes_wide, words_wide};
ghost use Rattle.model.specs.Records.{max_rows};
ghost use Rattle.model.specs.Slots.{row_in, codes_of, ungroup};
ghost use Rattle.model.specs.Postings.{postings_of};
ghost use Rattle.slots.specs.Layout.{rows_in, Rows};
ghost use Rattle.words.specs.Codes.{shifted};
ghost use Rattle.slots_check.specs.Check.{all_zero};
ghost use Rattle.contents.specs.Lent.{LaidOut, posted_atoms, has_atom, one_if};
ghost use Rattle.contents.specs.Placed.{Grown, new_atom, new_count, has_bit};

use crate::by_postings::atom_count;
use crate::slot_at;
use lists::all_zero;
use model::{
    BODY_AT, CONDITION_GROUPS_AT, CONDITIONS_AT, GROUP_WORDS, MAX_ROWS, OUTPUTS_AT, TOTAL_GROUPS_AT,
};
use words::{MAX_WORD, MAX_WORDS, WORD_BITS};

// So many words are tested for 0 at a time.
const BLOCK: usize = 64;

// A place for each remainder of an atom by MAX_ROWS.
type Places = [u32; MAX_ROWS as usize];

// A place from which on every word is 0, whole blocks before the end.
fn zeros_from(words: &[u64]) -> usize
    ensures { (result ≤ length words.now) × (all_zero (drop result words.now) ≡ true) }
{
    let mut n = words.len();
    for block in words.rchunks_exact(BLOCK) {
        if !all_zero(block) {
            return n;
        }
        n -= BLOCK;
    }
    n
}

// The same, past the last word that is not 0.
pub fn used(words: &[u64]) -> usize
    ensures { (result ≤ length words.now) × (all_zero (drop result words.now) ≡ true) }
{
    let n = zeros_from(words);
    for i in (0..n).rev() {
        if words[i] != 0 {
            return i + 1;
        }
    }
    0
}

// Whether the words ascend. The place of an atom is then that of its first posting.
fn note_places(words: &[u64], places: &mut Places) -> bool
    requires { length words.now ≤ 4294967295 }
    ensures { result ≡ true → Sorted words.now }
{
    let mut least = MAX_WORD;
    for i in (0..words.len()).rev() {
        let x = words[i];
        if least < x {
            return false;
        }
        least = x;
        let at = (x / MAX_ROWS % MAX_ROWS) as usize;
        places[at] = i as u32;
    }
    true
}

// Words that are searched for the postings of the row at a position. The places are lent beside it: a struct that holds them too would
// have to promise at each step that its words stay the same.
#[derive(Clone, Copy)]
struct Search<'a> {
    words: &'a [u64],
    position: u64,
    ghost few: { length words.now ≤ 4294967295 },
    ghost low: { position < max_rows },
}

impl Search<'_> {
    // Whether the posting of an atom stands at the atom's place, which then moves past it.
    fn finds(self, places: &mut Places, atom: u64) -> bool
        requires { atom < atoms_wide code_bits }
        ensures { result ≡ true → Grown self.entry.words.now places.old places.new self.entry.position (λ a. is a atom) }
    {
        let at = (atom % MAX_ROWS) as usize;
        let i = places[at] as usize;
        if self.words.len() <= i {
            return false;
        }
        if self.words[i] != atom * MAX_ROWS + self.position {
            return false;
        }
        places[at] = (i + 1) as u32;
        true
    }

    // Finds the posting so, unless its atom was found last: both signs of an output have one posting. The number found, if what is due
    // is.
    fn find_new(self, places: &mut Places, last: Option<u64>, atom: u64) -> Option<usize>
        requires { atom < atoms_wide code_bits }
        ensures { IfSome result (λ n. (n ≡ new_count last atom)
            × Grown self.entry.words.now places.old places.new self.entry.position (new_atom last atom)) }
    {
        if last == Some(atom) {
            return Some(0);
        }
        if !self.finds(places, atom) {
            return None;
        }
        Some(1)
    }

    // The same for the atoms of codes.
    fn find_codes(self, places: &mut Places, codes: &[u64]) -> Option<usize>
        requires { Each (λ v. v < codes_wide code_bits) codes.now }
        ensures { IfSome result (λ n. (n ≡ length (distinct (shifted 1 codes.now)))
            × Grown self.entry.words.now places.old places.new self.entry.position (λ a. one_if (has_atom a codes.now))) }
    {
        let mut last: Option<u64> = None;
        let mut count: usize = 0;
        for code in codes {
            let atom = *code / 2;
            let found = self.find_new(places, last, atom)?;
            last = Some(atom);
            count += found;
        }
        Some(count)
    }

    // Whether the postings of the atoms of word x that have a bit stand at their places, which then move past them.
    fn finds_bits(self, places: &mut Places, x: u64, bits: u64) -> bool
        requires { x < words_wide code_bits }
        ensures { result ≡ true
            → Grown self.entry.words.now places.old places.new self.entry.position (λ a. one_if (has_bit x bits a)) }
    {
        let mut left = bits;
        // A while: no index is counted, the bits that are left are.
        while left != 0 {
            let atom = WORD_BITS * x + u64::trailing_zeros(left) as u64;
            if !self.finds(places, atom) {
                return false;
            }
            left = left & (left - 1);
        }
        true
    }

    // The same for the atoms of a group.
    fn finds_group(self, places: &mut Places, x: u64, present: u64, absent: u64) -> bool
        ensures { result ≡ true
            → Grown self.entry.words.now places.old places.new self.entry.position (λ a. one_if (has_atom a (codes_of x present absent))) }
    {
        if MAX_WORDS <= x {
            return false;
        }
        self.finds_bits(places, x, present | absent)
    }

    // The same for the atoms of groups.
    fn finds_groups(self, places: &mut Places, groups: &[u64]) -> bool
        ensures { result ≡ true
            → Grown self.entry.words.now places.old places.new self.entry.position
            (λ a. one_if (has_atom a (ungroup groups.now))) }
    {
        for group in groups.chunks_exact(GROUP_WORDS) {
            if !self.finds_group(places, group[0], group[1], group[2]) {
                return false;
            }
        }
        true
    }

    // Finds the postings of the row in a slot: their number, if all stand at their places.
    fn find_row(self, places: &mut Places, slot: &[u64]) -> Option<usize>
        requires { LaidOut slot.now }
        ensures { IfSome result (λ n. (n ≡ length (posted_atoms (row_in slot.now)))
            × Grown self.entry.words.now places.old places.new self.entry.position (λ a. times a (posted_atoms (row_in slot.now)))) }
    {
        let nc = slot[CONDITIONS_AT] as usize;
        if slot[TOTAL_GROUPS_AT] == 0 {
            let from = BODY_AT + nc;
            let end = from + slot[OUTPUTS_AT] as usize;
            self.find_codes(places, &slot[BODY_AT..from])?;
            let n = self.find_codes(places, &slot[from..end])?;
            return Some(nc + n);
        }
        let from = BODY_AT + GROUP_WORDS * (slot[CONDITION_GROUPS_AT] as usize);
        let end = BODY_AT + GROUP_WORDS * (slot[TOTAL_GROUPS_AT] as usize);
        if !self.finds_groups(places, &slot[BODY_AT..from]) {
            return None;
        }
        if !self.finds_groups(places, &slot[from..end]) {
            return None;
        }
        Some(nc + atom_count(&slot[from..end]))
    }
}

// The same for the first rows. Where their number is that of the words, no posting is due more often than it stands among the words.
fn find_rows(words: &[u64], places: &mut Places, slots: &[u64], rows: usize) -> Option<usize>
    requires fact_1 { length words.now ≤ 4294967295 }
    requires fact_2 { Rows rows slots.now }
    ensures { IfSome result (λ n. (n ≡ length (postings_of (rows_in rows slots.now)))
        × ((v : ℕ) → times v (postings_of (rows_in rows slots.now)) ≤ times v words.now)) }
{
    let mut count: usize = 0;
    for p in 0..rows {
        let row = Search {
            words,
            position: p as u64,
        };
        let found = row.find_row(places, slot_at(slots, p))?;
        count += found;
    }
    Some(count)
}

// Whether the words are seen to be the postings of the first rows ascending. Only atoms below MAX_ROWS have a place.
pub fn are_found(words: &[u64], slots: &[u64], rows: usize) -> bool
    requires { Rows rows slots.now }
    ensures { result ≡ true → same words.now (sort_of (postings_of (rows_in rows slots.now))) ≡ true }
{
    if 4294967295 < words.len() {
        return false;
    }
    let mut places = [0u32; MAX_ROWS as usize];
    if !note_places(words, &mut places) {
        return false;
    }
    let found = find_rows(words, &mut places, slots, rows);
    found == Some(words.len())
}
