// The postings of the rows in slots, counted and compared with lent words, with no sort and no room of its own.
ghost use Rattle.std.specs.Prelude.{◌≡◌, not, true, false, ◌/◌, ◌%◌, ◌*◌, ◌+◌, ◌≤◌, ◌<◌};
ghost use Rattle.std.specs.Prelude.{eqb, leb, ltb, length, get_or};
ghost use Rattle.std.specs.Int.Bits.{bit_or};
ghost use Rattle.std.specs.Int.Count.{ones};
ghost use Rattle.lists.specs.Lists.{same, sort_of, pad};
ghost use Rattle.lists.specs.Counts.{times};
ghost use Rattle.words.specs.Literal.{atoms_wide, code_bits};
ghost use Rattle.model.specs.Records.{posting_words, slot_words, max_rows, total_groups_at};
ghost use Rattle.model.specs.Slots.{row_in, codes_of, ungroup};
ghost use Rattle.model.specs.Postings.{postings_of};
ghost use Rattle.slots.specs.Layout.{rows_in, Rows, RowsOver};
ghost use Rattle.contents.specs.Lent.{LaidOut, posted_atoms, postings_due, atom_count, has_atom, one_if, top};
ghost use Rattle.contents.specs.Marked.{Form, Marked, Walked, Ended, packed_from, nowhere};

use crate::slot_at;
use lists::{Run, all_zero};
use model::{
    BODY_AT, CONDITION_GROUPS_AT, CONDITIONS_AT, GROUP_WORDS, MAX_GROUPS, MAX_ROWS, OUTPUTS_AT,
    TOTAL_GROUPS_AT,
};
use words::{MAX_WORD, run_count};

// The place of a row says where its next postings should be found: its remainder by SIDE for the next condition, what is left for the
// next output. Below PACKED it counts the row's codes from its body on, from PACKED on and below NOWHERE its groups; from NOWHERE on it
// says nothing.
const SIDE: usize = 256;

const PACKED: usize = 32768;

const NOWHERE: usize = PACKED + SIDE * MAX_GROUPS;

// The place of no row, past all of these: a table of places holds plain numbers, two bytes for each of MAX_ROWS rows.
const NO_ROW: u16 = 65535;

// A place for each row.
type Places = [u16; MAX_ROWS as usize];

// The slots of more rows than these do not stay in a small cache from one walk to the next.
const MANY_ROWS: usize = 1024;

// A condition's place is taken by its remainder: all conditions stand below, and so many codes or groups are within a slot.
const MOST_CODES: usize = 128;

const MOST_GROUPS: usize = 32;

// The highest bit of a word.
const TOP: u64 = 9223372036854775808;

// How many atoms a group holds.
fn atoms_in(present: u64, absent: u64) -> usize
    ensures { (result ≡ ones (bit_or present absent)) × (result ≤ 64) }
{
    u64::count_ones(present | absent) as usize
}

// How many atoms the groups hold.
pub fn atom_count(words: &[u64]) -> usize
    requires { length words.now ≤ slot_words }
    ensures { result ≡ atom_count words.now }
{
    let mut count: usize = 0;
    for group in words.chunks_exact(GROUP_WORDS) {
        count += atoms_in(group[1], group[2]);
    }
    count
}

// How many postings the row in a slot has.
fn posting_count(slot: &[u64]) -> usize
    requires { LaidOut slot.now }
    ensures { result ≡ length (posted_atoms (row_in slot.now)) }
{
    let nc = slot[CONDITIONS_AT] as usize;
    if slot[TOTAL_GROUPS_AT] == 0 {
        let from = BODY_AT + nc;
        let end = from + slot[OUTPUTS_AT] as usize;
        return nc + run_count(&slot[from..end], 1);
    }
    let from = BODY_AT + GROUP_WORDS * (slot[CONDITION_GROUPS_AT] as usize);
    let end = BODY_AT + GROUP_WORDS * (slot[TOTAL_GROUPS_AT] as usize);
    nc + atom_count(&slot[from..end])
}

// A word with the highest bit exactly if the code is of the atom.
fn code_mark(code: u64, atom: u64) -> u64
    requires { atom < top }
    ensures { leb top result ≡ eqb (code / 2) atom }
{
    TOP - ((code / 2) ^ atom)
}

// Whether one of the codes is of the atom. All are looked at: where a search would end can hardly be guessed, and a wrong guess costs more.
fn codes_have(codes: &[u64], atom: u64) -> bool
    requires { atom < top }
    ensures { result ≡ has_atom atom codes.now }
{
    let mut bits: u64 = 0;
    for code in codes {
        bits = bits | code_mark(*code, atom);
    }
    TOP <= bits
}

// The bit of an atom where a group of word x has it, else 0.
fn group_mark(x: u64, present: u64, absent: u64, atom: u64) -> u64
    ensures { not (eqb result 0) ≡ has_atom atom (codes_of x present absent) }
{
    if x != atom / 64 {
        return 0;
    }
    (present | absent) & (1 << (atom % 64))
}

// Whether one of the groups has the atom. All are looked at.
fn groups_have(words: &[u64], atom: u64) -> bool
    ensures { result ≡ has_atom atom (ungroup words.now) }
{
    let mut bits: u64 = 0;
    for group in words.chunks_exact(GROUP_WORDS) {
        bits = bits | group_mark(group[0], group[1], group[2], atom);
    }
    bits != 0
}

// How often the row in a slot is posted under an atom: at most once for its conditions and once for its outputs.
fn times_posted(slot: &[u64], atom: u64) -> u64
    requires fact_1 { LaidOut slot.now }
    requires fact_2 { atom < top }
    ensures { result ≡ times atom (posted_atoms (row_in slot.now)) }
{
    if slot[TOTAL_GROUPS_AT] == 0 {
        let from = BODY_AT + slot[CONDITIONS_AT] as usize;
        let end = from + slot[OUTPUTS_AT] as usize;
        return u64::from(codes_have(&slot[BODY_AT..from], atom))
            + u64::from(codes_have(&slot[from..end], atom));
    }
    let from = BODY_AT + GROUP_WORDS * (slot[CONDITION_GROUPS_AT] as usize);
    let end = BODY_AT + GROUP_WORDS * (slot[TOTAL_GROUPS_AT] as usize);
    u64::from(groups_have(&slot[BODY_AT..from], atom))
        + u64::from(groups_have(&slot[from..end], atom))
}

// Whether the row in a slot is posted under an atom at all: the codes, or the groups, of both its sides stand one behind the other.
fn has_atom(slot: &[u64], atom: u64) -> bool
    requires fact_1 { LaidOut slot.now }
    requires fact_2 { atom < top }
    ensures { result ≡ ltb 0 (times atom (posted_atoms (row_in slot.now))) }
{
    if slot[TOTAL_GROUPS_AT] == 0 {
        let end = BODY_AT + slot[CONDITIONS_AT] as usize + slot[OUTPUTS_AT] as usize;
        return codes_have(&slot[BODY_AT..end], atom);
    }
    let end = BODY_AT + GROUP_WORDS * (slot[TOTAL_GROUPS_AT] as usize);
    groups_have(&slot[BODY_AT..end], atom)
}

// How many postings the row in a slot has at most: one for each literal.
fn literal_count(slot: &[u64]) -> usize
    requires { LaidOut slot.now }
    ensures { (length (posted_atoms (row_in slot.now)) ≤ result) × (result ≤ posting_words) }
{
    slot[CONDITIONS_AT] as usize + slot[OUTPUTS_AT] as usize
}

// The place of the row in a slot before any posting is met: the first condition's and the first output's. Of many rows two words behind the
// header are read here too, where row follows row, so that they are near when the walk asks for them in any order; no row has all their
// bits.
fn first_place(slot: &[u64], many: bool) -> u16
    requires { LaidOut slot.now }
    ensures { Form result (get_or slot.now total_groups_at 0) }
{
    if many {
        if slot[BODY_AT + 1] & slot[BODY_AT + 8] == MAX_WORD {
            return NO_ROW;
        }
    }
    if slot[TOTAL_GROUPS_AT] == 0 {
        return (SIDE * slot[CONDITIONS_AT] as usize) as u16;
    }
    (PACKED + SIDE * slot[CONDITION_GROUPS_AT] as usize) as u16
}

// Looks for an atom among the codes of the row in a slot at a place a side: 1 for the first, SIDE for the second, 0 where it is at
// neither. Behind its codes a slot has zeros, and 0 is a code of atom 0: only for the other atoms what is seen is sure.
fn code_steps(slot: &[u64], place: usize, atom: u64) -> usize
    requires fact_1 { LaidOut slot.now }
    requires fact_2 { get_or slot.now total_groups_at 0 ≡ 0 }
    requires fact_3 { place < packed_from }
    ensures { (result ≤ 257) × (1 ≤ atom → 1 ≤ result → 1 ≤ times atom (posted_atoms (row_in slot.now))) }
{
    let first = usize::from(slot[BODY_AT + place % MOST_CODES] / 2 == atom);
    let second = usize::from(slot[BODY_AT + place / SIDE] / 2 == atom);
    first + SIDE * second
}

// Whether a group of the row in a slot at one of two places has the atom. Behind its groups a slot has zeros, and no atom.
fn has_group(slot: &[u64], place: usize, atom: u64) -> bool
    requires fact_1 { LaidOut slot.now }
    requires fact_2 { (get_or slot.now total_groups_at 0 ≡ 0 → ⊥) }
    requires fact_3 { packed_from ≤ place }
    requires fact_4 { place < nowhere }
    ensures { result ≡ true → 1 ≤ times atom (posted_atoms (row_in slot.now)) }
{
    let a = BODY_AT + GROUP_WORDS * (place % MOST_GROUPS);
    let b = BODY_AT + GROUP_WORDS * (place / SIDE - PACKED / SIDE);
    let first = group_mark(slot[a], slot[a + 1], slot[a + 2], atom);
    let second = group_mark(slot[b], slot[b + 1], slot[b + 2], atom);
    first | second != 0
}

// How far the place of a packed row is to move on: each side by one group if it is behind the atom.
fn group_steps(slot: &[u64], place: usize, atom: u64) -> usize
    requires fact_1 { LaidOut slot.now }
    requires fact_2 { packed_from ≤ place }
    requires fact_3 { place < nowhere }
    ensures { result ≤ 257 }
{
    let word = atom / 64;
    let first = usize::from(slot[BODY_AT + GROUP_WORDS * (place % MOST_GROUPS)] < word);
    let second = usize::from(slot[BODY_AT + GROUP_WORDS * (place / SIDE - PACKED / SIDE)] < word);
    first + SIDE * second
}

// How far a walk along the postings has come, the last word met and how often it was met in a row.
#[derive(Clone, Copy)]
struct Walk {
    at: usize,
    last: Run,
}

// The first rows in slots, over as many atoms as codes have. The places are lent beside them: a struct that holds both would have to
// promise at each step that its rows stay the same.
#[derive(Clone, Copy)]
struct FirstRows<'a> {
    slots: &'a [u64],
    rows: usize,
    ghost held: { RowsOver (atoms_wide code_bits) rows slots.now },
}

impl FirstRows<'_> {
    // How many postings the first rows have.
    fn posting_total(self) -> usize
        ensures { result ≡ length (postings_of (rows_in self.entry.rows self.entry.slots.now)) }
    {
        let mut count: usize = 0;
        for p in 0..self.rows {
            count += posting_count(slot_at(self.slots, p));
        }
        count
    }

    // Whether a posting stands less than so often among those of the first rows.
    // Nearly every posting is asked for once, and that takes one look along its row.
    fn posted_less(self, posting: u64, often: u64) -> bool
        ensures { result ≡ ltb (times posting (postings_of (rows_in self.entry.rows self.entry.slots.now))) often }
    {
        let p = (posting % MAX_ROWS) as usize;
        if self.rows <= p {
            return 0 < often;
        }
        let slot = slot_at(self.slots, p);
        if often == 1 {
            return !has_atom(slot, posting / MAX_ROWS);
        }
        times_posted(slot, posting / MAX_ROWS) < often
    }

    // The first places of the rows, and how many postings they have at most.
    fn mark_rows(self, places: &mut Places) -> usize
        requires { Marked 0 self.slots.now places.old }
        ensures lower_bound { (length (postings_of (rows_in self.entry.rows self.entry.slots.now)) ≤ result)
            × (result ≤ posting_words * self.entry.rows) }
        ensures marked { Marked self.entry.rows self.entry.slots.now places.new }
    {
        let mut count: usize = 0;
        for p in 0..self.rows {
            let slot = slot_at(self.slots, p);
            count += literal_count(slot);
            places[p] = first_place(slot, MANY_ROWS < self.rows);
        }
        count
    }

    // Whether the posting of a row laid out code by code is seen at the row's place, which moves on, or at the next one: one output
    // further on, since both signs of an output are two codes and one posting.
    fn sees_code(self, places: &mut Places, posting: u64, place: usize) -> bool
        requires fact_1 { Marked self.rows self.slots.now places.old }
        requires fact_2 { place ≡ get_or places.old (posting % max_rows) 0 }
        requires fact_3 { place < packed_from }
        ensures bound { result ≡ true → max_rows ≤ posting
            → 1 ≤ times posting (postings_of (rows_in self.entry.rows self.entry.slots.now)) }
        ensures marked { Marked self.entry.rows self.entry.slots.now places.new }
    {
        let p = (posting % MAX_ROWS) as usize;
        let slot = slot_at(self.slots, p);
        let steps = code_steps(slot, place, posting / MAX_ROWS);
        if 0 < steps {
            places[p] = ((place + steps) % PACKED) as u16;
            return true;
        }
        let next = (place + SIDE) % PACKED;
        let more = code_steps(slot, next, posting / MAX_ROWS);
        places[p] = ((next + more) % PACKED) as u16;
        0 < more
    }

    // The same of a packed row: at the next place each side has moved on by one group where it is behind.
    fn sees_group(self, places: &mut Places, posting: u64, place: usize) -> bool
        requires fact_1 { Marked self.rows self.slots.now places.old }
        requires fact_2 { place ≡ get_or places.old (posting % max_rows) 0 }
        requires fact_3 { (packed_from ≤ place) × (place < nowhere) }
        ensures bound { result ≡ true → 1 ≤ times posting (postings_of (rows_in self.entry.rows self.entry.slots.now)) }
        ensures marked { Marked self.entry.rows self.entry.slots.now places.new }
    {
        let p = (posting % MAX_ROWS) as usize;
        let slot = slot_at(self.slots, p);
        if has_group(slot, place, posting / MAX_ROWS) {
            return true;
        }
        let next = place + group_steps(slot, place, posting / MAX_ROWS);
        places[p] = next as u16;
        if NOWHERE <= next {
            return false;
        }
        has_group(slot, next, posting / MAX_ROWS)
    }

    // Whether the posting is seen where it should stand in its row if all postings so far were those of the rows. A yes is sure but for
    // atom 0, a no says nothing.
    fn sees(self, places: &mut Places, posting: u64) -> bool
        requires { Marked self.rows self.slots.now places.old }
        ensures bound { result ≡ true → max_rows ≤ posting
            → 1 ≤ times posting (postings_of (rows_in self.entry.rows self.entry.slots.now)) }
        ensures marked { Marked self.entry.rows self.entry.slots.now places.new }
    {
        let place = places[(posting % MAX_ROWS) as usize] as usize;
        if place < PACKED {
            return self.sees_code(places, posting, place);
        }
        if NOWHERE <= place {
            return false;
        }
        self.sees_group(places, posting, place)
    }

    // Walks on while each word is above the one before it and seen. This is where the time goes, and nothing else is done in this loop.
    fn walk_on(self, words: &[u64], places: &mut Places, from: Walk) -> Walk
        requires fact_1 { Marked self.rows self.slots.now places.old }
        requires fact_2 { Walked words.now (postings_of (rows_in self.rows self.slots.now)) from.at from.last.word from.last.times }
        ensures walked { Walked words.now (postings_of (rows_in self.entry.rows self.entry.slots.now)) result.at result.last.word
            result.last.times }
        ensures at_le_at { from.at ≤ result.at }
        ensures marked { Marked self.entry.rows self.entry.slots.now places.new }
    {
        let mut walk = from;
        for at in from.at..words.len() {
            let x = words[at];
            if x <= walk.last.word {
                break;
            }
            if !self.sees(places, x) {
                break;
            }
            if x < MAX_ROWS {
                break;
            }
            walk = Walk {
                at: at + 1,
                last: Run { word: x, times: 1 },
            };
        }
        walk
    }

    // Whether the words, no fewer than the first rows have postings, are those postings ascending: they ascend, and none stands more often
    // than its row is posted under its atom. What is not seen is looked for along its row.
    fn are_ascending(self, words: &[u64], places: &mut Places) -> bool
        requires fact_1 { length (postings_of (rows_in self.rows self.slots.now)) ≤ length words.now }
        requires fact_2 { Marked self.rows self.slots.now places.old }
        ensures { result ≡ same words.now (sort_of (postings_of (rows_in self.entry.rows self.entry.slots.now))) }
    {
        let start = Walk {
            at: 0,
            last: Run { word: 0, times: 0 },
        };
        let mut walk = self.walk_on(words, places, start);
        // A while: each turn goes on from where the walk stopped.
        while let Some(word) = words.get(walk.at) {
            let x = *word;
            if x < walk.last.word {
                return false;
            }
            let run = walk.last.next(x);
            if self.posted_less(x, run.times) {
                return false;
            }
            let next = Walk {
                at: walk.at + 1,
                last: run,
            };
            walk = self.walk_on(words, places, next);
        }
        true
    }

    // Whether the first words are the postings of the first rows, ascending, and the others 0. There are no more postings than words,
    // and if fewer, the last of these words is no 0.
    fn are_filed(self, words: &[u64], places: &mut Places, n: usize) -> bool
        requires fact_1 { Ended (length (postings_of (rows_in self.rows self.slots.now))) words.now n }
        requires fact_2 { Marked self.rows self.slots.now places.old }
        ensures { result
            ≡ same words.now (pad (length words.now) (postings_due false (rows_in self.entry.rows self.entry.slots.now))) }
    {
        if !self.are_ascending(&words[0..n], places) {
            return false;
        }
        all_zero(&words[n..])
    }

    // How many words the postings of the first rows take, or more if the last of these is no 0. Where no output stands in both signs there
    // are as many postings as literals, and none is looked at to count them.
    fn posting_end(self, words: &[u64], most: usize) -> usize
        requires { (length (postings_of (rows_in self.rows self.slots.now)) ≤ most) × (most ≤ length words.now) }
        ensures { Ended (length (postings_of (rows_in self.entry.rows self.entry.slots.now))) words.now result }
    {
        if 0 < most {
            if words[most - 1] != 0 {
                return most;
            }
        }
        self.posting_total()
    }
}

// Whether the words are the postings of the first rows, ascending, and 0 after them.
pub fn are_postings(words: &[u64], slots: &[u64], rows: usize) -> bool
    requires fact_1 { Rows rows slots.now }
    requires fact_2 { posting_words * rows ≤ length words.now }
    ensures { result
        ≡ same words.now (pad (length words.now) (postings_due false (rows_in rows slots.now))) }
{
    let mut places = [NO_ROW; MAX_ROWS as usize];
    let first = FirstRows { slots, rows };
    let most = first.mark_rows(&mut places);
    let n = first.posting_end(words, most);
    first.are_filed(words, &mut places, n)
}
