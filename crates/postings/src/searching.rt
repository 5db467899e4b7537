// `candidates`: the rows that have one of the atoms given, found by the postings; or all rows.
ghost use Rattle.std.specs.Prelude.{◌≡◌, true, false, map, ◌-◌, ◌*◌, ◌≤◌, ◌<◌, length, get_or};
ghost use Rattle.lists.specs.Counts.{Sorted};
ghost use Rattle.lists.specs.Marks.{lower_bound};
ghost use Rattle.words.specs.Literal.{atom as atom_of};
ghost use Rattle.meter.specs.Meter.{ticks};
ghost use Rattle.meter.specs.Results.{tick_end};
ghost use Rattle.model.specs.Records.{max_rows};
ghost use Rattle.model.specs.Postings.{postings_of, filed, search_ticks, searched, candidates as candidates_of};
ghost use Rattle.slots.specs.Cursor.{Sound, list_of};
ghost use Rattle.slots.specs.Standing.{Stands};
ghost use Rattle.postings.specs.Steps.{walk, walked};
ghost use Rattle.slots.specs.Layout.{rows_in};
ghost use Rattle.postings.specs.Filling.{posted, refiled};
ghost use Rattle.postings.specs.Searching.{zero_first, look, marks, looks, looks_all, ready_ticks, last_atom, Searchable, search_end};
ghost use Rattle.postings.specs.Searching.{found_end, ledger_of};

use crate::filling::rebuild_postings;
use lists::{fill_zero, gather, partition_point, up_to};
use meter::{Meter, Stopped};
use model::{CandidatesAnswer, Header, MAX_ROWS, SLOT_WORDS};
use slots::Side;
use words::MAX_WORD;

// Up to so many rows every search is a full scan.
pub const SCAN_ROWS: u64 = 64;

// The last atom whose postings fit a word.
const LAST_ATOM: u64 = MAX_WORD / MAX_ROWS;

// So many words are looked at from the last place on before all are searched.
const NEAR: usize = 8;

// The answer of a search, with the header and the meter after it.
#[derive(Clone, Copy)]
pub struct Searched {
    pub answer: CandidatesAnswer,
    pub header: Header,
    pub meter: Meter,
}

// 1 if the first literal of a side is of atom 0, else 0.
fn zero_first(slot: &[u64], side: Side) -> usize
    requires { Sound slot.now side }
    ensures { result ≡ zero_first (map atom_of (list_of slot.now side)) }
{
    let first = slots::start();
    match slots::next(slot, side, first) {
        Some((code, _)) => { if code / 2 == 0 { 1 } else { 0 } }
        None => 0,
    }
}

// The number of postings in the words of a ledger that is not stale. Only the postings of atom 0 at position 0 are 0 as the unused
// words are: how many there are is read off row 0, and past them the words that are not 0 end where the postings do.
fn count_postings(header: Header, slots: &[u64], postings: &[u64]) -> usize
    requires fact_1 { Stands header slots.now postings.now }
    requires fact_2 { header.stale ≡ false }
    requires fact_3 { 0 < header.rows }
    ensures { result ≡ length (postings_of (rows_in header.rows slots.now)) }
{
    let row = &slots[0..SLOT_WORDS];
    let conditions = zero_first(row, slots::conditions(row));
    let outputs = zero_first(row, slots::outputs(row));
    let zeros = conditions + outputs;
    zeros + postings[zeros..].partition_point(|posting| 0 < *posting)
}

// The postings of a ledger, rebuilt if it is stale; their number.
fn ready_postings(
    header: Header,
    slots: &[u64],
    postings: &mut [u64],
    meter: &mut Meter,
) -> Result<usize, Stopped>
    requires fact_1 { Stands header slots.now postings.old }
    requires fact_2 { 0 < header.rows }
    ensures { posted result meter.new postings.new
        ≡ refiled header.limits.tier_rows (rows_in header.rows slots.now)
        (ready_ticks header.stale (length (postings_of (rows_in header.rows slots.now))) meter.old) }
{
    if header.stale {
        return rebuild_postings(header, slots, postings, meter);
    }
    Ok(count_postings(header, slots, postings))
}

// Marks the position of each posting of an atom, one tick before each, from the first posting that is not below the atom's.
fn mark_from(
    postings: &[u64],
    from: usize,
    atom: u64,
    answer: &mut [u64],
    meter: &mut Meter,
) -> Result<(), Stopped>
    requires fact_1 { Searchable (length answer.old) postings.now }
    requires fact_2 { from ≡ lower_bound (atom * max_rows) postings.now }
    ensures { walked (tick_end result meter.new) answer.new ≡ walk look (marks postings.now atom) answer.old meter.old }
{
    for posting in &postings[from..] {
        if *posting / MAX_ROWS != atom {
            return Ok(());
        }
        meter.tick()?;
        let position = (*posting % MAX_ROWS) as usize;
        answer[position] = 1;
    }
    Ok(())
}

// From a place on, past at most so many words that are below a bound.
fn skip_near(postings: &[u64], near: usize, bound: u64) -> usize {
    let Some(rest) = postings.get(near..) else {
        return near;
    };
    near + rest
        .iter()
        .take(NEAR)
        .take_while(|posting| **posting < bound)
        .count()
}

// Whether the last word before a place is below a bound.
fn is_past(postings: &[u64], at: usize, bound: u64) -> bool
    requires { at ≤ length postings.now }
    ensures { result ≡ true → 0 < at → get_or postings.now (at - 1) 0 < bound }
{
    if at == 0 {
        return true;
    }
    postings[at - 1] < bound
}

// Whether a place is that of the first word not below a bound.
fn is_place(postings: &[u64], at: usize, bound: u64) -> bool
    requires { Sorted postings.now }
    ensures { result ≡ true → at ≡ lower_bound bound postings.now }
{
    if postings.len() < at {
        return false;
    }
    if !is_past(postings, at, bound) {
        return false;
    }
    if at == postings.len() {
        return true;
    }
    bound <= postings[at]
}

// The place of the first posting that is not below an atom's, if there can be one. The atoms given mostly ascend, so it is looked for a few
// words from the last one's place on, and then among all.
fn place_from(postings: &[u64], near: usize, atom: u64) -> usize
    requires { Sorted postings.now }
    ensures { atom ≤ last_atom → result ≡ lower_bound (atom * max_rows) postings.now }
{
    if LAST_ATOM < atom {
        return near;
    }
    let bound = atom * MAX_ROWS;
    let at = skip_near(postings, near, bound);
    if is_place(postings, at, bound) {
        return at;
    }
    partition_point(postings, bound)
}

// One tick for an atom, whatever number it is; then its postings are marked.
fn mark_atom(
    postings: &[u64],
    from: usize,
    atom: u64,
    answer: &mut [u64],
    meter: &mut Meter,
) -> Result<(), Stopped>
    requires fact_1 { Searchable (length answer.old) postings.now }
    requires fact_2 { (atom ≤ last_atom → from ≡ lower_bound (atom * max_rows) postings.now) }
    ensures { walked (tick_end result meter.new) answer.new ≡ walk look (looks postings.now atom) answer.old meter.old }
{
    meter.tick()?; // that of the atom
    if LAST_ATOM < atom {
        return Ok(());
    }
    mark_from(postings, from, atom, answer, meter)
}

// The same for every atom given, in turn.
fn mark_atoms(
    postings: &[u64],
    atoms: &[u64],
    answer: &mut [u64],
    meter: &mut Meter,
) -> Result<(), Stopped>
    requires { Searchable (length answer.old) postings.now }
    ensures { walked (tick_end result meter.new) answer.new
        ≡ walk look (looks_all postings.now atoms.now) answer.old meter.old }
{
    let mut near: usize = 0;
    for atom in atoms {
        near = place_from(postings, near, *atom);
        mark_atom(postings, near, *atom, answer, meter)?;
    }
    Ok(())
}

// The positions posted under the atoms given, ascending and distinct, then zeros. One tick an atom and one a posting found: where the
// meter stops it, every word of the answer is 0.
fn search(
    header: Header,
    postings: &[u64],
    atoms: &[u64],
    answer: &mut [u64],
    work: Meter,
) -> Searched
    requires { Searchable (length answer.old) postings.now }
    ensures { found_end result answer.new
        ≡ search_end
        (searched header postings.now atoms.now
        (ticks (search_ticks postings.now atoms.now) work))
        (length answer.old) }
{
    let mut meter = work;
    fill_zero(answer);
    match mark_atoms(postings, atoms, answer, &mut meter) {
        Ok(()) => {
            let count = gather(answer);
            Searched {
                answer: CandidatesAnswer::Count(count as u64),
                header,
                meter,
            }
        }
        Err(_) => {
            fill_zero(answer);
            Searched {
                answer: CandidatesAnswer::Stopped,
                header,
                meter,
            }
        }
    }
}

// The rows to be looked at, ascending in the answer, then zeros. All rows, unticked, if there are few or full is set, and full is then
// false; else those with an atom given. Where the meter stops it, every word of the answer is 0.
pub fn candidates(
    header: Header,
    slots: &[u64],
    postings: &mut [u64],
    atoms: &[u64],
    answer: &mut [u64],
    work: Meter,
) -> Searched
    requires fact_1 { Stands header slots.now postings.old }
    requires fact_2 { header.rows ≤ length answer.old }
    ensures found { found_end result answer.new
        ≡ search_end (candidates_of (ledger_of header slots.now postings.old) atoms.now work)
        (length answer.old) }
    ensures filing { postings.new
        ≡ filed header.limits.tier_rows result.header.stale (rows_in header.rows slots.now) }
{
    if header.rows <= SCAN_ROWS || header.full {
        up_to(answer, header.rows as usize);
        return Searched {
            answer: CandidatesAnswer::Count(header.rows),
            header: Header {
                full: false,
                ..header
            },
            meter: work,
        };
    }
    let mut meter = work;
    match ready_postings(header, slots, postings, &mut meter) {
        Ok(count) => search(
            Header {
                stale: false,
                ..header
            },
            &postings[0..count],
            atoms,
            answer,
            meter,
        ),
        Err(_) => {
            fill_zero(answer);
            Searched {
                answer: CandidatesAnswer::Stopped,
                header,
                meter,
            }
        }
    }
}
