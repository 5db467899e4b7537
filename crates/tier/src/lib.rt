// The slots of a tier as one buffer: the numbers of a row changed in place, the victim, hits halved, places closed up.
#![tactic(auto)]

ghost use Rattle.std.specs.Prelude.{◌≡◌, ◌++◌, ◌+◌, ◌-◌, ◌*◌, ◌<◌, ◌≤◌, length, take, drop, replicate, IfSome};
ghost use Rattle.words.specs.Region.{has, max_atoms};
ghost use Rattle.model.specs.Records.{slot_words, founded_rows};
ghost use Rattle.model.specs.Slots.{slots_of, entries_in};
ghost use Rattle.model.specs.Retention.{victim_among, halved};
ghost use Rattle.slots.specs.Layout.{tier_of, Held};
ghost use Rattle.tier.specs.Tier.{hit_words, hits_added, marked_delivered, shared_out, lesser_of, may_go, least_by, victim_at};
ghost use Rattle.tier.specs.Tier.{moved, kept_words, kept_place, closed_up};

use lists::fill_zero;
use model::{BORN_AT, DELIVERED_AT, HITS_AT, SLOT_WORDS, SOURCE_AT, UNSHARED_AT, saturating_add};
use words::contains;

// One hit more for the row at `position`, shared with nobody yet.
#[tactic(auto, unfolding(crate::specs::Tier::hit_words))]
pub fn hit(slots: &mut [u64], position: usize)
    requires { slot_words * position + slot_words ≤ length slots.old }
    ensures { slots.new ≡ hit_words position slots.old }
{
    let at = SLOT_WORDS * position;
    let hits = saturating_add(slots[at + HITS_AT], 1);
    let unshared = saturating_add(slots[at + UNSHARED_AT], 1);
    slots[at + HITS_AT] = hits;
    slots[at + UNSHARED_AT] = unshared;
}

// `hits` hits more for the row at `position`.
#[tactic(auto, unfolding(crate::specs::Tier::hits_added))]
pub fn add_hits(slots: &mut [u64], position: usize, hits: u64)
    requires { slot_words * position + slot_words ≤ length slots.old }
    ensures { slots.new ≡ hits_added position hits slots.old }
{
    let at = SLOT_WORDS * position;
    slots[at + HITS_AT] = saturating_add(slots[at + HITS_AT], hits);
}

// The row at `position` came from a store: it has nothing to deliver.
#[tactic(auto, unfolding(crate::specs::Tier::marked_delivered))]
pub fn mark_delivered(slots: &mut [u64], position: usize)
    requires { slot_words * position + slot_words ≤ length slots.old }
    ensures { slots.new ≡ marked_delivered position slots.old }
{
    let at = SLOT_WORDS * position;
    slots[at + DELIVERED_AT] = 1;
}

// The row at `position` is delivered, and so are its hits.
#[tactic(auto, unfolding(crate::specs::Tier::shared_out))]
pub fn share_out(slots: &mut [u64], position: usize)
    requires { slot_words * position + slot_words ≤ length slots.old }
    ensures { slots.new ≡ shared_out position slots.old }
{
    let at = SLOT_WORDS * position;
    slots[at + UNSHARED_AT] = 0;
    slots[at + DELIVERED_AT] = 1;
}

// The position with the less (hits, born) of two; the first where they are equal.
#[tactic(auto, unfolding(crate::specs::Tier::lesser_of))]
fn lesser(slots: &[u64], at: usize, i: usize) -> usize
    requires fact_1 { slot_words * at + slot_words ≤ length slots.now }
    requires fact_2 { slot_words * i + slot_words ≤ length slots.now }
    ensures { result ≡ lesser_of slots.now at i }
{
    let a = SLOT_WORDS * at;
    let b = SLOT_WORDS * i;
    if slots[b + HITS_AT] < slots[a + HITS_AT] {
        return i;
    }
    if slots[a + HITS_AT] < slots[b + HITS_AT] {
        return at;
    }
    if slots[b + BORN_AT] < slots[a + BORN_AT] {
        return i;
    }
    at
}

// Whether the row at `position` may be evicted: any, or where the floor guards the Founded ones a Tip.
#[tactic(auto, unfolding(crate::specs::Tier::may_go))]
fn may_go(slots: &[u64], position: usize, guarded: bool) -> bool
    requires { slot_words * position + slot_words ≤ length slots.now }
    ensures { result ≡ may_go slots.now position guarded }
{
    if guarded {
        return slots[SLOT_WORDS * position + SOURCE_AT] == 1;
    }
    true
}

// The least so far, or the row at `i` where it may be evicted and is less, or is the first such row.
#[tactic(auto, unfolding(crate::specs::Tier::least_by))]
fn least_after(slots: &[u64], least: Option<usize>, i: usize, guarded: bool) -> Option<usize>
    requires fact_1 { IfSome least (λ at. slot_words * at + slot_words ≤ length slots.now) }
    requires fact_2 { slot_words * i + slot_words ≤ length slots.now }
    ensures { result ≡ least_by slots.now least i guarded }
{
    if !may_go(slots, i, guarded) {
        return least;
    }
    match least {
        Some(at) => Some(lesser(slots, at, i)),
        None => Some(i),
    }
}

// The row that a full tier gives up: the least (hits, born), the first on ties, where the floor guards the Founded rows of the Tips alone.
pub fn victim(slots: &[u64], rows: usize, guarded: bool) -> Option<usize>
    requires { Held max_atoms rows slots.now }
    ensures { victim_at result ≡ victim_among guarded (entries_in rows slots.now) }
{
    let mut least: Option<usize> = None;
    for i in 0..rows {
        least = least_after(slots, least, i, guarded);
    }
    least
}

// How many rows are Founded.
pub fn count_founded(slots: &[u64], rows: usize) -> u64
    requires { Held max_atoms rows slots.now }
    ensures { result ≡ founded_rows (entries_in rows slots.now) }
{
    let mut count: u64 = 0;
    for i in 0..rows {
        // The word is 0 for a Founded row and 1 for a Tip, so that what it lacks of 1 is what the row counts: no test and no branch.
        count += 1 - slots[SLOT_WORDS * i + SOURCE_AT];
    }
    count
}

// All hits halved.
pub fn halve(slots: &mut [u64], rows: usize)
    requires { Held max_atoms rows slots.old }
    ensures { slots.new ≡ slots_of (tier_of slots.old) (halved (entries_in rows slots.old)) }
{
    for i in 0..rows {
        let at = SLOT_WORDS * i + HITS_AT;
        slots[at] /= 2;
    }
}

// The slot at `from` copied down to `to`.
#[tactic(auto, unfolding(crate::specs::Tier::moved))]
fn move_slot(slots: &mut [u64], from: usize, to: usize)
    requires fact_1 { to ≤ from }
    requires fact_2 { slot_words * from + slot_words ≤ length slots.old }
    ensures { slots.new ≡ moved from to slots.old }
{
    let start = SLOT_WORDS * from;
    slots.copy_within(start..start + SLOT_WORDS, SLOT_WORDS * to);
}

// The slot at `from` copied down to `to` unless it is marked; the place after it.
fn keep(slots: &mut [u64], from: usize, to: usize, replaced: &[u64]) -> usize
    requires fact_1 { to ≤ from }
    requires fact_2 { slot_words * from + slot_words ≤ length slots.old }
    ensures { (slots.new ≡ kept_words (has replaced.now from) from to slots.old)
        × (result ≡ kept_place (has replaced.now from) to) }
{
    if contains(replaced, from as u64) {
        return to;
    }
    move_slot(slots, from, to);
    to + 1
}

// The rows after `first` that are not marked close up, and the places freed become zero; how many rows there are then.
pub fn close_up(slots: &mut [u64], rows: usize, first: usize, replaced: &[u64]) -> usize
    requires fact_1 { Held max_atoms rows slots.old }
    requires fact_2 { first < rows }
    ensures { (slots.new
        ≡ slots_of (tier_of slots.old) (closed_up (has replaced.now) first (entries_in rows slots.old)))
        × (result ≡ length (closed_up (has replaced.now) first (entries_in rows slots.old))) }
{
    let mut to = first + 1;
    for i in first + 1..rows {
        to = keep(slots, i, to, replaced);
    }
    let a = SLOT_WORDS * to;
    let e = SLOT_WORDS * rows;
    fill_zero(&mut slots[a..e]);
    to
}
