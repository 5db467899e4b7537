// The check of one slot: whether its words are those of a row. It reads the words where they lie, and lays out no row.
#![tactic(auto)]

ghost use Rattle.std.specs.Prelude.{◌≡◌, ◌+◌, ◌*◌, ◌%◌, ◌^◌, ◌≤◌, ◌<◌, ltb, length, get_or, IfSome};
ghost use Rattle.std.specs.Int.Count.{ones};
ghost use Rattle.words.specs.Region.{max_atoms};
ghost use Rattle.model.specs.Records.{slot_words, max_conditions, max_outputs, conditions_at, outputs_at, group_length};
ghost use Rattle.slots_check.specs.Check.{bits_below, group_ok, side_codes, side_groups, scalar_ok, packed_ok, slot_ok};

use lists::all_zero;
use model::{
    BODY_AT, BORN_AT, CONDITION_GROUPS_AT, CONDITIONS_AT, DELIVERED_AT, GROUP_WORDS,
    MAX_CONDITIONS, MAX_GROUPS, MAX_OUTPUTS, OUTPUTS_AT, SOURCE_AT, TOTAL_GROUPS_AT,
};

// Whether the bits of word x belong to atoms below `atoms`.
#[tactic(auto, unfolding(crate::specs::Check::bits_below))]
fn is_inside(bits: u64, x: u64, atoms: u64) -> bool
    requires { 0 < bits }
    ensures { result ≡ ltb bits (2 ^ bits_below atoms x) }
{
    let last = atoms / 64;
    if x < last {
        return true;
    }
    if last < x {
        return false;
    }
    bits < 1 << (atoms % 64)
}

// Whether a group of word x has some bit, none of an atom outside, and where `apart` says so no atom in both signs.
#[tactic(auto, unfolding(crate::specs::Check::group_ok))]
fn is_group(x: u64, present: u64, absent: u64, apart: bool, atoms: u64) -> bool
    ensures { result ≡ group_ok apart atoms x present absent }
{
    let bits = present | absent;
    if bits == 0 {
        return false;
    }
    if !is_inside(bits, x, atoms) {
        return false;
    }
    if apart {
        return present & absent == 0;
    }
    true
}

// How many codes a group holds. Mostly no atom is there in both signs, and one count does.
fn codes_in(present: u64, absent: u64) -> usize
    ensures { (result ≡ ones present + ones absent) × (result ≤ 128) }
{
    let both = present & absent;
    let count = u64::count_ones(present | absent) as usize;
    if both == 0 {
        return count;
    }
    count + u64::count_ones(both) as usize
}

// How many codes the words hold, if they are groups with ascending words, each of which passes.
fn group_codes(words: &[u64], apart: bool, atoms: u64) -> Option<usize>
    requires few { length words.now ≤ slot_words }
    requires whole { length words.now % group_length ≡ 0 }
    ensures { result ≡ side_codes apart atoms words.now }
{
    let mut least: u64 = 0;
    let mut count: usize = 0;
    for group in words.chunks_exact(GROUP_WORDS) {
        let x = group[0];
        let present = group[1];
        let absent = group[2];
        if x < least {
            return None;
        }
        if !is_group(x, present, absent, apart, atoms) {
            return None;
        }
        count += codes_in(present, absent);
        least = x + 1;
    }
    Some(count)
}

// How many groups the codes would be, if they ascend once the low bits are shifted out and their atoms are below `atoms`. The last code is
// the greatest: it alone is held to the bound, and the walk goes from it to the first.
fn code_groups(codes: &[u64], shift: u32, atoms: u64) -> Option<usize>
    requires fact_1 { shift < 64 }
    requires fact_2 { length codes.now ≤ slot_words }
    ensures groups { result ≡ side_groups atoms shift codes.now }
    ensures few { IfSome result (λ count. count ≤ length codes.now) }
{
    let Some(last) = codes.last() else {
        return Some(0);
    };
    if atoms <= *last / 2 {
        return None;
    }
    let mut count: usize = 1;
    // By position, from the end, as run_count is.
    for i in (1..codes.len()).rev() {
        let x = codes[i - 1];
        let y = codes[i];
        if y >> shift <= x >> shift {
            return None;
        }
        if x >> 7 != y >> 7 {
            count += 1;
        }
    }
    Some(count)
}

// The scalar form: the codes in order, too few to be packed, and zeros after them.
fn is_scalar(slot: &[u64], atoms: u64) -> bool
    requires fact_1 { length slot.now ≡ slot_words }
    requires fact_2 { get_or slot.now conditions_at 0 ≤ max_conditions }
    requires fact_3 { get_or slot.now outputs_at 0 ≤ max_outputs }
    requires fact_4 { atoms ≤ max_atoms }
    ensures { result ≡ scalar_ok atoms slot.now }
{
    if slot[CONDITION_GROUPS_AT] != 0 {
        return false;
    }
    let nc = slot[CONDITIONS_AT] as usize;
    let no = slot[OUTPUTS_AT] as usize;
    let from = BODY_AT + nc;
    let end = from + no;
    let Some(g) = code_groups(&slot[BODY_AT..from], 1, atoms) else {
        return false;
    };
    let Some(h) = code_groups(&slot[from..end], 0, atoms) else {
        return false;
    };
    let w = g + h;
    if 3 * w < 2 * (nc + no) {
        return false;
    }
    all_zero(&slot[end..SOURCE_AT])
}

// The packed form: the groups in order, few enough, as many codes as the slot says, and zeros after them.
fn is_packed(slot: &[u64], atoms: u64) -> bool
    requires fact_1 { length slot.now ≡ slot_words }
    requires fact_2 { get_or slot.now conditions_at 0 ≤ max_conditions }
    requires fact_3 { get_or slot.now outputs_at 0 ≤ max_outputs }
    ensures { result ≡ packed_ok atoms slot.now }
{
    let nc = slot[CONDITIONS_AT] as usize;
    let no = slot[OUTPUTS_AT] as usize;
    let w = slot[TOTAL_GROUPS_AT] as usize;
    let g = slot[CONDITION_GROUPS_AT] as usize;
    if MAX_GROUPS < w {
        return false;
    }
    if w < g {
        return false;
    }
    if 2 * (nc + no) <= 3 * w {
        return false;
    }
    let from = BODY_AT + GROUP_WORDS * g;
    let end = BODY_AT + GROUP_WORDS * w;
    if group_codes(&slot[BODY_AT..from], true, atoms) != Some(nc) {
        return false;
    }
    if group_codes(&slot[from..end], false, atoms) != Some(no) {
        return false;
    }
    all_zero(&slot[end..SOURCE_AT])
}

// Whether the words are the slot of a row over `atoms` atoms, born from 1 to `born`.
pub fn is_slot(slot: &[u64], atoms: u64, born: u64) -> bool
    requires fact_1 { length slot.now ≡ slot_words }
    requires fact_2 { atoms ≤ max_atoms }
    ensures { result ≡ slot_ok atoms born slot.now }
{
    if MAX_CONDITIONS < slot[CONDITIONS_AT] {
        return false;
    }
    if MAX_OUTPUTS < slot[OUTPUTS_AT] {
        return false;
    }
    if slot[BORN_AT] < 1 {
        return false;
    }
    if born < slot[BORN_AT] {
        return false;
    }
    if 1 < slot[DELIVERED_AT] {
        return false;
    }
    if 1 < slot[SOURCE_AT] {
        return false;
    }
    if slot[TOTAL_GROUPS_AT] == 0 {
        return is_scalar(slot, atoms);
    }
    is_packed(slot, atoms)
}
