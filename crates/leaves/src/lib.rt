// The leaf functions behind functions for C over words alone, for the comparison with the Rust and for the measurements; leaves_c is
// the static library. Each contract is the leaf function's own definition with these words, and asks nothing of the caller.
//
// A function tests what it is given. It returns 0; or the number of what it was not given, and then leaves every lent word as
// it was. A row is two lists of codes over `atoms` atoms. The words `paying` are the reads of the account, not 0 if it is the
// sharing one, and the meter's charged and limit. The words `answer` are the answer's number, its value, the reads left and
// the meter's charged. A truth value is a word: 0 for false. With `times` over 1 a call is made so many times, each with the account
// and the meter that the last left; within the call, so that what is measured is the leaf function and not the layout of its rows.
#![tactic(auto)]

ghost use Rattle.std.specs.Prelude.{◌≡◌, ◌-◌, true, [], ◌∷◌, ◌≤◌, length};
ghost use Rattle.meter.specs.Meter.{pay, judged};
ghost use Rattle.meter.specs.Results.{judged_end, verdict_of};
ghost use Rattle.words.specs.Region.{max_atoms, region, has, mark};
ghost use Rattle.model.specs.Records.{is_row, slot_words, max_outputs};
ghost use Rattle.model.specs.Rows.{includes, includes_reads, subsumes, subsumes_reads, prepare_reads};
ghost use Rattle.model.specs.Union.{joins, join_reads};
ghost use Rattle.model.specs.declared.Source.TheVariants.{Founded};
ghost use Rattle.model.specs.Slots.{row_in, slot_of};
ghost use Rattle.slots.specs.Layout.{Laid, proposal};
ghost use Rattle.slots.specs.Layout.{row_of};
ghost use Rattle.row_propose.specs.Proposed.{Proposed};
ghost use Rattle.row_write.specs.Forms.{new_entry};
ghost use Rattle.row_deduce.specs.Chunks.{Matched};
ghost use Rattle.row_deduce.specs.Walks.{walked};
ghost use Rattle.row_deduce.specs.Publication.{next_of};
ghost use Rattle.model.specs.Answers.{flag_word};
ghost use Rattle.wire.specs.Replies.{left};
ghost use Rattle.leaves.specs.Fit.{LaidAs};
ghost use Rattle.leaves.specs.Repeats.{Repeats};
ghost use Rattle.leaves.specs.Calls.{account_in, meter_of, verdict_number, judged_words, deduced_words, next_words, row_fits};
ghost use Rattle.leaves.specs.Calls.{asked_times, prepared, prepared_by, prepare_times, united_by, union_times, deduce_times};
ghost use Rattle.leaves.specs.Calls.{prepare_call, includes_call, subsumes_call, union_call, deduction_call, next_call, decide_call};
ghost use Rattle.leaves.specs.Calls.{found_call};

use meter::{Account, Capture, Meter, Purse, Sharing, Stopped, Unpaid};
use model::{Deduction, Literal, MAX_CONDITIONS, MAX_OUTPUTS, SLOT_WORDS, Source};
use wire::{cursor_of, flag_word, put_cursor};
use words::{MAX_ATOMS, MAX_WORD};

// What was not given: a row, a region, a cursor of the row, a number that the function knows, the words of a slot.
pub const NO_ROW: u64 = 1;

pub const NO_REGION: u64 = 2;

pub const NO_CURSOR: u64 = 3;

pub const NO_CHOICE: u64 = 4;

pub const NO_SLOT: u64 = 5;

fn account_of(paying: &[u64; 4]) -> Account
    ensures { result ≡ account_in paying.now }
{
    if paying[1] == 0 {
        Account::Remaining(Capture(paying[0]))
    } else {
        Account::Share(Sharing(paying[0]))
    }
}

fn meter_of(paying: &[u64; 4]) -> Meter
    ensures { result ≡ meter_of paying.now }
{
    Meter {
        charged: paying[2],
        limit: paying[3],
    }
}

fn purse_of(paying: &[u64; 4]) -> Purse
    ensures account { result.account ≡ account_in paying.now }
    ensures meter { result.meter ≡ meter_of paying.now }
{
    Purse {
        account: account_of(paying),
        meter: meter_of(paying),
    }
}

// The number of an answer.
fn number_of(answered: Result<bool, Unpaid>) -> u64
    ensures { result ≡ verdict_number (verdict_of answered) }
{
    match answered {
        Err(Unpaid::Stopped) => 0,
        Err(Unpaid::Declined) => 1,
        Ok(false) => 2,
        Ok(true) => 3,
    }
}

// The answer of a question whose reads are paid; its value is 1 for the sharing account.
fn put_judged(answered: Result<bool, Unpaid>, purse: Purse, answer: &mut [u64; 4])
    ensures { answer.new ≡ judged_words (judged_end answered purse) }
{
    let number = number_of(answered);
    let account = purse.account;
    let charged = purse.meter.charged;
    match account {
        Account::Remaining(c) => {
            *answer = [number, 0, c.0, charged];
        }
        Account::Share(s) => {
            *answer = [number, 1, s.0, charged];
        }
    }
}

// Stopped is 0, Nothing 1, Force 2, Require 3 with its literal and, in the place of the reads left, the output contradicted.
fn put_deduced(found: Result<Deduction, Stopped>, charged: u64, answer: &mut [u64; 4])
    ensures { answer.new ≡ deduced_words found charged }
{
    *answer = match found {
        Err(Stopped) => [0, 0, 0, charged],
        Ok(Deduction::Nothing) => [1, 0, 0, charged],
        Ok(Deduction::Force) => [2, 0, 0, charged],
        Ok(
            Deduction::Require {
                required,
                contradicted,
            },
        ) => [3, required.0 as u64, contradicted.0 as u64, charged],
    };
}

// Stopped is 0, End 1, Output 2 with its literal.
fn put_next(found: Result<Option<Literal>, Stopped>, charged: u64, answer: &mut [u64; 4])
    ensures { answer.new ≡ next_words (next_of found) charged }
{
    *answer = match found {
        Err(Stopped) => [0, 0, 0, charged],
        Ok(None) => [1, 0, 0, charged],
        Ok(Some(literal)) => [2, literal.0 as u64, 0, charged],
    };
}

// Whether the lists are a row over so many atoms.
fn is_row(atoms: u64, conditions: &[u64], outputs: &[u64]) -> bool
    ensures { result ≡ row_fits atoms (row_of conditions.now outputs.now) }
{
    if MAX_ATOMS < atoms {
        return false;
    }
    row_propose::is_row(atoms, MAX_CONDITIONS, MAX_OUTPUTS, conditions, outputs)
}

// p becomes the proposal of a row, and true; false, and nothing changed, if the lists are no row.
fn propose(atoms: u64, conditions: &[u64], outputs: &[u64], p: &mut [u64]) -> bool
    requires { length p.old ≡ slot_words }
    ensures { (result ≡ row_fits atoms (row_of conditions.now outputs.now))
        × (result ≡ true → p.new ≡ proposal (row_of conditions.now outputs.now)) }
{
    if !is_row(atoms, conditions, outputs) {
        return false;
    }
    row_propose::propose(conditions, outputs, p);
    true
}

// The slot becomes that of a row in the form that it takes there, and true; false, and nothing changed, if the lists are no row.
fn store(atoms: u64, conditions: &[u64], outputs: &[u64], slot: &mut [u64]) -> bool
    requires { length slot.old ≡ slot_words }
    ensures { (result ≡ row_fits atoms (row_of conditions.now outputs.now))
        × (result ≡ true → slot.new ≡ slot_of (new_entry (row_of conditions.now outputs.now) 0 0 Founded)) }
{
    let mut p = [0u64; SLOT_WORDS];
    if !propose(atoms, conditions, outputs, &mut p) {
        return false;
    }
    row_write::write_row(slot, &p, row_write::form_of(&p), 0, 0, Source::Founded);
    true
}

// The words become those of a row, its slot or its proposal, and true; false, and nothing changed, if the lists are no row.
fn lay(atoms: u64, conditions: &[u64], outputs: &[u64], stored: bool, ws: &mut [u64]) -> bool
    requires { length ws.old ≡ slot_words }
    ensures { (result ≡ row_fits atoms (row_of conditions.now outputs.now))
        × (result ≡ true → LaidAs (row_of conditions.now outputs.now) ws.new) }
{
    if stored {
        return store(atoms, conditions, outputs, ws);
    }
    propose(atoms, conditions, outputs, ws)
}

// The form of a proposal's row, and where its reads are paid its slot.
fn prepare(p: &[u64], slot: &mut [u64], purse: &mut Purse) -> Result<bool, Unpaid>
    requires fact_1 { Proposed p.now }
    requires fact_2 { length slot.old ≡ slot_words }
    ensures { prepared (judged_end result purse.new) slot.new ≡ prepared_by (row_in p.now)
        (judged true (pay (prepare_reads (row_in p.now)) purse.old.account purse.old.meter)) slot.old }
{
    let prepared = row_write::prepare(p, purse);
    prepared.paid?;
    row_write::write_row(slot, p, prepared.form, 0, 0, Source::Founded);
    Ok(true)
}

// What the last of so many calls returns, each with the state that the one before left. `call` may be called with any state; `prepare`
// and `unite` ask that the words they write be as many as a slot's, so `prepare_times` and `union_times` have this loop themselves.
fn repeated<S, R: Copy, F: Fn(&mut S) -> R>(state: &mut S, times: u64, call: F) -> R
    requires { F.IsAlwaysCallable call }
    ensures { Repeats F.Fn call (times - 1) state.old result state.new }
{
    for _ in 1..times {
        let _ = call(state);
    }
    call(state)
}

fn prepare_times(p: &[u64], slot: &mut [u64], purse: &mut Purse, times: u64) -> Result<bool, Unpaid>
    requires fact_1 { Proposed p.now }
    requires fact_2 { length slot.old ≡ slot_words }
    ensures { prepared (judged_end result purse.new) slot.new
        ≡ prepare_times (row_in p.now) times purse.old.account purse.old.meter slot.old }
{
    for _ in 1..times {
        let _ = prepare(p, slot, purse);
    }
    prepare(p, slot, purse)
}

// Whether the outputs of the one row are among those of the other.
fn includes_times(a: &[u64], b: &[u64], purse: &mut Purse, times: u64) -> Result<bool, Unpaid>
    requires fact_1 { Laid a.now }
    requires fact_2 { Laid b.now }
    ensures { judged_end result purse.new ≡ asked_times (includes (row_in a.now).outputs (row_in b.now).outputs)
        (includes_reads (row_in a.now).outputs (row_in b.now).outputs) times purse.old.account purse.old.meter }
{
    let candidates = slots::outputs(a);
    let wanted = slots::outputs(b);
    repeated(
        purse,
        times,
        |purse| row_subsume::includes(a, candidates, b, wanted, purse),
    )
}

fn subsumes_times(r: &[u64], s: &[u64], purse: &mut Purse, times: u64) -> Result<bool, Unpaid>
    requires fact_1 { Laid r.now }
    requires fact_2 { Laid s.now }
    ensures { judged_end result purse.new ≡ asked_times (subsumes (row_in r.now) (row_in s.now))
        (subsumes_reads (row_in r.now) (row_in s.now)) times purse.old.account purse.old.meter }
{
    repeated(purse, times, |purse| row_subsume::subsumes(r, s, purse))
}

// p becomes the proposal of the lists, and then the union.
fn unite(
    r: &[u64],
    conditions: &[u64],
    outputs: &[u64],
    p: &mut [u64],
    most: u64,
    purse: &mut Purse,
) -> Result<bool, Unpaid>
    requires fact_1 { Laid r.now }
    requires fact_2 { is_row max_atoms (row_of conditions.now outputs.now) ≡ true }
    requires fact_3 { length p.old ≡ slot_words }
    requires fact_4 { most ≤ max_outputs }
    ensures { (judged_end result purse.new ≡ judged (joins most (row_in r.now) (row_of conditions.now outputs.now))
        (pay (join_reads most (row_in r.now) (row_of conditions.now outputs.now)) purse.old.account purse.old.meter))
        × (p.new ≡ united_by (row_in r.now) (row_of conditions.now outputs.now) (judged_end result purse.new)) }
{
    row_propose::propose(conditions, outputs, p);
    row_merge::union_outputs(r, p, most, purse)
}

fn union_times(
    r: &[u64],
    conditions: &[u64],
    outputs: &[u64],
    p: &mut [u64],
    most: u64,
    purse: &mut Purse,
    times: u64,
) -> Result<bool, Unpaid>
    requires fact_1 { Laid r.now }
    requires fact_2 { is_row max_atoms (row_of conditions.now outputs.now) ≡ true }
    requires fact_3 { length p.old ≡ slot_words }
    requires fact_4 { most ≤ max_outputs }
    ensures { (judged_end result purse.new
        ≡ union_times most (row_in r.now) (row_of conditions.now outputs.now) times purse.old.account purse.old.meter)
        × (p.new ≡ united_by (row_in r.now) (row_of conditions.now outputs.now) (judged_end result purse.new)) }
{
    for _ in 1..times {
        let _ = unite(r, conditions, outputs, p, most, purse);
    }
    unite(r, conditions, outputs, p, most, purse)
}

fn deduction_times(
    slot: &[u64],
    held: &[u64],
    cut: &[u64],
    meter: &mut Meter,
    times: u64,
) -> Result<Deduction, Stopped>
    requires { Matched slot.now held.now cut.now }
    ensures { walked result meter.new
        ≡ deduce_times (region held.now cut.now) (row_in slot.now) times meter.old }
{
    repeated(
        meter,
        times,
        |meter| row_deduce::deduction(slot, held, cut, meter),
    )
}

// The form of a row and its reads; the slot has its words where they are paid.
pub fn leaf_prepare(
    atoms: u64,
    conditions: &[u64],
    outputs: &[u64],
    paying: &[u64; 4],
    times: u64,
    slot: &mut [u64],
    answer: &mut [u64; 4],
) -> u64
    ensures { left result (slot.new ∷ answer.new ∷ [])
        ≡ prepare_call atoms conditions.now outputs.now paying.now times
        slot.old answer.old }
{
    let mut p = [0u64; SLOT_WORDS];
    if !propose(atoms, conditions, outputs, &mut p) {
        return NO_ROW;
    }
    if slot.len() != SLOT_WORDS {
        return NO_SLOT;
    }
    let mut purse = purse_of(paying);
    let answered = prepare_times(&p, slot, &mut purse, times);
    put_judged(answered, purse, answer);
    0
}

// Whether the wanted codes are among the candidates. Of `forms`, 1 and 2 say which of the lists is in a stored row's form.
pub fn leaf_includes(
    atoms: u64,
    candidates: &[u64],
    wanted: &[u64],
    forms: u64,
    paying: &[u64; 4],
    times: u64,
    answer: &mut [u64; 4],
) -> u64
    ensures { left result (answer.new ∷ []) ≡ includes_call atoms candidates.now wanted.now forms
        paying.now times answer.old }
{
    let mut a = [0u64; SLOT_WORDS];
    let mut b = [0u64; SLOT_WORDS];
    if !lay(atoms, &candidates[0..0], candidates, forms % 2 == 1, &mut a) {
        return NO_ROW;
    }
    if !lay(atoms, &wanted[0..0], wanted, 2 <= forms, &mut b) {
        return NO_ROW;
    }
    if 3 < forms {
        return NO_CHOICE;
    }
    let mut purse = purse_of(paying);
    let answered = includes_times(&a, &b, &mut purse, times);
    put_judged(answered, purse, answer);
    0
}

// Whether the stored row subsumes the other one; or, turned, the other one the stored row.
pub fn leaf_subsumes(
    atoms: u64,
    conditions: &[u64],
    outputs: &[u64],
    other_conditions: &[u64],
    other_outputs: &[u64],
    turned: u64,
    paying: &[u64; 4],
    times: u64,
    answer: &mut [u64; 4],
) -> u64
    ensures { left result (answer.new ∷ []) ≡ subsumes_call atoms (row_of conditions.now outputs.now)
        (row_of other_conditions.now other_outputs.now) turned paying.now times
        answer.old }
{
    let mut r = [0u64; SLOT_WORDS];
    let mut p = [0u64; SLOT_WORDS];
    if !lay(atoms, conditions, outputs, true, &mut r) {
        return NO_ROW;
    }
    if !lay(atoms, other_conditions, other_outputs, false, &mut p) {
        return NO_ROW;
    }
    let mut purse = purse_of(paying);
    if turned != 0 {
        let answered = subsumes_times(&p, &r, &mut purse, times);
        put_judged(answered, purse, answer);
        return 0;
    }
    let answered = subsumes_times(&r, &p, &mut purse, times);
    put_judged(answered, purse, answer);
    0
}

// The union of the stored row with the other one; the slot has the other one's proposal after it.
pub fn leaf_union_outputs(
    atoms: u64,
    conditions: &[u64],
    outputs: &[u64],
    other_conditions: &[u64],
    other_outputs: &[u64],
    maximum: u64,
    paying: &[u64; 4],
    times: u64,
    slot: &mut [u64],
    answer: &mut [u64; 4],
) -> u64
    ensures { left result (slot.new ∷ answer.new ∷ [])
        ≡ union_call atoms (row_of conditions.now outputs.now)
        (row_of other_conditions.now other_outputs.now) maximum paying.now times
        slot.old answer.old }
{
    let mut r = [0u64; SLOT_WORDS];
    if !lay(atoms, conditions, outputs, true, &mut r) {
        return NO_ROW;
    }
    if !is_row(atoms, other_conditions, other_outputs) {
        return NO_ROW;
    }
    if MAX_OUTPUTS < maximum {
        return NO_CHOICE;
    }
    if slot.len() != SLOT_WORDS {
        return NO_SLOT;
    }
    let mut purse = purse_of(paying);
    let answered = union_times(
        &r,
        other_conditions,
        other_outputs,
        slot,
        maximum,
        &mut purse,
        times,
    );
    put_judged(answered, purse, answer);
    0
}

// What a stored row says of a region.
pub fn leaf_deduction(
    atoms: u64,
    conditions: &[u64],
    outputs: &[u64],
    held: &[u64],
    cut: &[u64],
    paying: &[u64; 4],
    times: u64,
    answer: &mut [u64; 4],
) -> u64
    ensures { left result (answer.new ∷ [])
        ≡ deduction_call atoms (row_of conditions.now outputs.now) held.now cut.now
        paying.now times answer.old }
{
    let mut slot = [0u64; SLOT_WORDS];
    if !store(atoms, conditions, outputs, &mut slot) {
        return NO_ROW;
    }
    if !words::is_region(atoms, held, cut) {
        return NO_REGION;
    }
    let mut meter = meter_of(paying);
    let found = deduction_times(&slot, held, cut, &mut meter, times);
    put_deduced(found, meter.charged, answer);
    0
}

// The next output of a stored row, and the cursor past it.
pub fn leaf_next_output(
    atoms: u64,
    conditions: &[u64],
    outputs: &[u64],
    held: &[u64],
    cut: &[u64],
    cursor: &mut [u64; 4],
    paying: &[u64; 4],
    answer: &mut [u64; 4],
) -> u64
    ensures { left result (cursor.new ∷ answer.new ∷ [])
        ≡ next_call atoms (row_of conditions.now outputs.now) held.now cut.now
        cursor.old paying.now answer.old }
{
    let mut slot = [0u64; SLOT_WORDS];
    if !store(atoms, conditions, outputs, &mut slot) {
        return NO_ROW;
    }
    if !words::is_region(atoms, held, cut) {
        return NO_REGION;
    }
    let mut k = cursor_of(cursor);
    if !row_deduce::cursor_ok(&slot, k) {
        return NO_CURSOR;
    }
    let mut meter = meter_of(paying);
    let found = row_deduce::next_publication_output(&slot, &mut k, held, cut, &mut meter);
    put_cursor(k, cursor);
    put_next(found, meter.charged, answer);
    0
}

// Whether the atom was decided: 1, or 0.
pub fn leaf_decide(
    atoms: u64,
    held: &mut [u64],
    cut: &mut [u64],
    atom: u64,
    value: u64,
    answer: &mut [u64; 4],
) -> u64
    ensures { left result (held.new ∷ cut.new ∷ answer.new ∷ [])
        ≡ decide_call atoms held.old cut.old atom value answer.old }
{
    if !words::is_region(atoms, held, cut) {
        return NO_REGION;
    }
    let done = words::decide(atoms, held, cut, atom, value != 0);
    *answer = [flag_word(done), 0, 0, 0];
    0
}

// 1 and the first position, or 0.
pub fn leaf_next_from(words: &[u64], from: u64, answer: &mut [u64; 4]) -> u64
    ensures { left result (answer.new ∷ []) ≡ found_call words.now from }
{
    match words::next_from(MAX_WORD, words, from) {
        Some(atom) => {
            *answer = [1, atom, 0, 0];
        }
        None => {
            *answer = [0, 0, 0, 0];
        }
    }
    0
}

// 1 if the atom is among the words, else 0.
pub fn leaf_contains(words: &[u64], atom: u64) -> u64
    ensures { result ≡ flag_word (has words.now atom) }
{
    flag_word(words::contains(words, atom))
}

// Puts the atom among the words.
pub fn leaf_insert(words: &mut [u64], atom: u64)
    ensures { words.new ≡ mark words.old atom }
{
    words::insert(words, atom)
}
