// A row on its way into a slot: the form that it takes there, what that costs, and its words.
#![tactic(auto)]

ghost use Rattle.std.specs.Prelude.{◌≡◌, true, false, ◌+◌, ◌-◌, ◌*◌, ◌≤◌, length};
ghost use Rattle.lists.specs.Lists.{pad, zeroed, below};
ghost use Rattle.words.specs.Region.{max_atoms};
ghost use Rattle.meter.specs.Meter.{pay};
ghost use Rattle.meter.specs.Results.{read_end};
ghost use Rattle.model.specs.Records.{slot_words, max_conditions, max_outputs, body_at, group_length, body_words};
ghost use Rattle.model.specs.Rows.{groups, packed, prepare_reads};
ghost use Rattle.model.specs.Slots.{packs, row_in, body as body_of, slot_of};
ghost use Rattle.row_propose.specs.Proposed.{Proposed};
ghost use Rattle.row_write.specs.Forms.{form_of, new_entry, head_of, reads_for};
ghost use Rattle.row_write.specs.Packs.{begun, mask_at, entered};

use lists::{copy, fill_zero};
use meter::{Purse, Unpaid};
use model::{
    BODY_AT, BORN_AT, CONDITION_GROUPS_AT, CONDITIONS_AT, DELIVERED_AT, GROUP_WORDS, HITS_AT,
    OUTPUTS_AT, SOURCE_AT, Source, TOTAL_GROUPS_AT, UNSHARED_AT, source_word,
};
use words::{WORD_BITS, locate};

// How a row stands in its slot: all its groups, and those of its conditions. Both 0: scalar. Two numbers and no Option: they are the
// slot's own two words, which the clauses of `form_of` and `write_head` name.
#[derive(Clone, Copy)]
pub struct Form {
    pub total: u64,
    pub first: u64,
}

// The groups of codes of a proposal: as many as the codes, but for those of the same word as the code before.
fn count_words(codes: &[u64]) -> usize
    requires { below (2 * max_atoms) codes.now ≡ true }
    ensures { result ≡ length (groups codes.now) }
{
    let [first, rest @ ..] = codes else {
        return 0;
    };
    let mut count = codes.len();
    // The group of the last literal. A proposal's codes are below 2 * MAX_ATOMS, so it is at most MAX_ATOMS / WORD_BITS - 1, which is
    // 16,383: 16 bits hold it.
    let mut previous = (*first / 2 / WORD_BITS) as u16;
    for code in rest {
        // Compared as whole words, which is faster.
        let last = previous as u64;
        let group = *code / 2 / WORD_BITS;
        if group == last {
            count -= 1;
        }
        previous = group as u16;
    }
    count
}

// The form of a proposal's row: its groups, conditions and outputs grouped apart, if 3 times as many are fewer than twice the literals;
// else both 0.
pub fn form_of(p: &[u64]) -> Form
    requires { Proposed p.now }
    ensures { result ≡ form_of (row_in p.now) }
{
    let n = BODY_AT + p[CONDITIONS_AT] as usize;
    let m = n + p[OUTPUTS_AT] as usize;
    let first = count_words(&p[BODY_AT..n]);
    let total = first + count_words(&p[n..m]);
    if 3 * total < 2 * (m - BODY_AT) {
        return Form {
            total: total as u64,
            first: first as u64,
        };
    }
    Form { total: 0, first: 0 }
}

// The reads of `prepare` for so many literals: one a literal, and one more where they are packed.
fn reads_of(literals: u64, form: Form) -> u64
    requires { literals ≤ max_conditions + max_outputs }
    ensures { result ≡ reads_for literals form }
{
    if form.total == 0 {
        return literals;
    }
    2 * literals
}

// A row prepared: the form of a proposal's row, and how the reads for it were paid.
#[derive(Clone, Copy)]
pub struct Prepared {
    pub form: Form,
    pub paid: Result<(), Unpaid>,
}

// The form of a proposal's row, whether or not its reads are paid: each literal once, and again to pack it.
pub fn prepare(p: &[u64], purse: &mut Purse) -> Prepared
    requires { Proposed p.now }
    ensures reads { read_end result.paid purse.new ≡ pay (prepare_reads (row_in p.now)) purse.old.account purse.old.meter }
    ensures form { result.form ≡ form_of (row_in p.now) }
{
    let form = form_of(p);
    let reads = reads_of(p[CONDITIONS_AT] + p[OUTPUTS_AT], form);
    let paid = purse.pay_all(reads);
    Prepared { form, paid }
}

// Where the bits of a code's sign stand in the group at `at`: present bits before absent bits.
fn mask_at(at: usize, code: u64) -> usize
    requires { at ≤ slot_words }
    ensures { result ≡ mask_at at code }
{
    if code % 2 == 1 {
        return at + 1;
    }
    at + 2
}

// One code more in the group at `at`: the group has the code's word as its index, and the code's bit among those of its sign.
fn enter(out: &mut [u64], at: usize, code: u64)
    requires fact_1 { at + group_length ≤ length out.old }
    requires fact_2 { at ≤ slot_words }
    ensures { out.new ≡ entered out.old at code }
{
    let place = locate(code / 2);
    let k = mask_at(at, code);
    out[at] = place.word as u64;
    out[k] = place.bit | out[k];
}

// 0 if a code of word `index` joins the group at `at`; 1 if it begins one: there is none at `at`, or one of another word.
// A number and no bool: it counts groups, and `pack` multiplies by it without a branch.
fn begins(out: &[u64], at: usize, index: u64) -> usize
    ensures { result ≡ begun out.now at index }
{
    if at < out.len() {
        if index == out[at] {
            return 0;
        }
    }
    1
}

// out, zeros as many as it takes, becomes the groups of the codes. From the last code to the first, each joins the group of the code after
// it if both are of one word, else it begins a group.
fn pack(codes: &[u64], out: &mut [u64])
    requires fact_1 { length out.old ≡ group_length * length (groups codes.now) }
    requires fact_2 { length out.old ≤ slot_words }
    requires fact_3 { out.old ≡ zeroed out.old }
    ensures { out.new ≡ packs codes.now }
{
    let mut at = out.len();
    for code in codes.iter().rev() {
        at -= GROUP_WORDS * begins(out, at, *code / 2 / 64);
        enter(out, at, *code);
    }
}

// The body of a scalar row: the codes, which stand in the proposal as they do in a slot, and zeros.
fn write_scalar(body: &mut [u64], p: &[u64])
    requires fact_1 { length body.old ≡ body_words }
    requires fact_2 { Proposed p.now }
    requires fact_3 { packed (row_in p.now) ≡ false }
    ensures { body.new ≡ pad body_words (body_of (row_in p.now)) }
{
    copy(&p[BODY_AT..SOURCE_AT], body);
}

// The body of a packed row: the groups of its conditions, those of its outputs, and zeros.
fn write_packed(body: &mut [u64], p: &[u64], form: Form)
    requires fact_1 { length body.old ≡ body_words }
    requires fact_2 { Proposed p.now }
    requires fact_3 { form ≡ form_of (row_in p.now) }
    requires fact_4 { packed (row_in p.now) ≡ true }
    ensures { body.new ≡ pad body_words (body_of (row_in p.now)) }
{
    let n = BODY_AT + p[CONDITIONS_AT] as usize;
    let m = n + p[OUTPUTS_AT] as usize;
    let a = GROUP_WORDS * form.first as usize;
    let e = GROUP_WORDS * form.total as usize;
    fill_zero(body);
    pack(&p[BODY_AT..n], &mut body[0..a]);
    pack(&p[n..m], &mut body[a..e]);
}

// The body of a row in its form.
fn write_body(body: &mut [u64], p: &[u64], form: Form)
    requires fact_1 { length body.old ≡ body_words }
    requires fact_2 { Proposed p.now }
    requires fact_3 { form ≡ form_of (row_in p.now) }
    ensures { body.new ≡ pad body_words (body_of (row_in p.now)) }
{
    if form.total == 0 {
        write_scalar(body, p);
        return;
    }
    write_packed(body, p, form);
}

// The words before the body of a row that is new in its slot: unshared and delivered are 0.
fn write_head(head: &mut [u64], conditions: u64, outputs: u64, form: Form, hits: u64, born: u64)
    requires { length head.old ≡ body_at }
    ensures { head.new ≡ head_of conditions outputs form hits born }
{
    head[CONDITIONS_AT] = conditions;
    head[OUTPUTS_AT] = outputs;
    head[TOTAL_GROUPS_AT] = form.total;
    head[CONDITION_GROUPS_AT] = form.first;
    head[HITS_AT] = hits;
    head[UNSHARED_AT] = 0;
    head[BORN_AT] = born;
    head[DELIVERED_AT] = 0;
}

// The slot, whatever it held, becomes that of the proposal's row with so many hits, born then, not shared and not delivered, and with its
// source.
pub fn write_row(slot: &mut [u64], p: &[u64], form: Form, hits: u64, born: u64, source: Source)
    requires fact_1 { length slot.old ≡ slot_words }
    requires fact_2 { Proposed p.now }
    requires fact_3 { form ≡ form_of (row_in p.now) }
    ensures { slot.new ≡ slot_of (new_entry (row_in p.now) hits born source) }
{
    write_head(
        &mut slot[0..BODY_AT],
        p[CONDITIONS_AT],
        p[OUTPUTS_AT],
        form,
        hits,
        born,
    );
    write_body(&mut slot[BODY_AT..SOURCE_AT], p, form);
    slot[SOURCE_AT] = source_word(source);
}
