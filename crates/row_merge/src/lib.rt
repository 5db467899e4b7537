// The union of a stored row's outputs with those of a proposal of equal conditions.
#![tactic(auto)]

ghost use Rattle.std.specs.Prelude.{◌≡◌, suc, ◌+◌, ◌≤◌, min, leb, length, IfOk};
ghost use Rattle.lists.specs.Lists.{same};
ghost use Rattle.meter.specs.Meter.{pay, judged};
ghost use Rattle.meter.specs.Results.{judged_end, verdict_of};
ghost use Rattle.model.specs.Records.{max_outputs};
ghost use Rattle.model.specs.Union.{union, grown, joins, same_reads, union_reads, join_reads};
ghost use Rattle.model.specs.Slots.{row_in};
ghost use Rattle.slots.specs.Cursor.{Sound, list_of};
ghost use Rattle.slots.specs.Layout.{Laid, proposal, row_of};
ghost use Rattle.row_propose.specs.Proposed.{Proposed};
ghost use Rattle.row_merge.specs.Merge.{left_of, given_of, PlacedBoth, PlacedMerged, has_room, Written, if_yes};

use meter::{Purse, Unpaid};
use model::{BODY_AT, CONDITIONS_AT, MAX_OUTPUTS, OUTPUTS_AT};
use slots::{Cursor, Side};

// The next literal of the union of what is left of a side and of a list, with the cursor and the position past it, an equal one taken from
// both; or None at the end of both.
// Called in one place only: it is then compiled into the loop there, and its answer needs no memory;
// a walk that passed it through memory took five times as long.
fn step(a: &[u64], sa: Side, cursor: Cursor, b: &[u64], i: usize) -> Option<(u64, Cursor, usize)>
    requires fact_1 { Sound a.now sa }
    requires fact_2 { PlacedBoth sa b.now cursor i }
    ensures { (given_of a.now sa b.now result ≡ left_of a.now sa b.now cursor i)
        × PlacedMerged sa b.now result }
{
    let Some((x, past)) = slots::next(a, sa, cursor) else {
        if b.len() <= i {
            return None;
        }
        return Some((b[i], cursor, i + 1));
    };
    if b.len() <= i {
        return Some((x, past, i));
    }
    let y = b[i];
    if x < y {
        return Some((x, past, i));
    }
    if x == y {
        return Some((x, past, i + 1));
    }
    Some((y, cursor, i + 1))
}

// Whether two sides of equal length have the same literals: one paid read for each literal up to the first difference.
fn same_literals(
    a: &[u64],
    sa: Side,
    b: &[u64],
    sb: Side,
    purse: &mut Purse,
) -> Result<bool, Unpaid>
    requires fact_1 { Sound a.now sa }
    requires fact_2 { Sound b.now sb }
    requires fact_3 { length (list_of a.now sa) ≡ length (list_of b.now sb) }
    ensures { judged_end result purse.new
        ≡ judged (same (list_of a.now sa) (list_of b.now sb))
        (pay (same_reads (list_of a.now sa) (list_of b.now sb)) purse.old.account purse.old.meter) }
{
    let mut x = slots::start();
    let mut y = slots::start();
    while let Some((k, past_k)) = slots::next(a, sa, x) {
        let Some((j, past_j)) = slots::next(b, sb, y) else {
            return Ok(false);
        };
        purse.pay()?;
        if k != j {
            return Ok(false);
        }
        x = past_k;
        y = past_j;
    }
    Ok(true)
}

// The number of literals in the union of a side and a list, with which `out` then begins, or None where `out` is too short for it: one
// paid read for each step and for the end.
fn merge(
    a: &[u64],
    sa: Side,
    b: &[u64],
    out: &mut [u64],
    purse: &mut Purse,
) -> Result<Option<usize>, Unpaid>
    requires { Sound a.now sa }
    ensures counted { judged_end (has_room result) purse.new
        ≡ judged (leb (length (union (list_of a.now sa) b.now)) (length out.old))
        (pay (suc (min (length (union (list_of a.now sa) b.now)) (length out.old)))
        purse.old.account purse.old.meter) }
    ensures written { IfOk result (Written out.new (union (list_of a.now sa) b.now)) }
{
    let mut cursor = slots::start();
    let mut i: usize = 0;
    let mut n: usize = 0;
    // A loop that counts: a `for` over `out` would need a second call of `step` for the end, and `step` is called in one place only.
    loop {
        purse.pay()?;
        let Some((k, past, j)) = step(a, sa, cursor, b, i) else {
            return Ok(Some(n));
        };
        if n == out.len() {
            return Ok(None);
        }
        out[n] = k;
        n += 1;
        cursor = past;
        i = j;
    }
}

// The outputs of a proposal become these, at least as many as they were.
#[tactic(auto, using(crate::proofs::Growing::proposed_sizes))]
fn grow(p: &mut [u64], outputs: &[u64])
    requires fact_1 { Proposed p.old }
    requires fact_2 { length (row_in p.old).outputs ≤ length outputs.now }
    requires fact_3 { length outputs.now ≤ max_outputs }
    ensures { p.new ≡ proposal (row_of (row_in p.old).conditions outputs.now) }
{
    let at = BODY_AT + p[CONDITIONS_AT] as usize;
    p[OUTPUTS_AT] = outputs.len() as u64;
    lists::copy(outputs, &mut p[at..]);
}

// Whether the union of the outputs of slot r and proposal p is within the maximum; then p has it. The count is paid first, and if the
// proposal grows one read for each output of the union, which the count has made already. Otherwise p is as it was.
#[tactic(auto, using(crate::proofs::Growing::proposed_sizes))]
fn unite(r: &[u64], p: &mut [u64], most: u64, purse: &mut Purse) -> Result<bool, Unpaid>
    requires fact_1 { Laid r.now }
    requires fact_2 { Proposed p.old }
    requires fact_3 { most ≤ max_outputs }
    ensures asked { judged_end result purse.new
        ≡ judged (leb (length (grown (row_in r.now) (row_in p.old)).outputs) most)
        (pay
        (union_reads most (length (row_in p.old).outputs)
        (length (grown (row_in r.now) (row_in p.old)).outputs))
        purse.old.account purse.old.meter) }
    ensures grows { p.new
        ≡ if_yes (verdict_of result) (proposal (grown (row_in r.now) (row_in p.old))) p.old }
{
    let at = BODY_AT + p[CONDITIONS_AT] as usize;
    let end = at + p[OUTPUTS_AT] as usize;
    let mut out = [0u64; MAX_OUTPUTS as usize];
    let room = &mut out[0..most as usize];
    let Some(n) = merge(r, slots::outputs(r), &p[at..end], room, purse)? else {
        return Ok(false);
    };
    if n == end - at {
        return Ok(true);
    }
    purse.pay_all(n as u64)?;
    grow(p, &out[0..n]);
    Ok(true)
}

// Whether the row in slot r joins the proposal p: equal conditions, and both sides' outputs and their union within the maximum; then p has
// the union, and otherwise it is as it was. One read for each condition up to the first difference, then those of the union.
#[tactic(auto, using(crate::proofs::Growing::proposed_sizes))]
pub fn union_outputs(r: &[u64], p: &mut [u64], most: u64, purse: &mut Purse) -> Result<bool, Unpaid>
    requires fact_1 { Laid r.now }
    requires fact_2 { Proposed p.old }
    requires fact_3 { most ≤ max_outputs }
    ensures asked { judged_end result purse.new
        ≡ judged (joins most (row_in r.now) (row_in p.old))
        (pay (join_reads most (row_in r.now) (row_in p.old)) purse.old.account purse.old.meter) }
    ensures grows { p.new
        ≡ if_yes (verdict_of result) (proposal (grown (row_in r.now) (row_in p.old))) p.old }
{
    if r[CONDITIONS_AT] != p[CONDITIONS_AT] {
        return Ok(false);
    }
    if most < r[OUTPUTS_AT] {
        return Ok(false);
    }
    if most < p[OUTPUTS_AT] {
        return Ok(false);
    }
    if !same_literals(r, slots::conditions(r), p, slots::conditions(p), purse)? {
        return Ok(false);
    }
    unite(r, p, most, purse)
}
