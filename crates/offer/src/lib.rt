// Offer: a row given to a ledger, paid from its capture account. It asks nothing of its caller.
#![tactic(auto)]

ghost use Rattle.std.specs.Prelude.{◌≡◌, true, ◌<◌, ◌≤◌};
ghost use Rattle.model.specs.Records.{max_outputs, is_row, limits_ok};
ghost use Rattle.model.specs.Slots.{row_in};
ghost use Rattle.row_propose.specs.Proposed.{Proposed};
ghost use Rattle.model.specs.Operations.{offer, capture, fits_offer};
ghost use Rattle.model.specs.Refusals.{ledger_in};
ghost use Rattle.slots.specs.Layout.{row_of};
ghost use Rattle.contents.specs.Lent.{lent};
ghost use Rattle.contents.specs.Accepted.{Accepted};
ghost use Rattle.offer.specs.Ends.{offer_end, unoffered_by, answer_of, captured_by, shut_by, may_capture};

use contents::accept;
use meter::{Account, Meter, Purse, Unpaid};
use model::{Header, OfferAnswer, OfferResult, Refusal, SLOT_WORDS, Source, source_of};
use retain::{Kept, retain};
use retain_keep::put_account;
use row_propose::{is_row, propose};

// The result of an offer that changes nothing and costs nothing.
fn unoffered(answer: Result<OfferAnswer, Refusal>, header: Header, work: Meter) -> OfferResult
    ensures { result ≡ unoffered_by answer header work }
{
    OfferResult {
        answer,
        header,
        meter: work,
        ticks: 0,
    }
}

// Whether being full shuts a ledger: it holds no Tip, and no more Founded rows than the floor protects.
#[tactic(auto, unfolding(crate::specs::Ends::shut_by))]
fn full_shuts(header: Header) -> bool
    ensures { result ≡ shut_by header }
{
    let limits = header.limits;
    limits.tier_rows <= header.rows
        && header.rows <= header.founded
        && header.founded <= limits.founded_floor
}

// Whether a ledger takes offers: it has attempts and reads left, and being full does not shut it.
#[tactic(auto, unfolding(crate::specs::Ends::may_capture))]
fn can_capture(header: Header) -> bool
    ensures { result ≡ may_capture header }
{
    header.attempts < header.limits.founded_attempts
        && 0 < header.remaining.0
        && !full_shuts(header)
}

// The answer of an offer whose retention is over.
fn answer_of(kept: Result<Kept, Unpaid>) -> OfferAnswer
    ensures { result ≡ answer_of kept }
{
    match kept {
        Ok(Kept::Subsumed(p)) => OfferAnswer::Subsumed(p),
        Ok(Kept::Added(p)) => OfferAnswer::Added(p),
        Err(Unpaid::Declined) => OfferAnswer::Declined,
        Err(Unpaid::Stopped) => OfferAnswer::Stopped,
    }
}

// The result of an offer whose retention is over: the account goes back to its place.
fn captured(kept: Result<Kept, Unpaid>, header: Header, purse: Purse, work: Meter) -> OfferResult
    ensures { result ≡ captured_by kept header purse work }
{
    OfferResult {
        answer: Ok(answer_of(kept)),
        header: put_account(header, purse.account),
        meter: purse.meter,
        ticks: purse.meter.made(work),
    }
}

// One attempt more, and the proposal p retained with at most founded_outputs outputs: Stopped, Declined, Subsumed or Added. p is scratch
// afterwards.
fn capture_row(
    header: Header,
    slots: &mut [u64],
    postings: &mut [u64],
    p: &mut [u64],
    source: Source,
    work: Meter,
) -> OfferResult
    requires fact_1 { Accepted header slots.old postings.old }
    requires fact_2 { Proposed p.old }
    requires fact_3 { is_row header.limits.atoms (row_in p.old) ≡ true }
    requires fact_4 { header.attempts < header.limits.founded_attempts }
    requires fact_5 { header.limits.founded_outputs ≤ max_outputs }
    ensures { offer_end result slots.new postings.new
        ≡ (capture (ledger_in (lent header slots.old postings.old)) source (row_in p.old) work
        ).seen }
{
    let limits = header.limits;
    let remaining = header.remaining;
    let account = Account::Remaining(remaining);
    let mut attempted = Header {
        attempts: header.attempts + 1,
        ..header
    };
    let mut purse = Purse {
        account,
        meter: work,
    };
    let kept = retain(
        &mut attempted,
        slots,
        postings,
        p,
        limits.founded_outputs,
        0,
        source,
        &mut purse,
    );
    captured(kept, attempted, purse, work)
}

// The same of a row given as two lists.
fn capture(
    header: Header,
    slots: &mut [u64],
    postings: &mut [u64],
    conditions: &[u64],
    outputs: &[u64],
    source: Source,
    work: Meter,
) -> OfferResult
    requires fact_1 { Accepted header slots.old postings.old }
    requires fact_2 { header.attempts < header.limits.founded_attempts }
    requires fact_3 { limits_ok header.limits ≡ true }
    requires fact_4 { fits_offer header.limits (row_of conditions.now outputs.now) ≡ true }
    ensures { offer_end result slots.new postings.new
        ≡ (capture (ledger_in (lent header slots.old postings.old))
        source (row_of conditions.now outputs.now) work).seen }
{
    let mut p = [0u64; SLOT_WORDS];
    propose(conditions, outputs, &mut p);
    capture_row(header, slots, postings, &mut p, source, work)
}

// Offers a row to a ledger: refused by Limits, Lengths, Contents, by Row if the lists are no row over its atoms within its limits, or by
// Source if the source is neither 0, Founded, nor 1, a Tip; Shut if it takes no offers; Stopped or Declined where a read is not paid;
// Subsumed, and the position of the row that says as much; or Added, and its own.
pub fn offer(
    header: Header,
    slots: &mut [u64],
    postings: &mut [u64],
    conditions: &[u64],
    outputs: &[u64],
    source: u64,
    work: Meter,
) -> OfferResult
    ensures { offer_end result slots.new postings.new
        ≡ (offer (lent header slots.old postings.old) conditions.now outputs.now source work
        ).seen }
{
    if let Err(refusal) = accept(header, slots, postings, true) {
        return unoffered(Err(refusal), header, work);
    }
    let limits = header.limits;
    if !is_row(
        limits.atoms,
        limits.founded_conditions,
        limits.founded_outputs,
        conditions,
        outputs,
    ) {
        return unoffered(Err(Refusal::Row), header, work);
    }
    if 1 < source {
        return unoffered(Err(Refusal::Source), header, work);
    }
    if !can_capture(header) {
        return unoffered(Ok(OfferAnswer::Shut), header, work);
    }
    capture(
        header,
        slots,
        postings,
        conditions,
        outputs,
        source_of(source),
        work,
    )
}
