// Deliver: a store takes the rows of a tier.
ghost use Rattle.std.specs.Prelude.{◌≡◌, ◌&&◌, [], ◌∷◌, ℕ, suc, ◌+◌, ◌*◌, ◌≤◌, eqb, ltb, length, get_or};
ghost use Rattle.model.specs.Records.{slot_words, conditions_at, hits_at, unshared_at, delivered_at};
ghost use Rattle.model.specs.Slots.{entry_in, entries_in};
ghost use Rattle.model.specs.Transfers.{Transfer, whole, passes_over, deliver_rows};
ghost use Rattle.model.specs.Refusals.{ledger_in};
ghost use Rattle.model.specs.Operations.{deliver};
ghost use Rattle.slots.specs.Layout.{Laid, slot_at};
ghost use Rattle.contents.specs.Lent.{lent};
ghost use Rattle.retain_keep.specs.Stood.{Stood};
ghost use Rattle.transfers.specs.Transfer.{progress_of, start_of, Carried, Ready};
ghost use Rattle.transfers.specs.Handing.{handed, Handed, Lends, Delivered};
ghost use Rattle.transfers.specs.Ends.{delivered_by, transfer_end};

use crate::receiving::{TransferState, answer, receive, start};
use crate::refusing::{refusal, untransferred};
use meter::{Meter, Unpaid};
use model::{
    CONDITIONS_AT, DELIVERED_AT, HITS_AT, Header, LearningLimits, SLOT_WORDS, TransferResult,
    UNSHARED_AT, saturating_add,
};
use retain::Kept;
use retain_keep::put_account;
use tier::{add_hits, share_out};

// Whether a row was delivered and has no hit since.
fn is_shared(row: &[u64]) -> bool
    requires { length row.now ≡ slot_words }
    ensures { result ≡ (eqb (get_or row.now delivered_at 0) 1 && eqb (get_or row.now unshared_at 0) 0) }
{
    row[DELIVERED_AT] == 1 && row[UNSHARED_AT] == 0
}

// Whether a row has more conditions than are shared, and too few hits to be shared all the same.
fn fails_filter(limits: LearningLimits, row: &[u64]) -> bool
    requires { length row.now ≡ slot_words }
    ensures { result
        ≡ (ltb limits.share_conditions (get_or row.now conditions_at 0)
        && ltb (get_or row.now hits_at 0) limits.share_hits) }
{
    limits.share_conditions < row[CONDITIONS_AT] && row[HITS_AT] < limits.share_hits
}

// Whether a row of the tier is passed over.
fn passes_over(limits: LearningLimits, row: &[u64]) -> bool
    requires { Laid row.now }
    ensures { result ≡ passes_over limits (entry_in row.now) }
{
    is_shared(row) || fails_filter(limits, row)
}

// The tier's row at a position is received by the store, with its unshared hits;
// where it is taken, it is delivered and so are its hits, which go to the row that subsumes it.
fn hand_over(
    transfer: &mut TransferState,
    store_slots: &mut [u64],
    store_postings: &mut [u64],
    tier_slots: &mut [u64],
    position: usize,
    limits: LearningLimits,
) -> Result<(), Unpaid>
    requires fact_1 { Ready transfer.old store_slots.old store_postings.old
        (slot_at tier_slots.old position) limits.founded_outputs }
    requires fact_2 { slot_words * position + slot_words ≤ length tier_slots.old }
    ensures { (n c : ℕ) (v : Transfer) → Carried n c whole transfer.old store_slots.old store_postings.old v
        → Handed n (suc c) (progress_of result) transfer.new store_slots.new store_postings.new
        position tier_slots.old tier_slots.new
        (entry_in (slot_at tier_slots.old position))
        (handed limits (entry_in (slot_at tier_slots.old position)) v) }
{
    let a = SLOT_WORDS * position;
    let e = a + SLOT_WORDS;
    let unshared = tier_slots[a + UNSHARED_AT];
    let kept = receive(
        &mut transfer.header,
        store_slots,
        store_postings,
        &tier_slots[a..e],
        limits.founded_outputs,
        unshared,
        &mut transfer.purse,
    )?;
    match kept {
        Kept::Subsumed(at) => add_hits(store_slots, at as usize, unshared),
        Kept::Added(_) => transfer.added += 1,
    }
    share_out(tier_slots, position);
    Ok(())
}

// The tier's row at a position: one tick, then passed over or handed over.
fn deliver_row(
    transfer: &mut TransferState,
    store_slots: &mut [u64],
    store_postings: &mut [u64],
    tier_slots: &mut [u64],
    position: usize,
    limits: LearningLimits,
) -> Result<(), Unpaid>
    requires fact_1 { Ready transfer.old store_slots.old store_postings.old
        (slot_at tier_slots.old position) limits.founded_outputs }
    requires fact_2 { slot_words * position + slot_words ≤ length tier_slots.old }
    ensures { (n c : ℕ) (v : Transfer) → Carried n c whole transfer.old store_slots.old store_postings.old v
        → Handed n (suc c) (progress_of result) transfer.new store_slots.new store_postings.new
        position tier_slots.old tier_slots.new
        (entry_in (slot_at tier_slots.old position))
        (deliver_rows limits (entry_in (slot_at tier_slots.old position) ∷ []) v) }
{
    transfer.purse.meter.tick()?;
    let a = SLOT_WORDS * position;
    let e = a + SLOT_WORDS;
    if passes_over(limits, &tier_slots[a..e]) {
        return Ok(());
    }
    hand_over(
        transfer,
        store_slots,
        store_postings,
        tier_slots,
        position,
        limits,
    )
}

// The rows of a tier in turn, up to one that is not taken for want of reads or ticks.
fn deliver_rows(
    transfer: &mut TransferState,
    tier: Header,
    tier_slots: &mut [u64],
    store_slots: &mut [u64],
    store_postings: &mut [u64],
) -> Result<(), Unpaid>
    requires fact_1 { Lends tier tier_slots.old }
    requires fact_2 { Stood transfer.old.header store_slots.old store_postings.old
        (ledger_in (lent transfer.old.header store_slots.old store_postings.old)) }
    requires fact_3 { tier.limits.atoms ≡ transfer.old.header.limits.atoms }
    requires fact_4 { transfer.old.added ≡ 0 }
    ensures { Delivered tier.limits.atoms tier.rows (progress_of result) transfer.new store_slots.new
        store_postings.new tier_slots.old tier_slots.new
        (entries_in tier.rows tier_slots.old)
        (deliver_rows tier.limits (entries_in tier.rows tier_slots.old)
        (start_of transfer.old store_slots.old store_postings.old)) }
{
    let limits = tier.limits;
    for i in 0..tier.rows as usize {
        deliver_row(transfer, store_slots, store_postings, tier_slots, i, limits)?;
    }
    Ok(())
}

// The result of a delivery that is over: the account goes back to the tier, and the store counts the rows Added.
fn delivered(
    transfer: TransferState,
    end: Result<(), Unpaid>,
    tier: Header,
    work: Meter,
) -> TransferResult
    ensures { result ≡ delivered_by transfer end tier work }
{
    let purse = transfer.purse;
    let header = transfer.header;
    let deliveries = saturating_add(header.deliveries, transfer.added);
    TransferResult {
        answer: Ok(answer(end)),
        tier: put_account(tier, purse.account),
        store: Header {
            deliveries,
            ..header
        },
        meter: purse.meter,
        ticks: purse.meter.made(work),
    }
}

// Delivers a tier's rows to a store: refused for the tier, then the store, by Limits, Lengths or Contents, or by Atoms if they are over
// different numbers; Done, also after a row Declined, or Stopped. The tier's postings are only read.
pub fn deliver(
    tier: Header,
    tier_slots: &mut [u64],
    tier_postings: &[u64],
    store: Header,
    store_slots: &mut [u64],
    store_postings: &mut [u64],
    work: Meter,
) -> TransferResult
    ensures { transfer_end result tier_slots.new tier_postings.now store_slots.new
        store_postings.new
        ≡ (deliver (lent tier tier_slots.old tier_postings.now)
        (lent store store_slots.old store_postings.old) work).seen }
{
    if let Err(refusal) = refusal(
        tier,
        tier_slots,
        tier_postings,
        store,
        store_slots,
        store_postings,
    ) {
        return untransferred(refusal, tier, store, work);
    }
    let mut transfer = start(store, tier.sharing, work);
    let end = deliver_rows(&mut transfer, tier, tier_slots, store_slots, store_postings);
    delivered(transfer, end, tier, work)
}
