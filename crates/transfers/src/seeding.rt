// Seed: a tier takes the rows of a store.
ghost use Rattle.std.specs.Prelude.{◌≡◌, [], ◌∷◌, ℕ, suc};
ghost use Rattle.model.specs.Slots.{entry_in, entries_in};
ghost use Rattle.model.specs.Transfers.{Transfer, whole, seed_rows, mark_for};
ghost use Rattle.model.specs.Refusals.{ledger_in};
ghost use Rattle.model.specs.Operations.{seed};
ghost use Rattle.slots.specs.Layout.{RowsOver};
ghost use Rattle.contents.specs.Lent.{lent};
ghost use Rattle.retain_keep.specs.Stood.{Stood};
ghost use Rattle.transfers.specs.Transfer.{progress_of, start_of, Carried, Ready};
ghost use Rattle.transfers.specs.Ends.{marked_by, seeded_by, transfer_end};

use crate::receiving::{TransferState, answer, receive, start};
use crate::refusing::{refusal, untransferred};
use meter::{Meter, Unpaid};
use model::{
    BORN_AT, HITS_AT, Header, LearningLimits, Mark, SLOT_WORDS, TransferResult, saturating_add,
};
use retain::Kept;
use retain_keep::put_account;
use tier::mark_delivered;

// The store's row in a slot: ticked past where it was born up to the mark;
// else received with its hits, and marked delivered where it is Added.
fn seed_row(
    transfer: &mut TransferState,
    slots: &mut [u64],
    postings: &mut [u64],
    row: &[u64],
    limits: LearningLimits,
    mark: u64,
) -> Result<(), Unpaid>
    requires { Ready transfer.old slots.old postings.old row.now limits.founded_outputs }
    ensures { (n c : ℕ) (v : Transfer) → Carried n c whole transfer.old slots.old postings.old v
        → Carried n (suc c) (progress_of result) transfer.new slots.new postings.new
        (seed_rows limits mark (entry_in row.now ∷ []) v) }
{
    if row[BORN_AT] <= mark {
        transfer.purse.meter.tick()?;
        return Ok(());
    }
    let kept = receive(
        &mut transfer.header,
        slots,
        postings,
        row,
        limits.founded_outputs,
        row[HITS_AT],
        &mut transfer.purse,
    )?;
    if let Kept::Added(at) = kept {
        mark_delivered(slots, at as usize);
        transfer.added += 1;
    }
    Ok(())
}

// The rows of a store in turn, up to one that is not taken for want of reads or ticks.
fn seed_rows(
    transfer: &mut TransferState,
    slots: &mut [u64],
    postings: &mut [u64],
    given: &[u64],
    rows: usize,
    mark: u64,
) -> Result<(), Unpaid>
    requires fact_1 { Stood transfer.old.header slots.old postings.old
        (ledger_in (lent transfer.old.header slots.old postings.old)) }
    requires fact_2 { RowsOver transfer.old.header.limits.atoms rows given.now }
    requires fact_3 { transfer.old.added ≡ 0 }
    ensures { Carried transfer.old.header.limits.atoms rows (progress_of result) transfer.new slots.new postings.new
        (seed_rows transfer.old.header.limits mark (entries_in rows given.now)
        (start_of transfer.old slots.old postings.old)) }
{
    let limits = transfer.header.limits;
    for i in 0..rows {
        let a = SLOT_WORDS * i;
        let e = a + SLOT_WORDS;
        seed_row(transfer, slots, postings, &given[a..e], limits, mark)?;
    }
    Ok(())
}

// The born of the store's row up to which a tier was seeded: 0 if its mark is none, or another store's.
fn mark_for(number: u64, mark: Option<Mark>) -> u64
    ensures { result ≡ mark_for number mark }
{
    match mark {
        Some(mark) if mark.number == number => mark.born,
        _ => 0,
    }
}

// The tier's header, the mark moved to the store's born if the seeding was whole.
fn mark_moved(end: Result<(), Unpaid>, store: Header, header: Header) -> Header
    ensures { result ≡ marked_by (progress_of end) store header }
{
    match end {
        Ok(()) => {
            let mark = Some(Mark {
                number: store.number,
                born: store.born,
            });
            Header { mark, ..header }
        }
        Err(_) => header,
    }
}

// The result of a seeding that is over: the account goes back to the tier, and the store counts the rows Added.
fn seeded(
    transfer: TransferState,
    end: Result<(), Unpaid>,
    store: Header,
    work: Meter,
) -> TransferResult
    ensures { result ≡ seeded_by transfer end store work }
{
    let purse = transfer.purse;
    let tier = mark_moved(end, store, put_account(transfer.header, purse.account));
    let seeded = saturating_add(store.seeded, transfer.added);
    let store = Header { seeded, ..store };
    TransferResult {
        answer: Ok(answer(end)),
        tier,
        store,
        meter: purse.meter,
        ticks: purse.meter.made(work),
    }
}

// Seeds a tier from a store: refused for the tier, then the store, by Limits, Lengths or Contents, or by Atoms if they are over different
// numbers; Done, also after a row Declined, or Stopped. The store's slices are only read.
pub fn seed(
    tier: Header,
    tier_slots: &mut [u64],
    tier_postings: &mut [u64],
    store: Header,
    store_slots: &[u64],
    store_postings: &[u64],
    work: Meter,
) -> TransferResult
    ensures { transfer_end result tier_slots.new tier_postings.new store_slots.now
        store_postings.now
        ≡ (seed (lent tier tier_slots.old tier_postings.old)
        (lent store store_slots.now store_postings.now) work).seen }
{
    if let Err(refusal) = refusal(
        tier,
        tier_slots,
        tier_postings,
        store,
        store_slots,
        store_postings,
    ) {
        return untransferred(refusal, tier, store, work);
    }
    let upto = mark_for(store.number, tier.mark);
    let rows = store.rows as usize;
    let mut transfer = start(tier, tier.sharing, work);
    let end = seed_rows(
        &mut transfer,
        tier_slots,
        tier_postings,
        store_slots,
        rows,
        upto,
    );
    seeded(transfer, end, store, work)
}
