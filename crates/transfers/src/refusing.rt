// What a transfer refuses: either ledger by Limits, Lengths or Contents, the tier first; then by Atoms, ledgers over different numbers of
// atoms.
ghost use Rattle.std.specs.Prelude.{◌≡◌};
ghost use Rattle.model.specs.Operations.{transfer_refusal};
ghost use Rattle.contents.specs.Lent.{lent, refused_by};
ghost use Rattle.transfers.specs.Ends.{untransferred_by};

use contents::accept;
use meter::Meter;
use model::{Header, Refusal, TransferResult};

// The first refusal, if there is one.
pub fn refusal(
    tier: Header,
    tier_slots: &[u64],
    tier_postings: &[u64],
    store: Header,
    store_slots: &[u64],
    store_postings: &[u64],
) -> Result<(), Refusal>
    ensures { refused_by result ≡ transfer_refusal (lent tier tier_slots.now tier_postings.now)
        (lent store store_slots.now store_postings.now) }
{
    accept(tier, tier_slots, tier_postings, true)?;
    accept(store, store_slots, store_postings, true)?;
    if tier.limits.atoms != store.limits.atoms {
        return Err(Refusal::Atoms);
    }
    Ok(())
}

// The result of a transfer that is refused: it changes nothing and costs nothing.
pub fn untransferred(refusal: Refusal, tier: Header, store: Header, work: Meter) -> TransferResult
    ensures { result ≡ untransferred_by refusal tier store work }
{
    TransferResult {
        answer: Err(refusal),
        tier,
        store,
        meter: work,
        ticks: 0,
    }
}
