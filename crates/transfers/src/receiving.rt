// A row read in a transfer: paid for from the tier's sharing account, and retained by the ledger that receives it.
ghost use Rattle.std.specs.Prelude.{◌≡◌, suc, ◌≤◌};
ghost use Rattle.meter.specs.Meter.{pay};
ghost use Rattle.model.specs.Records.{literals, max_outputs};
ghost use Rattle.model.specs.Slots.{row_in};
ghost use Rattle.slots.specs.Layout.{Stored};
ghost use Rattle.contents.specs.Lent.{lent};
ghost use Rattle.contents.specs.Accepted.{Accepted};
ghost use Rattle.retain.specs.Ends.{retain_end};
ghost use Rattle.transfers.specs.Receiving.{received_end, source_of};
ghost use Rattle.transfers.specs.Transfer.{start_by};
ghost use Rattle.transfers.specs.Ends.{answer_of};

use meter::{Account, Meter, Purse, Sharing, Unpaid};
use model::{Header, OUTPUTS_AT, SLOT_WORDS, SOURCE_AT, TransferAnswer, source_of};
use retain::{Kept, retain};
use row_propose::to_literals;

// A transfer under way: the receiver's header, the purse with the tier's sharing account, and how many rows were Added.
#[derive(Clone, Copy)]
pub struct TransferState {
    pub header: Header,
    pub purse: Purse,
    pub added: u64,
}

// A transfer at its start, to be paid from the sharing account given.
pub fn start(header: Header, sharing: Sharing, work: Meter) -> TransferState
    ensures { result ≡ start_by header sharing work }
{
    TransferState {
        header,
        purse: Purse {
            account: Account::Share(sharing),
            meter: work,
        },
        added: 0,
    }
}

// The row in a slot is received, with its own source, so many hits and at most as many outputs as it has or `outputs`:
// one read, one a literal, then `retain`. Subsumed or Added and a position; Declined or Stopped where a read is not paid;
// Declined where the rows are protected.
pub fn receive(
    header: &mut Header,
    slots: &mut [u64],
    postings: &mut [u64],
    row: &[u64],
    outputs: u64,
    hits: u64,
    purse: &mut Purse,
) -> Result<Kept, Unpaid>
    requires fact_1 { Accepted header.old slots.old postings.old }
    requires fact_2 { Stored header.old.limits.atoms row.now }
    requires fact_3 { outputs ≤ max_outputs }
    ensures { retain_end result header.new slots.new postings.new purse.new
        ≡ received_end (lent header.old slots.old postings.old) (source_of row.now)
        (row_in row.now) outputs hits
        (pay (suc (literals (row_in row.now))) purse.old.account purse.old.meter) }
{
    purse.pay()?;
    let mut p = [0u64; SLOT_WORDS];
    to_literals(row, &mut p, purse)?;
    let most = row[OUTPUTS_AT].max(outputs);
    let source = source_of(row[SOURCE_AT]);
    retain(header, slots, postings, &mut p, most, hits, source, purse)
}

// The answer of a transfer that ended so: Done, also after a Declined row, or Stopped.
pub fn answer(end: Result<(), Unpaid>) -> TransferAnswer
    ensures { result ≡ answer_of end }
{
    match end {
        Ok(()) | Err(Unpaid::Declined) => TransferAnswer::Done,
        Err(Unpaid::Stopped) => TransferAnswer::Stopped,
    }
}
