// What a retention leaves: a ledger that is accepted again, and its header with the account that was paid from. The laws stand in proofs/.
#![tactic(auto)]

ghost use Rattle.std.specs.Prelude.{◌≡◌};
ghost use Rattle.model.specs.Records.{with_account};

use meter::Account;
use model::Header;

// The header with an account back in its own place.
pub fn put_account(header: Header, account: Account) -> Header
    ensures { result ≡ with_account header account }
{
    match account {
        Account::Remaining(remaining) => Header {
            remaining,
            ..header
        },
        Account::Share(sharing) => Header { sharing, ..header },
    }
}
