// The calls of the script language on several ledgers or none, each through the function that C calls:
// `make`, `decide`, `seed` and `deliver`. A call reads the line from the place after its name on, and puts the answer line, or says why the
// line is no call.
#![tactic(auto)]

mod deciding;
mod making;
mod transferring;

pub use deciding::decide;
pub use making::make;
pub use transferring::transfer;
