// The calls of the script language on a single ledger, each through the function that C calls.
// A call is given the line and the ledger's words, and puts the answer line, or says why the line is no call.
#![tactic(auto)]

mod acting;
mod searching;

pub use acting::{act, act_by};
pub use searching::{candidates, next};

#[cfg(test)]
mod tests;
