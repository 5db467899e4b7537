// The script language: the calls, lists, regions and named points of a line, and where the words of a ledger lie in the program's arrays.
// docs/SCRIPT.md has the language.
#![tactic(auto)]

pub mod arguments;
pub mod calls;
pub mod ledgers;
pub mod literals;
pub mod memory;
pub mod points;
pub mod regions;
#[cfg(test)]
mod tests;
