// The postings of a ledger's rows: their rebuilding, and the search for the rows that have an atom given.
#![tactic(auto)]

mod filling;
mod searching;

pub use filling::rebuild_postings;
pub use searching::{Searched, candidates};
