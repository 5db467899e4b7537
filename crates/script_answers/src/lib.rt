// The answer lines of the script language: their parts, rows by their items, and the lines of `dump`.
#![tactic(auto)]

mod cases;
mod decoding;
mod lines;
mod rows;

pub use cases::{Deduced, Offered, Output, contradicted};
pub use lines::{put_call, put_case, put_charge, put_end, put_head, put_refused};
pub use rows::{dump, put_row, put_row_by};

#[cfg(test)]
mod tests;
