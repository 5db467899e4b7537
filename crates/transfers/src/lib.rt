// Transfers: a tier seeded from a store, and a tier's rows delivered to a store.
#![tactic(auto)]

mod delivering;
mod receiving;
mod refusing;
mod seeding;

pub use delivering::deliver;
pub use seeding::seed;
