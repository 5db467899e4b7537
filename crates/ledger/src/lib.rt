// The ledger: everything there is to call, and every type that a call takes or gives. Each operation's contract is one equation over its
// definition in the crate model (specs/Operations.antt) and asks nothing of the caller.
#![tactic(auto)]

pub use close::close;
pub use meter::{Account, Capture, Meter, Sharing};
pub use model::{
    BeginResult, CandidatesAnswer, CandidatesResult, CloseAnswer, CloseResult, DecideResult,
    DeduceAnswer, DeduceResult, Deduction, Header, HitResult, LearningLimits, Literal, MakeResult,
    Mark, NextAnswer, NextResult, OfferAnswer, OfferResult, OutputCursor, Refusal, TransferAnswer,
    TransferResult,
};
pub use offer::offer;
pub use operations::{begin, decide, deduce, hit, make, next_output};
pub use postings_search::candidates;
pub use transfers::{deliver, seed};
