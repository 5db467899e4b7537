// The operation Candidates: the rows of a lent ledger that are to be looked at. It asks nothing of its caller.
#![tactic(auto)]

ghost use Rattle.std.specs.Prelude.{◌≡◌};
ghost use Rattle.model.specs.Operations.{candidates};
ghost use Rattle.contents.specs.Lent.{lent};
ghost use Rattle.postings_search.specs.Ends.{candidates_end};

use contents::accept;
use meter::Meter;
use model::{CandidatesResult, Header};

// The rows to be looked at after the atoms given were decided, ascending in the answer, then zeros: refused by Limits, by Lengths, also if
// the answer is not of tier_rows words, or by Contents; Stopped, and every word of the answer 0; or their count.
pub fn candidates(
    header: Header,
    slots: &[u64],
    postings: &mut [u64],
    atoms: &[u64],
    answer: &mut [u64],
    work: Meter,
) -> CandidatesResult
    ensures { candidates_end result slots.now postings.new answer.new
        ≡ candidates (lent header slots.now postings.old) atoms.now answer.old work }
{
    let others = answer.len() == header.limits.tier_rows as usize;
    if let Err(refusal) = accept(header, slots, postings, others) {
        return CandidatesResult {
            answer: Err(refusal),
            header,
            meter: work,
            ticks: 0,
        };
    }
    let found = postings::candidates(header, slots, postings, atoms, answer, work);
    let given = found.answer;
    let after = found.header;
    let meter = found.meter;
    CandidatesResult {
        answer: Ok(given),
        header: after,
        meter,
        ticks: meter.made(work),
    }
}
