// The program `script`: calls of the ledger on standard input, a line each, and an answer line for each on standard output.
// docs/SCRIPT.md has the language.
#![tactic(auto)]

mod dispatch;
mod feed;

use script_notation::ledgers::Memory;
use script_notation::memory::{AllHeads, AllPostings, AllSlots, Points, Text};
use text::{Writer, filled};

fn main(rt: HostRuntime) {
    let mut buf: Text = filled(0);
    let mut heads: AllHeads = filled(filled(0));
    let mut slots: AllSlots = filled(filled(0));
    let mut postings: AllPostings = filled(filled(0));
    let mut points: Points = filled(None);
    let mut out = Writer::new();
    let mut shared = Memory {
        heads: &mut heads,
        slots: &mut slots,
        postings: &mut postings,
        points: &mut points,
    };
    feed::run(rt.stdin(), &mut buf, &mut shared, &mut out);
}
