// Questions about rows that are paid for read by read: inclusion and subsumption. A read that is not paid ends a question unanswered.
#![tactic(auto)]

ghost use Rattle.std.specs.Prelude.{◌≡◌};
ghost use Rattle.meter.specs.Meter.{pay, judged};
ghost use Rattle.meter.specs.Results.{judged_end};
ghost use Rattle.model.specs.Rows.{includes as includes_of, includes_reads, subsumes as subsumes_of, subsumes_reads};
ghost use Rattle.model.specs.Slots.{row_in};
ghost use Rattle.slots.specs.Cursor.{Sound, list_of};
ghost use Rattle.slots.specs.Layout.{Laid};

use meter::{Purse, Unpaid};
use model::{CONDITIONS_AT, OUTPUTS_AT};
use slots::Side;

// Whether every wanted literal, a side of b, stands among the candidates, a side of a: no at a greater candidate or their end.
// A read is paid before each look at a candidate, also the one that finds the end.
pub fn includes(
    a: &[u64],
    candidates: Side,
    b: &[u64],
    wanted: Side,
    purse: &mut Purse,
) -> Result<bool, Unpaid>
    requires fact_1 { Sound a.now candidates }
    requires fact_2 { Sound b.now wanted }
    ensures { judged_end result purse.new
        ≡ judged (includes_of (list_of a.now candidates) (list_of b.now wanted))
        (pay (includes_reads (list_of a.now candidates) (list_of b.now wanted)) purse.old.account
        purse.old.meter) }
{
    let mut have = slots::start();
    let mut want = slots::start();
    'wanted: while let Some((w, past)) = slots::next(b, wanted, want) {
        want = past;
        loop {
            purse.pay()?;
            let Some((c, past)) = slots::next(a, candidates, have) else {
                return Ok(false);
            };
            have = past;
            if c == w {
                continue 'wanted;
            }
            if w < c {
                return Ok(false);
            }
        }
    }
    Ok(true)
}

// Whether the row in slot r subsumes the row in slot s: r's conditions are among s's, and s's outputs among r's. Both length tests come
// first, unpaid.
pub fn subsumes(r: &[u64], s: &[u64], purse: &mut Purse) -> Result<bool, Unpaid>
    requires fact_1 { Laid r.now }
    requires fact_2 { Laid s.now }
    ensures { judged_end result purse.new
        ≡ judged (subsumes_of (row_in r.now) (row_in s.now))
        (pay (subsumes_reads (row_in r.now) (row_in s.now)) purse.old.account purse.old.meter) }
{
    if s[CONDITIONS_AT] < r[CONDITIONS_AT] {
        return Ok(false);
    }
    if r[OUTPUTS_AT] < s[OUTPUTS_AT] {
        return Ok(false);
    }
    if !includes(s, slots::conditions(s), r, slots::conditions(r), purse)? {
        return Ok(false);
    }
    includes(r, slots::outputs(r), s, slots::outputs(s), purse)
}
