// The rounds of a closing.
#![tactic(auto)]

ghost use Rattle.std.specs.Prelude.{◌≡◌, [], suc, ◌≤◌, ◌<◌, length, take, IfOk};
ghost use Rattle.lists.specs.Counts.{Each};
ghost use Rattle.words.specs.Region.{region};
ghost use Rattle.model.specs.Closing.{round, decided_since, rounds};
ghost use Rattle.slots.specs.Layout.{rows_in};
ghost use Rattle.close_note.specs.Noting.{Room, Logs, Gathered};
ghost use Rattle.close_publish.specs.Turns.{beside, state, ended_as, ledger_of};
ghost use Rattle.close_publish.specs.Standing.{Standing};
ghost use Rattle.close_rounds.specs.Running.{Running};
ghost use Rattle.close_rounds.specs.Rounds.{state_in, one_round, Under};

use close_note::in_order;
use close_publish::{Closing, Halt};
use meter::Meter;
use model::{CandidatesAnswer, Header, Literal};
use postings::candidates;

// Reads the rows at the positions given, in turn, up to the first that halts. The atoms decided are noted from the first word of `noted`
// on; how many, where all rows were read.
fn round(
    atoms: u64,
    rows: u64,
    slots: &mut [u64],
    positions: &[u64],
    held: &mut [u64],
    cut: &mut [u64],
    noted: &mut [u64],
    contradicted: &mut Option<Literal>,
    meter: &mut Meter,
) -> Result<usize, Halt>
    requires fact_1 { Standing atoms rows (rows_in rows slots.old) slots.old held.old cut.old }
    requires fact_2 { Each (λ p. p < rows) positions.now }
    requires fact_3 { Room atoms 0 noted.old (region held.old cut.old) }
    ensures turn { (h : Header) → ended_as result (state (beside (ledger_of h rows slots.new)
        contradicted.new) held.new cut.new meter.new)
        ≡ round atoms positions.now
        (state (beside (ledger_of h rows slots.old) contradicted.old) held.old cut.old meter.old) }
    ensures stands { Standing atoms rows (rows_in rows slots.old) slots.new held.new
        cut.new }
    ensures logged { IfOk result (λ d. Logs atoms 0 noted.old (region held.old cut.old) d
        noted.new (region held.new cut.new)) }
{
    let mut closing = Closing {
        atoms,
        held,
        cut,
        noted,
        decided: 0,
    };
    for position in positions {
        closing.act(rows, slots, *position as usize, contradicted, meter)?;
    }
    Ok(closing.decided)
}

// One round: the candidates for the atoms in the first `given` words of `noted` are read. If it goes on, the atoms decided in it are the
// first words there, and it says how many. Stopped, before any row is read, if the ticks of the search were not all made.
fn one_round(
    header: &mut Header,
    slots: &mut [u64],
    postings: &mut [u64],
    held: &mut [u64],
    cut: &mut [u64],
    places: &mut [u64],
    noted: &mut [u64],
    given: usize,
    contradicted: &mut Option<Literal>,
    meter: &mut Meter,
) -> Result<usize, Halt>
    requires fact_1 { Running header.old slots.old postings.old held.old cut.old }
    requires fact_2 { header.old.rows ≤ length places.old }
    requires fact_3 { length noted.old ≡ header.old.limits.atoms }
    requires fact_4 { given ≤ length noted.old }
    ensures turn { ended_as result (state_in header.new slots.new held.new cut.new meter.new contradicted.new)
        ≡ one_round header.old.limits.atoms (take given noted.old)
        (state_in header.old slots.old held.old cut.old meter.old contradicted.old) }
    ensures runs { Running header.new slots.new postings.new held.new cut.new }
    ensures under { Under header.old header.new }
    ensures new { IfOk result (λ d. Gathered d noted.new
        (decided_since header.old.limits.atoms (region held.old cut.old) (region held.new cut.new))) }
{
    let atoms = header.limits.atoms;
    let rows = header.rows;
    let found = candidates(*header, slots, postings, &noted[0..given], places, *meter);
    *header = found.header;
    *meter = found.meter;
    let CandidatesAnswer::Count(count) = found.answer else {
        return Err(Halt::Stopped);
    };
    let end = count as usize;
    let decided = round(
        atoms,
        rows,
        slots,
        &places[0..end],
        held,
        cut,
        noted,
        contradicted,
        meter,
    )?;
    in_order(noted, decided, atoms, places);
    Ok(decided)
}

// Rounds, each over the candidates for the atoms decided in the one before, the first for none, up to one that decides nothing, or to the
// first that halts.
pub fn rounds(
    header: &mut Header,
    slots: &mut [u64],
    postings: &mut [u64],
    held: &mut [u64],
    cut: &mut [u64],
    places: &mut [u64],
    noted: &mut [u64],
    contradicted: &mut Option<Literal>,
    meter: &mut Meter,
) -> Result<(), Halt>
    requires fact_1 { Running header.old slots.old postings.old held.old cut.old }
    requires fact_2 { header.old.rows ≤ length places.old }
    requires fact_3 { length noted.old ≡ header.old.limits.atoms }
    ensures turn { ended_as result (state_in header.new slots.new held.new cut.new meter.new contradicted.new)
        ≡ rounds (suc header.old.limits.atoms) header.old.limits.atoms []
        (state_in header.old slots.old held.old cut.old meter.old contradicted.old) }
    ensures runs { Running header.new slots.new postings.new held.new cut.new }
{
    let mut given: usize = 0;
    loop {
        given = one_round(
            header,
            slots,
            postings,
            held,
            cut,
            places,
            noted,
            given,
            contradicted,
            meter,
        )?;
        if given == 0 {
            return Ok(());
        }
    }
}
