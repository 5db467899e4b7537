// One row read in a closing: its deduction, what is decided by it, its hit, and the output that it names.
#![tactic(auto)]

ghost use Rattle.std.specs.Prelude.{◌≡◌, suc, ◌<◌, length};
ghost use Rattle.meter.specs.declared.Meter.{Meter};
ghost use Rattle.meter.specs.Meter.{ticks};
ghost use Rattle.model.specs.declared.Header.{Header};
ghost use Rattle.model.specs.Slots.{row_in};
ghost use Rattle.model.specs.Deduction.{deduction, deduction_ticks, next_output, start_cursor};
ghost use Rattle.model.specs.Closing.{decide_on, publish, follow, naming, act};
ghost use Rattle.slots.specs.Layout.{Stored, rows_in, Held, output_side};
ghost use Rattle.row_deduce.specs.Chunks.{Matched};
ghost use Rattle.row_deduce.specs.Publication.{Pointed, published_as};
ghost use Rattle.row_deduce.specs.Walks.{walked, once};
ghost use Rattle.close_publish.specs.Turns.{Beside, beside, ended_as, earned_by, halt_of, ledger_of};
ghost use Rattle.close_publish.specs.Standing.{Standing};
ghost use Rattle.close_publish.specs.Closed.{region_of, state_of, Closes, Goes, Decides};

use close_note::note;
use meter::{Meter, Stopped};
use model::{Deduction, Literal, OutputCursor, SLOT_WORDS};
use row_deduce::{deduction, next_of_side};
use slots::Side;
use tier::hit;
use words::{Marking, decide_literal};

// The cursor before the first output of a row.
const START: OutputCursor = OutputCursor {
    next: 0,
    word: 0,
    present: 0,
    absent: 0,
};

// Why a closing does not go on: a decision was false, or a tick was not made.
#[derive(Clone, Copy, Debug, PartialEq, Eq)]
pub enum Halt {
    Conflict,
    Stopped,
}

impl From<Stopped> for Halt {
    ghost from_gives = { λ _ e. e ≡ halt_of };

    fn from(_stopped: Stopped) -> Halt {
        Halt::Stopped
    }
}

// The contradicted output that a closing hands on after a deduction that it acted on: that of a Require, else the one before.
fn named(said: Deduction, before: Option<Literal>) -> Option<Literal>
    ensures { result ≡ naming said before }
{
    match said {
        Deduction::Nothing => before,
        Deduction::Force => before,
        Deduction::Require {
            required: _,
            contradicted,
        } => Some(contradicted),
    }
}

// Whether a reading earned a hit: it ended in a Conflict, or an atom was decided, so that more are noted than the `before`.
fn earned(read: Result<(), Halt>, before: usize, decided: usize) -> bool
    ensures { result ≡ earned_by read before decided }
{
    match read {
        Ok(_) => before < decided,
        Err(Halt::Conflict) => true, // also if nothing was decided
        Err(Halt::Stopped) => before < decided, // what was decided before the stop
    }
}

// A region that is being closed, by its two sets of words: its atoms, and those decided in this round, noted as they came.
#[derive(Drop)]
pub struct Closing<'a> {
    pub atoms: u64,
    pub held: &'a mut [u64],
    pub cut: &'a mut [u64],
    pub noted: &'a mut [u64],
    pub decided: usize,
}

impl Closing<'_> {
    // What a row says of the region.
    fn deduced(&self, slot: &[u64], meter: &mut Meter) -> Result<Deduction, Stopped>
        requires { Matched slot.now self.now.held.now self.now.cut.now }
        ensures { walked result meter.new
            ≡ once (deduction (region_of self.now) (row_in slot.now))
            (ticks (deduction_ticks (region_of self.now) (row_in slot.now)) meter.old) }
    {
        deduction(slot, self.held, self.cut, meter)
    }

    // The next output that a row publishes in the region.
    fn next_output(
        &self,
        slot: &[u64],
        side: Side,
        cursor: &mut OutputCursor,
        meter: &mut Meter,
    ) -> Result<Option<Literal>, Stopped>
        requires fact_1 { Matched slot.now self.now.held.now self.now.cut.now }
        requires fact_2 { Pointed (row_in slot.now) cursor.old }
        requires fact_3 { side ≡ output_side slot.now }
        ensures { published_as result cursor.new meter.new
            ≡ next_output (region_of self.now) (row_in slot.now) cursor.old meter.old }
    {
        next_of_side(slot, side, cursor, self.held, self.cut, meter)
    }

    // Decides a literal, and notes its atom if that is decided anew. Conflict, and no region changed, if it is out of range or its opposite
    // is marked.
    fn decide_on(&mut self, literal: u64) -> Result<(), Halt>
        requires { Closes self.old }
        ensures turn { (l : Beside) (m : Meter) → ended_as result (state_of l self.new m)
            ≡ decide_on self.old.atoms literal (state_of l self.old m) }
        ensures decides { Decides self.old self.new }
        ensures goes { Goes self.old self.new }
    {
        let marking = decide_literal(self.atoms, self.held, self.cut, literal);
        if let Marking::False = marking {
            return Err(Halt::Conflict);
        }
        // from here on without a branch: which of the literals are decided anew is not foreseen
        self.decided = note(self.noted, self.decided, literal / 2, marking);
        Ok(())
    }

    // Decides each output that a row publishes. Conflict at the first false decision, Stopped at the first tick that was not made; what was
    // decided before stays.
    fn publish(&mut self, slot: &[u64], meter: &mut Meter) -> Result<(), Halt>
        requires fact_1 { Stored self.old.atoms slot.now }
        requires fact_2 { Closes self.old }
        ensures turn { (l : Beside) → ended_as result (state_of l self.new meter.new)
            ≡ publish (suc (length (row_in slot.now).outputs)) self.old.atoms (row_in slot.now) start_cursor
            (state_of l self.old meter.old) }
        ensures decides { Decides self.old self.new }
        ensures goes { Goes self.old self.new }
    {
        let mut cursor = START;
        let side = slots::outputs(slot);
        while let Some(literal) = self.next_output(slot, side, &mut cursor, meter)? {
            self.decide_on(literal.0 as u64)?;
        }
        Ok(())
    }

    // Decides what a deduction says: the literal required, or each output published.
    fn follow(&mut self, slot: &[u64], said: Deduction, meter: &mut Meter) -> Result<(), Halt>
        requires fact_1 { Stored self.old.atoms slot.now }
        requires fact_2 { Closes self.old }
        ensures turn { (l : Beside) → ended_as result (state_of l self.new meter.new)
            ≡ follow self.old.atoms (row_in slot.now) said (state_of l self.old meter.old) }
        ensures decides { Decides self.old self.new }
        ensures goes { Goes self.old self.new }
    {
        match said {
            Deduction::Nothing => Ok(()),
            Deduction::Force => self.publish(slot, meter),
            Deduction::Require {
                required,
                contradicted: _,
            } => self.decide_on(required.0 as u64),
        }
    }

    // Reads the row at a position. Nothing changes if nothing follows; else what the row says is decided, and then one hit is counted if
    // that decided an atom or ended in Conflict. Stopped, and nothing changed but the meter, if the deduction's ticks were not all made.
    // The contradicted output of a Require is handed on, and else the one before stays.
    pub fn act(
        &mut self,
        rows: u64,
        slots: &mut [u64],
        position: usize,
        contradicted: &mut Option<Literal>,
        meter: &mut Meter,
    ) -> Result<(), Halt>
        requires fact_1 { Held self.old.atoms rows slots.old }
        requires fact_2 { position < rows }
        requires fact_3 { Closes self.old }
        ensures turn { (h : Header) → ended_as result (state_of (beside (ledger_of h rows slots.new)
            contradicted.new) self.new meter.new)
            ≡ act self.old.atoms position
            (state_of (beside (ledger_of h rows slots.old) contradicted.old) self.old meter.old) }
        ensures stands { Standing self.old.atoms rows (rows_in rows slots.old) slots.new
            self.new.held.now self.new.cut.now }
        ensures goes { Goes self.old self.new }
    {
        let a = SLOT_WORDS * position;
        let e = a + SLOT_WORDS;
        let said = self.deduced(&slots[a..e], meter)?;
        if let Deduction::Nothing = said {
            return Ok(());
        }
        let before = self.decided;
        let read = self.follow(&slots[a..e], said, meter);
        if earned(read, before, self.decided) {
            hit(slots, position);
        }
        *contradicted = named(said, *contradicted);
        read
    }
}
