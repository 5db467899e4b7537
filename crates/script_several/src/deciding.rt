// `decide A ATOM VALUE HELD CUT`, VALUE 0 or 1: `decide ANSWER held=LIST cut=LIST`, ANSWER `True` or `False`. An error where the program
// has no room for so many atoms; more than there can be are refused.
use boundary::ledger_decide;
use script_answers::{put_case, put_refused};
use script_notation::calls::LineError;
use script_notation::memory::{ATOMS, List};
use script_notation::points::InOrder;
use script_notation::regions::{put_region_by, read_region};
use text::{Writer, filled};
use wire::ANSWER_WORDS;
use words::MAX_ATOMS;

// Whether there is room for a region over so many atoms, or it is to be refused for their number.
fn has_room(atoms: u64) -> bool {
    atoms <= ATOMS || MAX_ATOMS < atoms
}

pub fn decide(line: &[u8], at: usize, out: &mut Writer) -> Result<(), LineError> {
    let mut given = [0u64; 3];
    let mut held: List = filled(0);
    let mut cut: List = filled(0);
    let mut answer = [0u64; ANSWER_WORDS];
    let at = text::numbers(line, at, &mut given).ok_or(LineError::Malformed)?;
    let [atoms, atom, value] = given;
    let region = read_region(line, at, atoms, &mut held, &mut cut).ok_or(LineError::Malformed)?;
    if 1 < value {
        return Err(LineError::Malformed);
    }
    if !has_room(atoms) {
        return Err(LineError::NoRoom);
    }
    let n = region.first.len();
    let m = region.second.len();
    let held = &mut held[..n];
    let cut = &mut cut[..m];
    let refusal = ledger_decide(&mut answer, atoms, held, cut, atom, value);
    out.put_text(b"decide");
    if refusal != 0 {
        put_refused(out, refusal);
        return Ok(());
    }
    put_case(out, b"False True", &answer);
    put_region_by(out, atoms, held, cut, InOrder(&[]));
    Ok(())
}
