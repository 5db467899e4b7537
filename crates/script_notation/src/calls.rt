// The calls of the script language, and why a line is none.

#[derive(Clone, Copy, Debug, PartialEq, Eq)]
pub enum Call {
    Make,
    Decide,
    Reset,
    Point,
    Seed,
    Deliver,
    Begin,
    Hit,
    Offer,
    Rule,
    Tip,
    Deduce,
    Close,
    Plan,
    Next,
    Candidates,
    Dump,
}

// Why a line is answered by `error LINE`: then nothing was put for it, and no ledger and no name has changed.
#[derive(Clone, Copy, Debug, PartialEq, Eq)]
pub enum LineError {
    // Its first word is no call.
    UnknownCall,
    // The words behind the call are not those that it takes.
    Malformed,
    // There is no such ledger, or it is not made.
    NoLedger,
    // The program has no room for the ledger, the atoms or the name.
    NoRoom,
    // The atom has another name, or the name is another atom's.
    NameTaken,
}

// A call on one ledger: the ledger's number, the line and the place after that number in it.
#[derive(Clone, Copy)]
pub struct Asked<'a> {
    pub call: Call,
    pub index: u64,
    pub line: &'a [u8],
    pub at: usize,
}

// The call that a word names.
pub fn call_of(word: &[u8]) -> Option<Call> {
    match word {
        b"make" => Some(Call::Make),
        b"decide" => Some(Call::Decide),
        b"reset" => Some(Call::Reset),
        b"point" => Some(Call::Point),
        b"seed" => Some(Call::Seed),
        b"deliver" => Some(Call::Deliver),
        b"begin" => Some(Call::Begin),
        b"hit" => Some(Call::Hit),
        b"offer" => Some(Call::Offer),
        b"rule" => Some(Call::Rule),
        b"tip" => Some(Call::Tip),
        b"deduce" => Some(Call::Deduce),
        b"close" => Some(Call::Close),
        b"plan" => Some(Call::Plan),
        b"next" => Some(Call::Next),
        b"candidates" => Some(Call::Candidates),
        b"dump" => Some(Call::Dump),
        _ => None,
    }
}
