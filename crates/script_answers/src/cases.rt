// What the words of an answer say where a case has a value: include/ledger.h numbers the cases.
use wire::ANSWER_WORDS;

// How an offer ended, and where the row is that took it in.
#[derive(Clone, Copy, Debug, PartialEq, Eq)]
pub enum Offered {
    Shut,
    Stopped,
    Declined,
    Subsumed(u64),
    Added(u64),
}

impl From<[u64; ANSWER_WORDS]> for Offered {
    fn from(answer: [u64; ANSWER_WORDS]) -> Offered {
        match answer[0] {
            1 => Offered::Shut,
            2 => Offered::Stopped,
            3 => Offered::Declined,
            4 => Offered::Subsumed(answer[1]),
            _ => Offered::Added(answer[1]),
        }
    }
}

// What a row says of a region: for Require the code of the literal, and of the output that is contradicted.
#[derive(Clone, Copy, Debug, PartialEq, Eq)]
pub enum Deduced {
    Nothing,
    Force,
    Stopped,
    Require { code: u64, contradicted: u64 },
}

impl From<[u64; ANSWER_WORDS]> for Deduced {
    fn from(answer: [u64; ANSWER_WORDS]) -> Deduced {
        match answer[0] {
            0 => Deduced::Nothing,
            1 => Deduced::Force,
            2 => Deduced::Stopped,
            _ => Deduced::Require {
                code: answer[1],
                contradicted: answer[3],
            },
        }
    }
}

// What stands behind a cursor: an output, by its code, or nothing.
#[derive(Clone, Copy, Debug, PartialEq, Eq)]
pub enum Output {
    End,
    Code(u64),
    Stopped,
}

impl From<[u64; ANSWER_WORDS]> for Output {
    fn from(answer: [u64; ANSWER_WORDS]) -> Output {
        match answer[0] {
            0 => Output::End,
            1 => Output::Code(answer[1]),
            _ => Output::Stopped,
        }
    }
}

// The code of the output that a closing names, if it names one.
pub fn contradicted(answer: &[u64; ANSWER_WORDS]) -> Option<u64> {
    if answer[1] == 0 {
        return None;
    }
    Some(answer[3])
}
