// The program's memory: large arrays on the stack. Each is made by `text::filled`.
use crate::points::Point;
use model::{POSTING_WORDS, SLOT_WORDS};
use wire::HEADER_WORDS;
use words::WORD_BITS;

// How many ledgers a script has, and the rows and the atoms that each has room for.
pub const LEDGERS: usize = 4;

pub const ROWS: u64 = 512;

pub const ATOMS: u64 = 200000;

// The most numbers of a list that is kept whole.
pub const NUMBERS: usize = 65536;

// The words of the slots and of the postings of one ledger.
pub const SLOTS: usize = (ROWS as usize) * SLOT_WORDS;

pub const POSTINGS: usize = (ROWS as usize) * POSTING_WORDS;

// How many atoms can have a name.
const POINTS: usize = 1024;

// The words of a list of a call: a set of atoms, and one more.
const LIST: usize = (ATOMS / WORD_BITS) as usize + 1;

// The words with a bit for each code of those atoms, and for one more.
const LITERALS: usize = (2 * ATOMS / WORD_BITS) as usize + 1;

// The words of one ledger: its header, and slots and postings for all rows that it has room for.
pub type Head = [u64; HEADER_WORDS];

pub type Slots = [u64; SLOTS];

pub type Postings = [u64; POSTINGS];

// The headers, slots and postings of all ledgers.
pub type AllHeads = [Head; LEDGERS];

pub type AllSlots = [Slots; LEDGERS];

pub type AllPostings = [Postings; LEDGERS];

// The atoms that have a name.
pub type Points = [Option<Point>; POINTS];

// The bytes of a line, and of what was read behind it.
pub type Text = [u8; 524288];

// A list of a call: a set of atoms, or codes, more than a row has.
pub type List = [u64; LIST];

// The numbers of a list.
pub type Numbers = [u64; NUMBERS];

// A bit for each code of the atoms that there is room for, and for one more.
pub type Literals = [u64; LITERALS];

// A word for each row, and for each atom, that a ledger has room for.
pub type EachRow = [u64; ROWS as usize];

pub type EachAtom = [u64; ATOMS as usize];
