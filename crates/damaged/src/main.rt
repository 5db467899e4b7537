// Damaged copies of good ledgers: what each function for C refuses them by. The input is good ledgers with all that a call is lent and
// their damaged copies, the output a line a copy; tests/damaged/make.py writes both from document 01 and says how they are laid out.
#![tactic(auto)]

ghost use Rattle.std.specs.Prelude.{◌≡◌, ◌+◌, ◌<◌, ◌≤◌, length};

use calls::{Lent, OPERATIONS, Operation, WORDS};
use text::{Writer, filled};

// Ends the copies of a ledger.
const LAST: u64 = 999;

// What scratch holds before a call: words that are all used.
const USED: u64 = 11;

// The words of a copy: those of the call, the length of each slice, and the slices.
const COPY_WORDS: usize = 1700;

// Where a slice lies in a copy: the place of its length and that of its words, and how many words there is room for.
#[derive(Clone, Copy)]
struct Part {
    length_at: usize,
    at: usize,
    most: usize,
    ghost within: { (length_at < 1700) × (at + most ≤ 1700) },
}

const SLOTS: Part = Part {
    length_at: WORDS,
    at: 290,
    most: 540,
};

const POSTINGS: Part = Part {
    length_at: WORDS + 1,
    at: 830,
    most: 310,
};

const HELD: Part = Part {
    length_at: WORDS + 2,
    at: 190,
    most: 50,
};

const CUT: Part = Part {
    length_at: WORDS + 3,
    at: 240,
    most: 50,
};

const CONDITIONS: Part = Part {
    length_at: WORDS + 4,
    at: 100,
    most: 20,
};

const OUTPUTS: Part = Part {
    length_at: WORDS + 5,
    at: 120,
    most: 70,
};

const GIVEN: Part = Part {
    length_at: WORDS + 6,
    at: 80,
    most: 10,
};

const FOUND: Part = Part {
    length_at: WORDS + 7,
    at: 90,
    most: 10,
};

const STORE_SLOTS: Part = Part {
    length_at: WORDS + 8,
    at: 1140,
    most: 360,
};

const STORE_POSTINGS: Part = Part {
    length_at: WORDS + 9,
    at: 1500,
    most: 200,
};

// Where the lengths of the scratch of a closing stand; its words are in no copy.
const ROW_SCRATCH_LEN_AT: usize = WORDS + 10;

const ATOM_SCRATCH_LEN_AT: usize = WORDS + 11;

// What a call was refused by, 0 for none, as the functions for C answer; and whether it changed a lent word although it refused.
#[derive(Clone, Copy)]
struct Tried {
    refused: u64,
    wrong: bool,
}

// ---- What a call is lent, out of the words of a copy.
impl Part {
    // The words of the slice.
    fn of(self, copy: &[u64; COPY_WORDS]) -> &[u64]
        ensures { length result.now ≤ self.most }
    {
        let n = self.most.min(copy[self.length_at] as usize);
        let from = self.at;
        &copy[from..from + n]
    }

    // The slice, copied into a buffer that has room for it.
    fn lent<'b>(self, copy: &[u64; COPY_WORDS], buffer: &'b mut [u64]) -> &'b mut [u64]
        requires { self.most ≤ length buffer.old }
    {
        let words = self.of(copy);
        let lent = &mut buffer[..words.len()];
        lent.copy_from_slice(words);
        lent
    }
}

// Conditions, the atoms to search for, the store's slots, or held.
fn first_part(operation: Operation) -> Part
    ensures { result.most ≤ 360 }
{
    match operation {
        Operation::Offer => CONDITIONS,
        Operation::Candidates => GIVEN,
        Operation::Seed | Operation::Deliver => STORE_SLOTS,
        _ => HELD,
    }
}

// Outputs, the rows found, the store's postings, or cut.
fn second_part(operation: Operation) -> Part
    ensures { result.most ≤ 200 }
{
    match operation {
        Operation::Offer => OUTPUTS,
        Operation::Candidates => FOUND,
        Operation::Seed | Operation::Deliver => STORE_POSTINGS,
        _ => CUT,
    }
}

// Scratch as long as a copy says, all used.
fn scratch(length: u64, buffer: &mut [u64]) -> &mut [u64] {
    let n = buffer.len().min(length as usize);
    let scratch = &mut buffer[..n];
    scratch.fill(USED);
    scratch
}

// Whether scratch is all used still.
fn is_used(scratch: &[u64]) -> bool {
    scratch.iter().all(|word| *word == USED)
}

// ---- A call on the words of a copy.
// Whether each lent word is as the copy has it.
fn is_kept(operation: Operation, copy: &[u64; COPY_WORDS], lent: &Lent) -> bool {
    &copy[..WORDS] == lent.words.as_slice()
        && SLOTS.of(copy) == &*lent.slots
        && POSTINGS.of(copy) == &*lent.postings
        && first_part(operation).of(copy) == &*lent.first
        && second_part(operation).of(copy) == &*lent.second
        && is_used(lent.third)
        && is_used(lent.fourth)
}

fn attempt(operation: Operation, copy: &[u64; COPY_WORDS]) -> Tried {
    let mut words = [0u64; WORDS];
    words.copy_from_slice(&copy[..WORDS]);
    let mut slots = [0u64; SLOTS.most];
    let mut postings = [0u64; POSTINGS.most];
    let mut first = [0u64; STORE_SLOTS.most];
    let mut second = [0u64; STORE_POSTINGS.most];
    let mut rows = [0u64; 10];
    let mut atoms: [u64; 3210] = filled(0);
    let mut lent = Lent {
        words: &mut words,
        slots: SLOTS.lent(copy, &mut slots),
        postings: POSTINGS.lent(copy, &mut postings),
        first: first_part(operation).lent(copy, &mut first),
        second: second_part(operation).lent(copy, &mut second),
        third: scratch(copy[ROW_SCRATCH_LEN_AT], &mut rows),
        fourth: scratch(copy[ATOM_SCRATCH_LEN_AT], &mut atoms),
    };
    let refused = operation.call(&mut lent);
    Tried {
        refused,
        wrong: refused != 0 && !is_kept(operation, copy, &lent),
    }
}

// The line of one copy: what each function in turn refuses it by, and whether one changed a word although it refused.
fn try_all(copy: &[u64; COPY_WORDS], out: &mut Writer) {
    let mut wrong = false;
    for operation in OPERATIONS {
        let t = attempt(operation, copy);
        out.put_decimal(t.refused);
        wrong |= t.wrong;
    }
    out.put_decimal(u64::from(wrong));
    out.put(b'\n');
}

// ---- The input. What is no number ends it.
// So many changes, each an index and a value; the place after them.
fn change(s: &[u8], at: usize, changes: u64, copy: &mut [u64; COPY_WORDS]) -> Option<usize> {
    let mut next = at;
    for _ in 0..changes {
        let (index, middle) = text::number(s, next)?;
        let (value, after) = text::number(s, middle)?;
        if let Some(word) = copy.get_mut(index as usize) {
            *word = value;
        }
        next = after;
    }
    Some(next)
}

// The copies of one ledger; the place after them. Each has a byte at least, which the check does not know: so the turns are bounded by the
// bytes of the input.
fn copies(s: &[u8], at: usize, good: &[u64; COPY_WORDS], out: &mut Writer) -> Option<usize> {
    let mut next = at;
    for _ in 0..s.len() {
        let (changes, first) = text::number(s, next)?;
        if changes == LAST {
            out.flush();
            return Some(first);
        }
        let mut copy = *good;
        next = change(s, first, changes, &mut copy).unwrap_or(s.len());
        try_all(&copy, out);
    }
    None
}

// The ledgers, each of which has a byte at least: the turns are bounded as those of `copies` are.
fn run(s: &[u8], out: &mut Writer) -> Option<()> {
    let mut at: usize = 0;
    for _ in 0..s.len() {
        let mut good = [0u64; COPY_WORDS];
        let first = text::numbers(s, at, &mut good)?;
        at = copies(s, first, &good, out)?;
    }
    Some(())
}

fn main() {
    let mut input: [u8; 524288] = filled(0);
    let mut out = Writer::new();
    let n = io::read_full(0, &mut input);
    text::join_lines(&mut input);
    run(&input[..n], &mut out);
}
