// Replays recorded calls of the functions for C on raw words, a line a call: every word that was lent is written as it is afterwards.
//
// A line of the input: the name of a function, a word that says what the call is about, then seven lists: the words of the call, as crate
// `calls` has them; slots; postings; and the four further slices. A list is its length and then its words, a run of zeros as 0 and how
// many there are. A line of the output: the first two words again, the refusal or 0, and the seven lists after the call.
#![tactic(auto)]

use calls::{Lent, Operation, WORDS};
use text::{Listed, Writer, filled};

// The function of a name; a word that is none of the names stands for `offer`.
fn named(name: &[u8]) -> Operation {
    match name {
        b"make" => Operation::Make,
        b"begin" => Operation::Begin,
        b"hit" => Operation::Hit,
        b"deduce" => Operation::Deduce,
        b"next_output" => Operation::NextOutput,
        b"decide" => Operation::Decide,
        b"candidates" => Operation::Candidates,
        b"close" => Operation::Close,
        b"seed" => Operation::Seed,
        b"deliver" => Operation::Deliver,
        _ => Operation::Offer,
    }
}

// ---- Lists in.
// A word, how often it stands there, and the place after it.
#[derive(Clone, Copy)]
struct Repeated {
    word: u64,
    times: u64,
    after: usize,
}

fn repeated_at(s: &[u8], at: usize) -> Option<Repeated> {
    let (word, after) = text::number(s, at)?;
    if word != 0 {
        return Some(Repeated {
            word,
            times: 1,
            after,
        });
    }
    let (times, after) = text::number(s, after)?;
    Some(Repeated { word, times, after })
}

// So many words, into a buffer that is all zeros; the place after them.
fn fill(s: &[u8], at: usize, count: u64, buffer: &mut [u64]) -> Option<usize> {
    let mut next = at;
    let mut i: u64 = 0;
    // A while: a turn is a run, which may be more than one word.
    while i < count {
        let run = repeated_at(s, next)?;
        if run.times == 0 || count - i < run.times {
            return None;
        }
        if let Some(word) = buffer.get_mut(i as usize) {
            *word = run.word;
        }
        i += run.times;
        next = run.after;
    }
    Some(next)
}

fn list_at(s: &[u8], at: usize, buffer: &mut [u64]) -> Option<Listed> {
    let (count, first) = text::number(s, at)?;
    let at = fill(s, first, count, buffer)?;
    Some(Listed {
        count: count as usize,
        at,
    })
}

// The list from `at` on, as far as the buffer has room for it, and the place after it. What is no list has no word, and ends the input.
fn words_at<'b>(s: &[u8], at: usize, buffer: &'b mut [u64]) -> (&'b mut [u64], usize) {
    let list = list_at(s, at, buffer).unwrap_or(Listed {
        count: 0,
        at: s.len(),
    });
    let n = buffer.len().min(list.count);
    (&mut buffer[..n], list.at)
}

// ---- Lists out.
fn put_words(out: &mut Writer, words: &[u64]) {
    out.put_field(b" ", words.len() as u64);
    for run in words.chunk_by(|a, b| *a == 0 && *b == 0) {
        match run {
            [] => {}
            [0, ..] => out.put_field(b" 0 ", run.len() as u64),
            [word, ..] => out.put_field(b" ", *word),
        }
    }
}

fn put_lent(out: &mut Writer, lent: &Lent) {
    put_words(out, lent.words);
    put_words(out, lent.slots);
    put_words(out, lent.postings);
    put_words(out, lent.first);
    put_words(out, lent.second);
    put_words(out, lent.third);
    put_words(out, lent.fourth);
}

// ---- A call.
// The call whose lists begin at `at`; the place after them. There is room for the slots and the postings of 67 rows, and for the slots of
// six in any other slice.
fn call_at(operation: Operation, s: &[u8], at: usize, out: &mut Writer) -> usize {
    let mut words = [0u64; WORDS];
    let mut slots: [u64; 11323] = filled(0);
    let mut postings: [u64; 5360] = filled(0);
    let mut first: [u64; 1014] = filled(0);
    let mut second: [u64; 1014] = filled(0);
    let mut third: [u64; 1014] = filled(0);
    let mut fourth: [u64; 1014] = filled(0);
    let (_, at) = words_at(s, at, &mut words);
    let (slots, at) = words_at(s, at, &mut slots);
    let (postings, at) = words_at(s, at, &mut postings);
    let (first, at) = words_at(s, at, &mut first);
    let (second, at) = words_at(s, at, &mut second);
    let (third, at) = words_at(s, at, &mut third);
    let (fourth, at) = words_at(s, at, &mut fourth);
    let mut lent = Lent {
        words: &mut words,
        slots,
        postings,
        first,
        second,
        third,
        fourth,
    };
    let refusal = operation.call(&mut lent);
    out.put_field(b" ", refusal);
    put_lent(out, &lent);
    out.put(b'\n');
    at
}

// The line from `at` on; the place after it.
fn line(s: &[u8], at: usize, out: &mut Writer) -> usize {
    let (name, at) = text::word(s, at);
    let (about, at) = text::word(s, at);
    out.put_text(name);
    out.put(b' ');
    out.put_text(about);
    call_at(named(name), s, at, out)
}

// ---- The input: lines, each of which has a byte at least.
fn run(s: &[u8], out: &mut Writer) {
    let mut at: usize = 0;
    for _ in 0..s.len() {
        if text::ended(s, at) {
            out.flush();
            return;
        }
        at = line(s, at, out);
    }
}

fn main() {
    let mut input: [u8; 524288] = filled(0);
    let mut out = Writer::new();
    let n = io::read_full(0, &mut input);
    text::join_lines(&mut input);
    run(&input[..n], &mut out);
}
