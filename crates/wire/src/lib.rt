// The words that cross the C boundary: the header, the limits, the meter, the cursor, and the number and value of each answer.
// Words are read whatever they are, and none asks anything of its caller.
#![tactic(auto)]

ghost use Rattle.std.specs.Prelude.{◌≡◌};
ghost use Rattle.wire.specs.Words.{limits_in, mark_words, mark_in, header_words, header_in, meter_words, meter_in, cursor_words};
ghost use Rattle.wire.specs.Words.{cursor_in};
ghost use Rattle.model.specs.Answers.{number_of, replied, refused as refused_by, answered as answered_by, named as named_by, flag_word};
ghost use Rattle.model.specs.Answers.{make_reply, made_header, offer_reply, hit_reply, begin_reply, deduce_reply, next_reply};
ghost use Rattle.model.specs.Answers.{candidates_reply, close_reply};
ghost use Rattle.model.specs.Answers.{contradicted_reply, transfer_reply, deduction_reply, decide_reply};
ghost use Rattle.wire.specs.Replies.{reply_words, close_words, answer_words, made_words};

use meter::{Capture, Meter, Sharing};
use model::{
    CandidatesAnswer, CloseAnswer, DeduceAnswer, Deduction, Header, LearningLimits, Literal, Mark,
    NextAnswer, OfferAnswer, OutputCursor, Refusal, TransferAnswer,
};

// The words of the limits, the header, the meter, the cursor, and an answer.
pub const LIMITS_WORDS: usize = 10;

pub const HEADER_WORDS: usize = 26;

pub const METER_WORDS: usize = 2;

pub const CURSOR_WORDS: usize = 4;

pub const ANSWER_WORDS: usize = 4;

// Where each word of a header stands. The limits are its first ten, in their order.
pub const HEAD_ATOMS_AT: usize = 0;

pub const HEAD_TIER_ROWS_AT: usize = 1;

pub const HEAD_FOUNDED_CONDITIONS_AT: usize = 2;

pub const HEAD_FOUNDED_OUTPUTS_AT: usize = 3;

pub const HEAD_FOUNDED_FLOOR_AT: usize = 4;

pub const HEAD_FOUNDED_ATTEMPTS_AT: usize = 5;

pub const HEAD_FOUNDED_WORK_AT: usize = 6;

pub const HEAD_SHARE_WORK_AT: usize = 7;

pub const HEAD_SHARE_CONDITIONS_AT: usize = 8;

pub const HEAD_SHARE_HITS_AT: usize = 9;

pub const HEAD_NUMBER_AT: usize = 10;

pub const HEAD_ROWS_AT: usize = 11;

pub const HEAD_BORN_AT: usize = 12;

pub const HEAD_EPOCH_AT: usize = 13;

pub const HEAD_ATTEMPTS_AT: usize = 14;

pub const HEAD_REMAINING_AT: usize = 15;

pub const HEAD_SHARING_AT: usize = 16;

pub const HEAD_EVICTED_AT: usize = 17;

pub const HEAD_DELIVERIES_AT: usize = 18;

pub const HEAD_SEEDED_AT: usize = 19;

pub const HEAD_STALE_AT: usize = 20;

pub const HEAD_FULL_AT: usize = 21;

pub const HEAD_MARKED_AT: usize = 22;

pub const HEAD_MARK_NUMBER_AT: usize = 23;

pub const HEAD_MARK_BORN_AT: usize = 24;

pub const HEAD_FOUNDED_AT: usize = 25;

// An answer as numbers: `refusal` is the number of a refusal, or 0; then `case` and `value` say which answer it is, and `contradicted`
// is the code of the output that it names, or 0. 0 in the place of a refusal, and cases by number, are what C is handed.
#[derive(Clone, Copy)]
pub struct ReplyWords {
    pub refusal: u64,
    pub case: u64,
    pub value: u64,
    pub contradicted: u64,
}

// 1 for true, 0 for false.
pub fn flag_word(b: bool) -> u64
    ensures { result ≡ flag_word b }
{
    u64::from(b)
}

// The limits in their words.
pub fn limits_of(words: &[u64; LIMITS_WORDS]) -> LearningLimits
    ensures { result ≡ limits_in words.now }
{
    LearningLimits {
        atoms: words[HEAD_ATOMS_AT],
        tier_rows: words[HEAD_TIER_ROWS_AT],
        founded_conditions: words[HEAD_FOUNDED_CONDITIONS_AT],
        founded_outputs: words[HEAD_FOUNDED_OUTPUTS_AT],
        founded_floor: words[HEAD_FOUNDED_FLOOR_AT],
        founded_attempts: words[HEAD_FOUNDED_ATTEMPTS_AT],
        founded_work: words[HEAD_FOUNDED_WORK_AT],
        share_work: words[HEAD_SHARE_WORK_AT],
        share_conditions: words[HEAD_SHARE_CONDITIONS_AT],
        share_hits: words[HEAD_SHARE_HITS_AT],
    }
}

// The seed mark of three words: none if the first is 0.
pub fn mark_of(set: u64, number: u64, born: u64) -> Option<Mark>
    ensures { result ≡ mark_in set number born }
{
    if set == 0 {
        return None;
    }
    Some(Mark { number, born })
}

// The three words of a seed mark.
pub fn mark_words(mark: Option<Mark>) -> [u64; 3]
    ensures { result ≡ mark_words mark }
{
    match mark {
        None => [0, 0, 0],
        Some(Mark { number, born }) => [1, number, born],
    }
}

// The header in its words.
pub fn header_of(words: &[u64; HEADER_WORDS]) -> Header
    ensures { result ≡ header_in words.now }
{
    let limits = limits_of(&[
        words[HEAD_ATOMS_AT],
        words[HEAD_TIER_ROWS_AT],
        words[HEAD_FOUNDED_CONDITIONS_AT],
        words[HEAD_FOUNDED_OUTPUTS_AT],
        words[HEAD_FOUNDED_FLOOR_AT],
        words[HEAD_FOUNDED_ATTEMPTS_AT],
        words[HEAD_FOUNDED_WORK_AT],
        words[HEAD_SHARE_WORK_AT],
        words[HEAD_SHARE_CONDITIONS_AT],
        words[HEAD_SHARE_HITS_AT],
    ]);
    let mark = mark_of(
        words[HEAD_MARKED_AT],
        words[HEAD_MARK_NUMBER_AT],
        words[HEAD_MARK_BORN_AT],
    );
    Header {
        limits,
        number: words[HEAD_NUMBER_AT],
        rows: words[HEAD_ROWS_AT],
        born: words[HEAD_BORN_AT],
        epoch: words[HEAD_EPOCH_AT],
        attempts: words[HEAD_ATTEMPTS_AT],
        remaining: Capture(words[HEAD_REMAINING_AT]),
        sharing: Sharing(words[HEAD_SHARING_AT]),
        evicted: words[HEAD_EVICTED_AT],
        deliveries: words[HEAD_DELIVERIES_AT],
        seeded: words[HEAD_SEEDED_AT],
        founded: words[HEAD_FOUNDED_AT],
        stale: words[HEAD_STALE_AT] != 0,
        full: words[HEAD_FULL_AT] != 0,
        mark,
    }
}

// Writes a header as words.
pub fn put_header(h: Header, words: &mut [u64; HEADER_WORDS])
    ensures { words.new ≡ header_words h }
{
    let stale = flag_word(h.stale);
    let full = flag_word(h.full);
    let l = h.limits;
    let capture = h.remaining;
    let sharing = h.sharing;
    let mark = h.mark;
    let m = mark_words(mark);
    *words = [
        l.atoms,
        l.tier_rows,
        l.founded_conditions,
        l.founded_outputs,
        l.founded_floor,
        l.founded_attempts,
        l.founded_work,
        l.share_work,
        l.share_conditions,
        l.share_hits,
        h.number,
        h.rows,
        h.born,
        h.epoch,
        h.attempts,
        capture.0,
        sharing.0,
        h.evicted,
        h.deliveries,
        h.seeded,
        stale,
        full,
        m[0],
        m[1],
        m[2],
        h.founded,
    ];
}

// The meter in its words.
pub fn meter_of(words: &[u64; METER_WORDS]) -> Meter
    ensures { result ≡ meter_in words.now }
{
    Meter {
        charged: words[0],
        limit: words[1],
    }
}

// Writes a meter as words.
pub fn put_meter(work: Meter, words: &mut [u64; METER_WORDS])
    ensures { words.new ≡ meter_words work }
{
    *words = [work.charged, work.limit];
}

// The cursor in its words.
pub fn cursor_of(words: &[u64; CURSOR_WORDS]) -> OutputCursor
    ensures { result ≡ cursor_in words.now }
{
    OutputCursor {
        next: words[0],
        word: words[1],
        present: words[2],
        absent: words[3],
    }
}

// Writes a cursor as words.
pub fn put_cursor(cursor: OutputCursor, words: &mut [u64; CURSOR_WORDS])
    ensures { words.new ≡ cursor_words cursor }
{
    *words = [cursor.next, cursor.word, cursor.present, cursor.absent];
}

// Writes an answer that is no refusal: case, value, ticks, and the code of the output that it names.
pub fn put_answer(reply: ReplyWords, ticks: u64, words: &mut [u64; ANSWER_WORDS])
    ensures { words.new ≡ answer_words reply ticks }
{
    *words = [reply.case, reply.value, ticks, reply.contradicted];
}

// Writes the header that was made; a refused Make leaves the words.
pub fn put_made(answer: Result<Header, Refusal>, words: &mut [u64; HEADER_WORDS])
    ensures { words.new ≡ made_words (made_header answer) words.old }
{
    if let Ok(h) = answer {
        put_header(h, words);
    }
}

// ---- The number and the value of each answer.
// A refusal, by its number.
fn refused(refusal: Refusal) -> ReplyWords
    ensures { result ≡ reply_words (refused_by (number_of refusal)) }
{
    ReplyWords {
        refusal: u64::from(refusal),
        case: 0,
        value: 0,
        contradicted: 0,
    }
}

// An answer that is no refusal.
fn answered(case: u64, value: u64) -> ReplyWords
    ensures { result ≡ reply_words (answered_by case value) }
{
    named(case, value, 0)
}

// An answer that names an output.
fn named(case: u64, value: u64, contradicted: u64) -> ReplyWords
    ensures { result ≡ reply_words (named_by case value contradicted) }
{
    ReplyWords {
        refusal: 0,
        case,
        value,
        contradicted,
    }
}

// Refused by a number; 0 for a header made.
pub fn make_reply(a: Result<Header, Refusal>) -> ReplyWords
    ensures { result ≡ reply_words (replied make_reply a) }
{
    match a {
        Ok(_) => answered(0, 0),
        Err(refusal) => refused(refusal),
    }
}

// Refused by a number; 1 Shut, 2 Stopped, 3 Declined, 4 Subsumed and 5 Added with the row's position.
pub fn offer_reply(a: Result<OfferAnswer, Refusal>) -> ReplyWords
    ensures { result ≡ reply_words (replied offer_reply a) }
{
    match a {
        Ok(OfferAnswer::Shut) => answered(1, 0),
        Ok(OfferAnswer::Stopped) => answered(2, 0),
        Ok(OfferAnswer::Declined) => answered(3, 0),
        Ok(OfferAnswer::Subsumed(p)) => answered(4, p),
        Ok(OfferAnswer::Added(p)) => answered(5, p),
        Err(refusal) => refused(refusal),
    }
}

// Hit and Begin. Refused by a number; 0 for done.
pub fn done_reply(a: Result<(), Refusal>) -> ReplyWords
    ensures hit { result ≡ reply_words (replied hit_reply a) }
    ensures begin { result ≡ reply_words (replied begin_reply a) }
{
    match a {
        Ok(()) => answered(0, 0),
        Err(refusal) => refused(refusal),
    }
}

// Refused by a number; 2 Stopped, or the deduction's number.
pub fn deduce_reply(a: Result<DeduceAnswer, Refusal>, d: Deduction) -> ReplyWords
    ensures { result ≡ reply_words (replied (λ x. deduce_reply x d) a) }
{
    match a {
        Ok(DeduceAnswer::Stopped) => answered(2, 0),
        Ok(DeduceAnswer::Done) => deduction_reply(d),
        Err(refusal) => refused(refusal),
    }
}

// 0 Nothing, 1 Force, 3 Require with the code required and the output contradicted.
fn deduction_reply(d: Deduction) -> ReplyWords
    ensures { result ≡ reply_words (deduction_reply d) }
{
    match d {
        Deduction::Nothing => answered(0, 0),
        Deduction::Force => answered(1, 0),
        Deduction::Require {
            required,
            contradicted,
        } => named(3, required.0 as u64, contradicted.0 as u64),
    }
}

// Refused by a number; 0 End, 1 Output with the code, 2 Stopped.
pub fn next_reply(a: Result<NextAnswer, Refusal>) -> ReplyWords
    ensures { result ≡ reply_words (replied next_reply a) }
{
    match a {
        Ok(NextAnswer::Stopped) => answered(2, 0),
        Ok(NextAnswer::End) => answered(0, 0),
        Ok(NextAnswer::Output(l)) => answered(1, l.0 as u64),
        Err(refusal) => refused(refusal),
    }
}

// Refused by a number; 0 with the count, 2 Stopped.
pub fn candidates_reply(a: Result<CandidatesAnswer, Refusal>) -> ReplyWords
    ensures { result ≡ reply_words (replied candidates_reply a) }
{
    match a {
        Ok(CandidatesAnswer::Stopped) => answered(2, 0),
        Ok(CandidatesAnswer::Count(n)) => answered(0, n),
        Err(refusal) => refused(refusal),
    }
}

// Refused by a number; 0 Closed, 1 Conflict, 2 Stopped; the value is 1 if an output is named, and else 0.
pub fn close_reply(a: Result<CloseAnswer, Refusal>, o: Option<Literal>) -> ReplyWords
    ensures { result ≡ close_words (replied close_reply a) (contradicted_reply o) }
{
    match a {
        Ok(CloseAnswer::Stopped) => closed(2, o),
        Ok(CloseAnswer::Conflict) => closed(1, o),
        Ok(CloseAnswer::Closed) => closed(0, o),
        Err(refusal) => refused(refusal),
    }
}

// The end of a closing that was not refused, with the output that it names.
fn closed(case: u64, o: Option<Literal>) -> ReplyWords
    ensures { result ≡ close_words (answered_by case 0) (contradicted_reply o) }
{
    match o {
        None => answered(case, 0),
        Some(l) => named(case, 1, l.0 as u64),
    }
}

// Seed and deliver. Refused by a number; 0 Done, 2 Stopped.
pub fn transfer_reply(a: Result<TransferAnswer, Refusal>) -> ReplyWords
    ensures { result ≡ reply_words (replied transfer_reply a) }
{
    match a {
        Ok(TransferAnswer::Stopped) => answered(2, 0),
        Ok(TransferAnswer::Done) => answered(0, 0),
        Err(refusal) => refused(refusal),
    }
}

// Refused by a number; 0 false, 1 true.
pub fn decide_reply(a: Result<bool, Refusal>) -> ReplyWords
    ensures { result ≡ reply_words (replied decide_reply a) }
{
    match a {
        Ok(b) => answered(flag_word(b), 0),
        Err(refusal) => refused(refusal),
    }
}
