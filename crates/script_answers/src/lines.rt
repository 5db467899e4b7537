// What answer lines share: the call and a ledger's number, a refusal, the answer's case, the charge and the header.
// Each part but the first begins with a space.
use text::{Writer, nth, word};
use wire::{
    ANSWER_WORDS, HEAD_FOUNDED_AT, HEAD_MARK_BORN_AT, HEAD_MARK_NUMBER_AT, HEAD_MARKED_AT,
    HEAD_ROWS_AT, HEADER_WORDS,
};

// The beginning of a line: the call, as it stands in the line that is answered, and a ledger's number.
pub fn put_call(out: &mut Writer, line: &[u8], index: u64) {
    let (call, _) = word(line, 0);
    out.put_text(call);
    out.put_field(b" ", index);
}

// The whole end of a line that refuses, by the number that the function for C gave, which is 0 where it does not.
pub fn put_refused(out: &mut Writer, n: u64) {
    out.put_field(b" Refused ", n);
    out.put_text(b" charge=0");
}

// The answer's case by its name, the word of `names` that it counts. Where the name ends with a colon the answer's value stands for it.
pub fn put_case(out: &mut Writer, names: &[u8], answer: &[u64; ANSWER_WORDS]) {
    out.put(b' ');
    match nth(names, answer[0] as usize) {
        [name @ .., b':'] => {
            out.put_text(name);
            out.put_field(b" ", answer[1]);
        }
        name => out.put_text(name),
    }
}

// The seed mark of a header.
fn put_mark(out: &mut Writer, head: &[u64; HEADER_WORDS]) {
    if head[HEAD_MARKED_AT] == 0 {
        out.put_text(b" mark=none");
        return;
    }
    out.put_field(b" mark=", head[HEAD_MARK_NUMBER_AT]);
    out.put_field(b":", head[HEAD_MARK_BORN_AT]);
}

// The header, but for its limits and its number.
pub fn put_head(out: &mut Writer, head: &[u64; HEADER_WORDS]) {
    let names =
        b"rows= born= epoch= attempts= remaining= sharing= evicted= deliveries= seeded= stale= full=";
    out.put_fields(names, &head[HEAD_ROWS_AT..HEAD_MARKED_AT]);
    put_mark(out, head);
    out.put_field(b" founded=", head[HEAD_FOUNDED_AT]);
}

// The charge.
pub fn put_charge(out: &mut Writer, ticks: u64) {
    out.put_field(b" charge=", ticks);
}

// The end of a line: the charge and the header.
pub fn put_end(out: &mut Writer, ticks: u64, head: &[u64; HEADER_WORDS]) {
    put_charge(out, ticks);
    put_head(out, head);
}
