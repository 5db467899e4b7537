// The words of a line, which spaces part; decimal numbers from 0 to 2^64 - 1; lists of them.
ghost use Rattle.std.specs.Prelude.{◌≡◌, ◌+◌, ◌-◌, ◌≤◌, min, length, take, drop};

// A list that was read: how many numbers it has, and the place after it.
#[derive(Clone, Copy)]
pub struct Listed {
    pub count: usize,
    pub at: usize,
}

// Line ends become spaces.
pub fn join_lines(s: &mut [u8]) {
    for byte in s.iter_mut() {
        if *byte == b'\n' {
            *byte = b' ';
        }
    }
}

// The first word from `at` on, and the place after it; an empty word stands for none.
pub fn word(s: &[u8], at: usize) -> (&[u8], usize)
    ensures within { result.1 ≤ length s.now }
    ensures behind { min at (length s.now) + length result.0.now ≤ result.1 }
    ensures part { result.0.now ≡ take (length result.0.now) (drop (result.1 - length result.0.now) s.now) }
{
    let Some(rest) = s.get(at..) else {
        return (&[], s.len());
    };
    let from = rest
        .iter()
        .position(|byte| *byte != b' ')
        .unwrap_or(rest.len());
    let rest = &rest[from..];
    let end = rest
        .iter()
        .position(|byte| *byte == b' ')
        .unwrap_or(rest.len());
    (&rest[..end], at + from + end)
}

// Whether no word is left from `at` on.
pub fn ended(s: &[u8], at: usize) -> bool {
    let (word, _) = word(s, at);
    word.is_empty()
}

// The n-th word of a text, the first for 0; an empty one where there are fewer.
pub fn nth(text: &[u8], n: usize) -> &[u8]
    ensures { length result.now ≤ length text.now }
{
    let mut at = 0;
    for _ in 0..n {
        let (_, after) = word(text, at);
        at = after;
    }
    let (word, _) = word(text, at);
    word
}

// Bytes as a number, the first highest; of more than eight the last eight count.
pub fn pack(bytes: &[u8]) -> u64 {
    bytes
        .iter()
        .fold(0, |packed, byte| (packed << 8) | u64::from(*byte))
}

// The digit that a byte is.
fn digit(byte: u8) -> Option<u64> {
    match byte {
        b'0'..=b'9' => Some(u64::from(byte - b'0')),
        _ => None,
    }
}

// The number that a word is; none for an empty word, a byte that is no digit and a number of more than 64 bits. By hand, for `parse` takes
// a sign too.
pub fn value(word: &[u8]) -> Option<u64> {
    if word.is_empty() {
        return None;
    }
    let mut sum: u64 = 0;
    for byte in word {
        let tens = sum.checked_mul(10)?;
        sum = tens.checked_add(digit(*byte)?)?;
    }
    Some(sum)
}

// The number that the next word is, and the place after it.
pub fn number(s: &[u8], at: usize) -> Option<(u64, usize)> {
    let (word, after) = word(s, at);
    Some((value(word)?, after))
}

// As many numbers as there is room for, a word each; the place after them.
pub fn numbers(s: &[u8], at: usize, words: &mut [u64]) -> Option<usize> {
    let mut next = at;
    for word in words.iter_mut() {
        let (n, after) = number(s, next)?;
        *word = n;
        next = after;
    }
    Some(next)
}

// The numbers between the commas of a word, and how many they are.
fn items(word: &[u8], words: &mut [u64]) -> Option<usize> {
    let mut count = 0;
    for (i, item) in word.split(|byte| *byte == b',').enumerate() {
        let n = value(item)?;
        if i < words.len() {
            words[i] = n;
        }
        count = i + 1;
    }
    Some(count)
}

// The list that the next word is: numbers with commas between them, or `-` for none. They are put into `words`, as many as there is
// room for.
pub fn list(s: &[u8], at: usize, words: &mut [u64]) -> Option<Listed> {
    let (word, at) = word(s, at);
    if word == b"-".as_slice() {
        return Some(Listed { count: 0, at });
    }
    let count = items(word, words)?;
    Some(Listed { count, at })
}

// How many numbers of a list that has so many were put into `words`.
pub fn kept(words: &[u64], count: usize) -> usize
    ensures { result ≤ length words.now }
{
    count.min(words.len())
}
