// Output: bytes are kept, and written to standard output in large pieces.
ghost use Rattle.std.specs.Prelude.{◌≡◌, ◌≤◌, take};

use crate::reading::word;

const STDOUT: i32 = 1;

const MOST_BYTES: usize = 65536;

// The bytes that were put and are not written yet: they are written when there is room for no more, and by `flush`.
#[derive(Drop)]
pub struct Writer {
    bytes: [u8; MOST_BYTES],
    count: usize,
    ghost within: { count ≤ 65536 },
}

impl Writer {
    pub fn new() -> Writer {
        Writer {
            bytes: io::large_buffer(),
            count: 0,
        }
    }

    // Writes every byte.
    pub fn flush(&mut self)
        ensures { self.new.count ≡ 0 }
    {
        io::write_all(STDOUT, &self.bytes[..self.count]);
        self.count = 0;
    }

    // The bytes that are not written yet.
    pub fn waiting(&self) -> &[u8]
        ensures { result.now ≡ take self.now.count self.now.bytes }
    {
        &self.bytes[..self.count]
    }

    // One byte.
    pub fn put(&mut self, byte: u8) {
        if self.count == MOST_BYTES {
            self.flush();
        }
        self.bytes[self.count] = byte;
        self.count += 1;
    }

    // Every byte of a text.
    pub fn put_text(&mut self, text: &[u8]) {
        for byte in text {
            self.put(*byte);
        }
    }

    // The bytes that a number is made of, the first highest, but for zeros.
    pub fn put_packed(&mut self, packed: u64) {
        for byte in packed.to_be_bytes() {
            if byte != 0 {
                self.put(byte);
            }
        }
    }

    // A number in decimal.
    pub fn put_decimal(&mut self, n: u64) {
        let mut digits = [0u8; 20];
        let k = io::decimal(n, &mut digits);
        self.put_text(&digits[..k]);
    }

    // A number in hexadecimal, lower case, with no prefix.
    pub fn put_hexadecimal(&mut self, n: u64) {
        let mut digits = [0u8; 16];
        let k = io::hex(n, 1, &mut digits);
        self.put_text(&digits[..k]);
    }

    // A text and a number.
    pub fn put_field(&mut self, name: &[u8], n: u64) {
        self.put_text(name);
        self.put_decimal(n);
    }

    // Numbers, each after the name that is its word of a text, and a space before each name.
    pub fn put_fields(&mut self, names: &[u8], numbers: &[u64]) {
        let mut at = 0;
        for n in numbers {
            let (name, after) = word(names, at);
            self.put(b' ');
            self.put_field(name, *n);
            at = after;
        }
    }

    // The comma before an item of a list that is not the first.
    pub fn put_comma(&mut self, later: bool) {
        if later {
            self.put(b',');
        }
    }

    // Numbers with commas between them, or `-` for none.
    pub fn put_list(&mut self, words: &[u64]) {
        if words.is_empty() {
            self.put(b'-');
        }
        for (i, n) in words.iter().enumerate() {
            self.put_comma(0 < i);
            self.put_decimal(*n);
        }
    }
}
