// The text that `listrun` prints: a line for each answer of a run, and a last line. What does not fit the buffer is
// left out, and counted.
#![tactic(auto)]

ghost use Rattle.std.specs.Prelude.{◌≡◌, [], ◌∷◌, ◌+◌, ◌*◌, ◌≤◌, ◌<◌, length, take, drop, MatchOption};
ghost use Rattle.io.specs.Digits.{hex_digit_ascii};
ghost use Rattle.listing.specs.Listing.{
  hex_text,
  decimal_text,
  bytes_text,
  value_text,
  answer_line,
  answer_lines,
  end_line,
  listing_of,
  with_text,
  length_at,
};
ghost use Rattle.listing.specs.CodePuts.{Counted, Put};

use wide::fields;

// The first record of some bytes, tag, length and value, and the bytes behind it; none where no whole record begins
// the bytes.
pub fn first_record(bytes: &[u8]) -> Option<(&[u8], &[u8])>
    ensures { MatchOption result (length bytes.now < 3 + length_at bytes.now)
        (λ r. (3 + length_at bytes.now ≤ length bytes.now)
        × (r.0.now ≡ take (3 + length_at bytes.now) bytes.now)
        × (r.1.now ≡ drop (3 + length_at bytes.now) bytes.now)) }
{
    if bytes.len() < format::HEADER_LENGTH {
        return None;
    }
    let size = fields::get(bytes, 1, 2) as usize;
    bytes.split_at_checked(format::HEADER_LENGTH + size)
}

// The character of a hexadecimal digit.
fn hex_digit(d: u8) -> u8
    requires { d < 16 }
    ensures { result ≡ hex_digit_ascii d }
{
    if d < 10 { b'0' + d } else { b'a' - 10 + d }
}

// A buffer, and the index at which the next byte goes, which may be past the buffer's end.
#[derive(Drop)]
struct Text<'a> {
    buf: &'a mut [u8],
    at: usize,
}

impl<'a> Text<'a> {
    // Puts a byte.
    fn put(&mut self, byte: u8)
        requires { Counted (byte ∷ []) self.old.at }
        ensures { Put (byte ∷ []) self.old self.new }
    {
        if self.at < self.buf.len() {
            self.buf[self.at] = byte;
        }
        self.at += 1;
    }

    // Puts bytes as they are.
    fn put_all(&mut self, bytes: &[u8])
        requires { Counted bytes.now self.old.at }
        ensures { Put bytes.now self.old self.new }
    {
        for &byte in bytes {
            self.put(byte);
        }
    }

    // Puts a number's decimal digits, of which there are at most twenty.
    #[tactic(auto, using(crate::proofs::Numbers::decimal_is))]
    fn put_decimal(&mut self, n: u64)
        requires { Counted (decimal_text n) self.old.at }
        ensures { Put (decimal_text n) self.old self.new }
    {
        let mut digits = [0u8; 20];
        let k = io::decimal(n, &mut digits);
        self.put_all(&digits[..k]);
    }

    // Puts the two hexadecimal digits of a byte.
    fn put_hex(&mut self, byte: u8)
        requires { Counted (hex_text byte) self.old.at }
        ensures { Put (hex_text byte) self.old self.new }
    {
        self.put(hex_digit(byte / 16));
        self.put(hex_digit(byte % 16));
    }

    // Puts the hexadecimal digits of some bytes.
    fn put_bytes(&mut self, bytes: &[u8])
        requires { Counted (bytes_text bytes.now) self.old.at }
        ensures { Put (bytes_text bytes.now) self.old self.new }
    {
        for &byte in bytes {
            self.put_hex(byte);
        }
    }

    // Puts an answer's value, `-` where it is empty.
    #[tactic(auto, using(crate::proofs::Lines::value_none, crate::proofs::Lines::value_some), unfolding(crate::specs::Listing::ascii))]
    fn put_value(&mut self, value: &[u8])
        requires { Counted (value_text value.now) self.old.at }
        ensures { Put (value_text value.now) self.old self.new }
    {
        if value.is_empty() {
            self.put(b'-');
        } else {
            self.put_bytes(value);
        }
    }

    // Puts the line of an answer.
    #[tactic(auto, using(crate::proofs::Puts::texts), unfolding(crate::specs::Listing::answer_line, crate::specs::Listing::ascii))]
    fn put_line(&mut self, tag: u8, value: &[u8])
        requires { Counted (answer_line tag value.now) self.old.at }
        ensures { Put (answer_line tag value.now) self.old self.new }
    {
        self.put_hex(tag);
        self.put(b' ');
        self.put_value(value);
        self.put(b'\n');
    }

    // Puts the lines of the answers, one after another. Bytes that are no whole answer end them.
    fn put_answers(&mut self, answers: &[u8])
        requires { Counted (answer_lines answers.now) self.old.at }
        ensures { Put (answer_lines answers.now) self.old self.new }
    {
        let mut left = answers;
        while let Some((record, rest)) = first_record(left) {
            self.put_line(record[0], &record[format::HEADER_LENGTH..]);
            left = rest;
        }
    }

    // Puts the last line.
    #[tactic(auto, using(crate::proofs::Puts::texts), unfolding(crate::specs::Listing::end_line, crate::specs::Listing::ascii))]
    fn put_end(&mut self, calls: usize, refusal: u8, used: usize)
        requires { Counted (end_line calls refusal used) self.old.at }
        ensures { Put (end_line calls refusal used) self.old self.new }
    {
        self.put_all(b"end ");
        self.put_decimal(calls as u64);
        self.put(b' ');
        self.put_decimal(u64::from(refusal));
        self.put(b' ');
        self.put_decimal(used as u64);
        self.put(b'\n');
    }
}

// Writes words at the start of a buffer, as much of them as fits, and gives their length.
#[tactic(auto, using(crate::proofs::Puts::put_text))]
pub fn put_text(words: &[u8], text: &mut [u8]) -> usize
    ensures value { result ≡ length words.now }
    ensures text_after { text.new ≡ with_text words.now text.old }
{
    let mut out = Text { buf: text, at: 0 };
    out.put_all(words);
    out.at
}

// Writes the listing of a run's answers and of its end at the start of a buffer, as much of it as fits, and gives the
// listing's length.
pub fn listing(answers: &[u8], calls: usize, refusal: u8, used: usize, text: &mut [u8]) -> usize
    ensures value { result ≡ length (listing_of answers.now calls refusal used) }
    ensures text_after { text.new
        ≡ with_text (listing_of answers.now calls refusal used) text.old }
    ensures upper_bound { result ≤ 2 * length answers.now + 67 }
{
    let mut out = Text { buf: text, at: 0 };
    out.put_answers(answers);
    out.put_end(calls, refusal, used);
    out.at
}
