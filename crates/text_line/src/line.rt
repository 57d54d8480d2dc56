//! A line of text in an array.
ghost use Rattle.std.specs.Prelude.{◌≡◌, ℕ, ◌+◌, ◌≤◌, ◌%◌, false, List, [], ◌++◌, length, decimal};
ghost use Rattle.std.specs.Fmt.{digit_glyph};
ghost use Rattle.analysis_model.specs.Report.{line, hexadecimal};

use arrayvec::ArrayVec;
use itoa::Buffer;
use std::marker::Model;

/// The bytes of one line, from its start on: at most 128, in the value itself, so that no call takes memory.
#[derive(Drop)]
pub struct Line {
    bytes: ArrayVec<u8, 128>,
}

impl Model for Line {
    ghost use Rattle.std.specs.Prelude.{ℕ, List};

    ghost Value = { List ℕ };

    ghost view = { λ l. l.bytes.items };
}

impl Line {
    /// An empty line.
    pub fn new() -> Line
        ensures { result ≡ [] }
    {
        Line {
            bytes: ArrayVec::new(),
        }
    }

    /// The line with a text added.
    pub fn text(mut self, text: &str) -> Line
        requires { length self + length text.now ≤ 128 }
        ensures text { result ≡ self ++ text.now }
        ensures size { length result ≡ length self + length text.now }
    {
        self.add(text.as_bytes());
        self
    }

    /// The line with a number added in decimal digits, at most 20.
    pub fn number(mut self, number: u64) -> Line
        requires { length self + 20 ≤ 128 }
        ensures text { result ≡ self ++ decimal number }
        ensures size { length result ≤ length self + 20 }
    {
        let mut buffer = Buffer::new();
        self.add(buffer.format(number).as_bytes());
        self
    }

    /// The line with a number added as eight hexadecimal digits, in lower case.
    pub fn hexadecimal(mut self, number: u32) -> Line
        requires { length self + 8 ≤ 128 }
        ensures text { result ≡ self ++ hexadecimal number }
        ensures size { length result ≡ length self + 8 }
    {
        let digits = [
            last_digit(number >> 28),
            last_digit(number >> 24),
            last_digit(number >> 20),
            last_digit(number >> 16),
            last_digit(number >> 12),
            last_digit(number >> 8),
            last_digit(number >> 4),
            last_digit(number),
        ];
        self.add(&digits);
        self
    }

    /// The line with a line feed added.
    pub fn with_line_feed(mut self) -> Line
        requires { length self + 1 ≤ 128 }
        ensures { result ≡ line self }
    {
        self.bytes.push(b'\n');
        self
    }

    /// The bytes of the line so far.
    pub fn as_bytes(&self) -> &[u8]
        ensures { result.now ≡ self.now }
    {
        self.bytes.as_slice()
    }

    // Adds bytes. The callers see to the room, so that they always fit.
    fn add(&mut self, bytes: &[u8])
        requires { length self.old + length bytes.now ≤ 128 }
        ensures { self.new ≡ self.old ++ bytes.now }
    {
        match self.bytes.try_extend_from_slice(bytes) {
            Ok(()) => {}
            Err(_) => {}
        }
    }
}

// The last hexadecimal digit of a number, in lower case.
fn last_digit(number: u32) -> u8
    ensures { result ≡ digit_glyph false (number % 16) }
{
    let digit = (number % 16) as u8;
    if digit < 10 {
        b'0' + digit
    } else {
        b'a' + (digit - 10)
    }
}
