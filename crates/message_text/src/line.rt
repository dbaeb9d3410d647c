//! A line of text, put together piece by piece.

ghost use Rattle.std.specs.Prelude.{◌≡◌, ◌+◌, ◌≤◌, [], ◌++◌, length, decimal, chars};
ghost use Rattle.message_text.specs.Printable.{printed, printed_in};

use crate::printable::push_character;
use itoa::Buffer;
use std::marker::Model;

/// The most bytes of a character as it is printed.
const LONGEST_CHARACTER: usize = 10;

/// A line of text, of at most 512 bytes. Contracts see its bytes.
#[derive(Drop)]
pub struct HintLine {
    bytes: [u8; 512],
    len: usize,
}

impl Model for HintLine {
    ghost use Rattle.std.specs.Prelude.{List, ℕ, take, ◌≤◌};

    ghost Value = { List ℕ };

    ghost view = { λ l. take l.len l.bytes };

    ghost invariant = { λ l. l.len ≤ 512 };
}

impl HintLine {
    /// The empty line.
    pub fn new() -> HintLine
        ensures { result ≡ [] }
    {
        HintLine {
            bytes: [0; 512],
            len: 0,
        }
    }

    /// Its bytes.
    pub fn bytes(&self) -> &[u8]
        ensures { result.now ≡ self.now }
    {
        &self.bytes[..self.len]
    }

    /// How many bytes it has.
    pub fn len(&self) -> usize
        ensures { result ≡ length self.now }
    {
        self.len
    }

    /// A text as it stands.
    pub fn push(&mut self, text: &[u8])
        requires { length self.old + length text.now ≤ 512 }
        ensures { self.new ≡ self.old ++ text.now }
    {
        let end = self.len + text.len();
        self.bytes[self.len..end].copy_from_slice(text);
        self.len = end;
    }

    /// A number in decimal digits, without leading zeros.
    pub fn push_number(&mut self, n: u64)
        requires { length self.old + 20 ≤ 512 }
        ensures number { self.new ≡ self.old ++ decimal n }
        ensures short { length self.new ≤ length self.old + 20 }
    {
        let mut buffer = Buffer::new();
        self.push(buffer.format(n).as_bytes());
    }
}

/// Puts a text of others behind a line, printable: escaped, and cut if it has more than about `room` bytes.
pub fn push_printable(line: &mut HintLine, text: &str, room: usize)
    requires { length line.old + room + 3 ≤ 512 }
    ensures text { line.new ≡ line.old ++ printed room (chars text.now) }
    ensures short { length line.new ≤ length line.old + room + 3 }
{
    push_lines(line, text, room, false);
}

/// Puts a text behind a line in the same way. The ends of its lines stay, if `lines` are to stay.
pub fn push_lines(line: &mut HintLine, text: &str, room: usize, lines: bool)
    requires { length line.old + room + 3 ≤ 512 }
    ensures text { line.new ≡ line.old ++ printed_in lines room (chars text.now) }
    ensures short { length line.new ≤ length line.old + room + 3 }
{
    let end = line.len() + room;
    for c in text.chars() {
        if line.len() + LONGEST_CHARACTER > end {
            line.push(b"...");
            return;
        }
        push_character(line, c, lines);
    }
}
