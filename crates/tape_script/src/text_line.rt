//! A line of printed text, put together piece by piece.

ghost use Rattle.std.specs.Prelude.{◌≡◌, ◌+◌, ◌-◌, ◌≤◌, [], ◌++◌, length, map, take, decimal};
ghost use Rattle.qic_base.specs.DateTerms.{year_of, month_of, day_of, hour_of, minute_of, second_of};
ghost use Rattle.command_spec.specs.Lines.{date_form, date_text, trimmed, name_text};
ghost use Rattle.command_laws.specs.TextTerms.{digit, is_filler, printable};

use itoa::Buffer;
use qic_base::{Name, put_bytes};
use std::marker::Model;

/// The greatest low part of a date word that is a date (Linux ftape headers).
const GREATEST_LOW_PART: u32 = 0x01EA_6DFF;

/// A line of printed text, of at most 160 bytes. Contracts see its bytes.
#[derive(Drop)]
pub struct TextLine {
    bytes: [u8; 160],
    len: usize,
}

impl Model for TextLine {
    ghost use Rattle.std.specs.Prelude.{List, ℕ, take, ◌≤◌};

    ghost Value = { List ℕ };

    ghost view = { λ l. take l.len l.bytes };

    ghost invariant = { λ l. l.len ≤ 160 };
}

fn digit(n: u32) -> u8
    ensures { result ≡ digit n }
{
    b'0' + (n % 10) as u8
}

/// The nineteen bytes of a date word that is a date.
#[tactic(auto, unfolding(command_spec::specs::Lines::date_form))]
fn date_digits(word: u32) -> [u8; 19]
    ensures { result ≡ date_form (year_of word) (month_of word) (day_of word)
        (hour_of word) (minute_of word) (second_of word) }
{
    let low = word % (1 << 25);
    let year = 1970 + word / (1 << 25);
    let month = low / 60 / 60 / 24 / 31 + 1;
    let day = low / 60 / 60 / 24 % 31 + 1;
    let hour = low / 60 / 60 % 24;
    let minute = low / 60 % 60;
    let second = low % 60;
    [
        digit(year / 100 / 10),
        digit(year / 100),
        digit(year / 10),
        digit(year),
        b'-',
        digit(month / 10),
        digit(month),
        b'-',
        digit(day / 10),
        digit(day),
        b'T',
        digit(hour / 10),
        digit(hour),
        b':',
        digit(minute / 10),
        digit(minute),
        b':',
        digit(second / 10),
        digit(second),
    ]
}

fn is_filler(byte: u8) -> bool
    ensures { result ≡ is_filler byte }
{
    byte == 0x20 || byte == 0x00
}

/// How many bytes stand before the filling at the end.
fn trimmed_len(bytes: &[u8]) -> usize
    ensures within { result ≤ length bytes.now }
    ensures trimmed { take result bytes.now ≡ trimmed bytes.now }
{
    let mut len = bytes.len();
    while len > 0 && is_filler(bytes[len - 1]) {
        len -= 1;
    }
    len
}

fn printable(byte: u8) -> u8
    ensures { result ≡ printable byte }
{
    if (0x20..=0x7E).contains(&byte) {
        byte
    } else {
        b'?'
    }
}

fn make_printable(bytes: &mut [u8])
    ensures { bytes.new ≡ map printable bytes.old }
{
    for byte in bytes {
        *byte = printable(*byte);
    }
}

impl TextLine {
    /// The empty line.
    pub fn new() -> TextLine
        ensures { result ≡ [] }
    {
        TextLine {
            bytes: [0; 160],
            len: 0,
        }
    }

    /// The bytes of the line so far.
    pub fn bytes(&self) -> &[u8]
        ensures { result.now ≡ self.now }
    {
        &self.bytes[..self.len]
    }

    /// A text as it stands.
    pub fn push_text(&mut self, text: &[u8])
        requires { length self.old + length text.now ≤ 160 }
        ensures { self.new ≡ self.old ++ text.now }
    {
        put_bytes(&mut self.bytes, self.len, text);
        self.len += text.len();
    }

    /// A number in decimal digits, without leading zeros.
    pub fn push_number(&mut self, n: u64)
        requires { length self.old + 20 ≤ 160 }
        ensures number { self.new ≡ self.old ++ decimal n }
        ensures short { length self.new ≤ length self.old + 20 }
    {
        let mut buffer = Buffer::new();
        self.push_text(buffer.format(n).as_bytes());
    }

    /// The date of a date word, or `?` where it is none.
    #[tactic(auto, unfolding(command_spec::specs::Lines::date_text))]
    pub fn push_date(&mut self, word: u32)
        requires { length self.old + 19 ≤ 160 }
        ensures date { self.new ≡ self.old ++ date_text word }
        ensures short { length self.new ≤ length self.old + 19 }
    {
        if word % (1 << 25) > GREATEST_LOW_PART {
            self.push_text(b"?");
        } else {
            self.push_text(&date_digits(word));
        }
    }

    fn push_padded(&mut self, text: &[u8; 44])
        requires { length self.old + 44 ≤ 160 }
        ensures name { self.new ≡ self.old ++ name_text text.now }
        ensures short { length self.new ≤ length self.old + 44 }
    {
        let mut shown = *text;
        let len = trimmed_len(text);
        make_printable(&mut shown);
        self.push_text(&shown[..len]);
    }

    /// A name without the filling at its end; `?` stands for each byte that a line can't show.
    pub fn push_name(&mut self, name: &Name)
        requires { length self.old + 44 ≤ 160 }
        ensures name { self.new ≡ self.old ++ name_text name.now }
        ensures short { length self.new ≤ length self.old + 44 }
    {
        self.push_padded(name.bytes());
    }
}
