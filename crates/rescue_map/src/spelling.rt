//! The words of a map.

ghost use Rattle.std.specs.Prelude.{◌≡◌, ◌<◌, ◌≤◌, length};
ghost use Rattle.rescue_map.specs.Spelling.{digit_value, digits_word, number_word, is_mark, word_is};

/// A word: none where a line has no more of them; a number below 2^63, and whether it is written in decimal digits; a
/// mark; or anything else.
#[derive(Clone, Copy)]
pub enum Word {
    Missing,
    Number { value: u64, decimal: bool },
    Mark { mark: u8 },
    Other,
}

/// The most bytes of a word.
const LONGEST: usize = 31;

/// The greatest number.
pub const GREATEST: u64 = 0x7FFF_FFFF_FFFF_FFFF;

fn digit_value(byte: u8) -> u8
    ensures { result ≡ digit_value byte }
{
    match byte {
        b'0'..=b'9' => byte - b'0',
        b'A'..=b'F' => byte - b'A' + 10,
        b'a'..=b'f' => byte - b'a' + 10,
        _ => 16,
    }
}

/// The number below 2^63 that the digits are, in a base of 2 to 16.
fn read_digits(digits: &[u8], base: u8, decimal: bool) -> Word
    requires low { 2 ≤ base }
    requires high { base ≤ 16 }
    ensures { result ≡ digits_word decimal base digits.now }
{
    if digits.is_empty() {
        return Word::Other;
    }
    let mut value: u64 = 0;
    for byte in digits {
        let digit = digit_value(*byte);
        if digit >= base || value > (GREATEST - u64::from(digit)) / u64::from(base) {
            return Word::Other;
        }
        value = value * u64::from(base) + u64::from(digit);
    }
    Word::Number { value, decimal }
}

/// The integer constant of C that the word is.
fn read_number(word: &[u8]) -> Word
    requires { 0 < length word.now }
    ensures { result ≡ number_word word.now }
{
    if word[0] != b'0' {
        return read_digits(word, 10, true);
    }
    if word.len() > 1 && (word[1] == b'x' || word[1] == b'X') {
        return read_digits(&word[2..], 16, false);
    }
    read_digits(word, 8, false)
}

fn is_mark(byte: u8) -> bool
    ensures { result ≡ is_mark byte }
{
    matches!(byte, b'?' | b'*' | b'/' | b'-' | b'F' | b'G' | b'+')
}

/// What the bytes of a word are.
pub fn read_word(word: &[u8]) -> Word
    requires { 0 < length word.now }
    ensures { result ≡ word_is word.now }
{
    if word.len() > LONGEST {
        return Word::Other;
    }
    if word.len() == 1 && is_mark(word[0]) {
        return Word::Mark { mark: word[0] };
    }
    read_number(word)
}
