//! Why a word is none of those that a command has at its place.

ghost use Rattle.std.specs.Prelude.{◌≡◌, ◌↔◌, ℕ, IfNone, IfSome, IsTrue};
ghost use Rattle.command_spec.specs.Command.{IsDateWord, IsNumber, Number, SpellsPart};
ghost use Rattle.qic_base.specs.Field.{IsNameText};
ghost use Rattle.word_hints.specs.Faults.{AreDigits, IsNameFault, IsNumberFault, IsWrittenFault};

use qic_base::Name;
use tape_script::{read_date, read_number};

/// The most bytes of a name.
const LONGEST_NAME: usize = 44;

/// What is wrong with a word.
#[derive(Clone, Copy)]
pub enum WordFault {
    /// It has a byte that is no digit, or none at all.
    NoNumber,
    /// A number is written without leading zeros.
    LeadingZero,
    /// A number has at most nine digits.
    TooManyDigits,
    /// The number is not one of these.
    OutOfRange { least: u32, greatest: u32 },
    /// A name has 1 to 44 bytes.
    NameLength,
    /// A name has bytes 0x20 to 0x7E alone, and begins and ends with no space.
    NameByte,
    /// It is no date, as `1996-02-29T12:00:00` is.
    NoDate,
    /// It is none of the words that may stand there.
    OtherWord,
}

/// Whether a word has decimal digits alone, and some.
fn are_digits(word: &[u8]) -> bool
    ensures { IsTrue result ↔ AreDigits word.now }
{
    !word.is_empty() && word.iter().all(u8::is_ascii_digit)
}

/// What is wrong in the writing of a word that is no number.
fn written_fault(word: &[u8]) -> WordFault
    requires { (n : ℕ) → ¬ (IsNumber word.now n) }
    ensures { IsWrittenFault word.now result }
{
    if !are_digits(word) {
        WordFault::NoNumber
    } else if word[0] == b'0' {
        WordFault::LeadingZero
    } else {
        WordFault::TooManyDigits
    }
}

/// Why a word is no number from `least` to `greatest`; none where it is one.
pub fn number_fault(word: &[u8], least: u32, greatest: u32) -> Option<WordFault>
    ensures fits { IfNone result ((n : ℕ) × SpellsPart word.now (Number least greatest n)) }
    ensures fails { IfSome result (λ fault. (n : ℕ) → ¬ (SpellsPart word.now (Number least greatest n))) }
    ensures why { IfSome result (IsNumberFault word.now least greatest) }
{
    match read_number(word) {
        Some(number) if least <= number && number <= greatest => None,
        Some(_) => Some(WordFault::OutOfRange { least, greatest }),
        None => Some(written_fault(word)),
    }
}

/// Why a word is no name; none where it is one.
pub fn name_fault(word: &[u8]) -> Option<WordFault>
    ensures fits { IfNone result (IsNameText word.now) }
    ensures fails { IfSome result (λ fault. ¬ (IsNameText word.now)) }
    ensures why { IfSome result (IsNameFault word.now) }
{
    if Name::from_text(word).is_some() {
        None
    } else if word.is_empty() || word.len() > LONGEST_NAME {
        Some(WordFault::NameLength)
    } else {
        Some(WordFault::NameByte)
    }
}

/// Why a word is no date; none where it is one.
pub fn date_fault(word: &[u8]) -> Option<WordFault>
    ensures fits { IfNone result ((date : ℕ) × IsDateWord word.now date) }
    ensures fails { IfSome result (λ fault. (date : ℕ) → ¬ (IsDateWord word.now date)) }
    ensures why { IfSome result (λ fault. fault ≡ WordFault.NoDate) }
{
    match read_date(word) {
        Some(_) => None,
        None => Some(WordFault::NoDate),
    }
}
