//! Dates in words: `YYYY-MM-DDTHH:MM:SS`, all digits written.

ghost use Rattle.std.specs.Prelude.{◌≡◌, ℕ, ◌+◌, ◌/◌, ◌<◌, ◌≤◌, ◌↔◌, IsTrue, MatchOption, length, slice_index};
ghost use Rattle.command_spec.specs.Command.{IsDateWord};
ghost use Rattle.command_laws.specs.TextTerms.{digit};

use qic_base::stamp;

const LENGTH: usize = 19;

/// The number that two bytes are as two digits.
fn read_pair(tens: u8, ones: u8) -> Option<u8>
    ensures { MatchOption result
        ((n : ℕ) → n < 100 → tens ≡ digit (n / 10) → ones ≡ digit n → ⊥)
        (λ n. (n < 100) × (tens ≡ digit (n / 10)) × (ones ≡ digit n)) }
{
    if tens.is_ascii_digit() && ones.is_ascii_digit() {
        Some(10 * (tens - b'0') + (ones - b'0'))
    } else {
        None
    }
}

fn read_pair_at(word: &[u8], at: usize) -> Option<u8>
    requires { at + 2 ≤ length word.now }
    ensures { MatchOption result
        ((n : ℕ) → n < 100 → slice_index word.now at ≡ digit (n / 10) →
        slice_index word.now (at + 1) ≡ digit n → ⊥)
        (λ n. (n < 100) × (slice_index word.now at ≡ digit (n / 10))
        × (slice_index word.now (at + 1) ≡ digit n)) }
{
    read_pair(word[at], word[at + 1])
}

fn has_dashes(word: &[u8]) -> bool
    requires { 8 ≤ length word.now }
    ensures { IsTrue result ↔ ((slice_index word.now 4 ≡ 45) × (slice_index word.now 7 ≡ 45)) }
{
    word[4] == b'-' && word[7] == b'-'
}

fn has_time_marks(word: &[u8]) -> bool
    requires { 17 ≤ length word.now }
    ensures { IsTrue result ↔ ((slice_index word.now 10 ≡ 84) × (slice_index word.now 13 ≡ 58)
        × (slice_index word.now 16 ≡ 58)) }
{
    word[10] == b'T' && word[13] == b':' && word[16] == b':'
}

fn is_parted(word: &[u8]) -> bool
    requires { 17 ≤ length word.now }
    ensures { IsTrue result ↔ ((slice_index word.now 4 ≡ 45) × (slice_index word.now 7 ≡ 45)
        × (slice_index word.now 10 ≡ 84) × (slice_index word.now 13 ≡ 58)
        × (slice_index word.now 16 ≡ 58)) }
{
    has_dashes(word) && has_time_marks(word)
}

/// The date word of the date that the word is, if it is one.
pub fn read_date(word: &[u8]) -> Option<u32>
    ensures { MatchOption result ((n : ℕ) → IsDateWord word.now n → ⊥) (IsDateWord word.now) }
{
    if word.len() != LENGTH {
        return None;
    }
    if !is_parted(word) {
        return None;
    }
    let century = read_pair_at(word, 0)?;
    let year = read_pair_at(word, 2)?;
    let month = read_pair_at(word, 5)?;
    let day = read_pair_at(word, 8)?;
    let hour = read_pair_at(word, 11)?;
    let minute = read_pair_at(word, 14)?;
    let second = read_pair_at(word, 17)?;
    let year = 100 * u16::from(century) + u16::from(year);
    match stamp(year, month, day, hour, minute, second) {
        Ok(date) => Some(date),
        Err(_) => None,
    }
}
