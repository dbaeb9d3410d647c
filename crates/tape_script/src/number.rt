//! Numbers in words: decimal digits as they are printed, at most nine of them.

ghost use Rattle.std.specs.Prelude.{ℕ, ◌<◌, MatchOption};
ghost use Rattle.command_spec.specs.Command.{IsNumber, Number, SpellsPart};

/// The greatest number that a word can be.
pub const GREATEST: u32 = 999_999_999;

const MOST_DIGITS: usize = 9;

/// The number that the word is, if it is one.
pub fn read_number(word: &[u8]) -> Option<u32>
    ensures { MatchOption result ((n : ℕ) → IsNumber word.now n → ⊥) (IsNumber word.now) }
{
    if word.is_empty() || word.len() > MOST_DIGITS {
        return None;
    }
    let mut value: u32 = 0;
    for (at, byte) in word.iter().enumerate() {
        if !byte.is_ascii_digit() {
            return None;
        }
        if at > 0 && value == 0 {
            return None;
        }
        value = 10 * value + u32::from(*byte - b'0');
    }
    Some(value)
}

/// The number that the word is, if it is one from `least` to `greatest`.
pub fn read_number_within(word: &[u8], least: u32, greatest: u32) -> Option<u32>
    ensures { MatchOption result
        ((n : ℕ) → SpellsPart word.now (Number least greatest n) → ⊥)
        (λ n. SpellsPart word.now (Number least greatest n)) }
{
    match read_number(word) {
        Some(number) if least <= number && number <= greatest => Some(number),
        _ => None,
    }
}
