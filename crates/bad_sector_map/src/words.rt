//! The words of a bad sector map in the header's data area, one of 32 bits for each segment.

ghost use Rattle.std.specs.Prelude.{◌≡◌, ◌+◌, ◌*◌, ◌<◌, ◌≤◌, ℕ, length, replicate};
ghost use Rattle.std.specs.Vec.{vec_len, vec_capacity};
ghost use Rattle.cartridge_laws.specs.HeaderTerms.{byte_in, words_in, IsInMap};
ghost use Rattle.cartridge_spec.specs.Header.{word_in};

use qic_base::{MOST_SEGMENTS, Sector, push_within, read_u32, write_u32};

/// The most segments of a cartridge.
pub const SEGMENTS: u32 = MOST_SEGMENTS as u32;

/// The segments that have a word in the area: those behind them have none.
pub const MAPPED: usize = 6912;

/// The map's words begin in this sector of the area, 256 to a sector (Linux ftape headers).
const FIRST_SECTOR: usize = 2;

const WORDS_IN_SECTOR: usize = 256;

/// Makes the list one of so many zero words.
pub fn clear_words(words: &mut Vec<u32>, segments: u32)
    requires { segments ≤ vec_capacity words.old }
    ensures items { words.new.items ≡ replicate segments 0 }
    ensures capacity { vec_capacity words.old ≤ vec_capacity words.new }
{
    words.clear();
    for _ in 0..segments {
        push_within(words, 0);
    }
}

/// The word of a segment in the data area.
pub fn word_at(area: &[Sector], segment: usize) -> u32
    requires sectors { length area.now ≡ 29 }
    requires within { segment < MAPPED }
    ensures { result ≡ word_in area.now segment }
{
    let sector = &area[FIRST_SECTOR + segment / WORDS_IN_SECTOR];
    read_u32(sector, 4 * (segment % WORDS_IN_SECTOR))
}

/// Makes the list that of the words in the area.
pub fn read_words(words: &mut Vec<u32>, area: &[Sector], segments: u32)
    requires sectors { length area.now ≡ 29 }
    requires within { segments ≤ SEGMENTS }
    requires room { segments ≤ vec_capacity words.old }
    ensures items { words.new.items ≡ words_in area.now segments }
    ensures len { vec_len words.new ≡ segments }
    ensures capacity { vec_capacity words.old ≤ vec_capacity words.new }
{
    words.clear();
    for segment in 0..segments {
        push_within(words, word_at(area, segment as usize));
    }
}

fn set_word(area: &mut [Sector], segment: usize, word: u32)
    requires sectors { length area.old ≡ 29 }
    requires within { segment < SEGMENTS }
    ensures word { word_in area.new segment ≡ word }
    ensures others { (k : ℕ) → (IsInMap (segment + 1) k → IsInMap segment k) →
        byte_in area.new k ≡ byte_in area.old k }
{
    let sector = &mut area[FIRST_SECTOR + segment / WORDS_IN_SECTOR];
    write_u32(sector, 4 * (segment % WORDS_IN_SECTOR), word);
}

/// Writes the words into the area, the first of them first. All other bytes stay.
pub fn write_words(words: &[u32], area: &mut [Sector])
    requires sectors { length area.old ≡ 29 }
    requires within { length words.now ≤ SEGMENTS }
    ensures words { words_in area.new (length words.now) ≡ words.now }
    ensures others { (k : ℕ) → ¬ (IsInMap (length words.now) k) →
        byte_in area.new k ≡ byte_in area.old k }
{
    for (segment, word) in words.iter().enumerate() {
        set_word(area, segment, *word);
    }
}
