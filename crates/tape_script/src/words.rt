//! The words behind the image's path.

ghost use Rattle.std.specs.Prelude.{[], ◌∷◌, map, string_bytes, codes, MatchOption, MatchResult};
ghost use Rattle.command_laws.specs.TextWords.{IsNoCommand};
ghost use Rattle.command_spec.specs.Machine.{Spells};

use crate::date::read_date;
use crate::number::{GREATEST, read_number, read_number_within};
use crate::word::is_word;
use command_spec::Words;
use qic_base::{LONGEST, Name};

/// The words are those of no command.
#[derive(Clone, Copy, Debug)]
pub struct BadWords;

fn read_one(first: &[u8]) -> Option<Words>
    ensures { MatchOption result
        (IsNoCommand (first.now ∷ [])) (Spells (first.now ∷ [])) }
{
    if is_word(first, "info") {
        Some(Words::Info)
    } else if is_word(first, "list") {
        Some(Words::List)
    } else if is_word(first, "room") {
        Some(Words::Room)
    } else if is_word(first, "check") {
        Some(Words::Check)
    } else if is_word(first, "scrub") {
        Some(Words::Scrub)
    } else if is_word(first, "pulses") {
        Some(Words::Pulses)
    } else if is_word(first, "script") {
        Some(Words::Script)
    } else if is_word(first, "upgrade") {
        Some(Words::Upgrade)
    } else {
        None
    }
}

fn read_new(segments: &[u8]) -> Option<Words>
    ensures { MatchOption result
        (IsNoCommand (codes "new" ∷ segments.now ∷ []))
        (Spells (codes "new" ∷ segments.now ∷ [])) }
{
    match read_number_within(segments, 3, u32::from(LONGEST)) {
        Some(segments) => Some(Words::New {
            segments: segments as u16,
        }),
        None => None,
    }
}

fn read_protect(on: &[u8]) -> Option<Words>
    ensures { MatchOption result
        (IsNoCommand (codes "protect" ∷ on.now ∷ []))
        (Spells (codes "protect" ∷ on.now ∷ [])) }
{
    if is_word(on, "on") {
        Some(Words::Protect { on: true })
    } else if is_word(on, "off") {
        Some(Words::Protect { on: false })
    } else {
        None
    }
}

fn read_format(label: &[u8]) -> Option<Words>
    ensures { MatchOption result
        (IsNoCommand (codes "format" ∷ label.now ∷ []))
        (Spells (codes "format" ∷ label.now ∷ [])) }
{
    match Name::from_text(label) {
        Some(label) => Some(Words::Format { label, date: 0 }),
        None => None,
    }
}

fn read_append(name: &[u8]) -> Option<Words>
    ensures { MatchOption result
        (IsNoCommand (codes "append" ∷ name.now ∷ []))
        (Spells (codes "append" ∷ name.now ∷ [])) }
{
    match Name::from_text(name) {
        Some(name) => Some(Words::Append { name, date: 0 }),
        None => None,
    }
}

fn read_restore(number: &[u8]) -> Option<Words>
    ensures { MatchOption result
        (IsNoCommand (codes "restore" ∷ number.now ∷ []))
        (Spells (codes "restore" ∷ number.now ∷ [])) }
{
    match read_number_within(number, 0, GREATEST) {
        Some(number) => Some(Words::Restore { number }),
        None => None,
    }
}

fn read_scrub(form: &[u8]) -> Option<Words>
    ensures { MatchOption result
        (IsNoCommand (codes "scrub" ∷ form.now ∷ []))
        (Spells (codes "scrub" ∷ form.now ∷ [])) }
{
    if is_word(form, "deep") {
        Some(Words::ScrubDeep)
    } else {
        None
    }
}

fn read_two(first: &[u8], second: &[u8]) -> Option<Words>
    ensures { MatchOption result
        (IsNoCommand (first.now ∷ second.now ∷ []))
        (Spells (first.now ∷ second.now ∷ [])) }
{
    if is_word(first, "new") {
        read_new(second)
    } else if is_word(first, "protect") {
        read_protect(second)
    } else if is_word(first, "format") {
        read_format(second)
    } else if is_word(first, "append") {
        read_append(second)
    } else if is_word(first, "restore") {
        read_restore(second)
    } else if is_word(first, "scrub") {
        read_scrub(second)
    } else {
        None
    }
}

fn read_defect(segment: &[u8], sector: &[u8]) -> Option<Words>
    ensures { MatchOption result
        (IsNoCommand (codes "defect" ∷ segment.now ∷ sector.now ∷ []))
        (Spells (codes "defect" ∷ segment.now ∷ sector.now ∷ [])) }
{
    match (read_number(segment), read_number(sector)) {
        (Some(segment), Some(sector)) => Some(Words::Defect { segment, sector }),
        _ => None,
    }
}

fn read_lose(segment: &[u8], sector: &[u8]) -> Option<Words>
    ensures { MatchOption result
        (IsNoCommand (codes "lose" ∷ segment.now ∷ sector.now ∷ []))
        (Spells (codes "lose" ∷ segment.now ∷ sector.now ∷ [])) }
{
    match (read_number(segment), read_number(sector)) {
        (Some(segment), Some(sector)) => Some(Words::Lose { segment, sector }),
        _ => None,
    }
}

fn read_dated_format(label: &[u8], date: &[u8]) -> Option<Words>
    ensures { MatchOption result
        (IsNoCommand (codes "format" ∷ label.now ∷ date.now ∷ []))
        (Spells (codes "format" ∷ label.now ∷ date.now ∷ [])) }
{
    let label = Name::from_text(label)?;
    let date = read_date(date)?;
    Some(Words::Format { label, date })
}

fn read_dated_append(name: &[u8], date: &[u8]) -> Option<Words>
    ensures { MatchOption result
        (IsNoCommand (codes "append" ∷ name.now ∷ date.now ∷ []))
        (Spells (codes "append" ∷ name.now ∷ date.now ∷ [])) }
{
    let name = Name::from_text(name)?;
    let date = read_date(date)?;
    Some(Words::Append { name, date })
}

fn read_make(seed: &[u8], count: &[u8]) -> Option<Words>
    ensures { MatchOption result
        (IsNoCommand (codes "make" ∷ seed.now ∷ count.now ∷ []))
        (Spells (codes "make" ∷ seed.now ∷ count.now ∷ [])) }
{
    match (read_number(seed), read_number_within(count, 1, 200)) {
        (Some(seed), Some(count)) => Some(Words::Make { seed, count }),
        _ => None,
    }
}

fn read_three(first: &[u8], second: &[u8], third: &[u8]) -> Option<Words>
    ensures { MatchOption result
        (IsNoCommand (first.now ∷ second.now ∷ third.now ∷ []))
        (Spells (first.now ∷ second.now ∷ third.now ∷ [])) }
{
    if is_word(first, "defect") {
        read_defect(second, third)
    } else if is_word(first, "lose") {
        read_lose(second, third)
    } else if is_word(first, "format") {
        read_dated_format(second, third)
    } else if is_word(first, "append") {
        read_dated_append(second, third)
    } else if is_word(first, "make") {
        read_make(second, third)
    } else {
        None
    }
}

fn read_command(words: &[String]) -> Option<Words>
    ensures { MatchOption result
        (IsNoCommand (map string_bytes words.now))
        (Spells (map string_bytes words.now)) }
{
    match words {
        [] => None,
        [first] => read_one(first.as_bytes()),
        [first, second] => read_two(first.as_bytes(), second.as_bytes()),
        [first, second, third] => {
            read_three(first.as_bytes(), second.as_bytes(), third.as_bytes())
        }
        [_, _, _, _, ..] => None,
    }
}

/// The command that the words are, refused exactly where they have no form.
pub fn read_words(words: &Vec<String>) -> Result<Words, BadWords>
    ensures { MatchResult result (Spells (map string_bytes words.now.items))
        (λ bad. IsNoCommand (map string_bytes words.now.items)) }
{
    match read_command(words.as_slice()) {
        Some(command) => Ok(command),
        None => Err(BadWords),
    }
}
