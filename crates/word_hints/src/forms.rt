//! The commands of `tape`, with what stands behind the first word of each.

ghost use Rattle.std.specs.Prelude.{◌≡◌, ◌↔◌, map, IsTrue, MatchOption};
ghost use Rattle.word_hints.specs.Forms.{Faults, HasNoRow, HasRow, place_of, row_of, rows};

use crate::fault::{WordFault, date_fault, name_fault, number_fault};
use qic_base::LONGEST;

/// The greatest number that a word can be.
const GREATEST: u32 = 999_999_999;

/// The most volumes that `make` makes.
const MOST_MADE: u32 = 200;

/// What a word has to be.
#[derive(Clone, Copy)]
pub(crate) enum Part {
    Number { least: u32, greatest: u32 },
    Name,
    Date,
    /// One of two words.
    Either(&'static str, &'static str),
}

impl Part {
    /// Why a word is none of these; none where it is one.
    pub(crate) fn fault(&self, word: &[u8]) -> Option<WordFault>
        ensures { Faults (place_of self.now) word.now result }
    {
        match *self {
            Part::Number { least, greatest } => number_fault(word, least, greatest),
            Part::Name => name_fault(word),
            Part::Date => date_fault(word),
            Part::Either(one, other) => {
                if word == one.as_bytes() || word == other.as_bytes() {
                    None
                } else {
                    Some(WordFault::OtherWord)
                }
            }
        }
    }
}

/// A command: its first word, its form as it is told, how many words behind the first one it has at least, and what these have
/// to be, as many as it may have.
#[derive(Clone, Copy)]
pub(crate) struct Form(
    pub &'static str,
    pub &'static str,
    pub usize,
    pub &'static [Part],
);

const NUMBER: Part = Part::Number {
    least: 0,
    greatest: GREATEST,
};

const SEGMENTS: Part = Part::Number {
    least: 3,
    greatest: LONGEST as u32,
};

const MADE: Part = Part::Number {
    least: 1,
    greatest: MOST_MADE,
};

const NAME: Part = Part::Name;

const DATE: Part = Part::Date;

const ON_OR_OFF: Part = Part::Either("on", "off");

const DEEP: Part = Part::Either("deep", "deep");

const FORMS: [Form; 16] = [
    Form("new", "new N", 1, &[SEGMENTS]),
    Form("defect", "defect SEG SEC", 2, &[NUMBER, NUMBER]),
    Form("lose", "lose SEG SEC", 2, &[NUMBER, NUMBER]),
    Form("protect", "protect on | off", 1, &[ON_OR_OFF]),
    Form("upgrade", "upgrade", 0, &[]),
    Form("format", "format LABEL [DATE]", 1, &[NAME, DATE]),
    Form("info", "info", 0, &[]),
    Form("append", "append NAME [DATE]", 1, &[NAME, DATE]),
    Form("list", "list", 0, &[]),
    Form("room", "room", 0, &[]),
    Form("check", "check", 0, &[]),
    Form("restore", "restore N", 1, &[NUMBER]),
    Form("scrub", "scrub [deep]", 0, &[DEEP]),
    Form("pulses", "pulses", 0, &[]),
    Form("script", "script", 0, &[]),
    Form("make", "make SEED COUNT", 2, &[NUMBER, MADE]),
];

/// The commands.
fn forms() -> &'static [Form]
    ensures { map row_of result.now ≡ rows }
{
    &FORMS
}

/// Whether a command begins with this word.
fn begins(form: &Form, first: &[u8]) -> bool
    ensures { IsTrue result ↔ ((row_of form.now).first ≡ first.now) }
{
    form.0.as_bytes() == first
}

/// The command whose first word this is.
pub(crate) fn form_of(first: &[u8]) -> Option<Form>
    ensures { MatchOption result (HasNoRow rows first.now) (λ form. HasRow rows first.now (row_of form)) }
{
    for form in forms() {
        if begins(form, first) {
            return Some(*form);
        }
    }
    None
}
