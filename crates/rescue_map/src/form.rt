//! The form of a map's lines.

ghost use Rattle.std.specs.Prelude.{◌≡◌, List, ℕ, IfSome};
ghost use Rattle.std.specs.Option.{ForSome};
ghost use Rattle.rescue_map.specs.Form.{is_status, is_block_mark, block_form, first_block, next_block, words_say, is_missing, line_says};
ghost use Rattle.rescue_map.specs.Marking.{IsBlock, IsSound};
ghost use Rattle.rescue_map.specs.Scanning.{AreWords};

use crate::spelling::{GREATEST, Word};
use crate::words::LineWords;

/// A part of a medium: its first byte, its length in bytes, and the mark that says how it went. `+` is rescued.
#[derive(Clone, Copy)]
pub struct Block {
    pub start: u64,
    pub size: u64,
    pub mark: u8,
}

/// What the next line with words has to be: the status line, the first block, or a block that starts where the one
/// before it ended.
#[derive(Clone, Copy)]
pub enum Expected {
    Status,
    First,
    Next { end: u64 },
}

/// What a line says: nothing where it has no words, the status, a block, or something that has no form.
#[derive(Clone, Copy)]
pub enum Said {
    Nothing,
    Status,
    Block { block: Block },
    Bad,
}

fn is_status(first: Word, second: Word, third: Word) -> bool
    ensures { result ≡ is_status first second third }
{
    match (first, second, third) {
        (Word::Number { .. }, Word::Mark { .. }, Word::Missing) => true,
        (Word::Number { .. }, Word::Mark { .. }, Word::Number { decimal, .. }) => decimal,
        _ => false,
    }
}

fn is_block_mark(byte: u8) -> bool
    ensures { result ≡ is_block_mark byte }
{
    matches!(byte, b'?' | b'*' | b'/' | b'-' | b'+')
}

fn block_form(first: Word, second: Word, third: Word) -> Option<Block>
    ensures form { result ≡ block_form first second third }
    ensures sound { IfSome result IsBlock }
{
    let (Word::Number { value: start, .. }, Word::Number { value: size, .. }, Word::Mark { mark }) =
        (first, second, third) else {
        return None;
    };
    if size >= 1 && size <= GREATEST && start <= GREATEST - size && is_block_mark(mark) {
        Some(Block { start, size, mark })
    } else {
        None
    }
}

/// The first block may start anywhere.
fn first_block(block: Option<Block>) -> Said
    requires { ForSome block IsBlock }
    ensures said { result ≡ first_block block }
    ensures sound { IsSound result }
{
    match block {
        Some(block) => Said::Block { block },
        None => Said::Bad,
    }
}

fn next_block(end: u64, block: Option<Block>) -> Said
    requires { ForSome block IsBlock }
    ensures said { result ≡ next_block end block }
    ensures sound { IsSound result }
{
    match block {
        Some(block) if block.start == end => Said::Block { block },
        _ => Said::Bad,
    }
}

/// What a line with these words says.
fn words_say(expected: Expected, first: Word, second: Word, third: Word) -> Said
    ensures said { result ≡ words_say expected first second third }
    ensures sound { IsSound result }
{
    match expected {
        Expected::Status => {
            if is_status(first, second, third) {
                Said::Status
            } else {
                Said::Bad
            }
        }
        Expected::First => first_block(block_form(first, second, third)),
        Expected::Next { end } => next_block(end, block_form(first, second, third)),
    }
}

fn is_missing(word: Word) -> bool
    ensures { result ≡ is_missing word }
{
    matches!(word, Word::Missing)
}

/// What a line says, where this is expected.
pub fn line_says(expected: Expected, words: LineWords) -> Said
    ensures said { (list : List (List ℕ)) → AreWords words list → result ≡ line_says expected list }
    ensures sound { IsSound result }
{
    if words.count > 3 {
        return Said::Bad;
    }
    if is_missing(words.first) {
        return Said::Nothing;
    }
    words_say(expected, words.first, words.second, words.third)
}
