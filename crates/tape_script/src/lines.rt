//! Lines of a place, and of a number.

ghost use Rattle.std.specs.Prelude.{◌≡◌, ◌≤◌, length};
ghost use Rattle.command_spec.specs.Lines.{number_line, place_line};

use crate::text_line::TextLine;

/// A word of at most 100 bytes, and a number.
#[tactic(auto, unfolding(command_spec::specs::Lines::number_line))]
pub fn number_text(word: &[u8], n: u64) -> TextLine
    requires { length word.now ≤ 100 }
    ensures { result ≡ number_line word.now n }
{
    let mut line = TextLine::new();
    line.push_text(word);
    line.push_text(b" ");
    line.push_number(n);
    line.push_text(b"\n");
    line
}

/// A word of at most 100 bytes, and two numbers, as those of a segment and of a sector.
#[tactic(auto, unfolding(command_spec::specs::Lines::place_line))]
pub fn place_text(word: &[u8], first: u64, second: u64) -> TextLine
    requires { length word.now ≤ 100 }
    ensures { result ≡ place_line word.now first second }
{
    let mut line = TextLine::new();
    line.push_text(word);
    line.push_text(b" ");
    line.push_number(first);
    line.push_text(b" ");
    line.push_number(second);
    line.push_text(b"\n");
    line
}
