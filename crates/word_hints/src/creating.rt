//! Which commands make an image.

ghost use Rattle.std.specs.Prelude.{◌↔◌, IsTrue};
ghost use Rattle.word_hints.specs.Creating.{Creates};

use command_spec::Words;

/// Whether a command makes the file of an image that isn't there.
pub fn creates(words: &Words) -> bool
    ensures { IsTrue result ↔ Creates words.now }
{
    matches!(words, Words::New { .. } | Words::Pulses)
}
