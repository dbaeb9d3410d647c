//! What a single word asks for.

ghost use Rattle.std.specs.Prelude.{◌≡◌, ◌↔◌, Some, map, string_bytes};
ghost use Rattle.message_text.specs.Asked.{IsHelp, IsHelpWord, IsVersion, IsVersionWord};

/// What a single word asks for.
#[derive(Clone, Copy)]
pub enum Asks {
    Help,
    Version,
}

/// What the words after the program's name ask for: there is one, and it is one of these.
pub fn what_is_asked(words: &[String]) -> Option<Asks>
    ensures help { (result ≡ Some Asks.Help) ↔ IsHelp (map string_bytes words.now) }
    ensures version { (result ≡ Some Asks.Version) ↔ IsVersion (map string_bytes words.now) }
{
    match words {
        [word] => asked_by(word.as_bytes()),
        _ => None,
    }
}

/// What a word asks for, if it asks for something.
fn asked_by(word: &[u8]) -> Option<Asks>
    ensures help { (result ≡ Some Asks.Help) ↔ IsHelpWord word.now }
    ensures version { (result ≡ Some Asks.Version) ↔ IsVersionWord word.now }
{
    if word == "--help".as_bytes() || word == "-h".as_bytes() {
        Some(Asks::Help)
    } else if word == "--version".as_bytes() {
        Some(Asks::Version)
    } else {
        None
    }
}
