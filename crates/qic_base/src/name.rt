//! The 44 bytes of text that a volume or a cartridge is called by.

ghost use Rattle.std.specs.Prelude.{◌≡◌, ◌↔◌, IsTrue, IsSome, IfSome};
ghost use Rattle.qic_base.specs.Field.{IsNameText, filled};
ghost use Rattle.qic_base.specs.LineBytes.{IsPrintable};

use std::marker::Model;

/// The text of a volume or of a cartridge's label: 44 bytes, in the Linux ftape headers filled up
/// with spaces. A name that was read from a tape may hold any bytes. Contracts see its bytes.
#[derive(Clone, Copy, Debug, PartialEq, Eq)]
pub struct Name {
    text: [u8; 44],
}

impl Model for Name {
    ghost use Rattle.std.specs.Prelude.{List, ℕ};

    ghost Value = { List ℕ };

    ghost view = { λ name. name.text };

    ghost inverse = { λ bytes. record { text = bytes } };
}

fn is_printable(byte: &u8) -> bool
    ensures { IsTrue result ↔ IsPrintable byte.now }
{
    (0x20..=0x7E).contains(byte)
}

impl Name {
    /// Keeps the bytes as they are, whatever they hold.
    pub fn from_bytes(bytes: &[u8; 44]) -> Name
        ensures { result ≡ bytes.now }
    {
        Name { text: *bytes }
    }

    /// The name with this text, filled up with spaces. None where the text is not 1 to 44 bytes of 0x20 to 0x7E, or
    /// begins or ends with a space.
    pub fn from_text(text: &[u8]) -> Option<Name>
        ensures named { IsSome result ↔ IsNameText text.now }
        ensures bytes { IfSome result (λ name. name ≡ filled text.now) }
    {
        if text.is_empty() || text.len() > 44 || !text.iter().all(is_printable) {
            return None;
        }
        if text[0] == b' ' || text[text.len() - 1] == b' ' {
            return None;
        }
        let mut padded = [b' '; 44];
        padded[..text.len()].copy_from_slice(text);
        Some(Name { text: padded })
    }

    /// All 44 bytes, the filling included.
    pub fn bytes(&self) -> &[u8; 44]
        ensures { result.now ≡ self.now }
    {
        &self.text
    }
}
