//! Laws of the header that are proved of its definitions; the functions do nothing.

ghost use Rattle.cartridge_laws.specs.HeaderLaws.{HeaderIsDetermined, SpelledIsRead};

/// The data of a header show at most one header and map.
pub fn header_is_determined()
    ensures { HeaderIsDetermined }
{}

/// What spells a header and a map is read as them, by a drive of the header's length, where the
/// map marks no sector of the segments 0 to 2.
pub fn spelled_is_read()
    ensures { SpelledIsRead }
{}
