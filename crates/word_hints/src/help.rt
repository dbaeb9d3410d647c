//! The help and the version of the program.

ghost use Rattle.std.specs.Prelude.{◌≡◌, ◌↔◌, IsTrue, Some, codes, map, string_bytes};
ghost use Rattle.qic_base.specs.SinkCalls.{Writes};
ghost use Rattle.word_hints.specs.Asked.{IsHelpCall, IsVersionCall};

use message_text::{Asks, what_is_asked as what_a_word_asks};
use qic_base::{Sink, SinkFailed, write_text};

/// Whether a word asks for help in the place of an image, or of a command.
fn is_help(word: &String) -> bool
    ensures { IsTrue result ↔ (string_bytes word.now ≡ codes "help") }
{
    word.as_bytes() == "help".as_bytes()
}

/// What the words of a call ask for besides commands: help or the version, as the only word, or `help` after an image.
pub fn what_is_asked(images: &[String], command: &[String]) -> Option<Asks>
    ensures help { (result ≡ Some Asks.Help)
        ↔ IsHelpCall (map string_bytes images.now) (map string_bytes command.now) }
    ensures version { (result ≡ Some Asks.Version)
        ↔ IsVersionCall (map string_bytes images.now) (map string_bytes command.now) }
{
    match (images, command) {
        ([word], []) if is_help(word) => Some(Asks::Help),
        ([_], []) => what_a_word_asks(images),
        ([_], [word]) if is_help(word) => Some(Asks::Help),
        _ => None,
    }
}

/// Writes the commands with what each does.
pub fn write_help<K: Sink>(sink: &mut K) -> Result<(), SinkFailed>
    ensures { Writes K.means sink.old sink.new HELP.now result }
{
    write_text(HELP, sink)
}

/// Writes the version of the program, and of the layout of the images that it makes.
pub fn write_version<K: Sink>(sink: &mut K) -> Result<(), SinkFailed>
    ensures { Writes K.means sink.old sink.new (codes "tape 1.0, images of version 2 and 1\n") result }
{
    write_text(b"tape 1.0, images of version 2 and 1\n", sink)
}

const HELP: &[u8] = b"usage: tape IMAGE COMMAND

Keeps backups on a QIC-80 cartridge in the file IMAGE, which new and pulses make
if it does not exist. For a dump of a real tape use tape_import, tape_salvage.

    new N                 inserts a blank cartridge, 3 to 246 segments a track
    format LABEL [DATE]   erases and formats the cartridge
    append NAME [DATE]    stores standard input as a new volume
    restore N             writes volume N to standard output
    list                  lists the volumes
    info                  shows what the header says
    room                  shows how many bytes another volume may have
    check                 reports lost and wrong sectors; writes nothing
    scrub                 rewrites lost sectors that parity can recover
    scrub deep            also rewrites sectors that hold wrong bytes
    protect on | off      sets or clears the write-protect mark
    upgrade               converts the image to the newest layout

For tests and scripts:
    lose SEG SEC          makes a sector unreadable until it is rewritten
    defect SEG SEC        makes a sector bad for good that was never formatted
    script                carries out the lines of standard input
    pulses                sends the drive step pulses, read from standard input
    make SEED COUNT       appends generated volumes, damages and restores them

SEG counts from 0, SEC from 0 to 31. DATE is 1996-02-29T12:00:00; without it,
1970-01-01T00:00:00. If an image may be damaged, copy it and run check first:
info, list, restore and all that write may change its volume table.
Exit status 0: done; 2: usage; 11, 12: data lost; 21: check found damage; the
others in 'man tape'. scrub and script exit with 0 even if data are lost.
new and format erase what is there without asking.
";
