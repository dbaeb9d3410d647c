//! What the words of a command line ask for that imports.

ghost use Rattle.std.specs.Prelude.{◌≡◌, map, string_bytes, MatchResult};
ghost use Rattle.program_words.specs.DumpWords.{import_app, AskImport, IsRefusedBy};

use crate::command::import_command;
use clap::Error;
use std::alloc::Global;

/// The path of the image, that of the map where there is one, and the segments per track, 3 to 246, where they are given.
#[derive(Clone, Copy)]
pub struct ImportWords<'a> {
    pub image: &'a str,
    pub map: Option<&'a str>,
    pub segments_per_track: Option<u16>,
}

/// What the words of the command line ask for, the program's name the first of them. An error has the text that tells
/// why they are refused, or the page of usage where they ask for help; its kind is `OutOfMemory` where there was no memory
/// to read them. Memory is taken for the reading alone.
pub fn read_import_words<'a>(
    alloc: Global,
    words: &'a Vec<String>,
) -> Result<ImportWords<'a>, Error>
    ensures { MatchResult result
        (AskImport (map string_bytes words.now.items))
        (IsRefusedBy import_app (map string_bytes words.now.items)) }
{
    let command = import_command(alloc)?;
    match command.try_get_matches_from(words.as_slice()) {
        Ok(matches) => match matches.get_str("image") {
            Some(image) => Ok(ImportWords {
                image,
                map: matches.get_str("map"),
                segments_per_track: matches.get_one::<u16>("segments"),
            }),
            None => unreachable!("the image is required"),
        },
        Err(error) => Err(error),
    }
}
