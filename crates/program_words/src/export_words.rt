//! What the words of a command line ask for that exports.

ghost use Rattle.std.specs.Prelude.{◌≡◌, map, string_bytes, MatchResult};
ghost use Rattle.program_words.specs.DumpWords.{export_app, AskExport, IsRefusedBy};

use crate::command::export_command;
use clap::Error;
use std::alloc::Global;

/// The path of the image, and that of the map where one is asked for.
#[derive(Clone, Copy)]
pub struct ExportWords<'a> {
    pub image: &'a str,
    pub map: Option<&'a str>,
}

/// What the words of the command line ask for, the program's name the first of them. An error has the text that tells
/// why they are refused, or the page of usage where they ask for help; its kind is `OutOfMemory` where there was no memory
/// to read them. Memory is taken for the reading alone.
pub fn read_export_words<'a>(
    alloc: Global,
    words: &'a Vec<String>,
) -> Result<ExportWords<'a>, Error>
    ensures { MatchResult result
        (AskExport (map string_bytes words.now.items))
        (IsRefusedBy export_app (map string_bytes words.now.items)) }
{
    let command = export_command(alloc)?;
    match command.try_get_matches_from(words.as_slice()) {
        Ok(matches) => match matches.get_str("image") {
            Some(image) => Ok(ExportWords {
                image,
                map: matches.get_str("map"),
            }),
            None => unreachable!("the image is required"),
        },
        Err(error) => Err(error),
    }
}
