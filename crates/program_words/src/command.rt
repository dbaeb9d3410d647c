//! The command lines, as `clap` has them.

ghost use Rattle.std.specs.Prelude.{IfOk};
ghost use Rattle.program_words.specs.DumpOptions.{IsMapOption, IsSegmentsOption, IsImageArgument, IsExportCommand, IsImportCommand};

use clap::{Arg, ArgAction, Command};
use std::alloc::{AllocError, Global};

/// The option `--map`, a path.
fn map_option<'a>(alloc: Global, help: &'a str) -> Arg<'a>
    ensures { IsMapOption result }
{
    Arg::new(alloc, "map")
        .long("map")
        .value_name("FILE")
        .help(help)
        .action(ArgAction::Set)
}

/// The option `--segments`, a number from 3 to 246.
fn segments_option<'a>(alloc: Global) -> Arg<'a>
    ensures { IsSegmentsOption result }
{
    let lengths = clap::value_parser!(u16).range(3..=246);
    let plain = Arg::new(alloc, "segments")
        .long("segments")
        .value_name("N")
        .help("Segments per track, 3 to 246, if the dump ends early")
        .action(ArgAction::Set);
    let option = plain.value_parser(lengths);
    option
}

/// The image, a path.
fn image_argument<'a>(alloc: Global, help: &'a str) -> Arg<'a>
    ensures { IsImageArgument result }
{
    Arg::new(alloc, "image")
        .value_name("IMAGE")
        .help(help)
        .required(true)
        .action(ArgAction::Set)
}

/// The command that exports, with a map and the image.
pub fn export_command<'a>(alloc: Global) -> Result<Command<'a>, AllocError>
    ensures { IfOk result IsExportCommand }
{
    let map = map_option(
        alloc,
        "Write a ddrescue mapfile of the readable sectors to this new file",
    );
    let with_map = Command::new(alloc, "tape_export").arg(map)?;
    with_map.arg(image_argument(alloc, "The image file of the cartridge"))
}

/// The command that imports, with a map, the segments per track and the image.
pub fn import_command<'a>(alloc: Global) -> Result<Command<'a>, AllocError>
    ensures { IfOk result IsImportCommand }
{
    let map = map_option(
        alloc,
        "ddrescue mapfile of the dump; without it all bytes count as read",
    );
    let with_map = Command::new(alloc, "tape_import").arg(map)?;
    let with_segments = with_map.arg(segments_option(alloc))?;
    with_segments.arg(image_argument(alloc, "The image to create; must not exist or be empty"))
}
