//! A unit over the cartridge in an image file.

ghost use Rattle.std.specs.Prelude.{◌≡◌, true, false, IsSome};
ghost use Rattle.cart_image.specs.ImageTape.{disk_of};
ghost use Rattle.tape_files.specs.Failures.{last_failure};

use cart_image::ImageTape;
use drive_states::Unit;
use image_kind::{NoTape, open_tape};
use std::fs::{File, Files};
use tape_files::{Failure, FileDisk, IfMissing, NoImage, open_image};

/// The exit status of a program whose image can't be opened.
pub const NO_IMAGE: u8 = 20;

/// A unit over an image.
pub type ImageUnit = Unit<ImageTape<FileDisk>>;

/// What is known of an image at its end.
#[derive(Clone, Copy)]
pub struct Closed {
    /// Why the last call of it that failed did, where one did.
    pub failure: Option<Failure>,
    /// Whether it got shorter under this run, which changed it, or a look at that failed.
    pub is_cut: bool,
}

/// Opens the image at a path, and puts a unit over it, whose drive has touched nothing yet. It is locked until the unit is
/// dropped. Where there is none it is created or refused, as is asked. A file that is neither an image nor one that may be
/// taken for an image to be made is refused: it holds something else. So is one of which a look failed.
pub fn open_unit<R: Files<File = File> + Alloc>(
    files: &R,
    path: &str,
    if_missing: IfMissing,
) -> Result<ImageUnit, NoImage> {
    let image = open_image(files, path, if_missing)?;
    let faults = image.faults();
    match open_tape(image, faults) {
        Ok(tape) => Ok(Unit::new(tape)),
        Err(NoTape::HoldsOther) => Err(NoImage::HoldsOther),
        Err(NoTape::NotSeen(image)) => Err(NoImage::NotSeen(
            image.failure().unwrap_or(Failure::Untold),
        )),
    }
}

/// Takes a unit apart: its image is closed, and unlocked. Where this run changed it, its length is asked once more.
pub fn close_unit(unit: ImageUnit) -> Closed
    ensures left_alone { (disk_of unit.tape).changed ≡ false → result.is_cut ≡ false }
    ensures whole { result.is_cut ≡ false → result.failure ≡ last_failure (disk_of unit.tape) }
    ensures cut { result.is_cut ≡ true → IsSome result.failure }
{
    let tape = unit.into_tape();
    let least = tape.image_len().unwrap_or(0);
    let mut image = tape.into_disk();
    let is_cut = image.require_len(least).is_err();
    Closed {
        failure: image.failure(),
        is_cut,
    }
}
