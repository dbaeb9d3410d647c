//! A tape over a file that holds nothing else.

ghost use Rattle.std.specs.Prelude.{◌≡◌, true, IfErr, IfOk, IfSome};
ghost use Rattle.qic_base.specs.Disk.{IsSettled};
ghost use Rattle.cart_image.specs.ImageTape.{disk_of};
ghost use Rattle.image_kind.specs.Opened.{MayBeTaken, Refuses};

use crate::free::is_free;
use cart_image::ImageTape;
use qic_base::{Disk, DiskFailed, Tape, TapeFailed};

/// Why a file is not taken for an image.
#[derive(Drop)]
pub enum NoTape<D> {
    /// It holds something else: it is neither an image nor free.
    HoldsOther,
    /// A look at it failed. The file is given back.
    NotSeen(D),
}

/// A tape over a file, which has this count of faults. It is taken where it is an image, or may be taken for one to be made,
/// and each look at it succeeded. So a file of which nothing is known is not written.
pub fn open_tape<D: Disk + Drop>(mut disk: D, faults: u64) -> Result<ImageTape<D>, NoTape<D>>
    requires settled { D.means.tells_stops disk ≡ true → IsSettled D.means disk }
    requires faults { D.means.faults disk ≡ faults }
    ensures taken { IfOk result (λ tape. IfSome (D.means.told disk) MayBeTaken) }
    ensures seen { IfOk result (λ tape. D.means.faults (disk_of tape) ≡ D.means.faults disk) }
    ensures refused { IfErr result (Refuses D.means disk) }

    // It was only looked at.
    ensures told { IfOk result (λ tape. D.means.told (disk_of tape) ≡ D.means.told disk) }
{
    let free = match is_free(&mut disk) {
        Ok(free) => free,
        Err(DiskFailed) => return Err(NoTape::NotSeen(disk)),
    };
    let mut tape = ImageTape::open(disk, faults);
    match tape.info() {
        Ok(None) if !free => Err(NoTape::HoldsOther),
        Ok(_) => Ok(tape),
        Err(TapeFailed) => Err(NoTape::NotSeen(tape.into_disk())),
    }
}
