//! The header of a dump, and the masks that it leaves.

ghost use Rattle.std.specs.Prelude.{◌≡◌, ◌≤◌, ◌∷◌, [], List, ℕ, Option, None, Some, length, take, IfOk, OnOk};
ghost use Rattle.dump_header.specs.Marking.{AreMasks};
ghost use Rattle.dump_lists.specs.Masks.{IsBadSet};
ghost use Rattle.dump_opening.specs.Counts.{AllCountBy, CountsBy, faults_in};
ghost use Rattle.dump_opening.specs.Headers.{HasTold, IsFiled, IsHeaderOf, OpensHeader, Takes, Tells};
ghost use Rattle.dump_opening.specs.Inputs.{TellsFile};
ghost use Rattle.dump_spec.specs.Lists.{BadSectors};

use crate::opened::OpenError;
use dump_header::{ForeignValue, decode, make_masks, make_masks_without_header};
use dump_reader::{KnownDump, find_header, read_filed_header};
use dump_spec::Status;
use dump_volumes::ToldHeader;
use gf256_qic::DATA_SECTORS;
use qic_base::{Disk, DiskFailed, Sector};

/// Takes the fields of a header's data. `segment` is that of the data, none where they are those of a file.
fn take_fields(area: &[Sector], segment: Option<u8>) -> Result<ToldHeader, OpenError>
    requires { length area.now ≡ 29 }
    ensures { Tells record { area = area.now; segment = segment } result }
{
    match decode(area) {
        Ok(fields) => Ok(ToldHeader { fields, segment }),
        Err(ForeignValue { field, value }) => Err(OpenError::Refused {
            status: Status::Foreign { field, value },
        }),
    }
}

/// Makes the masks by the data of a header, and takes its fields.
fn take_header(
    sectors: &[Sector],
    segment: Option<u8>,
    words: &mut [u32],
) -> Result<Option<ToldHeader>, OpenError>
    requires { length sectors.now ≡ 32 }
    ensures takes { Takes (Some record { area = take 29 sectors.now; segment = segment }) result }
    ensures masks { (bad : List BadSectors) → IsBadSet bad words.old →
        AreMasks (Some (take 29 sectors.now)) bad words.new }
    ensures told { IfOk result HasTold }
{
    let area = &sectors[..DATA_SECTORS];
    make_masks(area, words);
    Ok(Some(take_fields(area, segment)?))
}

/// The header that lies in a file.
fn open_filed<D: Disk>(
    file: &mut D,
    words: &mut [u32],
    sectors: &mut [Sector],
) -> Result<Option<ToldHeader>, OpenError>
    requires { length sectors.old ≡ 32 }
    ensures header { (text : List ℕ) (bad : List BadSectors) → D.means.told file.old ≡ Some text →
        IsBadSet bad words.old → OpensHeader (IsFiled text) bad words.new result }
    ensures told { IfOk result HasTold }
    ensures count { CountsBy (D.means.faults file.old) (D.means.faults file.new) result }
{
    match read_filed_header(file, sectors) {
        Ok(()) => take_header(sectors, None, words),
        Err(DiskFailed) => Err(OpenError::Input),
    }
}

/// The header that is found in the dump, if there is one.
fn open_found<D: Disk>(
    dump: &mut D,
    known: &KnownDump,
    zero_lost: bool,
    words: &mut [u32],
    sectors: &mut [Sector],
) -> Result<Option<ToldHeader>, OpenError>
    requires room { length sectors.old ≡ 32 }
    requires missing { 2 ≤ length known.now.missing.now }
    ensures header { (bad : List BadSectors) → IsBadSet bad words.old →
        OpensHeader (IsHeaderOf None known.now (D.means.told dump.old) zero_lost) bad words.new result }
    ensures told { IfOk result HasTold }
    ensures same { OnOk result (D.means.told dump.new ≡ D.means.told dump.old) }
    ensures count { CountsBy (D.means.faults dump.old) (D.means.faults dump.new) result }
{
    match find_header(dump, known, zero_lost, sectors) {
        Ok(Some(segment)) => take_header(sectors, Some(segment as u8), words),
        Ok(None) => {
            make_masks_without_header(words);
            Ok(None)
        }
        Err(DiskFailed) => Err(OpenError::Input),
    }
}

/// Takes the header of a dump, from its file or as it is found, and makes the masks of all segments from the words of the bad
/// sectors. What masks are known of the dump does not matter.
pub(crate) fn open_header<D: Disk>(
    dump: &mut D,
    file: &mut Option<D>,
    known: &KnownDump,
    zero_lost: bool,
    words: &mut [u32],
    sectors: &mut [Sector],
) -> Result<Option<ToldHeader>, OpenError>
    requires room { length sectors.old ≡ 32 }
    requires missing { 2 ≤ length known.now.missing.now }
    ensures header { (text : Option (List ℕ)) (bad : List BadSectors) → TellsFile D.means file.old text →
        IsBadSet bad words.old →
        OpensHeader (IsHeaderOf text known.now (D.means.told dump.old) zero_lost) bad words.new result }
    ensures counts { AllCountBy
        (D.means.faults dump.old ∷ faults_in D.means.faults file.old ∷ [])
        (D.means.faults dump.new ∷ faults_in D.means.faults file.new ∷ []) result }
    ensures told { IfOk result HasTold }
    ensures same { OnOk result (D.means.told dump.new ≡ D.means.told dump.old) }
{
    match file {
        Some(file) => open_filed(file, words, sectors),
        None => open_found(dump, known, zero_lost, words, sectors),
    }
}
