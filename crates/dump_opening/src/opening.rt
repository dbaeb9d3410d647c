//! The opening of a dump.

ghost use Rattle.std.specs.Prelude.{◌≡◌, List, ℕ, Option, None, IfOk, length};
ghost use Rattle.dump_opening.specs.Counts.{AllCountBy};
ghost use Rattle.dump_opening.specs.Headers.{HasTold};
ghost use Rattle.dump_opening.specs.Inputs.{TellInputs, TellsText, fault_counts, text_counts};
ghost use Rattle.dump_opening.specs.Opened.{Opens};
ghost use Rattle.dump_opening.specs.Texts.{ReadsTexts};
ghost use Rattle.dump_spec.specs.Answers.{Inputs, sure_refusal};

use crate::files::DumpFiles;
use crate::header::open_header;
use crate::opened::{OpenError, Opened};
use crate::size::measure_dump;
use crate::texts::{read_lacking, read_listed, read_rescued};
use dump_reader::KnownDump;
use dump_spec::Asked;
use qic_base::{Disk, Sector, Source};

/// Reads the map and the lists: into the set of the sectors that were rescued, the set of the segments that the dump lacks, and
/// the words of the bad sectors.
fn read_texts<D, S: Source>(
    files: &mut DumpFiles<D, S>,
    rescued: &mut [u32],
    missing: &mut [u32],
    words: &mut [u32],
) -> Result<(), OpenError>
    ensures reads { (map missing_text bad : Option (List ℕ)) → TellsText S.means files.old.map map →
        TellsText S.means files.old.missing missing_text → TellsText S.means files.old.bad bad →
        ReadsTexts map missing_text bad rescued.new missing.new words.new result }
    ensures counts { AllCountBy (text_counts S.means files.old) (text_counts S.means files.new) result }
    ensures dump { files.new.dump ≡ files.old.dump }
    ensures header { files.new.header ≡ files.old.header }
{
    read_rescued(&mut files.map, rescued)?;
    read_lacking(&mut files.missing, missing)?;
    read_listed(&mut files.bad, words)
}

/// Opens a dump: reads the map and the lists, looks at its length, and takes its header. Words of 32 bits are made of them: one
/// for each segment of the sectors that were rescued, one for 32 segments of those that the dump lacks, and the masks, one for
/// each segment. An error is a refusal, the first one in the order of the map, the missing segments, the bad sectors, the
/// length and the header; or a read that failed.
pub fn open_dump<D: Disk, S: Source>(
    files: &mut DumpFiles<D, S>,
    asked: &Asked,
    rescued: &mut [u32],
    missing: &mut [u32],
    masks: &mut [u32],
    sectors: &mut [Sector],
) -> Result<Opened, OpenError>
    requires rescued { length rescued.old ≡ 65536 }
    requires missing { length missing.old ≡ 2048 }
    requires masks { length masks.old ≡ 65536 }
    requires room { length sectors.old ≡ 32 }
    ensures opens { (inputs : Inputs) → TellInputs D.means S.means files.old inputs →
        sure_refusal inputs.sure ≡ None →
        Opens inputs asked.now (D.means.told files.new.dump) rescued.new missing.new masks.new result }
    ensures header { IfOk result (λ opened. HasTold opened.header) }
    ensures counts { AllCountBy (fault_counts D.means S.means files.old)
        (fault_counts D.means S.means files.new) result }
{
    read_texts(files, rescued, missing, masks)?;
    let size = measure_dump(&mut files.dump, asked, missing)?;
    let known = KnownDump {
        form: asked.form,
        bytes: size.bytes,
        rescued,
        first: size.first,
        missing,
        masks: &[],
    };
    let header = open_header(
        &mut files.dump,
        &mut files.header,
        &known,
        asked.zero_lost,
        masks,
        sectors,
    )?;
    Ok(Opened {
        form: asked.form,
        bytes: size.bytes,
        first: size.first,
        zero_lost: asked.zero_lost,
        header,
    })
}
