//! One segment read, and what is told of it.

ghost use Rattle.std.specs.Prelude.{◌≡◌, ◌≢◌, ◌<◌, [], false, true, length, IfOk};
ghost use Rattle.qic_base.specs.Cartridge.{Cartridge};
ghost use Rattle.qic_base.specs.TapeCalls.{Does, Tells};
ghost use Rattle.cartridge_laws.specs.Says.{LosesData};
ghost use Rattle.cartridge_spec.specs.Says.{whole_mask};
ghost use Rattle.command_spec.specs.Check.{IsTold, MayBeTold, is_last_used, is_named, read_but};
ghost use Rattle.command_spec.specs.Scrub.{whole_segment};
ghost use Rattle.drive_spec.specs.Terms.{is_referenced};
ghost use Rattle.drive_states.specs.Reach.{reads_in};
ghost use Rattle.host_driver.specs.Calls.{IsReady, Keeps};
ghost use Rattle.segment_io.specs.Calls.{CanRead};
ghost use Rattle.segment_mending.specs.Searching.{SearchFinds, SearchMayFind};
ghost use Rattle.cartridge_check.specs.Verdicts.{IsJudged, IsUndecided};

use cartridge_front::{data_sectors, read_table};
use command_spec::Verdict;
use drive_states::Unit;
use gf256_qic::DATA_SECTORS;
use host_driver::Host;
use qic_base::{LostSet, Tape, TapeFailed, WHOLE};
use segment_io::{SegFault, Workspace, collect};
use segment_mending::{Searched, Unread, search_segment};
use volume_table::{TABLE_SEGMENT, Table, TableReading, last_used};

/// What is told of a segment that reads but for so many sectors, at most three.
fn read_but(lost: u8) -> Verdict
    ensures { result ≡ read_but lost }
{
    if lost == 0 {
        Verdict::Sound
    } else {
        Verdict::Weak { lost }
    }
}

/// What is told of a segment other than the volume table's, by what is found of it.
fn verdict_of(segment: u32, usable: u32, found: Searched, work: &Workspace) -> Verdict
    requires other { segment ≢ 2 }
    requires may { SearchMayFind (record { segment = segment; mask = usable }) found work.now }
    ensures told { (c : Cartridge) →
        SearchFinds c (record { segment = segment; mask = usable }) found work.now →
        IsTold c (record { segment = segment; mask = usable }) result }
    ensures may { MayBeTold (record { segment = segment; mask = usable }) result }
{
    match found {
        Searched::Reads { lost } => read_but(lost),
        Searched::Wrong { sector } => Verdict::Wrong { sector },
        Searched::Fails(Unread::Lost(lost)) => Verdict::Gone { lost },
        Searched::Fails(Unread::NoHeader) => Verdict::Contradicts,
        Searched::Fails(Unread::Mismatch) => Verdict::Contradicts,
    }
}

/// Reads a segment other than the volume table's, counted from 0, of which bit `i` of `usable` stands for sector `i`. The
/// answer is what is told of it.
pub(crate) fn look_at_segment<T: Tape>(
    host: &mut Host,
    unit: &mut Unit<T>,
    segment: u32,
    usable: u32,
    work: &mut Workspace,
) -> Result<Verdict, TapeFailed>
    requires can { CanRead T.means host.old unit.old segment usable }
    requires whole { segment < 2 → usable ≡ whole_mask }
    requires other { segment ≢ 2 }
    ensures did { Does T.means unit.old.tape unit.new.tape [] result }
    ensures told { IfOk result (λ verdict. Tells T.means unit.old.tape (λ c.
        IsTold c (record { segment = segment; mask = usable }) verdict)) }
    // And where the tape tells nothing:
    ensures may { IfOk result (λ verdict.
        MayBeTold (record { segment = segment; mask = usable }) verdict) }
    ensures room { length work.new ≡ 32 }
    ensures keeps { Keeps T.means host.new unit.old unit.new }
{
    let found = search_segment(host, unit, segment, usable, work)?;
    Ok(verdict_of(segment, usable, found, work))
}

/// Whether this is the last data sector with a used slot.
fn is_last_used(used: Option<u8>, sector: u8) -> bool
    ensures { result ≡ is_last_used used sector }
{
    match used {
        Some(last) => last == sector,
        None => false,
    }
}

/// Whether all 29 data sectors of the volume table's segment can be read, of which these sectors can't.
fn reads_data(lost: LostSet) -> bool
    ensures all { result ≡ true → ¬ (LosesData lost) }
    ensures lost { result ≡ false → LosesData lost }
{
    match Table::reading(lost) {
        TableReading::AsRead => true,
        TableReading::Solve => false,
        TableReading::TooMany { lost: _ } => false,
    }
}

/// Whether the wrong sector of the volume table's segment with this index, 0 to 31, is named: each sector of data can be
/// read, and it is one of them, and not the last one with a used slot.
fn names_sector<T: Tape>(
    host: &mut Host,
    unit: &mut Unit<T>,
    sector: u8,
    work: &mut Workspace,
) -> Result<bool, TapeFailed>
    requires ready { IsReady T.means host.old unit.old }
    requires mode { reads_in unit.old.drive.deck.mode ≡ true }
    requires referenced { is_referenced unit.old.drive.deck ≡ true }
    ensures did { Does T.means unit.old.tape unit.new.tape [] result }
    ensures named { IfOk result (λ named. Tells T.means unit.old.tape (λ c.
        is_named c (whole_segment 2) sector ≡ named)) }
    ensures room { length work.new ≡ 32 }
    ensures keeps { Keeps T.means host.new unit.old unit.new }
{
    let lost = collect(host, unit, TABLE_SEGMENT, WHOLE, work)?;
    if !reads_data(lost) {
        return Ok(false);
    }
    let used = last_used(data_sectors(work), lost);
    Ok(usize::from(sector) < DATA_SECTORS && !is_last_used(used, sector))
}

/// What is told of the volume table's segment where no code block agrees with all sectors that can be read, and no sector
/// is named.
fn look_at_undecided<T: Tape>(
    host: &mut Host,
    unit: &mut Unit<T>,
    work: &mut Workspace,
) -> Result<Verdict, TapeFailed>
    requires ready { IsReady T.means host.old unit.old }
    requires mode { reads_in unit.old.drive.deck.mode ≡ true }
    requires referenced { is_referenced unit.old.drive.deck ≡ true }
    ensures did { Does T.means unit.old.tape unit.new.tape [] result }
    ensures undecided { IfOk result (λ verdict. Tells T.means unit.old.tape (λ c.
        IsUndecided c verdict)) }
    ensures may { IfOk result (λ verdict. MayBeTold (whole_segment 2) verdict) }
    ensures room { length work.new ≡ 32 }
    ensures keeps { Keeps T.means host.new unit.old unit.new }
{
    match read_table(host, unit, work)? {
        Ok(_) => Ok(Verdict::Unsettled),
        Err(SegFault::Lost { .. }) => Ok(Verdict::Contradicts),
        Err(SegFault::Mismatch { .. }) => Ok(Verdict::Contradicts),
    }
}

/// What is told of the volume table's segment where the sector with this index, 0 to 31, is found to be wrong.
fn look_at_wrong<T: Tape>(
    host: &mut Host,
    unit: &mut Unit<T>,
    sector: u8,
    work: &mut Workspace,
) -> Result<Verdict, TapeFailed>
    requires ready { IsReady T.means host.old unit.old }
    requires mode { reads_in unit.old.drive.deck.mode ≡ true }
    requires referenced { is_referenced unit.old.drive.deck ≡ true }
    requires sector { sector < 32 }
    ensures did { Does T.means unit.old.tape unit.new.tape [] result }
    ensures judged { IfOk result (λ verdict. Tells T.means unit.old.tape (λ c.
        IsJudged c sector verdict)) }
    ensures may { IfOk result (λ verdict. MayBeTold (whole_segment 2) verdict) }
    ensures room { length work.new ≡ 32 }
    ensures keeps { Keeps T.means host.new unit.old unit.new }
{
    let named = names_sector(host, unit, sector, work)?;
    if named {
        Ok(Verdict::Wrong { sector })
    } else {
        look_at_undecided(host, unit, work)
    }
}

/// Reads the volume table's segment, and again where it has a wrong sector or doesn't read. The answer is what is told of
/// it.
pub(crate) fn look_at_table<T: Tape>(
    host: &mut Host,
    unit: &mut Unit<T>,
    work: &mut Workspace,
) -> Result<Verdict, TapeFailed>
    requires ready { IsReady T.means host.old unit.old }
    requires mode { reads_in unit.old.drive.deck.mode ≡ true }
    requires referenced { is_referenced unit.old.drive.deck ≡ true }
    ensures did { Does T.means unit.old.tape unit.new.tape [] result }
    ensures told { IfOk result (λ verdict. Tells T.means unit.old.tape (λ c.
        IsTold c (whole_segment 2) verdict)) }
    // And where the tape tells nothing:
    ensures may { IfOk result (λ verdict. MayBeTold (whole_segment 2) verdict) }
    ensures room { length work.new ≡ 32 }
    ensures keeps { Keeps T.means host.new unit.old unit.new }
{
    let found = search_segment(host, unit, TABLE_SEGMENT, WHOLE, work)?;
    match found {
        Searched::Reads { lost } => Ok(read_but(lost)),
        Searched::Wrong { sector } => look_at_wrong(host, unit, sector, work),
        Searched::Fails(Unread::Lost(lost)) => Ok(Verdict::Gone { lost }),
        Searched::Fails(Unread::Mismatch) => look_at_undecided(host, unit, work),
        Searched::Fails(Unread::NoHeader) => unreachable!("the table's segment is no header copy"),
    }
}
