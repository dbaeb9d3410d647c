//! One segment read, and what is found of it.

ghost use Rattle.std.specs.Prelude.{◌≡◌, ◌<◌, ◌≤◌, ◌^◌, ℕ, [], length, take, Some, None, IfOk};
ghost use Rattle.qic_base.specs.Cartridge.{Cartridge};
ghost use Rattle.qic_base.specs.TapeCalls.{Does};
ghost use Rattle.cartridge_laws.specs.Shape.{Carries};
ghost use Rattle.cartridge_spec.specs.Header.{has_signature};
ghost use Rattle.cartridge_spec.specs.Says.{cells_of, whole_mask};
ghost use Rattle.cartridge_laws.specs.Segment.{data_of};
ghost use Rattle.erasure_solve.specs.Lost.{lost_count};
ghost use Rattle.cartridge_spec.specs.Shape.{usable_count};
ghost use Rattle.command_spec.specs.Scrub.{reads};
ghost use Rattle.command_spec.specs.declared.depth.Depth.{Depth};
ghost use Rattle.host_driver.specs.Calls.{Keeps};
ghost use Rattle.segment_io.specs.Calls.{CanRead};
ghost use Rattle.segment_solve.specs.Gathered.{Gathered, NamesUnreadable};
ghost use Rattle.segment_mending.specs.Locating.{Locates, data_in, HasBlock, IsDeep, Finds, IsFoundBy, MayBeBy, DeepFinds, DeepMayFind};
ghost use Rattle.silent_locate.specs.Deep as deep;

use crate::HEADER_COPIES;
use bad_sector_map::index_at;
use command_spec::Depth;
use drive_states::Unit;
use header_segments::SIGNATURE;
use host_driver::Host;
use qic_base::{LostSet, Sector, Tape, TapeFailed, read_u32};
use segment_io::{SegFault, Workspace, collect, read_segment};
use silent_locate::{LocateFault, Located, locate};

/// What is found of a segment. A place counts from 0 among its usable sectors, an index among its 32.
#[derive(Clone, Copy)]
pub(crate) enum Found {
    /// It reads: the places to be written, and among them the sector with this index, which can be read and is wrong.
    Reads { places: LostSet, wrong: Option<u8> },
    /// It does not.
    Fails(Unread),
}

/// Why a segment does not read.
#[derive(Clone, Copy)]
pub enum Unread {
    /// A header copy's data begin with no header's signature.
    NoHeader,
    /// So many usable sectors can't be read, 4 to 32.
    Lost(u8),
    /// No code block agrees with those that can.
    Mismatch,
}

/// Reads a segment, and makes the first sectors of the workspace its block where it has one. A wrong sector is looked for
/// where the form is deep, whichever segment it is.
pub(crate) fn find_in_segment<T: Tape>(
    host: &mut Host,
    unit: &mut Unit<T>,
    depth: Depth,
    segment: u32,
    usable: u32,
    work: &mut Workspace,
) -> Result<Found, TapeFailed>
    requires can { CanRead T.means host.old unit.old segment usable }
    requires whole { segment < 2 → usable ≡ whole_mask }
    ensures did { Does T.means unit.old.tape unit.new.tape [] result }
    ensures found { IfOk result (λ found. Finds T.means unit.old.tape (IsDeep depth)
        (record { segment = segment; mask = usable }) found work.new) }
    ensures room { length work.new ≡ 32 }
    ensures keeps { Keeps T.means host.new unit.old unit.new }
{
    match depth {
        Depth::Deep => {
            let lost = collect(host, unit, segment, usable, work)?;
            Ok(locate_collected(segment, usable, lost, work))
        }
        Depth::Shallow => match read_segment(host, unit, segment, usable, work)? {
            Ok(lost) => Ok(found_block(segment, usable, lost, work)),
            Err(SegFault::Lost { lost, .. }) => Ok(Found::Fails(Unread::Lost(lost))),
            Err(SegFault::Mismatch { .. }) => Ok(Found::Fails(Unread::Mismatch)),
        },
    }
}

/// Finds the block and the wrong sector of a collected segment.
fn locate_collected(segment: u32, usable: u32, lost: LostSet, work: &mut Workspace) -> Found
    requires carries { Carries usable }
    requires within { lost < 2 ^ usable_count usable }
    requires whole { segment < 2 → usable ≡ whole_mask }
    // What the segment's cells say, of which these sectors were gathered.
    ensures found { (c : Cartridge) → Gathered (cells_of c segment usable) lost work.old →
        DeepFinds c (record { segment = segment; mask = usable }) result work.new }
    // And where nothing is known of the cells:
    ensures may { DeepMayFind (record { segment = segment; mask = usable }) result work.new }
    ensures room { length work.new ≡ 32 }
{
    match locate_in(usable, lost, work) {
        Ok(Located::Agrees) => found_block(segment, usable, lost, work),
        Ok(Located::Wrong { place }) => found_wrong(segment, usable, lost, place, work),
        Err(LocateFault::TooMany { lost }) => Found::Fails(Unread::Lost(lost)),
        Err(LocateFault::Mismatch) => Found::Fails(Unread::Mismatch),
    }
}

/// Locates among the first sectors of a workspace, as many as are usable.
fn locate_in(usable: u32, lost: LostSet, work: &mut Workspace) -> Result<Located, LocateFault>
    requires carries { Carries usable }
    ensures locates { Locates (deep.cells_without lost (take (usable_count usable) work.old))
        (take (usable_count usable) work.new) result }
    ensures old { length work.old ≡ 32 }
    ensures room { length work.new ≡ 32 }
{
    let count = LostSet::from_mask(usable).count();
    locate_first(work.sectors_mut(), count, lost)
}

/// Locates among the first 4 to 32 sectors.
fn locate_first(sectors: &mut [Sector], count: u8, lost: LostSet) -> Result<Located, LocateFault>
    requires least { 4 ≤ count }
    requires most { count ≤ 32 }
    requires room { count ≤ length sectors.old }
    ensures locates { Locates (deep.cells_without lost (take count sectors.old))
        (take count sectors.new) result }
    ensures size { length sectors.new ≡ length sectors.old }
{
    locate(&mut sectors[..count as usize], lost)
}

/// What is found of a segment whose block stands in the workspace, where all sectors that could be read agree with it.
fn found_block(segment: u32, usable: u32, lost: LostSet, work: &Workspace) -> Found
    requires block { HasBlock (record { segment = segment; mask = usable }) lost work.now }
    ensures found { (depth : Depth) (c : Cartridge) →
        NamesUnreadable (cells_of c segment usable) lost →
        deep.Deep (cells_of c segment usable) (take (usable_count usable) work.now) None →
        IsFoundBy (IsDeep depth) c (record { segment = segment; mask = usable }) result work.now }
    ensures may { (depth : Depth) → (IsDeep depth → lost_count lost ≤ 3) →
        MayBeBy (IsDeep depth) (record { segment = segment; mask = usable }) result work.now }
{
    if can_be_read(segment, work) {
        Found::Reads {
            places: lost,
            wrong: None,
        }
    } else {
        Found::Fails(Unread::NoHeader)
    }
}

/// What is found of a segment whose block stands in the workspace, where the sector at one place could be read and does
/// not agree with it. A header copy is no such segment where the block begins with no header's signature.
fn found_wrong(segment: u32, usable: u32, lost: LostSet, place: u8, work: &Workspace) -> Found
    requires block { HasBlock (record { segment = segment; mask = usable }) lost work.now }
    requires place { place < usable_count usable }
    ensures found { (c : Cartridge) → NamesUnreadable (cells_of c segment usable) lost →
        deep.Deep (cells_of c segment usable) (take (usable_count usable) work.now) (Some place) →
        DeepFinds c (record { segment = segment; mask = usable }) result work.now }
    ensures may { DeepMayFind (record { segment = segment; mask = usable }) result work.now }
{
    if !can_be_read(segment, work) {
        return Found::Fails(Unread::Mismatch);
    }
    Found::Reads {
        places: lost.with_place(place),
        wrong: Some(index_at(usable, place)),
    }
}

/// Whether a segment whose block stands in the workspace reads: a header copy does where the block begins with a header's
/// signature.
fn can_be_read(segment: u32, work: &Workspace) -> bool
    requires room { length work.now ≡ 32 }
    ensures { (usable : ℕ) → (segment < 2 → usable ≡ whole_mask) →
        reads (record { segment = segment; mask = usable })
        (data_in (record { segment = segment; mask = usable }) work.now) ≡ result }
{
    segment >= HEADER_COPIES || is_header(work)
}

/// Whether the data of a header copy, which was read and solved, begin with a header's signature.
fn is_header(work: &Workspace) -> bool
    requires { length work.now ≡ 32 }
    ensures { result ≡ has_signature (data_of (take 32 work.now)) }
{
    read_u32(&work.sectors()[0], 0) == SIGNATURE
}
