//! One segment searched for a wrong sector, and nothing of it written.

ghost use Rattle.std.specs.Prelude.{◌≡◌, ◌<◌, [], length, IfOk};
ghost use Rattle.qic_base.specs.TapeCalls.{Does, Tells};
ghost use Rattle.cartridge_spec.specs.Says.{whole_mask};
ghost use Rattle.host_driver.specs.Calls.{Keeps};
ghost use Rattle.segment_io.specs.Calls.{CanRead};
ghost use Rattle.segment_mending.specs.Searching.{SearchFinds, SearchMayFind, searched_of};

use crate::locating::{Found, Unread, find_in_segment};
use command_spec::Depth;
use drive_states::Unit;
use host_driver::Host;
use qic_base::{Tape, TapeFailed};
use segment_io::Workspace;

/// What a search for a wrong sector finds of a segment.
#[derive(Clone, Copy)]
pub enum Searched {
    /// It reads, and so many of its usable sectors can't be read, 0 to 3.
    Reads { lost: u8 },
    /// It reads without the sector with this index, 0 to 31, which can be read and is wrong.
    Wrong { sector: u8 },
    /// It does not read.
    Fails(Unread),
}

/// What is found, without the places to be written.
fn without_places(found: Found) -> Searched
    ensures { result ≡ searched_of found }
{
    match found {
        Found::Reads { places, wrong } => match wrong {
            None => Searched::Reads {
                lost: places.count(),
            },
            Some(sector) => Searched::Wrong { sector },
        },
        Found::Fails(why) => Searched::Fails(why),
    }
}

/// Reads a segment, counted from 0, of which bit `i` of `usable` stands for sector `i`, and looks for a wrong sector in
/// it, whichever segment it is. The first sectors of the workspace become its block where it has one.
pub fn search_segment<T: Tape>(
    host: &mut Host,
    unit: &mut Unit<T>,
    segment: u32,
    usable: u32,
    work: &mut Workspace,
) -> Result<Searched, TapeFailed>
    requires can { CanRead T.means host.old unit.old segment usable }
    requires whole { segment < 2 → usable ≡ whole_mask }
    ensures did { Does T.means unit.old.tape unit.new.tape [] result }
    ensures found { IfOk result (λ searched. Tells T.means unit.old.tape (λ c.
        SearchFinds c (record { segment = segment; mask = usable }) searched work.new)) }
    // And where the tape tells nothing:
    ensures may { IfOk result (λ searched.
        SearchMayFind (record { segment = segment; mask = usable }) searched work.new) }
    ensures room { length work.new ≡ 32 }
    ensures keeps { Keeps T.means host.new unit.old unit.new }
{
    let found = find_in_segment(host, unit, Depth::Deep, segment, usable, work)?;
    Ok(without_places(found))
}
