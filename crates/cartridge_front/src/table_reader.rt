//! The volume table's segment read.

ghost use Rattle.std.specs.Prelude.{◌≡◌, ℕ, [], true, length, Err, IfOk};
ghost use Rattle.qic_base.specs.TapeCalls.{Does, Tells};
ghost use Rattle.cartridge_spec.specs.TableSegment.{table_cells};
ghost use Rattle.command_spec.specs.Numbers.{AreTooMany};
ghost use Rattle.drive_spec.specs.Terms.{is_referenced};
ghost use Rattle.drive_states.specs.Reach.{reads_in};
ghost use Rattle.host_driver.specs.Calls.{IsReady, Keeps};
ghost use Rattle.cartridge_front.specs.Finding.{FindsTable};
ghost use Rattle.table_solve.specs.Reading.{IsReadBut};

use drive_states::Unit;
use host_driver::Host;
use qic_base::{LostSet, Tape, TapeFailed, WHOLE};
use segment_io::{SegFault, Workspace, collect};
use table_solve::{Unread, solve_table};
use volume_table::{TABLE_SEGMENT, Table, TableReading};

/// Reads the volume table's segment: its data sectors as they are, where all can be read, and else those of the code
/// block that agrees with the others, or with those outside the first of the further sets for which there is one. The
/// parity sectors stand as they are. The answer is the sectors that the tape may hold otherwise.
pub fn read_table<T: Tape>(
    host: &mut Host,
    unit: &mut Unit<T>,
    work: &mut Workspace,
) -> Result<Result<Unread, SegFault>, TapeFailed>
    requires ready { IsReady T.means host.old unit.old }
    requires mode { reads_in unit.old.drive.deck.mode ≡ true }
    requires referenced { is_referenced unit.old.drive.deck ≡ true }
    ensures did { Does T.means unit.old.tape unit.new.tape [] result }
    ensures found { IfOk result (λ read. Tells T.means unit.old.tape (λ c.
        FindsTable c work.new read)) }
    // Each other sector stands as the tape holds it.
    ensures known { IfOk result (λ read. IfOk read (λ unread. Tells T.means unit.old.tape (λ c.
        IsReadBut (table_cells c) unread work.new))) }
    // And where the tape tells nothing:
    ensures many { IfOk result (λ read. (named n : ℕ) → read ≡ Err (SegFault.Lost named n) →
        (named ≡ 2) × AreTooMany n) }
    ensures mismatch { IfOk result (λ read. (named : ℕ) →
        read ≡ Err (SegFault.Mismatch named) → named ≡ 2) }
    ensures room { length work.new ≡ 32 }
    ensures keeps { Keeps T.means host.new unit.old unit.new }
{
    let lost = collect(host, unit, TABLE_SEGMENT, WHOLE, work)?;
    match Table::reading(lost) {
        TableReading::AsRead => Ok(Ok(Unread {
            lost,
            left_out: LostSet::from_mask(0),
        })),
        TableReading::Solve => Ok(solve_table(lost, work)),
        TableReading::TooMany { lost } => Ok(Err(SegFault::Lost {
            segment: TABLE_SEGMENT,
            lost,
        })),
    }
}
