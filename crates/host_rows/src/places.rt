//! The way to a segment, and a halt there.

use crate::cable::{Row, begun, first_wrong, put_away, written};
use crate::trains::{FIRST_OF_FOUR, WRITTEN};
use drive_states::Unit;
use qic_mem::MemTape;

/// Has a host go to segment 4 by way of segment 82, on the way back, and stop there; None where there is no host.
fn halt_at_four(unit: &mut Unit<MemTape>) -> Option<()> {
    let mut host = begun(unit)?;
    host.go_to(unit, 82);
    host.go_to(unit, 4);
    host.halt(unit);
    Some(())
}

#[test]
fn a_halted_tape_comes_to_its_segment_again(rt: HostRuntime) {
    let mut unit = written(&rt, rt.alloc(), &[]);
    let answer = halt_at_four(&mut unit);
    let rows = [
        Row::Status(0x25),
        Row::Train(10),
        // The tape streams before the first sector of segment 4, and stops amid the track.
        Row::Status(0x24),
        Row::Shows(FIRST_OF_FOUR, WRITTEN),
        Row::Train(18),
        Row::Status(0x25),
    ];
    let seen = (answer, first_wrong(&mut unit, &rows));
    put_away(unit);
    assert_eq!(rt; seen, (Some(()), None));
}
