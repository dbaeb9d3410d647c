//! A made volume over a sink that fails.

use crate::runs::{prints, told_into};
use crate::streams::ROOM;
use crate::units::{formatted, put_away};
use tape_cmd::Status;

/// What `list` prints of the volume.
const LIST: &[u8] = b"1 3 7 139000 1970-01-01T00:00:00 made-1\nvolumes 1\n";

#[test]
fn a_made_volume_stands_behind_a_failing_sink(rt: HostRuntime) {
    let alloc = rt.alloc();
    // The line of the scrub is printed once the volume stands, and then the line of its sum.
    for (write, text) in [(0, b"".as_slice()), (1, b"scrub 8 0 0\n".as_slice())] {
        let mut unit = formatted(&rt, alloc);
        assert_eq!(rt;
            told_into(
                &rt,
                alloc,
                &["make", "1", "1"],
                &mut unit,
                ROOM,
                write,
                text
            ),
            (Status::SinkFault, true),
            "write {write}"
        );
        prints(&rt, alloc, &mut unit, &["list"], LIST);
        put_away(unit);
    }
}

#[test]
fn a_sector_more_is_lost_behind_a_failing_sink(rt: HostRuntime) {
    let alloc = rt.alloc();
    // In the table's segment: that with the slot, the last one of data, and the parity.
    for lost in [0, 28, 29, 30, 31] {
        let mut unit = formatted(&rt, alloc);
        assert_eq!(rt;
            told_into(&rt, alloc, &["make", "1", "1"], &mut unit, ROOM, 0, b""),
            (Status::SinkFault, true),
            "sector {lost}"
        );
        assert_eq!(rt; unit.wear(2, lost), Ok(Ok(())), "sector {lost}");
        prints(&rt, alloc, &mut unit, &["list"], LIST);
        put_away(unit);
    }
}
