//! Copies over tapes that never fail.

use crate::cartridges::{BYTES, formatted, put_away, target, two_volumes};
use crate::runs::{copied, prints, takes};
use qic_base::StoreFault;
use volume_copy::CopyStatus;

/// What a copy prints that copies both volumes of the source.
pub const BOTH: &[u8] = b"copied 1 10\ncopied 2 0\nvolumes 2\n";

/// What one prints that finds both on the target.
pub const NEITHER: &[u8] = b"volumes 2\n";

/// What `list` prints of the target once both volumes are on it.
pub const LIST: &[u8] =
    b"1 4 4 10 1970-01-01T00:00:00 a\n2 5 5 0 1970-01-01T00:00:00 b\nvolumes 2\n";

#[test]
fn volumes_are_copied_once(rt: HostRuntime) {
    let alloc = rt.alloc();
    let mut to = target(&rt, alloc);
    let from = two_volumes(&rt, alloc);
    let (first, from) = copied(&rt, alloc, from, &mut to, BOTH);
    prints(&rt, alloc, &mut to, &["list"], LIST);
    prints(&rt, alloc, &mut to, &["restore", "1"], BYTES);
    prints(&rt, alloc, &mut to, &["restore", "2"], b"");
    let (second, from) = copied(&rt, alloc, from, &mut to, NEITHER);
    prints(&rt, alloc, &mut to, &["list"], LIST);
    put_away(to);
    put_away(from);
    assert_eq!(rt; [first, second], [(CopyStatus::Done, true); 2]);
}

#[test]
fn a_lost_segment_of_the_source_is_named(rt: HostRuntime) {
    let alloc = rt.alloc();
    let mut from = formatted(&rt, alloc);
    // 59,393 bytes take the segments 3 to 5: two full ones, and a byte.
    takes(
        &rt,
        alloc,
        &mut from,
        &["append", "a"],
        &[0x5A; 59_393],
        b"appended 1 59393 3 5\n",
    );
    prints(&rt, alloc, &mut from, &["lose", "4", "0"], b"lost 4 0\n");
    prints(&rt, alloc, &mut from, &["lose", "4", "1"], b"lost 4 1\n");
    prints(&rt, alloc, &mut from, &["lose", "4", "2"], b"lost 4 2\n");
    prints(&rt, alloc, &mut from, &["lose", "4", "31"], b"lost 4 31\n");
    let mut to = formatted(&rt, alloc);
    let (ending, from) = copied(&rt, alloc, from, &mut to, b"");
    prints(&rt, alloc, &mut to, &["list"], b"volumes 0\n");
    put_away(to);
    put_away(from);
    let fault = StoreFault::Lost {
        segment: 4,
        lost: 4,
    };
    assert_eq!(rt; ending, (CopyStatus::From { fault }, true));
}

#[test]
fn a_volume_of_another_name_differs(rt: HostRuntime) {
    let alloc = rt.alloc();
    let from = two_volumes(&rt, alloc);
    let mut to = formatted(&rt, alloc);
    takes(
        &rt,
        alloc,
        &mut to,
        &["append", "x"],
        BYTES,
        b"appended 1 10 3 3\n",
    );
    let (ending, from) = copied(&rt, alloc, from, &mut to, b"");
    prints(
        &rt,
        alloc,
        &mut to,
        &["list"],
        b"1 3 3 10 1970-01-01T00:00:00 x\nvolumes 1\n",
    );
    put_away(to);
    put_away(from);
    assert_eq!(rt; ending, (CopyStatus::Differs { number: 1 }, true));
}
