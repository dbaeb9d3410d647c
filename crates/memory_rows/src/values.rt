//! The words that every layer shares: dates, fields, lost sets and names.

use qic_base::{
    BadDate, LostSet, Name, read_u16, read_u32, read_u64, stamp, write_u16, write_u32, write_u64,
};

#[test]
fn dates_are_stamped_within_their_ranges(rt: HostRuntime) {
    let stamped = [
        stamp(1994, 3, 1, 12, 0, 0),
        stamp(2097, 12, 31, 23, 59, 59),
        stamp(1994, 3, 32, 12, 0, 0),
        stamp(1994, 13, 1, 12, 0, 0),
        stamp(1994, 3, 0, 12, 0, 0),
    ];
    assert_eq!(rt;
        stamped,
        [
            Ok(0x3052_65C0),
            Ok(0xFFEA_6DFF),
            Err(BadDate),
            Err(BadDate),
            Err(BadDate),
        ]
    );
}

#[test]
fn a_table_slot_is_written_and_read(rt: HostRuntime) {
    let mut slot = [0xAAu8; 18];
    write_u16(&mut slot, 1, 83);
    write_u32(&mut slot, 4, 0x3052_65C0);
    write_u64(&mut slot, 9, 2_405_376);
    let want = [
        0xAA, 0x53, 0x00, 0xAA, 0xC0, 0x65, 0x52, 0x30, 0xAA, 0x00, 0xB4, 0x24, 0x00, 0x00, 0x00,
        0x00, 0x00, 0xAA,
    ];
    let seen = (
        slot,
        read_u16(&slot, 1),
        read_u32(&slot, 4),
        read_u64(&slot, 9),
    );
    assert_eq!(rt; seen, (want, 83, 0x3052_65C0, 2_405_376));
}

#[test]
fn a_mask_names_its_places(rt: HostRuntime) {
    let lost = LostSet::from_mask(0x8000_0021);
    let contained = [
        lost.contains(0),
        lost.contains(1),
        lost.contains(5),
        lost.contains(30),
        lost.contains(31),
        lost.contains(32),
        lost.contains(37),
        lost.contains(255),
    ];
    let counts = [
        lost.count(),
        LostSet::from_mask(0).count(),
        LostSet::from_mask(u32::MAX).count(),
    ];
    assert_eq!(rt;
        (lost.mask(), contained, counts),
        (
            0x8000_0021,
            [true, false, true, false, true, false, false, false],
            [3, 0, 32],
        )
    );
}

#[test]
fn a_name_keeps_its_bytes(rt: HostRuntime) {
    let mut bytes = [b' '; 44];
    bytes[0] = 0;
    bytes[43] = 0xFF;
    let name = Name::from_bytes(&bytes);
    let seen = (*name.bytes(), name == Name::from_bytes(&[b' '; 44]));
    assert_eq!(rt; seen, (bytes, false));
}

#[test]
fn a_name_is_made_from_text(rt: HostRuntime) {
    let mut evening = [b' '; 44];
    evening[..8].copy_from_slice(b"made - 1");
    let made = [
        Name::from_text(b"made - 1"),
        Name::from_text(&[b'~'; 44]),
        Name::from_text(&[b'~'; 45]),
        Name::from_text(b""),
        Name::from_text(b" a"),
        Name::from_text(b"a "),
        Name::from_text(&[b'a', 0x1F, b'a']),
        Name::from_text(&[b'a', 0x7F, b'a']),
    ];
    assert_eq!(rt;
        made,
        [
            Some(Name::from_bytes(&evening)),
            Some(Name::from_bytes(&[b'~'; 44])),
            None,
            None,
            None,
            None,
            None,
            None,
        ]
    );
}
