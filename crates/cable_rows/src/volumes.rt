//! The bytes of made volumes and their sums.

use qic_base::{Source, write_text};
use std::test::Fail;
use tape_script::{Made, Summed, skip};

/// How many bytes a made volume of seed 150 has, and their sum.
fn made(volume: u32) -> Result<(u32, u32), Fail> {
    let mut made = Made::new(150, volume);
    let mut summed = Summed::new();
    let mut bytes: u32 = 0;
    let mut block = [0; 1024];
    for _piece in 0..6000 {
        let count = made.read(&mut block)?;
        if count == 0 {
            break;
        }
        write_text(&block[..count], &mut summed)?;
        bytes = bytes.saturating_add(count as u32);
    }
    Ok((bytes, summed.sum()))
}

#[test]
fn three_volumes_of_an_evening(rt: HostRuntime) -> Result<(), Fail> {
    let seen = [made(1)?, made(2)?, made(3)?];
    assert_eq!(rt;
        seen,
        [
            (5_652_000, 706_499_163),
            (5_753_000, 719_124_829),
            (5_854_000, 731_744_087),
        ]
    );
    Ok(())
}

#[test]
fn bytes_of_a_volume(rt: HostRuntime) -> Result<(), Fail> {
    // Byte `i` of volume 3 of seed 150 is `i + 93 + 150` modulo 251.
    let mut volume = Made::new(150, 3);
    let mut front = [0; 12];
    assert_eq!(rt; volume.read(&mut front)?, 12);
    assert_eq!(rt; front, [243, 244, 245, 246, 247, 248, 249, 250, 0, 1, 2, 3]);
    Ok(())
}

#[test]
fn fewer_are_skipped_at_the_end(rt: HostRuntime) -> Result<(), Fail> {
    let mut volume = Made::new(150, 1);
    let skipped = [
        skip(&mut volume, 5_651_999)?,
        skip(&mut volume, 0)?,
        skip(&mut volume, 10)?,
        skip(&mut volume, 10)?,
    ];
    assert_eq!(rt; skipped, [5_651_999, 0, 1, 0]);
    Ok(())
}
