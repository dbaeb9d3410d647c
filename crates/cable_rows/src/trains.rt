//! A line of `pulses` amid which its source fails.

use crate::memory::source;
use qic_base::SourceFailed;
use std::test::Fail;
use tape_script::{Train, TrainRead};

#[test]
fn a_read_that_fails_in_a_line(rt: HostRuntime) -> Result<(), Fail> {
    let mut source = source(rt.alloc(), b"255\n6\n", &[2])?;
    let mut buffer = [0; 128];
    let seen = [
        Train::read(&mut source, &mut buffer),
        Train::read(&mut source, &mut buffer),
    ];
    let rest = TrainRead::Train { pulses: 5, read: 2 };
    assert_eq!(rt; seen, [Err(SourceFailed), Ok(rest)]);
    Ok(())
}
