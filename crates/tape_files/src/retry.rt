//! Calls that a signal interrupted, made again.

ghost use Rattle.std.specs.Prelude.{◌≤◌, ◌≢◌, length, IfErr, IfOk};
ghost use Rattle.std.specs.IoError.{error_kind};

use std::io;
use std::io::{ErrorKind, Read, Write};
use std::os::unix::fs::FileExt;

/// One read; one that a signal interrupts is tried again.
pub(crate) fn read_some<R: Read>(reader: &mut R, into: &mut [u8]) -> io::Result<usize>
    ensures within { IfOk result (λ n. n ≤ length into.old) }
    ensures retried { IfErr result (λ error. error_kind error ≢ ErrorKind.Interrupted) }
{
    for _ in 0..u64::MAX {
        match reader.read(into) {
            Err(error) if error.kind() == ErrorKind::Interrupted => {}
            answer => return answer,
        }
    }
    Err(io::Error::from(ErrorKind::TimedOut))
}

/// One write; one that a signal interrupts is tried again.
pub(crate) fn write_some<W: Write>(writer: &mut W, from: &[u8]) -> io::Result<usize>
    ensures within { IfOk result (λ n. n ≤ length from.now) }
    ensures retried { IfErr result (λ error. error_kind error ≢ ErrorKind.Interrupted) }
{
    for _ in 0..u64::MAX {
        match writer.write(from) {
            Err(error) if error.kind() == ErrorKind::Interrupted => {}
            answer => return answer,
        }
    }
    Err(io::Error::from(ErrorKind::TimedOut))
}

/// Reads from a place on until `into` is full or the file ends, and answers how many bytes: a read that comes back
/// short is read on, and one that a signal interrupts is tried again.
pub(crate) fn read_from<F: FileExt>(file: &F, place: u64, into: &mut [u8]) -> io::Result<usize>
    ensures within { IfOk result (λ n. n ≤ length into.old) }
    ensures retried { IfErr result (λ error. error_kind error ≢ ErrorKind.Interrupted) }
{
    let mut count = 0;
    for _ in 0..u64::MAX {
        if count >= into.len() {
            break;
        }
        let at = place.saturating_add(count as u64);
        match file.read_at(&mut into[count..], at) {
            Ok(0) => break,
            Ok(more) => count += more,
            Err(error) if error.kind() == ErrorKind::Interrupted => {}
            Err(error) => return Err(error),
        }
    }
    Ok(count)
}

#[cfg(test)]
mod tests {
    use super::*;
    use std::cell::Cell;

    /// Gives and takes two bytes a call, and is interrupted before each.
    #[derive(Drop)]
    struct Halting {
        interrupted: Cell<bool>,
    }

    impl Halting {
        fn turn(&self) -> io::Result<()> {
            let interrupted = self.interrupted.get();
            self.interrupted.set(!interrupted);
            if interrupted {
                Ok(())
            } else {
                Err(io::Error::from(ErrorKind::Interrupted))
            }
        }
    }

    const TEXT: [u8; 5] = *b"short";

    impl FileExt for Halting {
        fn read_at(&self, into: &mut [u8], place: u64) -> io::Result<usize> {
            self.turn()?;
            let place = place.min(5) as usize;
            let count = into.len().min(2).min(5 - place);
            into[..count].copy_from_slice(&TEXT[place..place + count]);
            Ok(count)
        }

        fn write_at(&self, from: &[u8], _place: u64) -> io::Result<usize> {
            self.turn()?;
            Ok(from.len().min(2))
        }
    }

    impl Read for Halting {
        fn read(&mut self, into: &mut [u8]) -> io::Result<usize> {
            self.read_at(into, 0)
        }
    }

    impl Write for Halting {
        fn write(&mut self, from: &[u8]) -> io::Result<usize> {
            self.write_at(from, 0)
        }

        fn flush(&mut self) -> io::Result<()> {
            Ok(())
        }
    }

    fn make_halting() -> Halting {
        Halting {
            interrupted: Cell::new(false),
        }
    }

    #[test]
    fn interrupted_calls_are_tried_again_and_short_reads_read_on(rt: HostRuntime) {
        let mut halting = make_halting();
        let mut into = [0; 8];
        let seen = (
            read_some(&mut halting, &mut into).ok(),
            write_some(&mut halting, b"short").ok(),
            read_from(&halting, 1, &mut into).ok(),
            into,
            read_from(&halting, 0, &mut into[..3]).ok(),
            into,
        );
        assert_eq!(rt;
            seen,
            (
                Some(2),
                Some(2),
                Some(4),
                *b"hort\0\0\0\0",
                Some(3),
                *b"shot\0\0\0\0",
            )
        );
    }
}
