//! Sectors filled with the bytes of a source.

ghost use Rattle.std.specs.Prelude.{◌≡◌, ◌≤◌, length, take, drop, IfOk};
ghost use Rattle.qic_base.specs.Cause.{HasCause};
ghost use Rattle.sector_fill.specs.Filling.{FillsFront, FillsBytes, FillsSectors, IsFrontOf};

use crate::flat::split_bytes;
use qic_base::{Sector, Source, SourceFailed};

/// Reads until the slice is full or the source has ended, and answers how many bytes were read.
fn read_full<S: Source>(source: &mut S, into: &mut [u8]) -> Result<usize, SourceFailed>
    ensures filled { FillsFront S.means source.old source.new into.new result }
    ensures size { length into.new ≡ length into.old }
    ensures kept { S.means.keeps source.old source.new }
    ensures cause { HasCause (S.means.faults source.old) (S.means.faults source.new) result }
{
    let mut len = 0;
    while len < into.len() {
        match source.read(&mut into[len..]) {
            Ok(0) => return Ok(len),
            Ok(count) => len += count,
            Err(fault) => return Err(fault),
        }
    }
    Ok(len)
}

/// Reads up to `most` bytes into the slice, which becomes zero behind them, and answers how many were read.
fn fill_bytes<S: Source>(source: &mut S, into: &mut [u8], most: u32) -> Result<u32, SourceFailed>
    ensures filled { FillsBytes S.means source.old source.new most into.new result }
    ensures size { length into.new ≡ length into.old }
    ensures kept { S.means.keeps source.old source.new }
    ensures cause { HasCause (S.means.faults source.old) (S.means.faults source.new) result }
{
    let limit = into.len().min(most as usize);
    let len = read_full(source, &mut into[..limit])?;
    into[len..].fill(0);
    Ok(len as u32)
}

/// Reads up to `most` bytes into the first `count` sectors, one behind the other, and answers how many were read: fewer
/// than that and than the sectors hold only where the source has ended. The sectors become zero behind them. A failure
/// leaves them with anything, and the bytes that were read before it are taken from the source.
pub fn fill_sectors<S: Source>(
    source: &mut S,
    sectors: &mut [Sector],
    count: u8,
    most: u32,
) -> Result<u32, SourceFailed>
    requires { count ≤ length sectors.old }
    ensures filled { FillsSectors S.means source.old source.new count most (take count sectors.new) result }
    ensures told { IfOk result (λ n. IsFrontOf S.means source.old source.new count most (take count sectors.new) n) }
    ensures behind { drop count sectors.new ≡ drop count sectors.old }
    ensures size { length sectors.new ≡ length sectors.old }
    ensures kept { S.means.keeps source.old source.new }
    ensures cause { HasCause (S.means.faults source.old) (S.means.faults source.new) result }
{
    let (bytes, _) = split_bytes(sectors, usize::from(count));
    fill_bytes(source, bytes, most)
}
