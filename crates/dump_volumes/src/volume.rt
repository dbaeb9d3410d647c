//! A volume, as a slot tells it.

ghost use Rattle.std.specs.Prelude.{◌≡◌, ◌<◌, ◌≤◌, ◌+◌, ◌^◌, length};
ghost use Rattle.dump_spec.specs.Volumes.{told_segments, counted_volume, volume_in};
ghost use Rattle.dump_volumes.specs.Volume.{volume_of, told_volume, first_behind};

use qic_base::read_u32;
use volume_table::{Entry, entry_at};

/// A volume of a dump's table. Its range may be bad.
#[derive(Clone, Copy, Drop)]
pub struct Volume {
    /// The first segment that carries it.
    pub start: u64,
    /// The last segment that carries it.
    pub end: u64,
    /// What its slot tells. `start` and `end` stand in place of the segments in it.
    pub entry: Entry,
    /// Whether its data are compressed.
    pub compressed: bool,
}

/// The place in a slot of the byte whose highest bit says that the data are compressed.
const COMPRESSION: usize = 124;

fn is_compressed(bytes: &[u8]) -> bool
    requires { length bytes.now ≡ 128 }
    ensures { result ≡ (volume_in bytes.now).compressed }
{
    bytes[COMPRESSION] >> 7 & 1 == 1
}

/// The volume of a slot that tells its first and its last segment.
fn volume_in(bytes: &[u8]) -> Volume
    requires { length bytes.now ≡ 128 }
    ensures { volume_of result ≡ volume_in bytes.now }
{
    let entry = entry_at(bytes);
    Volume {
        start: u64::from(entry.start),
        end: u64::from(entry.end),
        entry,
        compressed: is_compressed(bytes),
    }
}

/// How many segments a slot of the format code 6 tells.
fn told_segments(bytes: &[u8]) -> u64
    requires { length bytes.now ≡ 128 }
    ensures count { result ≡ told_segments bytes.now }
    ensures small { result < 2 ^ 32 }
{
    u64::from(read_u32(bytes, 4))
}

/// The volume of a slot that tells how many segments it has, which begin with this one.
fn counted_volume(first: u64, bytes: &[u8]) -> Volume
    requires slot { length bytes.now ≡ 128 }
    requires near { first < 2 ^ 48 }
    ensures { volume_of result ≡ counted_volume first bytes.now }
{
    Volume {
        start: first,
        end: (first + told_segments(bytes)).saturating_sub(1),
        entry: entry_at(bytes),
        compressed: is_compressed(bytes),
    }
}

/// The volume of a slot. Where slots count the segments, its own begin with `first`.
pub fn read_volume(counts: bool, first: u64, bytes: &[u8]) -> Volume
    requires slot { length bytes.now ≡ 128 }
    requires near { first < 2 ^ 48 }
    ensures { volume_of result ≡ told_volume counts first bytes.now }
{
    if counts {
        counted_volume(first, bytes)
    } else {
        volume_in(bytes)
    }
}

/// The segment with which the next volume begins, where slots count the segments.
pub fn first_behind(counts: bool, first: u64, bytes: &[u8]) -> u64
    requires slot { length bytes.now ≡ 128 }
    requires near { first < 2 ^ 48 }
    ensures behind { result ≡ first_behind counts first bytes.now }
    ensures near { result ≤ first + 2 ^ 32 }
{
    if counts {
        first + told_segments(bytes)
    } else {
        first
    }
}
