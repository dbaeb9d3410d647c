//! The sectors of a piece.

ghost use Rattle.std.specs.Prelude.{◌≡◌, ◌+◌, ◌-◌, ◌*◌, ◌≤◌, ◌<◌, ℕ, length, min, take, drop, IfOk, IfSome, true};
ghost use Rattle.std.specs.Simd.{first_chunks};
ghost use Rattle.dump_spec.specs.Dump.{Dump};
ghost use Rattle.dump_reader.specs.Piece.{IsDumpIn, HoldsSectors, is_marked, is_unread};
ghost use Rattle.qic_base.specs.Disk.{Look, Stores};
ghost use Rattle.qic_base.specs.CartridgeTerms.{is_lost};

use qic_base::{Disk, DiskFailed, LostSet, SECTOR, SECTORS, Sector};

/// The bytes of a segment's 32 sectors.
pub(crate) const SEGMENT: usize = 32 * SECTOR;

/// Whether a sector is in a set, a bit a sector.
pub(crate) fn is_marked(rescued: &[u32], sector: u32) -> bool
    ensures { result ≡ is_marked rescued.now sector }
{
    let word = (sector / 32) as usize;
    word < rescued.len() && rescued[word] >> (sector % 32) & 1 == 1
}

/// Whether the sector with an index can't be read, of those of a dump from one on, of which so many were read whole.
fn is_unread(rescued: &[u32], start: u32, held: u8, index: u8) -> bool
    requires { start + index < 4294967296 }
    ensures { result ≡ is_unread rescued.now start held index }
{
    !(index < held && is_marked(rescued, start + u32::from(index)))
}

/// The indexes below 32 of those that can't be read.
fn unread_sectors(rescued: &[u32], start: u32, held: u8) -> LostSet
    requires { start + 32 < 4294967296 }
    ensures { (index : ℕ) → index < 32 → is_lost result index ≡ is_unread rescued.now start held index }
{
    let mut unread = LostSet::from_mask(0);
    for index in 0..SECTORS {
        if is_unread(rescued, start, held, index) {
            unread = unread.with_place(index);
        }
    }
    unread
}

/// Parts the bytes of a segment into its sectors.
pub(crate) fn put_sectors(bytes: &[u8; SEGMENT], sectors: &mut [Sector])
    requires { length sectors.old ≡ 32 }
    ensures { sectors.new ≡ first_chunks 1024 32 bytes.now }
{
    let (chunks, _) = bytes.as_chunks::<SECTOR>();
    sectors.copy_from_slice(chunks);
}

/// Reads the bytes from a place on to the front of others, up to so many, and answers how many there were.
pub(crate) fn read_front<D: Disk>(
    disk: &mut D,
    place: u64,
    most: usize,
    bytes: &mut [u8; SEGMENT],
) -> Result<usize, DiskFailed>
    requires { most ≤ 32768 }
    ensures did { Stores D.means disk.old disk.new Look result }
    ensures within { IfOk result (λ n. n ≤ most) }
    ensures amount { IfOk result (λ n. IfSome (D.means.told disk.old) (λ told.
        n ≡ min most (length told - place))) }
    ensures given { IfOk result (λ n. IfSome (D.means.told disk.old) (λ told.
        take n bytes.new ≡ take n (drop place told))) }
{
    disk.read_at(place, &mut bytes[..most])
}

/// Reads sectors of a dump from one on, so many, to the front of the 32 of a segment, and answers the indexes of those that
/// can't be read: the dump doesn't have all their bytes, or they aren't in the set of those that were rescued.
pub fn read_sectors<D: Disk>(
    disk: &mut D,
    rescued: &[u32],
    start: u32,
    count: u8,
    sectors: &mut [Sector],
) -> Result<LostSet, DiskFailed>
    requires room { length sectors.old ≡ 32 }
    requires few { count ≤ 32 }
    requires start { start + 32 < 4294967296 }
    ensures did { Stores D.means disk.old disk.new Look result }
    ensures sectors { IfOk result (λ unread. (dump : Dump) → IsDumpIn (D.means.told disk.old) rescued.now dump →
        HoldsSectors dump start count unread sectors.new) }
    ensures behind { IfOk result (λ unread. (index : ℕ) → count ≤ index → index < 32 → is_lost unread index ≡ true) }
    ensures room { length sectors.new ≡ 32 }
{
    let mut bytes = [0; SEGMENT];
    let place = SECTOR as u64 * u64::from(start);
    let len = read_front(disk, place, SECTOR * count as usize, &mut bytes)?;
    put_sectors(&bytes, sectors);
    Ok(unread_sectors(rescued, start, (len / SECTOR) as u8))
}
