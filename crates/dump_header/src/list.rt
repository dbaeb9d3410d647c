//! The bad sector list of a header.

ghost use Rattle.std.specs.Prelude.{◌≡◌, ◌+◌, ◌^◌, ◌<◌, ◌≤◌, drop, length};
ghost use Rattle.std.specs.List.{list_any};
ghost use Rattle.cartridge_laws.specs.HeaderTerms.{byte_in};
ghost use Rattle.cartridge_spec.specs.Volumes.{bytes_in};
ghost use Rattle.dump_spec.specs.Header.{list_entries, names_sector};
ghost use Rattle.dump_header.specs.Marking.{MarksToo, entry_in};

use qic_base::{SECTOR, Sector};
use rescue_map::mark;

/// The bytes of a header's data.
const BYTES: usize = 29 * SECTOR;

/// The bytes of an entry.
const ENTRY: usize = 3;

/// From this one on an entry stands for all sectors of a segment.
const ENTIRE: u32 = 1 << 23;

fn byte_at(area: &[Sector], at: usize) -> u8
    requires sectors { length area.now ≡ 29 }
    requires within { at < BYTES }
    ensures { result ≡ byte_in area.now at }
{
    area[at / SECTOR][at % SECTOR]
}

/// The three bytes from this one on, the lowest first.
fn entry_at(area: &[Sector], at: usize) -> u32
    requires sectors { length area.now ≡ 29 }
    requires within { at + 3 ≤ BYTES }
    ensures entry { result ≡ entry_in area.now at }
    ensures small { result < 2 ^ 24 }
{
    let low = u32::from(byte_at(area, at));
    let middle = u32::from(byte_at(area, at + 1));
    let high = u32::from(byte_at(area, at + 2));
    low + 256 * (middle + 256 * high)
}

/// Marks what an entry names.
fn mark_entry(words: &mut [u32], entry: u32)
    requires { entry < 2 ^ 24 }
    ensures { MarksToo words.old words.new (names_sector entry) }
{
    let number = entry % ENTIRE;
    if number == 0 {
        return;
    }
    let sector = u64::from(number - 1);
    if entry >= ENTIRE {
        let first = sector / 32 * 32;
        mark(words, first, first + 32);
    } else {
        mark(words, sector, sector + 1);
    }
}

/// Marks what the entries of a list name, which begins at this byte. 0 ends it, and so does the end of the data.
pub fn mark_list(area: &[Sector], offset: usize, words: &mut [u32])
    requires sectors { length area.now ≡ 29 }
    requires within { offset ≤ BYTES }
    ensures { MarksToo words.old words.new (λ segment index.
        list_any (λ entry. names_sector entry segment index) (list_entries (drop offset (bytes_in area.now)))) }
{
    let mut at = offset;
    while at + ENTRY <= BYTES {
        let entry = entry_at(area, at);
        if entry == 0 {
            return;
        }
        mark_entry(words, entry);
        at += ENTRY;
    }
}
