//! The segment of the first piece, and the longest dump.

ghost use Rattle.std.specs.Prelude.{◌≡◌, ◌≤◌, ◌*◌, ◌+◌, ◌∷◌, [], List, length, count_by, IfOk, IfSome};
ghost use Rattle.std.specs.List.{range_with_len};
ghost use Rattle.cartridge_spec.specs.Header.{has_signature};
ghost use Rattle.dump_lists.specs.Masks.{IsMissingSet};
ghost use Rattle.dump_spec.specs.Lists.{Span};
ghost use Rattle.dump_spec.specs.Pieces.{first_segment, most_bytes, longest_piece};
ghost use Rattle.dump_reader.specs.Missing.{there_from};
ghost use Rattle.qic_base.specs.Disk.{Look, Stores};

use crate::piece::is_marked;
use dump_lists::SEGMENTS;
use dump_spec::Form;
use header_segments::SIGNATURE;
use qic_base::{Disk, DiskFailed, read_u32};

/// Whether a dump begins with a header's signature.
fn begins_with_signature<D: Disk>(disk: &mut D) -> Result<bool, DiskFailed>
    ensures did { Stores D.means disk.old disk.new Look result }
    ensures signature { IfOk result (λ begins. IfSome (D.means.told disk.old) (λ bytes.
        begins ≡ has_signature (bytes ∷ []))) }
{
    let mut head = [0; 4];
    let count = disk.read_at(0, &mut head)?;
    Ok(count == 4 && read_u32(&head, 0) == SIGNATURE)
}

/// The segment of the first piece: the one that is asked for; else 0, but 2 in the form of data where the dump does not begin
/// with a header's signature. The disk is read in the form of data alone, its first four bytes, where none is asked for.
pub fn first_segment<D: Disk>(
    disk: &mut D,
    form: Form,
    asked: Option<u16>,
) -> Result<u16, DiskFailed>
    ensures did { Stores D.means disk.old disk.new Look result }
    ensures first { IfOk result (λ segment. IfSome (D.means.told disk.old) (λ bytes.
        segment ≡ first_segment form asked bytes)) }
{
    match (asked, form) {
        (Some(segment), _) => Ok(segment),
        (None, Form::Sectors) => Ok(0),
        (None, Form::Data) => {
            let begins = begins_with_signature(disk)?;
            Ok(if begins { 0 } else { 2 })
        }
    }
}

/// How many of the segments from one on the dump does not lack.
fn count_there(first: u16, missing: &[u32]) -> u32
    ensures there { result ≡ there_from missing.now first }
    ensures few { result ≤ 65536 }
{
    let mut count = 0;
    for segment in u32::from(first)..SEGMENTS {
        if !is_marked(missing, segment) {
            count += 1;
        }
    }
    count
}

fn longest_piece(form: Form) -> u64
    ensures longest { result ≡ longest_piece form }
    ensures few { result ≤ 32768 }
{
    match form {
        Form::Sectors => 32_768,
        Form::Data => 29_696,
    }
}

/// How many bytes the longest dump has whose first piece is that of a segment, in a set of those that it lacks of 65,536
/// segments, a bit for each.
pub fn most_bytes(form: Form, first: u16, missing: &[u32]) -> u64
    requires { 2048 ≤ length missing.now }
    ensures { (spans : List Span) → IsMissingSet spans missing.now → result ≡ most_bytes form first spans }
{
    longest_piece(form) * u64::from(count_there(first, missing))
}
