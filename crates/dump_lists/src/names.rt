//! What a line of a list names.

ghost use Rattle.std.specs.Prelude.{◌≡◌};
ghost use Rattle.dump_lists.specs.Names.{missing_by, bad_by, named_by};

use crate::numbers::Numbers;

/// The lists: of segments that a dump lacks, and of bad sectors.
#[derive(Clone, Copy)]
pub enum ListKind {
    Missing,
    Bad,
}

/// What a line names: nothing, or the bits of a mask from one up to another; or a line at fault.
#[derive(Clone, Copy)]
pub enum Named {
    Nothing,
    Bits { first: u32, end: u32 },
    Fault,
}

/// The segments that a dump has numbers for.
pub const SEGMENTS: u32 = 65_536;

/// One segment, or those from one to another: a bit a segment.
fn missing_named(numbers: Numbers) -> Named
    ensures { result ≡ missing_by numbers }
{
    match numbers {
        Numbers::Nothing => Named::Nothing,
        Numbers::One { first } if first < SEGMENTS => Named::Bits {
            first,
            end: first + 1,
        },
        Numbers::Two { first, second } if first <= second && second < SEGMENTS => Named::Bits {
            first,
            end: second + 1,
        },
        _ => Named::Fault,
    }
}

/// All sectors of a segment, or one: 32 bits a segment.
fn bad_named(numbers: Numbers) -> Named
    ensures { result ≡ bad_by numbers }
{
    match numbers {
        Numbers::Nothing => Named::Nothing,
        Numbers::One { first } if first < SEGMENTS => Named::Bits {
            first: 32 * first,
            end: 32 * first + 32,
        },
        Numbers::Two { first, second } if first < SEGMENTS && second < 32 => Named::Bits {
            first: 32 * first + second,
            end: 32 * first + second + 1,
        },
        _ => Named::Fault,
    }
}

/// What a line with these numbers names.
pub fn names_of(kind: ListKind, numbers: Numbers) -> Named
    ensures { result ≡ named_by kind numbers }
{
    match kind {
        ListKind::Missing => missing_named(numbers),
        ListKind::Bad => bad_named(numbers),
    }
}
