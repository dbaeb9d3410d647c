//! The volumes of a table, one by one.

ghost use Rattle.std.specs.Prelude.{◌≡◌, ◌≤◌, ◌+◌, ◌*◌, ◌^◌, ℕ, Bool, length};
ghost use Rattle.std.specs.Option.{option_map};
ghost use Rattle.dump_spec.specs.Answers.{numbered};
ghost use Rattle.dump_spec.specs.Volumes.{volumes_of};
ghost use Rattle.dump_volumes.specs.Volume.{volume_of};

use crate::slots::next_slot;
use crate::volume::{Volume, first_behind, read_volume};
use qic_base::Sector;
use volume_table::slot_at;

/// A walk over the volumes of a table.
#[derive(Clone, Copy, Drop)]
pub struct VolumeWalk {
    counts: bool,
    slot: u8,
    given: u8,
    first: u64,
    ghost slot_within: { slot ≤ 232 },
    ghost given_within: { given ≤ slot },
    ghost near: { first ≤ 2 ^ 16 + slot * 2 ^ 32 },
}

impl VolumeWalk {
    ghost use Rattle.std.specs.Prelude.{List};
    ghost use Rattle.dump_volumes.specs.Left.{left_of, Steps, given_by};

    /// Before the first volume of a table in this segment; `counts` says whether its slots count the segments of volumes, as
    /// those of the format code 6 do.
    pub fn new(counts: bool, table: u16) -> VolumeWalk
        ensures left { (area : List (List ℕ)) → left_of result area ≡ volumes_of counts table area }
        ensures none { given_by result ≡ 0 }
    {
        VolumeWalk {
            counts,
            slot: 0,
            given: 0,
            first: u64::from(table) + 1,
        }
    }

    /// The next volume of a table of at most 29 sectors, if there is one more.
    pub fn next(&mut self, area: &[Sector]) -> Option<Volume>
        requires { length area.now ≤ 29 }
        ensures { Steps area.now self.old self.new result }
    {
        let at = next_slot(area, self.slot)?;
        let bytes = slot_at(area, at);
        let volume = read_volume(self.counts, self.first, bytes);
        *self = VolumeWalk {
            counts: self.counts,
            slot: at + 1,
            given: self.given + 1,
            first: first_behind(self.counts, self.first, bytes),
        };
        Some(volume)
    }

    /// The number of the volume that was given last, counted from 1; 0 where none was given.
    pub fn number(&self) -> u8
        ensures { result ≡ given_by self.now }
    {
        self.given
    }
}

/// How many volumes a table of at most 29 sectors has, 0 to 232, in whatever segment it is.
pub fn count_volumes(area: &[Sector]) -> u8
    requires { length area.now ≤ 29 }
    ensures { (counts : Bool) (segment : ℕ) → result ≡ length (volumes_of counts segment area.now) }
{
    let mut walk = VolumeWalk::new(false, 0);
    while let Some(_volume) = walk.next(area) {}
    walk.number()
}

/// The volume with a number from 1 on, of a table of at most 29 sectors in this segment.
pub fn numbered(counts: bool, table: u16, area: &[Sector], number: u32) -> Option<Volume>
    requires { length area.now ≤ 29 }
    ensures { option_map volume_of result ≡ numbered (volumes_of counts table area.now) number }
{
    let mut walk = VolumeWalk::new(counts, table);
    while let Some(volume) = walk.next(area) {
        if u32::from(walk.number()) == number {
            return Some(volume);
        }
    }
    None
}
