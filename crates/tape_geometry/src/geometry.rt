//! A cartridge's length, and its places by segment, by track and by floppy address.

ghost use Rattle.std.specs.Prelude.{◌≡◌, ◌<◌, ◌≤◌, ◌*◌, ◌↔◌, IsOk, IfOk, IfNone, IfSome};

use qic_base::{LONGEST, SECTORS, TRACKS};
use std::marker::Model;

/// The segments under one floppy head: four a cylinder, with floppy track maximum 149.
const SEGMENTS_PER_HEAD: u32 = 600;

/// The segments of one floppy cylinder.
const SEGMENTS_PER_CYLINDER: u32 = 4;

/// A floppy address, by which the host's controller asks for a sector of 1,024 bytes. Heads and
/// cylinders count from 0, sectors from 1 (QIC-80-MC).
#[derive(Clone, Copy, Debug, PartialEq, Eq)]
pub struct FloppyAddr {
    pub head: u8,
    pub cylinder: u8,
    pub sector: u8,
}

/// A number of segments per track that no cartridge has.
#[derive(Clone, Copy)]
pub struct BadLength;

/// The length of a cartridge, 3 to `LONGEST` segments per track, and with it the numbers of its
/// segments. Contracts see it as the segments per track.
#[derive(Clone, Copy)]
pub struct Geometry {
    segments_per_track: u16,
}

impl Model for Geometry {
    ghost use Rattle.std.specs.Prelude.{ℕ};
    ghost use Rattle.qic_base.specs.Cartridge.{IsLength};

    ghost Value = { ℕ };

    ghost view = { λ geometry. geometry.segments_per_track };

    ghost invariant = { λ geometry. IsLength geometry.segments_per_track };

    ghost inverse = { λ length. record { segments_per_track = length } };
}

impl Geometry {
    ghost use Rattle.qic_base.specs.Cartridge.{IsLength};
    ghost use Rattle.tape_geometry.specs.Geometry.{HasAddress, HasNoSector, track_of, logical_offset};

    /// A cartridge with this many segments on each track.
    pub fn new(segments_per_track: u16) -> Result<Geometry, BadLength>
        ensures ok { IsOk result ↔ IsLength segments_per_track }
        ensures value { IfOk result (λ geometry. geometry ≡ segments_per_track) }
    {
        if !(3..=LONGEST).contains(&segments_per_track) {
            return Err(BadLength);
        }
        Ok(Geometry { segments_per_track })
    }

    /// The segments on each of the 28 tracks.
    pub fn segments_per_track(&self) -> u16
        ensures value { result ≡ self.now }
        ensures length { IsLength result }
    {
        self.segments_per_track
    }

    /// The segments of the whole cartridge, which are numbered from 0.
    pub fn segments(&self) -> u32
        ensures value { result ≡ 28 * self.now }
        ensures most { result ≤ 28 * LONGEST }
    {
        TRACKS * u32::from(self.segments_per_track)
    }

    /// The track, 0 to 27, that a segment lies on.
    pub fn track_of(&self, segment: u32) -> u8
        requires { segment < 28 * self.now }
        ensures track { result ≡ track_of self.now segment }
        ensures tracks { result < 28 }
    {
        (segment / u32::from(self.segments_per_track)) as u8
    }

    /// A segment's place on its track, counted from the end at which the track begins.
    pub fn logical_offset(&self, segment: u32) -> u16
        requires { segment < 28 * self.now }
        ensures offset { result ≡ logical_offset self.now segment }
        ensures within { result < self.now }
    {
        (segment % u32::from(self.segments_per_track)) as u16
    }

    /// The floppy address of a segment's sector, by the sector's index 0 to 31.
    pub fn address(&self, segment: u32, sector: u8) -> FloppyAddr
        requires on_tape { segment < 28 * self.now }
        requires in_segment { sector < 32 }
        ensures { HasAddress self.now segment sector result }
    {
        prove!(segment < self.segments());
        let under_head = segment % SEGMENTS_PER_HEAD;
        let in_cylinder = (segment % SEGMENTS_PER_CYLINDER) as u8;
        FloppyAddr {
            head: (segment / SEGMENTS_PER_HEAD) as u8,
            cylinder: (under_head / SEGMENTS_PER_CYLINDER) as u8,
            sector: SECTORS * in_cylinder + sector + 1,
        }
    }

    /// The segment and the sector's index in it at a floppy address, or None where no sector of the
    /// cartridge has that address.
    pub fn place(&self, addr: FloppyAddr) -> Option<(u32, u8)>
        ensures found { IfSome result (λ place. HasAddress self.now place.0 place.1 addr) }
        ensures none { IfNone result (HasNoSector self.now addr) }
    {
        let cylinder = u32::from(addr.cylinder);
        let before = addr.sector.checked_sub(1)?;
        let in_cylinder = u32::from(before / SECTORS);
        let under_head = SEGMENTS_PER_CYLINDER * cylinder + in_cylinder;
        if in_cylinder >= SEGMENTS_PER_CYLINDER || under_head >= SEGMENTS_PER_HEAD {
            return None;
        }
        let segment = SEGMENTS_PER_HEAD * u32::from(addr.head) + under_head;
        (segment < self.segments()).then_some((segment, before % SECTORS))
    }
}
