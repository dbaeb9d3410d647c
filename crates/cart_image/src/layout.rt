//! Where the head of an image file stands and, in each of its layouts, the parts of a sector; and what their bytes say
//! (this project's profile, versions 1 and 2).
ghost use Rattle.std.specs.Prelude.{◌≡◌, ◌<◌};
ghost use Rattle.qic_base.specs.CartridgeTerms.{IsVersion};
ghost use Rattle.cart_image.specs.Layout.{sectors, image_len as length_of, upgraded_len as upgraded_to, place as place_at, plane_place as plane_at, cell_place as cell_at, end_of, width, touches as touch, version_of};

/// The first bytes of an image.
pub const SIGNATURE: &[u8; 8] = b"QIC80IMG";

/// The length of the head.
pub const HEAD_LEN: u64 = 64;

/// Where the byte of the write protect mark stands.
pub const PROTECTED_PLACE: u64 = 12;

/// Where the byte of the referenced mark stands.
pub const REFERENCED_PLACE: u64 = 13;

/// Where the layout mark stands: it makes the image one of version 2.
pub const LAYOUT_PLACE: u64 = 14;

/// Where the eight bytes of the base stand.
pub const BASE_PLACE: u64 = 16;

/// The bytes of a cell: the four parts of a sector beside each other.
pub const CELL_LEN: usize = 1_027;

/// The bytes of the cells of a segment.
pub const CELLS_LEN: usize = 32_864;

/// The byte of a mark that stands, and of an open gate; any other is none.
pub const MARK: u8 = 0x5A;

/// The byte of an open gate; any other is closed.
pub const OPEN: u8 = 0x5A;

/// The byte that closes a gate.
pub const CLOSED: u8 = 0xC1;

/// The formed byte of a sector that was formatted; any other says that it never was.
pub const FORMED: u8 = 0xF0;

/// The defect byte of a defect; any other says that it is none.
pub const DEFECT: u8 = 0xBD;

/// How the parts of the sectors lie.
#[derive(Clone, Copy)]
pub enum Kind {
    /// Version 1: a plane for each state byte, and the sectors' bytes behind them.
    Planes,
    /// Version 2: the four parts of each sector beside each other, behind the head.
    Cells,
    /// Version 2, as an upgrade leaves it: beside each other, behind the planes of version 1.
    CellsBehind,
}

/// A part of a sector: a byte of its state, or its 1,024 bytes.
#[derive(Clone, Copy)]
pub enum Part {
    GateByte,
    FormedByte,
    DefectByte,
    Data,
}

/// How a cartridge of some length, 3 to `LONGEST` segments per track, lies in its file.
#[derive(Clone, Copy)]
pub struct Layout {
    pub segments_per_track: u16,
    pub kind: Kind,
}

/// What the head of an image tells.
#[derive(Clone, Copy)]
pub struct Head {
    pub layout: Layout,
    pub protected: bool,
    pub referenced: bool,
}

impl Layout {
    /// Where a part of a sector begins.
    pub fn place(self, part: Part, sector: u64) -> u64
        requires { sector < sectors self.segments_per_track }
        ensures { result ≡ place_at self part sector }
    {
        let n = self.segments_per_track;
        match self.kind {
            Kind::Planes => plane_place(n, part, sector),
            Kind::Cells => cell_place(HEAD_LEN, part, sector),
            Kind::CellsBehind => cell_place(image_len(n), part, sector),
        }
    }

    /// Where the last sector ends.
    pub fn end(self) -> u64
        ensures { result ≡ end_of self }
    {
        match self.kind {
            Kind::Planes | Kind::Cells => image_len(self.segments_per_track),
            Kind::CellsBehind => upgraded_len(self.segments_per_track),
        }
    }

    /// Whether a part of a sector and the same part of the next one are neighbours.
    pub fn touches(self) -> bool
        ensures { result ≡ touch self.kind }
    {
        match self.kind {
            Kind::Planes => true,
            Kind::Cells | Kind::CellsBehind => false,
        }
    }

    /// Its version, 1 or 2.
    pub fn version(self) -> u8
        ensures version { result ≡ version_of self.kind }
        ensures fits { IsVersion result }
    {
        match self.kind {
            Kind::Planes => 1,
            Kind::Cells | Kind::CellsBehind => 2,
        }
    }
}

/// The bytes of a part of a sector.
pub fn part_len(part: Part) -> usize
    ensures { result ≡ width part }
{
    match part {
        Part::GateByte | Part::FormedByte | Part::DefectByte => 1,
        Part::Data => 1024,
    }
}

/// Where a part of a sector begins in version 1.
pub fn plane_place(segments_per_track: u16, part: Part, sector: u64) -> u64
    requires { sector < sectors segments_per_track }
    ensures { result ≡ plane_at segments_per_track part sector }
{
    let sectors = 896 * segments_per_track as u64;
    match part {
        Part::GateByte => 64 + sector,
        Part::FormedByte => 64 + sectors + sector,
        Part::DefectByte => 64 + 2 * sectors + sector,
        Part::Data => 64 + 3 * sectors + 1024 * sector,
    }
}

/// Where it begins in version 2, whose sectors begin at the base.
pub fn cell_place(base: u64, part: Part, sector: u64) -> u64
    requires base { base < length_of 65536 }
    requires sector { sector < sectors 65536 }
    ensures { result ≡ cell_at base part sector }
{
    let cell = base + CELL_LEN as u64 * sector;
    match part {
        Part::GateByte => cell,
        Part::FormedByte => cell + 1,
        Part::DefectByte => cell + 2,
        Part::Data => cell + 3,
    }
}

/// The length of an image of version 1 and of a new one, in bytes.
pub fn image_len(segments_per_track: u16) -> u64
    ensures { result ≡ length_of segments_per_track }
{
    HEAD_LEN + CELL_LEN as u64 * 896 * segments_per_track as u64
}

/// The length of an image that was upgraded, in bytes.
pub fn upgraded_len(segments_per_track: u16) -> u64
    ensures { result ≡ upgraded_to segments_per_track }
{
    64 + 2054 * 896 * segments_per_track as u64
}
