//! What a header tells of a cartridge.

use qic_base::Name;

/// The fields of a header that differ from cartridge to cartridge (Linux ftape headers).
#[derive(Clone, Copy, Debug, PartialEq, Eq)]
pub struct Header {
    /// The date word of the formatting, as it stands on the tape.
    pub format_date: u32,
    /// The date word of the last write.
    pub write_date: u32,
    /// The segments on each of the 28 tracks.
    pub segments_per_track: u16,
    /// The cartridge's label, 44 bytes.
    pub label: Name,
    /// The date word of the label.
    pub label_date: u32,
}
