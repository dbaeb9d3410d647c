//! The fields of a header and a volume table that this project refuses by their values.

/// What a header or a volume table says that this project's profile refuses: a field of the header, a word of its bad
/// sector map, a slot of the table that is neither free nor used as it must be, or the range of a volume's segments.
#[derive(Clone, Copy, Debug, PartialEq, Eq)]
pub enum ForeignField {
    FormatCode,
    FirstHeader,
    SecondHeader,
    FirstData,
    LastData,
    SegmentsPerTrack,
    Tracks,
    TrackMaximum,
    SectorMaximum,
    Map,
    Slot,
    Range,
}
