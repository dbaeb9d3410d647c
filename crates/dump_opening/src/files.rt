//! The files that are read.

/// The dump, and the files beside it of the options that are given.
#[derive(Drop)]
pub struct DumpFiles<D, S> {
    pub dump: D,
    /// The map of the dump.
    pub map: Option<S>,
    /// The data of a header.
    pub header: Option<D>,
    /// The segments that the dump lacks.
    pub missing: Option<S>,
    /// The bad sectors.
    pub bad: Option<S>,
}
