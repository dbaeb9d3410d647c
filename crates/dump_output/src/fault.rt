//! Why an output was cut off.

/// Why an output of bytes was not put out to its end.
#[derive(Clone, Copy, PartialEq, Eq)]
pub enum PutFault {
    /// A read of the disk with the dump failed.
    Input,
    /// A write of the bytes failed, or of their map.
    Output,
}
