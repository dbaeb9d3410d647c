//! Why the data of a header are refused.

use qic_base::ForeignField;

/// The first test of a header's data that fails.
#[derive(Clone, Copy, Debug, PartialEq, Eq)]
pub enum HeaderFault {
    /// The data do not begin with the signature, 0xAA55AA55.
    NoSignature,
    /// The field has a value that this project's profile does not take. Of the bad sector map the
    /// value is the first of the segments 0 to 2 that has a bad sector.
    Foreign { field: ForeignField, value: u32 },
}
