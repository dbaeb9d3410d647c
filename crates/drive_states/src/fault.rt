//! Why a sector call, or what a person does to the cartridge, came to nothing.

/// Why the drive refuses a sector call: the first that holds is answered. A call that the tape failed in answers that
/// instead, so its answer is a result within a result.
#[derive(Clone, Copy, PartialEq, Eq)]
pub enum FdcFault {
    /// The mode has no such call, the tape does not stream, the address is not that of a sector of the segment under
    /// the head that the head has not passed, or that sector was never formatted.
    NoAddress,
    /// The cartridge is write protected.
    Protected,
    /// The sector is a defect or lost; the head has passed it.
    Unreadable,
}

/// Why what a person would do to the cartridge can't be done: the first that holds is answered. A call that the tape failed
/// in answers that instead, as a sector call does.
#[derive(Clone, Copy, Debug, PartialEq, Eq)]
pub enum HandFault {
    /// The drive knows of no cartridge.
    NoCartridge,
    /// The cartridge has no such sector.
    BadPlace,
    /// The sector was formatted, so it is no defect.
    NotBlank,
}
