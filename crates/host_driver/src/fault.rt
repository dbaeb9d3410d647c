//! Why the host does not enter a mode.

/// The cartridge is write protected, so it is not formatted.
#[derive(Clone, Copy)]
pub struct WriteProtected;
