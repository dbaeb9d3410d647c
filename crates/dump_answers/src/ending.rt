//! How a run ends.

use dump_output::PutFault;
use dump_spec::Status;

/// How a run over a dump ended.
#[derive(Clone, Copy, Drop)]
pub struct Ending {
    pub status: Status,
    /// Whether the volume table was read, and is not sure.
    pub warned: bool,
}

/// Why a run did not come to its end.
#[derive(Clone, Copy)]
pub struct Cut {
    /// A read failed of one of the files, or a write of the output or of its map.
    pub fault: PutFault,
    /// Whether the volume table was read, and is not sure.
    pub warned: bool,
}
