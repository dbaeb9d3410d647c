//! A scrubbing under way.

use crate::report::ScrubReport;
use command_spec::Depth;

/// The form of a scrubbing, which no call changes, and what it has counted.
#[derive(Clone, Copy)]
pub(crate) struct Progress {
    pub(crate) depth: Depth,
    pub(crate) report: ScrubReport,
}
