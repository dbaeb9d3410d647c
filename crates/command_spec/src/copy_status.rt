//! How a copy ends.

use qic_base::StoreFault;

/// How a copy of one cartridge's volumes to another ended: `from` is the one that is read, `to` the one that is written.
/// Volumes count from 1.
#[derive(Clone, Copy, Debug, PartialEq, Eq)]
pub enum CopyStatus {
    /// All volumes are on the target: exit status 0.
    Done,
    /// There are words behind the two paths: exit status 2.
    Usage,
    /// There was no memory for the working objects; nothing was touched: exit status 19.
    NoMemory,
    /// The drive that is read from holds no cartridge: exit status 30.
    FromAbsent,
    /// The drive that is written to holds none: exit status 31.
    ToAbsent,
    /// The cartridge that is read was refused, or its tape failed: exit status 32.
    From { fault: StoreFault },
    /// The cartridge that is written was refused, or its tape failed: exit status 33.
    To { fault: StoreFault },
    /// The first volume of the target that has another name, date or length than the same volume of the other cartridge,
    /// or that this has not: exit status 34.
    Differs { number: u32 },
    /// Standard output, or what stands in its place, failed: exit status 17.
    SinkFault,
}
