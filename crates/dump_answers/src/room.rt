//! The memory of a run.

ghost use Rattle.std.specs.Prelude.{◌≡◌};
ghost use Rattle.std.specs.Vec.{vec_len};

use dump_lists::SEGMENTS;
use qic_base::NoMemory;
use segment_solve::Workspace;
use std::alloc::Global;

/// The segments in a word.
const BITS: usize = 32;

/// All memory that a run takes: two words for each segment, a bit for each one, and a segment's sectors.
#[derive(Drop)]
pub struct SalvageRoom {
    /// The sectors that were rescued, a word for each segment.
    pub(crate) rescued: Vec<u32>,
    /// The segments that the dump lacks, a bit for each.
    pub(crate) missing: Vec<u32>,
    /// The mask of each segment.
    pub(crate) masks: Vec<u32>,
    pub(crate) work: Workspace,
    ghost rescued_len: { vec_len rescued ≡ 65536 },
    ghost missing_len: { vec_len missing ≡ 2048 },
    ghost masks_len: { vec_len masks ≡ 65536 },
}

impl SalvageRoom {
    /// Takes the memory.
    pub fn new(alloc: Global) -> Result<SalvageRoom, NoMemory> {
        Ok(SalvageRoom {
            rescued: vec![in alloc; 0; SEGMENTS as usize]?,
            missing: vec![in alloc; 0; SEGMENTS as usize / BITS]?,
            masks: vec![in alloc; 0; SEGMENTS as usize]?,
            work: Workspace::new(alloc)?,
        })
    }
}
