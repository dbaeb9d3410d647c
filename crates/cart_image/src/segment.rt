//! What the state bytes say of the sectors of one segment, and what a call makes of it.
ghost use Rattle.std.specs.Prelude.{◌≡◌, ◌<◌, slice_index_or, slice_set};
ghost use Rattle.qic_base.specs.declared.tape.SectorView.{SectorView};
ghost use Rattle.qic_base.specs.CartridgeTerms.{is_lost};
ghost use Rattle.qic_base.specs.Step.{worn_view, spoiled_view};
ghost use Rattle.cart_image.specs.State.{state_of};

use crate::reading::SectorState;
use qic_base::LostSet;

/// The state bytes of the sectors of a segment.
#[derive(Clone, Copy)]
pub struct SegmentMarks {
    pub gates: [u8; 32],
    pub formed: [u8; 32],
    pub defects: [u8; 32],
}

/// A segment, and what the state bytes say of each of its sectors.
#[derive(Clone, Copy)]
pub struct SegmentStates {
    pub segment: u32,
    pub states: [SectorState; 32],
}

impl SegmentStates {
    /// What they say of a sector of the segment.
    pub fn of(&self, sector: u8) -> SectorState
        requires { sector < 32 }
        ensures { result ≡ slice_index_or self.now.states sector SectorState.Blank }
    {
        self.states[sector as usize]
    }

    /// The same, with another state of a sector.
    pub fn with(self, sector: u8, state: SectorState) -> SegmentStates
        requires { sector < 32 }
        ensures segment { result.segment ≡ self.segment }
        ensures states { result.states ≡ slice_set self.states sector state }
    {
        let mut states = self.states;
        states[sector as usize] = state;
        SegmentStates {
            segment: self.segment,
            states,
        }
    }
}

impl SectorState {
    /// What the state bytes say of a sector that was worn.
    pub fn worn(self) -> SectorState
        ensures { (view : SectorView) →
            self ≡ state_of view → result ≡ state_of (worn_view view) }
    {
        match self {
            SectorState::Blank | SectorState::Defect | SectorState::Lost => self,
            SectorState::Readable => SectorState::Lost,
        }
    }

    /// What they say of one that was spoiled.
    pub fn spoiled(self) -> SectorState
        ensures { (view : SectorView) →
            self ≡ state_of view → result ≡ state_of (spoiled_view view) }
    {
        match self {
            SectorState::Blank => SectorState::Defect,
            SectorState::Defect | SectorState::Lost | SectorState::Readable => self,
        }
    }
}

/// Whether a sector is in a set of sectors.
pub fn is_in(set: LostSet, sector: usize) -> bool
    requires { sector < 32 }
    ensures { result ≡ is_lost set sector }
{
    set.mask() >> sector & 1 == 1
}
