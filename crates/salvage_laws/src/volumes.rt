//! The volumes of an exported cartridge.

ghost use Rattle.salvage_laws.specs.VolumeLaws.{VolumeAgrees, VolumeComesWhole, StandingVolumeAgrees, StandingVolumeComesWhole};

/// A volume has its length, and each byte of it that is not marked as filled is its own, whatever was lost of its segments.
pub fn volume_agrees()
    ensures mounted { VolumeAgrees }
    ensures standing { StandingVolumeAgrees }
{}

/// Where no segment that holds some of its bytes lost more than three sectors the output is the volume, byte for byte.
pub fn volume_comes_whole()
    ensures mounted { VolumeComesWhole }
    ensures standing { StandingVolumeComesWhole }
{}
