//! What was put out so far.

ghost use Rattle.std.specs.Prelude.{◌≡◌, ◌+◌, ◌<◌, ◌≤◌, ◌++◌, ◌^◌, [], ℕ, List, length, take, OnOk};
ghost use Rattle.dump_spec.specs.Given.{Given};
ghost use Rattle.dump_spec.specs.declared.mark.Mark.{Mark};
ghost use Rattle.dump_output.specs.Marks.{marks_in};
ghost use Rattle.dump_output.specs.SoFar.{MapSoFar, MapGoes};
ghost use Rattle.segment_salvage.specs.Reading.{given_as};
ghost use Rattle.sure_map.specs.Maps.{byte_count};

use qic_base::{SECTOR, Sector, Sink, SinkFailed, write_text};
use segment_salvage::SegmentReading;
use sure_map::SureMap;

/// The map of the bytes that were put out, and how many are still to come.
#[derive(Clone, Copy, Drop)]
pub struct Progress {
    pub map: SureMap,
    pub left: u32,
}

/// Adds the marks of the first bytes of a segment's data, so many, which has so many sectors. A failure leaves a front of the
/// lines written.
fn push_marks<M: Sink>(
    map: &mut SureMap,
    reading: &SegmentReading,
    sectors: u8,
    bytes: u32,
    sure: &mut M,
) -> Result<(), SinkFailed>
    requires few { sectors ≤ 32 }
    requires room { byte_count map.old + bytes < 2 ^ 32 }
    ensures goes { (from : M) (marks : List Mark) → MapSoFar M.means from sure.old map.old marks →
        MapGoes M.means from sure.new map.new (marks ++ take bytes (marks_in reading.now sectors)) result }
    ensures more { byte_count map.new ≤ byte_count map.old + bytes }
{
    let mut left = bytes;
    for place in 0..sectors {
        let count = left.min(SECTOR as u32);
        if let Err(fault) = map.push(reading.mark(place), count, sure) {
            return Err(fault);
        }
        left -= count;
    }
    Ok(())
}

impl Progress {
    ghost use Rattle.dump_output.specs.Begun.{Begins};
    ghost use Rattle.dump_output.specs.Sinks.{PutSoFar, PutGoes};

    /// Before the first of so many bytes; what stands in front of the map is written.
    pub fn begin<M: Sink>(size: u32, sure: &mut M) -> Result<Progress, SinkFailed>
        ensures { Begins M.means sure.old sure.new size result }
    {
        match SureMap::begin(sure) {
            Ok(map) => Ok(Progress { map, left: size }),
            Err(fault) => Err(fault),
        }
    }

    /// Writes the data sectors of a segment, at most 32, as far as bytes are to come, and then their marks.
    pub fn put<K: Sink, M: Sink>(
        &mut self,
        sectors: &[Sector],
        reading: &SegmentReading,
        output: &mut K,
        sure: &mut M,
    ) -> Result<(), SinkFailed>
        requires few { length sectors.now ≤ 32 }
        requires room { byte_count self.old.map + self.old.left < 2 ^ 32 }
        ensures goes { (size : ℕ) (first : K) (begun : M) (given : List Given) →
            PutSoFar K.means M.means first output.old begun sure.old self.old size given →
            PutGoes K.means M.means first output.new begun sure.new self.new size
            (given ++ given_as reading.now 0 sectors.now) result }
        ensures room { OnOk result (byte_count self.new.map + self.new.left ≤ byte_count self.old.map + self.old.left) }
    {
        let bytes = sectors.as_flattened();
        let count = self.left.min(bytes.len() as u32);
        if let Err(fault) = write_text(&bytes[..count as usize], output) {
            return Err(fault);
        }
        if let Err(fault) = push_marks(&mut self.map, reading, sectors.len() as u8, count, sure) {
            return Err(fault);
        }
        self.left -= count;
        Ok(())
    }
}
