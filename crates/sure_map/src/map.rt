//! The map of an output.

use crate::run::{Run, mark_byte};
use crate::tally::Tally;
use dump_spec::{Mark, Status};
use qic_base::{Sink, SinkFailed, write_text};

/// The comments and the status line of each map.
const HEAD: &str = "# Mapfile. Created by tape_salvage
# current_pos  current_status  current_pass
0x00000000     +               1
#      pos        size  status
";

/// The map of the bytes that came so far. The line of their last run is not written yet.
#[derive(Clone, Copy, Drop)]
pub struct SureMap {
    run: Run,
    tally: Tally,
    ghost adds_up: { total tally ≡ end_of run },
}

ghost use Rattle.std.specs.Prelude.{◌≡◌};
ghost use Rattle.sure_map.specs.Counts.{total};
ghost use Rattle.sure_map.specs.Runs.{end_of};

impl SureMap {
    ghost use Rattle.std.specs.Prelude.{◌<◌, ◌+◌, ◌++◌, ◌^◌, [], List, ℕ, IfOk, replicate};
    ghost use Rattle.qic_base.specs.SinkCalls.{Writes};
    ghost use Rattle.dump_spec.specs.Answers.{output_status};
    ghost use Rattle.dump_spec.specs.Output.{marked_bytes, sure_head, sure_text};
    ghost use Rattle.dump_spec.specs.declared.mark.Mark.{Mark};
    ghost use Rattle.sure_map.specs.Maps.{IsMapOf, byte_count, ended_line, last_line};

    /// Writes what stands in front of the lines of runs. The map is that of no bytes.
    pub fn begin<K: Sink>(sink: &mut K) -> Result<SureMap, SinkFailed>
        ensures head { Writes K.means sink.old sink.new sure_head result }
        ensures none { IfOk result (λ map. IsMapOf map [] sure_head) }
    {
        match write_text(HEAD.as_bytes(), sink) {
            Ok(()) => Ok(SureMap {
                run: Run {
                    start: 0,
                    size: 0,
                    mark: b'+',
                },
                tally: Tally {
                    sure: 0,
                    unchecked: 0,
                    filled: 0,
                },
            }),
            Err(fault) => Err(fault),
        }
    }

    /// Takes as many bytes with a mark, behind the others. The line of the run before them is written where it has another
    /// mark. They are less than 4 GiB in all. A failure leaves a front of the line written.
    pub fn push<K: Sink>(&mut self, mark: Mark, count: u32, sink: &mut K) -> Result<(), SinkFailed>
        requires { byte_count self.old + count < 2 ^ 32 }
        ensures writes { Writes K.means sink.old sink.new (ended_line self.old mark count) result }
        ensures count { byte_count self.new ≡ byte_count self.old + count }
        ensures map { (marks : List Mark) (front : List ℕ) → IsMapOf self.old marks front →
            IsMapOf self.new (marks ++ replicate count mark) (front ++ ended_line self.old mark count) }
    {
        if count == 0 {
            return Ok(());
        }
        let before = self.run;
        let byte = mark_byte(mark);
        *self = SureMap {
            run: before.with_bytes(byte, count),
            tally: self.tally.with_bytes(mark, count),
        };
        if before.goes_on(byte) {
            Ok(())
        } else {
            write_text(&before.line(), sink)
        }
    }

    /// Writes the line of the last run, where there was a byte: with it the map is whole. A failure leaves a front of it written.
    pub fn finish<K: Sink>(&self, sink: &mut K) -> Result<(), SinkFailed>
        ensures writes { Writes K.means sink.old sink.new (last_line self.now) result }
        ensures whole { (marks : List Mark) (front : List ℕ) → IsMapOf self.now marks front →
            front ++ last_line self.now ≡ sure_text marks }
    {
        if self.run.size == 0 {
            Ok(())
        } else {
            write_text(&self.run.line(), sink)
        }
    }

    /// How many bytes have a mark.
    pub fn marked(&self, mark: Mark) -> u32
        ensures { (marks : List Mark) (front : List ℕ) → IsMapOf self.now marks front →
            result ≡ marked_bytes mark marks }
    {
        self.tally.counted(mark)
    }

    /// How the output of the bytes ends: whether all are sure, or how many have each mark.
    pub fn status(&self) -> Status
        ensures { (marks : List Mark) (front : List ℕ) → IsMapOf self.now marks front →
            result ≡ output_status marks }
    {
        if self.tally.unchecked == 0 && self.tally.filled == 0 {
            Status::Done
        } else {
            Status::NotAllSure {
                sure: u64::from(self.tally.sure),
                unchecked: u64::from(self.tally.unchecked),
                filled: u64::from(self.tally.filled),
            }
        }
    }
}
