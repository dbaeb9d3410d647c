//! The lines of `pulses`.

ghost use Rattle.qic_base.specs.Cause.{HasCause};
ghost use Rattle.tape_script.specs.Reading.{ReadsTrain};

use crate::number::read_number_within;
use crate::taking::{Taken, take_line};
use crate::word::is_word;
use qic_base::{Source, SourceFailed};

/// What was read in the place of a line of `pulses`, with the number of bytes that it took: the end of the source
/// before any byte; bytes that are no line; the line `end`; or a number of pulses, 0 to 255, its newline counted.
#[derive(Clone, Copy, Debug, PartialEq, Eq)]
pub enum TrainRead {
    End,
    Bad { read: u8 },
    Stop,
    Train { pulses: u8, read: u8 },
}

/// A line of `pulses`: so many step pulses and a gap.
pub struct Train;

impl Train {
    /// The next line of `pulses`. Bytes are read one at a time, up to the newline; a failure comes in the midst of a
    /// line. What the buffer held is overwritten.
    pub fn read<S: Source>(
        source: &mut S,
        buffer: &mut [u8; 128],
    ) -> Result<TrainRead, SourceFailed>
        ensures read { ReadsTrain S.means source.old source.new result }
        ensures kept { S.means.keeps source.old source.new }
        ensures cause { HasCause (S.means.faults source.old) (S.means.faults source.new) result }
    {
        match take_line(source, buffer) {
            Ok(Taken::End) => Ok(TrainRead::End),
            Ok(Taken::Open { read }) => Ok(TrainRead::Bad { read }),
            Ok(Taken::Line { len }) => {
                let text = &buffer[..usize::from(len)];
                if is_word(text, "end") {
                    return Ok(TrainRead::Stop);
                }
                match read_number_within(text, 0, 255) {
                    Some(pulses) => Ok(TrainRead::Train {
                        pulses: pulses as u8,
                        read: len + 1,
                    }),
                    None => Ok(TrainRead::Bad { read: len + 1 }),
                }
            }
            Err(fault) => Err(fault),
        }
    }
}
