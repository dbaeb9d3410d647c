//! Laws of recordings. Each is the contract of a function that does nothing.

ghost use Rattle.pulse_dialogue.specs.Laws.{EachRecording, OneRecording};

/// Each input is a recording: of its lines up to its end or to the first line at fault.
pub fn each_input_is_a_recording()
    ensures { EachRecording }
{}

/// It is the recording of these lines alone, and ends so alone.
pub fn an_input_has_one_recording()
    ensures { OneRecording }
{}
