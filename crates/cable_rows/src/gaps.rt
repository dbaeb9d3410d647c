//! Words of the command line of `pulse_trace`, and the dialogue at the gap that they give.

use crate::recordings::is_told;
use program_words::{BadGap, read_gap};
use std::alloc::{AllocError, Global};
use std::test::Fail;

/// The words of the command line, and the dialogue of two pulses 100 microseconds apart, or why there is none.
const RUNS: [(&str, Result<&str, BadGap>); 11] = [
    ("pulse_trace", Ok("0 2 ReportNextBit\n")),
    ("pulse_trace --gap 50", Ok("0 1 Reset\n100 1 Reset\n")),
    ("pulse_trace --gap=50", Ok("0 1 Reset\n100 1 Reset\n")),
    ("pulse_trace --gap 100", Ok("0 2 ReportNextBit\n")),
    ("pulse_trace --", Ok("0 2 ReportNextBit\n")),
    ("pulse_trace --gap 0", Err(BadGap::Refused)),
    ("pulse_trace --gap 1000001", Err(BadGap::Refused)),
    ("pulse_trace --gap", Err(BadGap::Refused)),
    ("pulse_trace --gap 50 --gap 60", Err(BadGap::Refused)),
    ("pulse_trace --help", Err(BadGap::Refused)),
    ("pulse_trace more", Err(BadGap::Refused)),
];

/// The words between the spaces of a text.
fn words(alloc: Global, text: &str) -> Result<Vec<String>, AllocError> {
    let mut words = Vec::new(alloc);
    for word in text.split(' ') {
        words.push(String::from_str(alloc, word)?)?;
    }
    Ok(words)
}

/// The gap that the words of a text give.
fn gap(alloc: Global, text: &str) -> Result<Result<u32, BadGap>, AllocError> {
    let words = words(alloc, text)?;
    Ok(read_gap(alloc, &words))
}

/// Whether words give a gap at which two pulses have this dialogue, or are refused as they have to be.
fn has_dialogue(alloc: Global, text: &str, dialogue: Result<&str, BadGap>) -> Result<bool, Fail> {
    match (gap(alloc, text)?, dialogue) {
        (Ok(gap), Ok(output)) => is_told(alloc, gap, "0\n100\n", output),
        (Err(found), Err(wanted)) => Ok(found == wanted),
        _ => Ok(false),
    }
}

/// The index of the first words that have another dialogue or answer.
fn first_that_is_other(
    alloc: Global,
    rows: &[(&str, Result<&str, BadGap>)],
) -> Result<Option<usize>, Fail> {
    for i in 0..rows.len() {
        let (text, dialogue) = rows[i];
        if !has_dialogue(alloc, text, dialogue)? {
            return Ok(Some(i));
        }
    }
    Ok(None)
}

#[test]
fn words_are_taken_or_refused(rt: HostRuntime) -> Result<(), Fail> {
    assert_eq!(rt; first_that_is_other(rt.alloc(), &RUNS)?, None);
    Ok(())
}
