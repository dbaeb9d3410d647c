//! The words of `append`, `restore`, `scrub`, `script`, `make` and `upgrade` with their values, and words beside them that
//! are no command. Those of the others are shown by the transcripts.

use qic_base::Name;
use std::alloc::{AllocError, Global};
use std::test::Fail;
use tape_script::{Words, read_words};

/// 1994-03-01T12:00:00.
const NOON: u32 = 0x3052_65C0;

/// The last second that a date word holds.
const LAST: u32 = 0xFFEA_6DFF;

fn owned(alloc: Global, text: &[&str]) -> Result<Vec<String>, AllocError> {
    let mut words = Vec::new(alloc);
    for word in text {
        words.push(String::from_str(alloc, word)?)?;
    }
    Ok(words)
}

/// The command that the words are, if they are one.
fn read(alloc: Global, text: &[&str]) -> Result<Option<Words>, AllocError> {
    let words = owned(alloc, text)?;
    Ok(read_words(&words).ok())
}

/// The index of the first words that are not the command beside them.
fn first_that_is_other(
    alloc: Global,
    rows: &[(&[&str], Words)],
) -> Result<Option<usize>, AllocError> {
    for i in 0..rows.len() {
        let (text, command) = rows[i];
        if read(alloc, text)? != Some(command) {
            return Ok(Some(i));
        }
    }
    Ok(None)
}

/// The index of the first words that are a command.
fn first_command(alloc: Global, rows: &[&[&str]]) -> Result<Option<usize>, AllocError> {
    for i in 0..rows.len() {
        if read(alloc, rows[i])?.is_some() {
            return Ok(Some(i));
        }
    }
    Ok(None)
}

/// The longest name, of 44 bytes.
const LONGEST: &str = "an evening of forty-four bytes, all of them.";

/// An append under the name with this text, filled up with spaces.
fn append(text: &str, date: u32) -> Words {
    let mut bytes = [b' '; 44];
    for (at, byte) in text.as_bytes().iter().enumerate() {
        if at < 44 {
            bytes[at] = *byte;
        }
    }
    let name = Name::from_bytes(&bytes);
    Words::Append { name, date }
}

fn restore(number: u32) -> Words {
    Words::Restore { number }
}

fn make(seed: u32, count: u32) -> Words {
    Words::Make { seed, count }
}

#[test]
fn words_have_their_values(rt: HostRuntime) -> Result<(), Fail> {
    let table: [(&[&str], Words); 18] = [
        (&["room"], Words::Room),
        (&["check"], Words::Check),
        (&["scrub"], Words::Scrub),
        (&["scrub", "deep"], Words::ScrubDeep),
        (&["script"], Words::Script),
        (&["upgrade"], Words::Upgrade),
        (&["restore", "0"], restore(0)),
        (&["restore", "1"], restore(1)),
        (&["restore", "999999999"], restore(999_999_999)),
        (&["make", "150", "3"], make(150, 3)),
        (&["make", "0", "1"], make(0, 1)),
        (&["make", "999999999", "200"], make(999_999_999, 200)),
        (&["append", "evening"], append("evening", 0)),
        (&["append", "a - ~"], append("a - ~", 0)),
        (&["append", LONGEST], append(LONGEST, 0)),
        (&["append", "a", "1994-03-01T12:00:00"], append("a", NOON)),
        (&["append", "a", "1970-01-01T00:00:00"], append("a", 0)),
        (&["append", "a", "2097-12-31T23:59:59"], append("a", LAST)),
    ];
    assert_eq!(rt; first_that_is_other(rt.alloc(), &table)?, None);
    Ok(())
}

#[test]
fn other_words_are_no_command(rt: HostRuntime) -> Result<(), Fail> {
    let table: [&[&str]; 31] = [
        &["scrub", "1"],
        &["scrub", "deep", "3"],
        &["deep"],
        &["script", "end"],
        &["upgrade", "2"],
        &["upgraded"],
        &["Upgrade"],
        &["restore"],
        &["restore", ""],
        &["restore", "01"],
        &["restore", "00"],
        &["restore", "1000000000"],
        &["restore", "-1"],
        &["restore", "1 "],
        &["restore", "1", "2"],
        &["restored", "1"],
        &["append"],
        &["append", ""],
        &["append", " a"],
        &["append", "a\x7f"],
        &["append", "an evening of forty-five bytes, one too many."],
        &["append", "two", "names"],
        &["append", "a", "1994-13-01T12:00:00"],
        &["append", "a", "3", "1994-03-01T12:00:00"],
        &["make", "1"],
        &["make", "1", "0"],
        &["make", "1", "201"],
        &["make", "1", "03"],
        &["make", "01", "3"],
        &["make", "1000000000", "3"],
        &["make", "1", "3", "3"],
    ];
    assert_eq!(rt; first_command(rt.alloc(), &table)?, None);
    Ok(())
}
