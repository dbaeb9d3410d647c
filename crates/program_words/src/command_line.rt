//! The words of a command line as the system hands them over.

use std::env::Env;
use std::{env, io};

/// The words of the command line, the program's name the first of them. An error is a want of memory, or a word that is no
/// UTF-8 text. No clause tells the words: `std::env::args` has none, and `Env` says of a word only that it fits its buffer.
pub fn read_command_line<R: Env + AllocGlobal>(rt: &R) -> io::Result<Vec<String>> {
    Ok(env::args(rt)?.collect(rt.alloc())?)
}
