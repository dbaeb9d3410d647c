//! The words of a command line.

ghost use Rattle.std.specs.Prelude.{◌≤◌, IfOk, vec_len};

use std::env::Env;
use std::{env, io};

/// The words that a program was called with: the paths of its images, and the words behind them.
#[derive(Drop)]
pub struct Arguments {
    pub images: Vec<String>,
    pub command: Vec<String>,
}

/// Reads the words behind the program's name: the first ones, so many, are paths of images; where there are fewer words,
/// all are. An error is a want of memory, or a word that is no UTF-8 text.
pub fn read_arguments<R: Env + AllocGlobal>(rt: &R, images: usize) -> io::Result<Arguments>
    ensures { IfOk result (λ read. vec_len read.images ≤ images) }
{
    let mut read = Arguments {
        images: Vec::new(rt.alloc()),
        command: Vec::new(rt.alloc()),
    };
    for word in env::args(rt)?.skip(1) {
        if read.images.len() < images {
            read.images.push(word)?;
        } else {
            read.command.push(word)?;
        }
    }
    Ok(read)
}
