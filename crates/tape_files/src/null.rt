//! The null device in the place of closed standard streams.

use std::fs::{File, Files};

/// The null device in place of each standard stream that the program was started without: such an input is empty, and a
/// write to such an output fails. Until this is dropped no file that is opened becomes one of the streams.
#[derive(Drop)]
pub struct NullStreams {
    held: [Option<File>; 3],
}

impl NullStreams {
    /// An open takes the lowest descriptor that is free, so three of them leave none of the streams' free.
    pub fn take<R: Files<File = File>>(files: &R) -> NullStreams {
        NullStreams {
            held: [open_null(files), open_null(files), open_null(files)],
        }
    }
}

fn open_null<R: Files<File = File>>(files: &R) -> Option<File> {
    File::open(files, "/dev/null").ok()
}
