//! What the errors of the system are called.

ghost use Rattle.std.specs.Prelude.{◌≡◌, ◌≤◌, length};
ghost use Rattle.file_hints.specs.Errors.{error_name};

/// What glibc calls the errors of Linux that a call of a file may give; empty for another one.
pub(crate) fn error_name(number: u32) -> &'static [u8]
    ensures name { result.now ≡ error_name number }
    ensures short { length result.now ≤ 40 }
{
    match number {
        1 => b"Operation not permitted",
        2 => b"No such file or directory",
        4 => b"Interrupted system call",
        5 => b"Input/output error",
        6 => b"No such device or address",
        9 => b"Bad file descriptor",
        11 => b"Resource temporarily unavailable",
        12 => b"Cannot allocate memory",
        13 => b"Permission denied",
        16 => b"Device or resource busy",
        17 => b"File exists",
        19 => b"No such device",
        20 => b"Not a directory",
        21 => b"Is a directory",
        22 => b"Invalid argument",
        23 => b"Too many open files in system",
        24 => b"Too many open files",
        26 => b"Text file busy",
        27 => b"File too large",
        28 => b"No space left on device",
        30 => b"Read-only file system",
        36 => b"File name too long",
        37 => b"No locks available",
        38 => b"Function not implemented",
        40 => b"Too many levels of symbolic links",
        75 => b"Value too large for defined data type",
        95 => b"Operation not supported",
        107 => b"Transport endpoint is not connected",
        110 => b"Connection timed out",
        112 => b"Host is down",
        116 => b"Stale file handle",
        117 => b"Structure needs cleaning",
        121 => b"Remote I/O error",
        122 => b"Disk quota exceeded",
        123 => b"No medium found",
        _ => b"",
    }
}
