//! Whether the standard output is a terminal.
use std::fs;
use std::os::unix::fs::{FileTypeExt, MetadataExt};
use std::rt::Files;

/// Whether a character device of this number is a terminal: by Linux's list a console or a serial
/// line has the major number 4, `/dev/tty` and `/dev/console` have 5, and the ends of
/// pseudo-terminals, which windows and remote shells are, have 136 to 143.
fn is_of_terminal(device: u64) -> bool {
    // As Linux packs it, a major number has its low 12 bits here.
    matches!(device >> 8 & 0xfff, 4 | 5 | 136..=143)
}

/// Whether the standard output is a terminal, by what Linux tells of its file. Where it tells
/// nothing, it is none.
pub fn output_is_terminal<T: Files>(files: &T) -> bool {
    match fs::metadata(files, "/proc/self/fd/1") {
        Ok(metadata) => metadata.file_type().is_char_device() && is_of_terminal(metadata.rdev()),
        Err(_) => false,
    }
}
