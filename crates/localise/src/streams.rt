//! The numbers of the standard streams, kept from the files of a run.

use std::fs;
use std::rt::Files;

/// What holds the number of a standard stream that was closed before the program began. Else a file of the run would get that number,
/// and what is written to the stream would stand in the file. It is open for reading alone, so that writing to the stream still fails.
pub(crate) fn held_stream<R: Files>(rt: &R) -> Option<R::File> {
    match fs::open(rt, "/dev/null") {
        Ok(file) => Some(file),
        Err(_) => fs::open(rt, "/").ok(),
    }
}
