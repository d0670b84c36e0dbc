//! Standard streams that are closed.
use std::fs::File;
use std::{fs, io};

/// Where the system shows the standard streams that a program has.
const STREAMS: [&str; 3] = ["/proc/self/fd/0", "/proc/self/fd/1", "/proc/self/fd/2"];

/// Opens a folder, which nobody can write to, in the place of each standard stream that is closed: the system would give its number to
/// the next file that is opened, and what is told of a session would go into the ledger. It stands there as long as the answer is held.
pub fn hold_closed(rt: &HostRuntime) -> io::Result<Vec<File>> {
    let mut held = Vec::new(rt.alloc());
    for stream in STREAMS {
        if fs::metadata(rt, stream).is_err() {
            held.push(File::open(rt, "/")?)?;
        }
    }
    Ok(held)
}
