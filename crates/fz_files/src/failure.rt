//! Why a file can't be read.

use std::alloc::{AllocError, Global};
use std::io;
use std::os::fd::AsFd;

/// The system's words for an error, without its number.
///
/// # Errors
///
/// Out of memory.
pub fn failure_text(alloc: Global, failure: &io::Error) -> Result<String, AllocError> {
    let text = format!(in alloc; "{failure}")?;
    match text.split_once(" (os error") {
        Some((front, _)) => String::from_str(alloc, front),
        None => Ok(text),
    }
}

/// Fails where standard input isn't open. This is asked before a file is opened: a file that is
/// opened while standard input is closed gets its descriptor, and would be read in its place.
///
/// # Errors
///
/// The system's for a closed descriptor.
pub fn find_input(rt: &HostRuntime) -> io::Result<()> {
    rt.stdin().as_fd().try_clone_to_owned()?;
    Ok(())
}
