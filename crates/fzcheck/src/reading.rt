//! Files that are read whole.

use crate::options::limits_of;
use fz_check::CheckError;
use fz_command::Size;
use fz_files::{ReadError, Recorder, read_up_to};
use std::alloc::Global;
use std::fs::File;
use std::io::Read;
use std::{fs, io};

/// A file that can't be read, and why: with the system's error, where it has one.
#[derive(Drop)]
pub struct Unread<'k> {
    pub error: CheckError,
    pub name: &'k str,
    pub failure: Option<io::Error>,
}

impl<'k> Unread<'k> {
    pub fn new(error: CheckError, name: &'k str, failure: Option<io::Error>) -> Unread<'k> {
        Unread {
            error,
            name,
            failure,
        }
    }
}

/// Opens a file.
///
/// # Errors
///
/// `Read` with the system's error.
pub fn open_file<'k>(rt: &HostRuntime, name: &'k str) -> Result<File, Unread<'k>> {
    match fs::open(rt, name) {
        Ok(file) => Ok(file),
        Err(failure) => Err(Unread::new(CheckError::Read, name, Some(failure))),
    }
}

/// The bytes of a file that is open, or `most + 1` of them where there are more.
///
/// # Errors
///
/// `Read` with the system's error, and `Memory`.
pub fn read_whole<'k, R: Read + Drop>(
    alloc: Global,
    file: R,
    name: &'k str,
    most: u32,
) -> Result<Vec<u8>, Unread<'k>> {
    let mut file = Recorder::new(file, None);
    let error = match read_up_to(alloc, &mut file, most) {
        Ok(bytes) => return Ok(bytes),
        Err(ReadError::Failed) => CheckError::Read,
        Err(ReadError::Memory) => CheckError::Memory,
    };
    Err(Unread::new(error, name, file.into_failure()))
}

/// The same of a file by its name.
pub fn read_file<'k>(rt: &HostRuntime, name: &'k str, most: u32) -> Result<Vec<u8>, Unread<'k>> {
    read_whole(rt.alloc(), open_file(rt, name)?, name, most)
}

/// The most bytes of a model. Where a file has more, one more is read, and the model is refused.
pub fn most_bytes(size: Size) -> u32 {
    u32::try_from(limits_of(size).bytes()).unwrap_or(u32::MAX)
}
