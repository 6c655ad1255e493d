//! Implements the traits `Files` and `ComparableFiles` for `Disk`. Used by `source_disk`,
//! `logos_program` and `logos_show`.

use crate::atomic_file::write_whole;
use crate::comparison::{ComparableFiles, Occurrence};
use crate::files::{FileError, Files};
use crate::reason::Reason;
use std::alloc::AllocError;
use std::fs::Metadata;
use std::io::ErrorKind;
use std::os::unix::fs::MetadataExt;
use std::rt::Files as Runtime;
use std::{fs, io};

/// The files that a runtime can access.
#[derive(Drop)]
pub struct Disk<'r, R> {
    /// The runtime.
    pub rt: &'r R,
}

impl<R: Runtime + AllocGlobal + Clone + Drop> Files for Disk<'_, R> {
    fn read(&mut self, path: &str) -> Result<Vec<u8>, FileError> {
        match fs::read(self.rt, path) {
            Ok(bytes) => Ok(bytes),
            Err(error) => Err(file_error(&error)),
        }
    }

    fn write(&mut self, path: &str, bytes: &[u8]) -> Result<(), FileError> {
        match write_whole(self.rt, path, bytes) {
            Ok(()) => Ok(()),
            Err(error) => Err(file_error(&error)),
        }
    }
}

impl<R: Runtime + AllocGlobal + Clone + Drop> ComparableFiles for Disk<'_, R> {
    fn compare(&mut self, path: &str, bytes: &[u8]) -> Result<Occurrence, AllocError> {
        let size = match fs::metadata(self.rt, path) {
            Ok(found) if found.is_file() => found.len(),
            Ok(_) => return Ok(Occurrence::Differs),
            Err(_) => return Ok(Occurrence::Missing),
        };
        if size != bytes.len() as u64 {
            return Ok(Occurrence::Differs);
        }
        match self.read(path) {
            Ok(found) if found.as_slice() == bytes => Ok(Occurrence::Same),
            Err(FileError::Memory) => Err(AllocError),
            _ => Ok(Occurrence::Differs),
        }
    }

    fn found_bytes(&self, path: &str) -> Result<Vec<u8>, AllocError> {
        match fs::metadata(self.rt, path) {
            Ok(found) if found.is_file() && found.len() <= MAX_SHOWN => bytes_at(self.rt, path),
            _ => Ok(Vec::new(self.rt.alloc())),
        }
    }

    fn is_same_file(&self, one: &str, other: &str) -> bool {
        match (fs::metadata(self.rt, one), fs::metadata(self.rt, other)) {
            (Ok(one), Ok(other)) => is_same(&one, &other),
            _ => false,
        }
    }
}

/// The maximum length in bytes of a file that is read for a message.
const MAX_SHOWN: u64 = 67_108_864;

/// Returns the bytes of the file at `path`, or no bytes if the file cannot be read.
fn bytes_at<R: Runtime + AllocGlobal>(rt: &R, path: &str) -> Result<Vec<u8>, AllocError> {
    match fs::read(rt, path) {
        Ok(bytes) => Ok(bytes),
        Err(error) if error.kind() == ErrorKind::OutOfMemory => Err(AllocError),
        Err(_) => Ok(Vec::new(rt.alloc())),
    }
}

/// Returns whether `one` and `other` are the metadata of one regular file.
fn is_same(one: &Metadata, other: &Metadata) -> bool {
    one.is_file() && one.dev() == other.dev() && one.ino() == other.ino()
}

/// Returns the error of an operation on a file that failed with `error`.
pub(crate) fn file_error(error: &io::Error) -> FileError {
    match error.kind() {
        ErrorKind::OutOfMemory => FileError::Memory,
        kind => FileError::Failed(Reason::of_kind(kind)),
    }
}
