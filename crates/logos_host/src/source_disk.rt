//! Implements the traits `Files` and `ComparableFiles` for `SourceDisk`, with which programs read
//! sources. Used by `logos_cli`.

use crate::comparison::{ComparableFiles, Occurrence};
use crate::files::{FileError, Files};
use crate::system::{Disk, file_error};
use std::alloc::AllocError;
use std::io::Read;
use std::rt::Files as Runtime;
use std::{fs, io};

/// The maximum number of bytes that are read from a file. This number exceeds the maximum length of
/// a source by five. A text of this length is therefore too long even after its last character is
/// removed.
const MAX_READ: u64 = 16_777_221;

/// The files that a runtime can access, read as sources. At most `MAX_READ` bytes of a file are
/// read. These bytes suffice to detect that the file is too long for a source. An endless device is
/// therefore refused as too long.
#[derive(Drop)]
pub struct SourceDisk<'r, R> {
    /// The runtime.
    pub rt: &'r R,
}

impl<R: Runtime + AllocGlobal + Clone + Drop> Files for SourceDisk<'_, R> {
    fn read(&mut self, path: &str) -> Result<Vec<u8>, FileError> {
        match read_front(self.rt, path) {
            Ok(bytes) => Ok(bytes),
            Err(error) => Err(file_error(&error)),
        }
    }

    fn write(&mut self, path: &str, bytes: &[u8]) -> Result<(), FileError> {
        Disk { rt: self.rt }.write(path, bytes)
    }
}

impl<R: Runtime + AllocGlobal + Clone + Drop> ComparableFiles for SourceDisk<'_, R> {
    fn compare(&mut self, path: &str, bytes: &[u8]) -> Result<Occurrence, AllocError> {
        Disk { rt: self.rt }.compare(path, bytes)
    }

    fn found_bytes(&self, path: &str) -> Result<Vec<u8>, AllocError> {
        Disk { rt: self.rt }.found_bytes(path)
    }

    fn is_same_file(&self, one: &str, other: &str) -> bool {
        Disk { rt: self.rt }.is_same_file(one, other)
    }
}

/// Returns all bytes of the file at `path` if the file has fewer than `MAX_READ` bytes. Otherwise,
/// returns a prefix that is too long for a source and ends with a whole character.
fn read_front<R: Runtime + AllocGlobal>(rt: &R, path: &str) -> io::Result<Vec<u8>> {
    let mut bytes = Vec::new(rt.alloc());
    fs::File::open(rt, path)?
        .take(MAX_READ)
        .read_to_end(&mut bytes)?;
    if bytes.len() as u64 == MAX_READ {
        cut_last(&mut bytes);
    }
    Ok(bytes)
}

/// Removes the last character of `bytes`, which may be incomplete. Removes the continuation bytes
/// and the first byte of the character, but at most four bytes.
fn cut_last(bytes: &mut Vec<u8>) {
    for _ in 0..4 {
        match bytes.pop() {
            Some(byte) if is_continuation(byte) => {}
            _ => return,
        }
    }
}

/// Returns whether a byte is a continuation byte of UTF-8.
fn is_continuation(byte: u8) -> bool {
    (0x80 <= byte) & (byte <= 0xBF)
}
