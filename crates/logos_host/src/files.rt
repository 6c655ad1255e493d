//! Declares the trait `Files`, which reads and writes files by their paths. `Disk` and `SourceDisk`
//! implement the trait, and so do types of the tests.

ghost use Rattle.std.specs.Prelude.{ℕ, List, ⊤, IfOk, OnOk};

use crate::reason::Reason;

/// The error of reading or writing a file.
#[derive(Clone, Copy, Debug, PartialEq, Eq)]
pub enum FileError {
    /// The file was not read or written, for this reason.
    Failed(Reason),
    /// The file should be text, but is not UTF-8. `valid_up_to` is the length in bytes of the
    /// longest UTF-8 prefix of the file.
    NotText { valid_up_to: usize },
    /// Memory ran out.
    Memory,
}

/// Access to files by their paths.
pub trait Files {
    // Relates the files before a read, the path, all bytes that are read, and the files after it.
    ghost read_yields: { Self → List ℕ → List ℕ → Self → Type 0 } = { λ _ _ _ _. ⊤ };

    // Relates the files before a write, the path, the bytes that the file has from then on, and the
    // files after it.
    ghost write_makes: { Self → List ℕ → List ℕ → Self → Type 0 } = { λ _ _ _ _. ⊤ };

    // Relates the files before and after a read or a comparison, whether it succeeds or fails.
    ghost read_ends: { Self → Self → Type 0 } = { λ _ _. ⊤ };

    // Relates the files before a write, the path, and the files after it, whether it succeeds or
    // fails.
    ghost write_ends: { Self → List ℕ → Self → Type 0 } = { λ _ _ _. ⊤ };

    /// Returns all bytes of the file at `path`.
    ///
    /// # Errors
    ///
    /// Returns `Failed` if the file cannot be read, and `Memory` if memory runs out.
    fn read(&mut self, path: &str) -> Result<Vec<u8>, FileError>
        ensures yields { IfOk result (λ bytes. read_yields self.old path.now bytes.items self.new) }
        ensures ends { read_ends self.old self.new };

    /// Replaces the content of the file at `path` with `bytes`. Creates the file and the missing
    /// folders of its path if the file does not exist.
    ///
    /// # Errors
    ///
    /// Returns `Failed` if a folder or the file cannot be created or written, and `Memory` if
    /// memory runs out. Created folders remain.
    fn write(&mut self, path: &str, bytes: &[u8]) -> Result<(), FileError>
        ensures makes { OnOk result (write_makes self.old path.now bytes.now self.new) }
        ensures ends { write_ends self.old path.now self.new };
}
