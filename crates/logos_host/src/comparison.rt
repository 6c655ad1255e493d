//! Declares the trait `ComparableFiles`, which compares files with bytes and with each other. Used
//! by `logos_cli` for `--check`, by `logos_options` for `--version`, and by `logos_show`.

ghost use Rattle.std.specs.Prelude.{◌≡◌, ℕ, List, Bool, ⊤, IfOk};
ghost use Rattle.logos_host.specs.declared.comparison.Occurrence.{Occurrence as OccurrenceValue};

use crate::files::Files;
use std::alloc::AllocError;

/// The result of comparing a file with bytes.
#[derive(Clone, Copy, Debug, PartialEq, Eq)]
pub enum Occurrence {
    /// The content of the file consists of exactly these bytes.
    Same,
    /// The file has other bytes, cannot be read, or is a folder, a device or a pipe.
    Differs,
    /// The system finds no file at the path.
    Missing,
}

/// Files whose content can be compared with bytes.
pub trait ComparableFiles: Files {
    // Relates the files before a comparison, the path, the bytes, the result, and the files after
    // it.
    ghost compare_finds: { Self → List ℕ → List ℕ → OccurrenceValue → Self → Type 0 } = { λ _ _ _ _ _. ⊤ };

    // Holds if two paths lead to one file.
    ghost same_finds: { Self → List ℕ → List ℕ → Bool → Type 0 } = { λ _ _ _ _. ⊤ };

    /// Compares the file at `path` with `bytes`. Reads the file only if the file is a regular file.
    ///
    /// # Errors
    ///
    /// Returns `AllocError` if memory runs out.
    fn compare(&mut self, path: &str, bytes: &[u8]) -> Result<Occurrence, AllocError>
        ensures finds { IfOk result (λ occurrence.
            Self.compare_finds self.old path.now bytes.now occurrence self.new) }
        ensures same { IfOk result (λ occurrence. occurrence ≡ Occurrence.Same →
            Self.read_yields self.old path.now bytes.now self.new) }
        ensures ends { Self.read_ends self.old self.new };

    /// Returns the bytes of the file at `path`, for a message. Returns no bytes if the file is not
    /// a regular file, cannot be read, or has more than 67,108,864 bytes.
    ///
    /// # Errors
    ///
    /// Returns `AllocError` if memory runs out.
    fn found_bytes(&self, path: &str) -> Result<Vec<u8>, AllocError>;

    /// Returns whether both paths lead to one regular file, directly or through links.
    fn is_same_file(&self, one: &str, other: &str) -> bool
        ensures { Self.same_finds self.now one.now other.now result };
}
