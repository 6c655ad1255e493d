//! Defines the reasons why a file cannot be read or written. Used by `failure`, `files`, `system`,
//! `logos_commands` and `logos_items`.

ghost use Rattle.std.specs.Prelude.{◌≡◌};
ghost use Rattle.logos_host.specs.Messages.{reason_text};

use std::io::ErrorKind;

/// The reason why a file cannot be read or written.
#[derive(Clone, Copy, Debug, PartialEq, Eq)]
pub enum Reason {
    /// There is no such file.
    Missing,
    /// The path is the path of a folder.
    Folder,
    /// A component of the path is not a folder.
    NoFolder,
    /// The system denies the permission to read or write the file.
    Permission,
    /// The symbolic links of the path form a cycle, or there are too many of them.
    Links,
    /// The path contains a name that is too long.
    LongName,
    /// The disk is full, or a quota is used up.
    Full,
    /// The file would be larger than the system allows.
    TooLarge,
    /// The file system is read-only.
    ReadOnly,
    /// The name of the new file that is to replace the old file is taken.
    Taken,
    /// Any other reason.
    Other,
}

impl Reason {
    /// Returns the reason for an error of the kind `kind`.
    pub fn of_kind(kind: ErrorKind) -> Reason {
        match kind {
            ErrorKind::NotFound => Reason::Missing,
            ErrorKind::IsADirectory => Reason::Folder,
            ErrorKind::NotADirectory => Reason::NoFolder,
            ErrorKind::PermissionDenied => Reason::Permission,
            ErrorKind::FilesystemLoop => Reason::Links,
            ErrorKind::InvalidFilename => Reason::LongName,
            ErrorKind::StorageFull | ErrorKind::QuotaExceeded => Reason::Full,
            ErrorKind::FileTooLarge => Reason::TooLarge,
            ErrorKind::ReadOnlyFilesystem => Reason::ReadOnly,
            ErrorKind::AlreadyExists => Reason::Taken,
            _ => Reason::Other,
        }
    }

    /// Returns the text after the path in the message of a failure: `: ` and the reason, or an
    /// empty text for `Other`.
    pub fn text(self) -> &'static str
        ensures { result.now ≡ reason_text self }
    {
        match self {
            Reason::Missing => ": there is no such file",
            Reason::Folder => ": it is a folder",
            Reason::NoFolder => ": a part of the path is not a folder",
            Reason::Permission => ": permission denied",
            Reason::Links => ": its links lead round",
            Reason::LongName => ": the name is too long",
            Reason::Full => ": no space is left",
            Reason::TooLarge => ": the file is too large",
            Reason::ReadOnly => ": the file system is read-only",
            Reason::Taken => ": all names for a new file beside it are taken",
            Reason::Other => "",
        }
    }
}
