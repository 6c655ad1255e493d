//! Connects `logos`, `logos_cli` and `logos_show` with the system: reads their arguments and files,
//! writes their output and files, and reports their failures.

#![tactic(auto)]

mod atomic_file;
mod color;
mod command_line;
mod comparison;
mod failure;
mod files;
mod message;
mod message_format;
mod paths;
mod plain_message;
mod reader;
mod reason;
mod source_disk;
mod system;
mod writer;

pub use color::{Color, color_by_name};
pub use command_line::arguments;
pub use comparison::{ComparableFiles, Occurrence};
pub use failure::Failure;
pub use files::{FileError, Files};
pub use message::report;
pub use message_format::{MessageFormat, format_by_name};
pub use paths::file_name;
pub use plain_message::report_plainly;
pub use reader::{read_bytes, read_text};
pub use reason::Reason;
pub use source_disk::SourceDisk;
pub use system::Disk;
pub use writer::{print_bytes, write_block, write_file, write_full, write_through};
