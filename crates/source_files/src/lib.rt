//! The files of a program: the named file and all that it imports, each loaded, lexed and parsed before the next.
//!
//! `specs/Reading.antt` says in which order, `specs/Files.antt` what a file is that is read, and why one is not (Futhark Language
//! Reference, "Referencing Other Files"). The prelude is no file of a program.
#![tactic(auto)]

mod files;
mod laws;
mod reading;

pub use files::{MOST_FILES, UnreadFile, file_number, path_at, read_files};
pub use laws::{files_are_closed, told_files_are_read_once};
pub use reading::Unread;
