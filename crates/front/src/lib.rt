//! The front: from the path of a file to an accepted program and the definition at which its run begins.
//!
//! What [`accept`] answers is told by `specs/Acceptance.antt`: the named file and all that it imports, directly or through others,
//! are read; none imports itself; their names are bound behind the prelude; the program that they are has a typing, by which it
//! has a sizing; and it breaks no rule of aliases and consumption. A refusal comes only where its cause stands there, with the path
//! of the file in which it stands, and what is accepted has no cause of another refusal ([`files_have_one_answer`]). All trees lie
//! in one arena. The prelude is read once, by [`read_prelude`].
//!
//! [`entry_at`] finds the definition at which a run may begin under a name, or there is none (`specs/EntryNameEntries.antt`);
//! it is that of the program as definitions speak of it (`specs/Entries.antt`, [`entries_are_those_of_the_program`]).
#![tactic(auto)]

mod accepting;
mod entry_names;
mod files;
mod laws;
mod reading;
mod refusals;

pub use entry_names::{NAMED_FILE, entry_at};
pub use files::{AcceptedFiles, accept};
pub use laws::{entries_are_those_of_the_program, files_have_one_answer};
pub use module_state::SourceFile;
pub use reading::{Prelude, read_prelude};
pub use refusals::{NameErr, Refused, RefusedFile};
pub use sized_programs::{Misfit, Shown, SizedProgram, Sizing};
pub use source_files::{Unread, path_at};
pub use typed_programs::{Accepted, TypeErr};
pub use unique_programs::Misuse;
