//! What files with modules declare: the walk over declarations, module expressions and module types. `elab_scopes`
//! (`specs/Declarations.antt`) has the definition.
//!
//! The walk goes as deep as modules stand in one another, where parametric modules are applied too. How deep it may go is a number
//! that its caller chooses by its stack; its end is want of memory.
#![tactic(auto)]

mod bringing;
mod call;
mod declarations;
mod files;
mod imports;
mod parts;
mod walk;

pub use call::{DeclaredFiles, declared_files};
pub use walk::{file_of, module_of};
