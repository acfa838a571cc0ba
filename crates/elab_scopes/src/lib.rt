//! Names and scopes: which binding each use of a name has, and how what is bound is numbered. `specs/Resolve.antt` is
//! the definition, by structure on terms. `specs/Declarations.antt` says what files with modules declare, and
//! `specs/Elaboration.antt` what they come to.
//!
//! What stands outside of a definition, where there are modules, is held by [`Members`] and [`Contents`]: members that are found at
//! once and shared by all who see them, and modules by their numbers. [`Members`] is never changed: members with one more share
//! all others with those that they were made of, so names in scope that are kept, as each parametric module keeps them, cost
//! nothing, and a definition is entered by an assignment. Contracts see the list of members, the newest first.
#![tactic(auto)]

mod inside;
mod meanings;
mod members;
mod modules;
mod newest;
mod numbers;
mod paths;
mod refusal;
mod scope;
mod table;
mod tree;
mod values;

pub use inside::{module_at, signature_at, type_inside};
pub use meanings::{Meanings, Member, ModuleRef};
pub use members::{Members, joined, no_members, one_by_one, with_member};
pub use modules::{
    Contents, contents_at, module_in_module, module_named, signature_in_module, type_in_module,
    value_in_module,
};
pub use paths::{size_of, type_of, value_of};
pub use refusal::{Refusal, Stop};
pub use table::{Entry, Names};
pub use values::Found;
