//! What files with modules have declared so far, as code holds it: the names in scope, modules, parametric modules and module
//! types by their numbers, and the steps of the walk over declarations that need no walk themselves.
//!
//! `elab_scopes` (`specs/Declarations.antt`) has the definition. `specs/Standing.antt` says what a step of code is, where code does not
//! hold the whole state: it holds flat definitions, the definition what they were made of.
#![tactic(auto)]

mod again;
mod blocks;
mod here;
mod naming;
mod opening;
mod parameters;
mod paths;
mod state;
mod written;

pub use again::{is_module_again, is_signature_again, is_type_again, is_value_again};
pub use blocks::{brought, member_brought, more_members};
pub use here::{in_body, looking, sees, within};
pub use naming::{called, type_called};
pub use opening::{contents_of, opened, scalar_members};
pub use parameters::curried;
pub use paths::{functor_at, functor_in, met_as, path_module, signature_named, signature_numbered};
pub use state::{
    Block, Declaring, Functor, Given, Giving, Here, Loaded, Meeting, Signature, Specified,
    new_functor, new_module, new_signature,
};
pub use written::{SourceFile, Sources, Written};
