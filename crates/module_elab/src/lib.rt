//! Elaboration: the flat program of files with modules.
//!
//! [`elaborate`] answers just what the definition of `elab_scopes` (`specs/Elaboration.antt`) says: each definition with its names
//! resolved, what is bound numbered from 0 in the order in which files declare it, or the first refusal. That what is answered
//! means what the files mean is the law of `elab_laws`, `elaborated_gives_the_same`: its premise, `Elaborates files (Ok flat)`,
//! is the clause `program` here.
#![tactic(auto)]

mod call;
mod prelude;
mod refused;

pub use call::elaborate;
pub use prelude::{PRELUDE, PRELUDE_PATH};
pub use refused::ModErr;
