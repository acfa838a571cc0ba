//! Members that module types ask for, declared one at a time: what is met is hidden, shown, or looked at by its names alone; types
//! that are given by `with`. `elab_scopes` (`specs/Declarations.antt`) has the definition.
#![tactic(auto)]

mod definitions;
mod giving;
mod including;
mod refining;
mod types;
mod values;

pub use definitions::{declared_type, declared_value};
pub use giving::given_within;
pub use including::{included, specified};
pub use refining::{members_in, refined, with_types};
pub use types::type_spec;
pub use values::value_spec;
