//! Module types, their members, and the parameters of modules, proved equal to the grammar of `fut_ast`.
#![tactic(auto)]

mod cycle;
mod members;
mod params;
mod tie;
mod types;

pub use cycle::{module_parameter, module_type};
pub use params::{maybe_module_type, module_params};
