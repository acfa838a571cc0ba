//! Trees, flat programs and the types of definitions as one line of text, for rows of data.
#![tactic(auto)]

mod flat;
mod line;
mod shapes;
mod texts;
mod typed;

pub use flat::programs::show_flat;
pub use line::Shown;
pub use shapes::modules::show_program;
pub use texts::suffix_text;
pub use typed::show_types;
