//! Operations and uses of names in the checker of uniqueness: what each makes of the values of its parts.
//!
//! Each public function is a function of `fut_aliases` on the trees of `alias_values`, or a step of it (`uniqueness`,
//! `specs/Answers.antt`). Names of parts are known as far as `alias_parts` says.
#![tactic(auto)]

mod operations;
mod projecting;
mod records;
mod uses;
mod values;
mod wanted;

pub use operations::operate;
pub use projecting::projected;
pub use uses::used;
pub use wanted::wanted_part;
