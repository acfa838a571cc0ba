//! Aliases, stars and values as trees in an arena, and what the checker of uniqueness does with one or two of them.
//!
//! `fut_aliases` says what sets of aliases, stars and values by component are; `specs/Trees.antt` says which of them a tree of the
//! arena is. Each public function is a function of those definitions on trees. Trees are handed on by copying a reference.
#![tactic(auto)]

mod comparing;
mod naming;
mod nodes;
mod sets;
mod stars;
mod trees;
mod values;

pub use comparing::{adds_star, consumes_more, gives_less};
pub use naming::{joined, named};
pub use nodes::{array, arrow, function, leaf, parts, scalar, star_row};
pub use sets::{Test, is_alias, is_before, is_in, is_outside, least_of, union, with_alias};
pub use stars::{consumes, has_star, lacks_star};
pub use trees::{StarTree, TypeTree, ValueTree};
pub use values::{add_aliases, component_count};
