//! Applications: a function's arguments are matched with its parameters.
//!
//! An [`Application`] goes along the arrows of its function: each argument is wanted at the sizes of its parameter
//! ([`take_arrow`]). Where no arrow is left, and at the end, arguments that are no functions are matched ([`data_meet`]), then
//! those that are functions and sized already ([`function_meets`]); lambdas are sized in between, with what is wanted of them
//! ([`want_of`]), by whoever walks over terms. Then the application goes on along the arrows of what it gives ([`take_again`]),
//! or it is over ([`conclude`]) and the nodes within it are noted ([`note_met`]).
//!
//! A node within an application has what the one before gives, and shares its tree where that names no position of the arrow
//! between them (`specs/Sharing.antt`): so an application of n arguments costs n, and n once more for each arrow whose positions
//! are named behind it.
//!
//! The definition is `fut_sizes`; `specs/` says which arguments, applications and answers code's are. `proofs/WayLaws.antt` and
//! `proofs/FunctionLaws.antt` have a law for each turn of the two loops of such a walk.
#![tactic(auto)]

mod arguments;
mod compositions;
mod going;
mod matching;
mod noting;
mod seeing;
mod sharing;

pub use arguments::{Argument, Later, Part, Want, Wanting, is_function};
pub use compositions::{Composition, composing, composition_of};
pub use going::{Application, Giving, begin, behind, conclude, take_again, take_arrow};
pub use matching::{data_meet, function_meets, want_of};
pub use noting::{note_composed, note_met};
