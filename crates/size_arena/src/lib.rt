//! Sized types as trees in an arena, and what is done with one or two of them.
//!
//! A [`SizeTree`] is a sized type of `fut_sizes` (`specs/Trees.antt` says which). Trees are handed on by copying a reference, and
//! where nothing changes a part is shared. Each tree knows how high it is; none is made that is higher than [`HIGHEST`], so that
//! walks over them have stack enough.
#![tactic(auto)]

mod agreeing;
mod dims;
mod keeping;
mod levels;
mod opened;
mod scopes;
mod trees;
mod types;

pub use agreeing::{Refusal, SizeErr, agree};
pub use dims::{Dim, Free, Variable, same_dim, same_free};
pub use keeping::kept;
pub use levels::{past, past_within};
pub use opened::{Frame, Frames, dim_in};
pub use scopes::{Change, Property, changed, has, leaving, takes};
pub use trees::{HIGHEST, SizeTree, built, function, hole, level, open};
pub use types::TypeTree;
