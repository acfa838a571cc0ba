//! How sized types are made: of types by themselves, of primitives, of the uses of general names, of what a program writes, and
//! of functions.
//!
//! Each public call is a function of `fut_sizes`, on trees in the arena of `size_arena`. No more is looked at than the tree in
//! hand; what doesn't change is shared.
#![tactic(auto)]

mod making;
mod positions;
mod primitives;
mod standing;
mod uses;
mod variables;

pub use making::{Making, of_type, past_type};
pub use positions::{Positions, bound};
pub use primitives::{is_regular, primitive_size};
pub use standing::{Sought, sizes_in};
pub use uses::used;
