//! The store of a running program: numbered blocks of words, and views that show cells of a block as an array of any rank.
//!
//! A block that is taken is apart from all live ones, and an update changes one word of one block ([`Store`]). What a view
//! shows is the words at its indices in row-major order (`specs/Views.antt`); arguments go in and values come out exactly
//! (`specs/Helds.antt`). Want of memory is the only refusal, and the store is then as before.
#![tactic(auto)]

mod held;
mod laws;
mod places;
mod slots;
mod store;
mod view;

pub use held::Held;
pub use laws::{blocks_are_apart, views_are_placed, views_show_what_they_are_of};
pub use store::Store;
pub use view::{BlockId, View};
