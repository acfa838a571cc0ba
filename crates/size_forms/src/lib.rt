//! The forms of the pass over sizes: what is done with the parts of a term once they are sized.
//!
//! Each public function is a part of one of `fut_sizes`' equations (`specs/Sizing.antt` there) that sizes no term itself: uses of
//! names, the ends and beginnings of `let`s, and the turns of loops. The walk that goes into terms is `size_walk`; `specs/` names
//! the steps between which it goes, and `proofs/` has for each form the laws that join the answers for parts to that of the
//! whole.
#![tactic(auto)]

mod closing;
mod compositions;
mod lets;
mod loops;
mod names;
mod turns;
mod walked;

pub use closing::{close_outer, end_let, finish_whole};
pub use compositions::{enter_composition, plain_lets};
pub use lets::{Bound, Ending, Head, Opened, bind_let, enter_head, value_node};
pub use loops::{Each, note_each};
pub use names::use_name;
pub use turns::{Carried, Inside, Turn, carry, end_turn, enter_turn, levels_of};
pub use walked::{Given, Row, Walked, Whole};
