//! What is still open once an application is matched.
//!
//! Variables that nothing has filled get sizes of their own ([`settle_all`]). In what the application gives, slots that stand in
//! the parameter of a function are chosen by that function's caller ([`quantified`]), and all others are unknown.
#![tactic(auto)]

mod choosing;
mod renewing;
mod settling;

pub use choosing::{closed, quantified};
pub use settling::settle_all;
