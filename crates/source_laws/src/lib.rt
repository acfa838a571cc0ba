//! What is answered of a source's sizes and aliases is one, whichever numbering in the order of names and whichever typing tells
//! it: the first broken rule always ([`sources_break_one_rule`]), the sizing where a typing leaves no variable open
//! ([`sources_have_one_sizing`]). It is said in the words of `sized_programs` and `unique_programs` (`specs/Claims.antt`) and
//! proved of typings in `sizing_laws`.
#![tactic(auto)]

mod laws;

pub use laws::{sources_break_one_rule, sources_have_one_sizing};
