//! The trees of source texts as they are held in memory: every part is held by reference in an arena, so that a tree
//! is handed on by copying a reference and nothing is ever let go. Contracts see a tree as the plain tree of
//! `fut_ast`, whatever its addresses.
#![tactic(auto)]

mod exp;
mod held;
mod module;
mod pat;
mod ty;

pub use exp::{Bind, Exp, ExpField, Form, Ix, LoopForm};
pub use held::Held;
pub use module::{
    Dec, DecForm, Label, ModExp, ModForm, ModType, ModTypeForm, Param, Program, Spec, SpecForm,
    With,
};
pub use pat::{Head, HeadForm, Pat, PatField, PatForm};
pub use ty::{SizeExp, SizeForm, TypeArg, TypeExp, TypeField, TypeForm};
