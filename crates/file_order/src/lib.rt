//! In which order the files of a program are loaded, and which of them imports itself.
//!
//! Definitions and their laws alone. `specs/Order.antt` says which files a file imports, in the order of its text; that files are
//! loaded depth first, each once, in the order of the imports; and that the refusal of an import cycle is that of the first file
//! in this order that imports itself (Futhark Language Reference, "Referencing Other Files").
#![tactic(auto)]

ghost use Rattle.file_order.specs.Claims.{ImportsAreLoaded, OneFirstCycle, OneLoadOrder};

/// The law that files have one order of load, in which each file stands that one of them imports.
#[tactic(auto, using(crate::proofs::Order::one_load_order, crate::proofs::Order::imports_are_loaded))]
pub fn files_have_one_order()
    ensures one { OneLoadOrder }
    ensures imports { ImportsAreLoaded }
{}

/// The law that at most one file is the first that imports itself.
#[tactic(auto, using(crate::proofs::Order::one_first_cycle))]
pub fn one_cycle_is_first()
    ensures { OneFirstCycle }
{}
