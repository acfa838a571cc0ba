//! What typing promises of unfolded programs: laws, each carried by a call that does nothing.
//!
//! Unfolding a typed program is never stuck ([`unfolding_of_typed_programs_is_never_stuck`]), its blocks are well typed
//! ([`unfolded_programs_are_well_typed`]; `specs/Typed.antt`) and never go wrong ([`typed_blocks_never_go_wrong`]), and their
//! results are of the types that `specs/Sorts.antt` tells of the result's type ([`results_are_of_their_types`];
//! `specs/Claims.antt`). Typed blocks never go wrong, whatever they come of ([`programs_are_never_stuck`]; `specs/Safety.antt`), and
//! their types may be chosen without variables ([`types_may_be_closed`], [`types_of_unfolded_programs_may_be_closed`];
//! `specs/Closed.antt`).
//! `specs/Fits.antt` says what is known of the values of a type where a program is unfolded.
#![tactic(auto)]

mod laws;

pub use laws::{
    programs_are_never_stuck, results_are_of_their_types, typed_blocks_never_go_wrong,
    types_may_be_closed, types_of_unfolded_programs_may_be_closed,
    unfolded_programs_are_well_typed, unfolding_of_typed_programs_is_never_stuck,
};
