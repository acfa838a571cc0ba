//! What a settled graph answers to the question which types a program has.
//!
//! The types of the program's nodes are principal (`specs/Settled.antt`): a variable is a node of which nothing is known, with
//! the kind that is noted there, and with the named parts that are asked of it. The program is ambiguous where a variable is
//! left that `==` or `!` wants to know, or one with named parts (`specs/Left.antt`). An undetermined type of integers is i32,
//! which is read where a type is asked for.
#![tactic(auto)]

ghost use Rattle.type_answers.specs.Richness.{Names_are_apart, Names_are_rich};
ghost use Rattle.type_answers.specs.Settled.{Law};
ghost use Rattle.type_answers.specs.Programs.{Gives_typing, Shows_ambiguous, Types_it};
ghost use Rattle.type_answers.specs.Typings.{Allows_some, Closes};

mod left;

pub use left::undetermined;

/// The resolved types of a settled graph are the principal ones of the types that it allows.
pub fn settled_types_are_those_of_a_principal_typing()
    ensures { Law }
{}

/// A graph that has been solved and has resolved allows some types of the program's nodes.
pub fn resolved_graphs_allow_types()
    ensures { Allows_some }
{}

/// Where nothing in the types of the program's nodes is left undetermined, no part is open in the principal typing.
pub fn decided_types_are_closed()
    ensures { Closes }
{}

/// A program whose typings are what a resolved graph allows has one.
pub fn resolved_graphs_type_programs()
    ensures { Types_it }
{}

/// It has a typing where nothing is left undetermined, in which i32 stands for an undetermined type of integers.
pub fn decided_graphs_give_typings()
    ensures { Gives_typing }
{}

/// It is ambiguous where something is.
pub fn undecided_graphs_show_ambiguity()
    ensures { Shows_ambiguous }
{}

/// Where labels are names, there are records with all of them.
pub fn names_have_records()
    ensures { Names_are_rich }
{}

/// Labels that are names name their own positions.
pub fn names_have_positions_of_their_own()
    ensures { Names_are_apart }
{}
