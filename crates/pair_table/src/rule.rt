// The rule of a table of pairs, and its kinds of step.
ghost use Rattle.std.specs.Prelude.{ℕ, [], ◌+◌, ◌-◌, ◌++◌};
ghost use Rattle.phase_model.specs.Parts.{view};
ghost use Rattle.pair_table.specs.Pairs.{op_of};
ghost use Rattle.pair_table.specs.Rule.{Kept, Does};

use crate::operation::Operation;
use atomic_table::{Join, Play, Split, TableRule};
use fut_scalar::List;
use phase_model::{Pair, View};

/// What is fixed when a table is opened: its operation, its words and how many parts its seats have.
#[derive(Drop)]
pub struct Start {
    pub operation: Operation,
    pub words: List<u64>,
    pub parts: u64,
}

/// The rule.
pub struct Keeps;

impl TableRule<(), View<Pair>, Start> for Keeps {
    ghost holds = { λ k s. Kept (op_of k.operation) k.words k.parts s };

    ghost first = { λ k. view k.parts [] };
}

/// A pair is done.
pub struct Does;

impl Play<(), View<Pair>> for Does {
    ghost then = { Does };
}

/// The new seat has one part and nothing else.
pub struct Cut;

impl Split<View<Pair>> for Cut {
    ghost left = { λ v. view (v.parts - 1) v.seen };

    ghost right = { λ v. view 1 [] };
}

/// What two seats have becomes one seat's.
pub struct Glue;

impl Join<View<Pair>> for Glue {
    ghost both = { λ v w. view (v.parts + w.parts) (v.seen ++ w.seen) };

    ghost spent = { view 0 [] };
}
