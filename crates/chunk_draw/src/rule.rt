// The rule of the draw table, and its three kinds of step.
ghost use Rattle.std.specs.Prelude.{ℕ, ◌+◌, ◌-◌, ◌++◌, []};
ghost use Rattle.phase_model.specs.Parts.{view};
ghost use Rattle.chunk_draw.specs.Drawing.{DrawKept, Draws};

use atomic_table::{Join, Play, Split, TableRule};
use phase_model::View;

/// How many chunks there are, and how many parts. It is fixed when the table is opened.
#[derive(Clone, Copy)]
pub struct Plan {
    pub chunks: u64,
    pub parts: u64,
}

/// The rule.
pub struct Keeps;

impl TableRule<(), View<u64>, Plan> for Keeps {
    ghost holds = { λ k s. DrawKept k.chunks k.parts s };

    ghost first = { λ k. view k.parts [] };
}

/// One more number is drawn.
pub struct Draws;

impl Play<(), View<u64>> for Draws {
    ghost then = { Draws };
}

/// The new seat has one part and nothing else.
pub struct Cut;

impl Split<View<u64>> for Cut {
    ghost left = { λ v. view (v.parts - 1) v.seen };

    ghost right = { λ v. view 1 [] };
}

/// What two seats have becomes one seat's.
pub struct Glue;

impl Join<View<u64>> for Glue {
    ghost both = { λ v w. view (v.parts + w.parts) (v.seen ++ w.seen) };

    ghost spent = { view 0 [] };
}
