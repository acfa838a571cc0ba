// Steps that claim something of the types of a program's numbers.
ghost use Rattle.std.specs.Prelude.{ℕ, OnOk, IfErr};
ghost use Rattle.fut_types.specs.declared.Kind.{Kind};
ghost use Rattle.type_graph.specs.Graph.{Tells};
ghost use Rattle.type_rules.specs.Demands.{All_allow, All_met, Are_demands};
ghost use Rattle.type_scopes.specs.Scopes.{Claimed, Refused, Safe};

use crate::Inference;
use std::alloc::Global;
use type_graph::UnifyErr;
use type_rules::{Demand, put};

/// Puts the demands of a rule into the graph.
pub fn demand(
    alloc: Global,
    base: u32,
    inference: &mut Inference,
    demands: &[Demand],
) -> Result<(), UnifyErr>
    requires safe { Safe base inference.old }
    requires within { Are_demands inference.old.table base demands.now }
    ensures ok { OnOk result ((places : Kind) (d lo : ℕ) → Claimed places base d lo (λ N scope K a. All_met N.shapes K a demands.now) (λ home. All_allow home demands.now) inference.old inference.new) }
    ensures err { IfErr result (Tells ((places : Kind) (d lo : ℕ) → Refused places base d lo (λ N scope K a. All_met N.shapes K a demands.now) (λ home. All_allow home demands.now) inference.old inference.new)) }
{
    put(
        alloc,
        &inference.table,
        base,
        &mut inference.nodes,
        &mut inference.entries,
        demands,
    )
}
