// Steps that ask something of the types of nodes.
ghost use Rattle.std.specs.Prelude.{◌≡◌, ◌<◌, length, OnOk, IfOk, IfErr};
ghost use Rattle.fut_types.specs.Types.{Made};
ghost use Rattle.fut_types.specs.declared.Head.TheVariants as head;
ghost use Rattle.fut_types.specs.declared.Kind.{Kind};
ghost use Rattle.type_graph.specs.Graph.{Each, Tells};
ghost use Rattle.type_graph.specs.Claims.{types_of};
ghost use Rattle.type_rules.specs.Demands.{All_met, Are_demands};
ghost use Rattle.type_scopes.specs.Scopes.{Safe};
ghost use Rattle.type_patterns.specs.Asking.{Added, Asked, Unasked};

use std::alloc::Global;
use type_graph::UnifyErr;
use type_rules::{Demand, push_own, put, tuple};
use type_scopes::Inference;

/// Adds free nodes. The answer is the number of the first.
pub fn add_nodes(base: u32, inference: &mut Inference, count: u32) -> Result<u32, UnifyErr>
    requires safe { Safe base inference.old }
    ensures ok { OnOk result (Added count inference.old inference.new) }
    ensures first { IfOk result (λ first. first ≡ length inference.old.nodes) }
    ensures err { IfErr result (Tells ⊥) }
{
    let _base = base;
    let first = inference.nodes.len() as u32;
    match push_own(&mut inference.nodes, count) {
        Ok(()) => Ok(first),
        Err(_) => Err(UnifyErr::Memory),
    }
}

/// Puts demands into the graph.
pub fn ask(
    alloc: Global,
    base: u32,
    inference: &mut Inference,
    demands: &[Demand],
) -> Result<(), UnifyErr>
    requires safe { Safe base inference.old }
    requires within { Are_demands inference.old.table base demands.now }
    ensures ok { OnOk result ((places : Kind) → Asked places base (λ N scope K a. All_met N.shapes K a demands.now) inference.old inference.new) }
    ensures err { IfErr result (Tells ((places : Kind) → Unasked places base (λ N scope K a. All_met N.shapes K a demands.now) inference.old inference.new)) }
{
    put(
        alloc,
        &inference.table,
        base,
        &mut inference.nodes,
        &mut inference.entries,
        demands,
    )
}

/// Asks that a node has the type of tuples of the types of these.
pub fn ask_tuple_of(
    alloc: Global,
    base: u32,
    node: u32,
    parts: &[u32],
    inference: &mut Inference,
) -> Result<(), UnifyErr>
    requires safe { Safe base inference.old }
    requires node { node < base }
    requires parts { Each (λ part. part < base) parts.now }
    ensures ok { OnOk result ((places : Kind) → Asked places base (λ N scope K a. a node ≡ Made head.Tuple (types_of a parts.now)) inference.old inference.new) }
    ensures err { IfErr result (Tells ((places : Kind) → Unasked places base (λ N scope K a. a node ≡ Made head.Tuple (types_of a parts.now)) inference.old inference.new)) }
{
    tuple(
        alloc,
        &inference.table,
        base,
        &mut inference.nodes,
        &mut inference.entries,
        node,
        parts,
    )
}
