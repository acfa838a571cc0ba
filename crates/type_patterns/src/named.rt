// Uses of names, of values and of types.
ghost use Rattle.std.specs.Prelude.{◌<◌, ℕ, OnOk, IfErr};
ghost use Rattle.fut_types.specs.declared.Kind.{Kind};
ghost use Rattle.type_graph.specs.Graph.{Tells};
ghost use Rattle.type_scopes.specs.Scopes.{Claimed, Refused, Safe};
ghost use Rattle.type_patterns.specs.Asking.{Asked, Name_claim, Unasked, Use_claim};
ghost use Rattle.fut_flat.specs.declared.prim.Ref.TheVariants as ref;

use crate::steps::ask;
use fut_flat::Ref;
use fut_scalar::{BindId, IntType, ScalarType};
use std::alloc::Global;
use type_graph::UnifyErr;
use type_rules::Demand;
use type_schemes::instance;
use type_scopes::{Inference, Known, known_of};

/// Asks that a node has a type at which a name of the program may be used.
pub fn ask_use(
    alloc: Global,
    base: u32,
    name: u32,
    node: u32,
    inference: &mut Inference,
) -> Result<(), UnifyErr>
    requires safe { Safe base inference.old }
    requires node { node < base }
    ensures ok { OnOk result ((places : Kind) → Asked places base (Use_claim name node) inference.old inference.new) }
    ensures err { IfErr result (Tells ((places : Kind) → Unasked places base (Use_claim name node) inference.old inference.new)) }
{
    if name as usize >= inference.names.len() {
        return Err(UnifyErr::Memory);
    }
    match known_of(inference, name) {
        Known::Nothing => Err(UnifyErr::Clash(node, node)),
        Known::Number(number) => ask(alloc, base, inference, &[Demand::Same(node, number)]),
        Known::Size => {
            let integer = ScalarType::Int(IntType::I64);
            ask(alloc, base, inference, &[Demand::Is(node, integer)])
        }
        Known::Type(_) => Err(UnifyErr::Clash(node, node)),
        Known::Definition(first, count) => instance(
            alloc,
            &inference.table,
            base,
            &mut inference.nodes,
            &mut inference.entries,
            &inference.store,
            first,
            count,
            node,
        ),
    }
}

/// Asks that a number has a type at which a name of the program may be used.
pub fn constrain_name(
    alloc: Global,
    base: u32,
    name: u32,
    lo: u32,
    inference: &mut Inference,
) -> Result<(), UnifyErr>
    requires safe { Safe base inference.old }
    requires number { lo < base }
    ensures ok { OnOk result ((places : Kind) (d from : ℕ) → Claimed places base d from (Use_claim name lo) (λ home. Unit {0}) inference.old inference.new) }
    ensures err { IfErr result (Tells ((places : Kind) (d from : ℕ) → Refused places base d from (Use_claim name lo) (λ home. Unit {0}) inference.old inference.new)) }
{
    ask_use(alloc, base, name, lo, inference)
}

/// Asks that a node has the type of a name.
pub fn ask_named(
    alloc: Global,
    base: u32,
    reference: Ref,
    node: u32,
    inference: &mut Inference,
) -> Result<(), UnifyErr>
    requires safe { Safe base inference.old }
    requires node { node < base }
    ensures ok { OnOk result ((places : Kind) → Asked places base (Name_claim reference node) inference.old inference.new) }
    ensures err { IfErr result (Tells ((places : Kind) → Unasked places base (Name_claim reference node) inference.old inference.new)) }
{
    match reference {
        Ref::Bound(bind) => ask_bound(alloc, base, bind, node, inference),
        Ref::Prim(_) => Err(UnifyErr::Clash(node, node)),
        Ref::Scalar(scalar) => ask(alloc, base, inference, &[Demand::Is(node, scalar)]),
    }
}

// A name that the program binds. The node that stands for its type may stand behind `base`.
fn ask_bound(
    alloc: Global,
    base: u32,
    bind: BindId,
    node: u32,
    inference: &mut Inference,
) -> Result<(), UnifyErr>
    requires safe { Safe base inference.old }
    requires node { node < base }
    ensures ok { OnOk result ((places : Kind) → Asked places base (Name_claim (ref.Bound bind) node) inference.old inference.new) }
    ensures err { IfErr result (Tells ((places : Kind) → Unasked places base (Name_claim (ref.Bound bind) node) inference.old inference.new)) }
{
    if bind.0 as usize >= inference.names.len() {
        return Err(UnifyErr::Memory);
    }
    match known_of(inference, bind.0) {
        Known::Nothing => Err(UnifyErr::Clash(node, node)),
        Known::Type(own) => {
            let all = inference.nodes.len() as u32;
            ask(alloc, all, inference, &[Demand::Same(node, own)])
        }
        Known::Number(_) => Err(UnifyErr::Clash(node, node)),
        Known::Size => Err(UnifyErr::Clash(node, node)),
        Known::Definition(_, _) => Err(UnifyErr::Clash(node, node)),
    }
}
