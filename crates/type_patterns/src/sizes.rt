// Sizes in written types.
ghost use Rattle.std.specs.Prelude.{◌<◌, OnOk, IfErr};
ghost use Rattle.fut_types.specs.declared.Kind.{Kind};
ghost use Rattle.fut_flat.specs.Terms.{Size_use};
ghost use Rattle.fut_flat.specs.Erased.{size_of};
ghost use Rattle.fut_flat.specs.declared.prim.Ref.TheVariants as ref;
ghost use Rattle.type_graph.specs.Graph.{Tells};
ghost use Rattle.type_scopes.specs.Scopes.{Safe};
ghost use Rattle.type_patterns.specs.Asking.{Asked, Size_claim, Unasked};

use crate::named::ask_use;
use crate::steps::{add_nodes, ask};
use fut_flat::{Ref, Size, SizeForm};
use fut_scalar::{BindId, IntType, ScalarType};
use std::alloc::Global;
use type_graph::UnifyErr;
use type_rules::Demand;
use type_scopes::Inference;

/// Asks that what a size names has the type i64. A refusal names the node of the type in which it stands.
pub fn ask_size(
    alloc: Global,
    base: u32,
    size: Size,
    node: u32,
    inference: &mut Inference,
) -> Result<(), UnifyErr>
    requires safe { Safe base inference.old }
    ensures ok { OnOk result ((places : Kind) → Asked places base (Size_claim (size_of size)) inference.old inference.new) }
    ensures err { IfErr result (Tells ((places : Kind) → Unasked places base (Size_claim (size_of size)) inference.old inference.new)) }
{
    match size.form {
        SizeForm::Use(reference) => ask_size_use(alloc, base, reference, node, inference),
        SizeForm::Const(_) => Ok(()),
        SizeForm::Blank(_) => Ok(()),
    }
}

fn ask_size_use(
    alloc: Global,
    base: u32,
    reference: Ref,
    node: u32,
    inference: &mut Inference,
) -> Result<(), UnifyErr>
    requires safe { Safe base inference.old }
    ensures ok { OnOk result ((places : Kind) → Asked places base (Size_claim (Size_use reference)) inference.old inference.new) }
    ensures err { IfErr result (Tells ((places : Kind) → Unasked places base (Size_claim (Size_use reference)) inference.old inference.new)) }
{
    match reference {
        Ref::Bound(bind) => ask_size_name(alloc, base, bind, inference),
        Ref::Prim(_) => Err(UnifyErr::Clash(node, node)),
        Ref::Scalar(_) => Err(UnifyErr::Clash(node, node)),
    }
}

// A name: a node of its own has the type i64, at which the name may be used.
fn ask_size_name(
    alloc: Global,
    base: u32,
    bind: BindId,
    inference: &mut Inference,
) -> Result<(), UnifyErr>
    requires safe { Safe base inference.old }
    ensures ok { OnOk result ((places : Kind) → Asked places base (Size_claim (Size_use (ref.Bound bind))) inference.old inference.new) }
    ensures err { IfErr result (Tells ((places : Kind) → Unasked places base (Size_claim (Size_use (ref.Bound bind))) inference.old inference.new)) }
{
    let own = match add_nodes(base, inference, 1) {
        Ok(own) => own,
        Err(_) => return Err(UnifyErr::Memory),
    };
    let all = inference.nodes.len() as u32;
    let integer = ScalarType::Int(IntType::I64);
    match ask(alloc, all, inference, &[Demand::Is(own, integer)]) {
        Ok(()) => {}
        Err(error) => return Err(error),
    }
    ask_use(alloc, all, bind.0, own, inference)
}
