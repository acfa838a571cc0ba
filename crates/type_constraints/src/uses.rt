// Uses of names.
ghost use Rattle.std.specs.Prelude.{◌<◌, ℕ, OnOk, IfErr};
ghost use Rattle.fut_typing.specs.Scopes.{Used};
ghost use Rattle.type_graph.specs.Graph.{Tells};
ghost use Rattle.type_scopes.specs.Scopes.{Claimed, Refused, Safe};

use crate::setting::Setting;
use fut_flat::Ref;
use type_graph::UnifyErr;
use type_patterns::constrain_name;
use type_primitives::primitive;
use type_scopes::Inference;

/// Asks that a number has a type at which a name may be used.
pub fn use_name(
    setting: Setting,
    reference: Ref,
    lo: u32,
    inference: &mut Inference,
) -> Result<(), UnifyErr>
    requires safe { Safe setting.base inference.old }
    requires number { lo < setting.base }
    ensures ok { OnOk result ((d : ℕ) → Claimed setting.places setting.base d lo (λ N scope K a. Used setting.places scope K a reference (a lo)) (λ home. Unit {0}) inference.old inference.new) }
    ensures err { IfErr result (Tells ((d : ℕ) → Refused setting.places setting.base d lo (λ N scope K a. Used setting.places scope K a reference (a lo)) (λ home. Unit {0}) inference.old inference.new)) }
{
    match reference {
        Ref::Bound(bind) => constrain_name(setting.alloc, setting.base, bind.0, lo, inference),
        Ref::Prim(name) => primitive(
            setting.alloc,
            &inference.table,
            setting.base,
            &mut inference.nodes,
            &mut inference.entries,
            lo,
            name,
            setting.places,
        ),
        Ref::Scalar(_) => Err(UnifyErr::Clash(lo, lo)),
    }
}
