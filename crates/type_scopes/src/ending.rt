// Where a definition ends.
ghost use Rattle.std.specs.Prelude.{◌≡◌, ◌<◌, length, true, false, OnOk, IfErr};
ghost use Rattle.type_graph.specs.Graph.{Each, Tells};
ghost use Rattle.type_graph.specs.Claims.{Sound};
ghost use Rattle.type_scopes.specs.Table.{seat_at};
ghost use Rattle.type_scopes.specs.Definitions.{Deep, Escapes, Generalises};

use crate::{Inference, Known, enter, seat_of};
use type_graph::{UnifyErr, is_fixed};
use type_schemes::scheme;

// Whether a type parameter is fixed by what stands at a depth or outside.
fn escapes(own: &[u32], depth: u32, inference: &Inference) -> bool
    requires sound { Sound inference.now.table inference.now.nodes inference.now.entries }
    requires own { Each (λ n. (seat_at inference.now.seats n).node < length inference.now.nodes) own.now }
    ensures fixed { result ≡ true → Escapes own.now depth inference.now }
    ensures deep { result ≡ false → Deep own.now depth inference.now }
{
    for parameter in own {
        let node = seat_of(inference, *parameter).node;
        if is_fixed(&inference.nodes, node, depth) {
            return true;
        }
    }
    false
}

/// Generalises a definition, and lets its name stand for it. `root` is the node of its type, `own` has the numbers of its type
/// parameters, and `depth` is that around it.
///
/// `Err`: a type parameter is fixed by what stands around the definition, or memory ran out.
pub fn generalise(
    own: &[u32],
    root: u32,
    depth: u32,
    name: u32,
    inference: &mut Inference,
) -> Result<(), UnifyErr>
    requires sound { Sound inference.old.table inference.old.nodes inference.old.entries }
    requires root { root < length inference.old.nodes }
    requires own { Each (λ n. (seat_at inference.old.seats n).node < length inference.old.nodes) own.now }
    ensures ok { OnOk result (Generalises own.now root depth name inference.old inference.new) }
    ensures err { IfErr result (Tells (Escapes own.now depth inference.old)) }
    ensures same { IfErr result (Tells (inference.new ≡ inference.old)) }
{
    if escapes(own, depth, inference) {
        return Err(UnifyErr::Clash(root, root));
    }
    let first = inference.store.len();
    if first >= 4294967295 {
        return Err(UnifyErr::Memory);
    }
    let count = match scheme(
        &inference.nodes,
        &inference.entries,
        &mut inference.store,
        &mut inference.memo,
        own,
        root,
        depth,
    ) {
        Ok(count) => count,
        Err(_) => return Err(UnifyErr::Memory),
    };
    match enter(inference, name, Known::Definition(first as u32, count)) {
        Ok(()) => Ok(()),
        Err(_) => Err(UnifyErr::Memory),
    }
}
