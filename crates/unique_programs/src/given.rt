// Types of a graph's nodes that others give.
ghost use Rattle.std.specs.Prelude.{◌≡◌, ◌+◌, ◌<◌, length, IfSome, IsTrue};
ghost use Rattle.fut_types.specs.declared.Head.TheVariants as heads;
ghost use Rattle.type_graph.specs.Graph.{IsGraph};
ghost use Rattle.unique_programs.specs.Giving.{Gives};

use fut_scalar::List;
use fut_types::Head;
use type_graph::{Form, Node, find, node_of};

fn is_function(head: Head) -> bool
    ensures { IsTrue result → head ≡ heads.Fun }
{
    matches!(head, Head::Fun)
}

/// The node of what a node's type gives, if it is one of functions.
fn given_by(nodes: &List<Node>, at: u32) -> Option<u32>
    requires graph { IsGraph nodes.now }
    requires at { at < length nodes.now }
    ensures within { IfSome result (λ given. given < length nodes.now) }
    ensures gives { IfSome result (Gives nodes.now at) }
{
    let root = find(nodes, at);
    match node_of(nodes, root).form {
        Form::Made(head, first, count) => {
            if is_function(head) && count == 2 {
                Some(first + 1)
            } else {
                None
            }
        }
        Form::Free | Form::Link(_) | Form::Open(_, _) => None,
    }
}

/// Whether a node's type is what that of the next one gives, as an application's is, whose function stands behind it.
pub fn is_given(nodes: &List<Node>, at: u32) -> bool
    requires graph { IsGraph nodes.now }
    requires next { at + 1 < length nodes.now }
    ensures { IsTrue result → Gives nodes.now (at + 1) at }
{
    match given_by(nodes, at + 1) {
        Some(given) => find(nodes, given) == find(nodes, at),
        None => false,
    }
}
