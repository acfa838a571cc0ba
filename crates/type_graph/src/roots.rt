// Nodes, the roots that links lead to, and linking two roots.
ghost use Rattle.std.specs.Prelude.{◌≡◌, ◌<◌, ◌≢◌, ℕ, length};
ghost use Rattle.fut_types.specs.Types.{Kinds, Sub};
ghost use Rattle.type_graph.specs.State.{Tops};
ghost use Rattle.type_graph.specs.declared.Form.TheVariants as form;
ghost use Rattle.type_graph.specs.Graph.{node_at, with_node, Tables, Solves, Like, IsGraph, IsRoot, Found, Linked};

use crate::{FAR, Form, Node};
use fut_scalar::List;
use fut_types::Kind;

/// The node with this number.
#[tactic(auto, unfolding(crate::specs::Graph::node_at))]
pub fn node_of(nodes: &List<Node>, number: u32) -> Node
    requires { number < length nodes.now }
    ensures { result ≡ node_at nodes.now number }
{
    nodes.as_slice()[number as usize]
}

/// Puts another node at this number.
#[tactic(auto, unfolding(crate::specs::Graph::with_node))]
pub fn put(nodes: &mut List<Node>, number: u32, node: Node)
    requires { number < length nodes.old }
    ensures { nodes.new ≡ with_node nodes.old number node }
{
    nodes.set(number as usize, node);
}

/// The root of a node.
pub fn find(nodes: &List<Node>, start: u32) -> u32
    requires graph { IsGraph nodes.now }
    requires start { start < length nodes.now }
    ensures { Found nodes.now start result }
{
    let mut at = start;
    while let Form::Link(next) = node_of(nodes, at).form {
        at = next;
    }
    at
}

// Goes one link on, or two, and then lets the first skip the second.
fn hop(nodes: &mut List<Node>, at: u32, next: u32) -> u32
    requires graph { IsGraph nodes.old }
    requires within { at < length nodes.old }
    requires link { (node_at nodes.old at).form ≡ form.Link next }
    ensures like { Like nodes.old nodes.new }
    ensures below { result < at }
    ensures same { (T : Tables) (K : Kinds) (a : Sub) → Solves T K a nodes.new → a at ≡ a result }
    ensures tops { (top : ℕ → ℕ) → Tops nodes.new top → top at ≡ top result }
{
    let node = node_of(nodes, at);
    if let Form::Link(after) = node_of(nodes, next).form {
        put(
            nodes,
            at,
            Node {
                kind: node.kind,
                level: node.level,
                form: Form::Link(after),
            },
        );
        return after;
    }
    next
}

// The root of a node, with the links on the way made shorter.
pub fn find_short(nodes: &mut List<Node>, start: u32) -> u32
    requires graph { IsGraph nodes.old }
    requires start { start < length nodes.old }
    ensures found { Found nodes.new start result }
    ensures like { Like nodes.old nodes.new }
{
    let mut at = start;
    while let Form::Link(next) = node_of(nodes, at).form {
        at = hop(nodes, at, next);
    }
    at
}

// Links a root to another. The root of both is the smaller number.
pub fn link(nodes: &mut List<Node>, winner: u32, loser: u32)
    requires graph { IsGraph nodes.old }
    requires winner { winner < length nodes.old }
    requires root { IsRoot (node_at nodes.old winner).form }
    requires loser { loser < length nodes.old }
    requires loser_root { IsRoot (node_at nodes.old loser).form }
    requires differ { winner ≢ loser }
    ensures { Linked nodes.old winner loser nodes.new }
{
    if winner < loser {
        put(
            nodes,
            loser,
            Node {
                kind: Kind::Any,
                level: FAR,
                form: Form::Link(winner),
            },
        );
    } else {
        let kept = node_of(nodes, winner);
        put(nodes, loser, kept);
        put(
            nodes,
            winner,
            Node {
                kind: Kind::Any,
                level: FAR,
                form: Form::Link(loser),
            },
        );
    }
}
