// The types that inference gives, read off its graph.
ghost use Rattle.std.specs.Prelude.{◌≡◌, ◌<◌, length};
ghost use Rattle.fut_types.specs.Types.{Ty};
ghost use Rattle.type_graph.specs.Graph.{IsGraph, Within};
ghost use Rattle.type_infer.specs.Reading.{Comes_to, Generally, Is_made, Is_root_of, default_form};

use fut_scalar::{IntType, ScalarType};
use fut_types::{Head, Kind};
use type_graph::{Form, Node, node_of};
use type_scopes::Inference;

// The node to which the links of a node lead.
fn root_of(inference: &Inference<'_>, node: u32) -> Node
    requires graph { IsGraph inference.now.nodes }
    requires node { node < length inference.now.nodes }
    ensures root { Is_root_of inference.now.nodes node result }
    ensures within { Within (length inference.now.nodes) node result.form }
{
    let mut at = node;
    let mut root = node_of(&inference.nodes, at);
    while let Form::Link(next) = root.form {
        at = next;
        root = node_of(&inference.nodes, at);
    }
    root
}

// Its form, with i32 for a type of integers that is left undetermined.
fn with_default(node: Node) -> Form
    ensures { result ≡ default_form node.kind node.form }
{
    match node.form {
        Form::Free => match node.kind {
            Kind::Integer => Form::Made(Head::Scalar(ScalarType::Int(IntType::I32)), 0, 0),
            Kind::Any | Kind::Data | Kind::Equal | Kind::Scalar => Form::Free,
        },
        Form::Link(_) | Form::Made(_, _, _) | Form::Open(_, _) => node.form,
    }
}

/// What the type of a node is made by: a head of the types of the nodes in a row, or nothing, where it is left undetermined
/// and is not of integers, which are i32. Nodes below the program's numbers of nodes are its numbers. No tree is made; the
/// cost is that of the links to the root, which are kept short.
pub fn type_at(inference: &Inference<'_>, node: u32) -> Form
    requires graph { IsGraph inference.now.nodes }
    requires node { node < length inference.now.nodes }
    ensures made { (t : Ty) → Comes_to inference.now.nodes node t → Is_made (Comes_to inference.now.nodes) result t }
    ensures within { Within (length inference.now.nodes) node result }
{
    with_default(root_of(inference, node))
}

/// The same before any default for what is generalised: what may differ from use to use of a definition is made by nothing.
pub fn general_type_at(inference: &Inference<'_>, node: u32) -> Form
    requires graph { IsGraph inference.now.nodes }
    requires node { node < length inference.now.nodes }
    ensures made { (t : Ty) → Generally inference.now.nodes node t → Is_made (Generally inference.now.nodes) result t }
    ensures within { Within (length inference.now.nodes) node result }
{
    let root = root_of(inference, node);
    if root.level == 0 {
        with_default(root)
    } else {
        root.form
    }
}
