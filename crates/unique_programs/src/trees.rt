// The types of a graph's nodes as trees, which share their parts: a node's tree is made once, behind those of its parts.
ghost use Rattle.std.specs.Prelude.{◌≡◌, ◌+◌, ◌<◌, ◌≤◌, ◌^◌, ℕ, [], Some, length, IfOk, OnOk};
ghost use Rattle.fut_typing.specs.Answers.{default_at};
ghost use Rattle.type_graph.specs.Graph.{IsGraph};
ghost use Rattle.alias_program.specs.Program.{sub_of};
ghost use Rattle.alias_values.specs.Trees.{type_of};
ghost use Rattle.fut_types.specs.Types.{Ty};
ghost use Rattle.type_infer.specs.Reading.{Comes_to};
ghost use Rattle.unique_programs.specs.Layers.{Are_made, Inside, Is_made_of, Is_type, Row_made, sized_at, tree_at};

use crate::given::is_given;
use crate::sizes::{ONE, Size};
use alias_values::TypeTree;
use bumpalo::Bump;
use bumpalo::collections::into_bump_slice;
use fut_scalar::{IntType, List, NoMemory, ScalarType};
use fut_types::{Head, Kind};
use std::alloc::Global;
use type_graph::{Form, Node, node_of};

/// The tree of a type that is left undetermined: i32 where it is one of integers.
fn default_tree<'a>(node: u32, kind: Kind) -> TypeTree<'a>
    ensures { type_of result ≡ default_at node kind }
{
    match kind {
        Kind::Integer => TypeTree::Made(Head::Scalar(ScalarType::Int(IntType::I32)), &[]),
        _ => TypeTree::Var(node),
    }
}

/// A tree, and how large it is when it is written out.
#[derive(Clone, Copy)]
pub struct SizedTree<'a> {
    pub tree: TypeTree<'a>,
    pub size: Size,
}

/// The tree of a node, if it was made.
#[tactic(auto, unfolding(crate::specs::Layers::sized_at))]
fn sized_at<'a>(made: &List<Option<SizedTree<'a>>>, node: u32) -> Option<SizedTree<'a>>
    requires { node < length made.now }
    ensures { result ≡ sized_at made.now node }
{
    made.as_slice()[node as usize]
}

/// The tree of a node, which was made.
#[tactic(auto, using(crate::proofs::Rows::made_at))]
fn tree_of_made<'a>(
    made: &List<Option<SizedTree<'a>>>,
    node: u32,
) -> Result<SizedTree<'a>, NoMemory>
    requires { node < length made.now }
    ensures { IfOk result (λ sized. tree_at made.now node ≡ Some sized.tree) }
{
    match sized_at(made, node) {
        Some(sized) => Ok(sized),
        None => Err(NoMemory),
    }
}

/// The trees of the nodes in a row, which were made.
fn row_of_made<'a>(
    bump: &'a Bump,
    made: &List<Option<SizedTree<'a>>>,
    first: u32,
    count: u32,
) -> Result<&'a [TypeTree<'a>], NoMemory>
    requires row { first + count ≤ length made.now }
    requires short { length made.now < 2 ^ 32 }
    ensures trees { IfOk result (λ row. Row_made made.now first row.now) }
    ensures long { IfOk result (λ row. length row.now ≡ count) }
{
    let mut row = Vec::new(bump);
    for i in 0..count {
        let sized = tree_of_made(made, first + i)?;
        row.push(sized.tree)?;
    }
    Ok(into_bump_slice(row))
}

/// The size of what has the trees of the nodes in a row for parts, as far as they were made.
fn size_of_row(made: &List<Option<SizedTree<'_>>>, first: u32, count: u32) -> Size
    requires row { first + count ≤ length made.now }
    requires short { length made.now < 2 ^ 32 }
    ensures { 1 ≤ result.parts }
{
    let mut size = ONE;
    for i in 0..count {
        if let Some(sized) = sized_at(made, first + i) {
            size = size.with_part(sized.size);
        }
    }
    size
}

/// What is made by a head of the trees of the nodes in a row.
fn tree_of_row<'a>(
    bump: &'a Bump,
    made: &List<Option<SizedTree<'a>>>,
    head: Head,
    first: u32,
    count: u32,
) -> Result<SizedTree<'a>, NoMemory>
    requires row { first + count ≤ length made.now }
    requires short { length made.now < 2 ^ 32 }
    ensures { IfOk result (λ sized. Is_made_of made.now head first count sized.tree) }
{
    let size = match head {
        Head::Array => ONE,
        _ => size_of_row(made, first, count),
    };
    let parts = row_of_made(bump, made, first, count)?;
    Ok(SizedTree {
        tree: TypeTree::Made(head, parts),
        size,
    })
}

/// The tree of a node whose parts have theirs.
fn tree_of_node<'a>(
    bump: &'a Bump,
    nodes: &List<Node>,
    made: &List<Option<SizedTree<'a>>>,
    at: u32,
) -> Result<SizedTree<'a>, NoMemory>
    requires graph { IsGraph nodes.now }
    requires at { at < length nodes.now }
    requires made { Are_made nodes.now made.now }
    ensures { IfOk result (λ sized. Is_type nodes.now at sized.tree) }
{
    let node = node_of(nodes, at);
    match node.form {
        Form::Free => Ok(SizedTree {
            tree: default_tree(at, node.kind),
            size: ONE,
        }),
        Form::Link(next) => tree_of_made(made, next),
        Form::Made(head, first, count) => tree_of_row(bump, made, head, first, count),
        Form::Open(_, _) => Ok(SizedTree {
            tree: TypeTree::Var(at),
            size: ONE,
        }),
    }
}

/// Lets a node wait for its tree, if it has none.
fn wait_for(
    made: &List<Option<SizedTree<'_>>>,
    node: u32,
    waiting: &mut List<u32>,
) -> Result<(), NoMemory>
    requires node { node < length made.now }
    requires inside { Inside made.now waiting.old }
    ensures { OnOk result (Inside made.now waiting.new) }
{
    match sized_at(made, node) {
        Some(_) => Ok(()),
        None => waiting.push(node),
    }
}

/// Lets those of the nodes in a row wait that have no trees.
fn wait_for_row(
    made: &List<Option<SizedTree<'_>>>,
    first: u32,
    count: u32,
    waiting: &mut List<u32>,
) -> Result<(), NoMemory>
    requires row { first + count ≤ length made.now }
    requires short { length made.now < 2 ^ 32 }
    requires inside { Inside made.now waiting.old }
    ensures { OnOk result (Inside made.now waiting.new) }
{
    for i in 0..count {
        wait_for(made, first + i, waiting)?;
    }
    Ok(())
}

/// Lets those of a node's parts wait that have no trees.
fn wait_for_parts(
    nodes: &List<Node>,
    made: &List<Option<SizedTree<'_>>>,
    at: u32,
    waiting: &mut List<u32>,
) -> Result<(), NoMemory>
    requires graph { IsGraph nodes.now }
    requires at { at < length nodes.now }
    requires long { length made.now ≡ length nodes.now }
    requires inside { Inside made.now waiting.old }
    ensures { OnOk result (Inside made.now waiting.new) }
{
    match node_of(nodes, at).form {
        Form::Free => Ok(()),
        Form::Link(next) => wait_for(made, next, waiting),
        Form::Made(_, first, count) => wait_for_row(made, first, count, waiting),
        Form::Open(_, _) => Ok(()),
    }
}

/// Makes the tree of a node, or lets its parts be made before it.
fn step<'a>(
    bump: &'a Bump,
    nodes: &List<Node>,
    made: &mut List<Option<SizedTree<'a>>>,
    waiting: &mut List<u32>,
    at: u32,
) -> Result<(), NoMemory>
    requires graph { IsGraph nodes.now }
    requires at { at < length nodes.now }
    requires made { Are_made nodes.now made.old }
    requires inside { Inside made.old waiting.old }
    ensures made { OnOk result (Are_made nodes.now made.new) }
    ensures inside { OnOk result (Inside made.new waiting.new) }
{
    if let Some(_) = sized_at(made, at) {
        return Ok(());
    }
    waiting.push(at)?;
    let before = waiting.len();
    wait_for_parts(nodes, made, at, waiting)?;
    if waiting.len() > before {
        return Ok(());
    }
    let sized = tree_of_node(bump, nodes, made, at)?;
    made.set(at as usize, Some(sized));
    let _ = waiting.pop();
    Ok(())
}

/// Makes the trees of all that waits. Each node waits for its parts once.
fn make_waiting<'a>(
    bump: &'a Bump,
    nodes: &List<Node>,
    made: &mut List<Option<SizedTree<'a>>>,
    waiting: &mut List<u32>,
) -> Result<(), NoMemory>
    requires graph { IsGraph nodes.now }
    requires made { Are_made nodes.now made.old }
    requires inside { Inside made.old waiting.old }
    ensures made { OnOk result (Are_made nodes.now made.new) }
    ensures none { OnOk result (waiting.new ≡ []) }
{
    for _ in 0..usize::MAX {
        match waiting.pop() {
            Some(at) => step(bump, nodes, made, waiting, at)?,
            None => return Ok(()),
        }
    }
    Err(NoMemory)
}

/// No tree was made of any node.
fn none_made<'a>(alloc: Global, nodes: &List<Node>) -> Result<List<Option<SizedTree<'a>>>, NoMemory>
    ensures { IfOk result (Are_made nodes.now) }
{
    let mut made = List::new(alloc);
    for _ in 0..nodes.len() {
        made.push(None)?;
    }
    Ok(made)
}

/// Whether the types of the first nodes are within the limits together. One that the next node's gives is counted with that.
fn are_within(nodes: &List<Node>, made: &List<Option<SizedTree<'_>>>, count: u32) -> bool
    requires graph { IsGraph nodes.now }
    requires long { length made.now ≡ length nodes.now }
    requires count { count ≤ length nodes.now }
{
    let mut all = ONE;
    for at in 0..count {
        if at < count - 1 && is_given(nodes, at) {
            continue;
        }
        if let Some(sized) = sized_at(made, at) {
            all = all.with_part(sized.size);
        }
    }
    all.is_within()
}

/// The types of the first nodes of a graph, as trees that share their parts. The cost is linear in the graph, however large the
/// types are when they are written out, and no recursion is as deep as they are. Types that pass the limits of `sizes` are want
/// of memory.
pub fn type_trees<'a>(
    alloc: Global,
    bump: &'a Bump,
    nodes: &List<Node>,
    count: u32,
) -> Result<&'a [TypeTree<'a>], NoMemory>
    requires graph { IsGraph nodes.now }
    requires count { count ≤ length nodes.now }
    ensures { IfOk result (λ trees. (n : ℕ) → n < count → (t : Ty) → Comes_to nodes.now n t → sub_of trees.now n ≡ t) }
{
    let mut made = none_made(alloc, nodes)?;
    let mut waiting = List::new(alloc);
    for at in 0..count {
        wait_for(&made, at, &mut waiting)?;
        make_waiting(bump, nodes, &mut made, &mut waiting)?;
    }
    if !are_within(nodes, &made, count) {
        return Err(NoMemory);
    }
    row_of_made(bump, &made, 0, count)
}
