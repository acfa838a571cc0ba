// The types of a graph's nodes as trees of the pass over sizes, which share their parts: a node's tree is made once, behind those
// of its parts.
ghost use Rattle.std.specs.Prelude.{◌≡◌, ◌+◌, ◌<◌, ◌≤◌, ℕ, length, IfOk, OnOk, Some};
ghost use Rattle.fut_types.specs.Types.{Made, Ty};
ghost use Rattle.fut_typing.specs.Answers.{default_at};
ghost use Rattle.type_graph.specs.Graph.{IsGraph};
ghost use Rattle.type_infer.specs.Reading.{Comes_to};
ghost use Rattle.size_arena.specs.Trees.{type_of, tys_of};
ghost use Rattle.size_program.specs.Program.{sub_of};
ghost use Rattle.sized_programs.specs.Trees.{Are_made, Is_made_of, Is_type, Row_made, tree_at};

use bumpalo::Bump;
use bumpalo::collections::into_bump_slice;
use fut_scalar::{IntType, List, NoMemory, ScalarType};
use fut_types::{Head, Kind};
use size_arena::TypeTree;
use std::alloc::Global;
use type_graph::{Form, Node, node_of};
use unique_programs::is_given;

/// No type is deeper than this: it is gone down by calls, here and in the pass over sizes.
const DEEPEST: u32 = 4096;

/// The types of a program's nodes have no more parts together than this, as they are written out, but for those of applications: more
/// is want of memory. The pass over sizes goes through each by itself, so that pairs of pairs, which are small as long as they are
/// shared, would fill the machine.
const MOST_PARTS: u64 = 67108864;

/// How high a tree is.
fn height_of(tree: TypeTree<'_>) -> u32 {
    match tree {
        TypeTree::Var(_) => 0,
        TypeTree::Made { height, .. } => height,
    }
}

/// The height of the highest.
fn highest(parts: &[TypeTree<'_>]) -> u32 {
    let mut most = 0;
    for part in parts {
        most = height_of(*part).max(most);
    }
    most
}

/// What is made by a head.
#[tactic(auto, using(size_arena::proofs::Forms::type_made))]
fn tree_made<'a>(head: Head, parts: &'a [TypeTree<'a>]) -> TypeTree<'a>
    ensures { type_of result ≡ Made head (tys_of parts.now) }
{
    TypeTree::Made {
        height: highest(parts).saturating_add(1),
        head,
        parts,
    }
}

/// The tree of a type that is left undetermined: i32 where it is one of integers.
fn default_tree<'a>(node: u32, kind: Kind) -> TypeTree<'a>
    ensures { type_of result ≡ default_at node kind }
{
    match kind {
        Kind::Integer => tree_made(Head::Scalar(ScalarType::Int(IntType::I32)), &[]),
        _ => TypeTree::Var(node),
    }
}

/// The tree of a node, if it was made.
#[tactic(auto, unfolding(crate::specs::Trees::tree_at))]
fn tree_at<'a>(made: &List<Option<TypeTree<'a>>>, node: u32) -> Option<TypeTree<'a>>
    requires { node < length made.now }
    ensures { result ≡ tree_at made.now node }
{
    made.as_slice()[node as usize]
}

/// The tree of a node, which was made.
fn made_tree<'a>(made: &List<Option<TypeTree<'a>>>, node: u32) -> Result<TypeTree<'a>, NoMemory>
    requires { node < length made.now }
    ensures { IfOk result (λ tree. tree_at made.now node ≡ Some tree) }
{
    match tree_at(made, node) {
        Some(tree) => Ok(tree),
        None => Err(NoMemory),
    }
}

/// The trees of the nodes in a row, which were made.
fn made_row<'a>(
    bump: &'a Bump,
    made: &List<Option<TypeTree<'a>>>,
    first: u32,
    count: u32,
) -> Result<&'a [TypeTree<'a>], NoMemory>
    requires row { first + count ≤ length made.now }
    ensures trees { IfOk result (λ row. Row_made made.now first row.now) }
    ensures long { IfOk result (λ row. length row.now ≡ count) }
{
    let mut row = Vec::new(bump);
    for i in 0..count {
        let Some(at) = first.checked_add(i) else {
            return Err(NoMemory);
        };
        let tree = made_tree(made, at)?;
        row.push(tree)?;
    }
    Ok(into_bump_slice(row))
}

/// What is made by a head of the trees of the nodes in a row.
fn tree_of_row<'a>(
    bump: &'a Bump,
    made: &List<Option<TypeTree<'a>>>,
    head: Head,
    first: u32,
    count: u32,
) -> Result<TypeTree<'a>, NoMemory>
    requires row { first + count ≤ length made.now }
    ensures { IfOk result (Is_made_of made.now head first count) }
{
    let parts = made_row(bump, made, first, count)?;
    Ok(tree_made(head, parts))
}

/// The tree of a node whose parts have theirs.
fn tree_of_node<'a>(
    bump: &'a Bump,
    nodes: &List<Node>,
    made: &List<Option<TypeTree<'a>>>,
    at: u32,
) -> Result<TypeTree<'a>, NoMemory>
    requires graph { IsGraph nodes.now }
    requires at { at < length nodes.now }
    requires made { Are_made nodes.now made.now }
    ensures { IfOk result (Is_type nodes.now at) }
{
    let node = node_of(nodes, at);
    match node.form {
        Form::Free => Ok(default_tree(at, node.kind)),
        Form::Link(next) => made_tree(made, next),
        Form::Made(head, first, count) => tree_of_row(bump, made, head, first, count),
        Form::Open(_, _) => Ok(TypeTree::Var(at)),
    }
}

/// Makes the tree of a node, whose type may be so deep.
#[cycle(making)]
fn make<'a>(
    bump: &'a Bump,
    nodes: &List<Node>,
    made: &mut List<Option<TypeTree<'a>>>,
    at: u32,
    depth: u32,
) -> Result<(), NoMemory>
    requires graph { IsGraph nodes.now }
    requires at { at < length nodes.now }
    requires made { Are_made nodes.now made.old }
    ensures { OnOk result (Are_made nodes.now made.new) }
{
    if let Some(_) = tree_at(made, at) {
        return Ok(());
    }
    if depth == 0 {
        return Err(NoMemory);
    }
    make_parts(bump, nodes, made, at, depth - 1)?;
    let tree = tree_of_node(bump, nodes, made, at)?;
    made.set(at as usize, Some(tree));
    Ok(())
}

/// Makes the trees of a node's parts.
#[cycle(making)]
fn make_parts<'a>(
    bump: &'a Bump,
    nodes: &List<Node>,
    made: &mut List<Option<TypeTree<'a>>>,
    at: u32,
    depth: u32,
) -> Result<(), NoMemory>
    requires graph { IsGraph nodes.now }
    requires at { at < length nodes.now }
    requires made { Are_made nodes.now made.old }
    ensures { OnOk result (Are_made nodes.now made.new) }
{
    match node_of(nodes, at).form {
        Form::Free | Form::Open(_, _) => Ok(()),
        Form::Link(next) => make(bump, nodes, made, next, depth),
        Form::Made(_, first, count) => make_row(bump, nodes, made, first, count, depth),
    }
}

/// Makes the trees of the nodes in a row.
#[cycle(making)]
fn make_row<'a>(
    bump: &'a Bump,
    nodes: &List<Node>,
    made: &mut List<Option<TypeTree<'a>>>,
    first: u32,
    count: u32,
    depth: u32,
) -> Result<(), NoMemory>
    requires graph { IsGraph nodes.now }
    requires row { first + count ≤ length nodes.now }
    requires made { Are_made nodes.now made.old }
    ensures { OnOk result (Are_made nodes.now made.new) }
{
    for i in 0..count {
        let Some(at) = first.checked_add(i) else {
            return Err(NoMemory);
        };
        make(bump, nodes, made, at, depth)?;
    }
    Ok(())
}

/// No tree was made of any node.
fn none_made<'a>(alloc: Global, nodes: &List<Node>) -> Result<List<Option<TypeTree<'a>>>, NoMemory>
    ensures { IfOk result (Are_made nodes.now) }
{
    let mut made = List::new(alloc);
    for _ in 0..nodes.len() {
        made.push(None)?;
    }
    Ok(made)
}

/// How many parts are left of so many behind those of a tree.
fn left_behind(tree: &TypeTree<'_>, left: u64) -> Option<u64> {
    let mut left = left.checked_sub(1)?;
    match tree {
        TypeTree::Var(_) => Some(left),
        TypeTree::Made { parts, .. } => {
            for part in *parts {
                left = left_behind(part, left)?;
            }
            Some(left)
        }
    }
}

/// Whether the types of the first nodes have no more parts together than they may. One that the next node's gives is counted with
/// that: of an application of many arguments the pass over sizes goes through the type of its function alone.
fn are_within(nodes: &List<Node>, trees: &[TypeTree<'_>], count: u32) -> bool
    requires graph { IsGraph nodes.now }
    requires count { count ≤ length nodes.now }
    requires long { length trees.now ≡ count }
{
    let mut left = MOST_PARTS;
    for at in 0..count {
        if at < count - 1 && is_given(nodes, at) {
            continue;
        }
        match left_behind(&trees[at as usize], left) {
            Some(fewer) => left = fewer,
            None => return false,
        }
    }
    true
}

/// The types of the first nodes of a graph, as trees that share their parts. The cost is linear in the graph, however large the
/// types are when they are written out, but for one look at each part.
pub fn type_trees<'a>(
    alloc: Global,
    bump: &'a Bump,
    nodes: &List<Node>,
    count: u32,
) -> Result<&'a [TypeTree<'a>], NoMemory>
    requires graph { IsGraph nodes.now }
    requires count { count ≤ length nodes.now }
    ensures { IfOk result (λ trees. (n : ℕ) → n < count → (t : Ty) → Comes_to nodes.now n t → sub_of trees.now n ≡ t) }
{
    let mut made = none_made(alloc, nodes)?;
    for at in 0..count {
        make(bump, nodes, &mut made, at, DEEPEST)?;
    }
    let trees = made_row(bump, &made, 0, count)?;
    if !are_within(nodes, trees, count) {
        return Err(NoMemory);
    }
    Ok(trees)
}
