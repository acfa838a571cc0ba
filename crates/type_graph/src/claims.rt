// What a program's nodes are asked for, put into a graph.
//
// The program's nodes stand first, up to a base; a claim may add nodes of its own behind them. Contracts speak of the types
// of the program's nodes alone: which of them can be carried on to all nodes (`specs/Claims.antt`).
ghost use Rattle.std.specs.Prelude.{◌≡◌, ◌<◌, ◌≤◌, ◌++◌, ◌∷◌, [], ℕ, length, OnOk, IfOk, IfErr};
ghost use Rattle.fut_types.specs.Types.{Made};
ghost use Rattle.fut_types.specs.Shapes.{IsTable, IsKnown};
ghost use Rattle.fut_types.specs.declared.Kind.{Kind as TheKind};
ghost use Rattle.fut_types.specs.declared.shapes.ShapeTable.{ShapeTable as TheTable};
ghost use Rattle.type_graph.specs.Graph.{Each, IsTask, Tables, IsMaker, Told, Holds, Solved, Unmet, Grows, Kept, Tells};
ghost use Rattle.type_graph.specs.Claims.{Sound, Extends, Adds, Nowhere, Allowed, Bears, Stands, new_node, parameter_node, links, types_of};

use crate::levels::lower;
use crate::{Entry, FAR, Form, Node, Task, UnifyErr, solve};
use fut_scalar::List;
use fut_types::{Head, Kind, ShapeTable};
use std::alloc::Global;

/// A graph has no more nodes than this: more is want of memory, before the machine is full.
pub const MOST_NODES: usize = 33554432;

// So many parts of a type are looked at for its level where something is asked of it again.
const FEW_PARTS: u32 = 64;

// The node of which a task asks something.
fn asked(task: Task) -> u32
    ensures { (table : TheTable) (n : ℕ) → IsTask table n task → result < n }
{
    match task {
        Task::Same(node, _) => node,
        Task::Has(node, _, _) => node,
        Task::Part(node, _, _) => node,
    }
}

// Brings about one task. A refusal is told of the node of which it asks something, and the level of that node's type is lowered
// to that of its parts, if they are no more than `most`.
fn settle(
    alloc: Global,
    table: &ShapeTable,
    nodes: &mut List<Node>,
    entries: &mut List<Entry>,
    task: Task,
    most: u32,
) -> Result<(), UnifyErr>
    requires table { IsTable table.now }
    requires sound { Sound table.now nodes.old entries.old }
    requires within { IsTask table.now (length nodes.old) task }
    ensures grows { Grows table.now (length nodes.old) entries.old entries.new }
    ensures kept { OnOk result (Kept table.now nodes.old nodes.new entries.old entries.new) }
    ensures ok { OnOk result ((T : Tables) → Told table.now entries.new T → Solved T nodes.old (task ∷ []) nodes.new) }
    ensures err { IfErr result (Tells ((T : Tables) → Told table.now entries.new T → Unmet T nodes.old (task ∷ []))) }
{
    let mut tasks = List::new(alloc);
    match tasks.push(task) {
        Ok(()) => {}
        Err(_) => return Err(UnifyErr::Memory),
    }
    let number = asked(task);
    match solve(table, nodes, entries, &mut tasks) {
        Ok(()) => lower(alloc, table, nodes, entries, number, most),
        Err(error) => Err(error.told_of(number)),
    }
}

/// Adds a node of which nothing is known but its form.
pub fn push_node(nodes: &mut List<Node>, form: Form) -> Result<u32, UnifyErr>
    ensures ok { OnOk result (nodes.new ≡ nodes.old ++ new_node form ∷ []) }
    ensures number { IfOk result (λ n. n ≡ length nodes.old) }
    ensures room { OnOk result (length nodes.old < 4294967294) }
    ensures err { IfErr result (Tells ⊥) }
{
    let at = nodes.len();
    if at >= MOST_NODES {
        return Err(UnifyErr::Memory);
    }
    match nodes.push(Node {
        kind: Kind::Any,
        level: FAR,
        form,
    }) {
        Ok(()) => Ok(at as u32),
        Err(_) => Err(UnifyErr::Memory),
    }
}

// Adds a row of links.
fn push_links(nodes: &mut List<Node>, parts: &[u32]) -> Result<(), UnifyErr>
    requires { length nodes.old < 4294967295 }
    ensures ok { OnOk result (nodes.new ≡ nodes.old ++ links parts.now) }
    ensures room { OnOk result (length nodes.new < 4294967295) }
    ensures err { IfErr result (Tells ⊥) }
{
    let mut at = 0;
    while at < parts.len() {
        match push_node(nodes, Form::Link(parts[at])) {
            Ok(_) => {}
            Err(error) => return Err(error),
        }
        at += 1;
    }
    Ok(())
}

/// Asks one task of the program's nodes.
pub fn assert_task(
    alloc: Global,
    table: &ShapeTable,
    base: u32,
    nodes: &mut List<Node>,
    entries: &mut List<Entry>,
    task: Task,
) -> Result<(), UnifyErr>
    requires table { IsTable table.now }
    requires sound { Sound table.now nodes.old entries.old }
    requires base { base ≤ length nodes.old }
    requires within { IsTask table.now base task }
    ensures extends { OnOk result (Extends table.now nodes.old entries.old nodes.new entries.new) }
    ensures ok { OnOk result ((T : Tables) → Told table.now entries.new T → Adds T base (λ K a. Holds T K a task) (λ home. Allowed home task) nodes.old nodes.new) }
    ensures err { IfErr result (Tells ((T : Tables) → Told table.now entries.new T → Nowhere T base (λ K a. Holds T K a task) nodes.old)) }
    ensures before { IfErr result (Tells ((T : Tables) → Told table.now entries.new T → Told table.now entries.old T)) }
{
    settle(alloc, table, nodes, entries, task, FEW_PARTS)
}

/// Asks that a node's type is made by a head of the types of others.
pub fn assert_made(
    alloc: Global,
    table: &ShapeTable,
    base: u32,
    nodes: &mut List<Node>,
    entries: &mut List<Entry>,
    number: u32,
    head: Head,
    parts: &[u32],
) -> Result<(), UnifyErr>
    requires table { IsTable table.now }
    requires sound { Sound table.now nodes.old entries.old }
    requires base { base ≤ length nodes.old }
    requires number { number < base }
    requires head { IsKnown table.now head }
    requires maker { IsMaker head }
    requires parts { Each (λ part. part < base) parts.now }
    ensures extends { OnOk result (Extends table.now nodes.old entries.old nodes.new entries.new) }
    ensures ok { OnOk result ((T : Tables) → Told table.now entries.new T → Adds T base (λ K a. a number ≡ Made head (types_of a parts.now)) (λ home. Unit {0}) nodes.old nodes.new) }
    ensures err { IfErr result (Tells ((T : Tables) → Told table.now entries.new T → Nowhere T base (λ K a. a number ≡ Made head (types_of a parts.now)) nodes.old)) }
    ensures before { IfErr result (Tells ((T : Tables) → Told table.now entries.new T → Told table.now entries.old T)) }
{
    let first = nodes.len();
    if first >= 4294967294 {
        return Err(UnifyErr::Memory);
    }
    match push_links(nodes, parts) {
        Ok(()) => {}
        Err(error) => return Err(error),
    }
    let form = Form::Made(head, first as u32, parts.len() as u32);
    match push_node(nodes, form) {
        Ok(made) => {
            let task = Task::Same(number, made);
            settle(alloc, table, nodes, entries, task, parts.len() as u32)
        }
        Err(error) => Err(error),
    }
}

/// Gives a type parameter its node, which stands for it wherever it is written. Its level tells whether the type has come to
/// be fixed by what stands outside the definition.
pub fn push_parameter(
    table: &ShapeTable,
    base: u32,
    nodes: &mut List<Node>,
    entries: &List<Entry>,
    parameter: u32,
    kind: Kind,
    depth: u32,
) -> Result<u32, UnifyErr>
    requires sound { Sound table.now nodes.old entries.now }
    requires base { base ≤ length nodes.old }
    ensures ok { OnOk result (nodes.new ≡ nodes.old ++ parameter_node parameter kind depth ∷ []) }
    ensures number { IfOk result (λ n. n ≡ length nodes.old) }
    ensures extends { OnOk result (Extends table.now nodes.old entries.now nodes.new entries.now) }
    ensures bears { OnOk result ((T : Tables) → Told table.now entries.now T → T.seat parameter ≡ length nodes.old → Bears T base parameter kind depth nodes.old nodes.new) }
    ensures err { IfErr result (Tells ⊥) }
{
    let at = nodes.len();
    if at >= MOST_NODES {
        return Err(UnifyErr::Memory);
    }
    let node = Node {
        kind: Kind::Any,
        level: depth,
        form: Form::Made(Head::Rigid(parameter, kind), 0, 0),
    };
    match nodes.push(node) {
        Ok(()) => Ok(at as u32),
        Err(_) => Err(UnifyErr::Memory),
    }
}

/// Asks that a node's type is that of a type parameter, where `at` is a node that stands for it.
pub fn assert_parameter(
    alloc: Global,
    table: &ShapeTable,
    base: u32,
    nodes: &mut List<Node>,
    entries: &mut List<Entry>,
    number: u32,
    at: u32,
) -> Result<(), UnifyErr>
    requires table { IsTable table.now }
    requires sound { Sound table.now nodes.old entries.old }
    requires base { base ≤ length nodes.old }
    requires number { number < base }
    requires at { at < length nodes.old }
    ensures extends { OnOk result (Extends table.now nodes.old entries.old nodes.new entries.new) }
    ensures ok { OnOk result ((T : Tables) → Told table.now entries.new T → (n : ℕ) (k : TheKind) → Stands T nodes.old at n k → Adds T base (λ K a. a number ≡ T.rigid n k) (λ home. Unit {0}) nodes.old nodes.new) }
    ensures err { IfErr result (Tells ((T : Tables) → Told table.now entries.new T → (n : ℕ) (k : TheKind) → Stands T nodes.old at n k → Nowhere T base (λ K a. a number ≡ T.rigid n k) nodes.old)) }
    ensures before { IfErr result (Tells ((T : Tables) → Told table.now entries.new T → Told table.now entries.old T)) }
{
    settle(alloc, table, nodes, entries, Task::Same(number, at), 0)
}
