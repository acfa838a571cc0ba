// The levels of types that are made: none lies deeper than the deepest of its parts.
//
// So what is made of types that nothing generalised stands in is fixed outside of all definitions, and is shared by the uses
// of a definition where it would be copied.
ghost use Rattle.std.specs.Prelude.{◌≡◌, ◌<◌, ◌≤◌, ◌+◌, ◌∷◌, [], length, true, OnOk, IfErr, IfSome};
ghost use Rattle.fut_types.specs.Shapes.{IsTable};
ghost use Rattle.fut_types.specs.declared.Kind.TheVariants as kind;
ghost use Rattle.type_graph.specs.declared.Task.TheVariants as task;
ghost use Rattle.type_graph.specs.Graph.{IsGraph, IsMaker, Tables, Told, Solved, Grows, Kept, Tells};
ghost use Rattle.type_graph.specs.Claims.{Sound};
ghost use Rattle.type_graph.specs.Levels.{Over, Lowered};

use crate::{Entry, Form, Node, Task, UnifyErr, find, node_of, solve};
use fut_scalar::List;
use fut_types::{Head, Kind, ShapeTable};
use std::alloc::Global;

fn deeper(one: u32, other: u32) -> u32
    ensures one { one ≤ result }
    ensures other { other ≤ result }
{
    if one < other { other } else { one }
}

// The level of the deepest of the types in a row, if it is less than this one.
fn deepest(nodes: &List<Node>, first: u32, count: u32, level: u32) -> Option<u32>
    requires graph { IsGraph nodes.now }
    requires row { first + count ≤ length nodes.now }
    ensures { IfSome result (λ l. Over nodes.now first count l) }
{
    let mut most = 0;
    let mut at = 0;
    while at < count {
        let root = find(nodes, first + at);
        let one = node_of(nodes, root).level;
        if one >= level {
            return None;
        }
        most = deeper(most, one);
        at += 1;
    }
    if most >= level {
        return None;
    }
    Some(most)
}

// Whether a head is not that of a type parameter.
fn is_maker(head: Head) -> bool
    ensures { result ≡ true → IsMaker head }
{
    match head {
        Head::Rigid(_, _) => false,
        _ => true,
    }
}

// Lowers a node's level.
fn sink(
    alloc: Global,
    table: &ShapeTable,
    nodes: &mut List<Node>,
    entries: &mut List<Entry>,
    number: u32,
    level: u32,
) -> Result<(), UnifyErr>
    requires table { IsTable table.now }
    requires sound { Sound table.now nodes.old entries.old }
    requires number { number < length nodes.old }
    ensures grows { Grows table.now (length nodes.old) entries.old entries.new }
    ensures kept { OnOk result (Kept table.now nodes.old nodes.new entries.old entries.new) }
    ensures ok { OnOk result ((T : Tables) → Told table.now entries.new T → Solved T nodes.old (task.Has number kind.Any level ∷ []) nodes.new) }
    ensures err { IfErr result (Tells ⊥) }
{
    let mut tasks = List::new(alloc);
    match tasks.push(Task::Has(number, Kind::Any, level)) {
        Ok(()) => {}
        Err(_) => return Err(UnifyErr::Memory),
    }
    match solve(table, nodes, entries, &mut tasks) {
        Ok(()) => Ok(()),
        Err(_) => Err(UnifyErr::Memory),
    }
}

/// Lowers the level of a node's type to that of the deepest of its parts, if it is made of no more parts than `most`.
pub fn lower(
    alloc: Global,
    table: &ShapeTable,
    nodes: &mut List<Node>,
    entries: &mut List<Entry>,
    number: u32,
    most: u32,
) -> Result<(), UnifyErr>
    requires table { IsTable table.now }
    requires sound { Sound table.now nodes.old entries.old }
    requires number { number < length nodes.old }
    ensures grows { Grows table.now (length nodes.old) entries.old entries.new }
    ensures kept { OnOk result (Kept table.now nodes.old nodes.new entries.old entries.new) }
    ensures ok { OnOk result ((T : Tables) → Told table.now entries.new T → Lowered T nodes.old nodes.new) }
    ensures err { IfErr result (Tells ⊥) }
{
    let root = find(nodes, number);
    let node = node_of(nodes, root);
    match node.form {
        Form::Made(head, first, count) => {
            if count > most {
                return Ok(());
            }
            if !is_maker(head) {
                return Ok(());
            }
            match deepest(nodes, first, count, node.level) {
                Some(level) => sink(alloc, table, nodes, entries, number, level),
                None => Ok(()),
            }
        }
        _ => Ok(()),
    }
}
