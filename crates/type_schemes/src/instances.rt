// The uses of definitions.
//
// A use of a definition makes a free node for each part of the copy of its type, and asks of them what the parts say. It
// costs the size of the copy.
ghost use Rattle.std.specs.Prelude.{◌≡◌, ◌<◌, ◌≤◌, ◌+◌, ◌-◌, ◌^◌, ◌++◌, ◌∷◌, [], ℕ, length, OnOk, IfErr};
ghost use Rattle.fut_types.specs.Shapes.{IsTable};
ghost use Rattle.fut_types.specs.declared.shapes.ShapeTable.{ShapeTable as TheTable};
ghost use Rattle.type_graph.specs.Graph.{AreEntries, Each, Grows, IsBound, IsGraph, IsTask, Kept, Solved, Tables, Tells, Told, Unmet};
ghost use Rattle.type_graph.specs.Claims.{Sound, Extends, Inside, Adds, Nowhere};
ghost use Rattle.type_schemes.specs.Schemes.{PartWithin, PartKnown, Region, Known};
ghost use Rattle.type_schemes.specs.Instances.{IsUse, IsLabelled, asked, Pushes, Use, Uses, Instanced, Frees};

use crate::{Part, PartForm, part_of};
use fut_scalar::List;
use fut_types::ShapeTable;
use std::alloc::Global;
use type_graph::{Entry, FAR, Form, Node, Task, UnifyErr, push_node, solve as bring_about};

fn push_task(tasks: &mut List<Task>, task: Task) -> Result<(), UnifyErr>
    ensures ok { OnOk result (tasks.new ≡ tasks.old ++ task ∷ []) }
    ensures err { IfErr result (Tells ⊥) }
{
    match tasks.push(task) {
        Ok(()) => Ok(()),
        Err(_) => Err(UnifyErr::Memory),
    }
}

// Adds free nodes.
fn push_free(nodes: &mut List<Node>, count: u32) -> Result<(), UnifyErr>
    requires graph { IsGraph nodes.old }
    ensures graph { OnOk result (IsGraph nodes.new) }
    ensures long { OnOk result (length nodes.new ≡ length nodes.old + count) }
    ensures bound { OnOk result ((table : TheTable) (m : ℕ) → IsBound table m nodes.old → IsBound table m nodes.new) }
    ensures ok { OnOk result ((T : Tables) → Inside T nodes.old → Frees T nodes.old nodes.new) }
    ensures err { IfErr result (Tells ⊥) }
{
    let mut at = 0;
    while at < count {
        match push_node(nodes, Form::Free) {
            Ok(_) => {}
            Err(error) => return Err(error),
        }
        at += 1;
    }
    Ok(())
}

// Asks that the nodes of a row are parts of a node, under the labels of the parts that they stand for.
fn ask_parts(
    tasks: &mut List<Task>,
    store: &List<Part>,
    number: u32,
    row: u32,
    child: u32,
    count: u32,
) -> Result<(), UnifyErr>
    requires row { row + count ≤ length store.now }
    requires short { length store.now < 4294967295 }
    requires child { child + count < 2 ^ 32 }
    ensures ok { OnOk result (tasks.new ≡ tasks.old ++ asked store.now number row child count) }
    ensures err { IfErr result (Tells ⊥) }
{
    let mut at = 0;
    while at < count {
        let label = part_of(store, row + at).label;
        match push_task(tasks, Task::Part(number, label, child + at)) {
            Ok(()) => {}
            Err(error) => return Err(error),
        }
        at += 1;
    }
    Ok(())
}

// Asks of a node what a part says.
fn use_part(
    nodes: &mut List<Node>,
    tasks: &mut List<Task>,
    store: &List<Part>,
    part: Part,
    first: u32,
    count: u32,
    start: u32,
    at: u32,
) -> Result<(), UnifyErr>
    requires graph { IsGraph nodes.old }
    requires room { start + count ≤ length nodes.old }
    requires at { at < count }
    requires within { PartWithin start first (first + count) (first + at) part.form }
    requires store { first + count ≤ length store.now }
    requires short { length store.now < 4294967295 }
    requires tasks { Each (IsUse (length nodes.old)) tasks.old }
    ensures graph { OnOk result (IsGraph nodes.new) }
    ensures longer { OnOk result (length nodes.old ≤ length nodes.new) }
    ensures tasks { OnOk result (Each (IsUse (length nodes.new)) tasks.new) }
    ensures bound { OnOk result ((table : TheTable) (m : ℕ) → PartKnown table store.now part.form → IsBound table m nodes.old → IsBound table m nodes.new) }
    ensures labels { OnOk result ((table : TheTable) → PartKnown table store.now part.form → Each (IsLabelled table) tasks.old → Each (IsLabelled table) tasks.new) }
    ensures ok { OnOk result ((T : Tables) → Inside T nodes.old → Pushes T nodes.old tasks.old (Use T.shapes store.now first start at part) nodes.new tasks.new) }
    ensures err { IfErr result (Tells ⊥) }
{
    let number = start + at;
    match push_task(tasks, Task::Has(number, part.kind, FAR)) {
        Ok(()) => {}
        Err(error) => return Err(error),
    }
    match part.form {
        PartForm::Free => Ok(()),
        PartForm::Shared(node) => push_task(tasks, Task::Same(number, node)),
        PartForm::Again(place) => push_task(tasks, Task::Same(number, start + (place - first))),
        PartForm::Made(head, row, parts) => {
            match push_node(nodes, Form::Made(head, start + (row - first), parts)) {
                Ok(made) => push_task(tasks, Task::Same(number, made)),
                Err(error) => Err(error),
            }
        }
        PartForm::Open(row, parts) => {
            ask_parts(tasks, store, number, row, start + (row - first), parts)
        }
    }
}

// Asks of nodes what the parts say.
fn use_parts(
    nodes: &mut List<Node>,
    tasks: &mut List<Task>,
    store: &List<Part>,
    first: u32,
    count: u32,
    start: u32,
) -> Result<(), UnifyErr>
    requires graph { IsGraph nodes.old }
    requires room { start + count ≤ length nodes.old }
    requires region { Region start store.now first count }
    requires tasks { Each (IsUse (length nodes.old)) tasks.old }
    ensures graph { OnOk result (IsGraph nodes.new) }
    ensures longer { OnOk result (length nodes.old ≤ length nodes.new) }
    ensures tasks { OnOk result (Each (IsUse (length nodes.new)) tasks.new) }
    ensures bound { OnOk result ((table : TheTable) (m : ℕ) → Known table store.now first count → IsBound table m nodes.old → IsBound table m nodes.new) }
    ensures labels { OnOk result ((table : TheTable) → Known table store.now first count → Each (IsLabelled table) tasks.old → Each (IsLabelled table) tasks.new) }
    ensures ok { OnOk result ((T : Tables) → Inside T nodes.old → Pushes T nodes.old tasks.old (Uses T.shapes store.now first start count) nodes.new tasks.new) }
    ensures err { IfErr result (Tells ⊥) }
{
    let mut at = 0;
    while at < count {
        let part = part_of(store, first + at);
        match use_part(nodes, tasks, store, part, first, count, start, at) {
            Ok(()) => {}
            Err(error) => return Err(error),
        }
        at += 1;
    }
    Ok(())
}

// Brings about all tasks. A refusal is told of this number.
fn solve(
    table: &ShapeTable,
    nodes: &mut List<Node>,
    entries: &mut List<Entry>,
    tasks: &mut List<Task>,
    number: u32,
) -> Result<(), UnifyErr>
    requires table { IsTable table.now }
    requires graph { IsGraph nodes.old }
    requires bound { IsBound table.now (length entries.old) nodes.old }
    requires entries { AreEntries table.now (length nodes.old) entries.old }
    requires within { Each (IsTask table.now (length nodes.old)) tasks.old }
    ensures grows { Grows table.now (length nodes.old) entries.old entries.new }
    ensures kept { OnOk result (Kept table.now nodes.old nodes.new entries.old entries.new) }
    ensures solved { OnOk result ((T : Tables) → Told table.now entries.new T → Solved T nodes.old tasks.old nodes.new) }
    ensures err { IfErr result (Tells ((T : Tables) → Told table.now entries.new T → Unmet T nodes.old tasks.old)) }
{
    match bring_about(table, nodes, entries, tasks) {
        Ok(()) => Ok(()),
        Err(error) => Err(error.told_of(number)),
    }
}

/// Asks that a node's type is one of a definition.
pub fn instance(
    alloc: Global,
    table: &ShapeTable,
    base: u32,
    nodes: &mut List<Node>,
    entries: &mut List<Entry>,
    store: &List<Part>,
    first: u32,
    count: u32,
    number: u32,
) -> Result<(), UnifyErr>
    requires table { IsTable table.now }
    requires sound { Sound table.now nodes.old entries.old }
    requires base { base ≤ length nodes.old }
    requires number { number < base }
    requires region { Region (length nodes.old) store.now first count }
    requires known { Known table.now store.now first count }
    ensures extends { OnOk result (Extends table.now nodes.old entries.old nodes.new entries.new) }
    ensures ok { OnOk result ((T : Tables) → Told table.now entries.new T → Adds T base (Instanced T base nodes.old store.now first count number) (λ home. Unit {0}) nodes.old nodes.new) }
    ensures err { IfErr result (Tells ((T : Tables) → Told table.now entries.new T → Nowhere T base (Instanced T base nodes.old store.now first count number) nodes.old)) }
    ensures before { IfErr result (Tells ((T : Tables) → Told table.now entries.new T → Told table.now entries.old T)) }
{
    if nodes.len() >= 4294967295 {
        return Err(UnifyErr::Memory);
    }
    let start = nodes.len() as u32;
    match push_free(nodes, count) {
        Ok(()) => {}
        Err(_) => return Err(UnifyErr::Memory),
    }
    let mut tasks = List::new(alloc);
    match use_parts(nodes, &mut tasks, store, first, count, start) {
        Ok(()) => {}
        Err(_) => return Err(UnifyErr::Memory),
    }
    match push_task(&mut tasks, Task::Same(number, start)) {
        Ok(()) => solve(table, nodes, entries, &mut tasks, number),
        Err(_) => Err(UnifyErr::Memory),
    }
}
