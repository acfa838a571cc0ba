// A named part that is asked of a root.
ghost use Rattle.std.specs.Prelude.{◌≡◌, ◌<◌, ◌≤◌, ◌++◌, ◌∷◌, [], ℕ, length, OnOk, IfErr, IfSome, IfNone};
ghost use mathlib.Core.Logic.{◌⊎◌};
ghost use Rattle.fut_types.specs.Shapes.{IsTable};
ghost use Rattle.fut_types.specs.declared.shapes.ShapeTable.{ShapeTable as TheTable};
ghost use Rattle.type_graph.specs.declared.Form.TheVariants as form;
ghost use Rattle.type_graph.specs.declared.Task.TheVariants as task;
ghost use Rattle.type_graph.specs.Graph.{node_at, entry_at, Tables, Told, Listed, Closed, IsGraph, IsBound, IsRoot, AreEntries, Grows, IsNamed, Opens, Lacks, Does, Refuses, Tells};

use crate::roots::{node_of, put};
use crate::tasks::{entry_of, push};
use crate::{Entry, FAR, Form, Node, Task, UnifyErr};
use fut_scalar::List;
use fut_types::{Kind, ShapeTable, level_of, place_of};

// The child that a chain has under a label.
fn child_in(entries: &List<Entry>, start: u32, count: u32, label: u32) -> Option<u32>
    requires closed { Closed entries.now }
    requires start { start < length entries.now }
    ensures named { IfSome result (λ child. (T : Tables) → Listed entries.now T → IsNamed T start count label child) }
    ensures none { IfNone result ((T : Tables) → Listed entries.now T → Lacks T.entry label start count) }
    ensures entry { IfSome result (λ child. (e : ℕ) × (e < length entries.now) × (child ≡ (entry_at entries.now e).child)) }
{
    let mut at = start;
    let mut rest = count;
    while rest > 0 {
        let entry = entry_of(entries, at);
        if entry.label == label {
            return Some(entry.child);
        }
        at = entry.next;
        rest -= 1;
    }
    None
}

// A root that is free or open gets one part more, in front of the chain that it has.
fn open_root(
    nodes: &mut List<Node>,
    entries: &mut List<Entry>,
    tasks: &mut List<Task>,
    root: u32,
    entry: Entry,
    count: u32,
) -> Result<(), UnifyErr>
    requires graph { IsGraph nodes.old }
    requires within { root < length nodes.old }
    requires form { Opens (node_at nodes.old root).form entry.next count }
    requires lacks { (T : Tables) → Listed entries.old T → Lacks T.entry entry.label entry.next count }
    requires count { count ≤ length entries.old }
    ensures ok { OnOk result ((table : TheTable) (T : Tables) → Told table entries.new T → entry.child < length nodes.old → Does table (length entries.new) T nodes.old tasks.old (task.Part root entry.label entry.child) nodes.new tasks.new) }
    ensures entries { (entries.new ≡ entries.old) ⊎ (entries.new ≡ entries.old ++ entry ∷ []) }
    ensures err { IfErr result (Tells ((T : Tables) → Refuses T nodes.old (task.Part root entry.label entry.child))) }
{
    let node = node_of(nodes, root);
    if level_of(node.kind) > 2 {
        return Err(UnifyErr::BadKind(root, node.kind));
    }
    let number = entries.len();
    if number >= FAR as usize {
        return Err(UnifyErr::Memory);
    }
    entries.push(entry)?;
    put(
        nodes,
        root,
        Node {
            kind: node.kind,
            level: node.level,
            form: Form::Open(number as u32, count + 1),
        },
    );
    push(tasks, Task::Has(entry.child, node.kind, node.level))
}

// Asks of a root that another node is its part with this label.
pub fn meet_part(
    table: &ShapeTable,
    nodes: &mut List<Node>,
    entries: &mut List<Entry>,
    tasks: &mut List<Task>,
    root: u32,
    label: u32,
    child: u32,
) -> Result<(), UnifyErr>
    requires table { IsTable table.now }
    requires graph { IsGraph nodes.old }
    requires bound { IsBound table.now (length entries.old) nodes.old }
    requires entries { AreEntries table.now (length nodes.old) entries.old }
    requires within { root < length nodes.old }
    requires root { IsRoot (node_at nodes.old root).form }
    requires child { child < length nodes.old }
    requires label { label < length table.now.positions }
    ensures ok { OnOk result ((T : Tables) → Told table.now entries.new T → Does table.now (length entries.new) T nodes.old tasks.old (task.Part root label child) nodes.new tasks.new) }
    ensures entries { Grows table.now (length nodes.old) entries.old entries.new }
    ensures err { IfErr result (Tells ((T : Tables) → Told table.now entries.new T → Refuses T nodes.old (task.Part root label child))) }
{
    match node_of(nodes, root).form {
        Form::Free => {
            let entry = Entry {
                label,
                child,
                next: 0,
            };
            open_root(nodes, entries, tasks, root, entry, 0)
        }
        Form::Link(_) => unreachable!(),
        Form::Open(start, count) => {
            if let Some(known) = child_in(entries, start, count, label) {
                return push(tasks, Task::Same(known, child));
            }
            let entry = Entry {
                label,
                child,
                next: start,
            };
            open_root(nodes, entries, tasks, root, entry, count)
        }
        Form::Made(head, first, count) => {
            if let Some(place) = place_of(table, head, label) {
                if place < count {
                    return push(tasks, Task::Same(first + place, child));
                }
            }
            Err(UnifyErr::Clash(root, child))
        }
    }
}
