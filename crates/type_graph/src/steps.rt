// What one task turns into.
ghost use Rattle.std.specs.Prelude.{◌≡◌, ◌<◌, ◌≤◌, ◌+◌, ◌-◌, ◌++◌, ◌≢◌, ℕ, length, min, true, false, OnOk, IfErr};
ghost use Rattle.fut_types.specs.Types.{level};
ghost use Rattle.fut_types.specs.Shapes.{IsTable};
ghost use Rattle.fut_types.specs.declared.shapes.ShapeTable.{ShapeTable as TheTable};
ghost use Rattle.type_graph.specs.declared.Form.TheVariants as form;
ghost use Rattle.type_graph.specs.declared.Task.TheVariants as task;
ghost use Rattle.type_graph.specs.Graph.{node_at, Tables, Told, Closed, IsGraph, IsBound, IsRoot, IsTask, AreEntries, Grows, Starts, all_have, parts_of, Listed, Does, Refuses, Tells};
ghost use Rattle.type_graph.specs.State.{form_cap};
ghost use Rattle.type_graph.specs.declared.UnifyErr.TheVariants as err;

use crate::parts::meet_part;
use crate::roots::{find_short, link, node_of, put};
use crate::tasks::{push, push_children, push_pairs, push_parts, push_row};
use crate::{Entry, Form, Node, Task, UnifyErr};
use fut_scalar::List;
use fut_types::{Head, Kind, ShapeTable, cap_of, higher, is_same, level_of};

// What a type is made of: a head of a row of nodes.
#[derive(Clone, Copy)]
struct Row {
    head: Head,
    first: u32,
    count: u32,
}

fn lower(left: u32, right: u32) -> u32
    ensures { result ≡ min left right }
{
    if left < right { left } else { right }
}

// Whether a node has this kind and level noted already.
fn is_noted(node: Node, kind: Kind, depth: u32) -> bool
    ensures yes { result ≡ true → (level kind ≤ level node.kind) × (node.level ≤ depth) }
    ensures no { result ≡ false → 0 < (level kind - level node.kind) + (node.level - depth) }
{
    level_of(kind) <= level_of(node.kind) && node.level <= depth
}

// The highest kind of a type of this form.
fn highest(form: Form) -> u8
    ensures { result ≡ form_cap form }
{
    match form {
        Form::Free | Form::Link(_) => 4,
        Form::Made(head, _, _) => cap_of(head),
        Form::Open(_, _) => 2,
    }
}

// Asks a kind and a level of the parts of a type of this form.
fn push_down(
    entries: &List<Entry>,
    tasks: &mut List<Task>,
    form: Form,
    kind: Kind,
    depth: u32,
) -> Result<(), UnifyErr>
    requires closed { Closed entries.now }
    requires starts { Starts (length entries.now) form }
    ensures ok { OnOk result ((T : Tables) → Listed entries.now T → tasks.new ≡ tasks.old ++ all_have (parts_of T form) kind depth) }
    ensures err { IfErr result (λ e. e ≡ err.Memory) }
{
    match form {
        Form::Free | Form::Link(_) => Ok(()),
        Form::Made(_, first, count) => {
            push_row(tasks, first, count, kind, depth)?;
            Ok(())
        }
        Form::Open(start, count) => {
            push_children(entries, tasks, start, count, kind, depth)?;
            Ok(())
        }
    }
}

// Asks a kind and a level of a root, and of its parts.
fn impose(
    nodes: &mut List<Node>,
    entries: &List<Entry>,
    tasks: &mut List<Task>,
    root: u32,
    kind: Kind,
    depth: u32,
) -> Result<(), UnifyErr>
    requires graph { IsGraph nodes.old }
    requires closed { Closed entries.now }
    requires within { root < length nodes.old }
    requires root { IsRoot (node_at nodes.old root).form }
    requires starts { Starts (length entries.now) (node_at nodes.old root).form }
    ensures ok { OnOk result ((table : TheTable) (T : Tables) → Told table entries.now T → AreEntries table (length nodes.old) entries.now → Does table (length entries.now) T nodes.old tasks.old (task.Has root kind depth) nodes.new tasks.new) }
    ensures err { IfErr result (Tells ((T : Tables) → Refuses T nodes.old (task.Has root kind depth))) }
{
    let node = node_of(nodes, root);
    if is_noted(node, kind, depth) {
        return Ok(());
    }
    let kept = higher(kind, node.kind);
    let low = lower(depth, node.level);
    if highest(node.form) < level_of(kept) {
        return Err(UnifyErr::BadKind(root, kind));
    }
    put(
        nodes,
        root,
        Node {
            kind: kept,
            level: low,
            form: node.form,
        },
    );
    push_down(entries, tasks, node.form, kept, low)
}

// Makes two roots equal, where nothing is known of the loser.
fn join_free(
    nodes: &mut List<Node>,
    tasks: &mut List<Task>,
    winner: u32,
    loser: u32,
) -> Result<(), UnifyErr>
    requires graph { IsGraph nodes.old }
    requires winner { winner < length nodes.old }
    requires winner_root { IsRoot (node_at nodes.old winner).form }
    requires loser { loser < length nodes.old }
    requires free { (node_at nodes.old loser).form ≡ form.Free }
    requires differ { winner ≢ loser }
    ensures ok { OnOk result ((table : TheTable) (m : ℕ) (T : Tables) → Does table m T nodes.old tasks.old (task.Same winner loser) nodes.new tasks.new) }
    ensures err { IfErr result (λ e. e ≡ err.Memory) }
{
    let lost = node_of(nodes, loser);
    link(nodes, winner, loser);
    push(tasks, Task::Has(winner, lost.kind, lost.level))
}

// Makes two roots equal, where the loser is open: its parts are asked of the winner.
fn join_open(
    nodes: &mut List<Node>,
    entries: &List<Entry>,
    tasks: &mut List<Task>,
    winner: u32,
    loser: u32,
    start: u32,
    count: u32,
) -> Result<(), UnifyErr>
    requires graph { IsGraph nodes.old }
    requires closed { Closed entries.now }
    requires winner { winner < length nodes.old }
    requires winner_root { IsRoot (node_at nodes.old winner).form }
    requires loser { loser < length nodes.old }
    requires chain { (node_at nodes.old loser).form ≡ form.Open start count }
    requires start { start < length entries.now }
    requires differ { winner ≢ loser }
    ensures ok { OnOk result ((table : TheTable) (T : Tables) → Told table entries.now T → AreEntries table (length nodes.old) entries.now → Does table (length entries.now) T nodes.old tasks.old (task.Same winner loser) nodes.new tasks.new) }
    ensures err { IfErr result (λ e. e ≡ err.Memory) }
{
    let lost = node_of(nodes, loser);
    link(nodes, winner, loser);
    push(tasks, Task::Has(winner, lost.kind, lost.level))?;
    push_parts(entries, tasks, winner, start, count)?;
    Ok(())
}

// Makes two roots equal, where both are made.
fn join_made(
    nodes: &mut List<Node>,
    tasks: &mut List<Task>,
    left: u32,
    right: u32,
    one: Row,
    other: Row,
) -> Result<(), UnifyErr>
    requires graph { IsGraph nodes.old }
    requires left { left < length nodes.old }
    requires left_made { (node_at nodes.old left).form ≡ form.Made one.head one.first one.count }
    requires right { right < length nodes.old }
    requires right_made { (node_at nodes.old right).form ≡ form.Made other.head other.first other.count }
    requires differ { left ≢ right }
    ensures ok { OnOk result ((table : TheTable) (m : ℕ) (T : Tables) → Does table m T nodes.old tasks.old (task.Same left right) nodes.new tasks.new) }
    ensures err { IfErr result (Tells ((T : Tables) → Refuses T nodes.old (task.Same left right))) }
{
    if one.count != other.count {
        return Err(UnifyErr::Clash(left, right));
    }
    if !is_same(one.head, other.head) {
        return Err(UnifyErr::Clash(left, right));
    }
    let lost = node_of(nodes, right);
    link(nodes, left, right);
    push(tasks, Task::Has(left, lost.kind, lost.level))?;
    push_pairs(tasks, one.first, other.first, one.count)?;
    Ok(())
}

// Makes two different roots equal.
fn unite(
    nodes: &mut List<Node>,
    entries: &List<Entry>,
    tasks: &mut List<Task>,
    left: u32,
    right: u32,
) -> Result<(), UnifyErr>
    requires graph { IsGraph nodes.old }
    requires closed { Closed entries.now }
    requires left { left < length nodes.old }
    requires left_root { IsRoot (node_at nodes.old left).form }
    requires left_starts { Starts (length entries.now) (node_at nodes.old left).form }
    requires right { right < length nodes.old }
    requires right_root { IsRoot (node_at nodes.old right).form }
    requires right_starts { Starts (length entries.now) (node_at nodes.old right).form }
    requires differ { left ≢ right }
    ensures ok { OnOk result ((table : TheTable) (T : Tables) → Told table entries.now T → AreEntries table (length nodes.old) entries.now → Does table (length entries.now) T nodes.old tasks.old (task.Same left right) nodes.new tasks.new) }
    ensures err { IfErr result (Tells ((T : Tables) → Refuses T nodes.old (task.Same left right))) }
{
    let one = node_of(nodes, left).form;
    match node_of(nodes, right).form {
        Form::Free => join_free(nodes, tasks, left, right),
        Form::Link(_) => unreachable!(),
        Form::Open(start, count) => match one {
            Form::Free => join_free(nodes, tasks, right, left),
            Form::Link(_) => unreachable!(),
            Form::Open(first, fewer) => {
                if fewer < count {
                    return join_open(nodes, entries, tasks, right, left, first, fewer);
                }
                join_open(nodes, entries, tasks, left, right, start, count)
            }
            Form::Made(_, _, _) => join_open(nodes, entries, tasks, left, right, start, count),
        },
        Form::Made(head, first, count) => match one {
            Form::Free => join_free(nodes, tasks, right, left),
            Form::Link(_) => unreachable!(),
            Form::Open(start, names) => {
                join_open(nodes, entries, tasks, right, left, start, names)
            }
            Form::Made(left_head, left_first, left_count) => {
                let made = Row {
                    head: left_head,
                    first: left_first,
                    count: left_count,
                };
                let other = Row { head, first, count };
                join_made(nodes, tasks, left, right, made, other)
            }
        },
    }
}

// Does what one task asks, and adds what it turns into.
pub fn step(
    table: &ShapeTable,
    nodes: &mut List<Node>,
    entries: &mut List<Entry>,
    tasks: &mut List<Task>,
    task: Task,
) -> Result<(), UnifyErr>
    requires table { IsTable table.now }
    requires graph { IsGraph nodes.old }
    requires bound { IsBound table.now (length entries.old) nodes.old }
    requires entries { AreEntries table.now (length nodes.old) entries.old }
    requires within { IsTask table.now (length nodes.old) task }
    ensures ok { OnOk result ((T : Tables) → Told table.now entries.new T → Does table.now (length entries.new) T nodes.old tasks.old task nodes.new tasks.new) }
    ensures entries { Grows table.now (length nodes.old) entries.old entries.new }
    ensures err { IfErr result (Tells ((T : Tables) → Told table.now entries.new T → Refuses T nodes.old task)) }
{
    match task {
        Task::Has(at, kind, depth) => {
            let root = find_short(nodes, at);
            impose(nodes, entries, tasks, root, kind, depth)
        }
        Task::Same(left, right) => {
            let one = find_short(nodes, left);
            let other = find_short(nodes, right);
            if one == other {
                return Ok(());
            }
            unite(nodes, entries, tasks, one, other)
        }
        Task::Part(at, label, child) => {
            let root = find_short(nodes, at);
            meet_part(table, nodes, entries, tasks, root, label, child)
        }
    }
}
