// A substitution that is put into a graph, whose first nodes are its variables, and two types that are made equal there.
ghost use Rattle.std.specs.Prelude.{◌≡◌, ◌<◌, ◌≤◌, length, OnOk, IfOk, IfErr};
ghost use Rattle.fut_types.specs.Types.{applied};
ghost use Rattle.fut_types.specs.Shapes.{IsTable, HasPart};
ghost use Rattle.type_graph.specs.Graph.{Tables, IsTask, Holds, Told, Tells};
ghost use Rattle.type_graph.specs.Claims.{Sound, Extends};
ghost use Rattle.unify.specs.Substitutions.{Within, Suits, All_suit, Has_parts, Bound, Meets, AreParts, AreKnown, AreBinds, type_of};
ghost use Rattle.unify.specs.Putting.{Blank, Puts, Bars};

use crate::plant::plant;
use crate::{Known, Subst, Ty};
use fut_scalar::List;
use fut_types::ShapeTable;
use std::alloc::Global;
use type_graph::{Entry, FAR, Form, Node, Task, UnifyErr, assert_task, push_node};

// So many nodes of which nothing is known.
pub fn variables(alloc: Global, count: u32) -> Result<List<Node>, UnifyErr>
    ensures ok { IfOk result (λ nodes. Blank count nodes) }
    ensures err { IfErr result (Tells ⊥) }
{
    let mut nodes = List::new(alloc);
    let mut at = 0;
    while at < count {
        match push_node(&mut nodes, Form::Free) {
            Ok(_) => {}
            Err(error) => return Err(error),
        }
        at += 1;
    }
    Ok(nodes)
}

// Asks one task of all nodes.
fn put_task(
    alloc: Global,
    table: &ShapeTable,
    nodes: &mut List<Node>,
    entries: &mut List<Entry>,
    task: Task,
) -> Result<(), UnifyErr>
    requires table { IsTable table.now }
    requires sound { Sound table.now nodes.old entries.old }
    requires within { IsTask table.now (length nodes.old) task }
    ensures extends { OnOk result (Extends table.now nodes.old entries.old nodes.new entries.new) }
    ensures ok { OnOk result ((T : Tables) → Told table.now entries.new T → Puts T nodes.old (λ K a. Holds T K a task) nodes.new) }
    ensures err { IfErr result (Tells ((T : Tables) → Told table.now entries.new T → Bars T nodes.old (λ K a. Holds T K a task))) }
    ensures before { IfErr result (Tells ((T : Tables) → Told table.now entries.new T → Told table.now entries.old T)) }
{
    let base = nodes.len() as u32;
    assert_task(alloc, table, base, nodes, entries, task)
}

// Gives a node a type.
fn put_type(
    alloc: Global,
    table: &ShapeTable,
    nodes: &mut List<Node>,
    entries: &mut List<Entry>,
    number: u32,
    tree: &Ty,
) -> Result<(), UnifyErr>
    requires table { IsTable table.now }
    requires sound { Sound table.now nodes.old entries.old }
    requires number { number < length nodes.old }
    requires within { Within table.now (length nodes.old) (type_of tree.now) }
    ensures extends { OnOk result (Extends table.now nodes.old entries.old nodes.new entries.new) }
    ensures ok { OnOk result ((T : Tables) → Told table.now entries.new T → Puts T nodes.old (λ K a. a number ≡ applied a (type_of tree.now)) nodes.new) }
    ensures err { IfErr result (Tells ((T : Tables) → Told table.now entries.new T → Bars T nodes.old (λ K a. a number ≡ applied a (type_of tree.now)))) }
    ensures before { IfErr result (Tells ((T : Tables) → Told table.now entries.new T → Told table.now entries.old T)) }
{
    match plant(alloc, table, nodes, entries, tree) {
        Ok(planted) => put_task(alloc, table, nodes, entries, Task::Same(number, planted)),
        Err(error) => Err(error),
    }
}

// Gives a node's type a part.
fn put_part(
    alloc: Global,
    table: &ShapeTable,
    nodes: &mut List<Node>,
    entries: &mut List<Entry>,
    number: u32,
    label: u32,
    tree: &Ty,
) -> Result<(), UnifyErr>
    requires table { IsTable table.now }
    requires sound { Sound table.now nodes.old entries.old }
    requires number { number < length nodes.old }
    requires label { label < length table.now.positions }
    requires within { Within table.now (length nodes.old) (type_of tree.now) }
    ensures extends { OnOk result (Extends table.now nodes.old entries.old nodes.new entries.new) }
    ensures ok { OnOk result ((T : Tables) → Told table.now entries.new T → Puts T nodes.old (λ K a. HasPart T.shapes label (a number) (applied a (type_of tree.now))) nodes.new) }
    ensures err { IfErr result (Tells ((T : Tables) → Told table.now entries.new T → Bars T nodes.old (λ K a. HasPart T.shapes label (a number) (applied a (type_of tree.now))))) }
    ensures before { IfErr result (Tells ((T : Tables) → Told table.now entries.new T → Told table.now entries.old T)) }
{
    match plant(alloc, table, nodes, entries, tree) {
        Ok(planted) => put_task(
            alloc,
            table,
            nodes,
            entries,
            Task::Part(number, label, planted),
        ),
        Err(error) => Err(error),
    }
}

fn put_parts(
    alloc: Global,
    table: &ShapeTable,
    nodes: &mut List<Node>,
    entries: &mut List<Entry>,
    number: u32,
    parts: &List<(u32, Ty)>,
) -> Result<(), UnifyErr>
    requires table { IsTable table.now }
    requires sound { Sound table.now nodes.old entries.old }
    requires number { number < length nodes.old }
    requires within { AreParts table.now (length nodes.old) parts.now }
    ensures extends { OnOk result (Extends table.now nodes.old entries.old nodes.new entries.new) }
    ensures ok { OnOk result ((T : Tables) → Told table.now entries.new T → Puts T nodes.old (λ K a. Has_parts T.shapes a (a number) parts.now) nodes.new) }
    ensures err { IfErr result (Tells ((T : Tables) → Told table.now entries.new T → Bars T nodes.old (λ K a. Has_parts T.shapes a (a number) parts.now))) }
    ensures before { IfErr result (Tells ((T : Tables) → Told table.now entries.new T → Told table.now entries.old T)) }
{
    for part in parts.as_slice() {
        match put_part(alloc, table, nodes, entries, number, part.0, &part.1) {
            Ok(()) => {}
            Err(error) => return Err(error),
        }
    }
    Ok(())
}

// Asks of a variable what is known of it.
fn put_known(
    alloc: Global,
    table: &ShapeTable,
    nodes: &mut List<Node>,
    entries: &mut List<Entry>,
    number: u32,
    known: &Known,
) -> Result<(), UnifyErr>
    requires table { IsTable table.now }
    requires sound { Sound table.now nodes.old entries.old }
    requires number { number < length nodes.old }
    requires within { AreParts table.now (length nodes.old) known.now.parts }
    ensures extends { OnOk result (Extends table.now nodes.old entries.old nodes.new entries.new) }
    ensures ok { OnOk result ((T : Tables) → Told table.now entries.new T → Puts T nodes.old (λ K a. Suits T.shapes K a (a number) known.now) nodes.new) }
    ensures err { IfErr result (Tells ((T : Tables) → Told table.now entries.new T → Bars T nodes.old (λ K a. Suits T.shapes K a (a number) known.now))) }
    ensures before { IfErr result (Tells ((T : Tables) → Told table.now entries.new T → Told table.now entries.old T)) }
{
    match put_task(
        alloc,
        table,
        nodes,
        entries,
        Task::Has(number, known.kind, FAR),
    ) {
        Ok(()) => put_parts(alloc, table, nodes, entries, number, &known.parts),
        Err(error) => Err(error),
    }
}

fn put_all_known(
    alloc: Global,
    table: &ShapeTable,
    nodes: &mut List<Node>,
    entries: &mut List<Entry>,
    known: &List<Known>,
) -> Result<(), UnifyErr>
    requires table { IsTable table.now }
    requires sound { Sound table.now nodes.old entries.old }
    requires long { length known.now ≤ length nodes.old }
    requires within { AreKnown table.now (length nodes.old) known.now }
    ensures extends { OnOk result (Extends table.now nodes.old entries.old nodes.new entries.new) }
    ensures ok { OnOk result ((T : Tables) → Told table.now entries.new T → Puts T nodes.old (λ K a. All_suit T.shapes K a known.now) nodes.new) }
    ensures err { IfErr result (Tells ((T : Tables) → Told table.now entries.new T → Bars T nodes.old (λ K a. All_suit T.shapes K a known.now))) }
    ensures before { IfErr result (Tells ((T : Tables) → Told table.now entries.new T → Told table.now entries.old T)) }
{
    let mut number = 0;
    for one in known.as_slice() {
        match put_known(alloc, table, nodes, entries, number, one) {
            Ok(()) => {}
            Err(error) => return Err(error),
        }
        number += 1;
    }
    Ok(())
}

fn put_binds(
    alloc: Global,
    table: &ShapeTable,
    nodes: &mut List<Node>,
    entries: &mut List<Entry>,
    binds: &List<(u32, Ty)>,
) -> Result<(), UnifyErr>
    requires table { IsTable table.now }
    requires sound { Sound table.now nodes.old entries.old }
    requires within { AreBinds table.now (length nodes.old) binds.now }
    ensures extends { OnOk result (Extends table.now nodes.old entries.old nodes.new entries.new) }
    ensures ok { OnOk result ((T : Tables) → Told table.now entries.new T → Puts T nodes.old (λ K a. Bound a binds.now) nodes.new) }
    ensures err { IfErr result (Tells ((T : Tables) → Told table.now entries.new T → Bars T nodes.old (λ K a. Bound a binds.now))) }
    ensures before { IfErr result (Tells ((T : Tables) → Told table.now entries.new T → Told table.now entries.old T)) }
{
    for bind in binds.as_slice() {
        match put_type(alloc, table, nodes, entries, bind.0, &bind.1) {
            Ok(()) => {}
            Err(error) => return Err(error),
        }
    }
    Ok(())
}

// Makes two types equal.
fn put_equal(
    alloc: Global,
    table: &ShapeTable,
    nodes: &mut List<Node>,
    entries: &mut List<Entry>,
    left: &Ty,
    right: &Ty,
) -> Result<(), UnifyErr>
    requires table { IsTable table.now }
    requires sound { Sound table.now nodes.old entries.old }
    requires left { Within table.now (length nodes.old) (type_of left.now) }
    requires right { Within table.now (length nodes.old) (type_of right.now) }
    ensures extends { OnOk result (Extends table.now nodes.old entries.old nodes.new entries.new) }
    ensures ok { OnOk result ((T : Tables) → Told table.now entries.new T → Puts T nodes.old (λ K a. applied a (type_of left.now) ≡ applied a (type_of right.now)) nodes.new) }
    ensures err { IfErr result (Tells ((T : Tables) → Told table.now entries.new T → Bars T nodes.old (λ K a. applied a (type_of left.now) ≡ applied a (type_of right.now)))) }
    ensures before { IfErr result (Tells ((T : Tables) → Told table.now entries.new T → Told table.now entries.old T)) }
{
    match plant(alloc, table, nodes, entries, left) {
        Ok(planted) => put_type(alloc, table, nodes, entries, planted, right),
        Err(error) => Err(error),
    }
}

fn put_subst(
    alloc: Global,
    table: &ShapeTable,
    nodes: &mut List<Node>,
    entries: &mut List<Entry>,
    subst: &Subst,
) -> Result<(), UnifyErr>
    requires table { IsTable table.now }
    requires sound { Sound table.now nodes.old entries.old }
    requires long { length subst.now.known ≤ length nodes.old }
    requires known { AreKnown table.now (length nodes.old) subst.now.known }
    requires binds { AreBinds table.now (length nodes.old) subst.now.binds }
    ensures extends { OnOk result (Extends table.now nodes.old entries.old nodes.new entries.new) }
    ensures ok { OnOk result ((T : Tables) → Told table.now entries.new T → Puts T nodes.old (λ K a. Meets T.shapes subst.now K a) nodes.new) }
    ensures err { IfErr result (Tells ((T : Tables) → Told table.now entries.new T → Bars T nodes.old (λ K a. Meets T.shapes subst.now K a))) }
    ensures before { IfErr result (Tells ((T : Tables) → Told table.now entries.new T → Told table.now entries.old T)) }
{
    match put_all_known(alloc, table, nodes, entries, &subst.known) {
        Ok(()) => put_binds(alloc, table, nodes, entries, &subst.binds),
        Err(error) => Err(error),
    }
}

// Puts in all that is given.
pub fn load(
    alloc: Global,
    table: &ShapeTable,
    nodes: &mut List<Node>,
    entries: &mut List<Entry>,
    subst: &Subst,
    left: &Ty,
    right: &Ty,
) -> Result<(), UnifyErr>
    requires table { IsTable table.now }
    requires sound { Sound table.now nodes.old entries.old }
    requires long { length subst.now.known ≤ length nodes.old }
    requires known { AreKnown table.now (length nodes.old) subst.now.known }
    requires binds { AreBinds table.now (length nodes.old) subst.now.binds }
    requires left { Within table.now (length nodes.old) (type_of left.now) }
    requires right { Within table.now (length nodes.old) (type_of right.now) }
    ensures extends { OnOk result (Extends table.now nodes.old entries.old nodes.new entries.new) }
    ensures ok { OnOk result ((T : Tables) → Told table.now entries.new T → Puts T nodes.old (λ K a. Meets T.shapes subst.now K a × (applied a (type_of left.now) ≡ applied a (type_of right.now))) nodes.new) }
    ensures err { IfErr result (Tells ((T : Tables) → Told table.now entries.new T → Bars T nodes.old (λ K a. Meets T.shapes subst.now K a × (applied a (type_of left.now) ≡ applied a (type_of right.now))))) }
    ensures before { IfErr result (Tells ((T : Tables) → Told table.now entries.new T → Told table.now entries.old T)) }
{
    match put_subst(alloc, table, nodes, entries, subst) {
        Ok(()) => put_equal(alloc, table, nodes, entries, left, right),
        Err(error) => Err(error),
    }
}
