// Demands on the types of nodes, put into a graph one after the other.
ghost use Rattle.std.specs.Prelude.{◌≤◌, length, OnOk, IfErr};
ghost use Rattle.fut_types.specs.Shapes.{IsTable};
ghost use Rattle.type_graph.specs.Graph.{Tables, Told, Tells};
ghost use Rattle.type_graph.specs.Claims.{Sound, Extends, Adds, Nowhere};
ghost use Rattle.type_rules.specs.Demands.{All_allow, All_met, Allows, Are_demands, IsDemand, Met};

use fut_scalar::{List, ScalarType};
use fut_types::{Head, Kind, ShapeTable};
use std::alloc::Global;
use type_graph::{Entry, FAR, Node, Task, UnifyErr, assert_made, assert_task};

/// What is demanded of the types of nodes, which are given by their numbers.
#[derive(Clone, Copy)]
pub enum Demand {
    /// Two nodes have one type.
    Same(u32, u32),
    /// A node's type is of a kind.
    Has(u32, Kind),
    /// A node's type is this scalar type.
    Is(u32, ScalarType),
    /// A node's type is that of arrays of another's.
    Array(u32, u32),
    /// A node's type is that of functions from another's to a third's.
    Fun(u32, u32, u32),
    /// A node's type is that of pairs of two others'.
    Pair(u32, u32, u32),
    /// A node's type is that of triples of three others'.
    Triple(u32, u32, u32, u32),
    /// A node's type has a part under a label, which is another's type.
    Part(u32, u32, u32),
}

fn put_one(
    alloc: Global,
    table: &ShapeTable,
    base: u32,
    nodes: &mut List<Node>,
    entries: &mut List<Entry>,
    demand: Demand,
) -> Result<(), UnifyErr>
    requires table { IsTable table.now }
    requires sound { Sound table.now nodes.old entries.old }
    requires base { base ≤ length nodes.old }
    requires within { IsDemand table.now base demand }
    ensures extends { OnOk result (Extends table.now nodes.old entries.old nodes.new entries.new) }
    ensures ok { OnOk result ((T : Tables) → Told table.now entries.new T → Adds T base (λ K a. Met T.shapes K a demand) (λ home. Allows home demand) nodes.old nodes.new) }
    ensures err { IfErr result (Tells ((T : Tables) → Told table.now entries.new T → Nowhere T base (λ K a. Met T.shapes K a demand) nodes.old)) }
    ensures before { IfErr result (Tells ((T : Tables) → Told table.now entries.new T → Told table.now entries.old T)) }
{
    match demand {
        Demand::Same(i, j) => assert_task(alloc, table, base, nodes, entries, Task::Same(i, j)),
        Demand::Has(i, kind) => {
            assert_task(alloc, table, base, nodes, entries, Task::Has(i, kind, FAR))
        }
        Demand::Part(i, label, part) => {
            let task = Task::Part(i, label, part);
            assert_task(alloc, table, base, nodes, entries, task)
        }
        Demand::Is(i, scalar) => {
            let head = Head::Scalar(scalar);
            assert_made(alloc, table, base, nodes, entries, i, head, &[])
        }
        Demand::Array(i, j) => {
            assert_made(alloc, table, base, nodes, entries, i, Head::Array, &[j])
        }
        Demand::Fun(i, from, to) => {
            let parts = [from, to];
            assert_made(alloc, table, base, nodes, entries, i, Head::Fun, &parts)
        }
        Demand::Pair(i, first, second) => {
            let parts = [first, second];
            assert_made(alloc, table, base, nodes, entries, i, Head::Tuple, &parts)
        }
        Demand::Triple(i, first, second, third) => {
            let parts = [first, second, third];
            assert_made(alloc, table, base, nodes, entries, i, Head::Tuple, &parts)
        }
    }
}

/// Puts demands into a graph. After a refusal no types of the program's nodes meet them.
pub fn put(
    alloc: Global,
    table: &ShapeTable,
    base: u32,
    nodes: &mut List<Node>,
    entries: &mut List<Entry>,
    demands: &[Demand],
) -> Result<(), UnifyErr>
    requires table { IsTable table.now }
    requires sound { Sound table.now nodes.old entries.old }
    requires base { base ≤ length nodes.old }
    requires within { Are_demands table.now base demands.now }
    ensures extends { OnOk result (Extends table.now nodes.old entries.old nodes.new entries.new) }
    ensures ok { OnOk result ((T : Tables) → Told table.now entries.new T → Adds T base (λ K a. All_met T.shapes K a demands.now) (λ home. All_allow home demands.now) nodes.old nodes.new) }
    ensures err { IfErr result (Tells ((T : Tables) → Told table.now entries.new T → Nowhere T base (λ K a. All_met T.shapes K a demands.now) nodes.old)) }
    ensures before { IfErr result (Tells ((T : Tables) → Told table.now entries.new T → Told table.now entries.old T)) }
{
    let mut at = 0;
    while at < demands.len() {
        match put_one(alloc, table, base, nodes, entries, demands[at]) {
            Ok(()) => {}
            Err(error) => return Err(error),
        }
        at += 1;
    }
    Ok(())
}
