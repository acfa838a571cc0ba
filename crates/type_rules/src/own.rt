// Nodes of a rule's own.
ghost use Rattle.std.specs.Prelude.{◌+◌, ◌<◌, ◌≤◌, length, OnOk, IfErr};
ghost use Rattle.fut_types.specs.Shapes.{IsTable};
ghost use Rattle.type_graph.specs.Graph.{IsGraph, Tables, Told, Tells};
ghost use Rattle.type_graph.specs.Claims.{Sound, Extends, Adds, Nowhere};
ghost use Rattle.type_rules.specs.Demands.{All_allow};
ghost use Rattle.type_rules.specs.Own.{All_own, Freed, Met_beside};

use crate::{Demand, put};
use fut_scalar::List;
use fut_types::ShapeTable;
use std::alloc::Global;
use type_graph::{Entry, Form, Node, UnifyErr, push_node};

/// Adds free nodes.
pub fn push_own(nodes: &mut List<Node>, count: u32) -> Result<(), UnifyErr>
    requires { IsGraph nodes.old }
    ensures ok { OnOk result (Freed nodes.old count nodes.new) }
    ensures err { IfErr result (Tells ⊥) }
{
    let mut at = 0;
    while at < count {
        match push_node(nodes, Form::Free) {
            Ok(_) => {}
            Err(error) => return Err(error),
        }
        at += 1;
    }
    Ok(())
}

/// Puts demands into a graph that speak of the program's nodes, and of so many nodes more: those from the first on that
/// is no node yet.
pub fn put_own(
    alloc: Global,
    table: &ShapeTable,
    base: u32,
    nodes: &mut List<Node>,
    entries: &mut List<Entry>,
    count: u32,
    demands: &[Demand],
) -> Result<(), UnifyErr>
    requires table { IsTable table.now }
    requires sound { Sound table.now nodes.old entries.old }
    requires base { base ≤ length nodes.old }
    requires own { All_own table.now base (length nodes.old) count demands.now }
    ensures extends { OnOk result (Extends table.now nodes.old entries.old nodes.new entries.new) }
    ensures ok { OnOk result ((T : Tables) → Told table.now entries.new T → Adds T base (Met_beside base demands.now T.shapes) (λ home. All_allow home demands.now) nodes.old nodes.new) }
    ensures err { IfErr result (Tells ((T : Tables) → Told table.now entries.new T → Nowhere T base (Met_beside base demands.now T.shapes) nodes.old)) }
    ensures before { IfErr result (Tells ((T : Tables) → Told table.now entries.new T → Told table.now entries.old T)) }
{
    match push_own(nodes, count) {
        Ok(()) => {}
        Err(_) => return Err(UnifyErr::Memory),
    }
    let all = nodes.len() as u32;
    put(alloc, table, all, nodes, entries, demands)
}
