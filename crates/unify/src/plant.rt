// Types that are put into a graph: a node for each.
ghost use Rattle.std.specs.Prelude.{◌<◌, length, map, OnOk, IfOk, IfErr};
ghost use Rattle.fut_types.specs.Types.{Made, applied, all_applied};
ghost use Rattle.fut_types.specs.Shapes.{IsTable, IsKnown};
ghost use Rattle.type_graph.specs.Graph.{Each, Tables, IsMaker, Told, Tells};
ghost use Rattle.type_graph.specs.Claims.{Sound, Extends, types_of};
ghost use Rattle.unify.specs.Substitutions.{Within, All_within, type_of, row_of};
ghost use Rattle.unify.specs.Putting.{Bars, Always, Planted, Planted_all};

use crate::Ty;
use fut_scalar::List;
use fut_types::{Head, ShapeTable};
use std::alloc::Global;
use type_graph::{Entry, Form, Node, UnifyErr, assert_made, push_node};

// A node for a type that a head makes of those of others.
fn plant_made(
    alloc: Global,
    table: &ShapeTable,
    nodes: &mut List<Node>,
    entries: &mut List<Entry>,
    head: Head,
    parts: &[u32],
) -> Result<u32, UnifyErr>
    requires table { IsTable table.now }
    requires sound { Sound table.now nodes.old entries.old }
    requires head { IsKnown table.now head }
    requires maker { IsMaker head }
    requires parts { Each (λ part. part < length nodes.old) parts.now }
    ensures extends { OnOk result (Extends table.now nodes.old entries.old nodes.new entries.new) }
    ensures number { IfOk result (λ number. number < length nodes.new) }
    ensures ok { IfOk result (λ number. (T : Tables) → Told table.now entries.new T → Planted T nodes.old (λ a. Made head (types_of a parts.now)) number nodes.new) }
    ensures err { IfErr result (Tells ((T : Tables) → Told table.now entries.new T → Bars T nodes.old Always)) }
    ensures before { IfErr result (Tells ((T : Tables) → Told table.now entries.new T → Told table.now entries.old T)) }
{
    let number = match push_node(nodes, Form::Free) {
        Ok(number) => number,
        Err(_) => return Err(UnifyErr::Memory),
    };
    let base = nodes.len() as u32;
    match assert_made(alloc, table, base, nodes, entries, number, head, parts) {
        Ok(()) => Ok(number),
        Err(error) => Err(error),
    }
}

// A node for a type: that of a variable is its own.
#[cycle(plant)]
pub fn plant(
    alloc: Global,
    table: &ShapeTable,
    nodes: &mut List<Node>,
    entries: &mut List<Entry>,
    tree: &Ty,
) -> Result<u32, UnifyErr>
    requires table { IsTable table.now }
    requires sound { Sound table.now nodes.old entries.old }
    requires within { Within table.now (length nodes.old) (type_of tree.now) }
    ensures extends { OnOk result (Extends table.now nodes.old entries.old nodes.new entries.new) }
    ensures number { IfOk result (λ number. number < length nodes.new) }
    ensures ok { IfOk result (λ number. (T : Tables) → Told table.now entries.new T → Planted T nodes.old (λ a. applied a (type_of tree.now)) number nodes.new) }
    ensures err { IfErr result (Tells ((T : Tables) → Told table.now entries.new T → Bars T nodes.old Always)) }
    ensures before { IfErr result (Tells ((T : Tables) → Told table.now entries.new T → Told table.now entries.old T)) }
{
    match tree {
        Ty::Var(number) => Ok(*number),
        Ty::Made(head, parts) => match plant_parts(alloc, table, nodes, entries, parts) {
            Ok(numbers) => plant_made(alloc, table, nodes, entries, *head, numbers.as_slice()),
            Err(error) => Err(error),
        },
    }
}

#[cycle(plant)]
fn plant_parts(
    alloc: Global,
    table: &ShapeTable,
    nodes: &mut List<Node>,
    entries: &mut List<Entry>,
    parts: &List<Ty>,
) -> Result<List<u32>, UnifyErr>
    requires table { IsTable table.now }
    requires sound { Sound table.now nodes.old entries.old }
    requires within { All_within table.now (length nodes.old) (row_of (map type_of parts.now)) }
    ensures extends { OnOk result (Extends table.now nodes.old entries.old nodes.new entries.new) }
    ensures numbers { IfOk result (λ numbers. Each (λ number. number < length nodes.new) numbers) }
    ensures ok { IfOk result (λ numbers. (T : Tables) → Told table.now entries.new T → Planted_all T nodes.old (λ a. all_applied a (row_of (map type_of parts.now))) numbers nodes.new) }
    ensures err { IfErr result (Tells ((T : Tables) → Told table.now entries.new T → Bars T nodes.old Always)) }
    ensures before { IfErr result (Tells ((T : Tables) → Told table.now entries.new T → Told table.now entries.old T)) }
{
    let mut numbers = List::new(alloc);
    for part in parts.as_slice() {
        let number = match plant(alloc, table, nodes, entries, part) {
            Ok(number) => number,
            Err(error) => return Err(error),
        };
        match numbers.push(number) {
            Ok(()) => {}
            Err(_) => return Err(UnifyErr::Memory),
        }
    }
    Ok(numbers)
}
