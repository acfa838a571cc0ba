// A record by its number, with its parts under their labels.
ghost use Rattle.std.specs.Prelude.{◌≡◌, ◌+◌, ◌<◌, ◌≤◌, length, OnOk, IfOk, IfErr};
ghost use Rattle.fut_types.specs.Shapes.{IsTable};
ghost use Rattle.type_graph.specs.Graph.{Each, Tables, Told, Tells, numbers};
ghost use Rattle.type_graph.specs.Claims.{Sound, Extends, Adds, Nowhere, types_of};
ghost use Rattle.fut_types.specs.Types.{Made};
ghost use Rattle.fut_types.specs.declared.Head.TheVariants as head;
ghost use Rattle.type_rules.specs.Demands.{All_allow, All_met, Are_demands};
ghost use Rattle.type_rules.specs.Records.{Has_parts, part_demands};

use crate::{Demand, push_demand, push_own, put};
use fut_scalar::List;
use fut_types::{Head, ShapeTable};
use std::alloc::Global;
use type_graph::{Entry, Node, UnifyErr, assert_made};

fn count_up(alloc: Global, first: u32, count: u32) -> Result<List<u32>, UnifyErr>
    requires { first + count < 4294967295 }
    ensures ok { IfOk result (λ list. list ≡ numbers first count) }
    ensures err { IfErr result (Tells ⊥) }
{
    let mut list = List::new(alloc);
    let mut at = 0;
    while at < count {
        match list.push(first + at) {
            Ok(()) => {}
            Err(_) => return Err(UnifyErr::Memory),
        }
        at += 1;
    }
    Ok(list)
}

fn parts_list(alloc: Global, id: u32, row: &[u32], parts: &[u32]) -> Result<List<Demand>, UnifyErr>
    requires { length parts.now ≡ length row.now }
    ensures ok { IfOk result (λ list. list ≡ part_demands id row.now parts.now) }
    ensures err { IfErr result (Tells ⊥) }
{
    let mut list = List::new(alloc);
    let mut at = 0;
    while at < row.len() {
        match push_demand(&mut list, Demand::Part(id, row[at], parts[at])) {
            Ok(()) => {}
            Err(error) => return Err(error),
        }
        at += 1;
    }
    Ok(list)
}

// With nodes for the record's parts, which stand behind `base`.
fn put_parts(
    alloc: Global,
    table: &ShapeTable,
    base: u32,
    nodes: &mut List<Node>,
    entries: &mut List<Entry>,
    id: u32,
    number: u32,
    own: &[u32],
    demands: &[Demand],
) -> Result<(), UnifyErr>
    requires table { IsTable table.now }
    requires sound { Sound table.now nodes.old entries.old }
    requires base { base ≤ length nodes.old }
    requires id { id < base }
    requires number { number < length table.now.records }
    requires own { Each (λ part. part < base) own.now }
    requires within { Are_demands table.now base demands.now }
    ensures extends { OnOk result (Extends table.now nodes.old entries.old nodes.new entries.new) }
    ensures ok { OnOk result ((T : Tables) → Told table.now entries.new T → Adds T base (λ K a. (a id ≡ Made (head.Record number) (types_of a own.now)) × All_met T.shapes K a demands.now) (λ home. All_allow home demands.now) nodes.old nodes.new) }
    ensures err { IfErr result (Tells ((T : Tables) → Told table.now entries.new T → Nowhere T base (λ K a. (a id ≡ Made (head.Record number) (types_of a own.now)) × All_met T.shapes K a demands.now) nodes.old)) }
    ensures before { IfErr result (Tells ((T : Tables) → Told table.now entries.new T → Told table.now entries.old T)) }
{
    match assert_made(
        alloc,
        table,
        base,
        nodes,
        entries,
        id,
        Head::Record(number),
        own,
    ) {
        Ok(()) => {}
        Err(error) => return Err(error),
    }
    put(alloc, table, base, nodes, entries, demands)
}

/// Asks that a node's type is that of the record with this number, and that it has the types of the parts under the labels
/// of the row.
pub fn put_record(
    alloc: Global,
    table: &ShapeTable,
    base: u32,
    nodes: &mut List<Node>,
    entries: &mut List<Entry>,
    id: u32,
    number: u32,
    row: &[u32],
    parts: &[u32],
) -> Result<(), UnifyErr>
    requires table { IsTable table.now }
    requires sound { Sound table.now nodes.old entries.old }
    requires base { base ≤ length nodes.old }
    requires id { id < base }
    requires number { number < length table.now.records }
    requires row { Each (λ label. label < length table.now.positions) row.now }
    requires parts { Each (λ part. part < base) parts.now }
    requires long { length parts.now ≡ length row.now }
    ensures extends { OnOk result (Extends table.now nodes.old entries.old nodes.new entries.new) }
    ensures ok { OnOk result ((T : Tables) → Told table.now entries.new T → Adds T base (λ K a. Has_parts T.shapes number row.now (a id) (types_of a parts.now)) (λ home. Unit {0}) nodes.old nodes.new) }
    ensures err { IfErr result (Tells ((T : Tables) → Told table.now entries.new T → Nowhere T base (λ K a. Has_parts T.shapes number row.now (a id) (types_of a parts.now)) nodes.old)) }
    ensures before { IfErr result (Tells ((T : Tables) → Told table.now entries.new T → Told table.now entries.old T)) }
{
    if nodes.len() >= 1073741824 || row.len() >= 1073741824 {
        return Err(UnifyErr::Memory);
    }
    let first = nodes.len() as u32;
    let count = row.len() as u32;
    let all = first + count;
    let own = match count_up(alloc, first, count) {
        Ok(own) => own,
        Err(_) => return Err(UnifyErr::Memory),
    };
    let demands = match parts_list(alloc, id, row, parts) {
        Ok(demands) => demands,
        Err(_) => return Err(UnifyErr::Memory),
    };
    match push_own(nodes, count) {
        Ok(()) => {}
        Err(_) => return Err(UnifyErr::Memory),
    }
    put_parts(
        alloc,
        table,
        all,
        nodes,
        entries,
        id,
        number,
        own.as_slice(),
        demands.as_slice(),
    )
}
