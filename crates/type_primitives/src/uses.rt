// The use of a primitive.
ghost use Rattle.std.specs.Prelude.{◌≡◌, ◌+◌, ◌<◌, ◌≤◌, ◌++◌, IsTrue, length, OnOk, IfOk, IfErr};
ghost use Rattle.fut_types.specs.Shapes.{IsTable};
ghost use Rattle.type_graph.specs.Graph.{Tables, Told, Tells};
ghost use Rattle.type_graph.specs.Claims.{Sound, Extends, Adds, Nowhere};
ghost use Rattle.fut_primitives.specs.Table.{written};
ghost use Rattle.type_primitives.specs.Uses.{Of_primitive, nodes, use_demands, variable_demands};

use crate::asked::push_written;
use fut_flat::Primitive;
use fut_primitives::{line_of, scalars_of};
use fut_scalar::List;
use fut_types::{Kind, ShapeTable};
use std::alloc::Global;
use type_graph::{Entry, Node, UnifyErr};
use type_rules::{Demand, push_demand, put_own};

// The first nodes are of a kind.
fn push_variables(
    demands: &mut List<Demand>,
    first: u32,
    count: u32,
    places: Kind,
) -> Result<(), UnifyErr>
    requires { first + count < 4294967295 }
    ensures ok { OnOk result (demands.new ≡ demands.old ++ variable_demands places first count) }
    ensures err { IfErr result (Tells ⊥) }
{
    let mut at = 0;
    while at < count {
        match push_demand(demands, Demand::Has(first + at, places)) {
            Ok(()) => {}
            Err(error) => return Err(error),
        }
        at += 1;
    }
    Ok(())
}

// The demands of a use, and how many nodes of their own they speak of.
#[derive(Drop)]
struct Listed {
    demands: List<Demand>,
    count: u32,
}

fn list(
    alloc: Global,
    name: Primitive,
    first: u32,
    id: u32,
    places: Kind,
) -> Result<Listed, UnifyErr>
    requires { first < 4294967000 }
    ensures ok { IfOk result (λ listed. listed.demands ≡ use_demands places first id name) }
    ensures count { IfOk result (λ listed. listed.count ≡ 6 + nodes (written name)) }
    ensures err { IfErr result (Tells ⊥) }
{
    let mut demands = List::new(alloc);
    match push_variables(&mut demands, first, 6, places) {
        Ok(()) => {}
        Err(error) => return Err(error),
    }
    let scalars = scalars_of(name);
    let whole = match push_written(
        line_of(name).written,
        &mut demands,
        scalars,
        first,
        first + 6,
    ) {
        Ok(whole) => whole,
        Err(error) => return Err(error),
    };
    match push_demand(&mut demands, Demand::Same(id, whole.node)) {
        Ok(()) => Ok(Listed {
            demands,
            count: whole.next - first,
        }),
        Err(error) => Err(error),
    }
}

/// A use of a primitive: its type is one of the primitive's, in which the variables stand for types of a kind.
///
/// It costs the size of the primitive's type.
pub fn primitive(
    alloc: Global,
    table: &ShapeTable,
    base: u32,
    nodes: &mut List<Node>,
    entries: &mut List<Entry>,
    id: u32,
    name: Primitive,
    places: Kind,
) -> Result<(), UnifyErr>
    requires table { IsTable table.now }
    requires sound { Sound table.now nodes.old entries.old }
    requires base { base ≤ length nodes.old }
    requires id { id < base }
    ensures extends { OnOk result (Extends table.now nodes.old entries.old nodes.new entries.new) }
    ensures ok { OnOk result ((T : Tables) → Told table.now entries.new T → Adds T base (λ K a. Of_primitive places name K (a id)) (λ home. Unit {0}) nodes.old nodes.new) }
    ensures err { IfErr result (Tells ((T : Tables) → Told table.now entries.new T → Nowhere T base (λ K a. Of_primitive places name K (a id)) nodes.old)) }
    ensures before { IfErr result (Tells ((T : Tables) → Told table.now entries.new T → Told table.now entries.old T)) }
{
    if nodes.len() >= 4294967000 {
        return Err(UnifyErr::Memory);
    }
    let first = nodes.len() as u32;
    let listed = match list(alloc, name, first, id, places) {
        Ok(listed) => listed,
        Err(_) => return Err(UnifyErr::Memory),
    };
    put_own(
        alloc,
        table,
        base,
        nodes,
        entries,
        listed.count,
        listed.demands.as_slice(),
    )
}
