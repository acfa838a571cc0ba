// The rules of tuples, arrays, indices and updates.
ghost use Rattle.std.specs.Prelude.{◌≡◌, ◌+◌, ◌<◌, ◌≤◌, ◌++◌, ◌∷◌, drop, length, slice_index_or, OnOk, IfOk, IfErr};
ghost use Rattle.fut_flat.specs.Terms.{Array_of, Index, Tuple_of, Update};
ghost use Rattle.fut_types.specs.Shapes.{IsTable};
ghost use Rattle.fut_typing.specs.Names.{Names};
ghost use Rattle.fut_typing.specs.Patterns.{arrows};
ghost use Rattle.fut_typing.specs.Rules.{Rule};
ghost use Rattle.type_graph.specs.Graph.{Each, Tables, Told, Tells};
ghost use Rattle.type_graph.specs.Claims.{Sound, Extends, Adds, Nowhere, types_of};
ghost use Rattle.type_rules.specs.declared.demand.Demand.TheVariants as demand;
ghost use Rattle.type_rules.specs.Lists.{all_same, all_sizes, function_demands, index_demands, update_demands};
ghost use Rattle.fut_types.specs.declared.Kind.{Kind as TheKind};

use crate::Demand;
use crate::lists::{
    push_demand, push_function, push_index, push_same, push_sizes, push_update, takes,
};
use crate::own::put_own;
use fut_flat::Part;
use fut_scalar::List;
use fut_types::{Head, Kind, ShapeTable};
use std::alloc::Global;
use type_graph::{Entry, Node, UnifyErr, assert_made};

/// A tuple: its type is made of those of its parts.
pub fn tuple(
    alloc: Global,
    table: &ShapeTable,
    base: u32,
    nodes: &mut List<Node>,
    entries: &mut List<Entry>,
    id: u32,
    parts: &[u32],
) -> Result<(), UnifyErr>
    requires table { IsTable table.now }
    requires sound { Sound table.now nodes.old entries.old }
    requires base { base ≤ length nodes.old }
    requires id { id < base }
    requires parts { Each (λ part. part < base) parts.now }
    ensures extends { OnOk result (Extends table.now nodes.old entries.old nodes.new entries.new) }
    ensures ok { OnOk result ((T : Tables) → Told table.now entries.new T → (N : Names) (places : TheKind) → Adds T base (λ K a. Rule N places K Tuple_of (a id) (a id) (types_of a parts.now)) (λ home. Unit {0}) nodes.old nodes.new) }
    ensures err { IfErr result (Tells ((T : Tables) → Told table.now entries.new T → (N : Names) (places : TheKind) → Nowhere T base (λ K a. Rule N places K Tuple_of (a id) (a id) (types_of a parts.now)) nodes.old)) }
    ensures before { IfErr result (Tells ((T : Tables) → Told table.now entries.new T → Told table.now entries.old T)) }
{
    assert_made(alloc, table, base, nodes, entries, id, Head::Tuple, parts)
}

fn array_demands(
    alloc: Global,
    id: u32,
    own: u32,
    parts: &[u32],
    places: Kind,
) -> Result<List<Demand>, UnifyErr>
    ensures ok { IfOk result (λ ds. ds ≡ demand.Array id own ∷ demand.Has own places ∷ all_same own parts.now) }
    ensures err { IfErr result (Tells ⊥) }
{
    let mut demands = List::new(alloc);
    match push_demand(&mut demands, Demand::Array(id, own)) {
        Ok(()) => {}
        Err(error) => return Err(error),
    }
    match push_demand(&mut demands, Demand::Has(own, places)) {
        Ok(()) => {}
        Err(error) => return Err(error),
    }
    match push_same(&mut demands, own, parts, 0) {
        Ok(()) => Ok(demands),
        Err(error) => Err(error),
    }
}

/// An array of its elements: they are of one type, that arrays may hold.
pub fn array(
    alloc: Global,
    table: &ShapeTable,
    base: u32,
    nodes: &mut List<Node>,
    entries: &mut List<Entry>,
    id: u32,
    parts: &[u32],
    places: Kind,
) -> Result<(), UnifyErr>
    requires table { IsTable table.now }
    requires sound { Sound table.now nodes.old entries.old }
    requires base { base ≤ length nodes.old }
    requires id { id < base }
    requires parts { Each (λ part. part < base) parts.now }
    ensures extends { OnOk result (Extends table.now nodes.old entries.old nodes.new entries.new) }
    ensures ok { OnOk result ((T : Tables) → Told table.now entries.new T → (N : Names) → Adds T base (λ K a. Rule N places K Array_of (a id) (a id) (types_of a parts.now)) (λ home. Unit {0}) nodes.old nodes.new) }
    ensures err { IfErr result (Tells ((T : Tables) → Told table.now entries.new T → (N : Names) → Nowhere T base (λ K a. Rule N places K Array_of (a id) (a id) (types_of a parts.now)) nodes.old)) }
    ensures before { IfErr result (Tells ((T : Tables) → Told table.now entries.new T → Told table.now entries.old T)) }
{
    let own = nodes.len() as u32;
    let demands = match array_demands(alloc, id, own, parts, places) {
        Ok(demands) => demands,
        Err(_) => return Err(UnifyErr::Memory),
    };
    put_own(alloc, table, base, nodes, entries, 1, demands.as_slice())
}

// The array, its elements, their elements .. are the nodes from `own` on; what each part of the index leaves, those from
// `left` on.
fn index_list(
    alloc: Global,
    id: u32,
    parts: &[u32],
    what: &[Part],
    own: u32,
    left: u32,
    places: Kind,
) -> Result<List<Demand>, UnifyErr>
    requires some { 1 ≤ length parts.now }
    requires own { own + length what.now < 4294967295 }
    requires left { left + length what.now < 4294967295 }
    ensures ok { IfOk result (λ ds. ds ≡ demand.Same (slice_index_or parts.now 0 0) own ∷ demand.Same id left ∷ (all_sizes (drop 1 parts.now) ++ index_demands places what.now own left)) }
    ensures err { IfErr result (Tells ⊥) }
{
    let mut demands = List::new(alloc);
    match push_demand(&mut demands, Demand::Same(parts[0], own)) {
        Ok(()) => {}
        Err(error) => return Err(error),
    }
    match push_demand(&mut demands, Demand::Same(id, left)) {
        Ok(()) => {}
        Err(error) => return Err(error),
    }
    match push_sizes(&mut demands, parts, 1) {
        Ok(()) => {}
        Err(error) => return Err(error),
    }
    match push_index(&mut demands, what, own, left, places) {
        Ok(()) => Ok(demands),
        Err(error) => Err(error),
    }
}

/// An index, of an array and the bounds behind it: it leaves what its parts say.
pub fn index(
    alloc: Global,
    table: &ShapeTable,
    base: u32,
    nodes: &mut List<Node>,
    entries: &mut List<Entry>,
    id: u32,
    parts: &[u32],
    what: &[Part],
    places: Kind,
) -> Result<(), UnifyErr>
    requires table { IsTable table.now }
    requires sound { Sound table.now nodes.old entries.old }
    requires base { base ≤ length nodes.old }
    requires id { id < base }
    requires parts { Each (λ part. part < base) parts.now }
    ensures extends { OnOk result (Extends table.now nodes.old entries.old nodes.new entries.new) }
    ensures ok { OnOk result ((T : Tables) → Told table.now entries.new T → (N : Names) → Adds T base (λ K a. Rule N places K (Index what.now) (a id) (a id) (types_of a parts.now)) (λ home. Unit {0}) nodes.old nodes.new) }
    ensures err { IfErr result (Tells ((T : Tables) → Told table.now entries.new T → (N : Names) → Nowhere T base (λ K a. Rule N places K (Index what.now) (a id) (a id) (types_of a parts.now)) nodes.old)) }
    ensures before { IfErr result (Tells ((T : Tables) → Told table.now entries.new T → Told table.now entries.old T)) }
{
    if parts.len() < 1 {
        return Err(UnifyErr::Clash(id, id));
    }
    if !takes(what, parts.len() - 1) {
        return Err(UnifyErr::Clash(id, parts[0]));
    }
    if what.len() >= 1073741824 || nodes.len() >= 1073741824 {
        return Err(UnifyErr::Memory);
    }
    let own = nodes.len() as u32;
    let many = what.len() as u32 + 1;
    let demands = match index_list(alloc, id, parts, what, own, own + many, places) {
        Ok(demands) => demands,
        Err(_) => return Err(UnifyErr::Memory),
    };
    put_own(
        alloc,
        table,
        base,
        nodes,
        entries,
        many + many,
        demands.as_slice(),
    )
}

fn update_list(
    alloc: Global,
    id: u32,
    parts: &[u32],
    own: u32,
    places: Kind,
) -> Result<List<Demand>, UnifyErr>
    requires some { 2 ≤ length parts.now }
    requires own { own + length parts.now < 4294967295 }
    ensures ok { IfOk result (λ ds. ds ≡ demand.Same id (slice_index_or parts.now 0 0) ∷ demand.Same (slice_index_or parts.now 0 0) own ∷ update_demands places (drop 1 parts.now) own) }
    ensures err { IfErr result (Tells ⊥) }
{
    let mut demands = List::new(alloc);
    match push_demand(&mut demands, Demand::Same(id, parts[0])) {
        Ok(()) => {}
        Err(error) => return Err(error),
    }
    match push_demand(&mut demands, Demand::Same(parts[0], own)) {
        Ok(()) => {}
        Err(error) => return Err(error),
    }
    match push_update(&mut demands, parts, own, places) {
        Ok(()) => Ok(demands),
        Err(error) => Err(error),
    }
}

/// An update, of an array, at the indices behind it, with the new element at the end.
pub fn update_at(
    alloc: Global,
    table: &ShapeTable,
    base: u32,
    nodes: &mut List<Node>,
    entries: &mut List<Entry>,
    id: u32,
    parts: &[u32],
    places: Kind,
) -> Result<(), UnifyErr>
    requires table { IsTable table.now }
    requires sound { Sound table.now nodes.old entries.old }
    requires base { base ≤ length nodes.old }
    requires id { id < base }
    requires parts { Each (λ part. part < base) parts.now }
    ensures extends { OnOk result (Extends table.now nodes.old entries.old nodes.new entries.new) }
    ensures ok { OnOk result ((T : Tables) → Told table.now entries.new T → (N : Names) → Adds T base (λ K a. Rule N places K Update (a id) (a id) (types_of a parts.now)) (λ home. Unit {0}) nodes.old nodes.new) }
    ensures err { IfErr result (Tells ((T : Tables) → Told table.now entries.new T → (N : Names) → Nowhere T base (λ K a. Rule N places K Update (a id) (a id) (types_of a parts.now)) nodes.old)) }
    ensures before { IfErr result (Tells ((T : Tables) → Told table.now entries.new T → Told table.now entries.old T)) }
{
    if parts.len() < 2 {
        return Err(UnifyErr::Clash(id, id));
    }
    if parts.len() >= 1073741824 || nodes.len() >= 1073741824 {
        return Err(UnifyErr::Memory);
    }
    let own = nodes.len() as u32;
    let many = parts.len() as u32;
    let demands = match update_list(alloc, id, parts, own, places) {
        Ok(demands) => demands,
        Err(_) => return Err(UnifyErr::Memory),
    };
    put_own(alloc, table, base, nodes, entries, many, demands.as_slice())
}

fn function_list(
    alloc: Global,
    id: u32,
    params: &[u32],
    body: u32,
    own: u32,
) -> Result<List<Demand>, UnifyErr>
    requires own { own + length params.now < 4294967295 }
    ensures ok { IfOk result (λ ds. ds ≡ demand.Same id own ∷ function_demands params.now body own) }
    ensures err { IfErr result (Tells ⊥) }
{
    let mut demands = List::new(alloc);
    match push_demand(&mut demands, Demand::Same(id, own)) {
        Ok(()) => {}
        Err(error) => return Err(error),
    }
    match push_function(&mut demands, params, body, own) {
        Ok(()) => Ok(demands),
        Err(error) => Err(error),
    }
}

/// A function of parameters: its type leads from theirs to that of its body.
pub fn function(
    alloc: Global,
    table: &ShapeTable,
    base: u32,
    nodes: &mut List<Node>,
    entries: &mut List<Entry>,
    id: u32,
    params: &[u32],
    body: u32,
) -> Result<(), UnifyErr>
    requires table { IsTable table.now }
    requires sound { Sound table.now nodes.old entries.old }
    requires base { base ≤ length nodes.old }
    requires id { id < base }
    requires params { Each (λ param. param < base) params.now }
    requires body { body < base }
    ensures extends { OnOk result (Extends table.now nodes.old entries.old nodes.new entries.new) }
    ensures ok { OnOk result ((T : Tables) → Told table.now entries.new T → Adds T base (λ K a. a id ≡ arrows (types_of a params.now) (a body)) (λ home. Unit {0}) nodes.old nodes.new) }
    ensures err { IfErr result (Tells ((T : Tables) → Told table.now entries.new T → Nowhere T base (λ K a. a id ≡ arrows (types_of a params.now) (a body)) nodes.old)) }
    ensures before { IfErr result (Tells ((T : Tables) → Told table.now entries.new T → Told table.now entries.old T)) }
{
    if params.len() >= 1073741824 || nodes.len() >= 1073741824 {
        return Err(UnifyErr::Memory);
    }
    let own = nodes.len() as u32;
    let many = params.len() as u32 + 1;
    let demands = match function_list(alloc, id, params, body, own) {
        Ok(demands) => demands,
        Err(_) => return Err(UnifyErr::Memory),
    };
    put_own(alloc, table, base, nodes, entries, many, demands.as_slice())
}
