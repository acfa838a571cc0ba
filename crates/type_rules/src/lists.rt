// The demands of the rules with any number of parts, written one after another.
ghost use Rattle.std.specs.Prelude.{◌≡◌, ◌↔◌, ◌+◌, ◌<◌, ◌≤◌, ◌++◌, ◌∷◌, [], IsTrue, drop, length, OnOk, IfErr};
ghost use Rattle.fut_typing.specs.Rules.{bounds};
ghost use Rattle.fut_scalar.specs.declared.scalar.ScalarType.TheVariants as scalar;
ghost use Rattle.fut_scalar.specs.declared.scalar.IntType.TheVariants as int;
ghost use Rattle.type_graph.specs.Graph.{Tells};
ghost use Rattle.type_rules.specs.declared.demand.Demand.TheVariants as demand;
ghost use Rattle.type_rules.specs.Lists.{all_same, all_sizes, function_demands, index_demands, left_demand, update_demands};

use crate::Demand;
use fut_flat::Part;
use fut_scalar::{IntType, List, ScalarType};
use fut_types::Kind;
use type_graph::UnifyErr;

pub fn push_demand(demands: &mut List<Demand>, demand: Demand) -> Result<(), UnifyErr>
    ensures ok { OnOk result (demands.new ≡ demands.old ++ demand ∷ []) }
    ensures err { IfErr result (Tells ⊥) }
{
    match demands.push(demand) {
        Ok(()) => Ok(()),
        Err(_) => Err(UnifyErr::Memory),
    }
}

/// The parts from one on have the type of a node.
pub fn push_same(
    demands: &mut List<Demand>,
    node: u32,
    parts: &[u32],
    from: usize,
) -> Result<(), UnifyErr>
    requires { from ≤ length parts.now }
    ensures ok { OnOk result (demands.new ≡ demands.old ++ all_same node (drop from parts.now)) }
    ensures err { IfErr result (Tells ⊥) }
{
    let mut at = from;
    while at < parts.len() {
        match push_demand(demands, Demand::Same(parts[at], node)) {
            Ok(()) => {}
            Err(error) => return Err(error),
        }
        at += 1;
    }
    Ok(())
}

// The parts from one on are of type i64.
pub fn push_sizes(demands: &mut List<Demand>, parts: &[u32], from: usize) -> Result<(), UnifyErr>
    requires { from ≤ length parts.now }
    ensures ok { OnOk result (demands.new ≡ demands.old ++ all_sizes (drop from parts.now)) }
    ensures err { IfErr result (Tells ⊥) }
{
    let mut at = from;
    while at < parts.len() {
        match push_demand(
            demands,
            Demand::Is(parts[at], ScalarType::Int(IntType::I64)),
        ) {
            Ok(()) => {}
            Err(error) => return Err(error),
        }
        at += 1;
    }
    Ok(())
}

fn left(part: Part, whole: u32, rest: u32) -> Demand
    ensures { result ≡ left_demand part whole rest }
{
    match part {
        Part::At => Demand::Same(whole, rest),
        Part::Slice { .. } => Demand::Array(whole, rest),
        Part::Backwards => Demand::Array(whole, rest),
    }
}

// An array from one node on, and what each part of an index leaves of it from another on.
pub fn push_index(
    demands: &mut List<Demand>,
    parts: &[Part],
    array: u32,
    whole: u32,
    places: Kind,
) -> Result<(), UnifyErr>
    requires array { array + length parts.now < 4294967295 }
    requires whole { whole + length parts.now < 4294967295 }
    ensures ok { OnOk result (demands.new ≡ demands.old ++ index_demands places parts.now array whole) }
    ensures err { IfErr result (Tells ⊥) }
{
    let mut at: u32 = 0;
    while (at as usize) < parts.len() {
        match push_dimension(demands, parts[at as usize], array + at, whole + at, places) {
            Ok(()) => {}
            Err(error) => return Err(error),
        }
        at += 1;
    }
    push_demand(demands, Demand::Same(whole + at, array + at))
}

fn push_dimension(
    demands: &mut List<Demand>,
    part: Part,
    array: u32,
    whole: u32,
    places: Kind,
) -> Result<(), UnifyErr>
    requires array { array < 4294967295 }
    requires whole { whole < 4294967295 }
    ensures ok { OnOk result (demands.new ≡ demands.old ++ (demand.Array array (array + 1) ∷ demand.Has (array + 1) places ∷ left_demand part whole (whole + 1) ∷ [])) }
    ensures err { IfErr result (Tells ⊥) }
{
    match push_demand(demands, Demand::Array(array, array + 1)) {
        Ok(()) => {}
        Err(error) => return Err(error),
    }
    match push_demand(demands, Demand::Has(array + 1, places)) {
        Ok(()) => {}
        Err(error) => return Err(error),
    }
    push_demand(demands, left(part, whole, whole + 1))
}

// An index of an array, and its elements.
fn push_step(
    demands: &mut List<Demand>,
    index: u32,
    array: u32,
    places: Kind,
) -> Result<(), UnifyErr>
    requires { array < 4294967295 }
    ensures ok { OnOk result (demands.new ≡ demands.old ++ (demand.Is index (scalar.Int int.I64) ∷ demand.Array array (array + 1) ∷ demand.Has (array + 1) places ∷ [])) }
    ensures err { IfErr result (Tells ⊥) }
{
    match push_demand(demands, Demand::Is(index, ScalarType::Int(IntType::I64))) {
        Ok(()) => {}
        Err(error) => return Err(error),
    }
    match push_demand(demands, Demand::Array(array, array + 1)) {
        Ok(()) => {}
        Err(error) => return Err(error),
    }
    push_demand(demands, Demand::Has(array + 1, places))
}

// The parts behind the first: the indices of an array from a node on, and the new element.
pub fn push_update(
    demands: &mut List<Demand>,
    parts: &[u32],
    array: u32,
    places: Kind,
) -> Result<(), UnifyErr>
    requires some { 2 ≤ length parts.now }
    requires array { array + length parts.now < 4294967295 }
    ensures ok { OnOk result (demands.new ≡ demands.old ++ update_demands places (drop 1 parts.now) array) }
    ensures err { IfErr result (Tells ⊥) }
{
    let mut at: u32 = 1;
    while (at as usize) + 1 < parts.len() {
        match push_step(demands, parts[at as usize], array + (at - 1), places) {
            Ok(()) => {}
            Err(error) => return Err(error),
        }
        at += 1;
    }
    push_demand(demands, Demand::Same(parts[at as usize], array + (at - 1)))
}

// The type of a function of parameters is a node, that of what is left behind the first of them the next, ..
pub fn push_function(
    demands: &mut List<Demand>,
    params: &[u32],
    body: u32,
    from: u32,
) -> Result<(), UnifyErr>
    requires { from + length params.now < 4294967295 }
    ensures ok { OnOk result (demands.new ≡ demands.old ++ function_demands params.now body from) }
    ensures err { IfErr result (Tells ⊥) }
{
    let mut at: u32 = 0;
    while (at as usize) < params.len() {
        match push_demand(
            demands,
            Demand::Fun(from + at, params[at as usize], from + at + 1),
        ) {
            Ok(()) => {}
            Err(error) => return Err(error),
        }
        at += 1;
    }
    push_demand(demands, Demand::Same(from + at, body))
}

/// Whether an index with these parts has so many bounds.
pub fn takes(parts: &[Part], count: usize) -> bool
    ensures { IsTrue result ↔ (count ≡ bounds parts.now) }
{
    let mut left = count;
    let mut at = 0;
    while at < parts.len() {
        let wanted = wants(parts[at]);
        if left < wanted {
            return false;
        }
        left -= wanted;
        at += 1;
    }
    left == 0
}

fn wants(part: Part) -> usize
    ensures small { result ≤ 2 }
    ensures is { result ≡ bounds (part ∷ []) }
{
    match part {
        Part::At => 1,
        Part::Slice { from, to } => (from as usize) + (to as usize),
        Part::Backwards => 0,
    }
}
