// What inference begins with.
ghost use Rattle.std.specs.Prelude.{◌≡◌, ◌<◌, ◌≤◌, ℕ, length, map, OnOk, IfOk, IfErr};
ghost use Rattle.type_graph.specs.Graph.{Tells, far};
ghost use Rattle.type_rules.specs.Labels.{IsLabels};
ghost use Rattle.type_scopes.specs.Table.{IsSeated, known_at};
ghost use Rattle.type_scopes.specs.declared.names.Known.TheVariants as known;
ghost use Rattle.type_infer.specs.Graphs.{Begun, base_node, home_at};

use fut_scalar::List;
use fut_types::Kind;
use std::alloc::Global;
use type_graph::{FAR, Form, Node, UnifyErr};
use type_rules::{no_labels, no_shapes};
use type_scopes::{Inference, Known, Seat};

/// An inference of nothing: no name or record has a number.
pub fn new_inference<'a>(alloc: Global) -> Inference<'a>
    ensures { IsLabels result.labels result.table }
{
    Inference {
        labels: no_labels(alloc),
        table: no_shapes(alloc),
        nodes: List::new(alloc),
        entries: List::new(alloc),
        store: List::new(alloc),
        memo: List::new(alloc),
        names: List::new(alloc),
        past: List::new(alloc),
        seats: List::new(alloc),
    }
}

// A node for each number, at its home.
fn base_nodes(alloc: Global, homes: &List<u32>) -> Result<List<Node>, UnifyErr>
    ensures ok { IfOk result (λ nodes. nodes ≡ map base_node homes.now) }
    ensures near { OnOk result ((n : ℕ) → n < length homes.now → home_at homes.now n ≤ far) }
    ensures err { IfErr result (Tells ⊥) }
{
    let mut nodes = List::new(alloc);
    let mut at = 0;
    while at < homes.len() {
        let node = Node {
            kind: Kind::Any,
            level: homes.as_slice()[at],
            form: Form::Free,
        };
        match nodes.push(node) {
            Ok(()) => {}
            Err(_) => return Err(UnifyErr::Memory),
        }
        at += 1;
    }
    Ok(nodes)
}

// No name is in scope.
fn no_names(alloc: Global, count: usize) -> Result<List<Known>, UnifyErr>
    ensures ok { IfOk result (λ names. (b : ℕ) → known_at names b ≡ known.Nothing) }
    ensures err { IfErr result (Tells ⊥) }
{
    let mut names = List::new(alloc);
    let mut at = 0;
    while at < count {
        match names.push(Known::Nothing) {
            Ok(()) => {}
            Err(_) => return Err(UnifyErr::Memory),
        }
        at += 1;
    }
    Ok(names)
}

// No type parameter was met.
fn no_seats(alloc: Global, count: usize) -> Result<List<Seat>, UnifyErr>
    ensures ok { IfOk result (λ seats. (n : ℕ) → IsSeated seats n → ⊥) }
    ensures err { IfErr result (Tells ⊥) }
{
    let mut seats = List::new(alloc);
    let mut at = 0;
    while at < count {
        match seats.push(Seat {
            node: FAR,
            depth: 0,
        }) {
            Ok(()) => {}
            Err(_) => return Err(UnifyErr::Memory),
        }
        at += 1;
    }
    Ok(seats)
}

/// Forgets all but the table of labels: a free node for each number of the program, at its home, and no name in scope.
pub fn begin(
    alloc: Global,
    homes: &List<u32>,
    names: usize,
    inference: &mut Inference<'_>,
) -> Result<(), UnifyErr>
    ensures ok { OnOk result (Begun homes.now inference.old inference.new) }
    ensures err { IfErr result (Tells ⊥) }
{
    let nodes = match base_nodes(alloc, homes) {
        Ok(nodes) => nodes,
        Err(error) => return Err(error),
    };
    let known = match no_names(alloc, names) {
        Ok(known) => known,
        Err(error) => return Err(error),
    };
    let seats = match no_seats(alloc, names) {
        Ok(seats) => seats,
        Err(error) => return Err(error),
    };
    inference.nodes = nodes;
    inference.seats = seats;
    inference.names = known;
    inference.entries = List::new(alloc);
    inference.store = List::new(alloc);
    inference.memo = List::new(alloc);
    inference.past = List::new(alloc);
    Ok(())
}
