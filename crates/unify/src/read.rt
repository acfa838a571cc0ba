// The substitution that a graph is.
ghost use Rattle.std.specs.Prelude.{◌≡◌, ◌<◌, ◌+◌, ◌^◌, ◌++◌, ◌∷◌, [], length, OnOk, IfOk, IfErr};
ghost use Rattle.type_graph.specs.Graph.{Closed, Starts, Tells};
ghost use Rattle.type_graph.specs.Resolving.{Placed};
ghost use Rattle.unify.specs.Reading.{HasRow, variables, chain_of, known_of, bind_of, answer};

use crate::{Known, Subst, Ty};
use fut_scalar::List;
use std::alloc::Global;
use type_graph::{Entry, Form, Node, UnifyErr, entry_of, node_of};

fn row_of_variables(alloc: Global, first: u32, count: u32) -> Result<List<Ty>, UnifyErr>
    requires { first + count < 2 ^ 32 }
    ensures ok { IfOk result (λ row. row ≡ variables first count) }
    ensures err { IfErr result (Tells ⊥) }
{
    let mut row = List::new(alloc);
    let mut at = 0;
    while at < count {
        match row.push(Ty::Var(first + at)) {
            Ok(()) => {}
            Err(_) => return Err(UnifyErr::Memory),
        }
        at += 1;
    }
    Ok(row)
}

fn chain_parts(
    alloc: Global,
    entries: &List<Entry>,
    start: u32,
    count: u32,
) -> Result<List<(u32, Ty)>, UnifyErr>
    requires closed { Closed entries.now }
    requires start { start < length entries.now }
    ensures ok { IfOk result (λ parts. parts ≡ chain_of entries.now start count) }
    ensures err { IfErr result (Tells ⊥) }
{
    let mut parts = List::new(alloc);
    let mut at = start;
    let mut rest = count;
    while rest > 0 {
        let entry = entry_of(entries, at);
        match parts.push((entry.label, Ty::Var(entry.child))) {
            Ok(()) => {}
            Err(_) => return Err(UnifyErr::Memory),
        }
        at = entry.next;
        rest -= 1;
    }
    Ok(parts)
}

fn known_part(alloc: Global, entries: &List<Entry>, node: Node) -> Result<Known, UnifyErr>
    requires closed { Closed entries.now }
    requires open { Starts (length entries.now) node.form }
    ensures ok { IfOk result (λ known. known ≡ known_of entries.now node) }
    ensures err { IfErr result (Tells ⊥) }
{
    let parts = match node.form {
        Form::Open(start, count) => match chain_parts(alloc, entries, start, count) {
            Ok(parts) => parts,
            Err(error) => return Err(error),
        },
        _ => List::new(alloc),
    };
    Ok(Known {
        kind: node.kind,
        parts,
    })
}

// What a node's form says of its type.
fn push_bind(
    alloc: Global,
    binds: &mut List<(u32, Ty)>,
    number: u32,
    node: Node,
) -> Result<(), UnifyErr>
    requires { HasRow node.form }
    ensures ok { OnOk result (binds.new ≡ binds.old ++ bind_of number node.form) }
    ensures err { IfErr result (Tells ⊥) }
{
    let tree = match node.form {
        Form::Free | Form::Open(_, _) => return Ok(()),
        Form::Link(to) => Ty::Var(to),
        Form::Made(head, first, count) => match row_of_variables(alloc, first, count) {
            Ok(parts) => Ty::Made(head, parts),
            Err(error) => return Err(error),
        },
    };
    match binds.push((number, tree)) {
        Ok(()) => Ok(()),
        Err(_) => Err(UnifyErr::Memory),
    }
}

// One variable more: that of a node.
fn read_node(
    alloc: Global,
    entries: &List<Entry>,
    subst: &mut Subst,
    number: u32,
    node: Node,
) -> Result<(), UnifyErr>
    requires closed { Closed entries.now }
    requires starts { Starts (length entries.now) node.form }
    ensures known { OnOk result (subst.new.known ≡ subst.old.known ++ known_of entries.now node ∷ []) }
    ensures binds { OnOk result (subst.new.binds ≡ subst.old.binds ++ bind_of number node.form) }
    ensures err { IfErr result (Tells ⊥) }
{
    let known = match known_part(alloc, entries, node) {
        Ok(known) => known,
        Err(error) => return Err(error),
    };
    match subst.known.push(known) {
        Ok(()) => push_bind(alloc, &mut subst.binds, number, node),
        Err(_) => Err(UnifyErr::Memory),
    }
}

// The substitution in which each node is a variable.
pub fn read_back(
    alloc: Global,
    nodes: &List<Node>,
    entries: &List<Entry>,
) -> Result<Subst, UnifyErr>
    requires { Placed nodes.now entries.now }
    ensures ok { IfOk result (λ s. s ≡ answer nodes.now entries.now) }
    ensures err { IfErr result (Tells ⊥) }
{
    let mut subst = Subst {
        known: List::new(alloc),
        binds: List::new(alloc),
    };
    let mut at = 0;
    while at < nodes.len() {
        match read_node(
            alloc,
            entries,
            &mut subst,
            at as u32,
            node_of(nodes, at as u32),
        ) {
            Ok(()) => {}
            Err(error) => return Err(error),
        }
        at += 1;
    }
    Ok(subst)
}
