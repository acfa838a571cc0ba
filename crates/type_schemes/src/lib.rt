//! The types of definitions that may be used at several types: copied once where a definition ends, and used.
//!
//! A copy goes part by part into a store. What lies at the depth outside the definition or below is shared with the graph, and
//! what is shared in the graph stays shared in the copy, so a copy has the size of the graph and not of the tree. A use makes
//! a free node for each part of the copy and asks of them what the parts say; it costs the size of the copy.
//!
//! The theorem is [`instances_are_exact`]: the instances of a copy are exactly the types that the definition may have while
//! all outside it keeps its type. [`definitions_are_generalised`] ties it to the definition of typing (`specs/Uses.antt`).
//! Begin at [`scheme`], which makes a copy (`specs/Schemes.antt`), and [`instance`], which uses it (`specs/Instances.antt`).
#![tactic(auto)]

ghost use Rattle.std.specs.Prelude.{◌≡◌, ◌<◌, ◌≤◌, ◌+◌, ◌++◌, ◌∷◌, [], ◌↔◌, length, true, false, IsTrue, OnOk, IfOk, IfErr};
ghost use Rattle.type_graph.specs.Graph.{IsGraph, Tells};
ghost use Rattle.type_graph.specs.Resolving.{Placed};
ghost use Rattle.type_schemes.specs.Schemes.{part_at, with_part, memo_at, with_memo, definition, Entries, FormWithin, IsForeign, IsOurs, copy_kind, form_copy, next_to, no_label, child_at, label_at, child_number, child_label, child_count, head_count, Copied, Partial, Entered, Copies, Extends, Opened, Filled, Law};

mod instances;
mod uses;

use fut_scalar::List;
use fut_types::{Head, Kind};
pub use instances::instance;
use type_graph::{Entry, Form, Node, UnifyErr, entry_of, find, node_of};
pub use uses::definitions_are_generalised;

/// The types of all definitions have no more parts than this: more is want of memory, before the machine is full.
pub const MOST_PARTS: usize = 16777216;

/// What a part of a definition's type is.
#[derive(Clone, Copy)]
pub enum PartForm {
    /// A variable that each use chooses anew.
    Free,
    /// The type of a node outside the definition.
    Shared(u32),
    /// The same as an earlier part.
    Again(u32),
    /// Made by a head of the parts in a row, from the first on, as many as counted.
    Made(Head, u32, u32),
    /// It has the parts in a row, each under its label, from the first on, as many as counted.
    Open(u32, u32),
}

/// A part of the type of a definition: its kind, the node that it copies, and its label where it is a named part.
#[derive(Clone, Copy)]
pub struct Part {
    pub kind: Kind,
    pub source: u32,
    pub label: u32,
    pub form: PartForm,
}

#[tactic(auto, unfolding(crate::specs::Schemes::part_at))]
pub fn part_of(store: &List<Part>, number: u32) -> Part
    requires { number < length store.now }
    ensures { result ≡ part_at store.now number }
{
    store.as_slice()[number as usize]
}

#[tactic(auto, unfolding(crate::specs::Schemes::with_part))]
fn set_part(store: &mut List<Part>, number: u32, part: Part)
    requires { number < length store.old }
    ensures { store.new ≡ with_part store.old number part }
{
    store.set(number as usize, part);
}

#[tactic(auto, unfolding(crate::specs::Schemes::memo_at))]
fn memo_of(memo: &List<u32>, number: u32) -> u32
    requires { number < length memo.now }
    ensures { result ≡ memo_at memo.now number }
{
    memo.as_slice()[number as usize]
}

#[tactic(auto, unfolding(crate::specs::Schemes::with_memo))]
fn set_memo(memo: &mut List<u32>, number: u32, place: u32)
    requires { number < length memo.old }
    ensures { memo.new ≡ with_memo memo.old number place }
{
    memo.set(number as usize, place);
}

fn push_part(store: &mut List<Part>, part: Part) -> Result<(), UnifyErr>
    ensures ok { OnOk result (store.new ≡ store.old ++ part ∷ []) }
    ensures err { IfErr result (Tells ⊥) }
{
    match store.push(part) {
        Ok(()) => Ok(()),
        Err(_) => Err(UnifyErr::Memory),
    }
}

// Whether this part is the copy of a node.
fn is_copied(store: &List<Part>, first: u32, place: u32, source: u32) -> bool
    requires { length store.now < 4294967295 }
    ensures { IsTrue result ↔ Copied store.now first (length store.now) place source }
{
    if place < first {
        return false;
    }
    if place as usize >= store.len() {
        return false;
    }
    let part = part_of(store, place);
    if part.source != source {
        return false;
    }
    match part.form {
        PartForm::Free => true,
        PartForm::Shared(_) => false,
        PartForm::Again(_) => false,
        PartForm::Made(_, _, _) => true,
        PartForm::Open(_, _) => true,
    }
}

// Whether a form is that of a type parameter that is not one of these.
fn is_foreign(own: &[u32], form: Form) -> bool
    ensures foreign { result ≡ true → IsForeign own.now form }
    ensures ours { result ≡ false → IsOurs own.now form }
{
    match form {
        Form::Made(Head::Rigid(number, _), _, _) => !own.contains(&number),
        _ => false,
    }
}

// The kind of a node's copy. That of a type parameter has all types of the parameter's kind.
fn kind_of(node: Node) -> Kind
    ensures { result ≡ copy_kind node }
{
    match node.form {
        Form::Made(Head::Rigid(_, kind), _, _) => kind,
        _ => node.kind,
    }
}

// Adds a part for a node.
fn enter(
    nodes: &List<Node>,
    store: &mut List<Part>,
    memo: &mut List<u32>,
    own: &[u32],
    first: u32,
    depth: u32,
    label: u32,
    number: u32,
) -> Result<(), UnifyErr>
    requires graph { IsGraph nodes.now }
    requires number { number < length nodes.now }
    requires memo { length nodes.now ≤ length memo.old }
    requires first { first ≤ length store.old }
    ensures ok { OnOk result ((entries : Entries) → Entered (definition nodes.now entries own.now depth) store.old memo.old first label number store.new memo.new) }
    ensures err { IfErr result (Tells ⊥) }
{
    let at = store.len();
    if at >= MOST_PARTS {
        return Err(UnifyErr::Memory);
    }
    let root = find(nodes, number);
    let node = node_of(nodes, root);
    if node.level <= depth || is_foreign(own, node.form) {
        return push_part(
            store,
            Part {
                kind: Kind::Any,
                source: root,
                label,
                form: PartForm::Shared(root),
            },
        );
    }
    let place = memo_of(memo, root);
    if is_copied(store, first, place, root) {
        return push_part(
            store,
            Part {
                kind: Kind::Any,
                source: root,
                label,
                form: PartForm::Again(place),
            },
        );
    }
    set_memo(memo, root, at as u32);
    push_part(
        store,
        Part {
            kind: kind_of(node),
            source: root,
            label,
            form: PartForm::Free,
        },
    )
}

// Adds a part for each node of a row.
fn enter_row(
    nodes: &List<Node>,
    store: &mut List<Part>,
    memo: &mut List<u32>,
    own: &[u32],
    first: u32,
    depth: u32,
    row: u32,
    count: u32,
) -> Result<(), UnifyErr>
    requires graph { IsGraph nodes.now }
    requires row { row + count ≤ length nodes.now }
    requires memo { length nodes.now ≤ length memo.old }
    requires first { first ≤ length store.old }
    ensures ok { OnOk result ((entries : Entries) → Opened (definition nodes.now entries own.now depth) store.old memo.old first (next_to row) no_label count store.new memo.new) }
    ensures err { IfErr result (Tells ⊥) }
{
    let mut at = 0;
    while at < count {
        match enter(nodes, store, memo, own, first, depth, 0, row + at) {
            Ok(()) => {}
            Err(error) => return Err(error),
        }
        at += 1;
    }
    Ok(())
}

// Adds a part for each named part of a chain.
fn enter_chain(
    nodes: &List<Node>,
    entries: &List<Entry>,
    store: &mut List<Part>,
    memo: &mut List<u32>,
    own: &[u32],
    first: u32,
    depth: u32,
    start: u32,
    count: u32,
) -> Result<(), UnifyErr>
    requires placed { Placed nodes.now entries.now }
    requires start { start < length entries.now }
    requires memo { length nodes.now ≤ length memo.old }
    requires first { first ≤ length store.old }
    ensures ok { OnOk result (Opened (definition nodes.now entries.now own.now depth) store.old memo.old first (child_at entries.now start) (label_at entries.now start) count store.new memo.new) }
    ensures err { IfErr result (Tells ⊥) }
{
    let mut place = start;
    let mut at = 0;
    while at < count {
        let entry = entry_of(entries, place);
        match enter(
            nodes,
            store,
            memo,
            own,
            first,
            depth,
            entry.label,
            entry.child,
        ) {
            Ok(()) => {}
            Err(error) => return Err(error),
        }
        place = entry.next;
        at += 1;
    }
    Ok(())
}

// How many parts of a type are copied: a type parameter has none.
fn count_of(head: Head, count: u32) -> u32
    ensures { result ≡ head_count head count }
{
    match head {
        Head::Rigid(_, _) => 0,
        _ => count,
    }
}

// Adds a part for each part of a type of this form.
fn enter_parts(
    nodes: &List<Node>,
    entries: &List<Entry>,
    store: &mut List<Part>,
    memo: &mut List<u32>,
    own: &[u32],
    first: u32,
    depth: u32,
    form: Form,
) -> Result<(), UnifyErr>
    requires placed { Placed nodes.now entries.now }
    requires form { FormWithin (length nodes.now) (length entries.now) form }
    requires memo { length nodes.now ≤ length memo.old }
    requires first { first ≤ length store.old }
    ensures ok { OnOk result (Opened (definition nodes.now entries.now own.now depth) store.old memo.old first (child_number entries.now form) (child_label entries.now form) (child_count form) store.new memo.new) }
    ensures err { IfErr result (Tells ⊥) }
{
    match form {
        Form::Free | Form::Link(_) => Ok(()),
        Form::Made(head, row, count) => {
            let parts = count_of(head, count);
            enter_row(nodes, store, memo, own, first, depth, row, parts)
        }
        Form::Open(start, count) => {
            enter_chain(nodes, entries, store, memo, own, first, depth, start, count)
        }
    }
}

// What a copy of a type of this form is, with its parts from this one on.
fn copy_of(form: Form, parts: u32) -> PartForm
    ensures { result ≡ form_copy form parts }
{
    match form {
        Form::Free | Form::Link(_) => PartForm::Free,
        Form::Made(Head::Rigid(_, _), _, _) => PartForm::Free,
        Form::Made(head, _, count) => PartForm::Made(head, parts, count),
        Form::Open(_, count) => PartForm::Open(parts, count),
    }
}

// Gives a part its children.
fn fill(
    nodes: &List<Node>,
    entries: &List<Entry>,
    store: &mut List<Part>,
    memo: &mut List<u32>,
    own: &[u32],
    first: u32,
    depth: u32,
    at: u32,
) -> Result<(), UnifyErr>
    requires placed { Placed nodes.now entries.now }
    requires memo { length nodes.now ≤ length memo.old }
    requires first { first ≤ at }
    requires at { at < length store.old }
    requires short { length store.old < 4294967295 }
    requires parts { Partial (definition nodes.now entries.now own.now depth) store.old first (length store.old) (memo_at memo.old) at }
    ensures ok { OnOk result (Filled (definition nodes.now entries.now own.now depth) store.old memo.old first at store.new memo.new) }
    ensures err { IfErr result (Tells ⊥) }
{
    let part = part_of(store, at);
    if let PartForm::Free = part.form {
        let form = node_of(nodes, part.source).form;
        let parts = store.len() as u32;
        match enter_parts(nodes, entries, store, memo, own, first, depth, form) {
            Ok(()) => {}
            Err(error) => return Err(error),
        }
        set_part(
            store,
            at,
            Part {
                kind: part.kind,
                source: part.source,
                label: part.label,
                form: copy_of(form, parts),
            },
        );
    }
    Ok(())
}

// A place for each node.
fn grow_memo(memo: &mut List<u32>, count: usize) -> Result<(), UnifyErr>
    ensures ok { OnOk result (count ≤ length memo.new) }
    ensures err { IfErr result (Tells ⊥) }
{
    while memo.len() < count {
        match memo.push(0) {
            Ok(()) => {}
            Err(_) => return Err(UnifyErr::Memory),
        }
    }
    Ok(())
}

/// Copies the type of a node, but for what is of this depth or below.
///
/// `own` has the numbers of the type parameters that the definition writes; the other type parameters are outside it. The
/// answer is the number of parts, which stand behind those that the store has. `memo` has a place for each node and needs no
/// clearing.
pub fn scheme(
    nodes: &List<Node>,
    entries: &List<Entry>,
    store: &mut List<Part>,
    memo: &mut List<u32>,
    own: &[u32],
    root: u32,
    depth: u32,
) -> Result<u32, UnifyErr>
    requires placed { Placed nodes.now entries.now }
    requires root { root < length nodes.now }
    ensures ok { IfOk result (λ count. Copies (definition nodes.now entries.now own.now depth) store.new (length store.old) count root) }
    ensures store { OnOk result (Extends store.old store.new) }
    ensures long { IfOk result (λ count. length store.new ≡ length store.old + count) }
    ensures short { OnOk result (length store.new < 4294967295) }
    ensures err { IfErr result (Tells ⊥) }
{
    match grow_memo(memo, nodes.len()) {
        Ok(()) => {}
        Err(error) => return Err(error),
    }
    if store.len() >= 4294967294 {
        return Err(UnifyErr::Memory);
    }
    let first = store.len() as u32;
    match enter(nodes, store, memo, own, first, depth, 0, root) {
        Ok(()) => {}
        Err(error) => return Err(error),
    }
    let mut at = first;
    while (at as usize) < store.len() {
        if at >= 4294967293 {
            return Err(UnifyErr::Memory);
        }
        match fill(nodes, entries, store, memo, own, first, depth, at) {
            Ok(()) => {}
            Err(error) => return Err(error),
        }
        at += 1;
    }
    Ok(at - first)
}

/// The instances of a copy are the types that the node may have while what is of the depth or below keeps its type.
pub fn instances_are_exact()
    ensures { Law }
{}
