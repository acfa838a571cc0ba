// The types that a solved graph gives its nodes.
//
// A node's type is read from its form, down to the free nodes, which are the variables of the types (`specs/Resolving.antt`).
// Each node has a type unless one is a part of itself, and then the types are principal: each solution is an instance of them.
// A node that is open stands for itself, as a variable with named parts.
ghost use Rattle.std.specs.Prelude.{◌≡◌, ◌<◌, ◌++◌, ◌∷◌, ℕ, length, OnOk, IfOk, IfErr, true, false, []};
ghost use Rattle.type_graph.specs.declared.UnifyErr.TheVariants as err;
ghost use Rattle.type_graph.specs.Graph.{IsGraph, Tells, Tables, far, Meeting};
ghost use Rattle.type_graph.specs.State.{State, Backed};
ghost use Rattle.fut_types.specs.declared.Kind.{Kind as TheKind};
ghost use Rattle.type_graph.specs.Resolving.{Placed, Unsolvable, SettledIn, FoundedIn, Walked, mark_at, with_mark, Laws};
ghost use Rattle.type_graph.specs.Walking.{Underway, Splits, Goes, step_of};
ghost use Rattle.type_graph.specs.Filling.{Fills};
ghost use Rattle.type_graph.specs.Rereading.{Bears_it, Deeper, Left, Rereads};
ghost use Rattle.type_graph.specs.declared.resolving.Mark.TheVariants as mark;

use crate::{Entry, Form, Node, UnifyErr, entry_of, find, node_of};
use fut_scalar::{List, NoMemory};
use std::alloc::Global;

/// How far the walk has come with a node: not seen, on the way to its parts, or done.
#[derive(Clone, Copy)]
pub enum Mark {
    White,
    Open,
    Done,
}

/// A root whose parts are gone over, and what is left of them, as the parts of a form.
#[derive(Clone, Copy)]
pub struct Step {
    pub root: u32,
    pub left: Form,
}

#[tactic(auto, unfolding(crate::specs::Resolving::mark_at))]
fn mark_of(marks: &List<Mark>, number: u32) -> Mark
    requires { number < length marks.now }
    ensures { result ≡ mark_at marks.now number }
{
    marks.as_slice()[number as usize]
}

#[tactic(auto, unfolding(crate::specs::Resolving::with_mark))]
fn set_mark(marks: &mut List<Mark>, number: u32, mark: Mark)
    requires { number < length marks.old }
    ensures { marks.new ≡ with_mark marks.old number mark }
{
    marks.set(number as usize, mark);
}

// A root is open from now on, and all of its parts are left.
fn open(
    nodes: &List<Node>,
    marks: &mut List<Mark>,
    steps: &mut List<Step>,
    root: u32,
) -> Result<(), NoMemory>
    requires root { root < length nodes.now }
    requires long { length marks.old ≡ length nodes.now }
    ensures marks { marks.new ≡ with_mark marks.old root mark.Open }
    ensures steps { OnOk result (steps.new ≡ steps.old ++ step_of nodes.now root ∷ []) }
{
    set_mark(marks, root, Mark::Open);
    let left = node_of(nodes, root).form;
    steps.push(Step { root, left })
}

// Looks at the first part that is left of the last step, and goes over its type first where that is not done.
fn look(
    nodes: &List<Node>,
    entries: &List<Entry>,
    marks: &mut List<Mark>,
    steps: &mut List<Step>,
    step: Step,
    child: u32,
    after: Form,
) -> Result<(), UnifyErr>
    requires placed { Placed nodes.now entries.now }
    requires underway { Underway nodes.now entries.now marks.old (steps.old ++ step ∷ []) }
    requires splits { Splits nodes.now entries.now step.left child after }
    ensures ok { OnOk result (Goes nodes.now entries.now marks.old (steps.old ++ step ∷ []) marks.new steps.new) }
    ensures err { IfErr result (Tells (Unsolvable nodes.now entries.now)) }
{
    let root = find(nodes, child);
    match mark_of(marks, root) {
        Mark::Open => return Err(UnifyErr::Infinite(root)),
        Mark::Done => {
            let root = step.root;
            steps.push(Step { root, left: after })?;
        }
        Mark::White => {
            steps.push(step)?;
            open(nodes, marks, steps, root)?;
        }
    }
    Ok(())
}

// A root whose parts are done is done.
fn leave(marks: &mut List<Mark>, root: u32) -> Result<(), UnifyErr>
    requires { root < length marks.old }
    ensures marks { marks.new ≡ with_mark marks.old root mark.Done }
    ensures err { IfErr result (Tells ⊥) }
{
    set_mark(marks, root, Mark::Done);
    Ok(())
}

// Goes on with the last step, which was taken off. It stays off if no part is left.
fn go_on(
    nodes: &List<Node>,
    entries: &List<Entry>,
    marks: &mut List<Mark>,
    steps: &mut List<Step>,
    step: Step,
) -> Result<(), UnifyErr>
    requires placed { Placed nodes.now entries.now }
    requires underway { Underway nodes.now entries.now marks.old (steps.old ++ step ∷ []) }
    ensures ok { OnOk result (Goes nodes.now entries.now marks.old (steps.old ++ step ∷ []) marks.new steps.new) }
    ensures err { IfErr result (Tells (Unsolvable nodes.now entries.now)) }
{
    match step.left {
        Form::Free | Form::Link(_) => leave(marks, step.root),
        Form::Made(head, at, count) => {
            if count == 0 {
                return leave(marks, step.root);
            }
            let after = Form::Made(head, at + 1, count - 1);
            look(nodes, entries, marks, steps, step, at, after)
        }
        Form::Open(start, count) => {
            if count == 0 {
                return leave(marks, step.root);
            }
            let entry = entry_of(entries, start);
            let after = Form::Open(entry.next, count - 1);
            look(nodes, entries, marks, steps, step, entry.child, after)
        }
    }
}

// Goes over a node's type, and refuses a type that is a part of itself.
fn visit(
    nodes: &List<Node>,
    entries: &List<Entry>,
    marks: &mut List<Mark>,
    steps: &mut List<Step>,
    start: u32,
) -> Result<(), UnifyErr>
    requires placed { Placed nodes.now entries.now }
    requires start { start < length nodes.now }
    requires empty { steps.old ≡ [] }
    requires underway { Underway nodes.now entries.now marks.old [] }
    ensures empty { OnOk result (steps.new ≡ []) }
    ensures underway { OnOk result (Underway nodes.now entries.now marks.new []) }
    ensures here { OnOk result (Walked nodes.now entries.now start) }
    ensures err { IfErr result (Tells (Unsolvable nodes.now entries.now)) }
{
    let root = find(nodes, start);
    if let Mark::White = mark_of(marks, root) {
        open(nodes, marks, steps, root)?;
    }
    while let Some(step) = steps.pop() {
        match go_on(nodes, entries, marks, steps, step) {
            Ok(()) => {}
            Err(error) => return Err(error),
        }
    }
    Ok(())
}

// All nodes are white.
fn white_marks(alloc: Global, count: usize) -> Result<List<Mark>, UnifyErr>
    ensures long { IfOk result (λ marks. length marks ≡ count) }
    ensures white { IfOk result (λ marks. (i : ℕ) → mark_at marks i ≡ mark.White) }
    ensures err { IfErr result (λ e. e ≡ err.Memory) }
{
    let mut marks = List::new(alloc);
    let mut at = 0;
    while at < count {
        marks.push(Mark::White)?;
        at += 1;
    }
    Ok(marks)
}

/// Whether each node has a type.
///
/// `Err`: a type would be a part of itself, so no types solve the graph, or memory ran out. The cost is linear.
pub fn resolve(alloc: Global, nodes: &List<Node>, entries: &List<Entry>) -> Result<(), UnifyErr>
    requires placed { Placed nodes.now entries.now }
    ensures ok { OnOk result ((i : ℕ) → i < length nodes.now → SettledIn nodes.now i) }
    ensures founded { OnOk result ((i : ℕ) → i < length nodes.now → FoundedIn nodes.now entries.now i) }
    ensures err { IfErr result (Tells (Unsolvable nodes.now entries.now)) }
{
    let mut marks = white_marks(alloc, nodes.len())?;
    let mut steps = List::new(alloc);
    let mut at = 0;
    while at < nodes.len() {
        match visit(nodes, entries, &mut marks, &mut steps, at as u32) {
            Ok(()) => {}
            Err(error) => return Err(error.told_of(at as u32)),
        }
        at += 1;
    }
    Ok(())
}

/// Where each node of a graph has a type, these types are principal.
pub fn settled_types_are_principal()
    ensures { Laws }
{}

/// A solution stays one, but for what lies deeper, where type parameters of which all nodes lie deeper are read otherwise.
pub fn parameters_may_be_read_otherwise()
    ensures { Rereads }
{}

/// Whether a type parameter's type is fixed by what stands at a depth or outside, where `at` is the node that stands for it.
///
/// If it is not, it may be read otherwise while what stands there keeps its types. If it is, it may not.
pub fn is_fixed(nodes: &List<Node>, at: u32, depth: u32) -> bool
    requires graph { IsGraph nodes.now }
    requires at { at < length nodes.now }
    ensures deeper { result ≡ false → (T : Tables) (home : ℕ → ℕ) (base n : ℕ) → State T home base nodes.now [] → T.seat n ≡ at → Deeper nodes.now n depth }
    ensures left { result ≡ true → depth < far → (T : Tables) (home born : ℕ → ℕ) (n : ℕ) (k : TheKind) → Backed (Meeting T nodes.now []) home born nodes.now [] → Bears_it T nodes.now at n k → Left T home born nodes.now depth n k }
{
    let root = find(nodes, at);
    node_of(nodes, root).level <= depth
}

/// A graph that resolves has a solution for any types of its free nodes, of their kinds, if there are records with all names.
pub fn settled_graphs_have_solutions()
    ensures { Fills }
{}
