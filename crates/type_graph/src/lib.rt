//! Types as a graph of numbered nodes: unification on it, the types that it gives, and what a program's nodes are asked for.
//!
//! A node is free, a link to a node of a smaller number, made by a head of a row of nodes, or open: then it has certain named
//! parts, and what it is made by is not known yet. Every node has a kind and a level: the depth of nested generalised
//! definitions at which its type is fixed (`specs/State.antt`). A type parameter that the program writes is a head without
//! parts. What is said of solutions holds however type parameters are read; a refusal says that there is none where each
//! stands for itself.
//!
//! [`solve`] brings about that nodes are equal, have a kind, or have a named part, and keeps all solutions
//! (`specs/Graph.antt`). Roots are found by links that are halved on the way. A kind rises at most four times and a level
//! falls at most once a depth. A part that is asked of an open node costs the number of its distinct labels, of a record the
//! logarithm of that of its fields.
//!
//! [`resolve`] gives the types of a solved graph, where it settles: a node's type is read from its form, down to the free and
//! the open nodes, which are the variables of the types (`specs/Resolving.antt`). Each node has a type unless one is a part of
//! itself, and then the types are principal: each solution is an instance of them ([`settled_types_are_principal`]).
//!
//! Inference asks by the calls of `claims.rt`. The program's nodes stand first, up to a base; a claim may add nodes of its own
//! behind them. Contracts speak of the types of the program's nodes alone: which of them can be carried on to all nodes
//! (`specs/Claims.antt`).
#![tactic(auto)]

ghost use Rattle.std.specs.Prelude.{◌≡◌, ◌<◌, OnOk, IfErr, length};
ghost use Rattle.type_graph.specs.Graph.{IsGraph, IsBound, AreEntries, IsTask, Each, Tables, Told, Solved, Grows, Kept, Unmet, Tells};
ghost use Rattle.type_graph.specs.Refusals.{Same_reason};
ghost use Rattle.fut_types.specs.Shapes.{IsTable};

mod claims;
mod levels;
mod parts;
mod resolving;
mod roots;
mod steps;
mod tasks;

pub use claims::{
    MOST_NODES, assert_made, assert_parameter, assert_task, push_node, push_parameter,
};
use fut_scalar::{List, NoMemory};
use fut_types::{Head, Kind, ShapeTable};
pub use resolving::{
    Mark, Step, is_fixed, parameters_may_be_read_otherwise, resolve, settled_graphs_have_solutions,
    settled_types_are_principal,
};
pub use roots::{find, node_of, put};
use steps::step;
pub use tasks::entry_of;

/// The level of a node that nothing outside a definition has touched.
pub const FAR: u32 = 4294967295;

/// What is known of a type.
#[derive(Clone, Copy)]
pub enum Form {
    /// Nothing.
    Free,
    /// It is that of a node with a smaller number.
    Link(u32),
    /// It is made by a head of the nodes in a row, from the first on, as many as counted.
    Made(Head, u32, u32),
    /// It has the named parts of a chain of entries, from this one on, as many as counted.
    Open(u32, u32),
}

/// A type, as far as it is known.
#[derive(Clone, Copy)]
pub struct Node {
    pub kind: Kind,
    pub level: u32,
    pub form: Form,
}

/// A named part in a chain: its label, the node of its type, and the next entry.
#[derive(Clone, Copy)]
pub struct Entry {
    pub label: u32,
    pub child: u32,
    pub next: u32,
}

/// What is to be brought about.
#[derive(Clone, Copy)]
pub enum Task {
    /// Two nodes have the same type.
    Same(u32, u32),
    /// A node's type is of a kind, and its level at most this.
    Has(u32, Kind, u32),
    /// A node's type has the part with this label, and it is that of another node.
    Part(u32, u32, u32),
}

/// Why no types solve a graph.
#[derive(Clone, Copy)]
pub enum UnifyErr {
    /// The types of the two nodes differ.
    Clash(u32, u32),
    /// The node's type is not of the kind.
    BadKind(u32, Kind),
    /// The node's type would be a part of itself.
    Infinite(u32),
    Memory,
}

impl From<NoMemory> for UnifyErr {
    ghost use Rattle.type_graph.specs.declared.UnifyErr.TheVariants.{Memory};

    ghost from_gives = { λ _ e. e ≡ Memory };

    fn from(_error: NoMemory) -> UnifyErr {
        UnifyErr::Memory
    }
}

impl UnifyErr {
    /// The same refusal, told of this node.
    pub fn told_of(self, node: u32) -> UnifyErr
        ensures { Same_reason self result }
    {
        match self {
            UnifyErr::Clash(_, other) => UnifyErr::Clash(node, other),
            UnifyErr::BadKind(_, kind) => UnifyErr::BadKind(node, kind),
            UnifyErr::Infinite(_) => UnifyErr::Infinite(node),
            UnifyErr::Memory => UnifyErr::Memory,
        }
    }
}

/// Brings about all tasks.
///
/// `Err`: no types solve the graph and bring them about, or memory ran out.
pub fn solve(
    table: &ShapeTable,
    nodes: &mut List<Node>,
    entries: &mut List<Entry>,
    tasks: &mut List<Task>,
) -> Result<(), UnifyErr>
    requires table { IsTable table.now }
    requires graph { IsGraph nodes.old }
    requires bound { IsBound table.now (length entries.old) nodes.old }
    requires entries { AreEntries table.now (length nodes.old) entries.old }
    requires within { Each (IsTask table.now (length nodes.old)) tasks.old }
    ensures grows { Grows table.now (length nodes.old) entries.old entries.new }
    ensures kept { OnOk result (Kept table.now nodes.old nodes.new entries.old entries.new) }
    ensures solved { OnOk result ((T : Tables) → Told table.now entries.new T → Solved T nodes.old tasks.old nodes.new) }
    ensures err { IfErr result (Tells ((T : Tables) → Told table.now entries.new T → Unmet T nodes.old tasks.old)) }
{
    while let Some(task) = tasks.pop() {
        match step(table, nodes, entries, tasks, task) {
            Ok(()) => {}
            Err(error) => return Err(error),
        }
    }
    Ok(())
}
