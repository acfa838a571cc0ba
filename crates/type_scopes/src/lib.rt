//! What inference works on while a program is gone over, and what it does where a definition begins and ends.
//!
//! [`Inference`] holds the graph of types, the templates of definitions, and what each name stands for. A name is entered
//! where it is bound and taken back behind its scope; `specs/Scopes.antt` says what is known where a part of a program is gone
//! over, and what is known behind it. A pattern enters its names (`patterns.rt`).
//!
//! A definition's type parameters get a node each where it begins ([`enter_parameters`]). Where it ends ([`generalise`]), none
//! of these nodes may be fixed by what stands around it; then the definition's type is copied, and its uses are the instances
//! of the copy (`specs/Definitions.antt`).
#![tactic(auto)]

mod ending;
mod names;
mod parameters;
mod patterns;
mod steps;

pub use ending::generalise;
use fut_scalar::List;
use fut_types::ShapeTable;
pub use names::{Known, Past, Seat, enter, known_of, mark_of, note_seat, seat_of, take_back};
pub use parameters::enter_parameters;
pub use patterns::{enter_pattern, enter_patterns, enter_sizes};
pub use steps::demand;
use type_graph::{Entry, Node};
use type_rules::Labels;
use type_schemes::Part;

/// What inference works on. It grows while a program is gone over.
#[derive(Drop)]
pub struct Inference<'a> {
    /// The numbers of the program's names of fields, and of its records.
    pub labels: Labels<'a>,
    /// The program's records and labels.
    pub table: ShapeTable,
    /// The graph of types. The program's numbers stand first.
    pub nodes: List<Node>,
    /// The named parts of the graph's open nodes.
    pub entries: List<Entry>,
    /// The templates of definitions.
    pub store: List<Part>,
    /// Room for the making of templates.
    pub memo: List<u32>,
    /// What each name stands for, by its number.
    pub names: List<Known>,
    /// What the names that were entered stood for before, oldest first.
    pub past: List<Past>,
    /// Where each type parameter was met, by its number.
    pub seats: List<Seat>,
}
