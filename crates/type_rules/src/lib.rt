//! The rules of operations, forms and records, put into a graph of types.
//!
//! A rule is a few demands on the types of the program's nodes (`specs/Demands.antt`); the rules themselves are those of the
//! definition of typing (`fut_typing`), and each call's contract says that what it asks of the graph is what its rule says.
//! Where a rule speaks of types that no node of the program has, as of the rows of an array of arrays, nodes of its own stand
//! for them behind those of the program, and types can be found for them (`specs/Own.antt`).
//!
//! The rule of records speaks of numbers: a table gives each name of a field a number, and each set of names the number of a
//! record, as they are met. It only grows, so what it says holds of every numbering that goes on from it
//! (`specs/Labels.antt`), and [`a_table_goes_on_to_names`] says that there is one.
//!
//! Begin at [`Demand`] and [`put`], then `operations.rt` and `rows.rt`; for records at [`Labels`] and [`fields`].
#![tactic(auto)]

mod demand;
mod forms;
mod label_table;
mod labels;
mod lists;
mod names;
mod operations;
mod operators;
mod order;
mod own;
mod parts;
mod record_laws;
mod records;
mod rows;
mod rule;
mod spelled;

pub use demand::{Demand, put};
pub use forms::{application, carried, choice, counted, gone_over};
pub use label_table::a_table_goes_on_to_names;
pub use labels::{Labels, label, no_labels, no_shapes};
pub use lists::{push_demand, push_same};
pub use names::labelled;
pub use operations::{
    assertion, complement, element, negation, projection, range, range_by, replacement, truth,
    update,
};
pub use operators::{binary, literal};
pub use order::ascending;
pub use own::{push_own, put_own};
pub use parts::put_record;
pub use record_laws::records_go_by_numbers;
pub use records::record;
pub use rows::{array, function, index, tuple, update_at};
pub use rule::fields;
pub use spelled::position;
