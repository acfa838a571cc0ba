//! Data as a run holds it: scalars, tuples, records and arrays.
//!
//! An array of scalars is flat words, any other array has its rows and their form; both are shared, so that a copy of an
//! array takes no time. The contracts speak of data by what it stands for.
#![tactic(auto)]

mod arrays;
mod built;
mod changes;
mod data;
mod form;
mod handle;
mod records;
mod rows;
mod sizes;
mod stop;
mod tuples;

pub use arrays::{array, array_of_form, in_place, so_deep, untested};
pub use built::Built;
pub use data::{Data, copy, first_apart};
pub use form::{Form, agrees, copy_form, form_of, inner_form, is_few, is_light, size_of, sort_of};
pub use handle::{Handle, Trace};
pub use records::{named_part, names_of, put_fields, record, replaced};
pub use rows::{count, depth, row, row_depth, row_form};
pub use sizes::{Exact, failed, fitted, whole_number};
pub use stop::Stop;
pub use tuples::{array_of_parts, put_parts, tuple};
