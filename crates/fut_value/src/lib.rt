//! Values as programs take and give them: scalars, and arrays of scalars of any rank. A value is flat, the type of its
//! scalars, the sizes of its levels and the words of its scalars in order, so copying and reading go over one list. What it
//! stands for is plain data (`specs/Data.antt`), an array as the shape of its rows and its rows (`specs/Values.antt`).
#![tactic(auto)]

mod copy;
mod laws;
mod shape;
mod value;

pub use copy::copy_value;
pub use laws::{values_have_their_shapes, weight_goes_by_leaves};
pub use shape::{GREATEST_WEIGHT, Shape, weight, weight_of, weight_of_rows};
pub use value::{Value, as_scalar, value_of};
