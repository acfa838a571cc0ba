//! Which values are of a sized type, and that the sizes which the meaning finds are right.
//!
//! The definitions (`specs/`) speak of values of flat programs and of sized types. `specs/Fits.antt` says which values are of
//! a sized type: data of that type, and functions that take values of what they take to values of what they give, tell their
//! results' shapes right and report sizes only where that may be. Two laws on them: where one sized type suits another, a value of the one is of the other; and
//! each value that a sized term may give is of its sized type and each report of a size comes from one of its `:>` or
//! `unflatten` (`specs/Law.antt`, `specs/There.antt`), for terms of names and names of sizes,
//! scalars, array literals, ranges, elements, slices and updates of arrays, records, tuples, their parts and changes of
//! fields, coercions, functions and what they declare, applications, lets, also of functions of one type, branches, loops and all
//! primitives, `map2` to `map5` where their results hold no arrays, where patterns may take the parts of tuples and records and
//! name sizes. Of other terms nothing is claimed there: general names of several types, a name of a size as the argument of a
//! function or as the end of a range or slice, and `map2` to `map5` whose results hold arrays. `specs/Programs.antt` says the same
//! of programs: what an entry gives for arguments of its sized type is of the sized type of its results, with the sizes of these
//! arguments and of the definitions that are numbers, and where these are data it has that shape. A definition that is a number is
//! found as a size by those behind it that name it in the sized types of their nodes. And such a program reports sizes at its `:>` and
//! `unflatten` alone.
//!
//! `specs/Misfits.antt`: data of a sized type is of one shape, and on data of the shapes that primitives and operations take no test
//! of sizes misfits. `specs/Reports.antt`: where what does not fit goes wrong, sizes are reported by `:>` and `unflatten` alone, sized
//! or not; so each other report of a size tells that something does not fit.
//!
//! The other laws are on what the meaning finds of sizes that no value shows. `specs/Finding.antt`: at their places in a sized
//! type. `specs/Entered.antt`: under names, where what was entered is right; so an array literal without elements has
//! rows of its type, and what `:>` lets pass has the sizes of its type.
#![tactic(auto)]

mod laws;

pub use laws::{
    coerced_has_its_sizes, data_is_of_its_shape, definitions_are_entered, found_is_right,
    found_under_names_is_right, literal_rows_are_right, no_operation_misfits, no_primitive_misfits,
    operations_report_no_sizes, other_sizes_misfit, primitives_report_no_sizes,
    programs_give_their_shapes, programs_have_their_sizes, sized_programs_report_no_other_sizes,
    sizes_are_reported_there, standing_is_found, suiting_values_fit, told_is_right,
    values_have_their_sizes, values_read,
};
