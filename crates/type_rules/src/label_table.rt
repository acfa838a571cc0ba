// The labels and records of a program, counted as they are met.
//
// A table gives each name of a field a number, and each set of names the number of a record. It only grows, so what it
// says holds of every numbering that goes on from it (`specs/Labels.antt`).
ghost use Rattle.type_rules.specs.Labels.{Goes_on_to_names};

/// The names and records that a table has keep their numbers in some numbering of all names and records.
pub fn a_table_goes_on_to_names()
    ensures { Goes_on_to_names }
{}
