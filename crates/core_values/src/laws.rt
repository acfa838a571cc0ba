// Laws of components, each carried by a call.
ghost use Rattle.core_values.specs.Claims.{ComponentsAreSized, CountsAgree, RowsComeOut, ArraysAreMade, MadeAreRegular, UpdatesAgree, UpdatedAreRegular, RowAgrees, KeptAgree, ZipsAgree, CutsAgree, CopiesAgree, ConcatsAgree};

/// The law that the components of regular data have the sizes of the leaves of its shape.
#[tactic(auto, using(crate::proofs::Good::components_are_sized))]
pub fn components_are_sized()
    ensures { ComponentsAreSized }
{}

/// The law that the words of arrays among the components are those of the data.
#[tactic(auto, using(crate::proofs::Counts::counts_agree))]
pub fn counts_agree()
    ensures { CountsAgree }
{}

/// The law that the rows of an array's bundle are the components of its rows.
#[tactic(auto, using(crate::proofs::Rows::rows_come_out))]
pub fn rows_come_out()
    ensures { RowsComeOut }
{}

/// The law that an array that is made of rows' components has the components of the array that is made of the rows, or the
/// same report.
#[tactic(auto, using(crate::proofs::Making::arrays_are_made, crate::proofs::Making::made_are_regular))]
pub fn arrays_are_made()
    ensures agree { ArraysAreMade }
    ensures regular { MadeAreRegular }
{}

/// The law that an updated bundle has the components of the updated array, or the same report.
pub fn updates_agree()
    ensures agree { UpdatesAgree }
    ensures regular { UpdatedAreRegular }
{}

/// The law that the row at an index has the components of the row of the data, or the same report, and that the rows that
/// pass a test, or those that do not, are a bundle of theirs.
#[tactic(auto, using(crate::proofs::Selecting::row_agrees, crate::proofs::Selecting::kept_agree))]
pub fn rows_are_taken()
    ensures row { RowAgrees }
    ensures kept { KeptAgree }
{}

/// The law that the rows of several arrays side by side are the bundle of an array of tuples, or the same report.
#[tactic(auto, using(crate::proofs::Zipping::zips_are_agreed))]
pub fn zips_agree()
    ensures { ZipsAgree }
{}

/// The law that what an index of several parts, rows, slices and reversals, takes of a bundle are the components of what it
/// takes of the array.
#[tactic(auto, using(crate::proofs::Cutting::cuts_agree))]
pub fn cuts_agree()
    ensures { CutsAgree }
{}

/// The law that one row many times, and the rows of two arrays one behind the other, are bundles of their arrays, or the same
/// report.
#[tactic(auto, using(crate::proofs::Joining::copies_agree, crate::proofs::Joining::concats_agree))]
pub fn rows_are_joined()
    ensures copies { CopiesAgree }
    ensures concats { ConcatsAgree }
{}
