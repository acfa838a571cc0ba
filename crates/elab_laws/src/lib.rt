//! Laws of elaboration, each carried by a call that does nothing: the flat program of files means what the files mean, and binds
//! each number once.
//!
//! `elab_scopes` (`specs/Elaboration.antt`) has what files declare and come to, `specs/Sourced.antt` which definitions the meaning
//! takes of what they declare, each with what it sees: the body of a parametric module is declared once for each application.
//! The theorem is the contract of [`elaborated_gives_the_same`]: the flat program and the files by their names allow the same
//! results and the same reports, for each entry, arguments and budget. [`elaborated_means_the_same`] says it of arguments and
//! results that may hold functions (`specs/Claims.antt`). They ask that the sizing, where there is one, is right about the sizes
//! of the flat program (`specs/Sized.antt`), as it is where it tells the size of each use ([`uses_are_told`]; `specs/Used.antt`).
//!
//! However deep modules are looked at, files come to one answer ([`files_come_to_one_answer`]). `specs/Answers.antt` says what files
//! answer; a lawful answer is the only one ([`lawful_files_have_one_answer`]).
//!
//! What a flat program binds are the numbers below the count of its names, each once ([`each_number_is_bound_once`];
//! `specs/OnceClaims.antt`, with what is bound in `specs/Binders.antt` and the type parameters among it in
//! `specs/Parameters.antt`). So the type parameters of an elaborated program differ, and generalisation is exact for each of
//! its definitions and local functions, whatever type parameters are written.
#![tactic(auto)]

ghost use Rattle.elab_laws.specs.Answers.{LawfulFilesHaveOneAnswer, TightFilesAllowNoMore};
ghost use Rattle.elab_laws.specs.Claims.{DeclaredAddsNothing, DeclaredIsElaborated, DeclaredLosesNothing, DeeperIsSame, FilesComeToOne, OpenedScalarsAreTheSame, SameReports, SameResults};
ghost use Rattle.elab_laws.specs.Used.{UsesAreTold};

mod once_laws;

pub use once_laws::{
    each_number_is_bound_once, elaborated_generalisation_is_exact, type_parameters_are_apart,
};

/// The law that the flat program to which files come and the files allow the same results and reports.
pub fn elaborated_gives_the_same()
    ensures results { SameResults }
    ensures reports { SameReports }
{}

/// The law that they allow the same where arguments and results may hold functions: functions are the same whose bodies
/// stand for one another.
pub fn elaborated_means_the_same()
    ensures adds_nothing { DeclaredAddsNothing }
    ensures loses_nothing { DeclaredLosesNothing }
{}

/// The law that a sizing is right about the sizes of an elaborated program, where each size that is bound has the number of
/// one, and it tells of each use of a name the size that stands there, by the numbers of the nodes.
pub fn uses_are_told()
    ensures { UsesAreTold }
{}

/// The law that modules that are looked at more deeply declare the same, or the first look did not reach far enough; so files come to
/// one answer, and what they declare has the flat program to which they come.
pub fn files_come_to_one_answer()
    ensures deeper { DeeperIsSame }
    ensures one { FilesComeToOne }
    ensures declared { DeclaredIsElaborated }
{}

/// The law that the members of a scalar type's module, where it is opened, are those that paths through it name.
#[tactic(auto, using(crate::proofs::Scalars::opened_scalars_are_the_same))]
pub fn opened_scalars_are_the_same()
    ensures { OpenedScalarsAreTheSame }
{}

/// The law that files which lawfully allow an answer, with lawful operators and no place that a scatter names twice, allow no
/// other: for every definition with a name of theirs, all arguments and every budget. And what they allow with few neutral
/// leaves, they allow.
pub fn lawful_files_have_one_answer()
    ensures only { LawfulFilesHaveOneAnswer }
    ensures tight { TightFilesAllowNoMore }
{}
