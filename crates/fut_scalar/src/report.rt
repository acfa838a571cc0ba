// Failures of running programs.
ghost use Rattle.std.specs.Prelude.{◌≡◌};
ghost use Rattle.fut_scalar.specs.Reports.{kind_of};

use crate::{Place, ScalarFault};

/// What a running program fails by.
#[derive(Clone, Copy, Debug, PartialEq, Eq)]
pub enum FailKind {
    /// An index or an end of a slice is out of range, or there is no row where one is wanted.
    Bounds,
    Division,
    Power,
    /// The condition of an `assert` is false.
    Assert,
    /// Sizes differ.
    Size,
    /// A range leads nowhere, or a size is negative.
    Range,
    /// The weight of an array is greater than the greatest.
    TooLarge,
    /// A `while` loop needs more turns than the budget has.
    Turns,
}

/// A failure and the place that reports it.
#[derive(Clone, Copy, Debug, PartialEq, Eq)]
pub struct Report {
    pub kind: FailKind,
    pub place: Place,
}

/// The kind of failure that a fault of an operation is.
pub fn fail_kind(fault: ScalarFault) -> FailKind
    ensures { result ≡ kind_of fault }
{
    match fault {
        ScalarFault::Division => FailKind::Division,
        ScalarFault::Power => FailKind::Power,
    }
}
