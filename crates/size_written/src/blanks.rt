// Which sizes stand where none is written.
ghost use Rattle.std.specs.Prelude.{◌≡◌, ◌+◌, IfOk};
ghost use Rattle.fut_flat.specs.Erased.{size_of as size_written};
ghost use Rattle.fut_sizes.specs.WrittenSizes.{dim_or, written_dim};
ghost use Rattle.size_arena.specs.Trees.{dim_of};
ghost use Rattle.size_written.specs.Answers.{dim_held};
ghost use Rattle.size_written.specs.Blanks.{Inside_of, blank_of};

use fut_flat::{Ref, Size, SizeForm};
use fut_scalar::NoMemory;
use size_arena::{Dim, Free};

/// What a written type stands for, which says what stands where it has no size.
#[derive(Clone, Copy)]
pub(crate) enum Purpose {
    /// A coercion keeps the size that is found, and leaves function types as they are.
    Coercion,
    /// A parameter keeps it, in function types too.
    Parameter,
    /// Callers know no size of what is declared at a node.
    Result(u32),
    /// Inside of that, what a function takes keeps the size that is found.
    Taken,
    /// What a function gives whose caller chooses so many sizes: they are met when it runs.
    Given(u32),
}

/// What the parameter and the result of a function type are written for.
#[derive(Clone, Copy)]
pub(crate) struct Inside {
    pub taken: Purpose,
    pub given: Purpose,
}

/// The size that is written, if one is.
pub(crate) fn dim_written(size: Size) -> Option<Dim>
    ensures { dim_held result ≡ written_dim (size_written size) }
{
    match size.form {
        SizeForm::Use(Ref::Bound(bind)) => Some(Dim::At(Free::Name(bind.0))),
        SizeForm::Use(Ref::Prim(_)) => None,
        SizeForm::Use(Ref::Scalar(_)) => None,
        SizeForm::Const(count) => Some(Dim::At(Free::Const(count))),
        SizeForm::Blank(_) => None,
    }
}

pub(crate) fn next_of(number: u32) -> Result<u32, NoMemory>
    ensures { IfOk result (λ next. next ≡ number + 1) }
{
    match number.checked_add(1) {
        Some(next) => Ok(next),
        None => Err(NoMemory),
    }
}

fn sum_of(left: u32, right: u32) -> Result<u32, NoMemory>
    ensures { IfOk result (λ sum. sum ≡ left + right) }
{
    match left.checked_add(right) {
        Some(sum) => Ok(sum),
        None => Err(NoMemory),
    }
}

#[tactic(auto, using(crate::proofs::BlankForms::blanks))]
fn blank(purpose: Purpose, number: u32, found: Dim) -> Result<Dim, NoMemory>
    ensures { IfOk result (λ dim. dim_of dim ≡ blank_of purpose number (dim_of found)) }
{
    match purpose {
        Purpose::Coercion => Ok(found),
        Purpose::Parameter => Ok(found),
        Purpose::Result(node) => Ok(Dim::At(Free::Unknown(node, number))),
        Purpose::Taken => Ok(found),
        Purpose::Given(chosen) => {
            let behind = next_of(chosen)?;
            let position = sum_of(behind, number)?;
            Ok(Dim::Bound(0, position))
        }
    }
}

/// The size of a level with this number: the one that is written, if one is.
pub(crate) fn size_or_blank(
    purpose: Purpose,
    number: u32,
    size: Size,
    found: Dim,
) -> Result<Dim, NoMemory>
    ensures { IfOk result (λ dim. dim_of dim ≡ dim_or (written_dim (size_written size)) (blank_of purpose number (dim_of found))) }
{
    match dim_written(size) {
        Some(dim) => Ok(dim),
        None => {
            let dim = blank(purpose, number, found)?;
            Ok(dim)
        }
    }
}

/// What stands inside of a function type whose caller chooses so many sizes, if function types take written sizes.
pub(crate) fn purposes_inside(purpose: Purpose, chosen: u32) -> Option<Inside>
    ensures { Inside_of purpose chosen result }
{
    match purpose {
        Purpose::Coercion => None,
        Purpose::Parameter => Some(Inside {
            taken: Purpose::Parameter,
            given: Purpose::Parameter,
        }),
        Purpose::Result(_) => Some(Inside {
            taken: Purpose::Taken,
            given: Purpose::Given(chosen),
        }),
        Purpose::Taken => Some(Inside {
            taken: Purpose::Taken,
            given: Purpose::Given(chosen),
        }),
        Purpose::Given(_) => Some(Inside {
            taken: Purpose::Taken,
            given: Purpose::Given(chosen),
        }),
    }
}
