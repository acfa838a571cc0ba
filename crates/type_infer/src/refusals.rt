// Why a program has no graph of its types, and where that shows.
ghost use Rattle.type_infer.specs.Refusals.{Stands_at, Stands_for};
ghost use Rattle.type_infer.specs.declared.refusals.BuildErr.TheVariants as build;

use type_graph::UnifyErr;

/// Why a program has no graph of its types.
#[derive(Clone, Copy)]
pub enum BuildErr {
    /// It has no typing, which shows at this number.
    Untyped(u32),
    Memory,
}

// The number itself, if it is one of the program's from `lo` on, and else `lo`. There are `base` numbers.
fn number_from(number: u32, lo: u32, base: u32) -> u32
    ensures { Stands_at lo base (build.Untyped result) }
{
    if number < lo || number >= base {
        return lo;
    }
    number
}

/// The refusal of a step, as one of the whole: it shows at the node that the step names, if that is a number of what the step
/// goes over, which begins at `lo`, and else at its first number.
pub fn refused(error: UnifyErr, lo: u32, base: u32) -> BuildErr
    ensures why { Stands_for result error }
    ensures at { Stands_at lo base result }
{
    match error {
        UnifyErr::Clash(node, _) => BuildErr::Untyped(number_from(node, lo, base)),
        UnifyErr::BadKind(node, _) => BuildErr::Untyped(number_from(node, lo, base)),
        UnifyErr::Infinite(node) => BuildErr::Untyped(number_from(node, lo, base)),
        UnifyErr::Memory => BuildErr::Memory,
    }
}
