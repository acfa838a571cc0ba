// How primitives tell their results.
ghost use Rattle.std.specs.Prelude.{◌≡◌, List};
ghost use Rattle.told_rows.specs.Arguments.{tells_by};
ghost use Rattle.unfold.specs.Telling as telling;
ghost use Rattle.unfold.specs.Telling.{primitive_tells};

use fut_flat::Primitive;
use fut_scalar::{IntType, ScalarType};

/// How a primitive tells its result, by its data.
#[derive(Clone, Copy)]
pub enum Rule {
    /// As many rows as the first has, of what the function gives for rows.
    Mapped,
    /// Of the shape of the first, of the last one, of the only one, of the rows of the only one.
    First,
    Last,
    Same,
    Element,
    /// Tuples of rows; a tuple of arrays of parts.
    Zipped,
    Unzipped,
    /// As many as the first is worth: of the second, of integers, of what the function gives for integers.
    Replicated,
    Counted,
    Tabulated,
    /// The numbers of the rows.
    Indices,
    Unflattened,
    Transposed,
    Scalar(ScalarType),
    /// It tells nothing.
    Unknown,
}

/// The rule of a primitive.
#[tactic(auto, unfolding(unfold::specs::Telling::primitive_tells))]
pub fn rule_of(primitive: Primitive) -> Rule
    ensures { (bs : List telling.Argument) → tells_by result bs ≡ primitive_tells primitive bs }
{
    match primitive {
        Primitive::Map | Primitive::Map2 | Primitive::Map3 | Primitive::Map4 | Primitive::Map5 =>
            Rule::Mapped,
        Primitive::Reduce | Primitive::ReduceComm | Primitive::Scatter | Primitive::ReduceByIndex =>
            Rule::First,
        Primitive::Scan | Primitive::Rotate => Rule::Last,
        Primitive::Zip | Primitive::Zip3 => Rule::Zipped,
        Primitive::Unzip | Primitive::Unzip3 => Rule::Unzipped,
        Primitive::Iota => Rule::Counted,
        Primitive::Replicate => Rule::Replicated,
        Primitive::Tabulate => Rule::Tabulated,
        Primitive::Indices => Rule::Indices,
        Primitive::Length => Rule::Scalar(ScalarType::Int(IntType::I64)),
        Primitive::Null => Rule::Scalar(ScalarType::Bool),
        Primitive::Head | Primitive::Last => Rule::Element,
        Primitive::Reverse | Primitive::Copy => Rule::Same,
        Primitive::Unflatten => Rule::Unflattened,
        Primitive::Transpose => Rule::Transposed,
        Primitive::Convert { to, .. } => Rule::Scalar(to),
        Primitive::Min(ty) | Primitive::Max(ty) | Primitive::Abs(ty) | Primitive::Fold(_, ty) => {
            Rule::Scalar(ScalarType::Int(ty))
        }
        Primitive::Popc(_) => Rule::Scalar(ScalarType::Int(IntType::I32)),
        Primitive::Filter | Primitive::Partition | Primitive::Concat | Primitive::Flatten => {
            Rule::Unknown
        }
        Primitive::Init | Primitive::Tail | Primitive::Take | Primitive::Drop => Rule::Unknown,
        Primitive::Lowest(_) | Primitive::Highest(_) | Primitive::NumBits(_) => Rule::Unknown,
    }
}
