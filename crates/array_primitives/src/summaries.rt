// Arrays of integers, combined by an operator of the language.
ghost use Rattle.std.specs.Prelude.{◌≡◌, ◌<◌, ◌^◌, false, [], ◌∷◌, IfOk};
ghost use Rattle.fut_scalar.specs.Integers.{FitsType, width_of};
ghost use Rattle.fut_scalar.specs.declared.scalar.Scalar.TheVariants as scalar;
ghost use Rattle.fut_scalar.specs.declared.scalar.ScalarType.TheVariants as sort;
ghost use Rattle.fut_arithmetic.specs.Types.{IsDefined, IsOf, result_type, type_of};
ghost use Rattle.fut_flat.specs.declared.prim.Primitive.TheVariants as prim;
ghost use Rattle.fut_value.specs.Data.{Unmet_shape};
ghost use Rattle.fut_meaning.specs.Jobs.{combined, job, summary};
ghost use Rattle.fut_meaning.specs.Operations.{reported};
ghost use Rattle.fut_meaning.specs.Operators.{binary_result, highest, lowest};
ghost use Rattle.array_data.specs.Answers.{Does, Tells};
ghost use Rattle.array_data.specs.Held.{as_held, held, scalars};

use array_data::{Data, Stop};
use fut_arithmetic::{binop, decode_word};
use fut_flat::Folding;
use fut_scalar::{BinOp, IntType, Place, Report, Scalar, ScalarType, fail_kind};

/// The operation on two scalars of a type on which it is defined; its fault is reported at the place.
#[tactic(auto, using(crate::proofs::Combining::operations))]
pub fn operation(op: BinOp, at: Place, a: Scalar, b: Scalar) -> Result<Scalar, Stop>
    requires defined { IsDefined op (type_of a) }
    requires one_type { type_of b ≡ type_of a }
    requires left_fits { FitsType a }
    requires right_fits { FitsType b }
    ensures value { Tells (reported at (binary_result op a b)) result }
    ensures typed { IfOk result (IsOf (result_type op (type_of a))) }
{
    match binop(op, a, b) {
        Ok(value) => Ok(value),
        Err(fault) => Err(Stop::Failed(Report {
            kind: fail_kind(fault),
            place: at,
        })),
    }
}

/// An integer and those of words of its type, combined one after the other.
#[tactic(auto, using(crate::proofs::Combining::combinations))]
fn combine(op: BinOp, at: Place, ty: IntType, neutral: u64, words: &[u64]) -> Result<Scalar, Stop>
    requires closed { result_type op (sort.Int ty) ≡ sort.Int ty }
    requires fits { neutral < 2 ^ width_of ty }
    ensures value { Tells (combined op at (scalar.Int ty neutral) (scalars (sort.Int ty) words.now)) result }
    ensures fits { IfOk result FitsType }
{
    let mut total = Scalar::Int { ty, bits: neutral };
    for word in words {
        let next = decode_word(ScalarType::Int(ty), *word);
        total = operation(op, at, total, next)?;
    }
    Ok(total)
}

/// The elements of an array, combined from a neutral integer on.
#[tactic(auto, using(crate::proofs::Combining::summaries))]
fn summary(op: BinOp, at: Place, ty: IntType, neutral: u64, whole: &Data) -> Result<Data, Stop>
    requires closed { result_type op (sort.Int ty) ≡ sort.Int ty }
    requires fits { neutral < 2 ^ width_of ty }
    ensures { Does (summary op at (scalar.Int ty neutral) (held whole.now)) (as_held result) }
{
    match whole {
        Data::Words(sort, words) => {
            if *sort != ScalarType::Int(ty) {
                return Err(Stop::Memory);
            }
            let total = combine(op, at, ty, neutral, words.get().as_slice())?;
            Ok(Data::Scalar(total))
        }
        Data::Rows(_, _, rows) => {
            if rows.get().len() > 0 {
                return Err(Stop::Memory);
            }
            Ok(Data::Scalar(Scalar::Int { ty, bits: neutral }))
        }
        Data::Scalar(_) => Err(Stop::Memory),
        Data::Tuple(_, _) => Err(Stop::Memory),
        Data::Record(_, _, _) => Err(Stop::Memory),
    }
}

/// The bits of the least integer of a type.
fn lowest(ty: IntType) -> u64
    ensures { result ≡ lowest ty }
{
    match ty {
        IntType::I8 => 0x80,
        IntType::I16 => 0x8000,
        IntType::I32 => 0x8000_0000,
        IntType::I64 => 0x8000_0000_0000_0000,
        IntType::U8 | IntType::U16 | IntType::U32 | IntType::U64 => 0,
    }
}

/// The bits of the greatest integer of a type.
fn highest(ty: IntType) -> u64
    ensures { result ≡ highest ty }
{
    match ty {
        IntType::I8 => 0x7f,
        IntType::I16 => 0x7fff,
        IntType::I32 => 0x7fff_ffff,
        IntType::I64 => 0x7fff_ffff_ffff_ffff,
        IntType::U8 => 0xff,
        IntType::U16 => 0xffff,
        IntType::U32 => 0xffff_ffff,
        IntType::U64 => 0xffff_ffff_ffff_ffff,
    }
}

/// All elements of an array, combined: their sum or product, which wraps, or the least or the greatest of them. Without
/// elements these are 0, 1, the greatest integer of the type and the least.
#[tactic(auto, using(crate::proofs::Combining::folds))]
pub fn fold(at: Place, folding: Folding, ty: IntType, whole: &Data) -> Result<Data, Stop>
    ensures { Does (job false Unmet_shape (prim.Fold folding ty) at (held whole.now ∷ [])) (as_held result) }
{
    match folding {
        Folding::Sum => summary(BinOp::Add, at, ty, 0, whole),
        Folding::Product => summary(BinOp::Mul, at, ty, 1, whole),
        Folding::Minimum => summary(BinOp::Min, at, ty, highest(ty), whole),
        Folding::Maximum => summary(BinOp::Max, at, ty, lowest(ty), whole),
    }
}
