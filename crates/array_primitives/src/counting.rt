// Arrays of numbers, sizes as data, and copies.
ghost use Rattle.std.specs.Prelude.{◌≡◌, false, [], ◌∷◌, IfOk, replicate};
ghost use Rattle.fut_flat.specs.declared.prim.Primitive.TheVariants as prim;
ghost use Rattle.fut_value.specs.Data.{Array_datum, Unmet_shape, datums};
ghost use Rattle.fut_meaning.specs.Arrays.{i64};
ghost use Rattle.fut_meaning.specs.Jobs.{i64_shape, job, numbers_from};
ghost use Rattle.array_data.specs.Answers.{All_added, Does, Numbers, Replicas};
ghost use Rattle.array_data.specs.Held.{as_held, built_rows, held};

use array_data::{
    Built, Data, Exact, Form, Handle, Stop, copy, count, depth, failed, form_of, is_few, is_light,
    untested, whole_number,
};
use fut_scalar::{FailKind, IntType, List, NoMemory, Place, Scalar, ScalarType, Shared};
use std::alloc::Global;

/// A number below 2^64 as an `i64`.
#[tactic(auto, using(crate::proofs::Numbering::numbers))]
pub fn number(n: u64) -> Data
    ensures { held result ≡ i64 n }
{
    Data::Scalar(Scalar::Int {
        ty: IntType::I64,
        bits: n,
    })
}

/// The words 0, 1, .. : so many.
#[tactic(auto, using(crate::proofs::Numbering::counting))]
fn words_up_to(alloc: Global, n: u64) -> Result<List<u64>, NoMemory>
    ensures { IfOk result (λ words. Numbers n words) }
{
    let mut words = List::new(alloc);
    for i in 0..n {
        words.push(i)?;
    }
    Ok(words)
}

/// The array of 0, 1, .. : so many.
#[tactic(auto, using(crate::proofs::Numbering::numbers))]
pub fn numbers(alloc: Global, n: u64) -> Result<Data, NoMemory>
    ensures { IfOk result (λ array. held array ≡ Array_datum i64_shape (datums (numbers_from n 0))) }
{
    let words = words_up_to(alloc, n)?;
    Ok(Data::Words(ScalarType::Int(IntType::I64), Handle::new(alloc, words)?))
}

/// So many numbers from 0 on.
#[tactic(auto, using(crate::proofs::Numbering::iotas))]
pub fn iota(alloc: Global, at: Place, size: &Data) -> Result<Data, Stop>
    ensures { Does (job false Unmet_shape prim.Iota at (held size.now ∷ [])) (as_held result) }
{
    match whole_number(size)? {
        Exact::Below(_) => Err(failed(FailKind::Range, at)),
        Exact::Natural(n) => {
            if is_few(n) {
                Ok(numbers(alloc, n)?)
            } else {
                Err(failed(FailKind::TooLarge, at))
            }
        }
    }
}

/// The indices of an array.
#[tactic(auto, using(crate::proofs::Numbering::counts_told))]
pub fn indices(alloc: Global, at: Place, whole: &Data) -> Result<Data, Stop>
    ensures { Does (job false Unmet_shape prim.Indices at (held whole.now ∷ [])) (as_held result) }
{
    let n = count(whole)?;
    Ok(numbers(alloc, n as u64)?)
}

/// How many rows an array has.
#[tactic(auto, using(crate::proofs::Numbering::counts_told))]
pub fn length(at: Place, whole: &Data) -> Result<Data, Stop>
    ensures { Does (job false Unmet_shape prim.Length at (held whole.now ∷ [])) (as_held result) }
{
    let n = count(whole)?;
    Ok(number(n as u64))
}

/// Whether an array has no rows.
#[tactic(auto, using(crate::proofs::Numbering::counts_told))]
pub fn null(at: Place, whole: &Data) -> Result<Data, Stop>
    ensures { Does (job false Unmet_shape prim.Null at (held whole.now ∷ [])) (as_held result) }
{
    let n = count(whole)?;
    Ok(Data::Scalar(Scalar::Bool(n == 0)))
}

/// The same data.
#[tactic(auto, using(crate::proofs::Numbering::copies))]
pub fn copied(at: Place, whole: &Data) -> Result<Data, Stop>
    ensures { Does (job false Unmet_shape prim.Copy at (held whole.now ∷ [])) (as_held result) }
{
    copy(whole)
}

/// Puts copies of a row behind others.
#[tactic(auto, using(crate::proofs::Numbering::copying))]
fn push_copies(row: &Data, many: u64, built: &mut Built) -> Result<(), Stop>
    ensures { All_added (replicate many (held row.now)) (built_rows built.old) (built_rows built.new) result }
{
    for _ in 0..many {
        let Ok(next) = copy(row) else {
            return Err(Stop::Memory);
        };
        let Ok(()) = built.push(next) else {
            return Err(Stop::Memory);
        };
    }
    Ok(())
}

/// An array of so many rows that are the same. Its weight is tested before rows are made.
#[tactic(auto, using(crate::proofs::Numbering::replicas))]
fn replicas(alloc: Global, at: Place, many: u64, row: &Data) -> Result<Data, Stop>
    ensures { Replicas at many (held row.now) (as_held result) }
{
    let form = Shared::new(alloc, form_of(alloc, row)?)?;
    let whole = Form::Array(many, form.share()?);
    if !is_light(&whole) {
        return Err(failed(FailKind::TooLarge, at));
    }
    let mut built = Built::new(alloc);
    push_copies(row, many, &mut built)?;
    Ok(untested(alloc, form, depth(row), built)?)
}

/// An array of so many rows that are the same.
#[tactic(auto, using(crate::proofs::Numbering::replications))]
pub fn replicate(alloc: Global, at: Place, size: &Data, row: &Data) -> Result<Data, Stop>
    ensures { Does (job false Unmet_shape prim.Replicate at (held size.now ∷ held row.now ∷ [])) (as_held result) }
{
    match whole_number(size)? {
        Exact::Below(_) => Err(failed(FailKind::Range, at)),
        Exact::Natural(many) => replicas(alloc, at, many, row),
    }
}
