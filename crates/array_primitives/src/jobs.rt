// What a primitive does with its data, before its function is applied.
ghost use Rattle.std.specs.Prelude.{◌≡◌, ◌<◌, false, [], ◌∷◌};
ghost use Rattle.fut_flat.specs.declared.prim.Primitive.TheVariants as prim;
ghost use Rattle.fut_value.specs.Data.{Unmet_shape};
ghost use Rattle.fut_meaning.specs.Jobs.{job};
ghost use Rattle.array_data.specs.Answers.{Does};
ghost use Rattle.array_primitives.specs.Plans.{Counted_is, Plans, Plans_map, Put_row, Two_rows, made_of};
ghost use Rattle.array_data.specs.Held.{as_held, built_rows, held, held_all, shape_held};

use crate::columns::{put_rows, same_counts};
use crate::counting::{copied, indices, iota, length, null, number, replicate};
use crate::joins::concat;
use crate::nested::{flatten, transpose, unflatten};
use crate::parts::{drop_rows, head, init, last, reverse, rotate, tail, take};
use crate::sieve::{keep_rows, part_rows};
use crate::summaries::fold;
use crate::unzips::{unzip, unzip3};
use crate::writes::write_counts;
use crate::zips::zip;
use array_data::{Built, Data, Exact, Form, Stop, array, count, failed, whole_number};
use fut_flat::Primitive;
use fut_scalar::{FailKind, Place, Shared};
use std::alloc::Global;

/// Which rows a function is applied to, and what is made of its results.
#[derive(Clone, Copy)]
pub enum Finish {
    /// The rows of arrays side by side; an array of the results.
    Mapped,
    /// So many indices; an array of the results.
    Tabulated(u64),
    /// The rows of one array; an array of those for which the result holds.
    Kept,
    /// The rows of one array; an array of those for which the result holds, and one of the others.
    Parted,
}

/// What is left to do of a primitive.
#[derive(Drop)]
pub enum Plan {
    Done(Data),
    /// The function on so many rows.
    Each(Finish, usize),
    /// A reduction of the second argument, with the first as neutral element.
    Reduce,
    /// The same of each prefix.
    Scan,
    /// The rows of the third argument, written at places of the first, by the indices of the second.
    Scatter,
    /// A reduction at each place of the first argument: of the row there and those rows of the fourth that are written at it,
    /// by the indices of the third. The second is the neutral element, and so many rows are written.
    Combine(usize),
}

/// What a primitive on one argument gives at once.
#[tactic(auto, using(crate::proofs::Planning::dispatch))]
fn done_of_one(alloc: Global, primitive: Primitive, at: Place, only: &Data) -> Result<Data, Stop>
    ensures { Does (job false Unmet_shape primitive at (held only.now ∷ [])) (as_held result) }
{
    match primitive {
        Primitive::Iota => iota(alloc, at, only),
        Primitive::Indices => indices(alloc, at, only),
        Primitive::Length => length(at, only),
        Primitive::Null => null(at, only),
        Primitive::Head => head(at, only),
        Primitive::Last => last(at, only),
        Primitive::Init => init(alloc, at, only),
        Primitive::Tail => tail(alloc, at, only),
        Primitive::Reverse => reverse(alloc, at, only),
        Primitive::Copy => copied(at, only),
        Primitive::Unzip => unzip(alloc, at, only),
        Primitive::Unzip3 => unzip3(alloc, at, only),
        Primitive::Flatten => flatten(alloc, at, only),
        Primitive::Transpose => transpose(alloc, at, only),
        Primitive::Fold(folding, ty) => fold(at, folding, ty, only),
        _ => Err(Stop::Memory),
    }
}

/// What a primitive on two arguments gives at once.
#[tactic(auto, using(crate::proofs::Planning::dispatch))]
fn done_of_two(
    alloc: Global,
    primitive: Primitive,
    at: Place,
    first: &Data,
    second: &Data,
) -> Result<Data, Stop>
    ensures { Does (job false Unmet_shape primitive at (held first.now ∷ held second.now ∷ [])) (as_held result) }
{
    match primitive {
        Primitive::Concat => concat(alloc, at, first, second),
        Primitive::Replicate => replicate(alloc, at, first, second),
        Primitive::Take => take(alloc, at, first, second),
        Primitive::Drop => drop_rows(alloc, at, first, second),
        Primitive::Rotate => rotate(alloc, at, first, second),
        _ => Err(Stop::Memory),
    }
}

/// What a primitive on three arguments gives at once.
#[tactic(auto, using(crate::proofs::Planning::dispatch))]
fn done_of_three(
    alloc: Global,
    primitive: Primitive,
    at: Place,
    first: &Data,
    second: &Data,
    third: &Data,
) -> Result<Data, Stop>
    ensures { Does (job false Unmet_shape primitive at (held first.now ∷ held second.now ∷ held third.now ∷ [])) (as_held result) }
{
    match primitive {
        Primitive::Unflatten => unflatten(alloc, at, first, second, third),
        _ => Err(Stop::Memory),
    }
}

/// What a primitive gives at once.
#[tactic(auto, using(crate::proofs::Planning::arguments))]
fn done(alloc: Global, primitive: Primitive, at: Place, args: &[Data]) -> Result<Data, Stop>
    ensures { Does (job false Unmet_shape primitive at (held_all args.now)) (as_held result) }
{
    if args.len() == 1 {
        return done_of_one(alloc, primitive, at, &args[0]);
    }
    if args.len() == 2 {
        return done_of_two(alloc, primitive, at, &args[0], &args[1]);
    }
    if args.len() == 3 {
        return done_of_three(alloc, primitive, at, &args[0], &args[1], &args[2]);
    }
    Err(Stop::Memory)
}

/// Zips of two and of three arrays.
#[tactic(auto, using(crate::proofs::Zipping::zip_primitives))]
fn done_zip(alloc: Global, primitive: Primitive, at: Place, args: &[Data]) -> Result<Data, Stop>
    ensures { Does (job false Unmet_shape primitive at (held_all args.now)) (as_held result) }
{
    match primitive {
        Primitive::Zip => {
            if args.len() == 2 {
                zip(alloc, at, args)
            } else {
                Err(Stop::Memory)
            }
        }
        Primitive::Zip3 => {
            if args.len() == 3 {
                zip(alloc, at, args)
            } else {
                Err(Stop::Memory)
            }
        }
        _ => Err(Stop::Memory),
    }
}

/// The rows of a map.
#[tactic(auto, using(crate::proofs::Planning::maps))]
fn plan_map(at: Place, args: &[Data]) -> Result<Plan, Stop>
    ensures { Plans_map at (held_all args.now) result }
{
    let n = same_counts(at, args)?;
    Ok(Plan::Each(Finish::Mapped, n))
}

/// The indices of a table.
#[tactic(auto, using(crate::proofs::Planning::tables))]
fn plan_table(at: Place, size: &Data) -> Result<Plan, Stop>
    ensures { Plans prim.Tabulate at (held size.now ∷ []) result }
{
    match whole_number(size)? {
        Exact::Below(_) => Err(failed(FailKind::Range, at)),
        Exact::Natural(n) => Ok(Plan::Each(Finish::Tabulated(n), n as usize)),
    }
}

/// The rows of a filter or a partition.
#[tactic(auto, using(crate::proofs::Sifting::sieves))]
fn plan_sieve(primitive: Primitive, at: Place, args: &[Data]) -> Result<Plan, Stop>
    ensures { Plans primitive at (held_all args.now) result }
{
    if args.len() != 1 {
        return Err(Stop::Memory);
    }
    let Ok(n) = count(&args[0]) else {
        return Err(Stop::Memory);
    };
    match primitive {
        Primitive::Filter => Ok(Plan::Each(Finish::Kept, n)),
        Primitive::Partition => Ok(Plan::Each(Finish::Parted, n)),
        _ => Err(Stop::Memory),
    }
}

/// A scatter, which applies no function.
#[tactic(auto, using(crate::proofs::Scattering::scatter_plans))]
fn plan_scatter(primitive: Primitive, at: Place, args: &[Data]) -> Result<Plan, Stop>
    requires { primitive ≡ prim.Scatter }
    ensures { Plans primitive at (held_all args.now) result }
{
    if args.len() != 3 {
        return Err(Stop::Memory);
    }
    Ok(Plan::Scatter)
}

/// The reductions at the places of an array.
#[tactic(auto, using(crate::proofs::Scattering::combine_plans))]
fn plan_combine(alloc: Global, primitive: Primitive, at: Place, args: &[Data]) -> Result<Plan, Stop>
    requires { primitive ≡ prim.ReduceByIndex }
    ensures { Plans primitive at (held_all args.now) result }
{
    if args.len() != 4 {
        return Err(Stop::Memory);
    }
    let (_, many) = write_counts(alloc, at, &args[0], &args[2], &args[3])?;
    Ok(Plan::Combine(many))
}

/// Whether the arguments are some data and an array.
#[tactic(auto, using(crate::proofs::Planning::two_arguments))]
fn two_rows(args: &[Data]) -> Result<(), Stop>
    ensures { Two_rows (held_all args.now) result }
{
    if args.len() != 2 {
        return Err(Stop::Memory);
    }
    count(&args[1])?;
    Ok(())
}

/// What a primitive does with its data.
#[tactic(auto, using(crate::proofs::Planning::plans))]
pub fn plan_of(alloc: Global, primitive: Primitive, at: Place, args: &[Data]) -> Result<Plan, Stop>
    ensures { Plans primitive at (held_all args.now) result }
{
    match primitive {
        Primitive::Map => plan_map(at, args),
        Primitive::Map2 => plan_map(at, args),
        Primitive::Map3 => plan_map(at, args),
        Primitive::Map4 => plan_map(at, args),
        Primitive::Map5 => plan_map(at, args),
        Primitive::Reduce => {
            two_rows(args)?;
            Ok(Plan::Reduce)
        }
        Primitive::ReduceComm => {
            two_rows(args)?;
            Ok(Plan::Reduce)
        }
        Primitive::Scan => {
            two_rows(args)?;
            Ok(Plan::Scan)
        }
        Primitive::Filter => plan_sieve(primitive, at, args),
        Primitive::Partition => plan_sieve(primitive, at, args),
        Primitive::Tabulate => {
            if args.len() == 1 {
                plan_table(at, &args[0])
            } else {
                Err(Stop::Memory)
            }
        }
        Primitive::Scatter => plan_scatter(primitive, at, args),
        Primitive::ReduceByIndex => plan_combine(alloc, primitive, at, args),
        Primitive::Zip => Ok(Plan::Done(done_zip(alloc, primitive, at, args)?)),
        Primitive::Zip3 => Ok(Plan::Done(done_zip(alloc, primitive, at, args)?)),
        _ => Ok(Plan::Done(done(alloc, primitive, at, args)?)),
    }
}

/// Puts the arguments of a function for one row on a stack.
#[tactic(auto, using(crate::proofs::Planning::rows_put))]
pub fn put_row(finish: Finish, args: &[Data], at: usize, stack: &mut Vec<Data>) -> Result<(), Stop>
    ensures { Put_row finish (held_all args.now) at (held_all stack.old.items) (held_all stack.new.items) result }
{
    match finish {
        Finish::Mapped => put_rows(args, at, stack),
        Finish::Kept => put_rows(args, at, stack),
        Finish::Parted => put_rows(args, at, stack),
        Finish::Tabulated(_) => match stack.push(number(at as u64)) {
            Ok(()) => Ok(()),
            Err(_) => Err(Stop::Memory),
        },
    }
}

/// What is made of the results of a function on rows; where there are none, of rows of the form that is told.
#[tactic(auto, using(crate::proofs::Planning::finishes))]
pub fn finish_rows(
    alloc: Global,
    finish: Finish,
    told: Form,
    at: Place,
    args: &[Data],
    built: Built,
) -> Result<Data, Stop>
    ensures { Counted_is (made_of (shape_held told) finish at (held_all args.now) (built_rows built)) (as_held result) }
{
    let told = Shared::new(alloc, told)?;
    match finish {
        Finish::Mapped => array(alloc, at, &told, 0, built),
        Finish::Tabulated(_) => array(alloc, at, &told, 0, built),
        Finish::Kept => {
            if args.len() == 1 {
                keep_rows(alloc, at, &args[0], &built)
            } else {
                Err(Stop::Memory)
            }
        }
        Finish::Parted => {
            if args.len() == 1 {
                part_rows(alloc, at, &args[0], &built)
            } else {
                Err(Stop::Memory)
            }
        }
    }
}
