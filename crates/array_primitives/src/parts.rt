// Parts of arrays: some rows of one, in their order or backwards.
ghost use Rattle.std.specs.Prelude.{◌≡◌, false, ◌+◌, ◌<◌, ◌≤◌, [], ◌∷◌, ◌++◌, drop, length, pos, reverse, take};
ghost use Rattle.std.specs.Int.{int_rem_euclid};
ghost use Rattle.fut_value.specs.Data.{Unmet_shape};
ghost use Rattle.fut_meaning.specs.Arrays.{array_of};
ghost use Rattle.fut_meaning.specs.Jobs.{around, job};
ghost use Rattle.fut_flat.specs.declared.prim.Primitive.TheVariants as prim;
ghost use Rattle.array_data.specs.Answers.{All_added, Does, Tells, exact_held};
ghost use Rattle.array_data.specs.Held.{as_held, built_rows, held, row_shape_in, rows_in};

use array_data::{
    Built, Data, Exact, Stop, array_of_form, count, failed, row, row_depth, row_form, whole_number,
};
use fut_scalar::{FailKind, Place};
use std::alloc::Global;

/// Puts rows of an array, so many from a place on, behind others.
#[tactic(auto, using(crate::proofs::Cutting::pushing))]
pub fn push_part(array: &Data, from: usize, many: usize, built: &mut Built) -> Result<(), Stop>
    requires { from + many ≤ length (rows_in (held array.now)) }
    ensures { All_added (take many (drop from (rows_in (held array.now)))) (built_rows built.old) (built_rows built.new) result }
{
    for i in 0..many {
        let Some(at) = from.checked_add(i) else {
            return Err(Stop::Memory);
        };
        let Ok(next) = row(array, at) else {
            return Err(Stop::Memory);
        };
        let Ok(()) = built.push(next) else {
            return Err(Stop::Memory);
        };
    }
    Ok(())
}

/// The array of some rows of one.
#[tactic(auto, using(crate::proofs::Cutting::some_part))]
pub fn part(alloc: Global, at: Place, whole: &Data, from: usize, many: usize) -> Result<Data, Stop>
    requires { from + many ≤ length (rows_in (held whole.now)) }
    ensures { Tells (array_of at (row_shape_in (held whole.now)) (take many (drop from (rows_in (held whole.now))))) (as_held result) }
{
    let form = row_form(alloc, whole)?;
    let mut built = Built::new(alloc);
    push_part(whole, from, many, &mut built)?;
    array_of_form(alloc, at, form, row_depth(whole), built)
}

/// The first rows, as many as are asked for.
#[tactic(auto, using(crate::proofs::Cutting::takings))]
pub fn take(alloc: Global, at: Place, size: &Data, whole: &Data) -> Result<Data, Stop>
    ensures { Does (job false Unmet_shape prim.Take at (held size.now ∷ held whole.now ∷ [])) (as_held result) }
{
    let size = whole_number(size)?;
    let n = count(whole)?;
    match size {
        Exact::Below(_) => Err(failed(FailKind::Bounds, at)),
        Exact::Natural(many) => {
            if many > n as u64 {
                Err(failed(FailKind::Bounds, at))
            } else {
                part(alloc, at, whole, 0, many as usize)
            }
        }
    }
}

/// All rows but the first, as many as are asked for.
#[tactic(auto, using(crate::proofs::Cutting::droppings))]
pub fn drop_rows(alloc: Global, at: Place, size: &Data, whole: &Data) -> Result<Data, Stop>
    ensures { Does (job false Unmet_shape prim.Drop at (held size.now ∷ held whole.now ∷ [])) (as_held result) }
{
    let size = whole_number(size)?;
    let n = count(whole)?;
    match size {
        Exact::Below(_) => Err(failed(FailKind::Bounds, at)),
        Exact::Natural(many) => {
            if many > n as u64 {
                Err(failed(FailKind::Bounds, at))
            } else {
                part(alloc, at, whole, many as usize, n - many as usize)
            }
        }
    }
}

/// All rows but the last.
#[tactic(auto, using(crate::proofs::Cutting::ends))]
pub fn init(alloc: Global, at: Place, whole: &Data) -> Result<Data, Stop>
    ensures { Does (job false Unmet_shape prim.Init at (held whole.now ∷ [])) (as_held result) }
{
    let n = count(whole)?;
    if n == 0 {
        return Err(failed(FailKind::Bounds, at));
    }
    part(alloc, at, whole, 0, n - 1)
}

/// All rows but the first.
#[tactic(auto, using(crate::proofs::Cutting::ends))]
pub fn tail(alloc: Global, at: Place, whole: &Data) -> Result<Data, Stop>
    ensures { Does (job false Unmet_shape prim.Tail at (held whole.now ∷ [])) (as_held result) }
{
    let n = count(whole)?;
    if n == 0 {
        return Err(failed(FailKind::Bounds, at));
    }
    part(alloc, at, whole, 1, n - 1)
}

/// The first row.
#[tactic(auto, using(crate::proofs::Cutting::ends))]
pub fn head(at: Place, whole: &Data) -> Result<Data, Stop>
    ensures { Does (job false Unmet_shape prim.Head at (held whole.now ∷ [])) (as_held result) }
{
    let n = count(whole)?;
    if n == 0 {
        return Err(failed(FailKind::Bounds, at));
    }
    row(whole, 0)
}

/// The last row.
#[tactic(auto, using(crate::proofs::Cutting::ends))]
pub fn last(at: Place, whole: &Data) -> Result<Data, Stop>
    ensures { Does (job false Unmet_shape prim.Last at (held whole.now ∷ [])) (as_held result) }
{
    let n = count(whole)?;
    if n == 0 {
        return Err(failed(FailKind::Bounds, at));
    }
    row(whole, n - 1)
}

/// How many rows stand in front of the one that comes first when an array is turned.
#[tactic(auto, using(crate::proofs::Cutting::remainders))]
fn turned(by: Exact, count: u64) -> u64
    requires { 0 < count }
    ensures remainder { int_rem_euclid (exact_held by) (pos count) ≡ pos result }
    ensures below { result < count }
{
    match by {
        Exact::Natural(n) => n % count,
        Exact::Below(n) => count - 1 - n % count,
    }
}

/// Puts the rows of an array behind others, counted around from one on.
#[tactic(auto, using(crate::proofs::Cutting::turning))]
fn push_around(array: &Data, by: Exact, n: usize, built: &mut Built) -> Result<(), Stop>
    requires { n ≡ length (rows_in (held array.now)) }
    ensures { All_added (around (exact_held by) (rows_in (held array.now))) (built_rows built.old) (built_rows built.new) result }
{
    if n == 0 {
        return Ok(());
    }
    let k = turned(by, n as u64) as usize;
    push_part(array, k, n - k, built)?;
    push_part(array, 0, k, built)
}

/// The rows counted around, from one on.
#[tactic(auto, using(crate::proofs::Cutting::turns))]
pub fn rotate(alloc: Global, at: Place, by: &Data, whole: &Data) -> Result<Data, Stop>
    ensures { Does (job false Unmet_shape prim.Rotate at (held by.now ∷ held whole.now ∷ [])) (as_held result) }
{
    let by = whole_number(by)?;
    let n = count(whole)?;
    let form = row_form(alloc, whole)?;
    let mut built = Built::new(alloc);
    push_around(whole, by, n, &mut built)?;
    array_of_form(alloc, at, form, row_depth(whole), built)
}

/// Puts the rows of an array behind others, the last one first.
#[tactic(auto, using(crate::proofs::Cutting::backwards))]
fn push_backwards(array: &Data, n: usize, built: &mut Built) -> Result<(), Stop>
    requires { n ≡ length (rows_in (held array.now)) }
    ensures { All_added (reverse (rows_in (held array.now))) (built_rows built.old) (built_rows built.new) result }
{
    for i in 0..n {
        let Ok(next) = row(array, n - 1 - i) else {
            return Err(Stop::Memory);
        };
        let Ok(()) = built.push(next) else {
            return Err(Stop::Memory);
        };
    }
    Ok(())
}

/// The array of the rows backwards.
#[tactic(auto, using(crate::proofs::Cutting::some_part))]
pub fn turned_back(alloc: Global, at: Place, whole: &Data, n: usize) -> Result<Data, Stop>
    requires { n ≡ length (rows_in (held whole.now)) }
    ensures { Tells (array_of at (row_shape_in (held whole.now)) (reverse (rows_in (held whole.now)))) (as_held result) }
{
    let form = row_form(alloc, whole)?;
    let mut built = Built::new(alloc);
    push_backwards(whole, n, &mut built)?;
    array_of_form(alloc, at, form, row_depth(whole), built)
}

/// The rows backwards.
#[tactic(auto, using(crate::proofs::Cutting::turned_back))]
pub fn reverse(alloc: Global, at: Place, whole: &Data) -> Result<Data, Stop>
    ensures { Does (job false Unmet_shape prim.Reverse at (held whole.now ∷ [])) (as_held result) }
{
    let n = count(whole)?;
    turned_back(alloc, at, whole, n)
}
