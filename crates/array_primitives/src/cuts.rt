// Indices of several parts: what each part asks for, and the data that is cut by them.
ghost use Rattle.std.specs.Prelude.{◌≡◌, ◌∷◌, slice_get, Some, IfOk, IfSome};
ghost use Rattle.fut_meaning.specs.Arrays.{Cut_at, Cut_backwards, Cut_slice, Pick_at, cut, cut_of, cut_shape, slice_cut, within_weight};
ghost use Rattle.fut_meaning.specs.Outcomes.{Val};
ghost use Rattle.array_data.specs.Answers.{Tells, exact_held};
ghost use Rattle.array_data.specs.Held.{as_held, held, held_all, rows_in, shape_held};
ghost use Rattle.array_primitives.specs.Slices.{Cut_is, Cuts_added, End_read, First_cut, cuts_asked, cuts_held, part_of, taken};

use array_data::{
    Built, Data, Exact, Form, Stop, copy, count, failed, form_of, inner_form, is_light, row,
    row_depth, row_form, size_of, untested, whole_number,
};
use fut_flat::Part;
use fut_scalar::{FailKind, List, NoMemory, Place, Shared};
use std::alloc::Global;

/// What is taken of the rows of an array.
#[derive(Clone, Copy, Drop)]
pub enum Cut {
    At(u64),
    /// From one row on, up to another.
    Slice(u64, u64),
    Backwards,
}

/// The row that an index asks for, of so many.
#[tactic(auto, using(crate::proofs::Asking::cutting))]
fn cut_at(at: Place, size: u64, index: Exact) -> Result<Cut, Stop>
    ensures { Cut_is (cut_of at size (Pick_at (exact_held index))) result }
{
    match index {
        Exact::Below(_) => Err(failed(FailKind::Bounds, at)),
        Exact::Natural(i) => {
            if i >= size {
                Err(failed(FailKind::Bounds, at))
            } else {
                Ok(Cut::At(i))
            }
        }
    }
}

/// The rows between two ends, of so many.
#[tactic(auto, using(crate::proofs::Asking::cutting))]
fn cut_between(at: Place, size: u64, from: Exact, to: Exact) -> Result<Cut, Stop>
    ensures { Cut_is (slice_cut at size (exact_held from) (exact_held to)) result }
{
    match from {
        Exact::Below(_) => Err(failed(FailKind::Bounds, at)),
        Exact::Natural(i) => match to {
            Exact::Below(_) => Err(failed(FailKind::Bounds, at)),
            Exact::Natural(j) => {
                if j < i {
                    return Err(failed(FailKind::Bounds, at));
                }
                if j > size {
                    return Err(failed(FailKind::Bounds, at));
                }
                Ok(Cut::Slice(i, j))
            }
        },
    }
}

/// An end of a slice, which is the first of the values where it is written, and how many values it takes.
#[tactic(auto, using(crate::proofs::Asking::ends))]
fn end_of(written: bool, values: &[Data], otherwise: u64) -> Result<(Exact, usize), Stop>
    ensures { End_read written (held_all values.now) otherwise result }
{
    if written {
        if values.len() == 0 {
            return Err(Stop::Memory);
        }
        let Ok(end) = whole_number(&values[0]) else {
            return Err(Stop::Memory);
        };
        return Ok((end, 1));
    }
    Ok((Exact::Natural(otherwise), 0))
}

/// What the first part of an index asks for of so many rows, and how many of the values it takes.
#[tactic(auto, using(crate::proofs::Asking::asking))]
fn first_cut(at: Place, part: Part, values: &[Data], size: u64) -> Result<(Cut, usize), Stop>
    ensures { First_cut at part (held_all values.now) size result }
{
    match part {
        Part::At => {
            let (index, used) = end_of(true, values, 0)?;
            Ok((cut_at(at, size, index)?, used))
        }
        Part::Slice { from, to } => {
            let (start, used) = end_of(from, values, 0)?;
            let (stop, more) = end_of(to, &values[used..], size)?;
            Ok((cut_between(at, size, start, stop)?, used + more))
        }
        Part::Backwards => Ok((Cut::Backwards, 0)),
    }
}

/// Puts what the parts of an index ask for behind other cuts.
#[tactic(auto, using(crate::proofs::Asking::all_asked))]
fn push_cuts(
    alloc: Global,
    at: Place,
    parts: &[Part],
    values: &[Data],
    form: &Form,
    cuts: &mut List<Cut>,
) -> Result<(), Stop>
    ensures { Cuts_added (cuts_asked at parts.now (held_all values.now) (shape_held form.now)) (cuts_held cuts.old) (cuts_held cuts.new) result }
{
    if parts.len() == 0 {
        if values.len() == 0 {
            return Ok(());
        }
        return Err(Stop::Memory);
    }
    let (cut, used) = first_cut(at, parts[0], values, size_of(form))?;
    let Ok(()) = cuts.push(cut) else {
        return Err(Stop::Memory);
    };
    let inner = inner_form(alloc, form)?;
    push_cuts(alloc, at, &parts[1..], &values[used..], inner.get(), cuts)
}

/// What data of a form looks like once it is cut.
#[tactic(auto, using(crate::proofs::CutRows::forms))]
fn cut_form(alloc: Global, cuts: &[Cut], form: &Shared<Form>) -> Result<Shared<Form>, NoMemory>
    ensures { IfOk result (λ form'. shape_held form' ≡ cut_shape (cuts_held cuts.now) (shape_held form.now)) }
{
    if cuts.len() == 0 {
        return form.share();
    }
    let size = size_of(form.get());
    let inner = cut_form(alloc, &cuts[1..], &inner_form(alloc, form.get())?)?;
    match cuts[0] {
        Cut::At(_) => Ok(inner),
        Cut::Slice(from, to) => {
            let size = to.saturating_sub(from);
            Ok(Shared::new(alloc, Form::Array(size, inner))?)
        }
        Cut::Backwards => Ok(Shared::new(alloc, Form::Array(size, inner))?),
    }
}

/// A row of an array of rows.
#[tactic(auto, using(crate::proofs::CutRows::inner_rows))]
pub fn inner_row(whole: &Data, at: u64) -> Option<&Data>
    ensures { IfSome result (λ row. slice_get (rows_in (held whole.now)) at ≡ Some (held row.now)) }
{
    let Data::Rows(_, _, rows) = whole else {
        return None;
    };
    let rows = rows.get().as_slice();
    if at < rows.len() as u64 {
        Some(&rows[at as usize])
    } else {
        None
    }
}

/// The data that cuts leave of some.
#[tactic(auto, using(crate::proofs::CutRows::wholes))]
#[cycle(cuts)]
fn cut_whole(alloc: Global, cuts: &[Cut], whole: &Data) -> Result<Data, NoMemory>
    ensures { IfOk result (λ found. cut (cuts_held cuts.now) (held whole.now) ≡ Val (held found)) }
{
    if cuts.len() == 0 {
        return match copy(whole) {
            Ok(same) => Ok(same),
            Err(_) => Err(NoMemory),
        };
    }
    match cuts[0] {
        Cut::At(i) => cut_row(alloc, &cuts[1..], whole, i),
        Cut::Slice(from, to) => cut_rows(alloc, &cuts[1..], whole, from as usize, to as usize),
        Cut::Backwards => cut_backwards(alloc, &cuts[1..], whole),
    }
}

/// What cuts leave of a row.
#[tactic(auto, using(crate::proofs::CutRows::one_row))]
#[cycle(cuts)]
fn cut_row(alloc: Global, cuts: &[Cut], whole: &Data, at: u64) -> Result<Data, NoMemory>
    ensures { IfOk result (λ found. cut (Cut_at at ∷ cuts_held cuts.now) (held whole.now) ≡ Val (held found)) }
{
    if let Some(next) = inner_row(whole, at) {
        return cut_whole(alloc, cuts, next);
    }
    match row(whole, at as usize) {
        Ok(next) => cut_whole(alloc, cuts, &next),
        Err(_) => Err(NoMemory),
    }
}

/// The array of what cuts leave of each of some rows.
#[tactic(auto, using(crate::proofs::CutRows::rows_cut))]
#[cycle(cuts)]
fn cut_rows(
    alloc: Global,
    cuts: &[Cut],
    whole: &Data,
    from: usize,
    to: usize,
) -> Result<Data, NoMemory>
    ensures { IfOk result (λ found. cut (Cut_slice from to ∷ cuts_held cuts.now) (held whole.now) ≡ Val (held found)) }
{
    let Ok(n) = count(whole) else {
        return Err(NoMemory);
    };
    if from > to || to > n {
        return Err(NoMemory);
    }
    let form = cut_form(alloc, cuts, &row_form(alloc, whole)?)?;
    let mut built = Built::new(alloc);
    for i in from..to {
        let Ok(next) = row(whole, i) else {
            return Err(NoMemory);
        };
        let next = cut_whole(alloc, cuts, &next)?;
        let Ok(()) = built.push(next) else {
            return Err(NoMemory);
        };
    }
    Ok(untested(alloc, form, row_depth(whole), built)?)
}

/// The array of what cuts leave of each row, the last one first.
#[tactic(auto, using(crate::proofs::CutRows::back_cut))]
#[cycle(cuts)]
fn cut_backwards(alloc: Global, cuts: &[Cut], whole: &Data) -> Result<Data, NoMemory>
    ensures { IfOk result (λ found. cut (Cut_backwards ∷ cuts_held cuts.now) (held whole.now) ≡ Val (held found)) }
{
    let Ok(n) = count(whole) else {
        return Err(NoMemory);
    };
    let form = cut_form(alloc, cuts, &row_form(alloc, whole)?)?;
    let mut built = Built::new(alloc);
    for i in 0..n {
        let Ok(next) = row(whole, n - 1 - i) else {
            return Err(NoMemory);
        };
        let next = cut_whole(alloc, cuts, &next)?;
        let Ok(()) = built.push(next) else {
            return Err(NoMemory);
        };
    }
    Ok(untested(alloc, form, row_depth(whole), built)?)
}

/// Data whose weight is tested.
#[tactic(auto, using(crate::proofs::Taking::weights))]
fn weighed(alloc: Global, at: Place, found: Data) -> Result<Data, Stop>
    ensures { Tells (within_weight at (held found)) (as_held result) }
{
    if is_light(&form_of(alloc, &found)?) {
        Ok(found)
    } else {
        Err(failed(FailKind::TooLarge, at))
    }
}

/// What an index gives of data, tested against the sizes of a form, where a part of it is a slice.
#[tactic(auto, using(crate::proofs::Taking::slices))]
fn take_slices(
    alloc: Global,
    at: Place,
    parts: &[Part],
    values: &[Data],
    form: &Form,
    whole: &Data,
) -> Result<Data, Stop>
    ensures { Tells (taken at parts.now (shape_held form.now) (held whole.now) (held_all values.now)) (as_held result) }
{
    let mut cuts = List::new(alloc);
    push_cuts(alloc, at, parts, values, form, &mut cuts)?;
    let found = cut_whole(alloc, cuts.as_slice(), whole)?;
    weighed(alloc, at, found)
}

/// What an index gives of data, tested against the sizes of a form. Rows on the way are not copied.
#[tactic(auto, using(crate::proofs::Taking::takings))]
fn take_parts(
    alloc: Global,
    at: Place,
    parts: &[Part],
    values: &[Data],
    form: &Form,
    whole: &Data,
) -> Result<Data, Stop>
    ensures { Tells (taken at parts.now (shape_held form.now) (held whole.now) (held_all values.now)) (as_held result) }
{
    if parts.len() == 0 {
        return take_slices(alloc, at, parts, values, form, whole);
    }
    let Form::Array(size, inner) = form else {
        return Err(Stop::Memory);
    };
    let (cut, used) = first_cut(at, parts[0], values, *size)?;
    let Cut::At(i) = cut else {
        return take_slices(alloc, at, parts, values, form, whole);
    };
    if let Some(next) = inner_row(whole, i) {
        return take_parts(alloc, at, &parts[1..], &values[used..], inner.get(), next);
    }
    let next = row(whole, i as usize)?;
    take_parts(alloc, at, &parts[1..], &values[used..], inner.get(), &next)
}

/// What an index gives of the first data, with the rest as the values of its parts.
#[tactic(auto, using(crate::proofs::Taking::parted))]
pub fn part_at(alloc: Global, at: Place, parts: &[Part], values: &[Data]) -> Result<Data, Stop>
    ensures { Tells (part_of at parts.now (held_all values.now)) (as_held result) }
{
    if values.len() == 0 {
        return Err(Stop::Memory);
    }
    let form = form_of(alloc, &values[0])?;
    take_parts(alloc, at, parts, &values[1..], &form, &values[0])
}
