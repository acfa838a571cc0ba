// The rows of one array and then those of another.
ghost use Rattle.std.specs.Prelude.{◌≡◌, ◌||◌, false, [], ◌∷◌, cond, nat_eq, IfOk};
ghost use Rattle.fut_flat.specs.declared.prim.Primitive.TheVariants as prim;
ghost use Rattle.fut_value.specs.Data.{Unmet_shape, same_sizes};
ghost use Rattle.fut_meaning.specs.Jobs.{job, or_met};
ghost use Rattle.array_data.specs.Answers.{Does};
ghost use Rattle.array_data.specs.Held.{as_held, held, shape_held};

use crate::parts::push_part;
use array_data::{
    Built, Data, Form, Stop, agrees, array_of_form, count, failed, row_depth, row_form,
};
use fut_scalar::{FailKind, NoMemory, Place, Shared};
use std::alloc::Global;

/// Whether the rows of two arrays fit, where both have some.
#[tactic(auto, using(crate::proofs::Joining::fits))]
pub fn do_fit(n: usize, m: usize, first: &Form, second: &Form) -> bool
    ensures { result ≡ (nat_eq n 0 || (nat_eq m 0 || same_sizes (shape_held first.now) (shape_held second.now))) }
{
    if n == 0 {
        return true;
    }
    if m == 0 {
        return true;
    }
    agrees(first, second)
}

/// What the rows of two arrays look like.
#[tactic(auto, using(crate::proofs::Joining::eithers))]
fn either_form(
    n: usize,
    m: usize,
    first: &Shared<Form>,
    second: &Shared<Form>,
) -> Result<Shared<Form>, NoMemory>
    ensures { IfOk result (λ form. shape_held form ≡ cond (nat_eq n 0) (cond (nat_eq m 0) (or_met (shape_held first.now) (shape_held second.now)) (shape_held second.now)) (shape_held first.now)) }
{
    if n > 0 {
        return first.share();
    }
    if m > 0 {
        return second.share();
    }
    match first.get() {
        Form::Unmet => second.share(),
        Form::Scalar(_) => first.share(),
        Form::Tuple(_) => first.share(),
        Form::Record(_, _) => first.share(),
        Form::Array(_, _) => first.share(),
    }
}

/// The rows of one array and then those of another.
#[tactic(auto, using(crate::proofs::Joining::joins))]
pub fn concat(alloc: Global, at: Place, first: &Data, second: &Data) -> Result<Data, Stop>
    ensures { Does (job false Unmet_shape prim.Concat at (held first.now ∷ held second.now ∷ [])) (as_held result) }
{
    let n = count(first)?;
    let m = count(second)?;
    let left = row_form(alloc, first)?;
    let right = row_form(alloc, second)?;
    if !do_fit(n, m, left.get(), right.get()) {
        return Err(failed(FailKind::Size, at));
    }
    let form = either_form(n, m, &left, &right)?;
    let mut built = Built::new(alloc);
    push_part(first, 0, n, &mut built)?;
    push_part(second, 0, m, &mut built)?;
    array_of_form(
        alloc,
        at,
        form,
        row_depth(first).max(row_depth(second)),
        built,
    )
}
