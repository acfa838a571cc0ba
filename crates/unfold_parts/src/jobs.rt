// Primitives on arrays: their data and their function.
ghost use Rattle.std.specs.Prelude.{◌≡◌, ◌≤◌, length, map};
ghost use Rattle.fut_meaning.specs.Datums.{takes};
ghost use Rattle.fut_meaning.specs.Operations.{parameters_of};
ghost use Rattle.unfold.specs.Held.{known_of};
ghost use Rattle.unfold.specs.Stuck.{the_function};
ghost use Rattle.unfold_parts.specs.Jobs.{Begun_to, Data_to, Ended_to};
ghost use Rattle.unfold_parts.specs.States.{steps_of};

use crate::packing::{pack, pack_all};
use crate::refusal::Refusal;
use crate::stepped::made;
use crate::steps::Unfolding;
use bumpalo::Bump;
use bumpalo::collections::into_bump_slice;
use fut_blocks::{Act, Atom};
use fut_flat::Primitive;
use fut_primitives::line_of;
use fut_scalar::Place;
use told_rows::{Sizes, row_of_function};
use unfold::{Known, KnownForm};

/// A primitive on arrays with its data as components, its function, and new names for the arguments of the function.
#[derive(Clone, Copy)]
pub struct Job<'a> {
    pub atoms: &'a [Atom],
    pub function: Known<'a>,
    pub params: &'a [u32],
    pub arguments: &'a [Known<'a>],
}

// Of the arguments of a primitive those that are data.
fn data_of<'a>(
    bump: &'a Bump,
    primitive: Primitive,
    arguments: &'a [Known<'a>],
) -> Result<&'a [Known<'a>], Refusal>
    ensures { Data_to (parameters_of primitive) (map known_of arguments.now) result }
{
    let parameters = line_of(primitive).parameters;
    if parameters.len() != arguments.len() {
        return Err(Refusal::Lost);
    }
    let mut chosen = Vec::new(bump);
    let mut at = 0;
    for argument in arguments {
        if parameters[at] == 0 {
            match chosen.push(*argument) {
                Ok(()) => {}
                Err(_) => return Err(Refusal::Memory),
            }
        }
        at += 1;
    }
    Ok(into_bump_slice(chosen))
}

// The one that is a function, or no data where the primitive takes none.
fn function_of<'a>(primitive: Primitive, arguments: &'a [Known<'a>]) -> Known<'a>
    ensures { known_of result ≡ the_function primitive (map known_of arguments.now) }
{
    let parameters = line_of(primitive).parameters;
    let mut at = 0;
    for parameter in parameters {
        if *parameter > 0 && at < arguments.len() {
            return arguments[at];
        }
        at += 1;
    }
    Known {
        form: KnownForm::Tuple(&[]),
    }
}

// How many arguments the function of a primitive takes.
fn takes(primitive: Primitive) -> usize
    ensures { result ≡ takes (parameters_of primitive) }
{
    let parameters = line_of(primitive).parameters;
    for parameter in parameters {
        if *parameter > 0 {
            return *parameter as usize;
        }
    }
    0
}

/// What a primitive on arrays begins with, which has all its arguments.
pub fn begin_job<'a>(
    work: &mut Unfolding<'a>,
    primitive: Primitive,
    arguments: &'a [Known<'a>],
) -> Result<Job<'a>, Refusal>
    ensures { Begun_to primitive (map known_of arguments.now) work.old.next (steps_of work.old) (steps_of work.new) work.new.next result }
{
    let known = match data_of(work.bump, primitive, arguments) {
        Ok(known) => known,
        Err(refusal) => return Err(refusal),
    };
    let atoms = match pack_all(work, known) {
        Ok(atoms) => atoms,
        Err(refusal) => return Err(refusal),
    };
    match work.names(takes(primitive)) {
        Ok(named) => Ok(Job {
            atoms,
            function: function_of(primitive, arguments),
            params: named.names,
            arguments: named.knowns,
        }),
        Err(refusal) => Err(refusal),
    }
}

/// The steps from the mark on are the body of the primitive's function, which gives what is known of the result. The mark is
/// no more than there are steps. The shape of what the function gives stands for it where there is none.
pub fn end_job<'a>(
    work: &mut Unfolding<'a>,
    sizes: Option<&'a Sizes<'a>>,
    mark: usize,
    primitive: Primitive,
    place: Place,
    job: &Job<'a>,
    given: &Known<'a>,
) -> Result<Known<'a>, Refusal>
    requires mark { mark ≤ length (steps_of work.old) }
    ensures { Ended_to sizes.entry mark primitive place (known_of job.now.function) job.now.atoms.now job.now.params.now (known_of given.now) work.old.next (steps_of work.old) (steps_of work.new) work.new.next result }
{
    let atom = match pack(work, given) {
        Ok(atom) => atom,
        Err(refusal) => return Err(refusal),
    };
    let results = match work.bump.try_alloc_slice_copy(&[atom]) {
        Ok(results) => results,
        Err(_) => return Err(Refusal::Memory),
    };
    let row = match row_of_function(sizes, primitive, &job.function, job.atoms, work.bump) {
        Ok(row) => row,
        Err(_) => return Err(Refusal::Memory),
    };
    match work.block(mark, results) {
        Ok(body) => made(
            work,
            Act::Primitive {
                primitive,
                place,
                row,
                data: job.atoms,
                params: job.params,
                body,
            },
        ),
        Err(refusal) => Err(refusal),
    }
}
