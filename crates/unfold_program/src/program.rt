// The public call: the definitions that the entry reaches, and then the entry, applied to its parameters.
ghost use Rattle.std.specs.Prelude.{◌≡◌, [], IfErr, IfOk, Option, length, map};
ghost use Rattle.fut_flat.specs.Erased.{term_of};
ghost use Rattle.fut_meaning.specs.Flats.{flat_tops, named_terms};
ghost use Rattle.fut_meaning.specs.Found.{Sizing};
ghost use Rattle.told_rows.specs.Tables.{Told_by};
ghost use Rattle.unfold_reach.specs.Reach.{Reached, named_term};
ghost use Rattle.unfold.specs.Held.{known_of, scope_of};
ghost use Rattle.unfold_parts.specs.States.{steps_of};
ghost use Rattle.unfold_parts.specs.Tables.{Kept};
ghost use Rattle.unfold_parts.specs.declared.refusal.Refusal.TheVariants as refusal;
ghost use Rattle.unfold_program.specs.Answers.{defined};
ghost use Rattle.unfold_program.specs.Whole.{Are_scalars, Defined_to, Definitions_to, Entry_to, Finished, Given_to, Is_kept, Unfolds_to};

use crate::enter::see;
use crate::give::unwalked;
use crate::walk::{apply_all, walk};
use crate::walked::{Context, Walked};
use bumpalo::Bump;
use flat_numbers::{after, after_exp};
use fut_blocks::{Atom, Program};
use fut_flat::{Definition, Flat};
use fut_scalar::{BindId, DataType, Scalar};
use unfold::{Known, KnownForm, Scope};
use unfold_parts::{Refusal, Told, Tops, Unfolding, lay, nothing};
use unfold_reach::{above, reached};

/// What is known of some definitions, and the number of the next one's name.
#[derive(Drop)]
struct Made<'a> {
    context: Context<'a>,
    at: u32,
}

/// New names for the parameters, and what is known of them.
#[derive(Clone, Copy)]
struct Given<'a> {
    names: &'a [u32],
    arguments: &'a [Known<'a>],
}

/// The blocks of a program from an entry on, whose parameters are scalars of the types `types`. An integer without a suffix
/// has the type that is told for the number of its node, and `i32` where there is none. Where a sizing is told, rows that are
/// missing have its sizes, a size is worth what its name is, and `:>` tests sizes.
///
/// # Errors
///
/// - `Lost`: unfolding is stuck, as no typed program is at an entry that takes such arguments and gives data.
/// - `Memory`: no memory or no name is left, or the program has more nodes or is deeper than a measured one.
pub fn unfold<'a>(
    bump: &'a Bump,
    told: Told<'a>,
    flat: &Flat<'a>,
    entry: BindId,
    types: &'a [DataType],
) -> Result<Program<'a>, Refusal>
    ensures { Unfolds_to told.entry (flat_tops 0 (named_terms flat.now)) entry.0 types.now result }
{
    let mut state = Unfolding {
        bump,
        next: 0,
        steps: Vec::new(bump),
        packing: Vec::new(bump),
    };
    unfold_from(told, flat, entry, types, &mut state)
}

// The same, from no steps and no names on.
fn unfold_from<'a>(
    told: Told<'a>,
    flat: &Flat<'a>,
    entry: BindId,
    types: &'a [DataType],
    state: &mut Unfolding<'a>,
) -> Result<Program<'a>, Refusal>
    requires steps { steps_of state.old ≡ [] }
    requires names { state.old.next ≡ 0 }
    ensures { Unfolds_to told.entry (flat_tops 0 (named_terms flat.now)) entry.0 types.now result }
{
    let given = match parameters(types.len(), state) {
        Ok(given) => given,
        Err(refusal) => return Err(refusal),
    };
    let count = above(flat.definitions);
    let flags = match reached(state.bump, flat.definitions, count, entry, told.sizes) {
        Ok(flags) => flags,
        Err(_) => return Err(Refusal::Memory),
    };
    let context = Context {
        tops: Tops::new(state.bump),
        told,
    };
    match unfold_definitions(context, entry, flags, flat.definitions, state) {
        Ok(made) => unfold_entry(&made.context, entry, given, types, state),
        Err(refusal) => Err(refusal),
    }
}

// So many scalars, whichever.
fn scalars<'a>(bump: &'a Bump, count: usize) -> Result<&'a [Known<'a>], Refusal>
    ensures ok { IfOk result (λ row. Are_scalars count (map known_of row.now)) }
    ensures err { IfErr result (λ r. r ≡ refusal.Memory) }
{
    let truth = Known {
        form: KnownForm::Scalar(Atom::Constant(Scalar::Bool(true))),
    };
    match bump.try_alloc_slice_fill_clone(count, truth) {
        Ok(row) => Ok(row),
        Err(_) => Err(Refusal::Memory),
    }
}

// New names for so many scalars.
fn parameters<'a>(count: usize, state: &mut Unfolding<'a>) -> Result<Given<'a>, Refusal>
    ensures given { Given_to count state.old.next state.new.next result }
    ensures steps { steps_of state.new ≡ steps_of state.old }
{
    let row = match scalars(state.bump, count) {
        Ok(row) => row,
        Err(refusal) => return Err(refusal),
    };
    let made = match state.fresh(Known {
        form: KnownForm::Tuple(row),
    }) {
        Ok(made) => made,
        Err(refusal) => return Err(refusal),
    };
    match made.known.form {
        KnownForm::Tuple(arguments) => Ok(Given {
            names: made.names,
            arguments,
        }),
        _ => unreachable!(),
    }
}

// One more definition, if it is reached. `seen` is what it begins with, and then what the next one does.
fn unfold_definition<'a>(
    made: Made<'a>,
    reached: bool,
    definition: &Definition<'a>,
    seen: &mut Scope<'a>,
    state: &mut Unfolding<'a>,
) -> Result<Made<'a>, Refusal>
    requires kept { Kept made.context.tops }
    ensures defined { Defined_to definition.now.bind (term_of definition.now.value.now) reached made.entry (scope_of seen.old) state.old state.new (scope_of seen.new) result }
    ensures kept { IfOk result (λ r. Kept r.context.tops) }
{
    let Made { context, at } = made;
    let first = match after(at, 1) {
        Ok(first) => first,
        Err(_) => return Err(Refusal::Memory),
    };
    if !reached {
        let next = match after_exp(first, definition.value) {
            Ok(next) => next,
            Err(_) => return Err(Refusal::Memory),
        };
        return Ok(Made { context, at: next });
    }
    let mut r = unwalked();
    match walk(&context, 0, *seen, first, definition.value, state, &mut r) {
        Ok(()) => keep(Made { context, at }, definition.bind, r, seen, state.bump),
        Err(refusal) => Err(refusal),
    }
}

// What is known behind a definition, whose term has been walked, and what the next one begins with.
fn keep<'a>(
    made: Made<'a>,
    bind: BindId,
    walked: Walked<'a>,
    seen: &mut Scope<'a>,
    bump: &'a Bump,
) -> Result<Made<'a>, Refusal>
    requires kept { Kept made.context.tops }
    ensures ok { IfOk result (λ r. Is_kept bind made.entry walked.entry (scope_of seen.old) r (scope_of seen.new)) }
    ensures err { IfErr result (λ r. r ≡ refusal.Memory) }
    ensures kept { IfOk result (λ r. Kept r.context.tops) }
{
    let Made { context, at } = made;
    let Context { tops, told } = context;
    *seen = match see(told.sizes, at, &walked.known, *seen, bump) {
        Ok(next) => next,
        Err(refusal) => return Err(refusal),
    };
    match tops.with(bind, walked.known) {
        Ok(tops) => Ok(Made {
            context: Context { tops, told },
            at: walked.at,
        }),
        Err(refusal) => Err(refusal),
    }
}

// The definitions that are reached, in their order.
fn unfold_definitions<'a>(
    context: Context<'a>,
    entry: BindId,
    flags: &[bool],
    definitions: &[Definition<'a>],
    state: &mut Unfolding<'a>,
) -> Result<Made<'a>, Refusal>
    requires kept { Kept context.tops }
    requires none { defined context ≡ [] }
    requires flags { (z : Option Sizing) → Told_by context.told.sizes z → Reached z entry.0 definitions.now flags.now }
    requires length { length flags.now ≡ length definitions.now }
    ensures defined { Definitions_to context.entry.told entry.0 (flat_tops 0 (map named_term definitions.now)) state.old state.new result }
    ensures kept { IfOk result (λ r. Kept r.context.tops) }
{
    let mut made = Made { context, at: 0 };
    let mut seen = nothing();
    let mut at = 0;
    for definition in definitions {
        made = match unfold_definition(made, flags[at], definition, &mut seen, state) {
            Ok(made) => made,
            Err(refusal) => return Err(refusal),
        };
        at += 1;
    }
    Ok(made)
}

// The entry, applied to its arguments, and the steps so far as a program.
fn unfold_entry<'a>(
    context: &Context<'a>,
    entry: BindId,
    given: Given<'a>,
    types: &'a [DataType],
    state: &mut Unfolding<'a>,
) -> Result<Program<'a>, Refusal>
    requires kept { Kept context.now.tops }
    ensures { Entry_to context.now entry.0 given.entry types.now state.old result }
{
    let function = match context.tops.of(entry) {
        Some(function) => function,
        None => return Err(Refusal::Lost),
    };
    match apply_all(context, 0, &function, given.arguments, state) {
        Ok(known) => finish(given.names, types, known, state),
        Err(refusal) => Err(refusal),
    }
}

// The steps as the body of a program, whose results are the components of what is known of its result.
fn finish<'a>(
    params: &'a [u32],
    types: &'a [DataType],
    known: Known<'a>,
    state: &mut Unfolding<'a>,
) -> Result<Program<'a>, Refusal>
    ensures { Finished params.now types.now (known_of known.entry) state.old result }
{
    let results = match lay(state.bump, known, known) {
        Ok(results) => results,
        Err(refusal) => return Err(refusal),
    };
    match state.block(0, results) {
        Ok(body) => Ok(Program {
            params,
            types,
            body: *body,
            names: state.next,
        }),
        Err(refusal) => Err(refusal),
    }
}
