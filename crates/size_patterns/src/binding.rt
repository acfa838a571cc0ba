// What a `let` or a loop binds.
ghost use Rattle.std.specs.Prelude.{◌≡◌, length, Err as Refuses, IfOk};
ghost use Rattle.sized_types.specs.Sizes.{renamed};
ghost use Rattle.fut_flat.specs.Erased.{pattern_of};
ghost use Rattle.fut_flat.proofs.ErasedForms.{row_of};
ghost use Rattle.fut_sizes.specs.Agreeing.{Escapes};
ghost use Rattle.fut_sizes.specs.Matching.{Found as Finding, counted, nothing_found as nothing};
ghost use Rattle.fut_sizes.specs.Scopes.{Scope, all_met, as_taken, bound_at, bound_by, is_still_open, with_size_names};
ghost use Rattle.fut_sizes.specs.Sizing.{let_scope, with_general};
ghost use Rattle.fut_types.specs.Shapes.{IsTable};
ghost use Rattle.fut_types.specs.Types.{Sub};
ghost use Rattle.fut_typing.specs.Names.{Names};
ghost use Rattle.alias_parts.specs.Known.{Knows};
ghost use Rattle.size_arena.specs.Trees.{free_of, size_of};
ghost use Rattle.size_patterns.specs.Bound.{Bound_so, Taken_in, Tells_scope, unbound, unmet_at};
ghost use Rattle.size_patterns.specs.Heads.{Done};
ghost use Rattle.size_program.specs.Answers.{Answers};
ghost use Rattle.size_program.specs.Program.{sub_of};
ghost use Rattle.size_program.specs.Tables.{In_scope};
ghost use Rattle.size_slots.specs.Held.{Fall, Held, Holds};

use crate::changing::{Change, changed};
use crate::heads::with_numbers;
use crate::names::bind_numbers;
use crate::taking::take;
use bumpalo::Bump;
use flat_numbers::after_turns;
use fut_flat::{Let, LoopForm, Pat, PatForm};
use fut_scalar::{BindId, NoMemory};
use size_arena::{Free, Refusal, SizeErr, SizeTree};
use size_program::{NumberMap, Program, with_general_name};
use size_slots::{Found, nothing_found, read_free, with_sizes};
use std::alloc::Global;

/// What is known behind a pattern, and what its size names took: those are the first slots, by their places.
#[derive(Drop)]
pub struct Bindings<'a> {
    pub names: &'a NumberMap<'a>,
    pub found: Found<'a>,
}

/// Where a size name that no level has is refused.
#[derive(Clone, Copy)]
pub enum Unmet<'f> {
    At(u32),
    /// Behind the turns of a loop, which begin at a node: at the loop's body. Its number is told only where it is asked for.
    Behind(u32, &'f LoopForm<'f>),
}

/// What is known where size names are bound.
fn with_size_names<'a>(
    sizes: &[BindId],
    names: &'a NumberMap<'a>,
    bump: &'a Bump,
) -> Result<&'a NumberMap<'a>, NoMemory>
    ensures { (scope : Scope) → In_scope names.now scope → IfOk result (λ made. In_scope made.now (with_size_names sizes.now scope)) }
{
    let numbers = bind_numbers(sizes, bump)?;
    with_numbers(numbers, names, bump)
}

/// A slot for each size name, all open.
fn open_slots<'a>(sizes: &[BindId], alloc: Global) -> Result<Found<'a>, NoMemory>
    ensures { IfOk result (λ found. Holds found (counted (length sizes.now) nothing)) }
{
    let count = match u32::try_from(sizes.len()) {
        Ok(count) => count,
        Err(_) => return Err(NoMemory),
    };
    let mut found = nothing_found(alloc);
    found.next = count;
    Ok(found)
}

/// Whether a size is an open slot.
fn is_still_open(free: Free) -> bool
    ensures { result ≡ is_still_open (free_of free) }
{
    matches!(free, Free::Slot(_))
}

/// The node at which a size name that no level has is refused.
fn unmet_node(unmet: Unmet<'_>) -> Result<u32, NoMemory>
    ensures { IfOk result (λ node. node ≡ unmet_at unmet.entry) }
{
    match unmet {
        Unmet::At(node) => Ok(node),
        Unmet::Behind(first, form) => after_turns(first, form),
    }
}

/// A size name that no level has is refused.
fn refused(unmet: Unmet<'_>) -> Result<(), SizeErr>
    ensures { Answers Done (Refuses (Escapes (unmet_at unmet.entry))) result }
{
    match unmet_node(unmet) {
        Ok(node) => Err(SizeErr::Refused(Refusal::Escapes(node))),
        Err(NoMemory) => Err(SizeErr::Memory),
    }
}

/// Whether each size name took the size of a level.
fn all_met(unmet: Unmet<'_>, sizes: &[BindId], found: &Found<'_>) -> Result<(), SizeErr>
    requires { Fall found.now.slots }
    ensures { (σ : Finding) → Holds found.now σ → Answers Done (all_met (unmet_at unmet.entry) 0 sizes.now σ) result }
{
    for i in 0..sizes.len() {
        let number = match u32::try_from(i) {
            Ok(number) => number,
            Err(_) => return Err(SizeErr::Memory),
        };
        if is_still_open(read_free(found, Free::Slot(number))) {
            return refused(unmet);
        }
    }
    Ok(())
}

/// What is known before a pattern is taken.
fn unbound<'a>(
    sizes: &[BindId],
    names: &'a NumberMap<'a>,
    bump: &'a Bump,
    alloc: Global,
) -> Result<Bindings<'a>, NoMemory>
    ensures bound { (scope : Scope) → In_scope names.now scope → IfOk result (λ made. Bound_so made (unbound sizes.now scope)) }
    ensures holds { IfOk result (λ made. Held made.found) }
{
    let inside = with_size_names(sizes, names, bump)?;
    let found = open_slots(sizes, alloc)?;
    Ok(Bindings {
        names: inside,
        found,
    })
}

/// A pattern takes a value where its size names are bound already, and each of these the size of a level.
fn take_met<'a>(
    bump: &'a Bump,
    program: &Program<'a>,
    sizes: &[BindId],
    unmet: Unmet<'_>,
    at: u32,
    pat: &Pat<'_>,
    size: &'a SizeTree<'a>,
    names: &'a NumberMap<'a>,
    table: &mut Found<'a>,
) -> Result<&'a NumberMap<'a>, SizeErr>
    requires is_table { IsTable program.now.names.table.now }
    requires holds { Held table.old }
    ensures gives { (N : Names) (scope : Scope) → Knows program.now.names N → In_scope names.now (with_size_names sizes.now scope) → Holds table.old (counted (length sizes.now) nothing) → Answers (Taken_in table.new) (bound_at N sizes.now (unmet_at unmet.entry) at (pattern_of pat.now) (size_of size.now) scope) result }
    ensures holds { IfOk result (λ made. Held table.new) }
{
    match take(bump, program, sizes, at, pat, size, names, table) {
        Ok(made) => match all_met(unmet, sizes, table) {
            Ok(()) => Ok(made),
            Err(error) => Err(error),
        },
        Err(error) => Err(error),
    }
}

/// The same, of what is known before.
fn bind_in<'a>(
    bump: &'a Bump,
    program: &Program<'a>,
    sizes: &[BindId],
    unmet: Unmet<'_>,
    at: u32,
    pat: &Pat<'_>,
    size: &'a SizeTree<'a>,
    before: Bindings<'a>,
) -> Result<Bindings<'a>, SizeErr>
    requires is_table { IsTable program.now.names.table.now }
    requires holds { Held before.found }
    ensures gives { (N : Names) (scope : Scope) → Knows program.now.names N → Bound_so before.entry (unbound sizes.now scope) → Answers Bound_so (bound_at N sizes.now (unmet_at unmet.entry) at (pattern_of pat.now) (size_of size.now) scope) result }
    ensures holds { IfOk result (λ made. Held made.found) }
{
    let mut found = before.found;
    match take_met(
        bump,
        program,
        sizes,
        unmet,
        at,
        pat,
        size,
        before.names,
        &mut found,
    ) {
        Ok(names) => Ok(Bindings { names, found }),
        Err(error) => Err(error),
    }
}

/// What is known behind the pattern of a `let` or a loop, with its size names, which takes a value of this sized type, found at a
/// node.
///
/// `Err`: the value has not the sizes that are written, or a size name is that of no level; or memory ran out.
pub fn bind_at<'a>(
    bump: &'a Bump,
    program: &Program<'a>,
    sizes: &[BindId],
    unmet: Unmet<'_>,
    at: u32,
    pat: &Pat<'_>,
    size: &'a SizeTree<'a>,
    names: &'a NumberMap<'a>,
    alloc: Global,
) -> Result<Bindings<'a>, SizeErr>
    requires is_table { IsTable program.now.names.table.now }
    ensures gives { (N : Names) (scope : Scope) → Knows program.now.names N → In_scope names.now scope → Answers Bound_so (bound_at N sizes.now (unmet_at unmet.entry) at (pattern_of pat.now) (size_of size.now) scope) result }
    ensures holds { IfOk result (λ made. Held made.found) }
{
    match unbound(sizes, names, bump, alloc) {
        Ok(before) => bind_in(bump, program, sizes, unmet, at, pat, size, before),
        Err(NoMemory) => Err(SizeErr::Memory),
    }
}

/// The same where a size name that no level has is refused at the value.
pub fn bind<'a>(
    bump: &'a Bump,
    program: &Program<'a>,
    sizes: &[BindId],
    at: u32,
    pat: &Pat<'_>,
    size: &'a SizeTree<'a>,
    names: &'a NumberMap<'a>,
    alloc: Global,
) -> Result<Bindings<'a>, SizeErr>
    requires is_table { IsTable program.now.names.table.now }
    ensures gives { (N : Names) (scope : Scope) → Knows program.now.names N → In_scope names.now scope → Answers Bound_so (bound_by N sizes.now at (pattern_of pat.now) (size_of size.now) scope) result }
    ensures holds { IfOk result (λ made. Held made.found) }
{
    bind_at(
        bump,
        program,
        sizes,
        Unmet::At(at),
        at,
        pat,
        size,
        names,
        alloc,
    )
}

/// A sized type of what is known behind a pattern, where size names stand for what they took.
pub fn rename_taken<'a>(
    sizes: &[BindId],
    found: &Found<'_>,
    tree: &'a SizeTree<'a>,
    bump: &'a Bump,
) -> Result<&'a SizeTree<'a>, NoMemory>
    requires { Held found.now }
    ensures { (σ : Finding) → Holds found.now σ → IfOk result (λ made. size_of made.now ≡ renamed (as_taken sizes.now σ) (size_of tree.now)) }
{
    let slotted = changed(tree, &Change::Slots(sizes), 0, bump)?;
    with_sizes(slotted, found, bump)
}

/// What is known behind the name of a function, which is general; a pattern of another form binds none.
fn with_general<'a>(
    pat: &Pat<'_>,
    size: &'a SizeTree<'a>,
    names: &'a NumberMap<'a>,
    bump: &'a Bump,
) -> Result<&'a NumberMap<'a>, NoMemory>
    ensures { (N : Names) (types : Sub) (scope : Scope) → In_scope names.now scope → IfOk result (λ made. In_scope made.now (with_general N types (pattern_of pat.now) (size_of size.now) scope)) }
{
    match pat.form {
        PatForm::Bound(bind) => with_general_name(bind.0, size, names, bump),
        PatForm::Wild => Ok(names),
        PatForm::Tuple(_) => Ok(names),
        PatForm::Record(_) => Ok(names),
        PatForm::Typed(_, _) => Ok(names),
    }
}

/// What is known behind a `let` whose value, found at a node, has this sized type.
///
/// `Err`: as for [`bind`].
pub fn let_scope<'a>(
    bump: &'a Bump,
    program: &Program<'a>,
    one: &Let<'_>,
    at: u32,
    size: &'a SizeTree<'a>,
    names: &'a NumberMap<'a>,
    alloc: Global,
) -> Result<&'a NumberMap<'a>, SizeErr>
    requires is_table { IsTable program.now.names.table.now }
    ensures { (N : Names) (scope : Scope) → Knows program.now.names N → In_scope names.now scope → Answers Tells_scope (let_scope N (sub_of program.now.types.now) (row_of one.now).0 at (size_of size.now) scope) result }
{
    if one.is_function {
        return match with_general(&one.pat, size, names, bump) {
            Ok(made) => Ok(made),
            Err(NoMemory) => Err(SizeErr::Memory),
        };
    }
    match bind(bump, program, one.sizes, at, &one.pat, size, names, alloc) {
        Ok(made) => Ok(made.names),
        Err(error) => Err(error),
    }
}
