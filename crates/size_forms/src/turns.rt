// The turns of a loop.
ghost use Rattle.std.specs.Prelude.{◌≡◌, ◌+◌, IfOk};
ghost use Rattle.sized_types.specs.Sizes.{levels};
ghost use Rattle.fut_flat.specs.Erased.{pattern_of};
ghost use Rattle.fut_flat.specs.Numbers.{turn_numbers};
ghost use Rattle.fut_flat.proofs.ErasedForms.{turns_of};
ghost use Rattle.fut_sizes.specs.Agreeing.{Answer};
ghost use Rattle.fut_sizes.specs.Scopes.{Scope};
ghost use Rattle.fut_sizes.specs.Sizing.{differing, lacking};
ghost use Rattle.fut_sizes.specs.Steps.{State};
ghost use Rattle.fut_types.specs.Shapes.{IsTable};
ghost use Rattle.fut_types.specs.Types.{Sub};
ghost use Rattle.fut_typing.specs.Names.{Names};
ghost use Rattle.alias_parts.specs.Known.{Knows};
ghost use Rattle.size_arena.specs.Trees.{size_of};
ghost use Rattle.size_program.specs.Answers.{Answers, Steps};
ghost use Rattle.size_program.specs.Program.{sub_of};
ghost use Rattle.size_program.specs.Tables.{In_scope, Stands};
ghost use Rattle.size_forms.specs.Loops.{kept_or_dropped, turn_entered};
ghost use Rattle.size_forms.specs.Shown.{brings, each_is, inside_is, map_is, turn_is};
ghost use Rattle.size_slots.specs.Held.{Held};

use crate::loops::Each;
use bumpalo::Bump;
use flat_numbers::{after, after_pattern};
use fut_flat::{Loop, LoopForm};
use fut_scalar::NoMemory;
use size_arena::{SizeErr, SizeTree, past};
use size_loops::{differing, lacking};
use size_patterns::{Bindings, Unmet, bind, bind_at, note_pattern};
use size_program::{NumberMap, Program, Tables, drop_levels, dropped_by, with_name};
use std::alloc::Global;

/// What a turn begins with: the levels that the loop does not keep so far, and the sized type that it carries.
#[derive(Clone, Copy)]
pub struct Carried<'a> {
    pub dropped: &'a [u32],
    pub size: &'a SizeTree<'a>,
}

/// What is known inside of a turn, and what the size names of the loop's parameter took.
#[derive(Drop)]
pub struct Inside<'a> {
    pub names: &'a NumberMap<'a>,
    pub bindings: Bindings<'a>,
}

/// What a turn leads to.
#[derive(Clone, Copy)]
pub struct Turn<'a> {
    /// The loop's sized type, where the turn keeps it; otherwise there is another turn.
    pub kept: Option<&'a SizeTree<'a>>,
    /// The number behind the loop.
    pub next: u32,
}

/// How many levels there are in a sized type.
pub fn levels_of(tree: &SizeTree<'_>) -> Result<u32, NoMemory>
    ensures { IfOk result (λ count. count ≡ levels (size_of tree.now)) }
{
    past(tree, 0)
}

/// What the next turn of the loop at a node begins with, whose first value has this sized type.
pub fn carry<'a>(
    first: &'a SizeTree<'a>,
    node: u32,
    tables: &Tables<'a>,
    bump: &'a Bump,
) -> Result<Carried<'a>, NoMemory>
    ensures dropped { (s : State) → Stands tables.now s → IfOk result (λ c. c.dropped.now ≡ s.dropped node) }
    ensures size { (N : Names) (types : Sub) → IfOk result (λ c. size_of c.size.now ≡ lacking N types node c.dropped.now 0 (size_of first.now)) }
{
    let dropped = dropped_by(tables, node, bump);
    let size = lacking(first, node, dropped, bump)?;
    Ok(Carried { dropped, size })
}

// The scope of a turn: what it counts, or a row.
fn bring<'a>(
    form: &LoopForm<'a>,
    at: u32,
    each: &Each<'a>,
    names: &'a NumberMap<'a>,
    program: &Program<'a>,
    bump: &'a Bump,
    alloc: Global,
) -> Result<&'a NumberMap<'a>, SizeErr>
    requires table { IsTable program.now.names.table.now }
    ensures { (N : Names) (scope : Scope) → Knows program.now.names N → In_scope names.now scope → Answers map_is (brings N (turns_of form.now) at each.now.size scope) result }
{
    let Some(size) = each.size else {
        return Ok(names);
    };
    match form {
        LoopForm::For(bind, _) => {
            let inside = with_name(bind.0, size, names, bump)?;
            Ok(inside)
        }
        LoopForm::ForIn(pat, _) => {
            let node = after_pattern(at, pat)?;
            let bindings = bind(bump, program, &[], node, pat, size, names, alloc)?;
            Ok(bindings.names)
        }
        LoopForm::While(_) => Ok(names),
    }
}

/// Enters a turn of the loop at a node, whose turns begin at another: the parameter takes what is carried, and what is counted or
/// gone over is known.
pub fn enter_turn<'a>(
    whole: &'a Loop<'a>,
    node: u32,
    at: u32,
    carried: &'a SizeTree<'a>,
    each: &Each<'a>,
    names: &'a NumberMap<'a>,
    program: &Program<'a>,
    tables: &mut Tables<'a>,
    bump: &'a Bump,
    alloc: Global,
) -> Result<Inside<'a>, SizeErr>
    requires table { IsTable program.now.names.table.now }
    ensures entered { (N : Names) (scope : Scope) (f : Scope → Answer Scope) → Knows program.now.names N → In_scope names.now scope → each_is (turns_of whole.now.form) at N each.now f → Steps inside_is (turn_entered (sub_of program.now.types.now) node (at + turn_numbers (turns_of whole.now.form)) whole.now.sizes.now (pattern_of whole.now.pat) f (size_of carried.now) N scope) tables.old tables.new result }
    ensures held { IfOk result (λ i. Held i.bindings.found) }
{
    let first = after(node, 1)?;
    let value = after_pattern(first, &whole.pat)?;
    let bindings = bind_at(
        bump,
        program,
        whole.sizes,
        Unmet::Behind(at, &whole.form),
        value,
        &whole.pat,
        carried,
        names,
        alloc,
    )?;
    note_pattern(bump, program, &whole.pat, first, carried, tables)?;
    let inside = bring(&whole.form, at, each, bindings.names, program, bump, alloc)?;
    Ok(Inside {
        names: inside,
        bindings,
    })
}

/// Whether a turn of the loop at a node keeps what it carried, or drops levels.
#[tactic(auto, using(crate::proofs::LoopForms::ends))]
pub fn end_turn<'a>(
    carried: &Carried<'a>,
    given: &SizeTree<'_>,
    node: u32,
    next: u32,
    tables: &mut Tables<'a>,
    bump: &'a Bump,
    alloc: Global,
) -> Result<Turn<'a>, SizeErr>
    ensures turn { (N : Names) (types : Sub) → Steps turn_is (kept_or_dropped node (differing N types carried.now.dropped.now 0 (size_of carried.now.size.now) (size_of given.now)) (size_of carried.now.size.now)) tables.old tables.new result }
    ensures next { IfOk result (λ t. t.next ≡ next) }
{
    let levels = differing(carried.size, given, carried.dropped, alloc)?;
    if levels.len() == 0 {
        return Ok(Turn {
            kept: Some(carried.size),
            next,
        });
    }
    drop_levels(tables, node, levels.as_slice(), bump)?;
    Ok(Turn { kept: None, next })
}
