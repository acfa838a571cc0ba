// Loops.
ghost use Rattle.std.specs.Prelude.{◌≡◌, ◌+◌, [], IfOk, OnOk, take};
ghost use Rattle.fut_aliases.specs.Aliases.{first_name_alone};
ghost use Rattle.fut_aliases.specs.Looking.{carried_scope};
ghost use Rattle.fut_aliases.specs.Loops.{all_carried, own_names, starts};
ghost use Rattle.fut_aliases.specs.Steps.{behind};
ghost use Rattle.fut_aliases.specs.Values.{components, of_type};
ghost use Rattle.fut_flat.specs.Erased.{pattern_of, term_of};
ghost use Rattle.fut_flat.proofs.ErasedForms.{turns_of};
ghost use Rattle.fut_types.specs.Shapes.{IsTable};
ghost use Rattle.fut_typing.specs.Names.{Names};
ghost use Rattle.alias_joins.specs.SetRows.{sets_of};
ghost use Rattle.alias_loops.specs.Carried.{carrieds_of};
ghost use Rattle.alias_parts.specs.Known.{Knows};
ghost use Rattle.alias_program.specs.Program.{sub_of};
ghost use Rattle.alias_scopes.specs.Scopes.{scope_of};
ghost use Rattle.alias_values.specs.Trees.{value_of};
ghost use Rattle.alias_types.specs.Kinds.{kinds_of};
ghost use Rattle.alias_forms.specs.Loops.{Flows, brings};
ghost use Rattle.alias_forms.specs.Walked.{kinds_at, types_at};

use crate::seen::{Found, Site};
use alias_loops::{Carried, carried_by, parameter_value};
use alias_losses::Losses;
use alias_patterns::{bound, own_names};
use alias_program::{Program, after, no_alias, type_at};
use alias_scopes::{ScopeTree, with_value};
use alias_types::of_type;
use alias_values::ValueTree;
use bumpalo::Bump;
use fut_aliases::{Alias, Loss, Named};
use fut_flat::{Loop, LoopForm};
use fut_scalar::NoMemory;
use uniqueness::Held;

/// What a loop goes over.
#[derive(Clone, Copy)]
pub struct GoneOver<'a> {
    pub over: &'a [Alias],
    /// The value of what it counts, or of an element; a `while` has none.
    pub element: Option<&'a ValueTree<'a>>,
    /// The first name in what it goes over, if there is one.
    pub first_name: Option<Named>,
    /// The number behind it; where a `while`'s condition begins.
    pub after: u32,
}

/// What stands between a loop's first values and its body.
#[derive(Clone, Copy)]
pub struct Passed {
    /// The first name in it, if there is one.
    pub first_name: Option<Named>,
    /// The number of the body.
    pub after: u32,
}

/// What a turn gives.
#[derive(Clone, Copy)]
pub struct Turn<'a> {
    pub held: Held<'a>,
    /// The first name in condition and body, or in what the loop goes over, if there is one.
    pub first_name: Option<Named>,
    /// The number of the body.
    pub body: u32,
    /// The number behind it.
    pub after: u32,
}

/// What the first look at a loop found.
#[derive(Clone, Copy)]
pub struct LoopFlow<'a> {
    pub carried: &'a [Carried<'a>],
    /// What a turn consumes beyond what was consumed before.
    pub later: &'a [Loss],
    /// What the body gives.
    pub value: &'a ValueTree<'a>,
    /// The first name in condition and body, or in what the loop goes over, if there is one.
    pub first_name: Option<Named>,
    /// The number of the body.
    pub body: u32,
    /// The number behind it.
    pub after: u32,
}

/// A value of a node's type whose components all have one set.
pub fn of_node<'a>(
    bump: &'a Bump,
    program: &Program<'a>,
    node: u32,
    set: &'a [Alias],
) -> Result<&'a ValueTree<'a>, NoMemory>
    ensures { IfOk result (λ made. value_of made.now ≡ of_type (kinds_of program.now.kinds.now) set.now (sub_of program.now.types.now node)) }
{
    let ty = type_at(program, node)?;
    let made = of_type(bump, program.kinds, set, ty)?;
    Ok(made)
}

// The scope of a turn: what it counts, or an element.
fn bring<'a>(
    bump: &'a Bump,
    program: &Program<'a>,
    form: &LoopForm<'_>,
    at: u32,
    element: Option<&'a ValueTree<'a>>,
    scope: &'a ScopeTree<'a>,
) -> Result<&'a ScopeTree<'a>, NoMemory>
    requires table { IsTable program.now.names.table.now }
    ensures { (N : Names) → Knows program.now.names N → IfOk result (λ made. scope_of made.now ≡ brings N (sub_of program.now.types.now) (turns_of form.now) at element.entry (scope_of scope.now)) }
{
    let Some(value) = element else {
        return Ok(scope);
    };
    match form {
        LoopForm::For(bind, _) => with_value(bump, *bind, value, scope),
        LoopForm::ForIn(pattern, _) => { bound(bump, program, false, pattern, at, value, scope) }
        LoopForm::While(_) => Ok(scope),
    }
}

/// The scope of a turn of a loop at a node, whose parameters share with these sets.
pub fn turn_scope<'a>(
    bump: &'a Bump,
    site: &Site<'a>,
    whole: &Loop<'_>,
    at: u32,
    turns: u32,
    element: Option<&'a ValueTree<'a>>,
    sets: &[&'a [Alias]],
) -> Result<&'a ScopeTree<'a>, NoMemory>
    requires table { IsTable site.now.program.names.table.now }
    ensures { (N : Names) → Knows site.now.program.names N → IfOk result (λ made. scope_of made.now ≡ brings N (types_at site.now) (turns_of whole.now.form) turns element.entry (carried_scope first_name_alone N (kinds_at site.now) (types_at site.now) (pattern_of whole.now.pat) (1 + at) (sets_of sets.now) (scope_of site.now.scope.now))) }
{
    let first = after(at, 1)?;
    let value = parameter_value(bump, &site.program, first, sets)?;
    let scope = bound(
        bump,
        &site.program,
        false,
        &whole.pat,
        first,
        value,
        site.scope,
    )?;
    bring(bump, &site.program, &whole.form, turns, element, scope)
}

/// Ends the first look at a loop: what it carries is told by what the turn consumed, which is put back.
pub fn end_flow<'a>(
    bump: &'a Bump,
    site: &Site<'a>,
    losses: &mut Losses,
    before: usize,
    whole: &Loop<'_>,
    at: u32,
    node: u32,
    first: &Found<'a>,
    turn: &Turn<'a>,
) -> Result<LoopFlow<'a>, NoMemory>
    requires table { IsTable site.now.program.names.table.now }
    ensures carried { (N : Names) → Knows site.now.program.names N → IfOk result (λ f. carrieds_of f.carried.now ≡ all_carried losses.old (starts N (term_of whole.now.first) node (value_of first.now.held.value.now)) (components (own_names first_name_alone N (pattern_of whole.now.pat) (1 + at) (of_type (kinds_at site.now) [] (types_at site.now (1 + at))))) (components (value_of first.now.held.value.now)) (components (value_of turn.now.held.value.now))) }
    ensures later { IfOk result (λ f. f.later.now ≡ behind before losses.old) }
    ensures rest { IfOk result (Flows turn.now) }
    ensures back { OnOk result (losses.new ≡ take before losses.old) }
{
    let begin = after(at, 1)?;
    let plain = of_node(bump, &site.program, begin, no_alias(bump))?;
    let own = own_names(bump, &site.program, &whole.pat, begin, plain)?;
    let carried = carried_by(
        bump,
        &site.program.names,
        losses,
        &whole.first,
        node,
        own,
        first.held.value,
        turn.held.value,
    )?;
    let later = losses.later(bump, before)?;
    losses.put_back(before);
    Ok(LoopFlow {
        carried,
        later,
        value: turn.held.value,
        first_name: turn.first_name,
        body: turn.body,
        after: turn.after,
    })
}
