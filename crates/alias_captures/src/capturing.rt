// The walk over a term. It takes a row of `let`s and a list of parts from the last one on, as sets are united.
ghost use Rattle.std.specs.Prelude.{◌≡◌, IfOk, map};
ghost use Rattle.fut_aliases.specs.Aliases.{union};
ghost use Rattle.fut_aliases.specs.Capturing.{all_captured, capture, captures, turns_captured};
ghost use Rattle.fut_flat.specs.Erased.{term_of, terms};
ghost use Rattle.fut_flat.proofs.ErasedForms.{loop_of, row_of, turns_of};
ghost use Rattle.fut_types.specs.Shapes.{IsTable};
ghost use Rattle.fut_typing.specs.Names.{Names};
ghost use Rattle.alias_captures.specs.Captures.{capture_of, lets_before};
ghost use Rattle.alias_parts.specs.Known.{Knows};
ghost use Rattle.alias_scopes.specs.Scopes.{scope_of};

use crate::captures::{Capture, captures, name_captured, one_field};
use alias_parts::PartNames;
use alias_program::no_alias;
use alias_scopes::ScopeTree;
use alias_values::union;
use bumpalo::Bump;
use fut_aliases::Alias;
use fut_flat::{Exp, Form, Let, Loop, LoopForm};
use fut_scalar::NoMemory;

/// All aliases of what a term names from outside, where names stand for what they do in a scope. A label that is not known is
/// want of memory.
pub fn captured<'a>(
    bump: &'a Bump,
    names: &PartNames<'_>,
    scope: &ScopeTree<'a>,
    exp: &Exp<'_>,
) -> Result<&'a [Alias], NoMemory>
    requires table { IsTable names.now.table.now }
    ensures { (N : Names) → Knows names.now N → IfOk result (λ set. set.now ≡ captures (capture N (scope_of scope.now) (term_of exp.now))) }
{
    let found = capture(bump, exp, names, scope)?;
    let set = captures(bump, &found)?;
    Ok(set)
}

#[cycle(capture)]
fn capture<'a>(
    bump: &'a Bump,
    exp: &Exp<'_>,
    names: &PartNames<'_>,
    scope: &ScopeTree<'a>,
) -> Result<Capture<'a>, NoMemory>
    requires table { IsTable names.now.table.now }
    ensures { (N : Names) → Knows names.now N → IfOk result (λ c. capture_of c ≡ capture N (scope_of scope.now) (term_of exp.now)) }
{
    match exp.form {
        Form::Use(name, _) => Ok(name_captured(bump, name, scope)),
        Form::Strict { act, parts, .. } => {
            if parts.len() == 1 {
                let found = capture(bump, &parts[0], names, scope)?;
                return one_field(bump, names, &act, &found);
            }
            let set = all_names(bump, parts, names, scope)?;
            Ok(Capture::NamesOf(set))
        }
        Form::Lambda(_, body) => {
            let set = names_of(bump, body, names, scope)?;
            Ok(Capture::NamesOf(set))
        }
        Form::Apply(function, argument) => {
            let behind = names_of(bump, argument, names, scope)?;
            let set = add_names(bump, function, names, scope, behind)?;
            Ok(Capture::NamesOf(set))
        }
        Form::Lets(row, body) => {
            if row.len() == 0 {
                return capture(bump, body, names, scope);
            }
            let behind = names_of(bump, body, names, scope)?;
            let set = add_lets(bump, row, names, scope, behind)?;
            Ok(Capture::NamesOf(set))
        }
        Form::If(test, yes, no) => {
            let last = names_of(bump, no, names, scope)?;
            let behind = add_names(bump, yes, names, scope, last)?;
            let set = add_names(bump, test, names, scope, behind)?;
            Ok(Capture::NamesOf(set))
        }
        Form::Loop(whole) => {
            let set = loop_names(bump, whole, names, scope)?;
            Ok(Capture::NamesOf(set))
        }
    }
}

#[cycle(capture)]
fn names_of<'a>(
    bump: &'a Bump,
    exp: &Exp<'_>,
    names: &PartNames<'_>,
    scope: &ScopeTree<'a>,
) -> Result<&'a [Alias], NoMemory>
    requires table { IsTable names.now.table.now }
    ensures { (N : Names) → Knows names.now N → IfOk result (λ set. set.now ≡ captures (capture N (scope_of scope.now) (term_of exp.now))) }
{
    let found = capture(bump, exp, names, scope)?;
    captures(bump, &found)
}

// Those of a term before others.
#[cycle(capture)]
fn add_names<'a>(
    bump: &'a Bump,
    exp: &Exp<'_>,
    names: &PartNames<'_>,
    scope: &ScopeTree<'a>,
    behind: &'a [Alias],
) -> Result<&'a [Alias], NoMemory>
    requires table { IsTable names.now.table.now }
    ensures { (N : Names) → Knows names.now N → IfOk result (λ set. set.now ≡ union (captures (capture N (scope_of scope.now) (term_of exp.now))) behind.now) }
{
    let own = names_of(bump, exp, names, scope)?;
    union(bump, own, behind)
}

#[cycle(capture)]
fn all_names<'a>(
    bump: &'a Bump,
    parts: &[Exp<'_>],
    names: &PartNames<'_>,
    scope: &ScopeTree<'a>,
) -> Result<&'a [Alias], NoMemory>
    requires table { IsTable names.now.table.now }
    ensures { (N : Names) → Knows names.now N → IfOk result (λ set. set.now ≡ all_captured N (scope_of scope.now) (terms (map term_of parts.now))) }
{
    let mut all = no_alias(bump);
    let mut i = parts.len();
    'parts: while i > 0 {
        i -= 1;
        all = add_names(bump, &parts[i], names, scope, all)?;
    }
    Ok(all)
}

// Those of the values of a row of `let`s before others.
#[cycle(capture)]
fn add_lets<'a>(
    bump: &'a Bump,
    row: &[Let<'_>],
    names: &PartNames<'_>,
    scope: &ScopeTree<'a>,
    behind: &'a [Alias],
) -> Result<&'a [Alias], NoMemory>
    requires table { IsTable names.now.table.now }
    ensures { (N : Names) → Knows names.now N → IfOk result (λ set. set.now ≡ lets_before N (scope_of scope.now) (map row_of row.now) behind.now) }
{
    let mut all = behind;
    let mut i = row.len();
    'row: while i > 0 {
        i -= 1;
        all = add_names(bump, &row[i].value, names, scope, all)?;
    }
    Ok(all)
}

#[cycle(capture)]
fn loop_names<'a>(
    bump: &'a Bump,
    whole: &Loop<'_>,
    names: &PartNames<'_>,
    scope: &ScopeTree<'a>,
) -> Result<&'a [Alias], NoMemory>
    requires table { IsTable names.now.table.now }
    ensures { (N : Names) → Knows names.now N → IfOk result (λ set. set.now ≡ captures (capture N (scope_of scope.now) (loop_of whole.now))) }
{
    let last = names_of(bump, &whole.body, names, scope)?;
    let behind = add_turns(bump, &whole.form, names, scope, last)?;
    add_names(bump, &whole.first, names, scope, behind)
}

#[cycle(capture)]
fn add_turns<'a>(
    bump: &'a Bump,
    form: &LoopForm<'_>,
    names: &PartNames<'_>,
    scope: &ScopeTree<'a>,
    behind: &'a [Alias],
) -> Result<&'a [Alias], NoMemory>
    requires table { IsTable names.now.table.now }
    ensures { (N : Names) → Knows names.now N → IfOk result (λ set. set.now ≡ union (turns_captured N (scope_of scope.now) (turns_of form.now)) behind.now) }
{
    match form {
        LoopForm::For(_, count) => add_names(bump, count, names, scope, behind),
        LoopForm::ForIn(_, rows) => add_names(bump, rows, names, scope, behind),
        LoopForm::While(test) => add_names(bump, test, names, scope, behind),
    }
}
