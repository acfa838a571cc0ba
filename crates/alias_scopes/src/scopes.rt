// Looking up names and adding them.
ghost use Rattle.std.specs.Prelude.{◌≡◌, ℕ, ◌+◌, ◌*◌, IfOk};
ghost use Rattle.fut_aliases.specs.Patterns.{nothing, with_value};
ghost use Rattle.alias_values.specs.Trees.{value_of};
ghost use Rattle.alias_scopes.specs.Scopes.{forked, held, scope_of};

use crate::trees::ScopeTree;
use alias_values::ValueTree;
use bumpalo::Bump;
use fut_scalar::{BindId, NoMemory};

/// The scope without names.
#[tactic(auto, using(crate::proofs::ScopeForms::empty_scope))]
pub fn no_names<'a>(bump: &'a Bump) -> Result<&'a ScopeTree<'a>, NoMemory>
    ensures { IfOk result (λ made. scope_of made.now ≡ nothing) }
{
    match bump.try_alloc(ScopeTree::Empty) {
        Ok(made) => Ok(made),
        Err(_) => Err(NoMemory),
    }
}

#[tactic(auto, using(crate::proofs::ScopeForms::find_forms))]
fn find<'a>(scope: &ScopeTree<'a>, number: u32) -> Option<&'a ValueTree<'a>>
    ensures { held result ≡ scope_of scope.now number }
{
    match scope {
        ScopeTree::Empty => None,
        ScopeTree::Fork(own, odd, even) => {
            if number == 0 {
                return *own;
            }
            if number % 2 == 1 {
                find(odd, number / 2)
            } else {
                find(even, number / 2 - 1)
            }
        }
    }
}

/// What a name stands for, if it is in scope.
pub fn value_at<'a>(scope: &ScopeTree<'a>, bind: BindId) -> Option<&'a ValueTree<'a>>
    ensures { held result ≡ scope_of scope.now bind.0 }
{
    find(scope, bind.0)
}

#[tactic(auto, using(crate::proofs::ScopeForms::forks))]
fn fork<'a>(
    bump: &'a Bump,
    own: Option<&'a ValueTree<'a>>,
    odd: &'a ScopeTree<'a>,
    even: &'a ScopeTree<'a>,
) -> Result<&'a ScopeTree<'a>, NoMemory>
    ensures { IfOk result (λ made. scope_of made.now ≡ forked (held own.entry) (scope_of odd.now) (scope_of even.now)) }
{
    match bump.try_alloc(ScopeTree::Fork(own, odd, even)) {
        Ok(made) => Ok(made),
        Err(_) => Err(NoMemory),
    }
}

#[tactic(auto, using(crate::proofs::ScopeForms::odd_forms))]
fn odd_part<'a>(scope: &'a ScopeTree<'a>) -> &'a ScopeTree<'a>
    ensures { (n : ℕ) → scope_of result.now n ≡ scope_of scope.now (2 * n + 1) }
{
    match scope {
        ScopeTree::Empty => scope,
        ScopeTree::Fork(_, odd, _) => *odd,
    }
}

#[tactic(auto, using(crate::proofs::ScopeForms::even_forms))]
fn even_part<'a>(scope: &'a ScopeTree<'a>) -> &'a ScopeTree<'a>
    ensures { (n : ℕ) → scope_of result.now n ≡ scope_of scope.now (2 * n + 2) }
{
    match scope {
        ScopeTree::Empty => scope,
        ScopeTree::Fork(_, _, even) => *even,
    }
}

#[tactic(auto, using(crate::proofs::ScopeForms::putting))]
fn put<'a>(
    bump: &'a Bump,
    number: u32,
    value: &'a ValueTree<'a>,
    scope: &'a ScopeTree<'a>,
) -> Result<&'a ScopeTree<'a>, NoMemory>
    ensures { IfOk result (λ made. (n : ℕ) → scope_of made.now n ≡ with_value number (value_of value.now) (scope_of scope.now) n) }
{
    let odd = odd_part(scope);
    let even = even_part(scope);
    if number == 0 {
        let made = fork(bump, Some(value), odd, even)?;
        return Ok(made);
    }
    let own = find(scope, 0);
    if number % 2 == 1 {
        let part = put(bump, number / 2, value, odd)?;
        let made = fork(bump, own, part, even)?;
        Ok(made)
    } else {
        let part = put(bump, number / 2 - 1, value, even)?;
        let made = fork(bump, own, odd, part)?;
        Ok(made)
    }
}

/// The scope in which a name stands for a value, and all others for what they did.
#[tactic(auto, using(crate::proofs::ScopeForms::same_scope))]
pub fn with_value<'a>(
    bump: &'a Bump,
    bind: BindId,
    value: &'a ValueTree<'a>,
    scope: &'a ScopeTree<'a>,
) -> Result<&'a ScopeTree<'a>, NoMemory>
    ensures { IfOk result (λ made. scope_of made.now ≡ with_value bind.0 (value_of value.now) (scope_of scope.now)) }
{
    let made = put(bump, bind.0, value, scope)?;
    Ok(made)
}
