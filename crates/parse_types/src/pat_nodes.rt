// The nodes of patterns.
ghost use Rattle.std.specs.Prelude.{◌≡◌, ◌≤◌, ◌<◌, ◌+◌, ℕ, List, IfOk, Ok};
ghost use Rattle.fut_ast.specs.Nodes.{bound, pat_at, round_pat_of};
ghost use Rattle.fut_ast.specs.Sorts.{Pat_field, Tree, Whole_pat};
ghost use Rattle.fut_ast.specs.declared.pat.PatForm.TheVariants as pat_form;
ghost use Rattle.fut_grammar.specs.Reading.{Gives, Read};
ghost use Rattle.parse_types.specs.Found.{found_as, list_found, tree_found};
ghost use Rattle.parse_types.specs.Made.{node_of};
ghost use Rattle.fut_tree.specs.Pats.{pat_fields};

use crate::found::Found;
use crate::patterns::PatAnswer;
use bumpalo::Bump;
use fut_grammar::Stop;
use fut_scalar::{NoMemory, Place};
use fut_token::Token;
use fut_tree::{Held, Pat, PatField, PatForm};

/// A pattern that the arena holds.
pub(crate) fn held<'a>(bump: &'a Bump, pattern: Pat<'a>) -> Result<&'a Pat<'a>, NoMemory>
    ensures { IfOk result (λ p. p.now ≡ pattern.entry) }
{
    match bump.try_alloc(pattern) {
        Ok(made) => Ok(made),
        Err(_) => Err(NoMemory),
    }
}

pub fn name<'a>(bump: &'a Bump, place: Place, name: &'a str) -> Result<&'a Pat<'a>, NoMemory>
    ensures { IfOk result (λ p. p.now ≡ bound place name.now) }
{
    held(
        bump,
        Pat {
            place,
            form: PatForm::Var(name),
        },
    )
}

/// This pattern was read, and the arena holds it.
pub(crate) fn made<'a>(
    bump: &'a Bump,
    pattern: Pat<'a>,
    height: u32,
    rest: &'a [Token],
) -> PatAnswer<'a>
    ensures { Gives tree_found result (Ok (pattern.entry, height, rest.now)) }
{
    Ok(Found {
        tree: held(bump, pattern)?,
        height,
        rest,
    })
}

/// Patterns in parentheses, if they were read: one alone is that pattern.
pub(crate) fn round<'a>(
    bump: &'a Bump,
    place: Place,
    patterns: Result<Found<'a, &'a [Held<'a, Pat<'a>>]>, Stop>,
) -> PatAnswer<'a>
    requires { IfOk patterns (λ x. x.height < 1000) }
    ensures exact { (m : Read (List (Tree Whole_pat))) → Gives list_found patterns.entry m → Gives tree_found result (node_of (round_pat_of place) m) }
    ensures low { (k : ℕ) → IfOk patterns.entry (λ x. x.height ≤ k) → IfOk result (λ x. x.height ≤ k + 1) }
{
    let found = match patterns {
        Ok(found) => found,
        Err(stop) => return Err(stop),
    };
    let form = match found.tree {
        [] => PatForm::Unit,
        [only] => {
            return Ok(Found {
                tree: only.at,
                height: found.height + 1,
                rest: found.rest,
            });
        }
        [_, _, ..] => PatForm::Tuple(found.tree),
    };
    made(bump, Pat { place, form }, found.height + 1, found.rest)
}

/// Fields in braces, if they were read.
pub(crate) fn fields<'a>(
    bump: &'a Bump,
    place: Place,
    fields: Result<Found<'a, &'a [PatField<'a>]>, Stop>,
) -> PatAnswer<'a>
    requires { IfOk fields (λ x. x.height < 1000) }
    ensures exact { (m : Read (List (Tree Pat_field))) → Gives (found_as (λ t. pat_fields t.now)) fields.entry m → Gives tree_found result (node_of (λ fs. pat_at place (pat_form.Record fs)) m) }
    ensures low { (k : ℕ) → IfOk fields.entry (λ x. x.height ≤ k) → IfOk result (λ x. x.height ≤ k + 1) }
{
    match fields {
        Ok(found) => {
            let form = PatForm::Record(found.tree);
            made(bump, Pat { place, form }, found.height + 1, found.rest)
        }
        Err(stop) => Err(stop),
    }
}
