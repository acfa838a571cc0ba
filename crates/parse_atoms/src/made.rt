// What ends a production: a node was made, or there was no memory for it.
ghost use Rattle.std.specs.Prelude.{◌≡◌, IfOk, Ok};
ghost use Rattle.fut_ast.specs.Sorts.{Path, SourceExp, Text};
ghost use Rattle.parse_atoms.specs.Parts.{ends_with};
ghost use Rattle.parse_atoms.specs.Tie.{ending_found};
ghost use Rattle.fut_grammar.specs.Reading.{Gives};
ghost use Rattle.parse_types.specs.Found.{found_as, tree_found};
ghost use Rattle.fut_tree.specs.Exps.{bind_of, loop_of};
ghost use Rattle.fut_ast.specs.declared.exp.Bind.{Bind as PlainBind};
ghost use Rattle.fut_ast.specs.declared.exp.LoopForm.{LoopForm as PlainLoop};

use crate::tie::Ending;
use fut_ast::Ended;
use fut_grammar::Stop;
use fut_scalar::NoMemory;
use fut_token::{Fixed, Token};
use fut_tree::{Bind, Exp, LoopForm};
use parse_types::found::Found;
use parse_types::tokens::{refused, rest_of, starts_with};

/// An expression was read, if there was memory for its node.
pub fn made<'a>(
    node: Result<&'a Exp<'a>, NoMemory>,
    height: u32,
    rest: &'a [Token],
) -> Result<Found<'a, &'a Exp<'a>>, Stop>
    ensures exact { (e : SourceExp) → IfOk node.entry (λ x. x.now ≡ e) → Gives tree_found result (Ok (e, height, rest.now)) }
    ensures low { IfOk result (λ x. x.height ≡ height) }
{
    match node {
        Ok(tree) => Ok(Found { tree, height, rest }),
        Err(_) => Err(Stop::Memory),
    }
}

/// The same, if this keyword or symbol stands next; what was read ends behind it.
#[tactic(auto, unfolding(fut_grammar::specs::Reading::expect))]
pub fn made_before<'a>(
    node: Result<&'a Exp<'a>, NoMemory>,
    height: u32,
    fixed: Fixed,
    tokens: &'a [Token],
) -> Result<Found<'a, &'a Exp<'a>>, Stop>
    ensures exact { (e : SourceExp) → IfOk node.entry (λ x. x.now ≡ e) → Gives tree_found result (ends_with fixed e height tokens.now) }
    ensures low { IfOk result (λ x. x.height ≡ height) }
{
    if starts_with(tokens, fixed) {
        made(node, height, rest_of(tokens))
    } else {
        Err(Stop::Fault(refused(tokens)))
    }
}

/// The same of the last part of a form, which ended so.
pub fn ending_made<'a>(
    node: Result<&'a Exp<'a>, NoMemory>,
    ended: Ended,
    height: u32,
    rest: &'a [Token],
) -> Result<Found<'a, Ending<'a>>, Stop>
    ensures exact { (e : SourceExp) → IfOk node.entry (λ x. x.now ≡ e) → Gives ending_found result (Ok ((e, ended), height, rest.now)) }
    ensures low { IfOk result (λ x. x.height ≡ height) }
{
    match node {
        Ok(exp) => Ok(Found {
            tree: Ending { exp, ended },
            height,
            rest,
        }),
        Err(_) => Err(Stop::Memory),
    }
}

/// The form of a loop was read, if there was memory for it.
pub fn loop_made<'a>(
    node: Result<&'a LoopForm<'a>, NoMemory>,
    height: u32,
    rest: &'a [Token],
) -> Result<Found<'a, &'a LoopForm<'a>>, Stop>
    ensures exact { (l : PlainLoop) → IfOk node.entry (λ x. loop_of x.now ≡ l) → Gives (found_as (λ t. loop_of t.now)) result (Ok (l, height, rest.now)) }
    ensures low { IfOk result (λ x. x.height ≡ height) }
{
    match node {
        Ok(tree) => Ok(Found { tree, height, rest }),
        Err(_) => Err(Stop::Memory),
    }
}

/// A `let` was read, if there was memory for it.
pub fn bind_made<'a>(
    node: Result<Bind<'a>, NoMemory>,
    height: u32,
    rest: &'a [Token],
) -> Result<Found<'a, Bind<'a>>, Stop>
    ensures exact { (b : PlainBind) → IfOk node.entry (λ x. bind_of x ≡ b) → Gives (found_as bind_of) result (Ok (b, height, rest.now)) }
    ensures low { IfOk result (λ x. x.height ≡ height) }
{
    match node {
        Ok(tree) => Ok(Found { tree, height, rest }),
        Err(_) => Err(Stop::Memory),
    }
}
