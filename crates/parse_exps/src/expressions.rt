// Expressions: the one function that reads what stands in productions.
ghost use Rattle.std.specs.Prelude.{◌≡◌, ◌≤◌, ◌<◌, ◌+◌, suc, true, Err, IfOk, Option, ℕ};
ghost use Rattle.fut_ast.specs.Behind.{begins, continues};
ghost use Rattle.fut_ast.specs.Sorts.{Ending as PlainEnding, Path, SourceExp, Whole};
ghost use Rattle.parse_atoms.specs.Tie.{Law, Reads, ending_found, inside_found, replacing_found, seen, sort_of};
ghost use Rattle.parse_exps.specs.Steps.{Steps, one_higher};
ghost use Rattle.fut_grammar.specs.Phrases.{read_at};
ghost use Rattle.fut_grammar.specs.Reading.{Gives, Read};
ghost use Rattle.parse_types.specs.Found.{found_as, tree_found};
ghost use Rattle.fut_token.specs.declared.token.Fixed.{Fixed};
ghost use Rattle.fut_tree.specs.Names.{names};

use crate::insides::inside_below;
use crate::operators::unary_below;
use crate::updates::replacement;
use crate::wholes::{last_below, operand_below, operands_below, right_below, whole_below};
use bumpalo::Bump;
use fut_ast::Ended;
use fut_grammar::{Fault, Stop};
use fut_token::Token;
use fut_tree::Exp;
use parse_atoms::atoms::atom_below;
use parse_atoms::tie::{AnyExp, Ending, ExpAnswer, ExpSort, FirstInside, ReadExp, Replacement};
use parse_nodes::exp_tokens::{
    begins_exp_atom, begins_exp_big, begins_exp_operand, goes_on_app, goes_on_atom, goes_on_typed,
};
use parse_types::found::Found;
use parse_types::tokens::{refused, starts_with_word};

// Whether an expression of the sort begins here.
fn begins_sort(sort: ExpSort, tokens: &[Token]) -> bool
    ensures { result ≡ begins (sort_of sort) tokens.now }
{
    match sort {
        ExpSort::Atom => begins_exp_atom(tokens),
        ExpSort::Unary | ExpSort::Operands(_) => begins_exp_operand(tokens),
        ExpSort::Operand(_) | ExpSort::Right | ExpSort::Whole | ExpSort::Last | ExpSort::Inside =>
            begins_exp_operand(tokens) || begins_exp_big(tokens),
        ExpSort::Replacing => starts_with_word(tokens),
    }
}

// Whether the next tokens go on with what was read of the sort.
fn goes_on_sort<'a>(sort: ExpSort, found: Found<'a, AnyExp<'a>>) -> bool
    ensures { result ≡ continues (sort_of sort) (seen sort found.entry.tree) found.entry.rest.now }
{
    match sort {
        ExpSort::Atom => goes_on_atom(found.rest),
        ExpSort::Unary => goes_on_app(found.rest),
        ExpSort::Last => goes_on_typed(found.tree.ended, found.rest),
        ExpSort::Operands(_)
        | ExpSort::Operand(_)
        | ExpSort::Right
        | ExpSort::Whole
        | ExpSort::Inside
        | ExpSort::Replacing => false,
    }
}

// Where nothing may stand below, a token that begins an expression is too deep.
#[tactic(auto, using(crate::proofs::NodeLaws::nothing_below))]
fn nothing_below(sort: ExpSort, tokens: &[Token]) -> Fault
    ensures { Reads sort 0 tokens.now (Err (Stop.Fault result)) }
{
    if begins_sort(sort, tokens) {
        Fault::TooDeep(tokens.len())
    } else {
        refused(tokens)
    }
}

// What was read, of a sort that is an expression alone.
fn alone<'a>(read: Result<Found<'a, &'a Exp<'a>>, Stop>) -> ExpAnswer<'a>
    ensures exact { (what : Read SourceExp) → Gives tree_found read.entry what → Gives (found_as (λ t. t.exp.now)) result what }
    ensures low { (k : ℕ) → IfOk read.entry (λ x. x.height ≤ k) → IfOk result (λ x. x.height ≤ k) }
{
    match read {
        Ok(found) => Ok(Found {
            tree: AnyExp {
                exp: found.tree,
                ended: Ended::Type,
                section: None,
                path: &[],
            },
            height: found.height,
            rest: found.rest,
        }),
        Err(stop) => Err(stop),
    }
}

// The same with how it ended.
fn with_ending<'a>(read: Result<Found<'a, Ending<'a>>, Stop>) -> ExpAnswer<'a>
    ensures exact { (what : Read PlainEnding) → Gives ending_found read.entry what → Gives (found_as (λ t. (t.exp.now, t.ended))) result what }
    ensures low { (k : ℕ) → IfOk read.entry (λ x. x.height ≤ k) → IfOk result (λ x. x.height ≤ k) }
{
    match read {
        Ok(found) => Ok(Found {
            tree: AnyExp {
                exp: found.tree.exp,
                ended: found.tree.ended,
                section: None,
                path: &[],
            },
            height: found.height,
            rest: found.rest,
        }),
        Err(stop) => Err(stop),
    }
}

// The same with the operator of a section.
fn with_section<'a>(read: Result<Found<'a, FirstInside<'a>>, Stop>) -> ExpAnswer<'a>
    ensures exact { (what : Read (SourceExp × Option Fixed)) → Gives inside_found read.entry what → Gives (found_as (λ t. (t.exp.now, t.section))) result what }
    ensures low { (k : ℕ) → IfOk read.entry (λ x. x.height ≤ k) → IfOk result (λ x. x.height ≤ k) }
{
    match read {
        Ok(found) => Ok(Found {
            tree: AnyExp {
                exp: found.tree.exp,
                ended: Ended::Type,
                section: found.tree.section,
                path: &[],
            },
            height: found.height,
            rest: found.rest,
        }),
        Err(stop) => Err(stop),
    }
}

// The same with the names of a field, one node higher.
fn with_path<'a>(inner: u32, read: Result<Found<'a, Replacement<'a>>, Stop>) -> ExpAnswer<'a>
    requires { (inner < 1000) × IfOk read (λ x. x.height ≤ inner) }
    ensures exact { (what : Read (Path × SourceExp)) → Gives replacing_found read.entry what → Gives (found_as (λ t. (names t.path.now, t.exp.now))) result (one_higher what) }
    ensures low { IfOk result (λ x. x.height ≤ inner + 1) }
{
    let _inner = inner;
    match read {
        Ok(found) => Ok(Found {
            tree: AnyExp {
                exp: found.tree.exp,
                ended: Ended::Type,
                section: None,
                path: found.tree.path,
            },
            height: found.height + 1,
            rest: found.rest,
        }),
        Err(stop) => Err(stop),
    }
}

// What is read of the sort, whatever goes on with it.
#[tactic(auto, unfolding(fut_grammar::specs::Phrases::step))]
fn below<'a, R: ReadExp<'a>>(
    bump: &'a Bump,
    read: R,
    inner: u32,
    sort: ExpSort,
    tokens: &'a [Token],
) -> ExpAnswer<'a>
    requires begun { begins (sort_of sort) tokens.now ≡ true }
    requires law { R.reads read inner }
    requires room { inner < 1000 }
    ensures exact { Steps sort inner tokens.now result }
    ensures low { IfOk result (λ x. x.height ≤ inner + 1) }
{
    match sort {
        ExpSort::Atom => alone(atom_below(bump, read, inner, tokens)),
        ExpSort::Unary => alone(unary_below(bump, read, inner, tokens)),
        ExpSort::Operands(least) => alone(operands_below(bump, read, inner, least, tokens)),
        ExpSort::Operand(least) => alone(operand_below(bump, read, inner, least, tokens)),
        ExpSort::Right => alone(right_below(bump, read, inner, tokens)),
        ExpSort::Whole => alone(whole_below(bump, read, inner, tokens)),
        ExpSort::Last => with_ending(last_below(bump, read, inner, tokens)),
        ExpSort::Inside => with_section(inside_below(bump, read, inner, tokens)),
        ExpSort::Replacing => with_path(inner, replacement(bump, read, inner, tokens)),
    }
}

fn node<'a, R: ReadExp<'a>>(
    bump: &'a Bump,
    read: R,
    inner: u32,
    sort: ExpSort,
    tokens: &'a [Token],
) -> ExpAnswer<'a>
    requires law { R.reads read inner }
    requires room { inner < 1000 }
    ensures exact { Reads sort (suc inner) tokens.now result }
    ensures low { IfOk result (λ x. x.height ≤ inner + 1) }
{
    if !begins_sort(sort, tokens) {
        return Err(Stop::Fault(refused(tokens)));
    }
    let found = match below(bump, read, inner, sort, tokens) {
        Ok(found) => found,
        Err(stop) => return Err(stop),
    };
    if goes_on_sort(sort, found) {
        return Err(Stop::Fault(refused(found.rest)));
    }
    Ok(found)
}

// The closure's lifetimes are known from this bound alone.
fn node_by<'a, F: Fn(ExpSort, &'a [Token]) -> ExpAnswer<'a>>(
    bump: &'a Bump,
    function: &F,
    inner: u32,
    sort: ExpSort,
    tokens: &'a [Token],
) -> ExpAnswer<'a>
    requires callable { F.IsAlwaysCallable function.now }
    requires law { Law (F.post function.now) inner }
    requires room { inner < 1000 }
    ensures exact { Reads sort (suc inner) tokens.now result }
    ensures low { IfOk result (λ x. x.height ≤ inner + 1) }
{
    node(bump, function, inner, sort, tokens)
}

/// An expression of a height up to the depth.
#[cycle(expressions)]
pub fn expression<'a>(
    bump: &'a Bump,
    depth: u32,
    sort: ExpSort,
    tokens: &'a [Token],
) -> ExpAnswer<'a>
    requires { depth ≤ 1000 }
    ensures exact { Reads sort depth tokens.now result }
    ensures low { IfOk result (λ x. x.height ≤ depth) }
{
    if depth == 0 {
        return Err(Stop::Fault(nothing_below(sort, tokens)));
    }
    let inner = depth - 1;
    node_by(
        bump,
        &|next, behind| -> Result<Found<AnyExp>, Stop>
            requires { inner ≤ 1000 }
            ensures exact { Reads next inner behind.now result }
            ensures low { IfOk result (λ x. x.height ≤ inner) }
        { expression(bump, inner, next, behind) },
        inner,
        sort,
        tokens,
    )
}

/// Any expression of a height up to the depth.
pub fn whole_expression<'a>(
    bump: &'a Bump,
    depth: u32,
    tokens: &'a [Token],
) -> Result<Found<'a, &'a Exp<'a>>, Stop>
    requires { depth ≤ 1000 }
    ensures exact { Gives tree_found result (read_at depth Whole tokens.now) }
    ensures low { IfOk result (λ x. x.height ≤ depth) }
{
    let found = match expression(bump, depth, ExpSort::Whole, tokens) {
        Ok(found) => found,
        Err(stop) => return Err(stop),
    };
    Ok(Found {
        tree: found.tree.exp,
        height: found.height,
        rest: found.rest,
    })
}
