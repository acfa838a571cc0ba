// Modules and declarations stand in one another: the two functions that read them.
ghost use Rattle.std.specs.Prelude.{Err, ◌≡◌, ◌≤◌, ◌<◌, ◌+◌, suc, IfOk};
ghost use Rattle.fut_ast.specs.Sorts.{Atomic_mod, Dec_item, Last_mod, Whole_mod};
ghost use Rattle.fut_grammar.specs.Phrases.{read_at};
ghost use Rattle.fut_grammar.specs.Reading.{Gives};
ghost use Rattle.fut_grammar.specs.declared.fault.Stop.{Stop as AnyStop};
ghost use Rattle.fut_parser.specs.Private.ModFound.{dec_found, ending_found, module_found};
ghost use Rattle.parse_module_types.specs.MtypeTie.{Law};
ghost use Rattle.fut_parser.specs.Private.ModTie.{Mod_law, Reads_mod};

use crate::declarations::declaration_below;
use crate::mod_tokens::{
    begins_declaration, begins_module, begins_module_argument, goes_on_module,
};
use crate::module_tie::{DecAnswer, ModAnswer, ModEnding, ModSort, ReadDeclaration, ReadModule};
use crate::modules::{argument_below, last_below};
use bumpalo::Bump;
use fut_grammar::{Fault, Stop};
use fut_token::Token;
use fut_tree::Dec;
use parse_types::found::Found;
use parse_types::tokens::refused;

// As the last part of a form, where its ending is kept, or as any other part.
#[tactic(auto, unfolding(fut_grammar::specs::Phrases::read_at, fut_grammar::specs::Phrases::bounded, fut_grammar::specs::Phrases::far_at, fut_grammar::specs::Phrases::ended, fut_grammar::specs::Phrases::step, fut_grammar::specs::Phrases::whole_mod_at, fut_grammar::specs::Reading::refuse_sort))]
fn last_node<'a, M: ReadModule<'a>, D: ReadDeclaration<'a>>(
    bump: &'a Bump,
    read: M,
    read_dec: D,
    inner: u32,
    tokens: &'a [Token],
) -> ModAnswer<'a>
    requires law { M.reads read inner }
    requires law_dec { D.reads read_dec inner }
    requires room { inner < 1000 }
    ensures last { Gives ending_found result (read_at (suc inner) Last_mod tokens.now) }
    ensures whole { Gives module_found result (read_at (suc inner) Whole_mod tokens.now) }
    ensures low { IfOk result (λ x. x.height ≤ inner + 1) }
{
    if !begins_module(tokens) {
        return Err(Stop::Fault(refused(tokens)));
    }
    let found = match last_below(bump, read, read_dec, inner, tokens) {
        Ok(found) => found,
        Err(stop) => return Err(stop),
    };
    if goes_on_module(found.tree.is_sealed, found.rest) {
        return Err(Stop::Fault(refused(found.rest)));
    }
    Ok(found)
}

#[tactic(auto, unfolding(fut_grammar::specs::Phrases::read_at, fut_grammar::specs::Phrases::bounded, fut_grammar::specs::Phrases::ended, fut_grammar::specs::Phrases::step, fut_grammar::specs::Reading::refuse_sort))]
fn argument_node<'a, M: ReadModule<'a>, D: ReadDeclaration<'a>>(
    bump: &'a Bump,
    read: M,
    read_dec: D,
    inner: u32,
    tokens: &'a [Token],
) -> ModAnswer<'a>
    requires law { M.reads read inner }
    requires law_dec { D.reads read_dec inner }
    requires room { inner < 1000 }
    ensures exact { Gives module_found result (read_at (suc inner) Atomic_mod tokens.now) }
    ensures low { IfOk result (λ x. x.height ≤ inner + 1) }
{
    if !begins_module_argument(tokens) {
        return Err(Stop::Fault(refused(tokens)));
    }
    let found = match argument_below(bump, read, read_dec, inner, tokens) {
        Ok(found) => found,
        Err(stop) => return Err(stop),
    };
    Ok(Found {
        tree: ModEnding {
            module: found.tree,
            is_sealed: false,
        },
        height: found.height,
        rest: found.rest,
    })
}

// The closures' types are known from these bounds alone.
fn module_node<
    'a,
    F: Fn(ModSort, &'a [Token]) -> ModAnswer<'a>,
    G: Fn(&'a [Token]) -> DecAnswer<'a>,
>(
    bump: &'a Bump,
    read: &F,
    read_dec: &G,
    inner: u32,
    sort: ModSort,
    tokens: &'a [Token],
) -> ModAnswer<'a>
    requires callable { F.IsAlwaysCallable read.now }
    requires law { Mod_law (F.post read.now) inner }
    requires callable_dec { G.IsAlwaysCallable read_dec.now }
    requires law_dec { Law Dec_item dec_found (G.post read_dec.now) inner }
    requires room { inner < 1000 }
    ensures exact { Reads_mod sort (suc inner) tokens.now result }
    ensures low { IfOk result (λ x. x.height ≤ inner + 1) }
{
    match sort {
        ModSort::Whole => last_node(bump, read, read_dec, inner, tokens),
        ModSort::Argument => argument_node(bump, read, read_dec, inner, tokens),
        ModSort::Last => last_node(bump, read, read_dec, inner, tokens),
    }
}

#[tactic(auto, unfolding(fut_grammar::specs::Phrases::read_at, fut_grammar::specs::Phrases::bounded, fut_grammar::specs::Phrases::ended, fut_grammar::specs::Phrases::step, fut_grammar::specs::Reading::refuse_sort))]
fn declaration_node<'a, F: Fn(ModSort, &'a [Token]) -> ModAnswer<'a>>(
    bump: &'a Bump,
    read: &F,
    inner: u32,
    tokens: &'a [Token],
) -> DecAnswer<'a>
    requires callable { F.IsAlwaysCallable read.now }
    requires law { Mod_law (F.post read.now) inner }
    requires room { inner < 1000 }
    ensures exact { Gives dec_found result (read_at (suc inner) Dec_item tokens.now) }
    ensures low { IfOk result (λ x. x.height ≤ inner + 1) }
{
    if !begins_declaration(tokens) {
        return Err(Stop::Fault(refused(tokens)));
    }
    declaration_below(bump, read, inner, tokens)
}

// Where nothing may stand below, a token that begins a module expression is too deep.
#[tactic(auto, unfolding(fut_grammar::specs::Phrases::read_at, fut_grammar::specs::Reading::refuse_sort))]
fn no_module(sort: ModSort, tokens: &[Token]) -> Fault
    ensures { Reads_mod sort 0 tokens.now (Err (AnyStop.Fault result)) }
{
    let begins = match sort {
        ModSort::Whole | ModSort::Last => begins_module(tokens),
        ModSort::Argument => begins_module_argument(tokens),
    };
    if begins {
        Fault::TooDeep(tokens.len())
    } else {
        refused(tokens)
    }
}

#[tactic(auto, unfolding(fut_grammar::specs::Phrases::read_at, fut_grammar::specs::Reading::refuse_sort))]
fn no_declaration(tokens: &[Token]) -> Fault
    ensures { read_at 0 Dec_item tokens.now ≡ Err result }
{
    if begins_declaration(tokens) {
        Fault::TooDeep(tokens.len())
    } else {
        refused(tokens)
    }
}

#[cycle(modules)]
fn module<'a>(bump: &'a Bump, depth: u32, sort: ModSort, tokens: &'a [Token]) -> ModAnswer<'a>
    requires { depth ≤ 1000 }
    ensures exact { Reads_mod sort depth tokens.now result }
    ensures low { IfOk result (λ x. x.height ≤ depth) }
{
    if depth == 0 {
        return Err(Stop::Fault(no_module(sort, tokens)));
    }
    let inner = depth - 1;
    module_node(
        bump,
        &|next, behind| -> Result<Found<ModEnding>, Stop>
            requires { inner ≤ 1000 }
            ensures exact { Reads_mod next inner behind.now result }
            ensures low { IfOk result (λ x. x.height ≤ inner) }
        { module(bump, inner, next, behind) },
        &|behind| -> Result<Found<Dec>, Stop>
            requires { inner ≤ 1000 }
            ensures exact { Gives dec_found result (read_at inner Dec_item behind.now) }
            ensures low { IfOk result (λ x. x.height ≤ inner) }
        { declaration(bump, inner, behind) },
        inner,
        sort,
        tokens,
    )
}

/// A declaration of a height up to the depth.
#[cycle(modules)]
pub fn declaration<'a>(bump: &'a Bump, depth: u32, tokens: &'a [Token]) -> DecAnswer<'a>
    requires { depth ≤ 1000 }
    ensures exact { Gives dec_found result (read_at depth Dec_item tokens.now) }
    ensures low { IfOk result (λ x. x.height ≤ depth) }
{
    if depth == 0 {
        return Err(Stop::Fault(no_declaration(tokens)));
    }
    let inner = depth - 1;
    declaration_node(
        bump,
        &|next, behind| -> Result<Found<ModEnding>, Stop>
            requires { inner ≤ 1000 }
            ensures exact { Reads_mod next inner behind.now result }
            ensures low { IfOk result (λ x. x.height ≤ inner) }
        { module(bump, inner, next, behind) },
        inner,
        tokens,
    )
}
