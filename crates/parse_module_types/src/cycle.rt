// Module types and members stand in one another: the two functions that read them.
ghost use Rattle.std.specs.Prelude.{Err, ◌≡◌, ◌≤◌, ◌<◌, ◌+◌, suc, IfOk};
ghost use Rattle.fut_ast.specs.Sorts.{Mod_param, Spec_item, Whole_mtype};
ghost use Rattle.fut_grammar.specs.Phrases.{phrases, read_at};
ghost use Rattle.fut_grammar.specs.Reading.{Gives};
ghost use Rattle.parse_module_types.specs.MtypeFound.{param_found, spec_found};
ghost use Rattle.parse_module_types.specs.MtypeTie.{Law, Mtype_law};
ghost use Rattle.parse_types.specs.Found.{tree_found};

use crate::members::member_below;
use crate::tie::{MemberAnswer, ModTypeAnswer, ReadModType};
use crate::types::{parameter, whole_below};
use bumpalo::Bump;
use fut_grammar::{Fault, Stop};
use fut_token::{Fixed, Token};
use fut_tree::{ModType, Param, Spec};
use parse_types::found::Found;
use parse_types::tokens::{begins_member, begins_module_type, refused, starts_with};

/// A module type of a height up to the depth, in which the types behind `with` may have arrows or not.
#[cycle(module_types)]
pub fn module_type<'a>(
    bump: &'a Bump,
    depth: u32,
    arrows: bool,
    tokens: &'a [Token],
) -> ModTypeAnswer<'a>
    requires { depth ≤ 1000 }
    ensures exact { Gives tree_found result (read_at depth (Whole_mtype arrows) tokens.now) }
    ensures low { IfOk result (λ x. x.height ≤ depth) }
{
    if depth == 0 {
        return Err(Stop::Fault(no_type_below(arrows, tokens)));
    }
    let inner = depth - 1;
    whole_node(
        bump,
        &|next, behind| -> Result<Found<&ModType>, Stop>
            requires { inner ≤ 1000 }
            ensures exact { Gives tree_found result (read_at inner (Whole_mtype next) behind.now) }
            ensures low { IfOk result (λ x. x.height ≤ inner) }
        { module_type(bump, inner, next, behind) },
        &|behind| -> Result<Found<Spec>, Stop>
            requires { inner ≤ 1000 }
            ensures exact { Gives spec_found result (read_at inner Spec_item behind.now) }
            ensures low { IfOk result (λ x. x.height ≤ inner) }
        { member(bump, inner, behind) },
        inner,
        arrows,
        tokens,
    )
}

// A member of a module type.
#[cycle(module_types)]
fn member<'a>(bump: &'a Bump, depth: u32, tokens: &'a [Token]) -> MemberAnswer<'a>
    requires { depth ≤ 1000 }
    ensures exact { Gives spec_found result (read_at depth Spec_item tokens.now) }
    ensures low { IfOk result (λ x. x.height ≤ depth) }
{
    if depth == 0 {
        return Err(Stop::Fault(no_member_below(tokens)));
    }
    let inner = depth - 1;
    member_node(
        bump,
        &|next, behind| -> Result<Found<&ModType>, Stop>
            requires { inner ≤ 1000 }
            ensures exact { Gives tree_found result (read_at inner (Whole_mtype next) behind.now) }
            ensures low { IfOk result (λ x. x.height ≤ inner) }
        { module_type(bump, inner, next, behind) },
        inner,
        tokens,
    )
}

/// A parameter of a module.
pub fn module_parameter<'a>(
    bump: &'a Bump,
    inner: u32,
    tokens: &'a [Token],
) -> Result<Found<'a, Param<'a>>, Stop>
    requires { inner < 1000 }
    ensures exact { Gives param_found result (phrases (read_at inner) Mod_param tokens.now) }
    ensures low { IfOk result (λ x. x.height ≤ inner) }
{
    parameter(ModTypes { bump }, inner, tokens)
}

/// Module types of any height, each made in the arena.
#[derive(Clone, Copy)]
struct ModTypes<'a> {
    bump: &'a Bump,
}

impl<'a> ReadModType<'a> for ModTypes<'a> {
    ghost reads = { λ s d. d ≤ 1000 };

    fn whole(self, inner: u32, arrows: bool, tokens: &'a [Token]) -> ModTypeAnswer<'a> {
        module_type(self.bump, inner, arrows, tokens)
    }
}

// Where nothing may stand below, a token that begins a module type is too deep.
#[tactic(auto, unfolding(fut_grammar::specs::Phrases::read_at, fut_grammar::specs::Reading::refuse_sort))]
fn no_type_below(arrows: bool, tokens: &[Token]) -> Fault
    ensures { read_at 0 (Whole_mtype arrows) tokens.now ≡ Err result }
{
    let _arrows = arrows;
    if begins_module_type(tokens) {
        Fault::TooDeep(tokens.len())
    } else {
        refused(tokens)
    }
}

// Where nothing may stand below, a token that begins a member is too deep.
#[tactic(auto, unfolding(fut_grammar::specs::Phrases::read_at, fut_grammar::specs::Reading::refuse_sort))]
fn no_member_below(tokens: &[Token]) -> Fault
    ensures { read_at 0 Spec_item tokens.now ≡ Err result }
{
    if begins_member(tokens) {
        Fault::TooDeep(tokens.len())
    } else {
        refused(tokens)
    }
}

#[tactic(auto, unfolding(fut_grammar::specs::Phrases::read_at, fut_grammar::specs::Phrases::bounded, fut_grammar::specs::Phrases::ended, fut_grammar::specs::Phrases::step, fut_grammar::specs::Reading::refuse_sort))]
fn whole_node<
    'a,
    F: Fn(bool, &'a [Token]) -> ModTypeAnswer<'a>,
    G: Fn(&'a [Token]) -> MemberAnswer<'a>,
>(
    bump: &'a Bump,
    read: &F,
    read_member: &G,
    inner: u32,
    arrows: bool,
    tokens: &'a [Token],
) -> ModTypeAnswer<'a>
    requires callable { F.IsAlwaysCallable read.now }
    requires law { Mtype_law (F.post read.now) inner }
    requires member_callable { G.IsAlwaysCallable read_member.now }
    requires member_law { Law Spec_item spec_found (G.post read_member.now) inner }
    requires room { inner < 1000 }
    ensures exact { Gives tree_found result (read_at (suc inner) (Whole_mtype arrows) tokens.now) }
    ensures low { IfOk result (λ x. x.height ≤ inner + 1) }
{
    if !begins_module_type(tokens) {
        return Err(Stop::Fault(refused(tokens)));
    }
    let found = match whole_below(bump, read, read_member, inner, arrows, tokens) {
        Ok(found) => found,
        Err(stop) => return Err(stop),
    };
    if starts_with(found.rest, Fixed::KeyWith) {
        return Err(Stop::Fault(refused(found.rest)));
    }
    Ok(found)
}

#[tactic(auto, unfolding(fut_grammar::specs::Phrases::read_at, fut_grammar::specs::Phrases::bounded, fut_grammar::specs::Phrases::ended, fut_grammar::specs::Phrases::step, fut_grammar::specs::Reading::refuse_sort))]
fn member_node<'a, F: Fn(bool, &'a [Token]) -> ModTypeAnswer<'a>>(
    bump: &'a Bump,
    read: &F,
    inner: u32,
    tokens: &'a [Token],
) -> MemberAnswer<'a>
    requires callable { F.IsAlwaysCallable read.now }
    requires law { Mtype_law (F.post read.now) inner }
    requires room { inner < 1000 }
    ensures exact { Gives spec_found result (read_at (suc inner) Spec_item tokens.now) }
    ensures low { IfOk result (λ x. x.height ≤ inner + 1) }
{
    if !begins_member(tokens) {
        return Err(Stop::Fault(refused(tokens)));
    }
    member_below(bump, read, inner, tokens)
}
