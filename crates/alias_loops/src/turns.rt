// What the parameters of a loop share memory with at the start of a turn, over all turns.
ghost use Rattle.std.specs.Prelude.{◌≡◌, true, cond, IfOk};
ghost use Rattle.fut_aliases.specs.Aliases.{is_outside, those, union, with_alias};
ghost use Rattle.fut_aliases.specs.Loops.{no_sets, of_given, one_round, over_all_turns, round_of};
ghost use Rattle.alias_joins.specs.SetRows.{sets_of};
ghost use Rattle.alias_loops.specs.Carried.{carried_of, carrieds_of};
ghost use Rattle.alias_loops.specs.Turning.{some_in};

use crate::carried::Carried;
use alias_program::no_alias;
use alias_values::{is_in, is_outside, union, with_alias};
use bumpalo::Bump;
use bumpalo::collections::into_bump_slice;
use fut_aliases::Alias;
use fut_scalar::NoMemory;

// Whether a set has one of these aliases.
#[tactic(auto, using(crate::proofs::TurnForms::some_forms))]
fn some_in(set: &[Alias], own: &[Alias]) -> bool
    ensures { result ≡ some_in set.now own.now }
{
    for i in 0..own.len() {
        if is_in(own[i], set) {
            return true;
        }
    }
    false
}

// A set with another before it, where that counts.
fn union_if<'a>(
    bump: &'a Bump,
    counts: bool,
    set: &[Alias],
    behind: &'a [Alias],
) -> Result<&'a [Alias], NoMemory>
    ensures { IfOk result (λ all. all.now ≡ cond counts (union set.now behind.now) behind.now) }
{
    if counts {
        union(bump, set, behind)
    } else {
        Ok(behind)
    }
}

// A set with one more alias, where that counts.
fn with_if<'a>(
    bump: &'a Bump,
    counts: bool,
    alias: Alias,
    set: &'a [Alias],
) -> Result<&'a [Alias], NoMemory>
    ensures { IfOk result (λ all. all.now ≡ cond counts (with_alias alias set.now) set.now) }
{
    if counts {
        with_alias(bump, alias, set)
    } else {
        Ok(set)
    }
}

// The sets of the parameters that are in what the body gives.
fn of_given<'a>(
    bump: &'a Bump,
    gives: &[Alias],
    all: &[Carried<'a>],
    sets: &[&'a [Alias]],
) -> Result<&'a [Alias], NoMemory>
    ensures { IfOk result (λ given. given.now ≡ of_given gives.now (carrieds_of all.now) (sets_of sets.now)) }
{
    let mut given = no_alias(bump);
    let mut i = all.len().min(sets.len());
    'parameters: while i > 0 {
        i -= 1;
        let counts = some_in(gives, all[i].own);
        given = union_if(bump, counts, sets[i], given)?;
    }
    Ok(given)
}

// Those of a set that were made before a node, before others.
fn outside_before<'a>(
    bump: &'a Bump,
    from: u32,
    set: &[Alias],
    behind: &'a [Alias],
) -> Result<&'a [Alias], NoMemory>
    ensures { IfOk result (λ all. all.now ≡ union (those (is_outside from) set.now) behind.now) }
{
    let mut all = behind;
    let mut i = set.len();
    'members: while i > 0 {
        i -= 1;
        let member = set[i];
        let counts = is_outside(from, member);
        all = with_if(bump, counts, member, all)?;
    }
    Ok(all)
}

fn round_of<'a>(
    bump: &'a Bump,
    from: u32,
    all: &[Carried<'a>],
    sets: &[&'a [Alias]],
    one: &Carried<'a>,
) -> Result<&'a [Alias], NoMemory>
    ensures { IfOk result (λ set. set.now ≡ round_of from (carrieds_of all.now) (sets_of sets.now) (carried_of one.now)) }
{
    if one.is_eaten {
        return Ok(no_alias(bump));
    }
    let given = of_given(bump, one.gives, all, sets)?;
    let behind = outside_before(bump, from, one.gives, given)?;
    let set = union(bump, one.first, behind)?;
    Ok(set)
}

fn one_round<'a>(
    bump: &'a Bump,
    from: u32,
    all: &[Carried<'a>],
    sets: &[&'a [Alias]],
) -> Result<&'a [&'a [Alias]], NoMemory>
    ensures { IfOk result (λ next. sets_of next.now ≡ one_round from (carrieds_of all.now) (sets_of sets.now) (carrieds_of all.now)) }
{
    let mut made = Vec::new(bump);
    for i in 0..all.len() {
        let set = round_of(bump, from, all, sets, &all[i])?;
        made.push(set)?;
    }
    Ok(into_bump_slice(made))
}

fn no_sets<'a>(bump: &'a Bump, carried: &[Carried<'_>]) -> Result<&'a [&'a [Alias]], NoMemory>
    ensures { IfOk result (λ none. sets_of none.now ≡ no_sets (carrieds_of carried.now)) }
{
    let mut made = Vec::new(bump);
    for _i in 0..carried.len() {
        made.push(no_alias(bump))?;
    }
    Ok(into_bump_slice(made))
}

fn is_same(one: Alias, other: Alias) -> bool
    ensures { result ≡ true → one ≡ other }
{
    match one {
        Alias::Part(node, component, bind) => match other {
            Alias::Part(other_node, other_component, other_bind) => {
                node == other_node && component == other_component && bind.0 == other_bind.0
            }
            Alias::Own(_) => false,
        },
        Alias::Own(node) => match other {
            Alias::Part(_, _, _) => false,
            Alias::Own(other_node) => node == other_node,
        },
    }
}

fn is_same_set(one: &[Alias], other: &[Alias]) -> bool
    ensures { result ≡ true → one.now ≡ other.now }
{
    if one.len() != other.len() {
        return false;
    }
    for i in 0..one.len() {
        if !is_same(one[i], other[i]) {
            return false;
        }
    }
    true
}

// Whether a round changed nothing.
fn are_same(one: &[&[Alias]], other: &[&[Alias]]) -> bool
    ensures { result ≡ true → sets_of one.now ≡ sets_of other.now }
{
    if one.len() != other.len() {
        return false;
    }
    for i in 0..one.len() {
        if !is_same_set(one[i], other[i]) {
            return false;
        }
    }
    true
}

/// What each component shares memory with at the start of a turn, beside its own name: of a loop that begins at a node. It takes
/// rounds until nothing changes, at most one more than there are components; a round costs the square of their number.
pub fn over_all_turns<'a>(
    bump: &'a Bump,
    from: u32,
    carried: &[Carried<'a>],
) -> Result<&'a [&'a [Alias]], NoMemory>
    ensures { IfOk result (λ sets. sets_of sets.now ≡ over_all_turns from (carrieds_of carried.now)) }
{
    let none = no_sets(bump, carried)?;
    let mut sets = one_round(bump, from, carried, none)?;
    for _i in 0..carried.len() {
        let next = one_round(bump, from, carried, sets)?;
        if are_same(next, sets) {
            return Ok(sets);
        }
        sets = next;
    }
    Ok(sets)
}
