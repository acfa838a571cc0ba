// The least alias of several sets, without making their union.
ghost use Rattle.std.specs.Prelude.{◌≡◌, ◌++◌, ◌||◌, cond};
ghost use Rattle.fut_aliases.specs.Aliases.{is_in, is_outside, shared, those, union};
ghost use Rattle.fut_aliases.specs.Loops.{all_sets, firsts, kept_names};
ghost use Rattle.alias_joins.specs.SetRows.{sets_of};
ghost use Rattle.alias_loops.specs.Carried.{carrieds_of, kept_of};
ghost use Rattle.alias_loops.specs.Lowest.{lesser, lowest};

use crate::carried::Carried;
use alias_values::{is_before, is_in, is_outside};
use fut_aliases::Alias;

// The lesser of an alias and the least of others.
fn lesser(alias: Alias, least: Option<Alias>) -> Option<Alias>
    ensures { result ≡ lesser alias least }
{
    match least {
        Some(other) => {
            if is_before(alias, other) {
                Some(alias)
            } else {
                least
            }
        }
        None => Some(alias),
    }
}

// The least with one more alias, where that counts.
fn lesser_if(counts: bool, alias: Alias, least: Option<Alias>) -> Option<Alias>
    ensures { result ≡ cond counts (lesser alias least) least }
{
    if counts { lesser(alias, least) } else { least }
}

// Whether an alias is in some first value.
fn is_first(alias: Alias, carried: &[Carried<'_>]) -> bool
    ensures { result ≡ is_in alias (firsts (carrieds_of carried.now)) }
{
    for i in 0..carried.len() {
        if is_in(alias, carried[i].first) {
            return true;
        }
    }
    false
}

// Whether it is in some first value on either side.
fn is_other_first(alias: Alias, before: &[Carried<'_>], behind: &[Carried<'_>]) -> bool
    ensures { result ≡ is_in alias (firsts (carrieds_of before.now ++ carrieds_of behind.now)) }
{
    is_first(alias, before) || is_first(alias, behind)
}

// Whether it is in what a loop goes over, or in some first value on either side.
fn is_shared_first(
    alias: Alias,
    over: &[Alias],
    before: &[Carried<'_>],
    behind: &[Carried<'_>],
) -> bool
    ensures { result ≡ is_in alias (union over.now (firsts (carrieds_of before.now ++ carrieds_of behind.now))) }
{
    is_in(alias, over) || is_other_first(alias, before, behind)
}

/// The least of what a first value shares with what a loop goes over or with the first values on either side, and of one more.
pub fn lowest_first(
    set: &[Alias],
    over: &[Alias],
    before: &[Carried<'_>],
    behind: &[Carried<'_>],
    one: Option<Alias>,
) -> Option<Alias>
    ensures { result ≡ lowest (shared set.now (union over.now (firsts (carrieds_of before.now ++ carrieds_of behind.now)))) one }
{
    let mut least = one;
    let mut i = set.len();
    'members: while i > 0 {
        i -= 1;
        let member = set[i];
        let counts = is_shared_first(member, over, before, behind);
        least = lesser_if(counts, member, least);
    }
    least
}

// Whether an alias is in some set of a row.
fn is_in_some(alias: Alias, sets: &[&[Alias]]) -> bool
    ensures { result ≡ is_in alias (all_sets (sets_of sets.now)) }
{
    for i in 0..sets.len() {
        if is_in(alias, sets[i]) {
            return true;
        }
    }
    false
}

// Whether it is in some set on either side.
fn is_in_either(alias: Alias, before: &[&[Alias]], behind: &[&[Alias]]) -> bool
    ensures { result ≡ is_in alias (all_sets (sets_of before.now ++ sets_of behind.now)) }
{
    is_in_some(alias, before) || is_in_some(alias, behind)
}

/// The least of what a set shares with the sets on either side, and of one more.
pub fn lowest_shared(
    set: &[Alias],
    before: &[&[Alias]],
    behind: &[&[Alias]],
    one: Option<Alias>,
) -> Option<Alias>
    ensures { result ≡ lowest (shared set.now (all_sets (sets_of before.now ++ sets_of behind.now))) one }
{
    let mut least = one;
    let mut i = set.len();
    'members: while i > 0 {
        i -= 1;
        let member = set[i];
        let counts = is_in_either(member, before, behind);
        least = lesser_if(counts, member, least);
    }
    least
}

// Whether an alias is the own name of a parameter that is not consumed.
#[tactic(auto, using(crate::proofs::LowestForms::kept_forms))]
fn is_kept_of(alias: Alias, one: &Carried<'_>) -> bool
    ensures { result ≡ is_in alias (kept_of one.now) }
{
    if one.is_eaten {
        false
    } else {
        is_in(alias, one.own)
    }
}

// Whether it is that of one of them.
fn is_kept(alias: Alias, carried: &[Carried<'_>]) -> bool
    ensures { result ≡ is_in alias (kept_names (carrieds_of carried.now)) }
{
    for i in 0..carried.len() {
        if is_kept_of(alias, &carried[i]) {
            return true;
        }
    }
    false
}

// Whether it was made before a node, or is that of one of them.
fn is_from_outside(alias: Alias, from: u32, carried: &[Carried<'_>]) -> bool
    ensures { result ≡ (is_outside from alias || is_in alias (kept_names (carrieds_of carried.now))) }
{
    is_outside(from, alias) || is_kept(alias, carried)
}

/// The least of a set's aliases that were made before a node or are own names of parameters that are not consumed, and of one more.
pub fn lowest_kept(
    set: &[Alias],
    from: u32,
    carried: &[Carried<'_>],
    one: Option<Alias>,
) -> Option<Alias>
    ensures { result ≡ lowest (those (λ a. is_outside from a || is_in a (kept_names (carrieds_of carried.now))) set.now) one }
{
    let mut least = one;
    let mut i = set.len();
    'members: while i > 0 {
        i -= 1;
        let member = set[i];
        let counts = is_from_outside(member, from, carried);
        least = lesser_if(counts, member, least);
    }
    least
}
