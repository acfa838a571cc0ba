// What may share memory with nothing, and does.
ghost use Rattle.std.specs.Prelude.{◌≡◌, ◌++◌, ◌||◌, [], cond};
ghost use Rattle.fut_aliases.specs.Aliases.{is_in, is_outside, least, shared, those, union};
ghost use Rattle.fut_aliases.specs.Loops.{all_sets, firsts, kept_names, shared_firsts, shared_results};
ghost use Rattle.alias_joins.specs.SetRows.{sets_of};
ghost use Rattle.alias_loops.specs.Carried.{carrieds_of};
ghost use Rattle.alias_loops.specs.Lowest.{lowest};

use crate::carried::Carried;
use crate::lowest::{lowest_first, lowest_kept, lowest_shared};
use fut_aliases::Alias;

// The least of what a component's first value may not share, if it is consumed, and of one more.
fn lowest_of_first(
    over: &[Alias],
    one: &Carried<'_>,
    before: &[Carried<'_>],
    behind: &[Carried<'_>],
    least: Option<Alias>,
) -> Option<Alias>
    ensures { result ≡ lowest (cond one.now.is_eaten (shared one.now.first.now (union over.now (firsts (carrieds_of before.now ++ carrieds_of behind.now)))) []) least }
{
    if one.is_eaten {
        lowest_first(one.first, over, before, behind, least)
    } else {
        least
    }
}

/// The least alias that a first value that is consumed shares with another, or with what the loop goes over. The cost is the product
/// of what is consumed and of all first values.
pub fn least_shared_first(over: &[Alias], carried: &[Carried<'_>]) -> Option<Alias>
    ensures { result ≡ least (shared_firsts over.now [] (carrieds_of carried.now)) }
{
    let mut least = None;
    let mut i = carried.len();
    'components: while i > 0 {
        i -= 1;
        let before = carried.split_at(i).0;
        let behind = carried.split_at(i + 1).1;
        least = lowest_of_first(over, &carried[i], before, behind, least);
    }
    least
}

// The least of what the body may not share that it gives for a parameter, if it consumes that, and of one more.
fn lowest_of_result(
    is_eaten: bool,
    set: &[Alias],
    from: u32,
    carried: &[Carried<'_>],
    before: &[&[Alias]],
    behind: &[&[Alias]],
    least: Option<Alias>,
) -> Option<Alias>
    ensures { result ≡ lowest (cond is_eaten (union (those (λ a. is_outside from a || is_in a (kept_names (carrieds_of carried.now))) set.now) (shared set.now (all_sets (sets_of before.now ++ sets_of behind.now)))) []) least }
{
    if !is_eaten {
        return least;
    }
    let lower = lowest_shared(set, before, behind, least);
    lowest_kept(set, from, carried, lower)
}

/// The least alias that what the body gives for a parameter that it consumes shares with what was made before the loop, with a
/// parameter that it does not consume, or with another component.
pub fn least_shared_result(from: u32, carried: &[Carried<'_>], given: &[&[Alias]]) -> Option<Alias>
    ensures { result ≡ least (shared_results from (kept_names (carrieds_of carried.now)) [] (carrieds_of carried.now) (sets_of given.now)) }
{
    let mut least = None;
    let mut i = carried.len().min(given.len());
    'components: while i > 0 {
        i -= 1;
        let before = given.split_at(i).0;
        let behind = given.split_at(i + 1).1;
        let is_eaten = carried[i].is_eaten;
        least = lowest_of_result(is_eaten, given[i], from, carried, before, behind, least);
    }
    least
}
