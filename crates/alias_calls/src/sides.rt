// Components of a call that clash.
ghost use Rattle.std.specs.Prelude.{◌≡◌, ◌++◌, []};
ghost use Rattle.fut_aliases.specs.Calls.{clash, clashes, clashes_of, first_broken};
ghost use Rattle.alias_calls.specs.Sides.{side_of, sides_of};

use alias_values::{Test, least_of};
use fut_aliases::{Alias, Broken, Named, Spot};

/// A component of a function or of an argument: where that stands, whether its parameter has a star there, and its aliases.
#[derive(Clone, Copy)]
pub struct Side<'a> {
    pub node: u32,
    pub starred: bool,
    pub set: &'a [Alias],
}

/// What the first consumes may share with nothing of the second: the least that both have.
pub fn clash(one: &Side<'_>, other: &Side<'_>) -> Option<Broken>
    ensures { result ≡ clash (side_of one.now) (side_of other.now) }
{
    match least_of(&Test::In(other.set), one.set) {
        Some(alias) => Some(Broken::Consumed(
            Named::ByAlias(alias),
            Spot::First(one.node),
            Spot::First(other.node),
        )),
        None => None,
    }
}

// The first of others that a component clashes with.
#[tactic(auto, using(crate::proofs::ClashForms::first_clashes))]
fn first_clash(one: &Side<'_>, others: &[Side<'_>]) -> Option<Broken>
    ensures { result ≡ first_broken (clash (side_of one.now)) (sides_of others.now) }
{
    for i in 0..others.len() {
        match clash(one, &others[i]) {
            Some(broken) => return Some(broken),
            None => (),
        }
    }
    None
}

// A component with a star clashes with those before it and those behind it.
#[tactic(auto, using(crate::proofs::ClashForms::clashing))]
fn clashes_of(one: &Side<'_>, before: &[Side<'_>], behind: &[Side<'_>]) -> Option<Broken>
    ensures { result ≡ clashes_of (side_of one.now) (sides_of before.now ++ sides_of behind.now) }
{
    if !one.starred {
        return None;
    }
    match first_clash(one, before) {
        Some(broken) => Some(broken),
        None => first_clash(one, behind),
    }
}

/// No component that is consumed may share with another, of the function or of an argument: the first that does.
#[tactic(auto, using(crate::proofs::ClashForms::all_clashes))]
pub fn clashes(sides: &[Side<'_>]) -> Option<Broken>
    ensures { result ≡ clashes [] (sides_of sides.now) }
{
    for i in 0..sides.len() {
        let before = sides.split_at(i).0;
        let behind = sides.split_at(i + 1).1;
        match clashes_of(&sides[i], before, behind) {
            Some(broken) => return Some(broken),
            None => (),
        }
    }
    None
}
