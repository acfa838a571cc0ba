// Sets of aliases, as slices. Looking for one is linear in the set, uniting two in their product; sets are short.
ghost use Rattle.std.specs.Prelude.{◌≡◌, ◌≤◌, ◌++◌, ◌∷◌, length, take, drop, IfOk};
ghost use Rattle.fut_aliases.specs.Aliases.{is_alias, is_before, is_in, is_outside, least, those, union, with_alias};
ghost use Rattle.alias_values.specs.Tests.{test_of};

use bumpalo::Bump;
use bumpalo::collections::into_bump_slice;
use fut_aliases::Alias;
use fut_scalar::NoMemory;

/// Whether two are one alias.
pub fn is_alias(one: Alias, other: Alias) -> bool
    ensures { result ≡ is_alias one other }
{
    match one {
        Alias::Part(node, component, _) => match other {
            Alias::Part(other_node, other_component, _) => {
                node == other_node && component == other_component
            }
            Alias::Own(_) => false,
        },
        Alias::Own(node) => match other {
            Alias::Part(_, _, _) => false,
            Alias::Own(other_node) => node == other_node,
        },
    }
}

/// Whether the first comes before the second.
pub fn is_before(one: Alias, other: Alias) -> bool
    ensures { result ≡ is_before one other }
{
    match one {
        Alias::Part(node, component, _) => match other {
            Alias::Part(other_node, other_component, _) => {
                node < other_node || (node == other_node && component < other_component)
            }
            Alias::Own(_) => true,
        },
        Alias::Own(node) => match other {
            Alias::Part(_, _, _) => false,
            Alias::Own(other_node) => node < other_node,
        },
    }
}

/// Whether an alias was made before a node was reached.
pub fn is_outside(from: u32, alias: Alias) -> bool
    ensures { result ≡ is_outside from alias }
{
    match alias {
        Alias::Part(node, _, _) | Alias::Own(node) => node < from,
    }
}

/// Whether an alias is in a set.
#[tactic(auto, using(crate::proofs::SetForms::members))]
pub fn is_in(alias: Alias, set: &[Alias]) -> bool
    ensures { result ≡ is_in alias set.now }
{
    for i in 0..set.len() {
        if is_alias(alias, set[i]) {
            return true;
        }
    }
    false
}

// The set with an alias put in at a place.
#[tactic(auto, using(crate::proofs::SetForms::inserting))]
fn inserted<'a>(
    bump: &'a Bump,
    alias: Alias,
    set: &[Alias],
    place: usize,
) -> Result<&'a [Alias], NoMemory>
    requires place { place ≤ length set.now }
    ensures { IfOk result (λ joined. joined.now ≡ take place set.now ++ alias ∷ drop place set.now) }
{
    let (before, behind) = set.split_at(place);
    let mut made = Vec::new(bump);
    made.extend_from_slice(before)?;
    made.push(alias)?;
    made.extend_from_slice(behind)?;
    Ok(into_bump_slice(made))
}

/// The set with one more alias.
#[tactic(auto, using(crate::proofs::SetForms::joining))]
pub fn with_alias<'a>(
    bump: &'a Bump,
    alias: Alias,
    set: &'a [Alias],
) -> Result<&'a [Alias], NoMemory>
    ensures { IfOk result (λ joined. joined.now ≡ with_alias alias set.now) }
{
    for i in 0..set.len() {
        let member = set[i];
        if is_before(alias, member) {
            let joined = inserted(bump, alias, set, i)?;
            return Ok(joined);
        }
        if is_alias(alias, member) {
            return Ok(set);
        }
    }
    let joined = inserted(bump, alias, set, set.len())?;
    Ok(joined)
}

/// The aliases of both sets.
#[tactic(auto, using(crate::proofs::SetForms::uniting))]
pub fn union<'a>(
    bump: &'a Bump,
    left: &[Alias],
    right: &'a [Alias],
) -> Result<&'a [Alias], NoMemory>
    ensures { IfOk result (λ all. all.now ≡ union left.now right.now) }
{
    let mut all = right;
    let mut i = left.len();
    'members: while i > 0 {
        i -= 1;
        all = with_alias(bump, left[i], all)?;
    }
    Ok(all)
}

/// What an alias is asked.
#[derive(Clone, Copy)]
pub enum Test<'a> {
    /// Whether it is in a set.
    In(&'a [Alias]),
    /// Whether it was made before a node.
    Outside(u32),
    /// Either.
    InOrOutside(&'a [Alias], u32),
}

fn passes(test: &Test<'_>, alias: Alias) -> bool
    ensures { result ≡ test_of test.now alias }
{
    match test {
        Test::In(set) => is_in(alias, set),
        Test::Outside(from) => is_outside(*from, alias),
        Test::InOrOutside(set, from) => is_in(alias, set) || is_outside(*from, alias),
    }
}

/// The least alias of a set that passes a test.
#[tactic(auto, using(crate::proofs::SetForms::least_ones))]
pub fn least_of(test: &Test<'_>, set: &[Alias]) -> Option<Alias>
    ensures { result ≡ least (those (test_of test.now) set.now) }
{
    for i in 0..set.len() {
        let member = set[i];
        if passes(test, member) {
            return Some(member);
        }
    }
    None
}
