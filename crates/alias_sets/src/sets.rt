// Sets as slices. Each operation is linear in what it reads, and looking for a member is logarithmic.
ghost use Rattle.std.specs.Prelude.{◌≡◌, ◌++◌, drop, IfOk, true};
ghost use Rattle.alias_sets.specs.Sets.{IsRenamed, IsSet, IsUnion, is_member};
ghost use Rattle.alias_sets.specs.Merging.{Merged, Within, without};

use bumpalo::Bump;
use bumpalo::collections::into_bump_slice;
use fut_scalar::NoMemory;

/// Whether a number is a member.
pub fn contains(set: &[u32], root: u32) -> bool
    requires set { IsSet set.now }
    ensures { result ≡ is_member root set.now }
{
    set.binary_search(&root).is_ok()
}

/// The members of either.
#[tactic(auto, using(crate::proofs::Members::uniting))]
pub fn union<'a>(bump: &'a Bump, left: &'a [u32], right: &'a [u32]) -> Result<&'a [u32], NoMemory>
    requires left { IsSet left.now }
    requires right { IsSet right.now }
    ensures { IfOk result (λ set. IsUnion left.now right.now set.now) }
{
    if holds_all(left, right) {
        return Ok(left);
    }
    if holds_all(right, left) {
        return Ok(right);
    }
    let all = merged(bump, left, right)?;
    Ok(all)
}

/// The set with another in place of a member; a number that is no member changes nothing.
#[tactic(auto, using(crate::proofs::Members::renaming))]
pub fn rename<'a>(
    bump: &'a Bump,
    set: &'a [u32],
    from: u32,
    to: &'a [u32],
) -> Result<&'a [u32], NoMemory>
    requires set { IsSet set.now }
    requires to { IsSet to.now }
    ensures { IfOk result (λ renamed. IsRenamed set.now from to.now renamed.now) }
{
    if !contains(set, from) {
        return Ok(set);
    }
    let rest = left_by(bump, set, from)?;
    let renamed = union(bump, rest, to)?;
    Ok(renamed)
}

// Whether all members of the second are found in the first, one after the other.
#[tactic(auto, using(crate::proofs::Merging::holding))]
fn holds_all(set: &[u32], others: &[u32]) -> bool
    ensures { result ≡ true → Within set.now others.now }
{
    let mut i = 0;
    let mut j = 0;
    'others: while j < others.len() {
        if i == set.len() || set[i] > others[j] {
            return false;
        }
        if set[i] == others[j] {
            j += 1;
        }
        i += 1;
    }
    true
}

// Both in one list, the lesser first, and what both have once.
#[tactic(auto, using(crate::proofs::Merging::merging))]
fn merged<'a>(bump: &'a Bump, left: &[u32], right: &[u32]) -> Result<&'a [u32], NoMemory>
    ensures { IfOk result (λ set. Merged left.now right.now set.now) }
{
    let mut made = Vec::new(bump);
    let mut i = 0;
    let mut j = 0;
    'both: while i < left.len() && j < right.len() {
        let next_left = left[i];
        let next_right = right[j];
        made.push(next_left.min(next_right))?;
        if next_left <= next_right {
            i += 1;
        }
        if next_right <= next_left {
            j += 1;
        }
    }
    let all = followed_by(made, left.split_at(i).1, right.split_at(j).1)?;
    Ok(all)
}

// A list with two others behind it.
fn followed_by<'a>(
    mut made: Vec<u32, &'a Bump>,
    first: &[u32],
    second: &[u32],
) -> Result<&'a [u32], NoMemory>
    ensures { IfOk result (λ list. list.now ≡ (made.entry.items ++ first.now) ++ second.now) }
{
    made.extend_from_slice(first)?;
    made.extend_from_slice(second)?;
    Ok(into_bump_slice(made))
}

// The members but for one.
#[tactic(auto, using(crate::proofs::Merging::leaving))]
fn left_by<'a>(bump: &'a Bump, set: &[u32], from: u32) -> Result<&'a [u32], NoMemory>
    ensures { IfOk result (λ rest. rest.now ≡ without from set.now) }
{
    let mut made = Vec::new(bump);
    for i in 0..set.len() {
        if set[i] != from {
            made.push(set[i])?;
        }
    }
    Ok(into_bump_slice(made))
}
