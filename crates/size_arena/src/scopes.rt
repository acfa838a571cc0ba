// What becomes of sizes where names go out of scope, and where function types are opened.
ghost use Rattle.std.specs.Prelude.{◌≡◌, IfOk};
ghost use Rattle.sized_types.specs.Sizes.{all_replaced, has, replaced, some_has, some_takes, takes};
ghost use Rattle.fut_sizes.specs.Agreeing.{is_among, leaving, left};
ghost use Rattle.fut_sizes.specs.Matching.{any_size};
ghost use Rattle.size_arena.specs.Answers.{Gives};
ghost use Rattle.size_arena.specs.Changes.{change_of, given_at, property_of};
ghost use Rattle.size_arena.specs.Trees.{dim_of, free_of, size_of, sizes_of};

use crate::agreeing::{Refusal, SizeErr};
use crate::dims::{Dim, Free};
use crate::opened::{Frames, dim_in};
use crate::trees::{SizeTree, built, function, level};
use bumpalo::Bump;
use bumpalo::collections::into_bump_slice;
use fut_scalar::NoMemory;

/// What is looked for in a sized type.
#[derive(Clone, Copy)]
pub enum Property<'a> {
    /// A size that no name and no constant tells.
    Unknown,
    /// One of these names.
    Names(&'a [u32]),
}

#[tactic(auto, using(crate::proofs::ScopeForms::among))]
fn is_among(names: &[u32], name: u32) -> bool
    ensures { result ≡ is_among names.now name }
{
    for one in names {
        if name == *one {
            return true;
        }
    }
    false
}

/// Whether a size has the property.
fn is_so(property: &Property<'_>, dim: Dim) -> bool
    ensures { result ≡ property_of property.now (dim_of dim) }
{
    match property {
        Property::Unknown => matches!(dim, Dim::At(Free::Unknown(_, _))),
        Property::Names(names) => match dim {
            Dim::At(Free::Name(name)) => is_among(names, name),
            _ => false,
        },
    }
}

/// Whether a size with the property stands in a sized type.
#[cycle(has)]
#[tactic(auto, using(crate::proofs::ScopeForms::has_forms))]
pub fn has(tree: &SizeTree<'_>, property: &Property<'_>) -> bool
    ensures { result ≡ has (property_of property.now) (size_of tree.now) }
{
    match tree {
        SizeTree::Hole(_) => false,
        SizeTree::Open { .. } => false,
        SizeTree::Level { size, row, .. } => is_so(property, *size) || has(row, property),
        SizeTree::Built { parts, .. } => some_has(parts, property),
        SizeTree::Fun { from, to, .. } => has(from, property) || has(to, property),
    }
}

#[cycle(has)]
#[tactic(auto, using(crate::proofs::ScopeForms::some_has_forms))]
fn some_has(parts: &[SizeTree<'_>], property: &Property<'_>) -> bool
    ensures { result ≡ some_has (property_of property.now) (sizes_of parts.now) }
{
    for part in parts {
        if has(part, property) {
            return true;
        }
    }
    false
}

/// Whether one stands in what a function takes.
#[cycle(takes)]
#[tactic(auto, using(crate::proofs::ScopeForms::takes_forms))]
pub fn takes(tree: &SizeTree<'_>, property: &Property<'_>) -> bool
    ensures { result ≡ takes (property_of property.now) (size_of tree.now) }
{
    match tree {
        SizeTree::Hole(_) => false,
        SizeTree::Open { .. } => false,
        SizeTree::Level { row, .. } => takes(row, property),
        SizeTree::Built { parts, .. } => some_takes(parts, property),
        SizeTree::Fun { from, to, .. } => has(from, property) || takes(to, property),
    }
}

#[cycle(takes)]
#[tactic(auto, using(crate::proofs::ScopeForms::some_takes_forms))]
fn some_takes(parts: &[SizeTree<'_>], property: &Property<'_>) -> bool
    ensures { result ≡ some_takes (property_of property.now) (sizes_of parts.now) }
{
    for part in parts {
        if takes(part, property) {
            return true;
        }
    }
    false
}

/// How each size is changed.
#[derive(Clone, Copy)]
pub enum Change<'a> {
    /// At the node that ends their scope each of the names becomes one unknown, numbered by its place.
    Leave { node: u32, names: &'a [u32] },
    /// The sizes of the nearest frame are given at a node: those that its caller chooses, as many as counted, the argument's
    /// value, and those that are met.
    Give { node: u32, chosen: u32, value: Free },
    /// The function types around are opened.
    Open(&'a Frames<'a>),
    /// What is bound outside becomes a slot, which takes any size.
    Any,
}

/// What becomes of a name at the node that ends the scope of these.
fn left(node: u32, names: &[u32], name: u32) -> Result<Free, NoMemory>
    ensures { IfOk result (λ after. free_of after ≡ left node 0 names.now name) }
{
    let mut number: u32 = 0;
    for one in names {
        if name == *one {
            return Ok(Free::Unknown(node, number));
        }
        match number.checked_add(1) {
            Some(next) => number = next,
            None => return Err(NoMemory),
        }
    }
    Ok(Free::Name(name))
}

/// What a position of an opened frame stands for.
fn given(node: u32, chosen: u32, value: Free, position: u32) -> Free
    ensures { free_of result ≡ given_at node chosen (free_of value) position }
{
    if position == chosen {
        value
    } else if position < chosen {
        Free::Own(node, position)
    } else {
        Free::Unknown(node, position)
    }
}

/// What is bound outside of so many function types is any size.
#[tactic(auto, using(crate::proofs::ScopeForms::any))]
fn any_size(around: u32, dim: Dim) -> Dim
    ensures { dim_of result ≡ any_size around (dim_of dim) }
{
    match dim {
        Dim::At(_) => dim,
        Dim::Bound(between, position) => {
            if between < around {
                dim
            } else {
                Dim::At(Free::Slot(position))
            }
        }
    }
}

/// A size changed, around which so many function types stand.
fn changed_dim(change: &Change<'_>, around: u32, dim: Dim) -> Result<Dim, NoMemory>
    ensures { IfOk result (λ after. dim_of after ≡ change_of change.now around (dim_of dim)) }
{
    match change {
        Change::Leave { node, names } => match dim {
            Dim::At(Free::Name(name)) => {
                let after = left(*node, names, name)?;
                Ok(Dim::At(after))
            }
            Dim::At(Free::Const(_)) => Ok(dim),
            Dim::At(Free::Own(_, _)) => Ok(dim),
            Dim::At(Free::Unknown(_, _)) => Ok(dim),
            Dim::At(Free::Slot(_)) => Ok(dim),
            Dim::Bound(_, _) => Ok(dim),
        },
        Change::Give {
            node,
            chosen,
            value,
        } => match dim {
            Dim::At(_) => Ok(dim),
            Dim::Bound(between, position) => match between.checked_add(1) {
                Some(deep) => {
                    if deep == around {
                        Ok(Dim::At(given(*node, *chosen, *value, position)))
                    } else {
                        Ok(dim)
                    }
                }
                None => Err(NoMemory),
            },
        },
        Change::Open(frames) => dim_in(frames, around, dim),
        Change::Any => Ok(any_size(around, dim)),
    }
}

/// A sized type whose sizes are changed, inside so many function types.
#[cycle(changed)]
#[tactic(auto, using(crate::proofs::ScopeForms::changes))]
pub fn changed<'a>(
    tree: &'a SizeTree<'a>,
    change: &Change<'_>,
    around: u32,
    bump: &'a Bump,
) -> Result<&'a SizeTree<'a>, NoMemory>
    ensures { IfOk result (λ made. size_of made.now ≡ replaced (change_of change.now) around (size_of tree.now)) }
{
    match tree {
        SizeTree::Hole(_) => Ok(tree),
        SizeTree::Open { .. } => Ok(tree),
        SizeTree::Level { size, row, .. } => {
            let after = changed_dim(change, around, *size)?;
            let under = changed(row, change, around, bump)?;
            level(bump, after, under)
        }
        SizeTree::Built { head, parts, .. } => {
            let made = all_changed(parts, change, around, bump)?;
            built(bump, *head, made)
        }
        SizeTree::Fun {
            chosen,
            from,
            to,
            ..
        } => match around.checked_add(1) {
            Some(inside) => {
                let taken = changed(from, change, inside, bump)?;
                let given = changed(to, change, inside, bump)?;
                function(bump, *chosen, taken, given)
            }
            None => Err(NoMemory),
        },
    }
}

#[cycle(changed)]
#[tactic(auto, using(crate::proofs::ScopeForms::all_changes))]
fn all_changed<'a>(
    parts: &'a [SizeTree<'a>],
    change: &Change<'_>,
    around: u32,
    bump: &'a Bump,
) -> Result<&'a [SizeTree<'a>], NoMemory>
    ensures { IfOk result (λ made. sizes_of made.now ≡ all_replaced (change_of change.now) around (sizes_of parts.now)) }
{
    let mut made = Vec::new(bump);
    for part in parts {
        let after = changed(part, change, around, bump)?;
        made.push(*after)?;
    }
    Ok(into_bump_slice(made))
}

/// A sized type at the node that ends the scope of names.
///
/// `Err`: one of them stands in what a function takes, or memory ran out.
#[tactic(auto, using(crate::proofs::ScopeForms::leaves))]
pub fn leaving<'a>(
    node: u32,
    names: &[u32],
    tree: &'a SizeTree<'a>,
    bump: &'a Bump,
) -> Result<&'a SizeTree<'a>, SizeErr>
    ensures { Gives (leaving node names.now (size_of tree.now)) result }
{
    if takes(tree, &Property::Names(names)) {
        return Err(SizeErr::Refused(Refusal::Escapes(node)));
    }
    match changed(tree, &Change::Leave { node, names }, 0, bump) {
        Ok(made) => Ok(made),
        Err(NoMemory) => Err(SizeErr::Memory),
    }
}
