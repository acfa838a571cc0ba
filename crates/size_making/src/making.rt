// The sized type that a type has by itself.
ghost use Rattle.std.specs.Prelude.{◌≡◌, ◌+◌, IfOk};
ghost use Rattle.fut_sizes.specs.Agreeing.{all_type_levels, element_of, of_type, of_types, type_levels};
ghost use Rattle.sized_types.specs.Sizes.{Level};
ghost use Rattle.size_making.specs.Makings.{making_of};
ghost use Rattle.size_arena.specs.Trees.{dim_of, size_of, sizes_of, type_of, tys_of};

use bumpalo::Bump;
use bumpalo::collections::into_bump_slice;
use fut_scalar::NoMemory;
use fut_types::Head;
use size_arena::{Dim, Free, SizeTree, TypeTree, Variable, built, function, hole, level};

/// Which sizes the levels of a type get.
#[derive(Clone, Copy)]
pub enum Making {
    /// Each is met at this node.
    Unknown(u32),
    /// Each is one of its own of the parameter at this node.
    Own(u32),
    /// Slots, from this number on.
    Slots(u32),
    /// Positions of the nearest frame, from this one on.
    Positions(u32),
}

/// The size of the level with this number.
fn size_made(making: Making, number: u32) -> Result<Dim, NoMemory>
    ensures { IfOk result (λ dim. dim_of dim ≡ making_of making number) }
{
    match making {
        Making::Unknown(node) => Ok(Dim::At(Free::Unknown(node, number))),
        Making::Own(node) => Ok(Dim::At(Free::Own(node, number))),
        Making::Slots(first) => match first.checked_add(number) {
            Some(slot) => Ok(Dim::At(Free::Slot(slot))),
            None => Err(NoMemory),
        },
        Making::Positions(first) => match first.checked_add(number) {
            Some(position) => Ok(Dim::Bound(0, position)),
            None => Err(NoMemory),
        },
    }
}

/// The number behind those of a type's levels, the first of which has this number. Those of functions are their own.
#[cycle(counting)]
pub fn past_type(ty: &TypeTree<'_>, first: u32) -> Result<u32, NoMemory>
    ensures { IfOk result (λ next. next ≡ first + type_levels (type_of ty.now)) }
{
    match ty {
        TypeTree::Var(_) => Ok(first),
        TypeTree::Made { head, parts, .. } => match head {
            Head::Array => match first.checked_add(1) {
                Some(next) => past_types(parts, next),
                None => Err(NoMemory),
            },
            Head::Fun => Ok(first),
            _ => past_types(parts, first),
        },
    }
}

#[cycle(counting)]
fn past_types(parts: &[TypeTree<'_>], first: u32) -> Result<u32, NoMemory>
    ensures { IfOk result (λ next. next ≡ first + all_type_levels (tys_of parts.now)) }
{
    let mut next = first;
    for part in parts {
        next = past_type(part, next)?;
    }
    Ok(next)
}

fn next_of(number: u32) -> Result<u32, NoMemory>
    ensures { IfOk result (λ next. next ≡ number + 1) }
{
    match number.checked_add(1) {
        Some(next) => Ok(next),
        None => Err(NoMemory),
    }
}

/// An array of the first of these.
fn array_of<'a>(
    bump: &'a Bump,
    size: Dim,
    parts: &'a [SizeTree<'a>],
) -> Result<&'a SizeTree<'a>, NoMemory>
    ensures { IfOk result (λ made. size_of made.now ≡ Level (dim_of size) (element_of (sizes_of parts.now))) }
{
    // An array has an element.
    if parts.len() == 0 {
        return Err(NoMemory);
    }
    level(bump, size, &parts[0])
}

/// The sized type of a type whose first level has this number. In a function type each level of a parameter is chosen by the
/// caller, and each of the last result is met.
#[cycle(making)]
pub fn of_type<'a>(
    ty: &TypeTree<'_>,
    making: Making,
    first: u32,
    bump: &'a Bump,
) -> Result<&'a SizeTree<'a>, NoMemory>
    ensures { IfOk result (λ made. size_of made.now ≡ of_type (making_of making) first (type_of ty.now)) }
{
    match ty {
        TypeTree::Var(number) => hole(bump, Variable::Inferred(*number)),
        TypeTree::Made { head, parts, .. } => match head {
            Head::Rigid(name, kind) => hole(bump, Variable::Written(*name, *kind)),
            Head::Array => {
                let size = size_made(making, first)?;
                let next = next_of(first)?;
                let elements = of_types(parts, making, next, bump)?;
                array_of(bump, size, elements)
            }
            Head::Fun => {
                // A function type has two parts.
                if parts.len() != 2 {
                    return Err(NoMemory);
                }
                let chosen = past_type(&parts[0], 0)?;
                let from = of_type(&parts[0], Making::Positions(0), 0, bump)?;
                let met = next_of(chosen)?;
                let to = of_type(&parts[1], Making::Positions(met), 0, bump)?;
                function(bump, chosen, from, to)
            }
            _ => {
                let made = of_types(parts, making, first, bump)?;
                built(bump, *head, made)
            }
        },
    }
}

#[cycle(making)]
#[tactic(auto, using(crate::proofs::MakingForms::all_made))]
fn of_types<'a>(
    parts: &[TypeTree<'_>],
    making: Making,
    first: u32,
    bump: &'a Bump,
) -> Result<&'a [SizeTree<'a>], NoMemory>
    ensures { IfOk result (λ made. sizes_of made.now ≡ of_types (making_of making) first (tys_of parts.now)) }
{
    let mut made = Vec::new(bump);
    let mut number = first;
    for part in parts {
        let after = of_type(part, making, number, bump)?;
        made.push(*after)?;
        number = past_type(part, number)?;
    }
    Ok(into_bump_slice(made))
}
