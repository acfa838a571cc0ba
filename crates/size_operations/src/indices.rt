// What indices and slices leave of a sized type.
ghost use Rattle.std.specs.Prelude.{◌≡◌, ℕ, IfOk, false, map, true};
ghost use Rattle.fut_flat.specs.Erased.{term_of, terms};
ghost use Rattle.fut_flat.specs.Terms.{Index};
ghost use Rattle.fut_sizes.specs.Operations.{indexed, operation, slice_size};
ghost use Rattle.fut_types.specs.Types.{Sub};
ghost use Rattle.sized_types.specs.Sizes.{At, Dim as TheDim};
ghost use Rattle.fut_typing.specs.Names.{Names};
ghost use Rattle.size_arena.specs.Trees.{dim_of, free_of, size_of, sizes_of};
ghost use Rattle.size_operations.specs.Answers.{Sized};
ghost use Rattle.size_operations.specs.Indexing.{level_left, sliced, taken_by};
ghost use Rattle.size_written.specs.Answers.{dim_held};

use crate::answers::sized;
use crate::values::{is_literal, value_of};
use bumpalo::Bump;
use flat_numbers::after;
use fut_flat::{Exp, Part};
use fut_scalar::NoMemory;
use size_arena::{Dim, Free, SizeErr, SizeTree, level};

/// How many operands a part of an index takes.
fn taken_by(asked: Part) -> usize
    ensures { result ≡ taken_by asked }
{
    match asked {
        Part::At => 1,
        Part::Backwards => 0,
        Part::Slice { from, to } => {
            if from {
                if to { 2 } else { 1 }
            } else if to {
                1
            } else {
                0
            }
        }
    }
}

/// The size of a slice up to a term, whose number is this: the term, where the slice starts at 0.
#[tactic(auto, unfolding(fut_sizes::specs::Operations::slice_size))]
fn slice_size(starts: bool, end: &Exp<'_>, node: u32, number: u32) -> Free
    ensures { free_of result ≡ slice_size node number starts (term_of end.now) }
{
    if starts {
        value_of(end, node, number)
    } else {
        Free::Unknown(node, number)
    }
}

/// The size of a slice with a start and an end.
#[tactic(auto, using(crate::proofs::IndexForms::between_forms))]
fn between(operands: &[Exp<'_>], node: u32, number: u32) -> Free
    ensures { (d : TheDim) → At (free_of result) ≡ sliced node number true true (terms (map term_of operands.now)) d }
{
    if operands.len() < 2 {
        return Free::Unknown(node, number);
    }
    let starts = is_literal(&operands[0], 0);
    slice_size(starts, &operands[1], node, number)
}

/// The size of a slice with an end alone.
#[tactic(auto, using(crate::proofs::IndexForms::up_to_forms))]
fn up_to(operands: &[Exp<'_>], node: u32, number: u32) -> Free
    ensures { (d : TheDim) → At (free_of result) ≡ sliced node number false true (terms (map term_of operands.now)) d }
{
    if operands.len() == 0 {
        return Free::Unknown(node, number);
    }
    value_of(&operands[0], node, number)
}

/// The size of a slice with these operands of a level of this size.
#[tactic(auto, using(crate::proofs::IndexForms::slices))]
fn sliced(from: bool, to: bool, operands: &[Exp<'_>], size: Dim, node: u32, number: u32) -> Dim
    ensures { dim_of result ≡ sliced node number from to (terms (map term_of operands.now)) (dim_of size) }
{
    if from {
        if to {
            Dim::At(between(operands, node, number))
        } else {
            Dim::At(Free::Unknown(node, number))
        }
    } else if to {
        Dim::At(up_to(operands, node, number))
    } else {
        size
    }
}

/// What a part of an index leaves of a level of this size.
fn level_left(asked: Part, operands: &[Exp<'_>], size: Dim, node: u32, number: u32) -> Option<Dim>
    ensures { dim_held result ≡ level_left node number asked (terms (map term_of operands.now)) (dim_of size) }
{
    match asked {
        Part::At => None,
        Part::Backwards => Some(size),
        Part::Slice { from, to } => Some(sliced(from, to, operands, size, node, number)),
    }
}

/// What these parts of an index at a node, given these operands, leave of a sized type, whose levels are numbered from here.
///
/// It goes as deep as the type has levels.
pub(crate) fn indexed<'a>(
    tree: &'a SizeTree<'a>,
    node: u32,
    number: u32,
    asked: &[Part],
    operands: &[Exp<'_>],
    bump: &'a Bump,
) -> Result<&'a SizeTree<'a>, NoMemory>
    ensures { IfOk result (λ made. size_of made.now ≡ indexed node number asked.now (terms (map term_of operands.now)) (size_of tree.now)) }
{
    match tree {
        SizeTree::Level { size, row, .. } => {
            if asked.len() == 0 {
                return Ok(tree);
            }
            let taken = taken_by(asked[0]);
            if operands.len() < taken {
                return Ok(tree);
            }
            match level_left(asked[0], operands, *size, node, number) {
                Some(left) => {
                    let next = after(number, 1)?;
                    let inner = indexed(row, node, next, &asked[1..], &operands[taken..], bump)?;
                    level(bump, left, inner)
                }
                None => indexed(row, node, number, &asked[1..], &operands[taken..], bump),
            }
        }
        SizeTree::Hole(_) => Ok(tree),
        SizeTree::Open { .. } => Ok(tree),
        SizeTree::Built { .. } => Ok(tree),
        SizeTree::Fun { .. } => Ok(tree),
    }
}

/// What an index at a node leaves of the first of these, whose other parts are the operands.
pub(crate) fn index<'a>(
    asked: &[Part],
    node: u32,
    parts: &[Exp<'_>],
    sizes: &'a [SizeTree<'a>],
    bump: &'a Bump,
) -> Result<&'a SizeTree<'a>, SizeErr>
    ensures { (N : Names) (types : Sub) (at : ℕ) → Sized (operation N types (Index asked.now) node at (terms (map term_of parts.now)) (sizes_of sizes.now)) result }
{
    // An array stands first.
    if parts.len() == 0 {
        return Err(SizeErr::Memory);
    }
    if sizes.len() == 0 {
        return Err(SizeErr::Memory);
    }
    sized(indexed(&sizes[0], node, 0, asked, &parts[1..], bump))
}
