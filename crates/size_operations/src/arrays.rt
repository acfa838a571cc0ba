// Arrays of parts.
ghost use Rattle.std.specs.Prelude.{◌≡◌, IfOk, length, map};
ghost use Rattle.fut_flat.specs.Erased.{term_of, terms};
ghost use Rattle.fut_sizes.specs.Agreeing.{no_size_of, of_type};
ghost use Rattle.fut_sizes.specs.Operations.{elements_agree, empty_of, operation};
ghost use Rattle.fut_flat.specs.Terms.{Array_of};
ghost use Rattle.fut_typing.specs.Names.{Names};
ghost use Rattle.size_arena.specs.Trees.{size_of, sizes_of, type_of};
ghost use Rattle.sized_types.specs.Sizes.{At, Const, Level};
ghost use Rattle.size_program.specs.Program.{sub_of};
ghost use Rattle.size_operations.specs.Answers.{Agrees, Sized};
ghost use Rattle.size_operations.specs.Elements.{empty_row};

use crate::answers::{agrees, sized};
use crate::elements::element;
use bumpalo::Bump;
use flat_numbers::after_exp;
use fut_flat::Exp;
use fut_scalar::NoMemory;
use size_arena::{Dim, Free, Refusal, SizeErr, SizeTree, TypeTree, level};
use size_making::{Making, of_type, past_type};
use size_program::{Program, plain_size, type_at};

/// Whether each of these elements, whose nodes begin at a number, agrees with the first.
fn elements_agree(
    first: &SizeTree<'_>,
    parts: &[Exp<'_>],
    at: u32,
    sizes: &[SizeTree<'_>],
) -> Result<(), SizeErr>
    ensures { Agrees (elements_agree (size_of first.now) (terms (map term_of parts.now)) at (sizes_of sizes.now)) result }
{
    let mut node = at;
    for i in 0..sizes.len() {
        if i >= parts.len() {
            return Ok(());
        }
        agrees(first, &sizes[i], node)?;
        node = after_exp(node, &parts[i])?;
    }
    Ok(())
}

/// The array without elements of a type that has no arrays.
fn no_elements<'a>(
    element: &TypeTree<'_>,
    node: u32,
    bump: &'a Bump,
) -> Result<&'a SizeTree<'a>, NoMemory>
    ensures { IfOk result (λ made. size_of made.now ≡ Level (At (Const 0)) (of_type (no_size_of node) 0 (type_of element.now))) }
{
    let row = of_type(element, Making::Unknown(node), 0, bump)?;
    level(bump, Dim::At(Free::Const(0)), row)
}

/// The array without elements at a node. No array is a size for the elements of one.
#[tactic(auto, using(crate::proofs::ArrayForms::rows))]
fn empty_row<'a>(
    element: &TypeTree<'_>,
    node: u32,
    bump: &'a Bump,
) -> Result<&'a SizeTree<'a>, SizeErr>
    ensures { Sized (empty_row node (type_of element.now)) result }
{
    let levels = past_type(element, 0)?;
    if levels != 0 {
        return Err(SizeErr::Refused(Refusal::Irregular(node)));
    }
    sized(no_elements(element, node, bump))
}

fn empty<'a>(node: u32, program: &Program<'a>, bump: &'a Bump) -> Result<&'a SizeTree<'a>, SizeErr>
    ensures { Sized (empty_of node (sub_of program.now.types.now node)) result }
{
    let ty = type_at(program, node)?;
    match element(ty) {
        Some(one) => empty_row(one, node, bump),
        None => sized(plain_size(program, node, bump)),
    }
}

/// An array of these at a node.
///
/// `Err`: an element does not agree with the first, an array without elements is one of arrays, or memory ran out.
pub(crate) fn array<'a>(
    node: u32,
    first: u32,
    parts: &[Exp<'_>],
    sizes: &'a [SizeTree<'a>],
    program: &Program<'a>,
    bump: &'a Bump,
) -> Result<&'a SizeTree<'a>, SizeErr>
    requires same { length parts.now ≡ length sizes.now }
    ensures { (N : Names) → Sized (operation N (sub_of program.now.types.now) Array_of node first (terms (map term_of parts.now)) (sizes_of sizes.now)) result }
{
    if sizes.len() == 0 {
        return empty(node, program, bump);
    }
    let one = &sizes[0];
    let next = after_exp(first, &parts[0])?;
    elements_agree(one, &parts[1..], next, &sizes[1..])?;
    sized(level(bump, Dim::At(Free::Const(sizes.len() as u64)), one))
}
