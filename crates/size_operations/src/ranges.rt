// The sizes of ranges.
ghost use Rattle.std.specs.Prelude.{◌≡◌, ◌<◌, IfOk, map};
ghost use Rattle.fut_flat.specs.Erased.{term_of, terms};
ghost use Rattle.fut_sizes.specs.Agreeing.{no_size_of, of_type};
ghost use Rattle.fut_sizes.specs.Operations.{both, element_ty, is_i64, range_of, range_size};
ghost use Rattle.size_arena.specs.Trees.{free_of, size_of};
ghost use Rattle.size_program.specs.Program.{sub_of};
ghost use Rattle.sized_types.specs.Sizes.{At, Level};
ghost use Rattle.size_operations.specs.Ranges.{counted, stepping};

use crate::elements::{element_or_own, is_i64};
use crate::values::{is_literal, value_of};
use bumpalo::Bump;
use fut_ast::End;
use fut_flat::Exp;
use fut_scalar::NoMemory;
use size_arena::{Dim, Free, SizeTree, level};
use size_making::{Making, of_type};
use size_program::{Program, type_at};

fn both(left: bool, right: bool) -> bool
    ensures { result ≡ both left right }
{
    left && right
}

/// The size that the end of a range at a node names, where it starts and steps as it has to.
#[tactic(auto, using(crate::proofs::RangeForms::sizes))]
fn end_size(is_known: bool, end: &Exp<'_>, node: u32) -> Free
    ensures { free_of result ≡ range_size node is_known (term_of end.now) }
{
    if is_known {
        value_of(end, node, 0)
    } else {
        Free::Unknown(node, 0)
    }
}

/// A range of a first element and an end.
#[tactic(auto, using(crate::proofs::RangeForms::counts))]
fn counted(is_i64: bool, node: u32, parts: &[Exp<'_>]) -> Free
    ensures { free_of result ≡ counted is_i64 node (terms (map term_of parts.now)) }
{
    if parts.len() != 2 {
        return Free::Unknown(node, 0);
    }
    let starts = is_literal(&parts[0], 0);
    end_size(both(is_i64, starts), &parts[1], node)
}

/// A range of a first element, the second and an end: it has to start with this one, and to go on with the next.
#[tactic(auto, using(crate::proofs::RangeForms::steps))]
fn stepping(is_i64: bool, node: u32, start: u64, parts: &[Exp<'_>]) -> Free
    requires { start < 2 }
    ensures { free_of result ≡ stepping is_i64 node start (terms (map term_of parts.now)) }
{
    if parts.len() != 3 {
        return Free::Unknown(node, 0);
    }
    let starts = is_literal(&parts[0], start);
    let goes_on = is_literal(&parts[1], start + 1);
    end_size(both(is_i64, both(starts, goes_on)), &parts[2], node)
}

/// The size of a range at a node, whose elements are or are not of type `i64`.
#[tactic(auto, using(crate::proofs::RangeForms::ranges))]
fn range_of(is_i64: bool, node: u32, stepped: bool, end: End, parts: &[Exp<'_>]) -> Free
    ensures { free_of result ≡ range_of is_i64 node stepped end (terms (map term_of parts.now)) }
{
    match end {
        End::Below => {
            if stepped {
                stepping(is_i64, node, 0, parts)
            } else {
                counted(is_i64, node, parts)
            }
        }
        End::Through => {
            if stepped {
                stepping(is_i64, node, 1, parts)
            } else {
                Free::Unknown(node, 0)
            }
        }
        End::Above => Free::Unknown(node, 0),
    }
}

/// The range at a node.
pub(crate) fn range<'a>(
    node: u32,
    stepped: bool,
    end: End,
    parts: &[Exp<'_>],
    program: &Program<'a>,
    bump: &'a Bump,
) -> Result<&'a SizeTree<'a>, NoMemory>
    ensures { IfOk result (λ made. size_of made.now ≡ Level (At (range_of (is_i64 (element_ty (sub_of program.now.types.now node))) node stepped end (terms (map term_of parts.now)))) (of_type (no_size_of node) 0 (element_ty (sub_of program.now.types.now node)))) }
{
    let ty = type_at(program, node)?;
    let element = element_or_own(ty);
    let size = range_of(is_i64(element), node, stepped, end, parts);
    let row = of_type(element, Making::Unknown(node), 0, bump)?;
    level(bump, Dim::At(size), row)
}
