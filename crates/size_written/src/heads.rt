// The outermost forms of sized types.
ghost use Rattle.size_arena.specs.Trees.{size_of};
ghost use Rattle.size_written.specs.Heads.{Array_parts, Function_parts, Row_of};

use fut_types::Head;
use size_arena::{Dim, SizeTree};

/// An array's outermost level, and its rows.
#[derive(Clone, Copy)]
pub(crate) struct ArrayParts<'a> {
    pub size: Dim,
    pub row: &'a SizeTree<'a>,
}

/// How many sizes a function's caller chooses, its parameter and its result.
#[derive(Clone, Copy)]
pub(crate) struct FunctionParts<'a> {
    pub chosen: u32,
    pub from: &'a SizeTree<'a>,
    pub to: &'a SizeTree<'a>,
}

/// What a tuple or a record is made by, and its parts.
#[derive(Clone, Copy)]
pub(crate) struct Row<'a> {
    pub head: Head,
    pub parts: &'a [SizeTree<'a>],
}

#[tactic(auto, using(size_arena::proofs::Forms::forms))]
pub(crate) fn array_parts<'a>(tree: &SizeTree<'a>) -> Option<ArrayParts<'a>>
    ensures { Array_parts (size_of tree.now) result }
{
    match tree {
        SizeTree::Level { size, row, .. } => Some(ArrayParts {
            size: *size,
            row: *row,
        }),
        SizeTree::Hole(_) => None,
        SizeTree::Open { .. } => None,
        SizeTree::Built { .. } => None,
        SizeTree::Fun { .. } => None,
    }
}

#[tactic(auto, using(size_arena::proofs::Forms::forms))]
pub(crate) fn function_parts<'a>(tree: &SizeTree<'a>) -> Option<FunctionParts<'a>>
    ensures { Function_parts (size_of tree.now) result }
{
    match tree {
        SizeTree::Fun {
            chosen,
            from,
            to,
            ..
        } => Some(FunctionParts {
            chosen: *chosen,
            from: *from,
            to: *to,
        }),
        SizeTree::Hole(_) => None,
        SizeTree::Open { .. } => None,
        SizeTree::Level { .. } => None,
        SizeTree::Built { .. } => None,
    }
}

#[tactic(auto, using(size_arena::proofs::Forms::forms))]
pub(crate) fn row_of<'a>(tree: &SizeTree<'a>) -> Option<Row<'a>>
    ensures { Row_of (size_of tree.now) result }
{
    match tree {
        SizeTree::Built { head, parts, .. } => Some(Row {
            head: *head,
            parts: *parts,
        }),
        SizeTree::Hole(_) => None,
        SizeTree::Open { .. } => None,
        SizeTree::Level { .. } => None,
        SizeTree::Fun { .. } => None,
    }
}
