// The outermost forms of sized types.
ghost use Rattle.size_arena.specs.Trees.{size_of};
ghost use Rattle.entry_sizes.specs.Heads.{Arrow_of, Level_of};

use size_arena::{Dim, SizeTree};

/// An array's outermost level, and its rows.
#[derive(Clone, Copy)]
pub(crate) struct Level<'a> {
    pub size: Dim,
    pub row: &'a SizeTree<'a>,
}

/// How many sizes a function's caller chooses, its parameter and its result.
#[derive(Clone, Copy)]
pub(crate) struct Arrow<'a> {
    pub chosen: u32,
    pub from: &'a SizeTree<'a>,
    pub to: &'a SizeTree<'a>,
}

#[tactic(auto, using(size_arena::proofs::Forms::forms))]
pub(crate) fn level_of<'a>(tree: &SizeTree<'a>) -> Option<Level<'a>>
    ensures { Level_of (size_of tree.now) result }
{
    match tree {
        SizeTree::Level { size, row, .. } => Some(Level {
            size: *size,
            row: *row,
        }),
        SizeTree::Hole(_) => None,
        SizeTree::Open { .. } => None,
        SizeTree::Built { .. } => None,
        SizeTree::Fun { .. } => None,
    }
}

#[tactic(auto, using(size_arena::proofs::Forms::forms))]
pub(crate) fn arrow_of<'a>(tree: &SizeTree<'a>) -> Option<Arrow<'a>>
    ensures { Arrow_of (size_of tree.now) result }
{
    match tree {
        SizeTree::Fun {
            chosen,
            from,
            to,
            ..
        } => Some(Arrow {
            chosen: *chosen,
            from: *from,
            to: *to,
        }),
        SizeTree::Hole(_) => None,
        SizeTree::Open { .. } => None,
        SizeTree::Level { .. } => None,
        SizeTree::Built { .. } => None,
    }
}
