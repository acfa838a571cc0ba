// The parts of tuples and records.
ghost use Rattle.size_arena.specs.Trees.{size_of};
ghost use Rattle.size_patterns.specs.Rows.{Is_row};

use fut_types::Head;
use size_arena::SizeTree;

/// What is made of parts.
#[derive(Clone, Copy)]
pub(crate) struct Row<'a> {
    pub(crate) head: Head,
    pub(crate) parts: &'a [SizeTree<'a>],
}

/// The parts of a sized type that is made of parts.
#[tactic(auto, using(crate::proofs::RowForms::rows))]
pub(crate) fn row_of<'a>(tree: &SizeTree<'a>) -> Option<Row<'a>>
    ensures { Is_row (size_of tree.now) result }
{
    match *tree {
        SizeTree::Built { head, parts, .. } => Some(Row { head, parts }),
        SizeTree::Hole(_) => None,
        SizeTree::Open { .. } => None,
        SizeTree::Level { .. } => None,
        SizeTree::Fun { .. } => None,
    }
}
