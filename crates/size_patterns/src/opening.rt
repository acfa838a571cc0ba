// Whether something is open in a sized type.
ghost use Rattle.std.specs.Prelude.{◌≡◌};
ghost use Rattle.fut_sizes.specs.Sizing.{has_open_slot, is_open, some_open};
ghost use Rattle.size_arena.specs.Trees.{dim_of, size_of, sizes_of};

use size_arena::{Dim, Free, SizeTree};

/// Whether the size of a level is open.
fn has_open_slot(dim: Dim) -> bool
    ensures { result ≡ has_open_slot (dim_of dim) }
{
    matches!(dim, Dim::At(Free::Slot(_)))
}

/// Whether a variable or a size is open in a sized type.
#[cycle(open)]
#[tactic(auto, using(crate::proofs::OpenForms::opens))]
pub fn is_open(tree: &SizeTree<'_>) -> bool
    ensures { result ≡ is_open (size_of tree.now) }
{
    match tree {
        SizeTree::Hole(_) => false,
        SizeTree::Open { .. } => true,
        SizeTree::Level { size, row, .. } => has_open_slot(*size) || is_open(row),
        SizeTree::Built { parts, .. } => some_open(parts),
        SizeTree::Fun { from, to, .. } => is_open(from) || is_open(to),
    }
}

#[cycle(open)]
#[tactic(auto, using(crate::proofs::OpenForms::some_opens))]
fn some_open(parts: &[SizeTree<'_>]) -> bool
    ensures { result ≡ some_open (sizes_of parts.now) }
{
    for part in parts {
        if is_open(part) {
            return true;
        }
    }
    false
}
