// What a function of data tells of its results.
ghost use Rattle.std.specs.Prelude.{◌≡◌};
ghost use Rattle.sized_types.specs.Standing.{all_chosen, all_known, gives_chosen, is_chosen, is_known, is_low};
ghost use Rattle.size_arena.specs.Trees.{dim_of, size_of, sizes_of};

use size_arena::{Dim, Free, SizeTree};

// Whether a size is a constant, or one that the caller chooses.
#[tactic(auto, using(crate::proofs::StandingForms::chosen))]
fn is_chosen(dim: Dim) -> bool
    ensures { result ≡ is_chosen (dim_of dim) }
{
    match dim {
        Dim::At(Free::Const(_)) => true,
        Dim::At(Free::Name(_)) => false,
        Dim::At(Free::Own(_, _)) => false,
        Dim::At(Free::Unknown(_, _)) => false,
        Dim::At(Free::Slot(_)) => false,
        Dim::Bound(between, _) => between == 0,
    }
}

/// Whether a parameter's shape is known by itself, where each size that the caller chooses is 0.
#[cycle(known)]
#[tactic(auto, using(crate::proofs::StandingForms::knowns))]
pub fn is_known(tree: &SizeTree<'_>) -> bool
    ensures { result ≡ is_known (size_of tree.now) }
{
    match tree {
        SizeTree::Hole(_) => false,
        SizeTree::Open { .. } => false,
        SizeTree::Level { size, row, .. } => is_chosen(*size) && is_known(row),
        SizeTree::Built { parts, .. } => all_known(parts),
        SizeTree::Fun { .. } => false,
    }
}

#[cycle(known)]
#[tactic(auto, using(crate::proofs::StandingForms::all_knowns))]
fn all_known(parts: &[SizeTree<'_>]) -> bool
    ensures { result ≡ all_known (sizes_of parts.now) }
{
    for part in parts {
        if !is_known(part) {
            return false;
        }
    }
    true
}

// Whether a size is bound further outside, or stands below this position.
#[tactic(auto, using(crate::proofs::StandingForms::low))]
fn is_low(chosen: u32, dim: Dim) -> bool
    ensures { result ≡ is_low chosen (dim_of dim) }
{
    match dim {
        Dim::At(_) => true,
        Dim::Bound(between, position) => between != 0 || position < chosen,
    }
}

/// Whether a result names no size that is met when the function runs, where the caller chooses so many.
#[cycle(gives)]
#[tactic(auto, using(crate::proofs::StandingForms::gives))]
pub fn gives_chosen(tree: &SizeTree<'_>, chosen: u32) -> bool
    ensures { result ≡ gives_chosen chosen (size_of tree.now) }
{
    match tree {
        SizeTree::Hole(_) => true,
        SizeTree::Open { .. } => false,
        SizeTree::Level { size, row, .. } => is_low(chosen, *size) && gives_chosen(row, chosen),
        SizeTree::Built { parts, .. } => all_chosen(parts, chosen),
        SizeTree::Fun { .. } => false,
    }
}

#[cycle(gives)]
#[tactic(auto, using(crate::proofs::StandingForms::all_give))]
fn all_chosen(parts: &[SizeTree<'_>], chosen: u32) -> bool
    ensures { result ≡ all_chosen chosen (sizes_of parts.now) }
{
    for part in parts {
        if !gives_chosen(part, chosen) {
            return false;
        }
    }
    true
}
