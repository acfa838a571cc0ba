// The sizes of some property that stand in a sized type.
ghost use Rattle.std.specs.Prelude.{◌≡◌, IfOk};
ghost use Rattle.fut_sizes.specs.Agreeing.{is_among};
ghost use Rattle.fut_sizes.specs.Functions.{all_collected, collected, sizes_in, stands_among, with_free};
ghost use Rattle.size_arena.specs.Trees.{dim_of, free_of, size_of, sizes_of};
ghost use Rattle.size_making.specs.Placing.{frees_of, sought_by};

use fut_scalar::{List, NoMemory};
use size_arena::{Dim, Free, SizeTree, same_free};
use std::alloc::Global;

/// Which sizes are sought.
#[derive(Clone, Copy)]
pub enum Sought<'a> {
    /// Those that a parameter at a node chooses: its own, and these size names.
    Own { node: u32, names: &'a [u32] },
    /// Those that are met at the nodes from one on, up to another.
    Met { from: u32, to: u32 },
    /// Those that are open.
    Slots,
}

#[tactic(auto, using(size_arena::proofs::ScopeForms::among))]
fn is_among(names: &[u32], name: u32) -> bool
    ensures { result ≡ is_among names.now name }
{
    for one in names {
        if name == *one {
            return true;
        }
    }
    false
}

fn is_sought(sought: &Sought<'_>, free: Free) -> bool
    ensures { result ≡ sought_by sought.now (free_of free) }
{
    match sought {
        Sought::Own { node, names } => match free {
            Free::Own(other, _) => other == *node,
            Free::Name(name) => is_among(names, name),
            Free::Const(_) => false,
            Free::Unknown(_, _) => false,
            Free::Slot(_) => false,
        },
        Sought::Met { from, to } => match free {
            Free::Unknown(node, _) => *from <= node && node < *to,
            Free::Const(_) => false,
            Free::Name(_) => false,
            Free::Own(_, _) => false,
            Free::Slot(_) => false,
        },
        Sought::Slots => matches!(free, Free::Slot(_)),
    }
}

/// Whether a size is among those that were found.
#[tactic(auto, using(crate::proofs::StandingForms::among))]
fn stands_among(frees: &List<Free>, free: Free) -> bool
    ensures { result ≡ stands_among (frees_of frees.now) (free_of free) }
{
    for one in frees.as_slice() {
        if same_free(*one, free) {
            return true;
        }
    }
    false
}

#[tactic(auto, using(crate::proofs::StandingForms::one_more))]
fn add_size(dim: Dim, sought: &Sought<'_>, frees: &mut List<Free>) -> Result<(), NoMemory>
    ensures { IfOk result (λ u. frees_of frees.new ≡ with_free (sought_by sought.now) (dim_of dim) (frees_of frees.old)) }
{
    match dim {
        Dim::At(free) => {
            if !is_sought(sought, free) {
                return Ok(());
            }
            if stands_among(frees, free) {
                return Ok(());
            }
            frees.push(free)
        }
        Dim::Bound(_, _) => Ok(()),
    }
}

#[cycle(collecting)]
#[tactic(auto, using(crate::proofs::StandingForms::collects))]
fn collect(tree: &SizeTree<'_>, sought: &Sought<'_>, frees: &mut List<Free>) -> Result<(), NoMemory>
    ensures { IfOk result (λ u. frees_of frees.new ≡ collected (sought_by sought.now) (size_of tree.now) (frees_of frees.old)) }
{
    match tree {
        SizeTree::Hole(_) => Ok(()),
        SizeTree::Open { .. } => Ok(()),
        SizeTree::Level { size, row, .. } => {
            add_size(*size, sought, frees)?;
            collect(row, sought, frees)
        }
        SizeTree::Built { parts, .. } => collect_all(parts, sought, frees),
        SizeTree::Fun { from, to, .. } => {
            collect(from, sought, frees)?;
            collect(to, sought, frees)
        }
    }
}

#[cycle(collecting)]
#[tactic(auto, using(crate::proofs::StandingForms::all_collect))]
fn collect_all(
    parts: &[SizeTree<'_>],
    sought: &Sought<'_>,
    frees: &mut List<Free>,
) -> Result<(), NoMemory>
    ensures { IfOk result (λ u. frees_of frees.new ≡ all_collected (sought_by sought.now) (sizes_of parts.now) (frees_of frees.old)) }
{
    for part in parts {
        collect(part, sought, frees)?;
    }
    Ok(())
}

/// The sizes of a sized type that are sought, each once, as they are read.
#[tactic(auto, unfolding(fut_sizes::specs::Functions::sizes_in))]
pub fn sizes_in(
    tree: &SizeTree<'_>,
    sought: &Sought<'_>,
    alloc: Global,
) -> Result<List<Free>, NoMemory>
    ensures { IfOk result (λ frees. frees_of frees ≡ sizes_in (sought_by sought.now) (size_of tree.now)) }
{
    let mut frees = List::new(alloc);
    collect(tree, sought, &mut frees)?;
    Ok(frees)
}
