// What is refused, and whether two sized types agree.
ghost use Rattle.std.specs.Prelude.{◌≡◌};
ghost use Rattle.fut_sizes.specs.Agreeing.{agree, all_agree, compare};
ghost use Rattle.size_arena.specs.Answers.{told};
ghost use Rattle.size_arena.specs.declared.agreeing.SizeErr.TheVariants.{Memory, Refused};
ghost use Rattle.size_arena.specs.Trees.{dim_of, size_of, sizes_of};

use crate::dims::{Dim, same_dim};
use crate::trees::SizeTree;
use fut_scalar::NoMemory;

/// Why a program has no sizing, and the node at which that shows.
#[derive(Clone, Copy)]
pub enum Refusal {
    /// The size that is wanted, and the one that is found, differ.
    Mismatch(u32, Dim, Dim),
    /// A size would leave its scope in what a function takes.
    Escapes(u32),
    /// Rows to which no name and no constant gives a size.
    Irregular(u32),
}

/// Why there is no answer.
#[derive(Clone, Copy)]
pub enum SizeErr {
    Refused(Refusal),
    Memory,
}

impl From<NoMemory> for SizeErr {
    ghost from_gives = { λ _ e. e ≡ Memory };

    fn from(_error: NoMemory) -> SizeErr {
        SizeErr::Memory
    }
}

impl From<Refusal> for SizeErr {
    ghost from_gives = { λ r e. e ≡ Refused r };

    fn from(refusal: Refusal) -> SizeErr {
        SizeErr::Refused(refusal)
    }
}

#[tactic(auto, using(crate::proofs::AgreeForms::compares))]
fn compare(at: u32, wanted: Dim, found: Dim) -> Result<(), Refusal>
    ensures { told result ≡ compare at (dim_of wanted) (dim_of found) }
{
    if same_dim(wanted, found) {
        Ok(())
    } else {
        Err(Refusal::Mismatch(at, wanted, found))
    }
}

/// Whether what is found at a node has the sizes that are wanted, at all levels.
///
/// `Err`: the first two sizes that differ.
#[cycle(agree)]
#[tactic(auto, using(crate::proofs::AgreeForms::agrees))]
pub fn agree(wanted: &SizeTree<'_>, found: &SizeTree<'_>, at: u32) -> Result<(), Refusal>
    ensures { told result ≡ agree at (size_of wanted.now) (size_of found.now) }
{
    match wanted {
        SizeTree::Hole(_) => Ok(()),
        SizeTree::Open { .. } => Ok(()),
        SizeTree::Level { size, row, .. } => match found {
            SizeTree::Hole(_) => Ok(()),
            SizeTree::Open { .. } => Ok(()),
            SizeTree::Level {
                size: other,
                row: rest,
                ..
            } => {
                compare(at, *size, *other)?;
                agree(row, rest, at)
            }
            SizeTree::Built { .. } => Ok(()),
            SizeTree::Fun { .. } => Ok(()),
        },
        SizeTree::Built { parts, .. } => match found {
            SizeTree::Hole(_) => Ok(()),
            SizeTree::Open { .. } => Ok(()),
            SizeTree::Level { .. } => Ok(()),
            SizeTree::Built { parts: others, .. } => all_agree(parts, others, at),
            SizeTree::Fun { .. } => Ok(()),
        },
        SizeTree::Fun { from, to, .. } => match found {
            SizeTree::Hole(_) => Ok(()),
            SizeTree::Open { .. } => Ok(()),
            SizeTree::Level { .. } => Ok(()),
            SizeTree::Built { .. } => Ok(()),
            SizeTree::Fun {
                from: taken,
                to: given,
                ..
            } => {
                agree(from, taken, at)?;
                agree(to, given, at)
            }
        },
    }
}

#[cycle(agree)]
#[tactic(auto, using(crate::proofs::AgreeForms::all_agrees))]
fn all_agree(wanted: &[SizeTree<'_>], found: &[SizeTree<'_>], at: u32) -> Result<(), Refusal>
    ensures { told result ≡ all_agree at (sizes_of wanted.now) (sizes_of found.now) }
{
    for i in 0..wanted.len() {
        if i >= found.len() {
            return Ok(());
        }
        agree(&wanted[i], &found[i], at)?;
    }
    Ok(())
}
