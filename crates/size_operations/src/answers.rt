// Answers that memory alone keeps back, or a refusal.
ghost use Rattle.std.specs.Prelude.{◌≡◌, IfOk, Ok};
ghost use Rattle.sized_types.specs.Sizes.{Size};
ghost use Rattle.fut_sizes.specs.Agreeing.{agree};
ghost use Rattle.size_arena.specs.Trees.{size_of};
ghost use Rattle.size_operations.specs.Answers.{Agrees, Sized};

use fut_scalar::NoMemory;
use size_arena::{SizeErr, SizeTree, agree};

/// The answer of what is never refused.
pub(crate) fn sized<'a>(
    made: Result<&'a SizeTree<'a>, NoMemory>,
) -> Result<&'a SizeTree<'a>, SizeErr>
    ensures { (t : Size) → IfOk made.entry (λ tree. size_of tree.now ≡ t) → Sized (Ok t) result }
{
    match made {
        Ok(tree) => Ok(tree),
        Err(NoMemory) => Err(SizeErr::Memory),
    }
}

/// Whether what is found at a node has the sizes that are wanted.
#[tactic(auto, using(crate::proofs::AnswerForms::agreeing))]
pub(crate) fn agrees(wanted: &SizeTree<'_>, found: &SizeTree<'_>, at: u32) -> Result<(), SizeErr>
    ensures { Agrees (agree at (size_of wanted.now) (size_of found.now)) result }
{
    match agree(wanted, found, at) {
        Ok(()) => Ok(()),
        Err(refusal) => Err(SizeErr::Refused(refusal)),
    }
}
