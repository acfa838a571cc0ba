// The sized type of a function.
ghost use Rattle.std.specs.Prelude.{◌≡◌, IfOk};
ghost use Rattle.fut_sizes.specs.Functions.{function_size};
ghost use Rattle.size_arena.specs.Trees.{size_of};
ghost use Rattle.size_functions.specs.Takings.{takings_of};

use crate::arrows::all_over;
use crate::choosing::arrows_for;
use crate::takings::Taking;
use bumpalo::Bump;
use fut_scalar::NoMemory;
use size_arena::SizeTree;
use std::alloc::Global;

/// The sized type of a function of these parameters, whose body has the nodes from one on, up to another, and gives this: each
/// parameter chooses the sizes that are its own and, of these size names, those that none before it has chosen. The last arrow
/// has what is met.
#[tactic(auto, using(crate::proofs::FunctionForms::functions))]
pub fn function_size<'a>(
    names: &[u32],
    from: u32,
    to: u32,
    parameters: &[Taking<'a>],
    body: &'a SizeTree<'a>,
    bump: &'a Bump,
    alloc: Global,
) -> Result<&'a SizeTree<'a>, NoMemory>
    ensures { IfOk result (λ made. size_of made.now ≡ function_size names.now from to (takings_of parameters.now) (size_of body.now)) }
{
    let arrows = arrows_for(names, parameters, bump, alloc)?;
    all_over(arrows, from, to, body, bump, alloc)
}
