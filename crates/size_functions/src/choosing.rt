// What each parameter of a function chooses.
ghost use Rattle.std.specs.Prelude.{◌≡◌, IfOk};
ghost use Rattle.fut_sizes.specs.Functions.{chosen_by, stands_among, unchosen, without};
ghost use Rattle.size_arena.specs.Trees.{free_of};
ghost use Rattle.size_making.specs.Placing.{frees_of};
ghost use Rattle.size_functions.specs.Arrows.{arrow_for, arrow_of, arrows_for, arrows_of};
ghost use Rattle.size_functions.specs.Takings.{taking_of, takings_of};

use crate::arrows::Arrow;
use crate::takings::{Taking, value_name};
use bumpalo::Bump;
use bumpalo::collections::into_bump_slice;
use fut_scalar::{List, NoMemory};
use size_arena::{Free, same_free};
use size_making::{Sought, sizes_in};
use std::alloc::Global;

/// Whether a size is among these.
#[tactic(auto, using(size_making::proofs::StandingForms::among))]
fn stands_among(frees: &[Free], free: Free) -> bool
    ensures { result ≡ stands_among (frees_of frees.now) (free_of free) }
{
    for one in frees {
        if same_free(*one, free) {
            return true;
        }
    }
    false
}

/// The size names that are not among these sizes.
#[tactic(auto, using(crate::proofs::ChoosingForms::left))]
fn without(chosen: &[Free], names: &[u32], alloc: Global) -> Result<List<u32>, NoMemory>
    ensures { IfOk result (λ rest. rest ≡ without (frees_of chosen.now) names.now) }
{
    let mut rest = List::new(alloc);
    for name in names {
        if !stands_among(chosen, Free::Name(*name)) {
            rest.push(*name)?;
        }
    }
    Ok(rest)
}

/// The sizes that a parameter's caller chooses. The size names among them are taken off those that are left.
fn choose(
    parameter: &Taking<'_>,
    names: &mut List<u32>,
    alloc: Global,
) -> Result<List<Free>, NoMemory>
    ensures chosen { IfOk result (λ chosen. frees_of chosen ≡ chosen_by names.old (taking_of parameter.now)) }
    ensures left { IfOk result (λ chosen. names.new ≡ without (chosen_by names.old (taking_of parameter.now)) names.old) }
{
    let sought = Sought::Own {
        node: parameter.node,
        names: names.as_slice(),
    };
    let chosen = sizes_in(parameter.size, &sought, alloc)?;
    let rest = without(chosen.as_slice(), names.as_slice(), alloc)?;
    *names = rest;
    Ok(chosen)
}

/// The size names that no parameter chooses.
#[tactic(auto, using(crate::proofs::ChoosingForms::unchosens))]
pub fn unchosen(
    names: &[u32],
    parameters: &[Taking<'_>],
    alloc: Global,
) -> Result<List<u32>, NoMemory>
    ensures { IfOk result (λ rest. rest ≡ unchosen names.now (takings_of parameters.now)) }
{
    let mut rest = List::from_slice(alloc, names)?;
    for parameter in parameters {
        choose(parameter, &mut rest, alloc)?;
    }
    Ok(rest)
}

/// What is to be the arrow of a parameter. The size names that its caller chooses are taken off those that are left.
fn arrow_for<'a>(
    parameter: &Taking<'a>,
    names: &mut List<u32>,
    bump: &'a Bump,
    alloc: Global,
) -> Result<Arrow<'a>, NoMemory>
    ensures arrow { IfOk result (λ arrow. arrow_of arrow ≡ arrow_for names.old (taking_of parameter.now)) }
    ensures left { IfOk result (λ arrow. names.new ≡ without (chosen_by names.old (taking_of parameter.now)) names.old) }
{
    let chosen = choose(parameter, names, alloc)?;
    match bump.try_alloc_slice_copy(chosen.as_slice()) {
        Ok(kept) => Ok(Arrow {
            chosen: kept,
            node: parameter.node,
            name: value_name(parameter.pattern),
            size: parameter.size,
        }),
        Err(_) => Err(NoMemory),
    }
}

/// What is to be the arrows of these parameters, where these size names are left to be chosen.
#[tactic(auto, using(crate::proofs::ChoosingForms::all_arrows))]
pub(crate) fn arrows_for<'a>(
    names: &[u32],
    parameters: &[Taking<'a>],
    bump: &'a Bump,
    alloc: Global,
) -> Result<&'a [Arrow<'a>], NoMemory>
    ensures { IfOk result (λ made. arrows_of made.now ≡ arrows_for names.now (takings_of parameters.now)) }
{
    let mut rest = List::from_slice(alloc, names)?;
    let mut made = Vec::new(bump);
    for parameter in parameters {
        let arrow = arrow_for(parameter, &mut rest, bump, alloc)?;
        made.push(arrow)?;
    }
    Ok(into_bump_slice(made))
}
