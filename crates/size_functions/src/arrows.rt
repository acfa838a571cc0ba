// The arrows of a function's type.
ghost use Rattle.std.specs.Prelude.{◌≡◌, IfOk};
ghost use Rattle.fut_sizes.specs.Functions.{is_met, sizes_in};
ghost use Rattle.size_arena.specs.Trees.{size_of};
ghost use Rattle.size_making.specs.Placing.{frees_of};
ghost use Rattle.size_functions.specs.Arrows.{all_over, arrow_of, arrows_of, over};

use bumpalo::Bump;
use fut_scalar::NoMemory;
use size_arena::{Free, SizeTree, function};
use size_making::{Positions, Sought, bound, sizes_in};
use std::alloc::Global;

/// What is to be one arrow: the sizes that its caller chooses, the parameter's node, the name of its value if it has one, and its
/// sized type inside the function.
#[derive(Clone, Copy)]
pub(crate) struct Arrow<'a> {
    pub(crate) chosen: &'a [Free],
    pub(crate) node: u32,
    pub(crate) name: Option<u32>,
    pub(crate) size: &'a SizeTree<'a>,
}

/// The function type of one arrow, which meets these sizes.
fn over<'a>(
    arrow: &Arrow<'a>,
    met: &[Free],
    body: &'a SizeTree<'a>,
    bump: &'a Bump,
) -> Result<&'a SizeTree<'a>, NoMemory>
    ensures { IfOk result (λ made. size_of made.now ≡ over (arrow_of arrow.now) (frees_of met.now) (size_of body.now)) }
{
    let count = match u32::try_from(arrow.chosen.len()) {
        Ok(count) => count,
        Err(_) => return Err(NoMemory),
    };
    let positions = Positions::Arrow {
        chosen: arrow.chosen,
        node: arrow.node,
        name: arrow.name,
        met,
    };
    let from = bound(arrow.size, &positions, bump)?;
    let to = bound(body, &positions, bump)?;
    function(bump, count, from, to)
}

/// The function type of the last arrow, which has what is met at the nodes from one on, up to another.
fn last_over<'a>(
    arrow: &Arrow<'a>,
    from: u32,
    to: u32,
    body: &'a SizeTree<'a>,
    bump: &'a Bump,
    alloc: Global,
) -> Result<&'a SizeTree<'a>, NoMemory>
    ensures { IfOk result (λ made. size_of made.now ≡ over (arrow_of arrow.now) (sizes_in (is_met from to) (size_of body.now)) (size_of body.now)) }
{
    let met = sizes_in(body, &Sought::Met { from, to }, alloc)?;
    over(arrow, met.as_slice(), body, bump)
}

/// The function type of these arrows, of which the last has what is met at the nodes from one on, up to another.
#[tactic(auto, using(crate::proofs::ArrowForms::overs))]
pub(crate) fn all_over<'a>(
    arrows: &[Arrow<'a>],
    from: u32,
    to: u32,
    body: &'a SizeTree<'a>,
    bump: &'a Bump,
    alloc: Global,
) -> Result<&'a SizeTree<'a>, NoMemory>
    ensures { IfOk result (λ made. size_of made.now ≡ all_over from to (arrows_of arrows.now) (size_of body.now)) }
{
    if arrows.len() == 0 {
        return Ok(body);
    }
    let mut at = arrows.len() - 1;
    let mut made = last_over(&arrows[at], from, to, body, bump, alloc)?;
    while at > 0 {
        at -= 1;
        made = over(&arrows[at], &[], made, bump)?;
    }
    Ok(made)
}
