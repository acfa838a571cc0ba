// Lists in the arena, whatever their items are.
ghost use Rattle.std.specs.Prelude.{◌≡◌, ◌++◌, ◌∷◌, IfOk, IfErr, [], get_or};
ghost use Rattle.fut_flat.specs.Erased.{texts};
ghost use Rattle.unfold_measure.specs.Fields.{put_named};
ghost use Rattle.unfold_measure.specs.declared.stop.Stop.TheVariants as stop;

use crate::stop::Stop;
use bumpalo::Bump;
use bumpalo::collections::into_bump_slice;

/// The items with one more behind them.
pub fn with_last<'a, T: Copy>(bump: &'a Bump, items: &[T], last: T) -> Result<&'a [T], Stop>
    ensures ok { IfOk result (λ all. all.now ≡ items.now ++ last ∷ []) }
    ensures err { IfErr result (λ e. e ≡ stop.Memory) }
{
    let mut all = Vec::new(bump);
    match all.extend_from_slice(items) {
        Ok(()) => (),
        Err(_) => return Err(Stop::Memory),
    }
    match all.push(last) {
        Ok(()) => (),
        Err(_) => return Err(Stop::Memory),
    }
    Ok(into_bump_slice(all))
}

/// The name of an item: the empty one where none is written.
#[tactic(auto, using(crate::proofs::Fielding::naming))]
pub fn name_of<'a>(names: &[&'a str], at: usize) -> &'a str
    ensures { result.now ≡ get_or (texts names.now) at [] }
{
    if at < names.len() { names[at] } else { "" }
}

/// The items with another one for each of this name.
#[tactic(auto, using(crate::proofs::Fielding::putting))]
pub fn put_named<'a, T: Copy>(
    bump: &'a Bump,
    names: &[&str],
    items: &[T],
    name: &str,
    item: T,
) -> Result<&'a [T], Stop>
    ensures ok { IfOk result (λ made. made.now ≡ put_named name.now item (texts names.now) items.now) }
    ensures err { IfErr result (λ e. e ≡ stop.Memory) }
{
    let made = match bump.try_alloc_slice_copy(items) {
        Ok(made) => made,
        Err(_) => return Err(Stop::Memory),
    };
    for at in 0..made.len() {
        if name_of(names, at) == name {
            made[at] = item;
        }
    }
    Ok(made)
}
