// The ends of the scopes of lets.
ghost use Rattle.std.specs.Prelude.{◌≡◌, map};
ghost use Rattle.fut_sizes.specs.Agreeing.{leaving};
ghost use Rattle.fut_sizes.specs.Applications.{whole};
ghost use Rattle.fut_sizes.specs.Sizing.{finished};
ghost use Rattle.fut_types.specs.Types.{Sub};
ghost use Rattle.fut_typing.specs.Names.{Names};
ghost use Rattle.size_arena.specs.Answers.{Gives};
ghost use Rattle.size_arena.specs.Trees.{size_of};
ghost use Rattle.size_program.specs.Answers.{Steps};
ghost use Rattle.size_forms.specs.Lets.{all_closed};
ghost use Rattle.size_forms.specs.Shown.{end_of, tree_is, whole_part};

use crate::lets::Ending;
use bumpalo::Bump;
use size_arena::{SizeErr, SizeTree, leaving};
use size_program::{Tables, note};
use size_settling::{closed, settle_all};
use size_slots::{nothing_found, read};
use std::alloc::Global;

/// A sized type that is applied to nothing, by itself at a node: what is still open in it gets sizes of its own.
#[tactic(auto, using(crate::proofs::CloseForms::nothing_held, crate::proofs::CloseForms::held_falls))]
pub fn finish_whole<'a>(
    size: &'a SizeTree<'a>,
    node: u32,
    tables: &mut Tables<'a>,
    bump: &'a Bump,
    alloc: Global,
) -> Result<&'a SizeTree<'a>, SizeErr>
    ensures { (N : Names) (types : Sub) → Steps tree_is (finished N types node (whole (size_of size.now))) tables.old tables.new result }
{
    let mut table = nothing_found(alloc);
    settle_all(size, &mut table, bump)?;
    let settled = read(size, &table, bump)?;
    let made = closed(true, table.makers.as_slice(), settled, bump, alloc)?;
    note(tables, node, made)?;
    Ok(made)
}

/// What leaves the scope of a let, behind which stands this.
///
/// `Err`: a function that leaves takes a size that is named in the scope, or memory ran out.
pub fn end_let<'a>(
    ending: &Ending<'_>,
    size: &'a SizeTree<'a>,
    bump: &'a Bump,
) -> Result<&'a SizeTree<'a>, SizeErr>
    ensures { Gives (leaving (end_of ending.now).node (end_of ending.now).names (size_of size.now)) result }
{
    leaving(ending.node, ending.names, size, bump)
}

/// The ends of lets in one another, the outermost first, of which the last ends in this.
///
/// `Err`: a function that leaves a scope takes a size that is named in it, or memory ran out.
pub fn close_outer<'a>(
    endings: &[Ending<'a>],
    size: &'a SizeTree<'a>,
    tables: &mut Tables<'a>,
    bump: &'a Bump,
    alloc: Global,
) -> Result<&'a SizeTree<'a>, SizeErr>
    ensures { (N : Names) (types : Sub) → Steps whole_part (all_closed types (map end_of endings.now) (whole (size_of size.now)) N) tables.old tables.new result }
{
    let mut so_far = Left { size };
    let mut left = endings.len();
    while left > 0 {
        left -= 1;
        let ending = endings[left];
        let whole = finish_whole(so_far.size, ending.inner, tables, bump, alloc)?;
        let size = end_let(&ending, whole, bump)?;
        so_far = Left { size };
    }
    Ok(so_far.size)
}

// What has left the scopes so far.
#[derive(Clone, Copy)]
struct Left<'a> {
    size: &'a SizeTree<'a>,
}
