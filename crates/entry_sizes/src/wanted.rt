// The arguments that an entry wants.
ghost use Rattle.std.specs.Prelude.{◌≡◌, [], ◌∷◌, ◌++◌, ◌+◌, Some, None, IfOk, IfErr};
ghost use Rattle.size_arena.specs.Trees.{dim_of, size_of};
ghost use Rattle.entry_sizes.specs.Wanted.{Because, frame_at, in_frame, size_wanted, sizes_wanted, wanted_of};

use crate::heads::{arrow_of, level_of};
use fut_scalar::{ArgType, BindId, DataType, Dim as WantedSize, List, NoMemory};
use size_arena::{Dim, Free, SizeTree};
use std::alloc::Global;

/// Why an entry does not say what it wants of its arguments.
#[derive(Clone, Copy, Debug, PartialEq, Eq)]
pub enum WantedErr {
    /// A parameter has a size that is no number, no size parameter and no earlier parameter.
    Outside,
    Memory,
}

impl From<NoMemory> for WantedErr {
    ghost use Rattle.entry_sizes.specs.declared.wanted.WantedErr.TheVariants.{Memory};

    ghost from_gives = { λ _ err. err ≡ Memory };

    fn from(_error: NoMemory) -> WantedErr {
        WantedErr::Memory
    }
}

/// What an arrow binds: sizes that its caller chooses, numbered from `first` on, and behind them the value of its argument.
#[derive(Clone, Copy)]
pub(crate) struct Frame {
    pub first: u32,
    pub chosen: u32,
}

/// Where a walk along a sized type stands.
#[derive(Clone, Copy)]
struct Cursor<'a> {
    tree: &'a SizeTree<'a>,
}

fn plus(first: u32, second: u32) -> Result<u32, NoMemory>
    ensures { IfOk result (λ sum. sum ≡ first + second) }
{
    match first.checked_add(second) {
        Some(sum) => Ok(sum),
        None => Err(NoMemory),
    }
}

/// The frame that is so many arrows outwards.
fn frame_at(frames: &[Frame], outwards: u32) -> Option<Frame>
    ensures { result ≡ frame_at frames.now outwards }
{
    let outwards = outwards as usize;
    if outwards < frames.len() {
        frames.get(frames.len() - 1 - outwards).copied()
    } else {
        None
    }
}

/// What stands in a frame at a position.
fn in_frame(frame: Option<Frame>, position: u32) -> Result<WantedSize, WantedErr>
    ensures ok { IfOk result (λ size. in_frame frame position ≡ Some size) }
    ensures err { IfErr result (Because (in_frame frame position ≡ None)) }
{
    let Some(frame) = frame else {
        return Err(WantedErr::Outside);
    };
    if position <= frame.chosen {
        match plus(frame.first, position) {
            Ok(number) => Ok(WantedSize::Name(BindId(number))),
            Err(_) => Err(WantedErr::Memory),
        }
    } else {
        Err(WantedErr::Outside)
    }
}

/// The size of a level.
fn size_wanted(frames: &[Frame], size: Dim) -> Result<WantedSize, WantedErr>
    ensures ok { IfOk result (λ wanted. size_wanted frames.now (dim_of size) ≡ Some wanted) }
    ensures err { IfErr result (Because (size_wanted frames.now (dim_of size) ≡ None)) }
{
    match size {
        Dim::At(Free::Const(number)) => Ok(WantedSize::Const(number)),
        Dim::At(Free::Name(_)) => Err(WantedErr::Outside),
        Dim::At(Free::Own(_, _)) => Err(WantedErr::Outside),
        Dim::At(Free::Unknown(_, _)) => Err(WantedErr::Outside),
        Dim::At(Free::Slot(_)) => Err(WantedErr::Outside),
        Dim::Bound(outwards, position) => in_frame(frame_at(frames, outwards), position),
    }
}

/// The sizes of so many levels.
#[tactic(auto, using(crate::proofs::Wanting::levels))]
fn sizes_wanted(
    alloc: Global,
    frames: &[Frame],
    levels: u32,
    tree: &SizeTree<'_>,
) -> Result<List<WantedSize>, WantedErr>
    ensures ok { IfOk result (λ sizes. sizes_wanted frames.now [] levels (size_of tree.now) ≡ Some sizes) }
    ensures err { IfErr result (Because (sizes_wanted frames.now [] levels (size_of tree.now) ≡ None)) }
{
    let mut sizes = List::new(alloc);
    let mut cursor = Cursor { tree };
    let mut left = levels;
    while left > 0 {
        let Some(level) = level_of(cursor.tree) else {
            return Err(WantedErr::Outside);
        };
        match size_wanted(frames, level.size) {
            Ok(size) => sizes.push(size)?,
            Err(err) => return Err(err),
        }
        cursor.tree = level.row;
        left -= 1;
    }
    Ok(sizes)
}

/// The arguments that an entry of this sized type wants, for parameters of these types. Each has a name by which later sizes may
/// name its value. The cost is linear in the levels of the parameters.
#[tactic(auto, using(crate::proofs::Wanting::arrows))]
pub fn wanted_arguments(
    alloc: Global,
    tree: &SizeTree<'_>,
    params: &[DataType],
) -> Result<List<ArgType>, WantedErr>
    ensures ok { IfOk result (λ wanted. wanted_of params.now (size_of tree.now) ≡ Some wanted) }
    ensures err { IfErr result (Because (wanted_of params.now (size_of tree.now) ≡ None)) }
{
    let mut wanted = List::new(alloc);
    let mut frames = List::new(alloc);
    let mut first: u32 = 0;
    let mut cursor = Cursor { tree };
    let mut left = params;
    while let [param, rest @ ..] = left {
        let Some(arrow) = arrow_of(cursor.tree) else {
            return Err(WantedErr::Outside);
        };
        let chosen = arrow.chosen;
        frames.push(Frame { first, chosen })?;
        let value = plus(first, chosen)?;
        let dims = match sizes_wanted(alloc, frames.as_slice(), param.rank, arrow.from) {
            Ok(dims) => dims,
            Err(err) => return Err(err),
        };
        wanted.push(ArgType {
            elem: param.elem,
            dims,
            name: Some(BindId(value)),
        })?;
        first = plus(value, 1)?;
        cursor.tree = arrow.to;
        left = rest;
    }
    Ok(wanted)
}
