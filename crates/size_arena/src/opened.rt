// Function types that are opened: what their positions stand for.
ghost use Rattle.std.specs.Prelude.{◌≡◌, ◌+◌, IfOk};
ghost use Rattle.fut_sizes.specs.Matching.{dim_in, lifted};
ghost use Rattle.size_arena.specs.Frames.{frame_of, opened_of};
ghost use Rattle.size_arena.specs.Trees.{dim_of};

use crate::dims::{Dim, Free};
use fut_scalar::NoMemory;

/// What the positions of a frame stand for, numbered from `first` on.
#[derive(Clone, Copy)]
pub enum Frame {
    /// Of a wanted function type at a node, whose caller chooses so many sizes: these and the argument's value are unknowns, and
    /// what is met stays so, outside of all function types.
    Wanted {
        node: u32,
        first: u32,
        chosen: u32,
    },
    /// Of a found one: slots, the argument's value, which has a number of its own, and what is met.
    Found {
        node: u32,
        first: u32,
        argument: u32,
        chosen: u32,
    },
    /// Of a function that is applied at a node: slots, the argument's value, and what is met there.
    Applied {
        node: u32,
        first: u32,
        chosen: u32,
        value: Option<Free>,
    },
}

/// Frames in one another, the nearest first.
#[derive(Clone, Copy)]
pub enum Frames<'a> {
    Closed,
    Inside(Frame, &'a Frames<'a>),
}

fn plus(first: u32, second: u32) -> Result<u32, NoMemory>
    ensures { IfOk result (λ sum. sum ≡ first + second) }
{
    match first.checked_add(second) {
        Some(sum) => Ok(sum),
        None => Err(NoMemory),
    }
}

/// What a position of a frame stands for.
#[tactic(auto, using(crate::proofs::FrameLaws::positions))]
fn position_of(frame: Frame, position: u32) -> Result<Dim, NoMemory>
    ensures { IfOk result (λ dim. dim_of dim ≡ frame_of frame position) }
{
    match frame {
        Frame::Wanted {
            node,
            first,
            chosen,
        } => {
            let number = plus(first, position)?;
            if chosen < position {
                Ok(Dim::Bound(0, number))
            } else {
                Ok(Dim::At(Free::Unknown(node, number)))
            }
        }
        Frame::Found {
            node,
            first,
            argument,
            chosen,
        } => {
            if position == chosen {
                return Ok(Dim::At(Free::Unknown(node, argument)));
            }
            let number = plus(first, position)?;
            if position < chosen {
                Ok(Dim::At(Free::Slot(number)))
            } else {
                Ok(Dim::At(Free::Unknown(node, number)))
            }
        }
        Frame::Applied {
            node,
            first,
            chosen,
            value,
        } => {
            let number = plus(first, position)?;
            if position < chosen {
                return Ok(Dim::At(Free::Slot(number)));
            }
            match value {
                Some(free) => {
                    if position == chosen {
                        Ok(Dim::At(free))
                    } else {
                        Ok(Dim::At(Free::Unknown(node, number)))
                    }
                }
                None => Ok(Dim::At(Free::Unknown(node, number))),
            }
        }
    }
}

/// What a position stands for, of the frame around so many others.
#[tactic(auto, using(crate::proofs::FrameLaws::frames))]
fn opened_at(frames: &Frames<'_>, between: u32, position: u32) -> Result<Dim, NoMemory>
    ensures { IfOk result (λ dim. dim_of dim ≡ opened_of frames.now between position) }
{
    match frames {
        Frames::Closed => Ok(Dim::Bound(between, position)),
        Frames::Inside(frame, outer) => {
            if between == 0 {
                position_of(*frame, position)
            } else {
                opened_at(outer, between - 1, position)
            }
        }
    }
}

/// What stands outside of so many function types, inside them.
fn lifted(around: u32, dim: Dim) -> Result<Dim, NoMemory>
    ensures { IfOk result (λ inside. dim_of inside ≡ lifted around (dim_of dim)) }
{
    match dim {
        Dim::At(_) => Ok(dim),
        Dim::Bound(between, position) => match around.checked_add(between) {
            Some(deep) => Ok(Dim::Bound(deep, position)),
            None => Err(NoMemory),
        },
    }
}

/// A size inside so many function types of one that stands in these frames.
#[tactic(auto, using(crate::proofs::FrameLaws::dims_in))]
pub fn dim_in(frames: &Frames<'_>, around: u32, dim: Dim) -> Result<Dim, NoMemory>
    ensures { IfOk result (λ opened. dim_of opened ≡ dim_in (opened_of frames.now) around (dim_of dim)) }
{
    match dim {
        Dim::At(_) => Ok(dim),
        Dim::Bound(between, position) => {
            if between < around {
                return Ok(dim);
            }
            let opened = opened_at(frames, between - around, position)?;
            lifted(around, opened)
        }
    }
}
