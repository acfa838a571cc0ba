// What sizes are worth, and what type variables stand for, where a sized type is read.
ghost use Rattle.std.specs.Prelude.{◌≡◌, IfOk};
ghost use Rattle.fut_blocks.specs.Rows.{extent_of, row_of};
ghost use Rattle.fut_meaning.specs.Found.{Sizing};
ghost use Rattle.size_arena.specs.Trees.{dim_of, free_of, variable_of};
ghost use Rattle.told_rows.specs.Findings.{found_in, number_in, type_in};
ghost use Rattle.told_rows.specs.Tables.{Tells};
ghost use Rattle.sized_types.specs.Sizes.{Bound};

use crate::places::Sought;
use crate::searching::{last_there, size_found, there, type_found};
use crate::shapes::length_of;
use crate::tables::Sizes;
use bumpalo::Bump;
use fut_blocks::{Extent, RowShape};
use fut_scalar::NoMemory;
use size_arena::{Dim, Free, SizeTree, Variable};
use unfold::Entered;

/// Data of a sized type, and its shape.
#[derive(Clone, Copy)]
pub struct Shaped<'a> {
    pub tree: &'a SizeTree<'a>,
    pub row: &'a RowShape<'a>,
}

/// What is looked into for sizes and type variables.
#[derive(Clone, Copy)]
pub struct Findings<'a> {
    /// The patterns that were entered.
    pub entered: &'a Entered<'a>,
    /// Data that parameters took behind them, the first one first.
    pub given: &'a [Shaped<'a>],
    /// The parameters of the function types that are around, the outermost first: their frames' sizes stand in them alone.
    pub frames: &'a [Shaped<'a>],
}

// What a size by itself is worth, which is no constant.
fn free_in<'a>(
    size: Free,
    findings: &Findings<'a>,
    sizes: &Sizes<'a>,
    bump: &'a Bump,
) -> Result<Extent<'a>, NoMemory>
    ensures { (Z : Sizing) → Tells sizes.now Z → IfOk result (λ many. extent_of many ≡ (found_in Z findings.now).size (free_of size)) }
{
    match last_there(Sought::Size(Dim::At(size)), findings.given, sizes, bump)? {
        Some(row) => length_of(row, bump),
        None => size_found(findings.entered, size, sizes, bump),
    }
}

// What a size of a frame is worth, by the number of function types that stand between and its position.
fn bound_in<'a>(
    between: u32,
    position: u32,
    findings: &Findings<'a>,
    sizes: &Sizes<'a>,
    bump: &'a Bump,
) -> Result<Extent<'a>, NoMemory>
    ensures { (Z : Sizing) → Tells sizes.now Z → IfOk result (λ many. extent_of many ≡ number_in Z findings.now (Bound between position)) }
{
    let many = findings.frames.len();
    let from_last = between as usize;
    if from_last >= many {
        return Ok(Extent::Nowhere);
    }
    let frame = findings.frames[many - 1 - from_last];
    let sought = Sought::Size(Dim::Bound(0, position));
    match there(frame.tree, sought, frame.row, sizes, bump)? {
        Some(row) => length_of(row, bump),
        None => Ok(Extent::Nowhere),
    }
}

/// What a size is worth.
pub fn number_in<'a>(
    dim: Dim,
    findings: &Findings<'a>,
    sizes: &Sizes<'a>,
    bump: &'a Bump,
) -> Result<Extent<'a>, NoMemory>
    ensures { (Z : Sizing) → Tells sizes.now Z → IfOk result (λ many. extent_of many ≡ number_in Z findings.now (dim_of dim)) }
{
    match dim {
        Dim::At(size) => match size {
            Free::Const(number) => Ok(Extent::Exactly(number)),
            _ => free_in(size, findings, sizes, bump),
        },
        Dim::Bound(between, position) => bound_in(between, position, findings, sizes, bump),
    }
}

/// What a type variable stands for.
pub fn type_in<'a>(
    variable: Variable,
    findings: &Findings<'a>,
    sizes: &Sizes<'a>,
    bump: &'a Bump,
) -> Result<&'a RowShape<'a>, NoMemory>
    ensures { (Z : Sizing) → Tells sizes.now Z → IfOk result (λ row. row_of row.now ≡ type_in Z findings.now (variable_of variable)) }
{
    let sought = Sought::Type(variable);
    if let Some(row) = last_there(sought, findings.frames, sizes, bump)? {
        return Ok(row);
    }
    match last_there(sought, findings.given, sizes, bump)? {
        Some(row) => Ok(row),
        None => type_found(findings.entered, variable, sizes, bump),
    }
}
