// Sized types as trees.
ghost use Rattle.std.specs.Prelude.{◌≡◌, IfOk};
ghost use Rattle.sized_types.specs.Sizes.{Built, Fun, Hole, Level, Open};
ghost use Rattle.size_arena.specs.Trees.{dim_of, size_of, sizes_of, type_of, variable_of};

use crate::dims::{Dim, Variable};
use crate::types::TypeTree;
use bumpalo::Bump;
use fut_scalar::NoMemory;
use fut_types::Head;

/// No tree is higher, so that walks have stack enough; one that would be counts as want of memory.
pub const HIGHEST: u32 = 10000;

/// A sized type.
#[derive(Clone, Copy)]
pub enum SizeTree<'a> {
    Hole(Variable),
    /// What the use at a node of a generalised name chooses for a variable, which is of this type, while the name is applied.
    Open {
        node: u32,
        variable: Variable,
        ty: &'a TypeTree<'a>,
    },
    Level {
        height: u32,
        size: Dim,
        row: &'a SizeTree<'a>,
    },
    Built {
        height: u32,
        head: Head,
        parts: &'a [SizeTree<'a>],
    },
    /// How many sizes the caller chooses, the parameter, and the result.
    Fun {
        height: u32,
        chosen: u32,
        from: &'a SizeTree<'a>,
        to: &'a SizeTree<'a>,
    },
}

impl<'a> SizeTree<'a> {
    /// How high the tree is.
    pub fn height(&self) -> u32 {
        match self {
            SizeTree::Hole(_) | SizeTree::Open { .. } => 0,
            SizeTree::Level { height, .. }
            | SizeTree::Built { height, .. }
            | SizeTree::Fun { height, .. } => *height,
        }
    }
}

// The height of a tree above one of this height.
fn above(height: u32) -> Result<u32, NoMemory> {
    if height >= HIGHEST {
        return Err(NoMemory);
    }
    Ok(height + 1)
}

// The height of the highest.
fn highest(parts: &[SizeTree<'_>]) -> u32 {
    let mut most = 0;
    for part in parts {
        let height = part.height();
        if height > most {
            most = height;
        }
    }
    most
}

/// A type variable.
pub fn hole<'a>(bump: &'a Bump, variable: Variable) -> Result<&'a SizeTree<'a>, NoMemory>
    ensures { IfOk result (λ made. size_of made.now ≡ Hole (variable_of variable)) }
{
    match bump.try_alloc(SizeTree::Hole(variable)) {
        Ok(made) => Ok(made),
        Err(_) => Err(NoMemory),
    }
}

/// What a use chooses for a variable.
pub fn open<'a>(
    bump: &'a Bump,
    node: u32,
    variable: Variable,
    ty: &'a TypeTree<'a>,
) -> Result<&'a SizeTree<'a>, NoMemory>
    ensures { IfOk result (λ made. size_of made.now ≡ Open node (variable_of variable) (type_of ty.now)) }
{
    match bump.try_alloc(SizeTree::Open { node, variable, ty }) {
        Ok(made) => Ok(made),
        Err(_) => Err(NoMemory),
    }
}

/// An array.
pub fn level<'a>(
    bump: &'a Bump,
    size: Dim,
    row: &'a SizeTree<'a>,
) -> Result<&'a SizeTree<'a>, NoMemory>
    ensures { IfOk result (λ made. size_of made.now ≡ Level (dim_of size) (size_of row.now)) }
{
    let height = above(row.height())?;
    match bump.try_alloc(SizeTree::Level { height, size, row }) {
        Ok(made) => Ok(made),
        Err(_) => Err(NoMemory),
    }
}

/// A scalar, a tuple, a record, a type of its own.
pub fn built<'a>(
    bump: &'a Bump,
    head: Head,
    parts: &'a [SizeTree<'a>],
) -> Result<&'a SizeTree<'a>, NoMemory>
    ensures { IfOk result (λ made. size_of made.now ≡ Built head (sizes_of parts.now)) }
{
    let height = above(highest(parts))?;
    match bump.try_alloc(SizeTree::Built {
        height,
        head,
        parts,
    }) {
        Ok(made) => Ok(made),
        Err(_) => Err(NoMemory),
    }
}

// The height of the higher.
fn higher(left: u32, right: u32) -> u32 {
    if left < right { right } else { left }
}

/// A function.
pub fn function<'a>(
    bump: &'a Bump,
    chosen: u32,
    from: &'a SizeTree<'a>,
    to: &'a SizeTree<'a>,
) -> Result<&'a SizeTree<'a>, NoMemory>
    ensures { IfOk result (λ made. size_of made.now ≡ Fun chosen (size_of from.now) (size_of to.now)) }
{
    let height = above(higher(from.height(), to.height()))?;
    match bump.try_alloc(SizeTree::Fun {
        height,
        chosen,
        from,
        to,
    }) {
        Ok(made) => Ok(made),
        Err(_) => Err(NoMemory),
    }
}
