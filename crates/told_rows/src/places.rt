// Where a size or a type variable stands first in a sized type, outside of functions.
ghost use Rattle.std.specs.Prelude.{◌≡◌, IfOk, None, Some, cond, zero};
ghost use Rattle.fut_blocks.specs.Rows.{row_of};
ghost use Rattle.fut_flat.specs.Erased.{texts};
ghost use Rattle.fut_meaning.specs.Found.{Sizing};
ghost use Rattle.fut_meaning.specs.Places.{Whole, field_place, part_place, place};
ghost use Rattle.sized_types.specs.Sizes.{is_variable};
ghost use Rattle.size_arena.specs.Trees.{dim_of, size_of, sizes_of, variable_of};
ghost use Rattle.told_rows.specs.Places.{maybe_path, path_of, size_sought, type_sought};
ghost use Rattle.told_rows.specs.Tables.{Tells};
ghost use Rattle.unfold.specs.Telling.{at_row};

use crate::shapes::{field_in, part_in, rows_in};
use crate::tables::{Sizes, fields_of};
use bumpalo::Bump;
use fut_blocks::RowShape;
use fut_scalar::NoMemory;
use fut_types::Head;
use size_arena::{Dim, SizeTree, Variable, same_dim};

/// A place in data, from the whole of the data on.
#[derive(Clone, Copy)]
pub enum Path<'a> {
    Whole,
    /// In the rows of an array, in a part of a tuple, in a field of a record.
    Rows(&'a Path<'a>),
    Part(u32, &'a Path<'a>),
    Field(&'a str, &'a Path<'a>),
}

/// What is looked for in a sized type.
#[derive(Clone, Copy)]
pub enum Sought {
    Size(Dim),
    Type(Variable),
}

static WHOLE: Path<'static> = Path::Whole;

// The whole of the data.
#[tactic(auto, using(crate::proofs::PlaceForms::paths))]
fn whole<'a>() -> &'a Path<'a>
    ensures { path_of result.now ≡ Whole }
{
    &WHOLE
}

// Whether two type variables have one number.
fn same_variable(left: Variable, right: Variable) -> bool
    ensures { result ≡ is_variable (variable_of left) (variable_of right) }
{
    match left {
        Variable::Inferred(one) => matches!(right, Variable::Inferred(other) if one == other),
        Variable::Written(one, _) => matches!(right, Variable::Written(other, _) if one == other),
    }
}

// Whether this size is sought.
fn is_size_sought(sought: Sought, dim: Dim) -> bool
    ensures { result ≡ size_sought sought (dim_of dim) }
{
    match sought {
        Sought::Size(wanted) => same_dim(dim, wanted),
        Sought::Type(_) => false,
    }
}

// Whether this type variable is sought.
fn is_type_sought(sought: Sought, variable: Variable) -> bool
    ensures { result ≡ type_sought sought (variable_of variable) }
{
    match sought {
        Sought::Size(_) => false,
        Sought::Type(wanted) => same_variable(variable, wanted),
    }
}

// The whole, where it is what is sought.
fn whole_if<'a>(is_it: bool) -> Option<&'a Path<'a>>
    ensures { maybe_path result ≡ cond is_it (Some Whole) None }
{
    if is_it { Some(whole()) } else { None }
}

// A place further in, where there is one.
fn below<'a>(step: Path<'a>, bump: &'a Bump) -> Result<Option<&'a Path<'a>>, NoMemory>
    ensures { IfOk result (λ made. maybe_path made ≡ Some (path_of step.entry)) }
{
    match bump.try_alloc(step) {
        Ok(made) => Ok(Some(made)),
        Err(_) => Err(NoMemory),
    }
}

/// The first place.
#[cycle(place)]
#[tactic(auto, using(crate::proofs::PlaceForms::place_forms))]
pub fn place<'a>(
    tree: &SizeTree<'a>,
    sought: Sought,
    sizes: &Sizes<'a>,
    bump: &'a Bump,
) -> Result<Option<&'a Path<'a>>, NoMemory>
    ensures { (Z : Sizing) → Tells sizes.now Z → IfOk result (λ found. maybe_path found ≡ place Z.fields (size_sought sought) (type_sought sought) (size_of tree.now)) }
{
    match tree {
        SizeTree::Hole(variable) => Ok(whole_if(is_type_sought(sought, *variable))),
        SizeTree::Open { .. } => Ok(None),
        SizeTree::Level { size, row, .. } => {
            if is_size_sought(sought, *size) {
                return Ok(Some(whole()));
            }
            match place(row, sought, sizes, bump)? {
                Some(inside) => below(Path::Rows(inside), bump),
                None => Ok(None),
            }
        }
        SizeTree::Built { head, parts, .. } => match head {
            Head::Tuple => part_place(parts, sought, sizes, bump),
            Head::Record(number) => {
                let names = fields_of(sizes, *number)?;
                field_place(parts, names, sought, sizes, bump)
            }
            Head::Scalar(_) | Head::Array | Head::Fun => Ok(None),
            Head::Rigid(_, _) | Head::Abstract(_, _) => Ok(None),
        },
        SizeTree::Fun { .. } => Ok(None),
    }
}

// In the parts of a tuple.
#[cycle(place)]
fn part_place<'a>(
    parts: &[SizeTree<'a>],
    sought: Sought,
    sizes: &Sizes<'a>,
    bump: &'a Bump,
) -> Result<Option<&'a Path<'a>>, NoMemory>
    ensures { (Z : Sizing) → Tells sizes.now Z → IfOk result (λ found. maybe_path found ≡ part_place Z.fields (size_sought sought) (type_sought sought) zero (sizes_of parts.now)) }
{
    let mut number = 0u32;
    for part in parts {
        if let Some(inside) = place(part, sought, sizes, bump)? {
            return below(Path::Part(number, inside), bump);
        }
        match number.checked_add(1) {
            Some(next) => number = next,
            None => return Err(NoMemory),
        }
    }
    Ok(None)
}

// In the fields of a record.
#[cycle(place)]
fn field_place<'a>(
    parts: &[SizeTree<'a>],
    names: &'a [&'a str],
    sought: Sought,
    sizes: &Sizes<'a>,
    bump: &'a Bump,
) -> Result<Option<&'a Path<'a>>, NoMemory>
    ensures { (Z : Sizing) → Tells sizes.now Z → IfOk result (λ found. maybe_path found ≡ field_place Z.fields (size_sought sought) (type_sought sought) (texts names.now) (sizes_of parts.now)) }
{
    // A record has as many names as parts.
    if names.len() != parts.len() {
        return Err(NoMemory);
    }
    for i in 0..parts.len() {
        if let Some(inside) = place(&parts[i], sought, sizes, bump)? {
            return below(Path::Field(names[i], inside), bump);
        }
    }
    Ok(None)
}

/// What stands at a place of data that has a shape.
pub fn at_row<'a>(
    path: &'a Path<'a>,
    row: &'a RowShape<'a>,
    bump: &'a Bump,
) -> Result<&'a RowShape<'a>, NoMemory>
    ensures { IfOk result (λ made. row_of made.now ≡ at_row (path_of path.now) (row_of row.now)) }
{
    match path {
        Path::Whole => Ok(row),
        Path::Rows(inside) => {
            let rows = rows_in(row, bump)?;
            at_row(*inside, rows, bump)
        }
        Path::Part(number, inside) => {
            let part = part_in(*number, row, bump)?;
            at_row(*inside, part, bump)
        }
        Path::Field(name, inside) => {
            let field = field_in(*name, row, bump)?;
            at_row(*inside, field, bump)
        }
    }
}
