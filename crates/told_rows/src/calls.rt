// What code that unfolds asks, where there may be a sizing.
ghost use Rattle.std.specs.Prelude.{◌≡◌, IfOk, Option, map};
ghost use Rattle.fut_meaning.specs.Found.{Sizing};
ghost use Rattle.told_rows.specs.Arguments.{rows_of};
ghost use Rattle.told_rows.specs.Calls.{maybe_extent, maybe_test};
ghost use Rattle.told_rows.specs.Tables.{Told_by};
ghost use Rattle.unfold.specs.Held.{known_of, scope_of};
ghost use Rattle.fut_blocks.specs.Rows.{Shape_of, row_of};
ghost use Rattle.unfold.specs.Telling as telling;
ghost use Rattle.unfold.specs.Telling.{enter, function_row, literal_row, rows_for, size_used, test_at};

use crate::findings::Findings;
use crate::shapes::{rows_in, shape, unknown};
use crate::tables::{Sizes, is_size, size_at};
use crate::taken::expression;
use crate::telling::{results_row, tells};
use crate::testing::size_test;
use crate::told::told_row;
use bumpalo::Bump;
use bumpalo::collections::into_bump_slice;
use fut_blocks::{Atom, Extent, RowShape, SizeTest};
use fut_flat::Primitive;
use fut_scalar::{IntType, NoMemory, ScalarType};
use size_arena::{Dim, Free};
use std::slice;
use unfold::{Entered, Known, Scope};

/// What is seen where the pattern at a node was entered with what is known of its value. It costs the size of the sized type at
/// the node, and where that is a function's, what the function tells of its results.
pub fn enter<'a>(
    sizes: Option<&Sizes<'a>>,
    node: u32,
    known: &Known<'a>,
    scope: Scope<'a>,
    bump: &'a Bump,
) -> Result<Scope<'a>, NoMemory>
    ensures { (Z : Option Sizing) → Told_by sizes.entry Z → IfOk result (λ made. scope_of made ≡ enter Z node (known_of known.now) (scope_of scope.entry)) }
{
    let Some(sizes) = sizes else {
        return Ok(scope);
    };
    let tree = size_at(sizes, node, bump)?;
    let told = results_row(tree, known, sizes, bump)?;
    match bump.try_alloc(Entered::First(node, *known, told, scope.entered)) {
        Ok(entered) => Ok(Scope {
            names: scope.names,
            entered,
        }),
        Err(_) => Err(NoMemory),
    }
}

/// The row of the array literal at a node, where it has no elements.
pub fn row_of_literal<'a>(
    sizes: Option<&Sizes<'a>>,
    scope: Scope<'a>,
    node: u32,
    bump: &'a Bump,
) -> Result<&'a RowShape<'a>, NoMemory>
    ensures { (Z : Option Sizing) → Told_by sizes.entry Z → IfOk result (λ made. row_of made.now ≡ literal_row Z (scope_of scope.entry) node) }
{
    let Some(sizes) = sizes else {
        return Ok(unknown());
    };
    let tree = size_at(sizes, node, bump)?;
    let findings = Findings {
        entered: scope.entered,
        given: &[],
        frames: &[],
    };
    let whole = told_row(tree, &findings, sizes, bump)?;
    rows_in(whole, bump)
}

// The rows of data.
fn rows_of_data<'a>(atoms: &[Atom], bump: &'a Bump) -> Result<&'a [RowShape<'a>], NoMemory>
    ensures { IfOk result (λ made. rows_of made.now ≡ map (λ u. telling.rows_in (Shape_of u)) atoms.now) }
{
    let mut made = Vec::new(bump);
    for atom in atoms {
        let data = shape(bump, RowShape::Data(*atom))?;
        made.push(RowShape::Rows(data))?;
    }
    Ok(into_bump_slice(made))
}

// The shapes of the arguments of a primitive's function, where it has these data.
fn rows_for<'a>(
    primitive: Primitive,
    atoms: &[Atom],
    bump: &'a Bump,
) -> Result<&'a [RowShape<'a>], NoMemory>
    ensures { IfOk result (λ made. rows_of made.now ≡ rows_for primitive atoms.now) }
{
    match primitive {
        Primitive::Tabulate => {
            let row = shape(bump, RowShape::Scalar(ScalarType::Int(IntType::I64)))?;
            Ok(slice::from_ref(row))
        }
        _ => rows_of_data(atoms, bump),
    }
}

/// A result of the function of a primitive with these data, where the function does not run.
pub fn row_of_function<'a>(
    sizes: Option<&Sizes<'a>>,
    primitive: Primitive,
    function: &Known<'a>,
    atoms: &[Atom],
    bump: &'a Bump,
) -> Result<&'a RowShape<'a>, NoMemory>
    ensures { (Z : Option Sizing) → Told_by sizes.entry Z → IfOk result (λ made. row_of made.now ≡ function_row Z primitive (known_of function.now) atoms.now) }
{
    let Some(sizes) = sizes else {
        return Ok(unknown());
    };
    let arguments = rows_for(primitive, atoms, bump)?;
    tells(function, arguments, sizes, bump)
}

/// The sizes of the type at a node, which data has to have.
pub fn test_at<'a>(
    sizes: Option<&Sizes<'a>>,
    scope: Scope<'a>,
    node: u32,
    bump: &'a Bump,
) -> Result<Option<&'a SizeTest<'a>>, NoMemory>
    ensures { (Z : Option Sizing) → Told_by sizes.entry Z → IfOk result (λ made. maybe_test made ≡ test_at Z (scope_of scope.entry) node) }
{
    let Some(sizes) = sizes else {
        return Ok(None);
    };
    let tree = size_at(sizes, node, bump)?;
    let wanted = size_test(tree, scope.entered, sizes, bump)?;
    Ok(Some(wanted))
}

/// Where a number is that of a size's name, what the size is worth.
pub fn size_used<'a>(
    sizes: Option<&Sizes<'a>>,
    scope: Scope<'a>,
    number: u32,
    bump: &'a Bump,
) -> Result<Option<Extent<'a>>, NoMemory>
    ensures { (Z : Option Sizing) → Told_by sizes.entry Z → IfOk result (λ made. maybe_extent made ≡ size_used Z (scope_of scope.entry) number) }
{
    let Some(sizes) = sizes else {
        return Ok(None);
    };
    if !is_size(sizes, number) {
        return Ok(None);
    }
    let dim = Dim::At(Free::Name(number));
    let many = expression(dim, scope.entered, sizes, bump)?;
    Ok(Some(many))
}
