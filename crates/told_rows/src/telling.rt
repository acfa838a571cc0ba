// What functions tell of their results.
ghost use Rattle.std.specs.Prelude.{◌≡◌, ◌≤◌, ◌-◌, ℕ, [], IfOk, drop, length, map};
ghost use Rattle.fut_blocks.specs.Rows.{row_of};
ghost use Rattle.fut_flat.specs.Erased.{pattern_of, patterns};
ghost use Rattle.fut_flat.specs.Numbers.{all_pattern_numbers};
ghost use Rattle.fut_meaning.specs.Found.{Sizing};
ghost use Rattle.fut_meaning.specs.Telling.{nodes_from};
ghost use Rattle.size_arena.specs.Trees.{size_of};
ghost use Rattle.told_rows.specs.Arguments.{rows_of};
ghost use Rattle.told_rows.specs.Findings.{with_all};
ghost use Rattle.told_rows.specs.Tables.{Tells};
ghost use Rattle.unfold.specs.Held.{entered_of, function_of, known_of};
ghost use Rattle.unfold.specs.Knowns.{knowns};
ghost use Rattle.unfold.specs.Telling.{Found, closure_tells, found, function_tells, number, result_row, results_row, tells};

use crate::arguments::{Told, is_function, primitive_told};
use crate::findings::{Findings, Shaped};
use crate::shapes::{shape, unknown};
use crate::standing::{gives_chosen, is_known};
use crate::tables::{Sizes, size_at};
use crate::told::{chosen_row, told_row};
use bumpalo::Bump;
use bumpalo::collections::into_bump_slice;
use flat_numbers::{after_pattern, after_patterns};
use fut_blocks::RowShape;
use fut_flat::Pat;
use fut_scalar::NoMemory;
use size_arena::SizeTree;
use std::slice;
use unfold::{Entered, Function, Known, KnownForm};

// What a function of a sized type gives for arguments of these shapes, where parameters took this data.
fn result_row<'a>(
    tree: &'a SizeTree<'a>,
    arguments: &'a [RowShape<'a>],
    entered: &'a Entered<'a>,
    given: &'a [Shaped<'a>],
    sizes: &Sizes<'a>,
    bump: &'a Bump,
) -> Result<&'a RowShape<'a>, NoMemory>
    ensures { (Z : Sizing) → Tells sizes.now Z → IfOk result (λ made. let W : Found = with_all Z.fields given.now (found Z (entered_of entered.now)) in row_of made.now ≡ result_row Z.fields (number W) W.type (size_of tree.now) (rows_of arguments.now)) }
{
    let mut frames = Vec::new(bump);
    let mut current = tree;
    for argument in arguments {
        match current {
            SizeTree::Fun { from, to, .. } => {
                frames.push(Shaped {
                    tree: *from,
                    row: argument,
                })?;
                current = *to;
            }
            SizeTree::Hole(_) => return Ok(unknown()),
            SizeTree::Open { .. } => return Ok(unknown()),
            SizeTree::Level { .. } => return Ok(unknown()),
            SizeTree::Built { .. } => return Ok(unknown()),
        }
    }
    let findings = Findings {
        entered,
        given,
        frames: into_bump_slice(frames),
    };
    told_row(current, &findings, sizes, bump)
}

// What the parameters of a closure take, the first of whose patterns stands at a node.
fn parameters_given<'a>(
    parameters: &[Pat<'a>],
    first: u32,
    arguments: &'a [RowShape<'a>],
    sizes: &Sizes<'a>,
    bump: &'a Bump,
) -> Result<&'a [Shaped<'a>], NoMemory>
    requires { length parameters.now ≤ length arguments.now }
    ensures { (Z : Sizing) → Tells sizes.now Z → IfOk result (λ taken. (lo : ℕ) (W : Found) → closure_tells Z (nodes_from (patterns (map pattern_of parameters.now)) first) lo (rows_of arguments.now) W ≡ closure_tells Z [] lo (rows_of (drop (length parameters.now) arguments.now)) (with_all Z.fields taken.now W)) }
{
    let mut given = Vec::new(bump);
    let mut node = first;
    for i in 0..parameters.len() {
        let tree = size_at(sizes, node, bump)?;
        given.push(Shaped {
            tree,
            row: &arguments[i],
        })?;
        node = after_pattern(node, &parameters[i])?;
    }
    Ok(into_bump_slice(given))
}

/// The node of a closure's first pattern.
pub fn first_pattern(function: &Function<'_>) -> Result<u32, NoMemory>
    ensures { IfOk result (λ node. node ≡ function.now.first - all_pattern_numbers (patterns (map pattern_of function.now.parameters.now))) }
{
    let many = after_patterns(0, function.parameters)?;
    Ok(function.first.saturating_sub(many))
}

// What a closure gives for arguments of these shapes.
fn closure_tells<'a>(
    function: &Function<'a>,
    arguments: &'a [RowShape<'a>],
    sizes: &Sizes<'a>,
    bump: &'a Bump,
) -> Result<&'a RowShape<'a>, NoMemory>
    ensures { (Z : Sizing) → Tells sizes.now Z → IfOk result (λ made. row_of made.now ≡ tells Z (function_of function.now) (rows_of arguments.now)) }
{
    let many = function.parameters.len();
    if arguments.len() < many {
        return Ok(unknown());
    }
    let node = first_pattern(function)?;
    let given = parameters_given(function.parameters, node, arguments, sizes, bump)?;
    let tree = size_at(sizes, function.first, bump)?;
    result_row(
        tree,
        &arguments[many..],
        function.entered,
        given,
        sizes,
        bump,
    )
}

/// The shape of what a function gives for arguments of these shapes. It goes down as deep as primitives hold primitives, each of
/// which makes the type one level deeper.
#[cycle(tells)]
pub fn tells<'a>(
    known: &Known<'a>,
    arguments: &'a [RowShape<'a>],
    sizes: &Sizes<'a>,
    bump: &'a Bump,
) -> Result<&'a RowShape<'a>, NoMemory>
    ensures { (Z : Sizing) → Tells sizes.now Z → IfOk result (λ made. row_of made.now ≡ tells Z (known_of known.now) (rows_of arguments.now)) }
{
    match known.form {
        KnownForm::Scalar(_) => Ok(unknown()),
        KnownForm::Tuple(_) => Ok(unknown()),
        KnownForm::Record(_) => Ok(unknown()),
        KnownForm::Function(function) => closure_tells(function, arguments, sizes, bump),
        KnownForm::Primitive(primitive, _, parts) => {
            match primitive_told(primitive, parts, arguments, bump)? {
                Told::Row(row) => Ok(row),
                Told::Rows(many, rows) => {
                    let under = function_tells(parts, rows, sizes, bump)?;
                    shape(bump, RowShape::Array(many, under))
                }
            }
        }
    }
}

// By the one function among the arguments of a primitive.
#[cycle(tells)]
fn function_tells<'a>(
    parts: &[Known<'a>],
    arguments: &'a [RowShape<'a>],
    sizes: &Sizes<'a>,
    bump: &'a Bump,
) -> Result<&'a RowShape<'a>, NoMemory>
    ensures { (Z : Sizing) → Tells sizes.now Z → IfOk result (λ made. row_of made.now ≡ function_tells Z (knowns (map known_of parts.now)) (rows_of arguments.now)) }
{
    for part in parts {
        if is_function(part) {
            return tells(part, arguments, sizes, bump);
        }
    }
    Ok(unknown())
}

/// What a function of a sized type tells of its results, where the shape of what it takes is known by itself.
pub fn results_row<'a>(
    tree: &SizeTree<'a>,
    known: &Known<'a>,
    sizes: &Sizes<'a>,
    bump: &'a Bump,
) -> Result<&'a RowShape<'a>, NoMemory>
    ensures { (Z : Sizing) → Tells sizes.now Z → IfOk result (λ made. row_of made.now ≡ results_row Z.fields (size_of tree.now) (tells Z (known_of known.now))) }
{
    match tree {
        SizeTree::Fun {
            chosen,
            from,
            to,
            ..
        } => {
            if !is_known(from) {
                return Ok(unknown());
            }
            if !gives_chosen(to, *chosen) {
                return Ok(unknown());
            }
            let taken = chosen_row(from, sizes, bump)?;
            tells(known, slice::from_ref(taken), sizes, bump)
        }
        SizeTree::Hole(_) => Ok(unknown()),
        SizeTree::Open { .. } => Ok(unknown()),
        SizeTree::Level { .. } => Ok(unknown()),
        SizeTree::Built { .. } => Ok(unknown()),
    }
}
