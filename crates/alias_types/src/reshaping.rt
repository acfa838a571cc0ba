// Values at other stars and other types.
ghost use Rattle.std.specs.Prelude.{◌≡◌, IfOk};
ghost use Rattle.fut_aliases.specs.Values.{all_ascribed, all_at_type, all_functions, ascribed, at_type, functions};
ghost use Rattle.alias_types.specs.Kinds.{kinds_of};
ghost use Rattle.alias_values.specs.Trees.{row_of, stars_of, type_of, types_of, value_of, values_of};

use crate::making::of_type;
use alias_values::{StarTree, TypeTree, ValueTree, function, leaf, parts, star_row};
use bumpalo::Bump;
use bumpalo::collections::into_bump_slice;
use fut_scalar::NoMemory;
use fut_types::Kind;

/// The stars of the functions in a value.
#[cycle(functions)]
#[tactic(auto, using(crate::proofs::ReshapeForms::function_forms))]
pub fn functions<'a>(bump: &'a Bump, value: &'a ValueTree<'a>) -> Result<&'a StarTree<'a>, NoMemory>
    ensures { IfOk result (λ made. stars_of made.now ≡ functions (value_of value.now)) }
{
    match value {
        ValueTree::Scalar | ValueTree::Array(_) => {
            let made = leaf(bump, false)?;
            Ok(made)
        }
        ValueTree::Function(_, stars) => Ok(*stars),
        ValueTree::Parts(_, values) => {
            let row = all_functions(bump, values)?;
            let made = star_row(bump, row)?;
            Ok(made)
        }
    }
}

#[cycle(functions)]
#[tactic(auto, using(crate::proofs::ReshapeForms::all_function_forms))]
fn all_functions<'a>(
    bump: &'a Bump,
    values: &'a [ValueTree<'a>],
) -> Result<&'a [StarTree<'a>], NoMemory>
    ensures { IfOk result (λ made. row_of made.now ≡ all_functions (values_of values.now)) }
{
    let mut made = Vec::new(bump);
    for value in values {
        let stars = functions(bump, value)?;
        made.push(*stars)?;
    }
    Ok(into_bump_slice(made))
}

/// The value with the stars of a written type on its functions.
#[cycle(ascribed)]
#[tactic(auto, using(crate::proofs::ReshapeForms::ascribe_forms))]
pub fn ascribed<'a>(
    bump: &'a Bump,
    stars: &'a StarTree<'a>,
    value: &'a ValueTree<'a>,
) -> Result<&'a ValueTree<'a>, NoMemory>
    ensures { IfOk result (λ made. value_of made.now ≡ ascribed (stars_of stars.now) (value_of value.now)) }
{
    match stars {
        StarTree::Leaf(_) => Ok(value),
        StarTree::Arrow(_, _, _) => match value {
            ValueTree::Function(set, _) => {
                let made = function(bump, set, stars)?;
                Ok(made)
            }
            ValueTree::Scalar | ValueTree::Array(_) | ValueTree::Parts(_, _) => Ok(value),
        },
        StarTree::Row(row) => match value {
            ValueTree::Parts(head, values) => {
                let all = all_ascribed(bump, row, values)?;
                let made = parts(bump, *head, all)?;
                Ok(made)
            }
            ValueTree::Scalar | ValueTree::Array(_) | ValueTree::Function(_, _) => Ok(value),
        },
    }
}

#[cycle(ascribed)]
#[tactic(auto, using(crate::proofs::ReshapeForms::all_ascribe_forms))]
fn all_ascribed<'a>(
    bump: &'a Bump,
    row: &'a [StarTree<'a>],
    values: &'a [ValueTree<'a>],
) -> Result<&'a [ValueTree<'a>], NoMemory>
    ensures { IfOk result (λ made. values_of made.now ≡ all_ascribed (row_of row.now) (values_of values.now)) }
{
    let both = row.len().min(values.len());
    let mut made = Vec::new(bump);
    for i in 0..both {
        let one = ascribed(bump, &row[i], &values[i])?;
        made.push(*one)?;
    }
    made.extend_from_slice(values.split_at(both).1)?;
    Ok(into_bump_slice(made))
}

/// A value of a type variable where the variable stands for a type.
#[cycle(at_type)]
#[tactic(auto, using(crate::proofs::ReshapeForms::at_forms))]
pub fn at_type<'a>(
    bump: &'a Bump,
    kinds: &[Kind],
    ty: &TypeTree<'_>,
    value: &'a ValueTree<'a>,
) -> Result<&'a ValueTree<'a>, NoMemory>
    ensures { IfOk result (λ made. value_of made.now ≡ at_type (kinds_of kinds.now) (type_of ty.now) (value_of value.now)) }
{
    match value {
        ValueTree::Array(set) => {
            let made = of_type(bump, kinds, set, ty)?;
            Ok(made)
        }
        ValueTree::Scalar | ValueTree::Function(_, _) => Ok(value),
        ValueTree::Parts(head, values) => match ty {
            TypeTree::Var(_) => Ok(value),
            TypeTree::Made(_, types) => {
                let all = all_at_type(bump, kinds, types, values)?;
                let made = parts(bump, *head, all)?;
                Ok(made)
            }
        },
    }
}

#[cycle(at_type)]
#[tactic(auto, using(crate::proofs::ReshapeForms::all_at_forms))]
fn all_at_type<'a>(
    bump: &'a Bump,
    kinds: &[Kind],
    types: &[TypeTree<'_>],
    values: &'a [ValueTree<'a>],
) -> Result<&'a [ValueTree<'a>], NoMemory>
    ensures { IfOk result (λ made. values_of made.now ≡ all_at_type (kinds_of kinds.now) (types_of types.now) (values_of values.now)) }
{
    let both = types.len().min(values.len());
    let mut made = Vec::new(bump);
    for i in 0..both {
        let one = at_type(bump, kinds, &types[i], &values[i])?;
        made.push(*one)?;
    }
    made.extend_from_slice(values.split_at(both).1)?;
    Ok(into_bump_slice(made))
}
