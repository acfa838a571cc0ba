// Values and stars of a type.
ghost use Rattle.std.specs.Prelude.{◌≡◌, IfOk};
ghost use Rattle.fut_aliases.specs.Stars.{all_spread, spread};
ghost use Rattle.fut_aliases.specs.Values.{all_with_stars, of_kind, of_type, of_types, unless, with_stars};
ghost use Rattle.fut_types.specs.Types.{Made, level};
ghost use Rattle.alias_types.specs.Kinds.{kinds_of};
ghost use Rattle.alias_values.specs.Trees.{row_of, stars_of, type_of, types_of, value_of, values_of};

use alias_values::{
    StarTree, TypeTree, ValueTree, array, arrow, function, leaf, parts, scalar, star_row,
};
use bumpalo::Bump;
use bumpalo::collections::into_bump_slice;
use fut_aliases::Alias;
use fut_scalar::NoMemory;
use fut_types::{Head, Kind, level_of};

/// One star, or none, over a whole type.
#[cycle(spread)]
#[tactic(auto, using(crate::proofs::MakeForms::spread_forms))]
pub fn spread<'a>(
    bump: &'a Bump,
    starred: bool,
    ty: &TypeTree<'_>,
) -> Result<&'a StarTree<'a>, NoMemory>
    ensures { IfOk result (λ made. stars_of made.now ≡ spread starred (type_of ty.now)) }
{
    match ty {
        TypeTree::Var(_) => {
            let made = leaf(bump, starred)?;
            Ok(made)
        }
        TypeTree::Made(head, types) => match head {
            Head::Tuple | Head::Record(_) => {
                let row = all_spread(bump, starred, types)?;
                let made = star_row(bump, row)?;
                Ok(made)
            }
            Head::Fun => {
                if types.len() != 2 {
                    let made = leaf(bump, starred)?;
                    return Ok(made);
                }
                let from = spread(bump, false, &types[0])?;
                let to = spread(bump, false, &types[1])?;
                let made = arrow(bump, starred, from, to)?;
                Ok(made)
            }
            Head::Scalar(_) | Head::Array | Head::Rigid(_, _) | Head::Abstract(_, _) => {
                let made = leaf(bump, starred)?;
                Ok(made)
            }
        },
    }
}

#[cycle(spread)]
#[tactic(auto, using(crate::proofs::MakeForms::all_spread_forms))]
fn all_spread<'a>(
    bump: &'a Bump,
    starred: bool,
    types: &[TypeTree<'_>],
) -> Result<&'a [StarTree<'a>], NoMemory>
    ensures { IfOk result (λ made. row_of made.now ≡ all_spread starred (types_of types.now)) }
{
    let mut made = Vec::new(bump);
    for ty in types {
        let stars = spread(bump, starred, ty)?;
        made.push(*stars)?;
    }
    Ok(into_bump_slice(made))
}

// The kind of a variable; one of which nothing is known may stand for all types.
#[tactic(auto, using(crate::proofs::MakeForms::known_kinds))]
fn kind_of(kinds: &[Kind], variable: u32) -> Kind
    ensures { result ≡ kinds_of kinds.now variable }
{
    let at = variable as usize;
    if at < kinds.len() {
        kinds[at]
    } else {
        Kind::Any
    }
}

#[tactic(auto, using(crate::proofs::MakeForms::kind_forms))]
fn of_kind<'a>(bump: &'a Bump, kind: Kind, set: &'a [Alias]) -> Result<&'a ValueTree<'a>, NoMemory>
    ensures { IfOk result (λ made. value_of made.now ≡ of_kind (level kind) set.now) }
{
    if level_of(kind) >= 2 {
        let made = scalar(bump)?;
        return Ok(made);
    }
    let made = array(bump, set)?;
    Ok(made)
}

/// A value of a type whose components all have one set.
#[cycle(of_type)]
#[tactic(auto, using(crate::proofs::MakeForms::of_forms))]
pub fn of_type<'a>(
    bump: &'a Bump,
    kinds: &[Kind],
    set: &'a [Alias],
    ty: &TypeTree<'_>,
) -> Result<&'a ValueTree<'a>, NoMemory>
    ensures { IfOk result (λ made. value_of made.now ≡ of_type (kinds_of kinds.now) set.now (type_of ty.now)) }
{
    match ty {
        TypeTree::Var(variable) => {
            let made = of_kind(bump, kind_of(kinds, *variable), set)?;
            Ok(made)
        }
        TypeTree::Made(head, types) => match head {
            Head::Scalar(_) => {
                let made = scalar(bump)?;
                Ok(made)
            }
            Head::Tuple | Head::Record(_) => {
                let values = of_types(bump, kinds, set, types)?;
                let made = parts(bump, *head, values)?;
                Ok(made)
            }
            Head::Fun => {
                let stars = spread(bump, false, ty)?;
                let made = function(bump, set, stars)?;
                Ok(made)
            }
            Head::Rigid(_, kind) => {
                let made = of_kind(bump, *kind, set)?;
                Ok(made)
            }
            Head::Array | Head::Abstract(_, _) => {
                let made = array(bump, set)?;
                Ok(made)
            }
        },
    }
}

#[cycle(of_type)]
#[tactic(auto, using(crate::proofs::MakeForms::of_types_forms))]
fn of_types<'a>(
    bump: &'a Bump,
    kinds: &[Kind],
    set: &'a [Alias],
    types: &[TypeTree<'_>],
) -> Result<&'a [ValueTree<'a>], NoMemory>
    ensures { IfOk result (λ made. values_of made.now ≡ of_types (kinds_of kinds.now) set.now (types_of types.now)) }
{
    let mut made = Vec::new(bump);
    for ty in types {
        let value = of_type(bump, kinds, set, ty)?;
        made.push(*value)?;
    }
    Ok(into_bump_slice(made))
}

// A component with a star has the empty set.
fn unless<'a>(starred: bool, set: &'a [Alias]) -> &'a [Alias]
    ensures { result.now ≡ unless starred set.now }
{
    if starred { set.split_at(0).0 } else { set }
}

/// A value of a type, where the components with a star share with nothing and the others have one set.
#[cycle(with_stars)]
#[tactic(auto, using(crate::proofs::MakeForms::with_forms))]
pub fn with_stars<'a>(
    bump: &'a Bump,
    kinds: &[Kind],
    set: &'a [Alias],
    stars: &'a StarTree<'a>,
    ty: &TypeTree<'_>,
) -> Result<&'a ValueTree<'a>, NoMemory>
    ensures { IfOk result (λ made. value_of made.now ≡ with_stars (kinds_of kinds.now) set.now (stars_of stars.now) (type_of ty.now)) }
{
    match stars {
        StarTree::Leaf(starred) => {
            let made = of_type(bump, kinds, unless(*starred, set), ty)?;
            Ok(made)
        }
        StarTree::Arrow(starred, _, _) => {
            let made = function(bump, unless(*starred, set), stars)?;
            Ok(made)
        }
        StarTree::Row(row) => match ty {
            TypeTree::Var(_) => {
                let made = of_type(bump, kinds, set, ty)?;
                Ok(made)
            }
            TypeTree::Made(head, types) => {
                let values = all_with_stars(bump, kinds, set, row, types)?;
                let made = parts(bump, *head, values)?;
                Ok(made)
            }
        },
    }
}

#[cycle(with_stars)]
#[tactic(auto, using(crate::proofs::MakeForms::all_with_forms))]
fn all_with_stars<'a>(
    bump: &'a Bump,
    kinds: &[Kind],
    set: &'a [Alias],
    row: &'a [StarTree<'a>],
    types: &[TypeTree<'_>],
) -> Result<&'a [ValueTree<'a>], NoMemory>
    ensures { IfOk result (λ made. values_of made.now ≡ all_with_stars (kinds_of kinds.now) set.now (row_of row.now) (types_of types.now)) }
{
    let mut made = Vec::new(bump);
    for i in 0..row.len() {
        if i >= types.len() {
            return Ok(into_bump_slice(made));
        }
        let value = with_stars(bump, kinds, set, &row[i], &types[i])?;
        made.push(*value)?;
    }
    Ok(into_bump_slice(made))
}
