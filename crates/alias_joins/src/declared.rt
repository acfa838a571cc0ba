// Declared stars.
ghost use Rattle.std.specs.Prelude.{◌≡◌, IfOk};
ghost use Rattle.fut_aliases.specs.Stars.{Row, all_either, either, no_star, primitive_stars, star_and, table_stars};
ghost use Rattle.fut_primitives.specs.Written.{written_of};
ghost use Rattle.alias_values.specs.Trees.{row_of, stars_of};

use alias_values::{StarTree, arrow, leaf, star_row};
use bumpalo::Bump;
use bumpalo::collections::into_bump_slice;
use fut_flat::Primitive;
use fut_primitives::{Written, line_of};
use fut_scalar::NoMemory;

/// A star where either of two has one.
#[cycle(either)]
#[tactic(auto, using(crate::proofs::DeclaredForms::either_forms))]
pub fn either<'a>(
    bump: &'a Bump,
    one: &'a StarTree<'a>,
    other: &'a StarTree<'a>,
) -> Result<&'a StarTree<'a>, NoMemory>
    ensures { IfOk result (λ made. stars_of made.now ≡ either (stars_of one.now) (stars_of other.now)) }
{
    match one {
        StarTree::Leaf(starred) => { if *starred { Ok(one) } else { Ok(other) } }
        StarTree::Arrow(starred, from, to) => match other {
            StarTree::Arrow(also, _, given) => {
                let result = either(bump, to, given)?;
                let made = arrow(bump, *starred || *also, from, result)?;
                Ok(made)
            }
            StarTree::Leaf(_) | StarTree::Row(_) => Ok(one),
        },
        StarTree::Row(parts) => match other {
            StarTree::Row(others) => {
                let row = all_either(bump, parts, others)?;
                let made = star_row(bump, row)?;
                Ok(made)
            }
            StarTree::Leaf(_) | StarTree::Arrow(_, _, _) => Ok(one),
        },
    }
}

#[cycle(either)]
#[tactic(auto, using(crate::proofs::DeclaredForms::all_either_forms))]
fn all_either<'a>(
    bump: &'a Bump,
    parts: &'a [StarTree<'a>],
    others: &'a [StarTree<'a>],
) -> Result<&'a [StarTree<'a>], NoMemory>
    ensures { IfOk result (λ made. row_of made.now ≡ all_either (row_of parts.now) (row_of others.now)) }
{
    let both = parts.len().min(others.len());
    let mut made = Vec::new(bump);
    for i in 0..both {
        let one = either(bump, &parts[i], &others[i])?;
        made.push(*one)?;
    }
    made.extend_from_slice(parts.split_at(both).1)?;
    Ok(into_bump_slice(made))
}

// The stars of a tuple of two.
#[tactic(auto, using(crate::proofs::DeclaredForms::table_forms))]
fn pair<'a>(
    bump: &'a Bump,
    one: &StarTree<'a>,
    two: &StarTree<'a>,
) -> Result<&'a StarTree<'a>, NoMemory>
    ensures { IfOk result (λ made. stars_of made.now ≡ Row (star_and (stars_of one.now) (star_and (stars_of two.now) no_star))) }
{
    let mut row = Vec::new(bump);
    row.push(*one)?;
    row.push(*two)?;
    let made = star_row(bump, into_bump_slice(row))?;
    Ok(made)
}

// The stars of a tuple of three.
#[tactic(auto, using(crate::proofs::DeclaredForms::table_forms))]
fn triple<'a>(
    bump: &'a Bump,
    one: &StarTree<'a>,
    two: &StarTree<'a>,
    three: &StarTree<'a>,
) -> Result<&'a StarTree<'a>, NoMemory>
    ensures { IfOk result (λ made. stars_of made.now ≡ Row (star_and (stars_of one.now) (star_and (stars_of two.now) (star_and (stars_of three.now) no_star)))) }
{
    let mut row = Vec::new(bump);
    row.push(*one)?;
    row.push(*two)?;
    row.push(*three)?;
    let made = star_row(bump, into_bump_slice(row))?;
    Ok(made)
}

// The stars of a type in the table of primitives; `starred` says whether a star stands before it.
fn table_stars<'a>(
    bump: &'a Bump,
    starred: bool,
    written: &Written,
) -> Result<&'a StarTree<'a>, NoMemory>
    ensures { IfOk result (λ made. stars_of made.now ≡ table_stars starred (written_of written.now)) }
{
    match written {
        Written::Variable(_) | Written::Scalar(_) | Written::Own | Written::From => {
            let made = leaf(bump, starred)?;
            Ok(made)
        }
        Written::Array(_, _) => {
            let made = leaf(bump, starred)?;
            Ok(made)
        }
        Written::Unique(of) => {
            let made = table_stars(bump, true, of)?;
            Ok(made)
        }
        Written::Named(_, of) => {
            let made = table_stars(bump, starred, of)?;
            Ok(made)
        }
        Written::Pair(one, two) => {
            let first = table_stars(bump, starred, one)?;
            let second = table_stars(bump, starred, two)?;
            let made = pair(bump, first, second)?;
            Ok(made)
        }
        Written::Triple(one, two, three) => {
            let first = table_stars(bump, starred, one)?;
            let second = table_stars(bump, starred, two)?;
            let third = table_stars(bump, starred, three)?;
            let made = triple(bump, first, second, third)?;
            Ok(made)
        }
        Written::Function(from, to) => {
            let parameter = table_stars(bump, false, from)?;
            let result = table_stars(bump, false, to)?;
            let made = arrow(bump, starred, parameter, result)?;
            Ok(made)
        }
    }
}

/// The stars of a primitive, off the one table.
pub fn primitive_stars<'a>(
    bump: &'a Bump,
    primitive: Primitive,
) -> Result<&'a StarTree<'a>, NoMemory>
    ensures { IfOk result (λ made. stars_of made.now ≡ primitive_stars primitive) }
{
    let line = line_of(primitive);
    let made = table_stars(bump, false, line.written)?;
    Ok(made)
}
