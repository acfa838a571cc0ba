// The nodes of trees.
ghost use Rattle.std.specs.Prelude.{◌≡◌, IfOk};
ghost use Rattle.fut_aliases.specs.Stars.{Arrow, Leaf, Row};
ghost use Rattle.fut_aliases.specs.Values.{Array, Function, Parts, Scalar};
ghost use Rattle.alias_values.specs.Trees.{row_of, stars_of, value_of, values_of};

use crate::trees::{StarTree, ValueTree};
use bumpalo::Bump;
use fut_aliases::Alias;
use fut_scalar::NoMemory;
use fut_types::Head;

/// One star, or none, for all components below.
pub fn leaf<'a>(bump: &'a Bump, starred: bool) -> Result<&'a StarTree<'a>, NoMemory>
    ensures { IfOk result (λ made. stars_of made.now ≡ Leaf starred) }
{
    match bump.try_alloc(StarTree::Leaf(starred)) {
        Ok(made) => Ok(made),
        Err(_) => Err(NoMemory),
    }
}

/// A function.
pub fn arrow<'a>(
    bump: &'a Bump,
    starred: bool,
    from: &'a StarTree<'a>,
    to: &'a StarTree<'a>,
) -> Result<&'a StarTree<'a>, NoMemory>
    ensures { IfOk result (λ made. stars_of made.now ≡ Arrow starred (stars_of from.now) (stars_of to.now)) }
{
    match bump.try_alloc(StarTree::Arrow(starred, from, to)) {
        Ok(made) => Ok(made),
        Err(_) => Err(NoMemory),
    }
}

/// A tuple or a record.
pub fn star_row<'a>(bump: &'a Bump, parts: &'a [StarTree<'a>]) -> Result<&'a StarTree<'a>, NoMemory>
    ensures { IfOk result (λ made. stars_of made.now ≡ Row (row_of parts.now)) }
{
    match bump.try_alloc(StarTree::Row(parts)) {
        Ok(made) => Ok(made),
        Err(_) => Err(NoMemory),
    }
}

/// A scalar.
pub fn scalar<'a>(bump: &'a Bump) -> Result<&'a ValueTree<'a>, NoMemory>
    ensures { IfOk result (λ made. value_of made.now ≡ Scalar) }
{
    match bump.try_alloc(ValueTree::Scalar) {
        Ok(made) => Ok(made),
        Err(_) => Err(NoMemory),
    }
}

/// An array, or what a type variable stands for.
pub fn array<'a>(bump: &'a Bump, set: &'a [Alias]) -> Result<&'a ValueTree<'a>, NoMemory>
    ensures { IfOk result (λ made. value_of made.now ≡ Array set.now) }
{
    match bump.try_alloc(ValueTree::Array(set)) {
        Ok(made) => Ok(made),
        Err(_) => Err(NoMemory),
    }
}

/// A function.
pub fn function<'a>(
    bump: &'a Bump,
    set: &'a [Alias],
    stars: &'a StarTree<'a>,
) -> Result<&'a ValueTree<'a>, NoMemory>
    ensures { IfOk result (λ made. value_of made.now ≡ Function set.now (stars_of stars.now)) }
{
    match bump.try_alloc(ValueTree::Function(set, stars)) {
        Ok(made) => Ok(made),
        Err(_) => Err(NoMemory),
    }
}

/// A tuple or a record.
pub fn parts<'a>(
    bump: &'a Bump,
    head: Head,
    values: &'a [ValueTree<'a>],
) -> Result<&'a ValueTree<'a>, NoMemory>
    ensures { IfOk result (λ made. value_of made.now ≡ Parts head (values_of values.now)) }
{
    match bump.try_alloc(ValueTree::Parts(head, values)) {
        Ok(made) => Ok(made),
        Err(_) => Err(NoMemory),
    }
}
