// What stars say by themselves.
ghost use Rattle.std.specs.Prelude.{◌≡◌};
ghost use Rattle.fut_aliases.specs.Stars.{consumes, has_star, lacks_star, some_consumes, some_has_star, some_lacks_star};
ghost use Rattle.alias_values.specs.Trees.{row_of, stars_of};

use crate::trees::StarTree;

/// Whether some component has a star, outside of functions.
#[cycle(has_star)]
#[tactic(auto, using(crate::proofs::StarForms::has_forms))]
pub fn has_star(stars: &StarTree<'_>) -> bool
    ensures { result ≡ has_star (stars_of stars.now) }
{
    match stars {
        StarTree::Leaf(starred) => *starred,
        StarTree::Arrow(starred, _, _) => *starred,
        StarTree::Row(parts) => some_has_star(parts),
    }
}

#[cycle(has_star)]
#[tactic(auto, using(crate::proofs::StarForms::some_has_forms))]
fn some_has_star(parts: &[StarTree<'_>]) -> bool
    ensures { result ≡ some_has_star (row_of parts.now) }
{
    for part in parts {
        if has_star(part) {
            return true;
        }
    }
    false
}

/// Whether some component lacks a star.
#[cycle(lacks_star)]
#[tactic(auto, using(crate::proofs::StarForms::lacks_forms))]
pub fn lacks_star(stars: &StarTree<'_>) -> bool
    ensures { result ≡ lacks_star (stars_of stars.now) }
{
    match stars {
        StarTree::Leaf(starred) => !*starred,
        StarTree::Arrow(starred, _, _) => !*starred,
        StarTree::Row(parts) => some_lacks_star(parts),
    }
}

#[cycle(lacks_star)]
#[tactic(auto, using(crate::proofs::StarForms::some_lacks_forms))]
fn some_lacks_star(parts: &[StarTree<'_>]) -> bool
    ensures { result ≡ some_lacks_star (row_of parts.now) }
{
    for part in parts {
        if lacks_star(part) {
            return true;
        }
    }
    false
}

/// Whether a parameter of some function has a star.
#[cycle(consumes)]
#[tactic(auto, using(crate::proofs::StarForms::consumes_forms))]
pub fn consumes(stars: &StarTree<'_>) -> bool
    ensures { result ≡ consumes (stars_of stars.now) }
{
    match stars {
        StarTree::Leaf(_) => false,
        StarTree::Arrow(_, from, to) => has_star(from) || consumes(to),
        StarTree::Row(parts) => some_consumes(parts),
    }
}

#[cycle(consumes)]
#[tactic(auto, using(crate::proofs::StarForms::some_consumes_forms))]
fn some_consumes(parts: &[StarTree<'_>]) -> bool
    ensures { result ≡ some_consumes (row_of parts.now) }
{
    for part in parts {
        if consumes(part) {
            return true;
        }
    }
    false
}
