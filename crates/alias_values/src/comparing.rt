// Whether a function may stand where another is wanted.
ghost use Rattle.std.specs.Prelude.{◌≡◌};
ghost use Rattle.fut_aliases.specs.Stars.{adds_star, consumed_more, consumes_more, given_less, gives_less, some_adds_star, some_consumed_more, some_consumes_more, some_given_less, some_gives_less};
ghost use Rattle.alias_values.specs.Trees.{row_of, stars_of};

use crate::stars::{consumes, has_star, lacks_star};
use crate::trees::StarTree;

/// Whether some component has a star in the second alone.
#[cycle(adds_star)]
#[tactic(auto, using(crate::proofs::CompareForms::adds_forms))]
pub fn adds_star(wanted: &StarTree<'_>, found: &StarTree<'_>) -> bool
    ensures { result ≡ adds_star (stars_of wanted.now) (stars_of found.now) }
{
    match wanted {
        StarTree::Leaf(starred) => !*starred && has_star(found),
        StarTree::Arrow(starred, _, _) => !*starred && has_star(found),
        StarTree::Row(parts) => match found {
            StarTree::Leaf(added) => lacks_star(wanted) && *added,
            StarTree::Arrow(added, _, _) => lacks_star(wanted) && *added,
            StarTree::Row(others) => some_adds_star(parts, others),
        },
    }
}

#[cycle(adds_star)]
#[tactic(auto, using(crate::proofs::CompareForms::some_adds_forms))]
fn some_adds_star(wanted: &[StarTree<'_>], found: &[StarTree<'_>]) -> bool
    ensures { result ≡ some_adds_star (row_of wanted.now) (row_of found.now) }
{
    for i in 0..wanted.len() {
        if i >= found.len() {
            return false;
        }
        if adds_star(&wanted[i], &found[i]) {
            return true;
        }
    }
    false
}

/// Whether a function of the second consumes more than is wanted.
#[cycle(consumes_more)]
#[tactic(auto, using(crate::proofs::CompareForms::consumes_more_forms))]
pub fn consumes_more(wanted: &StarTree<'_>, found: &StarTree<'_>) -> bool
    ensures { result ≡ consumes_more (stars_of wanted.now) (stars_of found.now) }
{
    match wanted {
        StarTree::Leaf(_) => consumes(found),
        StarTree::Arrow(_, from, to) => match found {
            StarTree::Leaf(_) => consumes(found),
            StarTree::Arrow(_, taken, given) => {
                adds_star(from, taken) || consumed_more(from, taken) || consumes_more(to, given)
            }
            StarTree::Row(_) => consumes(found),
        },
        StarTree::Row(parts) => match found {
            StarTree::Leaf(_) => consumes(found),
            StarTree::Arrow(_, _, _) => consumes(found),
            StarTree::Row(others) => some_consumes_more(parts, others),
        },
    }
}

#[cycle(consumes_more)]
#[tactic(auto, using(crate::proofs::CompareForms::some_consumes_more_forms))]
fn some_consumes_more(wanted: &[StarTree<'_>], found: &[StarTree<'_>]) -> bool
    ensures { result ≡ some_consumes_more (row_of wanted.now) (row_of found.now) }
{
    for i in 0..wanted.len() {
        if i >= found.len() {
            return false;
        }
        if consumes_more(&wanted[i], &found[i]) {
            return true;
        }
    }
    false
}

// The other way round, where functions are taken.
#[cycle(consumes_more)]
#[tactic(auto, using(crate::proofs::CompareForms::consumed_more_forms))]
fn consumed_more(wanted: &StarTree<'_>, found: &StarTree<'_>) -> bool
    ensures { result ≡ consumed_more (stars_of wanted.now) (stars_of found.now) }
{
    match wanted {
        StarTree::Leaf(_) => consumes(wanted),
        StarTree::Arrow(_, from, to) => match found {
            StarTree::Leaf(_) => consumes(wanted),
            StarTree::Arrow(_, taken, given) => {
                adds_star(taken, from) || consumes_more(from, taken) || consumed_more(to, given)
            }
            StarTree::Row(_) => consumes(wanted),
        },
        StarTree::Row(parts) => match found {
            StarTree::Leaf(_) => consumes(wanted),
            StarTree::Arrow(_, _, _) => consumes(wanted),
            StarTree::Row(others) => some_consumed_more(parts, others),
        },
    }
}

#[cycle(consumes_more)]
#[tactic(auto, using(crate::proofs::CompareForms::some_consumed_more_forms))]
fn some_consumed_more(wanted: &[StarTree<'_>], found: &[StarTree<'_>]) -> bool
    ensures { result ≡ some_consumed_more (row_of wanted.now) (row_of found.now) }
{
    for i in 0..wanted.len() {
        if i >= found.len() {
            return false;
        }
        if consumed_more(&wanted[i], &found[i]) {
            return true;
        }
    }
    false
}

/// Whether a function of the second gives less that is fresh than is wanted.
#[cycle(gives_less)]
#[tactic(auto, using(crate::proofs::CompareForms::gives_less_forms))]
pub fn gives_less(wanted: &StarTree<'_>, found: &StarTree<'_>) -> bool
    ensures { result ≡ gives_less (stars_of wanted.now) (stars_of found.now) }
{
    match wanted {
        StarTree::Leaf(_) => false,
        StarTree::Arrow(_, from, to) => match found {
            StarTree::Leaf(_) => false,
            StarTree::Arrow(_, taken, given) => {
                adds_star(given, to) || given_less(from, taken) || gives_less(to, given)
            }
            StarTree::Row(_) => false,
        },
        StarTree::Row(parts) => match found {
            StarTree::Leaf(_) => false,
            StarTree::Arrow(_, _, _) => false,
            StarTree::Row(others) => some_gives_less(parts, others),
        },
    }
}

#[cycle(gives_less)]
#[tactic(auto, using(crate::proofs::CompareForms::some_gives_less_forms))]
fn some_gives_less(wanted: &[StarTree<'_>], found: &[StarTree<'_>]) -> bool
    ensures { result ≡ some_gives_less (row_of wanted.now) (row_of found.now) }
{
    for i in 0..wanted.len() {
        if i >= found.len() {
            return false;
        }
        if gives_less(&wanted[i], &found[i]) {
            return true;
        }
    }
    false
}

// The other way round, where functions are taken.
#[cycle(gives_less)]
#[tactic(auto, using(crate::proofs::CompareForms::given_less_forms))]
fn given_less(wanted: &StarTree<'_>, found: &StarTree<'_>) -> bool
    ensures { result ≡ given_less (stars_of wanted.now) (stars_of found.now) }
{
    match wanted {
        StarTree::Leaf(_) => false,
        StarTree::Arrow(_, from, to) => match found {
            StarTree::Leaf(_) => false,
            StarTree::Arrow(_, taken, given) => {
                adds_star(to, given) || gives_less(from, taken) || given_less(to, given)
            }
            StarTree::Row(_) => false,
        },
        StarTree::Row(parts) => match found {
            StarTree::Leaf(_) => false,
            StarTree::Arrow(_, _, _) => false,
            StarTree::Row(others) => some_given_less(parts, others),
        },
    }
}

#[cycle(gives_less)]
#[tactic(auto, using(crate::proofs::CompareForms::some_given_less_forms))]
fn some_given_less(wanted: &[StarTree<'_>], found: &[StarTree<'_>]) -> bool
    ensures { result ≡ some_given_less (row_of wanted.now) (row_of found.now) }
{
    for i in 0..wanted.len() {
        if i >= found.len() {
            return false;
        }
        if given_less(&wanted[i], &found[i]) {
            return true;
        }
    }
    false
}
