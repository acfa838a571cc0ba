// Arguments and the stars of their parameters.
ghost use Rattle.std.specs.Prelude.{◌≡◌, IfOk};
ghost use Rattle.fut_aliases.specs.Calls.{given, left_by, given_to, stars_behind, stars_of as function_stars, type_behind};
ghost use Rattle.fut_aliases.specs.Stars.{no_stars};
ghost use Rattle.alias_values.specs.Trees.{stars_of, type_of, value_of};
ghost use Rattle.uniqueness.specs.Held.{helds_of};
ghost use Rattle.alias_applications.specs.Givens.{givens_of, is_fun, next_parameter, next_stars, next_type};

use alias_program::no_alias;
use alias_types::left;
use alias_values::{StarTree, TypeTree, ValueTree, leaf, union};
use bumpalo::Bump;
use bumpalo::collections::into_bump_slice;
use fut_aliases::Alias;
use fut_scalar::NoMemory;
use fut_types::Head;
use uniqueness::{Held, aliases};

/// An argument, and the stars of its parameter.
#[derive(Clone, Copy)]
pub struct Given<'a> {
    pub argument: Held<'a>,
    pub stars: &'a StarTree<'a>,
}

// The stars behind the arguments so far.
#[derive(Clone, Copy)]
struct Rest<'a> {
    stars: &'a StarTree<'a>,
}

/// The stars of a function.
#[tactic(auto, using(crate::proofs::GivenForms::function_forms))]
pub fn function_stars<'a>(
    bump: &'a Bump,
    value: &ValueTree<'a>,
) -> Result<&'a StarTree<'a>, NoMemory>
    ensures { IfOk result (λ stars. stars_of stars.now ≡ function_stars (value_of value.now)) }
{
    match value {
        ValueTree::Function(_, stars) => Ok(*stars),
        ValueTree::Scalar | ValueTree::Array(_) | ValueTree::Parts(_, _) => {
            let none = leaf(bump, false)?;
            Ok(none)
        }
    }
}

// The stars of the next parameter; none where there is no parameter.
#[tactic(auto, using(crate::proofs::GivenForms::arrow_forms))]
fn next_parameter<'a>(stars: &'a StarTree<'a>, none: &'a StarTree<'a>) -> &'a StarTree<'a>
    requires none { stars_of none.now ≡ no_stars }
    ensures { stars_of result.now ≡ next_parameter (stars_of stars.now) }
{
    match stars {
        StarTree::Arrow(_, parameter, _) => parameter,
        StarTree::Leaf(_) | StarTree::Row(_) => none,
    }
}

// The stars behind the next argument.
#[tactic(auto, using(crate::proofs::GivenForms::arrow_forms))]
fn next_stars<'a>(stars: &'a StarTree<'a>) -> &'a StarTree<'a>
    ensures { stars_of result.now ≡ next_stars (stars_of stars.now) }
{
    match stars {
        StarTree::Arrow(_, _, rest) => rest,
        StarTree::Leaf(_) | StarTree::Row(_) => stars,
    }
}

/// The stars behind all arguments.
#[tactic(auto, using(crate::proofs::GivenForms::behind_forms))]
pub fn stars_behind<'a>(arguments: &[Held<'_>], stars: &'a StarTree<'a>) -> &'a StarTree<'a>
    ensures { stars_of result.now ≡ stars_behind (helds_of arguments.now) (stars_of stars.now) }
{
    let mut rest = stars;
    for _i in 0..arguments.len() {
        rest = next_stars(rest);
    }
    rest
}

fn is_fun(head: Head) -> bool
    ensures { result ≡ is_fun head }
{
    match head {
        Head::Fun => true,
        Head::Scalar(_)
        | Head::Array
        | Head::Tuple
        | Head::Record(_)
        | Head::Rigid(_, _)
        | Head::Abstract(_, _) => false,
    }
}

// The type behind the next argument.
#[tactic(auto, using(crate::proofs::GivenForms::type_steps))]
fn next_type<'a>(ty: &'a TypeTree<'a>) -> &'a TypeTree<'a>
    ensures { type_of result.now ≡ next_type (type_of ty.now) }
{
    match ty {
        TypeTree::Made(head, types) => {
            if !is_fun(*head) {
                return ty;
            }
            if types.len() != 2 {
                return ty;
            }
            &types[1]
        }
        TypeTree::Var(_) => ty,
    }
}

/// The type behind all arguments.
#[tactic(auto, using(crate::proofs::GivenForms::type_behind_forms))]
pub fn type_behind<'a>(arguments: &[Held<'_>], ty: &'a TypeTree<'a>) -> &'a TypeTree<'a>
    ensures { type_of result.now ≡ type_behind (helds_of arguments.now) (type_of ty.now) }
{
    let mut rest = ty;
    for _i in 0..arguments.len() {
        rest = next_type(rest);
    }
    rest
}

/// The arguments of a function of these stars, each with those of its parameter.
#[tactic(auto, using(crate::proofs::GivenForms::given_forms))]
pub fn all_given<'a>(
    bump: &'a Bump,
    arguments: &[Held<'a>],
    stars: &'a StarTree<'a>,
) -> Result<&'a [Given<'a>], NoMemory>
    ensures { IfOk result (λ all. givens_of all.now ≡ given (helds_of arguments.now) (stars_of stars.now)) }
{
    let none = leaf(bump, false)?;
    let mut all = Vec::new(bump);
    let mut rest = Rest { stars };
    for i in 0..arguments.len() {
        all.push(Given {
            argument: arguments[i],
            stars: next_parameter(rest.stars, none),
        })?;
        let behind = next_stars(rest.stars);
        rest = Rest { stars: behind };
    }
    Ok(into_bump_slice(all))
}

/// What is left of the arguments of a call.
#[tactic(auto, using(crate::proofs::GivenForms::left_forms))]
pub fn left_by<'a>(bump: &'a Bump, all: &[Given<'_>]) -> Result<&'a [Alias], NoMemory>
    ensures { IfOk result (λ set. set.now ≡ left_by (givens_of all.now)) }
{
    let mut set = no_alias(bump);
    let mut i = all.len();
    'arguments: while i > 0 {
        i -= 1;
        let one = left(bump, all[i].stars, all[i].argument.value)?;
        set = union(bump, one, set)?;
    }
    Ok(set)
}

/// All that arguments may share memory with.
#[tactic(auto, using(crate::proofs::GivenForms::given_to_forms))]
pub fn given_to<'a>(bump: &'a Bump, arguments: &[Held<'_>]) -> Result<&'a [Alias], NoMemory>
    ensures { IfOk result (λ set. set.now ≡ given_to (helds_of arguments.now)) }
{
    let mut set = no_alias(bump);
    let mut i = arguments.len();
    'arguments: while i > 0 {
        i -= 1;
        let one = aliases(bump, arguments[i].value)?;
        set = union(bump, one, set)?;
    }
    Ok(set)
}
