// Parameters.
ghost use Rattle.std.specs.Prelude.{◌≡◌};
ghost use Rattle.fut_flat.specs.Erased.{pattern_of};
ghost use Rattle.fut_sizes.specs.Functions.{value_name};

use fut_flat::{Pat, PatForm};
use size_arena::SizeTree;

/// A parameter of a function: its pattern, its node, and its sized type inside the function.
#[derive(Clone, Copy)]
pub struct Taking<'a> {
    pub pattern: &'a Pat<'a>,
    pub node: u32,
    pub size: &'a SizeTree<'a>,
}

/// The name that is the argument's value: that of a parameter which is a name alone, whether or not its type is written.
#[tactic(auto, using(crate::proofs::TakingForms::named))]
pub fn value_name(pattern: &Pat<'_>) -> Option<u32>
    ensures { result ≡ value_name (pattern_of pattern.now) }
{
    match pattern.form {
        PatForm::Bound(bind) => Some(bind.0),
        PatForm::Wild => None,
        PatForm::Tuple(_) => None,
        PatForm::Record(_) => None,
        PatForm::Typed(inner, _) => value_name(inner),
    }
}
