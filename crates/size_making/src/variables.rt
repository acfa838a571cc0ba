// Type variables.
ghost use Rattle.std.specs.Prelude.{◌≡◌};
ghost use Rattle.sized_types.specs.Sizes.{is_variable};
ghost use Rattle.size_arena.specs.Trees.{variable_of};

use size_arena::Variable;

/// Whether two variables are one.
pub(crate) fn same_variable(left: Variable, right: Variable) -> bool
    ensures { result ≡ is_variable (variable_of left) (variable_of right) }
{
    match left {
        Variable::Inferred(one) => matches!(right, Variable::Inferred(other) if one == other),
        Variable::Written(one, _) => matches!(right, Variable::Written(other, _) if one == other),
    }
}
