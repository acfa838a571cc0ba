// Compositions of functions: the new names of their parts.
ghost use Rattle.std.specs.Prelude.{◌≡◌};
ghost use Rattle.fut_flat.specs.Sources.{composed_name, left_function, right_function};
ghost use Rattle.elab_exps.specs.Heads.{Gathered};
ghost use Rattle.elab_exps.specs.Lists.{is_then};

use elab_nodes::both::both;
use elab_nodes::rows::Functions;
use elab_scopes::Stop;
use fut_ast::Oper;
use fut_flat::Exp;
use fut_scalar::BindId;

/// The name of the function on the left.
pub fn left_name<'a>() -> &'a str
    ensures { result.now ≡ left_function }
{
    "     "
}

/// The name of the function on the right.
pub fn right_name<'a>() -> &'a str
    ensures { result.now ≡ right_function }
{
    "      "
}

/// The name of what both are applied to.
pub fn argument_name<'a>() -> &'a str
    ensures { result.now ≡ composed_name }
{
    "       "
}

/// Whether the left function of a composition is applied first.
pub fn is_left_first(op: Oper) -> bool
    ensures { result ≡ is_then op }
{
    match op {
        Oper::Then => true,
        Oper::After => false,
        Oper::Neg => false,
        Oper::Not => false,
        Oper::Bin(_) => false,
    }
}

/// What a composition is made of.
pub fn functions<'a>(
    left: Result<BindId, Stop<'a>>,
    left_function: Result<&'a Exp<'a>, Stop<'a>>,
    right: Result<BindId, Stop<'a>>,
    right_function: Result<&'a Exp<'a>, Stop<'a>>,
    argument: Result<BindId, Stop<'a>>,
) -> Result<Functions<'a>, Stop<'a>>
    ensures { Gathered left.entry left_function.entry right.entry right_function.entry argument.entry result }
{
    let on_left = both(left, left_function);
    let on_right = both(right, right_function);
    match both(on_left, both(on_right, argument)) {
        Ok(((left, left_function), ((right, right_function), argument))) => Ok(Functions {
            left,
            left_function,
            right,
            right_function,
            argument,
        }),
        Err(stop) => Err(stop),
    }
}
