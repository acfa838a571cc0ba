// Names that are used, and operators.
ghost use Rattle.std.specs.Prelude.{◌≡◌};
ghost use Rattle.fut_flat.specs.Erased.{operation_of};
ghost use Rattle.fut_flat.specs.Sources.{is_before, names_before, negated, spelled};
ghost use Rattle.fut_flat.specs.Terms.{Use};
ghost use Rattle.fut_tree.specs.Names.{names as texts_of};
ghost use Rattle.elab_nodes.specs.Held.{held_term};
ghost use Rattle.elab_scopes.specs.Answers.{Went};
ghost use Rattle.elab_scopes.specs.Resolve.{resolve};
ghost use Rattle.elab_exps.specs.Lists.{operation_in};
ghost use Rattle.elab_exps.specs.Order.{is_named, is_turned};
ghost use Rattle.elab_exps.specs.Plain.{Plain};

use bumpalo::Bump;
use elab_nodes::uses;
use elab_scopes::{Names, Stop, value_of};
use fut_ast::Oper;
use fut_flat::{Act, Exp};
use fut_scalar::{BinOp, Place};
use fut_tree::{Exp as SourceExp, Form};

/// A name that is used, and the fields that are left of its path.
#[tactic(auto, using(crate::proofs::UseLaws::use_rules))]
pub fn used<'a>(
    path: &'a [&'a str],
    at: Place,
    bump: &'a Bump,
    names: &Names<'a>,
) -> Result<&'a Exp<'a>, Stop<'a>>
    ensures { Went held_term (resolve (Use (spelled (texts_of path.now) at) at (names_before (texts_of path.now)))) names.now names.now result }
{
    match value_of(names, path, at) {
        Ok(found) => match found.modules(path) {
            Ok(modules) => uses::path(bump, at, found.names, modules, found.fields),
            Err(_) => Err(Stop::Memory),
        },
        Err(refusal) => Err(Stop::Refused(refusal)),
    }
}

/// The operation of an operator between two operands, and nothing for a composition of functions.
pub fn operator(op: Oper) -> Option<BinOp>
    ensures { result ≡ operation_in op }
{
    match op {
        Oper::Bin(op) => Some(op),
        Oper::Neg => None,
        Oper::Not => None,
        Oper::Then => None,
        Oper::After => None,
    }
}

/// An operator before its operand.
#[tactic(auto, using(crate::proofs::StrictLaws::plain_rules))]
pub fn negation<'a>(op: Oper) -> Act<'a>
    ensures { Plain (negated op) (operation_of result) }
{
    match op {
        Oper::Neg => Act::Negate,
        Oper::Not => Act::Complement,
        Oper::Bin(_) => Act::Complement,
        Oper::Then => Act::Complement,
        Oper::After => Act::Complement,
    }
}

/// Which of two places of a file comes first.
fn is_before(left: Place, right: Place) -> bool
    ensures { result ≡ is_before left right }
{
    left.line < right.line || left.line == right.line && left.column < right.column
}

/// Whether an expression is the use of a name.
#[tactic(auto, using(crate::proofs::OrderLaws::name_held))]
fn is_name(exp: &SourceExp<'_>) -> bool
    ensures { result ≡ is_named exp.now }
{
    match exp.form {
        Form::Path(_) => true,
        Form::Lets([], body) => is_name(body),
        _ => false,
    }
}

/// Whether a function is a name that stands behind its argument, as one in backticks.
#[tactic(auto, using(crate::proofs::OrderLaws::turned_held))]
pub fn is_behind(function: &SourceExp<'_>, argument: &SourceExp<'_>) -> bool
    ensures { result ≡ is_turned function.now argument.now }
{
    is_name(function) && is_before(argument.place, function.place)
}
