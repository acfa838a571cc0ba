// Which function of the walk an expression goes to.
ghost use Rattle.std.specs.Prelude.{◌≡◌};
ghost use Rattle.elab_exps.specs.Groups.{group_of};

use fut_tree::{Exp, Form};

/// The functions of the walk, by the forms that each takes.
#[derive(Clone, Copy)]
pub enum Group {
    /// Names, and what is applied.
    Applying,
    /// Choices, and assertions.
    Choosing,
    /// What binds names for a part.
    Binding,
    /// Operators between two operands.
    Joining,
    Looping,
    /// Expressions with a written type.
    Typed,
    /// Records and indices.
    Gathering,
    /// Other operations on parts that are evaluated one after another.
    Operating,
}

/// The function that an expression goes to.
#[tactic(auto, using(crate::proofs::Grouping::group_held))]
pub fn taken_by<'a>(exp: &'a Exp<'a>) -> Group
    ensures { result ≡ group_of exp.now }
{
    match exp.form {
        Form::Path(_) | Form::Apply(_, _) => Group::Applying,
        Form::If(_, _, _) | Form::Assert(_, _) => Group::Choosing,
        Form::Lambda(_, _, _) | Form::Lets(_, _) => Group::Binding,
        Form::Binary(_, _, _) => Group::Joining,
        Form::Loop(_, _, _, _, _) => Group::Looping,
        Form::Ascribe(_, _) | Form::Coerce(_, _) => Group::Typed,
        Form::Int { .. } | Form::Bool(_) | Form::Unit => Group::Operating,
        Form::Record(_) | Form::Index(_, _) => Group::Gathering,
        Form::Tuple(_) | Form::Array(_) | Form::Update(_, _, _) => Group::Operating,
        Form::Unary(_, _) | Form::Field(_, _) | Form::Replace(_, _, _) => Group::Operating,
        Form::Range { .. } => Group::Operating,
    }
}
