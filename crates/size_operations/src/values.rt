// Terms that a size may name.
ghost use Rattle.std.specs.Prelude.{◌≡◌};
ghost use Rattle.fut_flat.specs.Erased.{term_of};
ghost use Rattle.fut_sizes.specs.Agreeing.{fits_i64};
ghost use Rattle.fut_sizes.specs.Applications.{is_use, named_value};
ghost use Rattle.fut_sizes.specs.Operations.{is_literal, value_of};
ghost use Rattle.size_arena.specs.Trees.{free_of};
ghost use Rattle.size_operations.specs.Values.{fitting, free_held, plain_value};

use fut_flat::{Act, Exp, Form, Ref};
use size_arena::{Free, same_free};

/// The name or the constant that a term is.
#[tactic(auto, using(crate::proofs::ValueForms::values))]
fn plain_value(exp: &Exp<'_>) -> Option<Free>
    ensures { free_held result ≡ plain_value (term_of exp.now) }
{
    match &exp.form {
        Form::Use(name, _) => match name {
            Ref::Bound(bind) => Some(Free::Name(bind.0)),
            Ref::Prim(_) => None,
            Ref::Scalar(_) => None,
        },
        Form::Strict { act, parts, .. } => match act {
            Act::Int { value, .. } => {
                if parts.len() == 0 {
                    Some(Free::Const(*value))
                } else {
                    None
                }
            }
            _ => None,
        },
        Form::Lets(row, body) => {
            if row.len() == 0 {
                plain_value(body)
            } else {
                None
            }
        }
        Form::Lambda(_, _) => None,
        Form::Apply(_, _) => None,
        Form::If(_, _, _) => None,
        Form::Loop(_) => None,
    }
}

/// Whether an `i64` holds a constant.
fn fits_i64(value: u64) -> bool
    ensures { result ≡ fits_i64 value }
{
    value < 9223372036854775808
}

/// A name, or a constant that an `i64` holds.
#[tactic(auto, using(crate::proofs::ValueForms::fits))]
fn fitting(free: Free) -> Option<Free>
    ensures { free_held result ≡ fitting (free_of free) }
{
    match free {
        Free::Const(value) => { if fits_i64(value) { Some(free) } else { None } }
        Free::Name(_) => Some(free),
        Free::Own(_, _) => Some(free),
        Free::Unknown(_, _) => Some(free),
        Free::Slot(_) => Some(free),
    }
}

/// The value of a term as a size, if it is a name or a constant that an `i64` holds.
#[tactic(auto, using(crate::proofs::ValueForms::named))]
pub fn named_value(exp: &Exp<'_>) -> Option<Free>
    ensures { free_held result ≡ named_value (term_of exp.now) }
{
    match plain_value(exp) {
        Some(free) => fitting(free),
        None => None,
    }
}

/// The size that a term names: a name or a constant that an `i64` holds, else the unknown of a node with this number.
#[tactic(auto, using(crate::proofs::ValueForms::sizes))]
pub fn value_of(exp: &Exp<'_>, node: u32, number: u32) -> Free
    ensures { free_of result ≡ value_of node number (term_of exp.now) }
{
    match named_value(exp) {
        Some(free) => free,
        None => Free::Unknown(node, number),
    }
}

/// Whether a term is this constant.
#[tactic(auto, using(crate::proofs::ValueForms::literals))]
pub fn is_literal(exp: &Exp<'_>, value: u64) -> bool
    ensures { result ≡ is_literal value (term_of exp.now) }
{
    match plain_value(exp) {
        Some(free) => same_free(Free::Const(value), free),
        None => false,
    }
}

/// Whether a term is the use of a name.
#[tactic(auto, using(crate::proofs::ValueForms::uses))]
pub fn is_use(exp: &Exp<'_>) -> bool
    ensures { result ≡ is_use (term_of exp.now) }
{
    match &exp.form {
        Form::Use(_, _) => true,
        Form::Lets(row, body) => { if row.len() == 0 { is_use(body) } else { false } }
        Form::Strict { .. } => false,
        Form::Lambda(_, _) => false,
        Form::Apply(_, _) => false,
        Form::If(_, _, _) => false,
        Form::Loop(_) => false,
    }
}
