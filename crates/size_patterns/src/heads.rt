// The size names of a head.
ghost use Rattle.std.specs.Prelude.{◌≡◌, IfOk};
ghost use Rattle.fut_flat.specs.Erased.{term_of};
ghost use Rattle.fut_sizes.specs.Scopes.{Scope, i64_size};
ghost use Rattle.fut_sizes.specs.Sizing.{has_parameters, none_left, with_head};
ghost use Rattle.fut_types.specs.Types.{Sub};
ghost use Rattle.fut_typing.specs.Names.{Names};
ghost use Rattle.size_arena.specs.Trees.{size_of};
ghost use Rattle.size_patterns.specs.Heads.{Done, with_numbers};
ghost use Rattle.size_program.specs.Answers.{Answers};
ghost use Rattle.size_program.specs.Tables.{In_scope};

use bumpalo::Bump;
use fut_flat::{Exp, Form};
use fut_scalar::{IntType, NoMemory, ScalarType};
use fut_types::Head;
use size_arena::{Refusal, SizeErr, SizeTree, built};
use size_program::{NumberMap, with_name};

/// The sized type of a size.
#[tactic(auto, using(crate::proofs::HeadForms::sizes))]
fn size_type<'a>(bump: &'a Bump) -> Result<&'a SizeTree<'a>, NoMemory>
    ensures { IfOk result (λ made. size_of made.now ≡ i64_size) }
{
    built(bump, Head::Scalar(ScalarType::Int(IntType::I64)), &[])
}

// The names known so far.
#[derive(Clone, Copy)]
struct Inside<'a> {
    names: &'a NumberMap<'a>,
}

/// What is known where the names of these numbers are sizes.
pub(crate) fn with_numbers<'a>(
    numbers: &[u32],
    names: &'a NumberMap<'a>,
    bump: &'a Bump,
) -> Result<&'a NumberMap<'a>, NoMemory>
    ensures { (scope : Scope) → In_scope names.now scope → IfOk result (λ made. In_scope made.now (with_numbers numbers.now scope)) }
{
    if numbers.is_empty() {
        return Ok(names);
    }
    let size = size_type(bump)?;
    let mut inside = Inside { names };
    for number in numbers {
        let names = with_name(*number, size, inside.names, bump)?;
        inside = Inside { names };
    }
    Ok(inside.names)
}

/// What is known inside a definition whose head binds these size names.
#[tactic(auto, using(crate::proofs::HeadForms::heads))]
pub fn with_head<'a>(
    heads: &[u32],
    names: &'a NumberMap<'a>,
    bump: &'a Bump,
) -> Result<&'a NumberMap<'a>, NoMemory>
    ensures { (N : Names) (types : Sub) (scope : Scope) → In_scope names.now scope → IfOk result (λ made. In_scope made.now (with_head N types heads.now scope)) }
{
    with_numbers(heads, names, bump)
}

/// Whether no size name is left.
#[tactic(auto, using(crate::proofs::HeadForms::lefts))]
fn none_left(heads: &[u32], node: u32) -> Result<(), SizeErr>
    ensures { (N : Names) (types : Sub) → Answers Done (none_left N types node heads.now) result }
{
    if heads.is_empty() {
        Ok(())
    } else {
        Err(SizeErr::Refused(Refusal::Escapes(node)))
    }
}

/// Whether the size names of a head have parameters that choose them: the value is a lambda.
///
/// `Err`: it is none, and there is a size name.
#[tactic(auto, using(crate::proofs::HeadForms::has))]
pub fn has_parameters(heads: &[u32], value: &Exp<'_>, node: u32) -> Result<(), SizeErr>
    ensures { (N : Names) (types : Sub) → Answers Done (has_parameters N types heads.now (term_of value.now) node) result }
{
    match value.form {
        Form::Lambda(_, _) => Ok(()),
        Form::Lets(row, body) => {
            if row.is_empty() {
                has_parameters(heads, body, node)
            } else {
                none_left(heads, node)
            }
        }
        Form::Use(_, _) => none_left(heads, node),
        Form::Strict { .. } => none_left(heads, node),
        Form::Apply(_, _) => none_left(heads, node),
        Form::If(_, _, _) => none_left(heads, node),
        Form::Loop(_) => none_left(heads, node),
    }
}
