// Operations on scalars.
ghost use Rattle.std.specs.Prelude.{◌≡◌, ◌<◌, ◌≤◌, ◌^◌, IfOk};
ghost use Rattle.fut_scalar.specs.Integers.{FitsType, integer_of, width_of};
ghost use Rattle.fut_arithmetic.specs.Types.{IsDefined, type_of};
ghost use Rattle.fut_meaning.specs.Accessors.{count_of, or_wrong, truth_of_scalar, turns_of_scalar};
ghost use Rattle.fut_meaning.specs.Operations.{reported};
ghost use Rattle.fut_meaning.specs.Operators.{binary_result, unary_result};
ghost use Rattle.array_data.specs.Held.{held_all};
ghost use Rattle.fut_eval.specs.Answers.{Gives, Tells, Operates, Truth_at, Turns_at};

use crate::equality::compare;
use crate::names::{push, read, scalar_at};
use crate::slots::Slot;
use array_data::{Data, Stop, put_parts};
use array_primitives::operation;
use fut_arithmetic::{convert, unop};
use fut_blocks::{Atom, Operation};
use fut_scalar::{BinOp, FailKind, IntType, Place, Report, Scalar, UnOp};

/// The operation on two scalars.
#[tactic(auto, using(crate::proofs::Scalars::binaries))]
pub fn binary(op: BinOp, at: Place, a: Scalar, b: Scalar) -> Result<Scalar, Stop>
    requires left_fits { FitsType a }
    requires right_fits { FitsType b }
    ensures value { Tells (reported at (binary_result op a b)) result }
    ensures fits { IfOk result FitsType }
{
    match (a, b) {
        (Scalar::Int { ty, bits: _ }, Scalar::Int { ty: other, bits: _ }) => {
            if ty == other {
                operation(op, at, a, b)
            } else {
                Err(Stop::Stuck)
            }
        }
        (Scalar::Bool(_), Scalar::Bool(_)) => match op {
            BinOp::Eq | BinOp::Ne => operation(op, at, a, b),
            _ => Err(Stop::Stuck),
        },
        _ => Err(Stop::Stuck),
    }
}

/// The operation on one scalar.
#[tactic(auto, using(crate::proofs::Scalars::unaries))]
fn unary(op: UnOp, a: Scalar) -> Result<Scalar, Stop>
    requires { FitsType a }
    ensures value { Tells (or_wrong (unary_result op a)) result }
    ensures fits { IfOk result FitsType }
{
    match a {
        Scalar::Int { ty: _, bits: _ } => Ok(unop(op, a)),
        Scalar::Bool(_) => match op {
            UnOp::Not => Ok(unop(op, a)),
            _ => Err(Stop::Stuck),
        },
    }
}

/// Whether a truth value holds.
#[tactic(auto, using(crate::proofs::Scalars::truths))]
pub fn truth(a: Scalar) -> Result<bool, Stop>
    ensures { Tells (truth_of_scalar a) result }
{
    match a {
        Scalar::Bool(b) => Ok(b),
        Scalar::Int { ty: _, bits: _ } => Err(Stop::Stuck),
    }
}

/// The bits where they are below a limit, and else 0.
fn up_to(limit: u64, bits: u64) -> u64
    ensures low { bits < limit → result ≡ bits }
    ensures high { limit ≤ bits → result ≡ 0 }
{
    if bits < limit { bits } else { 0 }
}

/// As many turns as an integer says; one below 0 says none.
fn count_of(ty: IntType, bits: u64) -> u64
    requires { bits < 2 ^ width_of ty }
    ensures value { result ≡ count_of (integer_of ty bits) }
    ensures fits { result < 2 ^ width_of ty }
{
    match ty {
        IntType::I8 => up_to(0x80, bits),
        IntType::I16 => up_to(0x8000, bits),
        IntType::I32 => up_to(0x8000_0000, bits),
        IntType::I64 => up_to(0x8000_0000_0000_0000, bits),
        IntType::U8 | IntType::U16 | IntType::U32 | IntType::U64 => bits,
    }
}

/// An integer's type, and how many turns it says.
#[tactic(auto, using(crate::proofs::Scalars::counts_told))]
fn turns_of(a: Scalar) -> Result<(IntType, u64), Stop>
    requires { FitsType a }
    ensures value { Tells (turns_of_scalar a) result }
    ensures fits { IfOk result (λ c. c.1 < 2 ^ width_of c.0) }
{
    match a {
        Scalar::Int { ty, bits } => Ok((ty, count_of(ty, bits))),
        Scalar::Bool(_) => Err(Stop::Stuck),
    }
}

/// Whether the truth value of an atom holds.
#[tactic(auto, using(crate::proofs::Operations::atoms_told))]
pub fn truth_at(table: &[Slot], atom: Atom) -> Result<bool, Stop>
    ensures { Truth_at (held_all table.now) atom result }
{
    let value = scalar_at(table, atom)?;
    truth(value)
}

/// The type of an atom's integer, and how many turns it says.
#[tactic(auto, using(crate::proofs::Operations::atoms_told))]
pub fn turns_at(table: &[Slot], atom: Atom) -> Result<(IntType, u64), Stop>
    ensures value { Turns_at (held_all table.now) atom result }
    ensures fits { IfOk result (λ c. c.1 < 2 ^ width_of c.0) }
{
    let value = scalar_at(table, atom)?;
    turns_of(value)
}

/// The one scalar that an operation gives, unless it gives none or more, or reads something else than scalars.
#[tactic(auto, using(crate::proofs::Operations::scalar_results))]
pub fn scalar_result(operation: &Operation, table: &[Slot]) -> Result<Option<Scalar>, Stop>
    ensures { Gives (held_all table.now) operation.now result }
{
    match operation {
        Operation::Binary(op, at, a, b) => {
            let Ok(left) = scalar_at(table, *a) else {
                return Ok(None);
            };
            let right = scalar_at(table, *b)?;
            let value = binary(*op, *at, left, right)?;
            Ok(Some(value))
        }
        Operation::Unary(op, a) => {
            let operand = scalar_at(table, *a)?;
            let value = unary(*op, operand)?;
            Ok(Some(value))
        }
        Operation::Convert(to, a) => {
            let operand = scalar_at(table, *a)?;
            Ok(Some(convert(*to, operand)))
        }
        Operation::Assert(_, _) => Ok(None),
        Operation::Parts(_) => Ok(None),
    }
}

/// Puts on the stack what an operation gives.
#[tactic(auto, using(crate::proofs::Operations::operations))]
pub fn operate(operation: Operation, table: &[Slot], stack: &mut Vec<Data>) -> Result<(), Stop>
    ensures { Operates (held_all table.now) operation (held_all stack.old.items) (held_all stack.new.items) result }
{
    if let Some(value) = scalar_result(&operation, table)? {
        return push(stack, Data::Scalar(value));
    }
    match operation {
        Operation::Binary(op, at, a, b) => compare(op, at, a, b, table, stack),
        Operation::Assert(at, a) => {
            if truth_at(table, a)? {
                Ok(())
            } else {
                Err(Stop::Failed(Report {
                    kind: FailKind::Assert,
                    place: at,
                }))
            }
        }
        Operation::Parts(a) => {
            let whole = read(table, a)?;
            put_parts(&whole, stack)
        }
        // These give a scalar, or stop.
        Operation::Unary(_, _) => Err(Stop::Memory),
        Operation::Convert(_, _) => Err(Stop::Memory),
    }
}
