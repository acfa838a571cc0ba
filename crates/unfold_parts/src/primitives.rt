// Primitives, and the arguments that they have.
ghost use Rattle.std.specs.Prelude.{◌≡◌, ◌++◌, ◌∷◌, [], IfErr, IfOk, map};
ghost use Rattle.fut_blocks.specs.declared.block.Atom.TheVariants as atom;
ghost use Rattle.fut_flat.specs.declared.prim.Primitive.TheVariants as prim;
ghost use Rattle.fut_meaning.specs.Operations.{arity, is_of_scalars};
ghost use Rattle.fut_meaning.specs.Operators.{highest, lowest};
ghost use Rattle.fut_scalar.specs.Integers.{width_of};
ghost use Rattle.fut_scalar.specs.declared.scalar.Scalar.TheVariants as scalar;
ghost use Rattle.unfold.specs.Held.{known_of};
ghost use Rattle.unfold.specs.Knowns.{Scalar_known, knowns};
ghost use Rattle.unfold_parts.specs.Answers.{Applied_primitive, Operated_primitive, Primitive_used};
ghost use Rattle.unfold_parts.specs.declared.refusal.Refusal.TheVariants as refusal;
ghost use Rattle.unfold_parts.specs.States.{steps_of};

use crate::parts::one_scalar;
use crate::refusal::Refusal;
use crate::stepped::{binary, computed, unary};
use crate::steps::Unfolding;
use bumpalo::Bump;
use bumpalo::collections::into_bump_slice;
use fut_blocks::{Atom, Operation};
use fut_flat::Primitive;
use fut_primitives::line_of;
use fut_scalar::{BinOp, IntType, Place, Scalar, ScalarType, UnOp};
use std::slice;
use unfold::{Known, KnownForm};

fn lowest(ty: IntType) -> u64
    ensures { result ≡ lowest ty }
{
    match ty {
        IntType::I8 => 128,
        IntType::I16 => 32768,
        IntType::I32 => 2147483648,
        IntType::I64 => 9223372036854775808,
        IntType::U8 | IntType::U16 | IntType::U32 | IntType::U64 => 0,
    }
}

fn highest(ty: IntType) -> u64
    ensures { result ≡ highest ty }
{
    match ty {
        IntType::I8 => 127,
        IntType::I16 => 32767,
        IntType::I32 => 2147483647,
        IntType::I64 => 9223372036854775807,
        IntType::U8 => 255,
        IntType::U16 => 65535,
        IntType::U32 => 4294967295,
        IntType::U64 => 18446744073709551615,
    }
}

fn width(ty: IntType) -> u64
    ensures { result ≡ width_of ty }
{
    match ty {
        IntType::I8 | IntType::U8 => 8,
        IntType::I16 | IntType::U16 => 16,
        IntType::I32 | IntType::U32 => 32,
        IntType::I64 | IntType::U64 => 64,
    }
}

#[tactic(auto, using(unfold::proofs::Mirror::known_scalar))]
fn constant<'a>(ty: IntType, bits: u64) -> Known<'a>
    ensures { known_of result ≡ Scalar_known (atom.Constant (scalar.Int ty bits)) }
{
    Known {
        form: KnownForm::Scalar(Atom::Constant(Scalar::Int { ty, bits })),
    }
}

/// What the use of a primitive is.
#[tactic(auto, using(crate::proofs::Using::primitives_used))]
pub fn use_of_primitive<'a>(primitive: Primitive, place: Place) -> Known<'a>
    ensures { Primitive_used primitive place (known_of result) }
{
    match primitive {
        Primitive::Lowest(ty) => constant(ty, lowest(ty)),
        Primitive::Highest(ty) => constant(ty, highest(ty)),
        Primitive::NumBits(ty) => constant(IntType::I32, width(ty)),
        _ => Known {
            form: KnownForm::Primitive(primitive, place, &[]),
        },
    }
}

/// How many arguments a primitive takes.
pub fn arity(primitive: Primitive) -> usize
    ensures { result ≡ arity primitive }
{
    line_of(primitive).parameters.len()
}

// The arguments with one more behind them.
fn with_known<'a>(
    bump: &'a Bump,
    given: &'a [Known<'a>],
    known: &Known<'a>,
) -> Result<&'a [Known<'a>], Refusal>
    ensures ok { IfOk result (λ all. all.now ≡ given.now ++ known.now ∷ []) }
    ensures err { IfErr result (λ r. r ≡ refusal.Memory) }
{
    let mut all = Vec::new(bump);
    match all.extend_from_slice(given) {
        Ok(()) => match all.extend_from_slice(slice::from_ref(known)) {
            Ok(()) => Ok(into_bump_slice(all)),
            Err(_) => Err(Refusal::Memory),
        },
        Err(_) => Err(Refusal::Memory),
    }
}

fn convert<'a>(
    work: &mut Unfolding<'a>,
    to: ScalarType,
    from: ScalarType,
    place: Place,
    arguments: &'a [Known<'a>],
) -> Result<Known<'a>, Refusal>
    ensures { Operated_primitive (prim.Convert to from) place (map known_of arguments.now) work.old.next (steps_of work.old) (steps_of work.new) work.new.next result }
{
    match one_scalar(arguments) {
        Some(atom) => computed(work, Operation::Convert(to, atom)),
        None => Err(Refusal::Lost),
    }
}

// A primitive with all its arguments.
fn operate_primitive<'a>(
    work: &mut Unfolding<'a>,
    primitive: Primitive,
    place: Place,
    arguments: &'a [Known<'a>],
) -> Result<Known<'a>, Refusal>
    ensures { Operated_primitive primitive place (map known_of arguments.now) work.old.next (steps_of work.old) (steps_of work.new) work.new.next result }
{
    match primitive {
        Primitive::Convert { to, from } => convert(work, to, from, place, arguments),
        Primitive::Min(_) => binary(work, BinOp::Min, place, arguments),
        Primitive::Max(_) => binary(work, BinOp::Max, place, arguments),
        Primitive::Abs(_) => unary(work, UnOp::Abs, arguments),
        Primitive::Popc(_) => unary(work, UnOp::Popc, arguments),
        _ => Err(Refusal::Lost),
    }
}

/// What a primitive gives for one more argument.
#[derive(Clone, Copy)]
pub enum Applied<'a> {
    /// A scalar, or the primitive that waits for further arguments.
    Known(Known<'a>),
    /// A primitive on arrays has all its arguments.
    Ready(&'a [Known<'a>]),
}

/// Whether a primitive is one on scalars.
pub fn is_of_scalars(primitive: Primitive) -> bool
    ensures { result ≡ is_of_scalars primitive }
{
    match primitive {
        Primitive::Convert { .. }
        | Primitive::Min(_)
        | Primitive::Max(_)
        | Primitive::Abs(_)
        | Primitive::Popc(_) => true,
        _ => false,
    }
}

/// A primitive with the arguments that it has, applied to one more.
pub fn apply_primitive<'a>(
    work: &mut Unfolding<'a>,
    primitive: Primitive,
    place: Place,
    given: &'a [Known<'a>],
    known: Known<'a>,
) -> Result<Applied<'a>, Refusal>
    ensures { Applied_primitive primitive place (knowns (map known_of given.now)) (known_of known.entry) work.old.next (steps_of work.old) (steps_of work.new) work.new.next result }
{
    let arguments = match with_known(work.bump, given, &known) {
        Ok(arguments) => arguments,
        Err(refusal) => return Err(refusal),
    };
    if arguments.len() < arity(primitive) {
        return Ok(Applied::Known(Known {
            form: KnownForm::Primitive(primitive, place, arguments),
        }));
    }
    if !is_of_scalars(primitive) {
        return Ok(Applied::Ready(arguments));
    }
    match operate_primitive(work, primitive, place, arguments) {
        Ok(known) => Ok(Applied::Known(known)),
        Err(refusal) => Err(refusal),
    }
}
