// From a flat program to its types.
ghost use Rattle.std.specs.Prelude.{List as Seq, IfOk, IfErr};
ghost use Rattle.fut_typing.specs.Program.{Defined, program_of};
ghost use Rattle.type_infer.specs.Inferring.{Says};
ghost use Rattle.type_scopes.specs.declared.Inference.{Inference as TheInference};
ghost use Rattle.typed_programs.specs.Known.{Knows};
ghost use Rattle.typed_programs.specs.Mistyped.{Mistyped};

use crate::ordered::inferred_in_order;
use crate::{integer_types, is_built};
use flat_numbers::places;
use fut_flat::Flat;
use fut_scalar::{IntType, List, Place};
use std::alloc::Global;
use type_infer::InferErr;
use type_scopes::Inference;

/// A program that has a typing.
#[derive(Drop)]
pub struct Accepted<'a> {
    pub flat: Flat<'a>,
    /// The types of all its numbers.
    pub inference: Inference<'a>,
    /// The integer type of each number that has one.
    pub integers: List<IntType>,
}

/// Why a program has no typing to go on with, and where that shows.
#[derive(Clone, Copy, Debug, PartialEq, Eq)]
pub enum TypeErr {
    /// It has none, even if functions may stand everywhere.
    NoType { at: Place },
    /// It has one only if functions may stand everywhere.
    FunctionPlace { at: Place },
    /// It has many, and what the principal one leaves undetermined has no default.
    Ambiguous { at: Place },
    /// Memory ran out. It is answered too where a form stands in the program that is not built, which its tokens tell
    /// before; where a number of a refusal has no place, where an integer type has parts, and where labels that were entered in
    /// order are not in order, none of which comes.
    Memory,
}

/// Where a number of a program stands. Each has a place.
fn place_of(alloc: Global, flat: &Flat<'_>, number: u32) -> Option<Place> {
    match places(alloc, flat) {
        Ok(places) => places.as_slice().get(number as usize).copied(),
        Err(_) => None,
    }
}

/// The refusal with its place, if there was memory for it.
fn placed(err: InferErr, place: Option<Place>) -> TypeErr
    ensures { (ds : Seq Defined) (inference : TheInference) → Says ds inference err → Mistyped ds result }
{
    let Some(at) = place else {
        return TypeErr::Memory;
    };
    match err {
        InferErr::NoType(_) => TypeErr::NoType { at },
        InferErr::FunctionPlace(_) => TypeErr::FunctionPlace { at },
        InferErr::Ambiguous(_) => TypeErr::Ambiguous { at },
        InferErr::Memory => TypeErr::Memory,
    }
}

/// The number at which a refusal shows.
fn number_of(err: InferErr) -> u32 {
    match err {
        InferErr::NoType(number) => number,
        InferErr::FunctionPlace(number) => number,
        InferErr::Ambiguous(number) => number,
        InferErr::Memory => 0,
    }
}

/// The types of a program, or why it has none. The cost is that of inference, or twice that.
pub fn typed_program<'a>(alloc: Global, flat: Flat<'a>) -> Result<Accepted<'a>, TypeErr>
    ensures ok { IfOk result (Knows flat.entry) }
    ensures err { IfErr result (Mistyped (program_of flat.entry)) }
{
    if !is_built(&flat) {
        return Err(TypeErr::Memory);
    }
    match inferred_in_order(alloc, &flat) {
        Ok(inference) => match integer_types(alloc, &flat, &inference) {
            Ok(integers) => Ok(Accepted {
                flat,
                inference,
                integers,
            }),
            Err(_) => Err(TypeErr::Memory),
        },
        Err(err) => {
            let place = place_of(alloc, &flat, number_of(err));
            Err(placed(err, place))
        }
    }
}
