// Values.
ghost use Rattle.std.specs.Prelude.{◌≡◌, [], ◌∷◌, IfOk, MatchOption};
ghost use Rattle.fut_scalar.specs.Integers.{FitsType};
ghost use Rattle.fut_arithmetic.specs.Types.{IsOf};
ghost use Rattle.fut_value.specs.Data.{Scalar_datum};
ghost use Rattle.fut_value.specs.Values.{IsWellFormed, datum_of};

use crate::shape::Shape;
use fut_arithmetic::{decode_word, encode_word};
use fut_scalar::{List, NoMemory, Scalar, ScalarType};
use std::alloc::Global;

/// A scalar or an array of scalars.
#[derive(Drop)]
pub struct Value {
    pub shape: Shape,
    /// The words of the scalars, those of the first row first. There are as many as the product of the sizes.
    pub words: List<u64>,
}

/// The type of a scalar.
fn type_of(scalar: Scalar) -> ScalarType
    requires { FitsType scalar }
    ensures { IsOf result scalar }
{
    match scalar {
        Scalar::Int { ty, bits: _ } => ScalarType::Int(ty),
        Scalar::Bool(_) => ScalarType::Bool,
    }
}

/// The value that is a scalar.
#[tactic(auto, using(crate::proofs::Flats::scalars))]
pub fn value_of(alloc: Global, scalar: Scalar) -> Result<Value, NoMemory>
    requires { FitsType scalar }
    ensures is { IfOk result (λ value. datum_of value ≡ Scalar_datum scalar) }
    ensures formed { IfOk result IsWellFormed }
{
    let mut words = List::new(alloc);
    words.push(encode_word(scalar))?;
    Ok(Value {
        shape: Shape {
            elem: type_of(scalar),
            sizes: List::new(alloc),
        },
        words,
    })
}

/// The scalar that a value is, if it is no array.
#[tactic(auto, using(crate::proofs::Flats::scalars))]
pub fn as_scalar(value: &Value) -> Option<Scalar>
    requires { IsWellFormed value.now }
    ensures { MatchOption result (value.now.shape.sizes ≡ [] → ⊥) (λ scalar. (datum_of value.now ≡ Scalar_datum scalar) × IsOf value.now.shape.elem scalar) }
{
    if value.shape.sizes.len() > 0 {
        return None;
    }
    match value.words.as_slice() {
        [word, ..] => Some(decode_word(value.shape.elem, *word)),
        [] => None,
    }
}
