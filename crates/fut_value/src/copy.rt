// Copies of values, which share nothing with what they are copies of.
ghost use Rattle.std.specs.Prelude.{◌≡◌, IfOk};
ghost use Rattle.fut_value.specs.Values.{IsWellFormed, datum_of};

use crate::shape::Shape;
use crate::value::Value;
use fut_scalar::{List, NoMemory};
use std::alloc::Global;

/// A value equal to this one, so one of its shape and of the same data, and well formed if it is. It fails only for want of
/// memory.
pub fn copy_value(alloc: Global, value: &Value) -> Result<Value, NoMemory>
    ensures same { IfOk result (λ copy. copy ≡ value.now) }
    ensures data { IfOk result (λ copy. datum_of copy ≡ datum_of value.now) }
    ensures formed { IfOk result (λ copy. IsWellFormed value.now → IsWellFormed copy) }
{
    let sizes = List::from_slice(alloc, value.shape.sizes.as_slice())?;
    let words = List::from_slice(alloc, value.words.as_slice())?;
    let elem = value.shape.elem;
    Ok(Value {
        shape: Shape { elem, sizes },
        words,
    })
}
