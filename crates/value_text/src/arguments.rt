// Reading a text as the arguments of a program.
ghost use Rattle.std.specs.Prelude.{◌≡◌, ◌+◌, ◌<◌, ◌≤◌, ◌^◌, All, length, drop, IfOk, IfErr};
ghost use Rattle.fut_value.specs.Values.{IsWellFormed};
ghost use Rattle.value_text.specs.Arguments.{Explains, Reader, Reads, value_at, values_on, with_front};
ghost use Rattle.value_text.specs.Gives.{HaveTypes, IsLight, Refused_so, Value_gives};

use crate::arrays::read_at;
use crate::gaps::{behind, gap};
use crate::reading::TextErr;
use crate::sizes::values_for;
use fut_scalar::{ArgType, List};
use fut_value::{Shape, Value};
use std::alloc::Global;
use std::collections::HashMap;

/// A value and how many bytes it takes.
#[derive(Drop)]
struct ReadValue {
    value: Value,
    length: usize,
}

/// The value of this parameter at the front of a text, which has no blanks there.
#[tactic(auto, using(crate::proofs::ArgumentValues::one_value))]
fn read_value(
    alloc: Global,
    wanted: &ArgType,
    param: u64,
    position: u64,
    text: &[u8],
) -> Result<ReadValue, TextErr>
    requires { position + length text.now < 2 ^ 64 }
    ensures value { IfOk result (λ found. Value_gives wanted.now param position text.now found.value found.length) }
    ensures within { IfOk result (λ found. found.length ≤ length text.now) }
    ensures refused { IfErr result (λ err. (others : Reader) → Refused_so (value_at wanted.now others param position text.now) err) }
{
    if text.is_empty() {
        return Err(TextErr::Missing { param });
    }
    let mut sizes = List::new(alloc);
    let mut words = List::new(alloc);
    let rank = wanted.dims.len();
    match read_at(
        alloc,
        wanted.elem,
        rank,
        position,
        text,
        &mut words,
        &mut sizes,
    ) {
        Ok(length) => {
            let elem = wanted.elem;
            let shape = Shape { elem, sizes };
            let value = Value { shape, words };
            Ok(ReadValue { value, length })
        }
        Err(err) => Err(err),
    }
}

/// The values of a text, one for each parameter.
fn read_values(alloc: Global, types: &[ArgType], text: &[u8]) -> Result<List<Value>, TextErr>
    ensures reads { IfOk result (λ values. values_on types.now 1 0 text.now ≡ Ok values) }
    ensures refused { IfErr result (Refused_so (values_on types.now 1 0 text.now)) }
{
    let mut values = List::new(alloc);
    let mut rest = text;
    let mut position = 0u64;
    for at in 0..types.len() {
        let blanks = gap(rest);
        let front = behind(rest, blanks);
        position += blanks as u64;
        let found = match read_value(alloc, &types[at], at as u64 + 1, position, front) {
            Ok(found) => found,
            Err(err) => return Err(err),
        };
        position += found.length as u64;
        rest = behind(front, found.length);
        values.push(found.value)?;
    }
    let blanks = gap(rest);
    if blanks < rest.len() {
        return Err(TextErr::Extra {
            at: position + blanks as u64,
        });
    }
    Ok(values)
}

/// The arguments that a text reads as, one for each parameter. Values are read in order, and then sizes are compared.
pub fn read_args(alloc: Global, types: &List<ArgType>, text: &[u8]) -> Result<List<Value>, TextErr>
    ensures reads { IfOk result (Reads types.now text.now) }
    ensures typed { IfOk result (HaveTypes types.now) }
    ensures formed { IfOk result (All IsWellFormed) }
    ensures light { IfOk result (All IsLight) }
    ensures refused { IfErr result (Explains types.now text.now) }
{
    let values = match read_values(alloc, types.as_slice(), text) {
        Ok(values) => values,
        Err(err) => return Err(err),
    };
    let mut known = HashMap::new(alloc);
    match values_for(&mut known, types.as_slice(), values.as_slice()) {
        Ok(()) => Ok(values),
        Err(err) => Err(err),
    }
}
