// Reading a text as the arguments of a program.
ghost use Rattle.std.specs.Prelude.{◌≡◌, ◌+◌, ◌<◌, ◌≤◌, ◌^◌, All, length, drop, map, MatchResult, Err, IfOk, IfErr};
ghost use Rattle.fut_scalar.specs.Integers.{FitsType};
ghost use Rattle.fut_arithmetic.specs.Types.{IsOf, type_of};
ghost use Rattle.value_text.specs.Reading.{Explains, Reader, Reads, value_at, with_front};

use crate::gaps::{behind, gap};
use crate::spelled::spelled_at;
use crate::wanted::value_as;
use fut_scalar::{List, NoMemory, Scalar, ScalarType};
use std::alloc::Global;

/// Why a text isn't the arguments of a program. Positions count bytes from 0, parameters from 1.
#[derive(Clone, Copy, Debug, PartialEq, Eq)]
pub enum TextErr {
    /// The byte here, or the end of the text, continues no value.
    BadText { at: u64 },
    /// The value that begins here is no value of the wanted type: another suffix, a truth value for an integer or the
    /// reverse, or an array.
    WrongType { at: u64 },
    /// The integer that begins here is no value of its type.
    OutOfRange { at: u64 },
    /// The row that begins here has other sizes than the first row of its array.
    Irregular { at: u64 },
    /// With the row or element that begins here, the array around it has a weight above 33,554,432.
    TooLarge { at: u64 },
    /// A size of this parameter is another one than its name or number wants.
    SizeClash { param: u64, have: u64, want: i64 },
    /// The text ends before this parameter.
    Missing { param: u64 },
    /// Something stands behind the last value.
    Extra { at: u64 },
    Memory,
}

impl From<NoMemory> for TextErr {
    ghost use Rattle.value_text.specs.declared.reading.TextErr.TheVariants.{Memory};

    ghost from_gives = { λ _ err. err ≡ Memory };

    fn from(_error: NoMemory) -> TextErr {
        TextErr::Memory
    }
}

/// A value and how many bytes it takes.
#[derive(Clone, Copy)]
struct ReadValue {
    value: Scalar,
    length: usize,
}

/// The value of this parameter at the front of a text, which has no blanks there.
fn read_value(ty: ScalarType, param: u64, position: u64, text: &[u8]) -> Result<ReadValue, TextErr>
    requires { position + length text.now < 2 ^ 64 }
    ensures value { MatchResult result
        (λ found. (others : Reader) → value_at ty others param position text.now ≡ with_front found.value (others (param + 1) (position + found.length) (drop found.length text.now)))
        (λ err. (others : Reader) → value_at ty others param position text.now ≡ Err err) }
    ensures within { IfOk result (λ found. found.length ≤ length text.now) }
    ensures typed { IfOk result (λ found. IsOf ty found.value) }
{
    if text.is_empty() {
        return Err(TextErr::Missing { param });
    }
    let spelled = match spelled_at(text) {
        Ok(spelled) => spelled,
        Err(offset) => {
            return Err(TextErr::BadText {
                at: position + offset as u64,
            });
        }
    };
    match value_as(ty, position, spelled.form) {
        Ok(value) => Ok(ReadValue {
            value,
            length: spelled.length,
        }),
        Err(err) => Err(err),
    }
}

/// The arguments that a text reads as, one for each type.
pub fn read_scalars(
    alloc: Global,
    types: &[ScalarType],
    text: &[u8],
) -> Result<List<Scalar>, TextErr>
    ensures reads { IfOk result (Reads types.now text.now) }
    ensures typed { IfOk result (λ values. map type_of values ≡ types.now) }
    ensures fit { IfOk result (All FitsType) }
    ensures refused { IfErr result (Explains types.now text.now) }
{
    let mut values = List::new(alloc);
    let mut rest = text;
    let mut position = 0u64;
    for param in 0..types.len() {
        let blanks = gap(rest);
        let front = behind(rest, blanks);
        position += blanks as u64;
        let ty = types[param];
        let found = match read_value(ty, param as u64 + 1, position, front) {
            Ok(found) => found,
            Err(err) => return Err(err),
        };
        values.push(found.value)?;
        position += found.length as u64;
        rest = behind(front, found.length);
    }
    let blanks = gap(rest);
    if blanks < rest.len() {
        return Err(TextErr::Extra {
            at: position + blanks as u64,
        });
    }
    Ok(values)
}
