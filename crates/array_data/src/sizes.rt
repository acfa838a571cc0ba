// Integers that say sizes and indices.
ghost use Rattle.std.specs.Prelude.{◌≡◌, ◌<◌, ◌≤◌, ◌^◌, ◌+◌, ◌-◌};
ghost use Rattle.fut_scalar.specs.Integers.{FitsType, integer_of, width_of};
ghost use Rattle.array_data.specs.Answers.{Exact_is, exact_held};
ghost use Rattle.array_data.specs.Held.{fitted as fitted_scalar, held};
ghost use Rattle.array_data.specs.declared.stop.Stop.TheVariants.{Failed};
ghost use Rattle.array_data.specs.declared.sizes.Exact.TheVariants.{Natural as Natural_is, Below as Below_is};

use crate::data::Data;
use crate::stop::Stop;
use fut_arithmetic::decode_word;
use fut_scalar::{FailKind, IntType, Place, Report, Scalar, ScalarType};

/// An exact integer.
#[derive(Clone, Copy)]
pub enum Exact {
    Natural(u64),
    /// The integer that is this much below -1.
    Below(u64),
}

/// A failure at a place.
pub fn failed(kind: FailKind, place: Place) -> Stop
    ensures { result ≡ Failed (record { kind = kind; place = place }) }
{
    Stop::Failed(Report { kind, place })
}

/// What bits stand for where a type has so many integers from 0 on, and as many below.
fn two_sided(half: u64, bits: u64) -> Exact
    requires { bits < half + half }
    ensures low { bits < half → result ≡ Natural_is bits }
    ensures high { half ≤ bits → result ≡ Below_is ((half + half) - 1 - bits) }
{
    if bits < half {
        Exact::Natural(bits)
    } else {
        Exact::Below(half - 1 - (bits - half))
    }
}

/// The integer that the bits of a type stand for.
fn exact_bits(ty: IntType, bits: u64) -> Exact
    requires { bits < 2 ^ width_of ty }
    ensures { exact_held result ≡ integer_of ty bits }
{
    match ty {
        IntType::I8 => two_sided(0x80, bits),
        IntType::I16 => two_sided(0x8000, bits),
        IntType::I32 => two_sided(0x8000_0000, bits),
        IntType::I64 => two_sided(0x8000_0000_0000_0000, bits),
        IntType::U8 => Exact::Natural(bits),
        IntType::U16 => Exact::Natural(bits),
        IntType::U32 => Exact::Natural(bits),
        IntType::U64 => Exact::Natural(bits),
    }
}

/// The scalar of the lowest bits, as many as the type has.
#[tactic(auto, using(crate::proofs::Sizing::fitted_scalars))]
pub fn fitted(scalar: Scalar) -> Scalar
    ensures value { result ≡ fitted_scalar scalar }
    ensures fits { FitsType result }
{
    match scalar {
        Scalar::Int { ty, bits } => decode_word(ScalarType::Int(ty), bits),
        Scalar::Bool(b) => Scalar::Bool(b),
    }
}

/// The integer that data is.
#[tactic(auto, using(crate::proofs::Sizing::exacts, crate::proofs::RecordForms::no_integers))]
pub fn whole_number(whole: &Data) -> Result<Exact, Stop>
    ensures { Exact_is (held whole.now) result }
{
    match whole {
        Data::Scalar(scalar) => match fitted(*scalar) {
            Scalar::Int { ty, bits } => Ok(exact_bits(ty, bits)),
            Scalar::Bool(_) => Err(Stop::Stuck),
        },
        Data::Words(_, _) | Data::Rows(_, _, _) | Data::Tuple(_, _) | Data::Record(_, _, _) => {
            Err(Stop::Stuck)
        }
    }
}
