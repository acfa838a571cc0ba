// What names stand for.
ghost use Rattle.std.specs.Prelude.{◌≡◌};
ghost use Rattle.std.specs.Str.{bytes_eq};
ghost use Rattle.fut_primitives.specs.Names.{primitive_of, first_named, integer_members, member_of, other_member, scalar_of};
ghost use Rattle.fut_primitives.specs.Table.{name, scalar_name};

use crate::table::{line_of, scalar_name};
use fut_flat::{Folding, Primitive};
use fut_scalar::{IntType, ScalarType};

/// The primitives that are no members: they work on arrays.
pub const ARRAY_PRIMITIVES: [Primitive; 35] = [
    Primitive::Map,
    Primitive::Map2,
    Primitive::Map3,
    Primitive::Map4,
    Primitive::Map5,
    Primitive::Reduce,
    Primitive::ReduceComm,
    Primitive::Scan,
    Primitive::Filter,
    Primitive::Partition,
    Primitive::Scatter,
    Primitive::ReduceByIndex,
    Primitive::Zip,
    Primitive::Zip3,
    Primitive::Unzip,
    Primitive::Unzip3,
    Primitive::Iota,
    Primitive::Replicate,
    Primitive::Tabulate,
    Primitive::Indices,
    Primitive::Length,
    Primitive::Null,
    Primitive::Head,
    Primitive::Last,
    Primitive::Init,
    Primitive::Tail,
    Primitive::Take,
    Primitive::Drop,
    Primitive::Reverse,
    Primitive::Rotate,
    Primitive::Concat,
    Primitive::Flatten,
    Primitive::Unflatten,
    Primitive::Transpose,
    Primitive::Copy,
];

pub const SCALAR_TYPES: [ScalarType; 9] = [
    ScalarType::Int(IntType::I8),
    ScalarType::Int(IntType::I16),
    ScalarType::Int(IntType::I32),
    ScalarType::Int(IntType::I64),
    ScalarType::Int(IntType::U8),
    ScalarType::Int(IntType::U16),
    ScalarType::Int(IntType::U32),
    ScalarType::Int(IntType::U64),
    ScalarType::Bool,
];

fn has_name(primitive: Primitive, word: &str) -> bool
    ensures { result ≡ bytes_eq (name primitive) word.now }
{
    line_of(primitive).name == word
}

// The first of these primitives whose name it is.
fn first_primitive(primitives: &[Primitive], word: &str) -> Option<Primitive>
    ensures { result ≡ first_named name primitives.now word.now }
{
    let mut at = 0;
    while at < primitives.len() {
        let primitive = primitives[at];
        if has_name(primitive, word) {
            return Some(primitive);
        }
        at += 1;
    }
    None
}

fn is_called(scalar: ScalarType, word: &str) -> bool
    ensures { result ≡ bytes_eq (scalar_name scalar) word.now }
{
    scalar_name(scalar) == word
}

// The first of these scalar types whose name it is.
fn first_scalar(scalars: &[ScalarType], word: &str) -> Option<ScalarType>
    ensures { result ≡ first_named scalar_name scalars.now word.now }
{
    let mut at = 0;
    while at < scalars.len() {
        let scalar = scalars[at];
        if is_called(scalar, word) {
            return Some(scalar);
        }
        at += 1;
    }
    None
}

/// The primitive of arrays that has this name.
#[tactic(auto, unfolding(crate::specs::Names::primitive_of))]
pub fn primitive_of(word: &str) -> Option<Primitive>
    ensures { result ≡ primitive_of word.now }
{
    first_primitive(&ARRAY_PRIMITIVES, word)
}

/// The scalar type of a name, which is a module too.
#[tactic(auto, unfolding(crate::specs::Names::scalar_of))]
pub fn scalar_of(word: &str) -> Option<ScalarType>
    ensures { result ≡ scalar_of word.now }
{
    first_scalar(&SCALAR_TYPES, word)
}

// A member of an integer type that is no conversion.
fn integer_member(ty: IntType, word: &str) -> Option<Primitive>
    ensures { result ≡ first_named name (integer_members ty) word.now }
{
    let members = [
        Primitive::Min(ty),
        Primitive::Max(ty),
        Primitive::Abs(ty),
        Primitive::Popc(ty),
        Primitive::Lowest(ty),
        Primitive::Highest(ty),
        Primitive::NumBits(ty),
        Primitive::Fold(Folding::Sum, ty),
        Primitive::Fold(Folding::Product, ty),
        Primitive::Fold(Folding::Minimum, ty),
        Primitive::Fold(Folding::Maximum, ty),
    ];
    first_primitive(&members, word)
}

// A member of a scalar type that is no conversion.
fn other_member(of: ScalarType, word: &str) -> Option<Primitive>
    ensures { result ≡ other_member of word.now }
{
    match of {
        ScalarType::Bool => None,
        ScalarType::Int(ty) => integer_member(ty, word),
    }
}

/// A member of the module of a scalar type: `to.from` converts from a type to the module's.
#[tactic(auto, unfolding(crate::specs::Names::member_of))]
pub fn member_of(of: ScalarType, word: &str) -> Option<Primitive>
    ensures { result ≡ member_of of word.now }
{
    match scalar_of(word) {
        Some(from) => Some(Primitive::Convert { to: of, from }),
        None => other_member(of, word),
    }
}
