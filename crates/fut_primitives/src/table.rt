// The table of primitives.
ghost use Rattle.std.specs.Prelude.{◌≡◌};
ghost use Rattle.fut_primitives.specs.Table.{from_of, name, own_of, parameters_of, scalar_name, written};
ghost use Rattle.fut_primitives.specs.Written.{written_of};

use crate::written::{Letter, Size, Written};
use fut_flat::{Folding, Primitive};
use fut_scalar::{IntType, ScalarType};

/// What the table says of a primitive.
#[derive(Clone, Copy)]
pub struct Line {
    /// Its name, behind the point where it is the member of a scalar type.
    pub name: &'static str,
    /// What it takes: 0 for data, and for a function how many arguments it takes.
    pub parameters: &'static [u32],
    /// Its type, with sizes and stars.
    pub written: &'static Written,
}

// The notation is the language's own: `line!` reads it into a tree.

// A size.
macro_rules! size {
    (n) => { Size::N };
    (m) => { Size::M };
    (k) => { Size::K };
    (?) => { Size::Unknown };
}

// A type: what stands before its first arrow, and the type behind it.
macro_rules! tree {
    (@ [$($from:tt)+] -> $($to:tt)+) => { &Written::Function(part!($($from)+), tree!($($to)+)) };
    (@ [$($part:tt)*] $next:tt $($rest:tt)*) => { tree!(@ [$($part)* $next] $($rest)*) };
    (@ [$($all:tt)+]) => { part!($($all)+) };
    ($($all:tt)+) => { tree!(@ [] $($all)+) };
}

// A type that is no function, or stands in parentheses.
macro_rules! part {
    (a) => { &Written::Variable(Letter::A) };
    (b) => { &Written::Variable(Letter::B) };
    (c) => { &Written::Variable(Letter::C) };
    (d) => { &Written::Variable(Letter::D) };
    (e) => { &Written::Variable(Letter::E) };
    (f) => { &Written::Variable(Letter::F) };
    (t) => { &Written::Own };
    (u) => { &Written::From };
    (bool) => { &Written::Scalar(ScalarType::Bool) };
    (i32) => { &Written::Scalar(ScalarType::Int(IntType::I32)) };
    (i64) => { &Written::Scalar(ScalarType::Int(IntType::I64)) };
    ([$size:tt] $($of:tt)+) => { &Written::Array(size!($size), part!($($of)+)) };
    (* $($of:tt)+) => { &Written::Unique(part!($($of)+)) };
    (($name:ident : $($of:tt)+)) => { &Written::Named(size!($name), part!($($of)+)) };
    (($($inner:tt)+)) => { group!(@ [] $($inner)+) };
}

// What stands in parentheses: a pair, a triple, or one type.
macro_rules! group {
    (@ [$($x:tt)+], $($rest:tt)+) => { behind_comma!([$($x)+] [] $($rest)+) };
    (@ [$($x:tt)*] $next:tt $($rest:tt)*) => { group!(@ [$($x)* $next] $($rest)*) };
    (@ [$($x:tt)+]) => { tree!($($x)+) };
}

macro_rules! behind_comma {
    ([$($x:tt)+] [$($y:tt)+], $($z:tt)+) => { &Written::Triple(tree!($($x)+), tree!($($y)+), tree!($($z)+)) };
    ([$($x:tt)+] [$($y:tt)*] $next:tt $($rest:tt)*) => { behind_comma!([$($x)+] [$($y)* $next] $($rest)*) };
    ([$($x:tt)+] [$($y:tt)+]) => { &Written::Pair(tree!($($x)+), tree!($($y)+)) };
}

// What a primitive takes: 0 for data, and for a function how many arguments it takes.
macro_rules! parameters {
    (@ [$($done:tt)*] [$($from:tt)+] -> $($to:tt)+) => { parameters!(@ [$($done)* (arguments!($($from)+))] [] $($to)+) };
    (@ [$($done:tt)*] [$($part:tt)*] $next:tt $($rest:tt)*) => { parameters!(@ [$($done)*] [$($part)* $next] $($rest)*) };
    (@ [$($done:tt)*] [$($last:tt)+]) => { &[$($done),*] };
    ($($all:tt)+) => { parameters!(@ [] [] $($all)+) };
}

macro_rules! arguments {
    (($($inner:tt)+)) => { arrows!($($inner)+) };
    ($($other:tt)+) => { 0 };
}

macro_rules! arrows {
    (-> $($rest:tt)*) => { 1 + arrows!($($rest)*) };
    ($other:tt $($rest:tt)*) => { arrows!($($rest)*) };
    () => { 0 };
}

// A line of the table.
macro_rules! line {
    ($name:literal : $($all:tt)+) => {
        Line {
            name: $name,
            parameters: parameters!($($all)+),
            written: tree!($($all)+),
        }
    };
}

const MAP: Line = line!("map": (a -> b) -> [n]a -> *[n]b);

const MAP2: Line = line!("map2": (a -> b -> c) -> [n]a -> [n]b -> *[n]c);

const MAP3: Line = line!("map3": (a -> b -> c -> d) -> [n]a -> [n]b -> [n]c -> *[n]d);

const MAP4: Line = line!("map4": (a -> b -> c -> d -> e) -> [n]a -> [n]b -> [n]c -> [n]d -> *[n]e);

const MAP5: Line =
    line!("map5": (a -> b -> c -> d -> e -> f) -> [n]a -> [n]b -> [n]c -> [n]d -> [n]e -> *[n]f);

const REDUCE: Line = line!("reduce": (a -> a -> a) -> a -> [n]a -> a);

const REDUCE_COMM: Line = line!("reduce_comm": (a -> a -> a) -> a -> [n]a -> a);

const SCAN: Line = line!("scan": (a -> a -> a) -> a -> [n]a -> *[n]a);

const FILTER: Line = line!("filter": (a -> bool) -> [n]a -> *[?]a);

const PARTITION: Line = line!("partition": (a -> bool) -> [n]a -> (*[?]a, *[?]a));

const SCATTER: Line = line!("scatter": *[k]a -> [n]i64 -> [n]a -> *[k]a);

const REDUCE_BY_INDEX: Line =
    line!("reduce_by_index": *[k]a -> (a -> a -> a) -> a -> [n]i64 -> [n]a -> *[k]a);

const ZIP: Line = line!("zip": [n]a -> [n]b -> *[n](a, b));

const ZIP3: Line = line!("zip3": [n]a -> [n]b -> [n]c -> *[n](a, b, c));

const UNZIP: Line = line!("unzip": [n](a, b) -> ([n]a, [n]b));

const UNZIP3: Line = line!("unzip3": [n](a, b, c) -> ([n]a, [n]b, [n]c));

const IOTA: Line = line!("iota": (n: i64) -> *[n]i64);

const REPLICATE: Line = line!("replicate": (n: i64) -> a -> *[n]a);

const TABULATE: Line = line!("tabulate": (n: i64) -> (i64 -> a) -> *[n]a);

const INDICES: Line = line!("indices": [n]a -> *[n]i64);

const LENGTH: Line = line!("length": [n]a -> i64);

const NULL: Line = line!("null": [n]a -> bool);

const HEAD: Line = line!("head": [n]a -> a);

const LAST: Line = line!("last": [n]a -> a);

const INIT: Line = line!("init": [n]a -> [?]a);

const TAIL: Line = line!("tail": [n]a -> [?]a);

const TAKE: Line = line!("take": i64 -> [n]a -> [?]a);

const DROP: Line = line!("drop": i64 -> [n]a -> [?]a);

const REVERSE: Line = line!("reverse": [n]a -> [n]a);

const ROTATE: Line = line!("rotate": i64 -> [n]a -> [n]a);

const CONCAT: Line = line!("concat": [n]a -> [m]a -> *[?]a);

const FLATTEN: Line = line!("flatten": [n][m]a -> [?]a);

const UNFLATTEN: Line = line!("unflatten": (n: i64) -> (m: i64) -> [k]a -> [n][m]a);

const TRANSPOSE: Line = line!("transpose": [n][m]a -> [m][n]a);

const COPY: Line = line!("copy": a -> *a);

// members of the integer type `t`
const MIN: Line = line!("min": t -> t -> t);

const MAX: Line = line!("max": t -> t -> t);

const ABS: Line = line!("abs": t -> t);

const POPC: Line = line!("popc": t -> i32);

const LOWEST: Line = line!("lowest": t);

const HIGHEST: Line = line!("highest": t);

const NUM_BITS: Line = line!("num_bits": i32);

const SUM: Line = line!("sum": [n]t -> t);

const PRODUCT: Line = line!("product": [n]t -> t);

const MINIMUM: Line = line!("minimum": [n]t -> t);

const MAXIMUM: Line = line!("maximum": [n]t -> t);

// `t.u`
const CONVERSION: Line = line!("": u -> t);

/// The name of a scalar type, which is that of its module and of the conversions from it.
pub fn scalar_name(scalar: ScalarType) -> &'static str
    ensures { result.now ≡ scalar_name scalar }
{
    match scalar {
        ScalarType::Int(IntType::I8) => "i8",
        ScalarType::Int(IntType::I16) => "i16",
        ScalarType::Int(IntType::I32) => "i32",
        ScalarType::Int(IntType::I64) => "i64",
        ScalarType::Int(IntType::U8) => "u8",
        ScalarType::Int(IntType::U16) => "u16",
        ScalarType::Int(IntType::U32) => "u32",
        ScalarType::Int(IntType::U64) => "u64",
        ScalarType::Bool => "bool",
    }
}

/// The line of a primitive.
pub fn line_of(primitive: Primitive) -> Line
    ensures name { result.name.now ≡ name primitive }
    ensures parameters { result.parameters.now ≡ parameters_of primitive }
    ensures written { written_of result.written.now ≡ written primitive }
{
    match primitive {
        Primitive::Map => MAP,
        Primitive::Map2 => MAP2,
        Primitive::Map3 => MAP3,
        Primitive::Map4 => MAP4,
        Primitive::Map5 => MAP5,
        Primitive::Reduce => REDUCE,
        Primitive::ReduceComm => REDUCE_COMM,
        Primitive::Scan => SCAN,
        Primitive::Filter => FILTER,
        Primitive::Partition => PARTITION,
        Primitive::Scatter => SCATTER,
        Primitive::ReduceByIndex => REDUCE_BY_INDEX,
        Primitive::Zip => ZIP,
        Primitive::Zip3 => ZIP3,
        Primitive::Unzip => UNZIP,
        Primitive::Unzip3 => UNZIP3,
        Primitive::Iota => IOTA,
        Primitive::Replicate => REPLICATE,
        Primitive::Tabulate => TABULATE,
        Primitive::Indices => INDICES,
        Primitive::Length => LENGTH,
        Primitive::Null => NULL,
        Primitive::Head => HEAD,
        Primitive::Last => LAST,
        Primitive::Init => INIT,
        Primitive::Tail => TAIL,
        Primitive::Take => TAKE,
        Primitive::Drop => DROP,
        Primitive::Reverse => REVERSE,
        Primitive::Rotate => ROTATE,
        Primitive::Concat => CONCAT,
        Primitive::Flatten => FLATTEN,
        Primitive::Unflatten => UNFLATTEN,
        Primitive::Transpose => TRANSPOSE,
        Primitive::Copy => COPY,
        Primitive::Convert { from, .. } => Line {
            name: scalar_name(from),
            ..CONVERSION
        },
        Primitive::Min(_) => MIN,
        Primitive::Max(_) => MAX,
        Primitive::Abs(_) => ABS,
        Primitive::Popc(_) => POPC,
        Primitive::Lowest(_) => LOWEST,
        Primitive::Highest(_) => HIGHEST,
        Primitive::NumBits(_) => NUM_BITS,
        Primitive::Fold(Folding::Sum, _) => SUM,
        Primitive::Fold(Folding::Product, _) => PRODUCT,
        Primitive::Fold(Folding::Minimum, _) => MINIMUM,
        Primitive::Fold(Folding::Maximum, _) => MAXIMUM,
    }
}

/// The scalar types of the module whose member a primitive is, and of what a conversion is from; `bool` where there is none.
#[derive(Clone, Copy)]
pub struct Scalars {
    pub own: ScalarType,
    pub from: ScalarType,
}

/// The scalar types that `t` and `u` stand for in the type of a primitive.
pub fn scalars_of(primitive: Primitive) -> Scalars
    ensures own { result.own ≡ own_of primitive }
    ensures from { result.from ≡ from_of primitive }
{
    let plain = Scalars {
        own: ScalarType::Bool,
        from: ScalarType::Bool,
    };
    match primitive {
        Primitive::Convert { to, from } => Scalars { own: to, from },
        Primitive::Min(ty)
        | Primitive::Max(ty)
        | Primitive::Abs(ty)
        | Primitive::Popc(ty)
        | Primitive::Lowest(ty)
        | Primitive::Highest(ty)
        | Primitive::NumBits(ty)
        | Primitive::Fold(_, ty) => Scalars {
            own: ScalarType::Int(ty),
            ..plain
        },
        _ => plain,
    }
}
