// What is said of sizes that are known when a program runs.
use crate::block::Atom;
use fut_scalar::ScalarType;

/// A shape, where there is one: what the rows of an array look like that has none to show it.
#[cycle(row)]
#[derive(Clone, Copy)]
pub enum RowShape<'a> {
    /// Nothing tells it.
    Unknown,
    Scalar(ScalarType),
    Tuple(&'a [RowShape<'a>]),
    /// Fields in order of their names.
    Record(&'a [FieldShape<'a>]),
    /// As many rows of one shape as the extent says; 0 where it says nothing, or below 0.
    Array(Extent<'a>, &'a RowShape<'a>),
    /// That of an atom's data.
    Data(Atom),
    /// That of an array's rows. What has no rows, no such part or no such field tells nothing.
    Rows(&'a RowShape<'a>),
    /// That of a tuple's part. The first has the number 0.
    Part(u32, &'a RowShape<'a>),
    Field(&'a str, &'a RowShape<'a>),
    /// A tuple of arrays, each of so many of one part of a tuple.
    Unzipped(Extent<'a>, &'a RowShape<'a>),
}

/// Where an integer stands that a size is worth.
#[cycle(row)]
#[derive(Clone, Copy)]
pub enum Extent<'a> {
    /// Nothing tells it.
    Nowhere,
    Exactly(u64),
    /// An atom's integer.
    Worth(Atom),
    /// How many rows an array of this shape has; 0 where it is none.
    Length(&'a RowShape<'a>),
}

/// A field of a record's shape.
#[cycle(row)]
#[derive(Clone, Copy)]
pub struct FieldShape<'a> {
    pub name: &'a str,
    pub row: RowShape<'a>,
}

/// The sizes that data has to have, wherever it has arrays there. A size that nothing tells agrees with each.
#[cycle(wanted)]
#[derive(Clone, Copy)]
pub enum SizeTest<'a> {
    Any,
    Array(Extent<'a>, &'a SizeTest<'a>),
    Tuple(&'a [SizeTest<'a>]),
    Record(&'a [FieldTest<'a>]),
}

/// The sizes of a field.
#[cycle(wanted)]
#[derive(Clone, Copy)]
pub struct FieldTest<'a> {
    pub name: &'a str,
    pub test: SizeTest<'a>,
}
