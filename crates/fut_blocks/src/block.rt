// Blocks of steps.
use crate::row::{Extent, RowShape, SizeTest};
use fut_ast::End;
use fut_flat::{Part, Primitive};
use fut_scalar::{BinOp, DataType, Place, Scalar, ScalarType, UnOp};

/// What needs no step: a name, by its number, or a constant. Of an integer's bits the lowest count, as many as its type has.
#[derive(Clone, Copy)]
pub enum Atom {
    Name(u32),
    Constant(Scalar),
}

/// An operation on scalars, with the place where it reports a failure.
#[derive(Clone, Copy)]
pub enum Operation {
    Binary(BinOp, Place, Atom, Atom),
    Unary(UnOp, Atom),
    Convert(ScalarType, Atom),
    /// The condition has to hold. It gives nothing.
    Assert(Place, Atom),
    /// All parts of a tuple.
    Parts(Atom),
}

/// What is made of parts, or read of one: a tuple, an array or a record of them, a part, an update or a replaced field, or a range.
#[derive(Clone, Copy)]
pub enum Making<'a> {
    Tuple,
    /// The rows' shape stands for those that are missing where there are no parts.
    Array(&'a RowShape<'a>),
    Index(&'a [Part]),
    Update,
    Range { stepped: bool, end: End },
    /// A record of parts, with the names of its fields in their order.
    Record(&'a [&'a str]),
    /// A part of a tuple, or a field of a record.
    Part(&'a str),
    /// A record with another value for a field.
    Replace(&'a str),
    /// Fields of a record, which get a name each.
    Fields(&'a [&'a str]),
}

/// What a step does. A loop begins with first values for its parameters, and each turn of its body gives the next ones.
#[cycle(block)]
#[derive(Clone, Copy)]
pub enum Act<'a> {
    Operate(Operation),
    Make(Making<'a>, Place, &'a [Atom]),
    /// A primitive on arrays with its data, and its function: the parameters and the body, which gives one component. The rows'
    /// shape is that of an array which the function's results make up, where there are none.
    Primitive {
        primitive: Primitive,
        place: Place,
        row: &'a RowShape<'a>,
        data: &'a [Atom],
        params: &'a [u32],
        body: &'a Block<'a>,
    },
    /// What a size is worth, as an i64: what the extent says; 0 where it says nothing, or below 0.
    Size(Extent<'a>),
    /// Data of this shape has to have these sizes. It gives nothing.
    Coerce(Place, &'a SizeTest<'a>, &'a RowShape<'a>),
    If(Atom, &'a Block<'a>, &'a Block<'a>),
    /// As many turns as `count` says. The index counts them from 0.
    For {
        params: &'a [u32],
        first: &'a [Atom],
        index: u32,
        count: Atom,
        body: &'a Block<'a>,
    },
    /// A turn for each row.
    ForEach {
        params: &'a [u32],
        first: &'a [Atom],
        row: u32,
        rows: Atom,
        body: &'a Block<'a>,
    },
    /// Turns while the test holds. It reports at the place where the budget of turns is used up.
    While {
        place: Place,
        params: &'a [u32],
        first: &'a [Atom],
        test: &'a Block<'a>,
        body: &'a Block<'a>,
    },
}

/// New names for all that an act gives.
#[cycle(block)]
#[derive(Clone, Copy)]
pub struct Step<'a> {
    pub names: &'a [u32],
    pub act: Act<'a>,
}

/// Steps in order, and what they come to.
#[cycle(block)]
#[derive(Clone, Copy)]
pub struct Block<'a> {
    pub steps: &'a [Step<'a>],
    pub results: &'a [Atom],
}

/// The components of the entry's parameters, with their types, and its body. All names are below `names`.
#[derive(Clone, Copy)]
pub struct Program<'a> {
    pub params: &'a [u32],
    pub types: &'a [DataType],
    pub body: Block<'a>,
    pub names: u32,
}
