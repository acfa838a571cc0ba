// Core: steps over scalars and flat arrays.
use fut_ast::End;
use fut_flat::Part;
use fut_scalar::{BinOp, Place, Scalar, ScalarType, UnOp};

/// A variable by its number, with the type of its elements and its rank, which is 0 for a scalar.
#[derive(Clone, Copy)]
pub struct Var {
    pub number: u32,
    pub elem: ScalarType,
    pub rank: u32,
}

/// What needs no step: a variable, or a constant. Of an integer's bits the lowest count, as many as its type has.
#[derive(Clone, Copy)]
pub enum Atom {
    Var(Var),
    Constant(Scalar),
}

/// An array of tuples as a bundle: one array for each component of a row. Where a row has no component, `width` is 0 and one
/// array of no cells says how many rows there are.
#[derive(Clone, Copy)]
pub struct Rows<'a> {
    pub width: u32,
    pub arrays: &'a [Atom],
}

/// An operation that gives a scalar, or nothing.
#[derive(Clone, Copy)]
pub enum Operation {
    Binary(BinOp, Atom, Atom),
    Unary(UnOp, Atom),
    Convert(ScalarType, Atom),
    /// The condition has to hold.
    Assert(Atom),
    /// How many rows an array has.
    Length(Atom),
    /// How long an array is in one of its dimensions, as a u64. The outermost has the number 0.
    Dimension(Atom, u32),
    /// Both sizes have to be the same.
    CheckSize(Atom, Atom),
}

/// Other arrays of the same words: nothing is copied, and nothing counted.
#[derive(Clone, Copy)]
pub enum View<'a> {
    /// Rows by their numbers, slices and reversals, from the outermost dimension inwards. `width` is that of a row behind the
    /// last part.
    Index {
        rows: Rows<'a>,
        parts: &'a [Part],
        numbers: &'a [Atom],
    },
    /// The two outermost dimensions change places.
    Transpose(&'a [Atom]),
    /// The same arrays, which share with no other name from here on.
    Own(&'a [Atom]),
}

/// New arrays.
#[derive(Clone, Copy)]
pub enum Making<'a> {
    /// These rows, of which there is one at least.
    Literal(&'a [&'a [Atom]]),
    /// No rows: the sizes of each component of a row.
    Empty(&'a [&'a [Atom]]),
    Iota(Atom),
    Range {
        stepped: bool,
        end: End,
        numbers: &'a [Atom],
    },
    Replicate {
        count: Atom,
        row: &'a [Atom],
    },
    Concat(&'a [Atom], &'a [Atom]),
    Rotate {
        by: Atom,
        arrays: &'a [Atom],
    },
    Copy(&'a [Atom]),
    /// Rows side by side.
    Zip(&'a [Rows<'a>]),
    Flatten(&'a [Atom]),
    Unflatten {
        outer: Atom,
        inner: Atom,
        arrays: &'a [Atom],
    },
}

/// Arrays with some rows changed, in their own memory where it may be.
#[derive(Clone, Copy)]
pub enum Write<'a> {
    Update {
        in_place: bool,
        arrays: &'a [Atom],
        indices: &'a [Atom],
        row: &'a [Atom],
    },
    /// Rows are written at the places that the indices name, and passed over where there is none.
    Scatter {
        in_place: bool,
        arrays: &'a [Atom],
        indices: Atom,
        rows: &'a [Atom],
    },
}

/// What a function is applied to: rows side by side, or the numbers from 0 on.
#[derive(Clone, Copy)]
pub enum Over<'a> {
    Rows(&'a [Rows<'a>]),
    Count(Atom),
}

/// What a step does. A loop begins with first values for its parameters, and each turn of its body gives the next ones.
#[cycle(block)]
#[derive(Clone, Copy)]
pub enum Op<'a> {
    Operate(Operation),
    View(View<'a>),
    Make(Making<'a>),
    Write(Write<'a>),
    /// A function of rows, and for results without rows the sizes of each component of one.
    Map {
        over: Over<'a>,
        sizes: &'a [&'a [Atom]],
        params: &'a [Var],
        body: &'a Block<'a>,
    },
    /// The rows for which the test holds.
    Filter {
        rows: Rows<'a>,
        params: &'a [Var],
        test: &'a Block<'a>,
    },
    /// And those for which it does not, behind them.
    Partition {
        rows: Rows<'a>,
        params: &'a [Var],
        test: &'a Block<'a>,
    },
    Reduce {
        neutral: &'a [Atom],
        rows: Rows<'a>,
        operator: Operator<'a>,
    },
    /// The reductions of all prefixes.
    Scan {
        neutral: &'a [Atom],
        rows: Rows<'a>,
        operator: Operator<'a>,
    },
    /// Rows are combined into the places that the indices name, and passed over where there is none.
    Hist {
        in_place: bool,
        arrays: &'a [Atom],
        neutral: &'a [Atom],
        indices: Atom,
        rows: Rows<'a>,
        operator: Operator<'a>,
    },
    If(Atom, &'a Block<'a>, &'a Block<'a>),
    /// As many turns as `count` says. The index counts them from 0.
    For {
        params: &'a [Var],
        first: &'a [Atom],
        index: Var,
        count: Atom,
        body: &'a Block<'a>,
    },
    /// A turn for each row.
    ForIn {
        params: &'a [Var],
        first: &'a [Atom],
        row: &'a [Var],
        rows: Rows<'a>,
        body: &'a Block<'a>,
    },
    /// Turns while the test holds. It reports where the budget of turns is used up.
    While {
        params: &'a [Var],
        first: &'a [Atom],
        test: &'a Block<'a>,
        body: &'a Block<'a>,
    },
}

/// A function of two rows.
#[cycle(block)]
#[derive(Clone, Copy)]
pub struct Operator<'a> {
    pub left: &'a [Var],
    pub right: &'a [Var],
    pub body: &'a Block<'a>,
}

/// New variables for all that a step gives, what it does, and where it reports.
#[cycle(block)]
#[derive(Clone, Copy)]
pub struct Step<'a> {
    pub out: &'a [Var],
    pub op: Op<'a>,
    pub place: Place,
}

/// Steps in order, and what they come to.
#[cycle(block)]
#[derive(Clone, Copy)]
pub struct Block<'a> {
    pub steps: &'a [Step<'a>],
    pub results: &'a [Atom],
}

/// The variables of the entry's parameters and its body. All numbers are below `names`.
#[derive(Clone, Copy)]
pub struct Core<'a> {
    pub params: &'a [Var],
    pub body: Block<'a>,
    pub names: u32,
}
