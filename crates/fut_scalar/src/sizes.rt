// Sizes of arrays, and the types that arguments of an entry may have.
use crate::{BindId, List, NodeId, ScalarType};

/// The size of one level of an array type.
#[derive(Clone, Copy, Debug, PartialEq, Eq)]
pub enum Dim {
    /// A number that is written.
    Const(u64),
    /// What a bound name stands for.
    Name(BindId),
    /// A size that nothing names: the node that makes it, and which one of that node.
    Unknown(NodeId, u32),
}

/// A type of scalars, or of arrays of scalars of so many dimensions, without their sizes.
#[derive(Clone, Copy, Debug, PartialEq, Eq)]
pub struct DataType {
    pub elem: ScalarType,
    pub rank: u32,
}

/// The type of an argument or a result of an entry: a scalar where it has no sizes, else an array of scalars.
#[derive(Debug, Drop)]
pub struct ArgType {
    pub elem: ScalarType,
    /// The sizes from the outermost level inwards.
    pub dims: List<Dim>,
    /// By which name a later size may name this parameter, where it has one.
    pub name: Option<BindId>,
}
