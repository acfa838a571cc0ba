// What was consumed, and which rule is broken.
use crate::aliases::Alias;
use fut_flat::Primitive;
use fut_scalar::{BindId, Place};

/// Where something happens: at the first token of a node, or at the mark of an update.
#[derive(Clone, Copy)]
pub enum Spot {
    First(u32),
    Mark(Place),
}

/// An alias that was consumed, and where that happened first.
#[derive(Clone, Copy)]
pub struct Loss {
    pub alias: Alias,
    pub at: Spot,
}

/// What a refusal names.
#[derive(Clone, Copy)]
pub enum Named {
    ByAlias(Alias),
    ByName(BindId),
    ByPrimitive(Primitive),
    /// A function that has no name.
    AFunction,
}

/// A rule that is broken, with what it names and where.
#[derive(Clone, Copy)]
pub enum Broken {
    /// What was consumed at the first spot is used at the second.
    Consumed(Named, Spot, Spot),
    NotConsumable(Named, Spot),
    Captured(Named, Spot),
    /// What must be fresh shares memory with this.
    ResultAliases(Named, Spot),
}
