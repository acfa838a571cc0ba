// Stars, values and types as trees.
use fut_aliases::Alias;
use fut_types::Head;

/// Stars, in step with a type.
#[derive(Clone, Copy)]
pub enum StarTree<'a> {
    Leaf(bool),
    /// A function: whether it has a star itself, its parameter, its result.
    Arrow(bool, &'a StarTree<'a>, &'a StarTree<'a>),
    Row(&'a [StarTree<'a>]),
}

/// A value by its components, in step with a type.
#[derive(Clone, Copy)]
pub enum ValueTree<'a> {
    Scalar,
    /// An array, or what a type variable stands for.
    Array(&'a [Alias]),
    /// With the stars of its type.
    Function(&'a [Alias], &'a StarTree<'a>),
    Parts(Head, &'a [ValueTree<'a>]),
}

/// A type.
#[derive(Clone, Copy)]
pub enum TypeTree<'a> {
    Var(u32),
    Made(Head, &'a [TypeTree<'a>]),
}
