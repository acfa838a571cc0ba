// Files, and what is written of a definition.
use bumpalo::Bump;
use fut_scalar::Place;
use fut_tree::{Exp, Held, Pat, Program, TypeExp};

/// A file: its path, and its declarations.
#[derive(Clone, Copy)]
pub struct SourceFile<'a> {
    pub path: &'a str,
    pub program: &'a Program<'a>,
}

/// The files, and the arena that holds what is made of them.
#[derive(Clone, Copy)]
pub struct Sources<'a> {
    pub files: &'a [SourceFile<'a>],
    pub bump: &'a Bump,
}

/// What is written of a definition.
#[derive(Clone, Copy)]
pub enum Written<'a> {
    /// Patterns, the type of the result, and the value.
    Definition(&'a [Held<'a, Pat<'a>>], Option<&'a TypeExp<'a>>, &'a Exp<'a>),
    /// A type.
    Type(Place, &'a TypeExp<'a>),
    /// The value of the module that is met, as a member of this type.
    Sealed(Place, &'a TypeExp<'a>),
    /// A new type that hides that of the module which is met.
    Hidden(Place),
    /// The type of the module that is met, which has to be this one.
    Same(Place, &'a TypeExp<'a>),
    /// The same, where it has to be one that was given.
    Given(Place),
}
