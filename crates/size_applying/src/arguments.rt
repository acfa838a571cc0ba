// Arguments, and what is wanted of them.
ghost use Rattle.std.specs.Prelude.{◌≡◌};
ghost use Rattle.fut_sizes.specs.Applications.{is_arrow, is_function, is_function_type};
ghost use Rattle.size_arena.specs.Trees.{size_of, type_of};

use fut_flat::Exp;
use fut_types::Head;
use size_arena::{Frames, Free, SizeTree, TypeTree};
use size_program::NumberMap;

/// An argument of an application, by its node.
#[derive(Clone, Copy)]
pub enum Argument<'a> {
    /// It is sized already. As a size it is worth this, if it is a name or a constant; the use of a name is sized at its node once
    /// all is matched.
    Early {
        node: u32,
        value: Option<Free>,
        is_use: bool,
        size: &'a SizeTree<'a>,
    },
    /// A lambda, which is sized with what is wanted of it, where this is known of names.
    Late {
        exp: &'a Exp<'a>,
        node: u32,
        names: &'a NumberMap<'a>,
    },
}

/// A term that may be a part of an application.
#[derive(Clone, Copy)]
pub enum Part<'a> {
    /// A function that is applied to arguments so far.
    Applied {
        size: &'a SizeTree<'a>,
        /// Whether all results of a function that it is applied to have to have one shape.
        is_regular: bool,
        arguments: &'a [Argument<'a>],
    },
    /// A lambda at a node, which waits for what is wanted of it; its parameters choose these size names.
    Waiting {
        exp: &'a Exp<'a>,
        node: u32,
        names: &'a NumberMap<'a>,
        heads: &'a [u32],
    },
}

/// What an application at a node wants of a lambda.
#[derive(Clone, Copy)]
pub struct Want<'a> {
    pub node: u32,
    pub is_regular: bool,
    pub size: &'a SizeTree<'a>,
}

/// What an application wants of an argument: a sized type in the frames of the function types around it.
#[derive(Clone, Copy)]
pub struct Wanting<'a> {
    /// The node of its application.
    pub node: u32,
    pub argument: Argument<'a>,
    pub frames: &'a Frames<'a>,
    pub wanted: &'a SizeTree<'a>,
}

/// A node whose sized type, in the frames of the function types around it, is known once all is matched.
#[derive(Clone, Copy)]
pub struct Later<'a> {
    pub node: u32,
    pub frames: &'a Frames<'a>,
    pub size: &'a SizeTree<'a>,
    /// Whether it is what the node before gives: of a function type, what stands behind it.
    pub follows: bool,
}

#[tactic(auto, using(crate::proofs::ArgumentForms::types))]
fn is_function_type(ty: &TypeTree<'_>) -> bool
    ensures { result ≡ is_function_type (type_of ty.now) }
{
    match ty {
        TypeTree::Var(_) => false,
        TypeTree::Made { head, .. } => matches!(head, Head::Fun),
    }
}

/// Whether a sized type is that of a function.
#[tactic(auto, using(crate::proofs::ArgumentForms::sizes))]
pub fn is_function(tree: &SizeTree<'_>) -> bool
    ensures { result ≡ is_function (size_of tree.now) }
{
    match tree {
        SizeTree::Fun { .. } => true,
        SizeTree::Open { ty, .. } => is_function_type(ty),
        SizeTree::Hole(_) => false,
        SizeTree::Level { .. } => false,
        SizeTree::Built { .. } => false,
    }
}

/// Whether a sized type is a function's arrow.
#[tactic(auto, using(crate::proofs::ArgumentForms::arrows))]
pub(crate) fn is_arrow(tree: &SizeTree<'_>) -> bool
    ensures { result ≡ is_arrow (size_of tree.now) }
{
    match tree {
        SizeTree::Fun { .. } => true,
        SizeTree::Hole(_) => false,
        SizeTree::Open { .. } => false,
        SizeTree::Level { .. } => false,
        SizeTree::Built { .. } => false,
    }
}
