// A term that may be the head of an application.
use alias_values::TypeTree;
use fut_scalar::BindId;
use uniqueness::Held;

/// A term that may be the head of an application, with the arguments so far.
#[derive(Clone, Copy)]
pub struct Part<'a> {
    pub head: Held<'a>,
    /// A name, or a path of fields from one, that is still to be used.
    pub name: Option<BindId>,
    pub ty: &'a TypeTree<'a>,
    pub arguments: &'a [Held<'a>],
}
