// Types as trees.
use fut_types::Head;

/// A type.
#[derive(Clone, Copy)]
pub enum TypeTree<'a> {
    Var(u32),
    Made {
        height: u32,
        head: Head,
        parts: &'a [TypeTree<'a>],
    },
}
