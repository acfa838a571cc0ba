// What is told of a program.
use fut_scalar::IntType;
use told_rows::Sizes;

/// What is told of a program before it is unfolded: the types of integers without a suffix, by the numbers of their nodes, and a
/// sizing where there is one.
#[derive(Clone, Copy)]
pub struct Told<'a> {
    pub types: &'a [IntType],
    pub sizes: Option<&'a Sizes<'a>>,
}
