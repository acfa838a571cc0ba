// What a step makes of a word and a pair's.

/// What each step of a table makes of a word. A sum is taken modulo 2 to the 64.
#[derive(Clone, Copy)]
pub enum Operation {
    /// The pair's word takes the place of the old one.
    Store,
    Add,
    And,
    Or,
    Xor,
    Max,
    Min,
}
