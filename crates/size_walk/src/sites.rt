// Where a term stands.
use size_program::{NumberMap, Program};

/// Where a term stands: the program, what is known of names, and how many terms deeper the walk may go.
#[derive(Clone, Copy)]
pub struct Site<'a> {
    pub program: Program<'a>,
    pub names: &'a NumberMap<'a>,
    pub depth: u32,
}
