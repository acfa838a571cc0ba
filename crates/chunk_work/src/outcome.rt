//! What a worker has done.

/// A chunk's number and what came of it.
#[derive(Drop)]
pub struct Done<O> {
    pub chunk: u64,
    pub outcome: O,
}
