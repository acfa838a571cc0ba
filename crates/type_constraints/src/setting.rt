// What stays the same while an expression is gone over.
use fut_types::Kind;
use std::alloc::Global;

/// Where an expression stands: what kind places for data ask for, how many numbers the program has, and how deep the
/// definition is around it.
#[derive(Clone, Copy)]
pub struct Setting {
    pub alloc: Global,
    pub places: Kind,
    pub base: u32,
    pub depth: u32,
}
