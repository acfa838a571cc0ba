// Alias names.
use fut_scalar::BindId;

/// A name with which a value may share memory.
#[derive(Clone, Copy)]
pub enum Alias {
    /// The node where a name is bound, a component of the name, and the name.
    Part(u32, u32, BindId),
    /// What the components of a call's result share: the call's node.
    Own(u32),
}
