// Which rule of aliases and consumption a program breaks, and where.
use fut_scalar::{Name, Place};

/// The first rule of aliases and consumption that a program breaks, in the order of evaluation, with the name that it concerns
/// as it stands in the source. What the components of a call's result share has the name `result`, a function without a name
/// `function`.
#[derive(Debug, Drop)]
pub enum Misuse {
    /// What was consumed at one place is used at another.
    Consumed { name: Name, at: Place, used: Place },
    /// What may not be consumed is consumed: a parameter without a star, a value of the top level, what stands outside of the
    /// loop, the argument of a partial application, or what a function takes that stands where none with a star may.
    NotConsumable { name: Name, at: Place },
    /// A function consumes a name from outside of it.
    Captured { name: Name, at: Place },
    /// What must be fresh shares memory with this.
    ResultAliases { name: Name, at: Place },
    /// Memory ran out. It is answered too where a name has no text or a number no place, neither of which comes.
    Memory,
}
