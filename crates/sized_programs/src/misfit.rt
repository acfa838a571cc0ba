// Why a program has no sizing, in words.
use fut_scalar::{Name, Place};

/// A size as it is shown.
#[derive(Debug, Drop)]
pub enum Shown {
    Number(u64),
    /// A name as it stands in the source.
    Named(Name),
    /// A size that no number and no name of the source tells.
    Unknown,
}

/// The first refusal of a program's sizes, in the order of evaluation.
#[derive(Debug, Drop)]
pub enum Misfit {
    /// The size that is wanted at a place and the one that is found there differ.
    SizesDiffer {
        left: Shown,
        right: Shown,
        at: Place,
    },
    /// A size would leave its scope in what a function takes, or no value gives a size name its size.
    Escapes {
        at: Place,
    },
    /// Rows to which no name and no constant gives a size.
    Irregular {
        at: Place,
    },
    /// Memory ran out. It is answered too where types are too large to be written out, and where a name has no text or a number
    /// no place, neither of which comes.
    Memory,
}
