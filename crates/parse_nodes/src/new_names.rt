// The names that sugar makes. No text can spell one, since they are of blanks alone.

/// The name of a value that is held.
pub const HELD_NAME: &str = " ";

/// The name of a function's first parameter.
pub const FIRST_NAME: &str = "  ";

/// The name of a function's second parameter.
pub const SECOND_NAME: &str = "   ";

/// The name of what `|>` hands on.
pub const PIPED_NAME: &str = "    ";
