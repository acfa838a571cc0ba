// Why a file of rows was not gone through.

/// What is wrong with a line of a file of rows.
#[derive(Clone, Copy)]
pub enum Wrong {
    /// The first line names no kind of rows.
    Kind,
    /// The line is none that these rows have.
    Line,
    /// An answer stands behind no text.
    NoText,
    /// A row has no answer.
    NoAnswer,
    /// A text belongs to nothing.
    Text,
    /// What stands behind an at sign is no byte and no text to be repeated.
    Escape,
    /// A number is wanted.
    Number,
    /// The name of a file is no UTF-8.
    Name,
    /// A row says the same twice.
    Twice,
    /// A row of a run says no words.
    NoRun,
}

impl Wrong {
    pub fn text(self) -> &'static str {
        match self {
            Wrong::Kind => "the first line names no kind of rows",
            Wrong::Line => "no such line",
            Wrong::NoText => "an answer without a text",
            Wrong::NoAnswer => "a row without an answer",
            Wrong::Text => "a text that belongs to nothing",
            Wrong::Escape => "no escape",
            Wrong::Number => "no number",
            Wrong::Name => "a name that is no UTF-8",
            Wrong::Twice => "said twice",
            Wrong::NoRun => "a row without its words",
        }
    }
}

/// Why a file of rows was not gone through.
#[derive(Clone, Copy)]
pub enum Fault {
    /// No row is written like this line.
    Malformed { line: u64, wrong: Wrong },
    /// Memory ran out.
    Memory,
}
