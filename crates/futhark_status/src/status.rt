// What a run answers.
ghost use Rattle.std.specs.Prelude.{◌≡◌};
ghost use Rattle.futhark_status.specs.Status.{code_of};

use front::{Misfit, Misuse, NameErr, TypeErr};
use fut_lexer::LexErr;
use fut_parser::ParseErr;
use fut_scalar::{Name, Place, Report};
use value_text::TextErr;

/// Why a source is refused. What stands inside is never `Memory`.
#[derive(Debug, Drop)]
pub enum Why {
    Load,
    Lex(LexErr),
    Parse(ParseErr),
    /// At this token the text leaves the part of the language that is built.
    NotBuilt { at: Place },
    /// The file imports itself, perhaps through others.
    ImportCycle,
    Names(NameErr),
    Types(TypeErr),
    /// The program has no sizing.
    Sizes(Misfit),
    /// The program breaks a rule of aliases and consumption.
    Unique(Misuse),
    /// The file has more than 4,194,304 bytes.
    FileBytes,
    /// There are 256 files before it.
    Files,
    Memory,
}

/// Why a source is refused, and the path of the file in which that stands.
#[derive(Debug, Drop)]
pub struct Refused {
    pub why: Why,
    pub path: Name,
}

/// Why a run has no entry.
#[derive(Clone, Copy, Debug, PartialEq, Eq)]
pub enum EntryErr {
    /// No declaration `entry` of this name stands directly in the named file; and for `main` no `def` or `let` either.
    NoEntry,
    /// It has type parameters, or its type or a size of a parameter is not of the form of an entry.
    OutsideProfile,
}

/// A count that passed its limit.
#[derive(Clone, Copy, Debug, PartialEq, Eq)]
pub enum LimitKind {
    FileBytes,
    /// Of a program, the prelude not counted.
    Files,
    /// Of the nodes of a source text in one another.
    Nesting,
    /// Of parametric modules.
    Applications,
    /// Of the program with its functions unfolded, and of these nodes in one another.
    Nodes,
    Depth,
    InputBytes,
}

/// The end of a run.
#[derive(Debug, Drop)]
pub enum Status {
    /// The whole text is on out.
    Done,
    /// The words are no command; the number, from 1, of the first word that breaks a rule.
    Usage { word: u64 },
    LoadFault(Refused),
    Text(Refused),
    Names(Refused),
    Types(Refused),
    Sizes(Refused),
    Unique(Refused),
    /// The program has no entry of this name, or one of another form.
    Entry(EntryErr, Name),
    Limit { what: LimitKind },
    ReadFault,
    Input(TextErr),
    /// The program failed; the path is that of the file in which it did.
    Failure(Report, Name),
    /// A `while` has spent its turns.
    Turns(Report, Name),
    /// A write failed; out took a prefix of the text.
    WriteFault,
    Memory,
}

/// The exit status of the program.
pub fn code(status: &Status) -> u8
    ensures { result ≡ code_of status.now }
{
    match status {
        Status::Done => 0,
        Status::Usage { word: _ } => 1,
        Status::LoadFault(_) => 2,
        Status::Text(_) => 3,
        Status::Names(_) => 4,
        Status::Types(_) => 5,
        Status::Sizes(_) => 6,
        Status::Unique(_) => 7,
        Status::Entry(_, _) => 8,
        Status::Limit { what: _ } => 9,
        Status::ReadFault => 10,
        Status::Input(_) => 11,
        Status::Failure(_, _) => 12,
        Status::Turns(_, _) => 13,
        Status::WriteFault => 14,
        Status::Memory => 15,
    }
}
