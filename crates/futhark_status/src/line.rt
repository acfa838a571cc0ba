// The line of a status on err.
ghost use Rattle.std.specs.Prelude.{◌≡◌, [], codes};
ghost use Rattle.futhark_status.specs.Report.{line_in, Reported, Told};
ghost use Rattle.futhark_status.specs.Status.{entry_line, input_line, kind_text, lex_line, limit_line, line_form, line_of, misfit_line, misuse_line, names_line, parse_line, Placed, types_line, why_line};

use crate::pieces::{Piece, size_piece, write_line};
use crate::status::{EntryErr, LimitKind, Refused, Status, Why};
use front::{Misfit, Misuse, NameErr, TypeErr};
use fut_ast::form_name;
use fut_io::Sink;
use fut_lexer::LexErr;
use fut_parser::ParseErr;
use fut_scalar::{FailKind, Name, Place, Report};
use value_text::TextErr;

/// A line without its beginning `futhark: ` and the newline at its end.
#[derive(Clone, Copy)]
pub enum Line<'a> {
    /// No line at all.
    Nothing,
    Said(&'a [u8]),
    /// A number between texts.
    Counted(&'a [u8], u64, &'a [u8]),
    /// The size of a parameter that is another one than is wanted.
    Clashing { param: u64, have: u64, want: i64 },
    /// A text between texts.
    Named(&'a [u8], &'a [u8], &'a [u8]),
    /// What is said of a place of a file, with a name inside.
    Placed(&'a [u8], Place, &'a [u8], &'a [u8], &'a [u8]),
    /// What is said of a name at a place of a file, with another place of it behind.
    PlacedTwice(&'a [u8], Place, &'a [u8], &'a [u8], Place),
    /// Two sizes that differ at a place of a file.
    Differing(&'a [u8], Place, Piece<'a>, Piece<'a>),
}

fn lex_line(reason: LexErr, path: &[u8]) -> Line<'_>
    ensures { line_in result ≡ lex_line reason path.now }
{
    match reason {
        LexErr::NotUtf8 { at } => Line::Placed(path, at, b"not UTF-8 text", b"", b""),
        LexErr::BadToken { at } => Line::Placed(path, at, b"bad token", b"", b""),
        LexErr::Float { at } => Line::Placed(path, at, b"float is left out", b"", b""),
        LexErr::Memory => Line::Nothing,
    }
}

fn parse_line<'a>(reason: &'a ParseErr, path: &'a [u8]) -> Line<'a>
    ensures { line_in result ≡ parse_line reason.now path.now }
{
    match reason {
        ParseErr::Syntax { at } => Line::Placed(path, *at, b"syntax", b"", b""),
        ParseErr::LeftOut { at, what } => {
            let form = form_name(*what).as_bytes();
            Line::Placed(path, *at, b"", form, b" is left out")
        }
        ParseErr::TooDeep { at: _ } => Line::Nothing,
        ParseErr::Memory => Line::Nothing,
    }
}

fn names_line<'a>(reason: &'a NameErr, path: &'a [u8]) -> Line<'a>
    ensures { line_in result ≡ names_line reason.now path.now }
{
    match reason {
        NameErr::Unbound { name, at } => {
            Line::Placed(path, *at, b"", name.as_str().as_bytes(), b" is not bound")
        }
        NameErr::Twice { name, at } => {
            Line::Placed(path, *at, b"", name.as_str().as_bytes(), b" is bound twice")
        }
        NameErr::NoMember { name, at } => {
            Line::Placed(path, *at, b"no member ", name.as_str().as_bytes(), b"")
        }
        NameErr::SealMissing { name, at } => {
            Line::Placed(path, *at, b"the seal lacks ", name.as_str().as_bytes(), b"")
        }
        NameErr::TooManyApplications { at: _ } => Line::Nothing,
    }
}

fn types_line(reason: TypeErr, path: &[u8]) -> Line<'_>
    ensures { line_in result ≡ types_line reason path.now }
{
    match reason {
        TypeErr::NoType { at } => Line::Placed(path, at, b"no type", b"", b""),
        TypeErr::FunctionPlace { at } => {
            Line::Placed(path, at, b"a function stands where data must", b"", b"")
        }
        TypeErr::Ambiguous { at } => Line::Placed(path, at, b"ambiguous type", b"", b""),
        TypeErr::Memory => Line::Nothing,
    }
}

fn misfit_line<'a>(reason: &'a Misfit, path: &'a [u8]) -> Line<'a>
    ensures { line_in result ≡ misfit_line reason.now path.now }
{
    match reason {
        Misfit::SizesDiffer { left, right, at } => {
            Line::Differing(path, *at, size_piece(left), size_piece(right))
        }
        Misfit::Escapes { at } => Line::Placed(path, *at, b"a size escapes", b"", b""),
        Misfit::Irregular { at } => Line::Placed(path, *at, b"irregular", b"", b""),
        Misfit::Memory => Line::Nothing,
    }
}

fn misuse_line<'a>(reason: &'a Misuse, path: &'a [u8]) -> Line<'a>
    ensures { line_in result ≡ misuse_line reason.now path.now }
{
    match reason {
        Misuse::Consumed { name, at, used } => {
            let name = name.as_str().as_bytes();
            Line::PlacedTwice(
                path,
                *used,
                name,
                b" is used after it was consumed at ",
                *at,
            )
        }
        Misuse::NotConsumable { name, at } => {
            Line::Placed(
                path,
                *at,
                b"",
                name.as_str().as_bytes(),
                b" may not be consumed",
            )
        }
        Misuse::ResultAliases { name, at } => {
            Line::Placed(
                path,
                *at,
                b"a value here aliases ",
                name.as_str().as_bytes(),
                b"",
            )
        }
        Misuse::Captured { name, at } => {
            let name = name.as_str().as_bytes();
            Line::Placed(
                path,
                *at,
                b"",
                name,
                b" is captured and may not be consumed",
            )
        }
        Misuse::Memory => Line::Nothing,
    }
}

fn why_line(refused: &Refused) -> Line<'_>
    ensures { line_in result ≡ why_line refused.now.why refused.now.path }
{
    let path = refused.path.as_str().as_bytes();
    match &refused.why {
        Why::Load => Line::Named(b"cannot load ", path, b""),
        Why::Lex(reason) => lex_line(*reason, path),
        Why::Parse(reason) => parse_line(reason, path),
        Why::NotBuilt { at } => Line::Placed(path, *at, b"not built yet", b"", b""),
        Why::ImportCycle => Line::Named(b"", path, b" imports itself"),
        Why::Names(reason) => names_line(reason, path),
        Why::Types(reason) => types_line(*reason, path),
        Why::Sizes(reason) => misfit_line(reason, path),
        Why::Unique(reason) => misuse_line(reason, path),
        Why::FileBytes => Line::Nothing,
        Why::Files => Line::Nothing,
        Why::Memory => Line::Nothing,
    }
}

fn entry_line(reason: EntryErr, name: &Name) -> Line<'_>
    ensures { line_in result ≡ entry_line reason name.now }
{
    let name = name.as_str().as_bytes();
    match reason {
        EntryErr::NoEntry => Line::Named(b"no entry ", name, b""),
        EntryErr::OutsideProfile => Line::Named(b"entry ", name, b" is outside the profile"),
    }
}

fn limit_line(what: LimitKind) -> Line<'static>
    ensures { line_in result ≡ limit_line what }
{
    match what {
        LimitKind::FileBytes => Line::Said(b"limit: file bytes over 4194304"),
        LimitKind::Files => Line::Said(b"limit: files over 256"),
        LimitKind::Nesting => Line::Said(b"limit: nesting over 200"),
        LimitKind::Applications => Line::Said(b"limit: module applications over 1024"),
        LimitKind::Nodes => Line::Said(b"limit: unfolded nodes over 1048576"),
        LimitKind::Depth => Line::Said(b"limit: unfolded depth over 1000"),
        LimitKind::InputBytes => Line::Said(b"limit: input bytes over 67108864"),
    }
}

fn input_line(reason: TextErr) -> Line<'static>
    ensures { line_in result ≡ input_line reason }
{
    match reason {
        TextErr::BadText { at } => Line::Counted(b"input: ", at, b": bad text"),
        TextErr::WrongType { at } => Line::Counted(b"input: ", at, b": wrong type"),
        TextErr::OutOfRange { at } => Line::Counted(b"input: ", at, b": number out of range"),
        TextErr::Irregular { at } => Line::Counted(b"input: ", at, b": rows of different length"),
        TextErr::TooLarge { at } => Line::Counted(b"input: ", at, b": too large"),
        TextErr::SizeClash { param, have, want } => Line::Clashing { param, have, want },
        TextErr::Missing { param } => Line::Counted(b"input: parameter ", param, b" is missing"),
        TextErr::Extra { at } => Line::Counted(b"input: ", at, b": extra text"),
        TextErr::Memory => Line::Nothing,
    }
}

/// What a failure is called.
fn kind_text(kind: FailKind) -> &'static [u8]
    ensures { result.now ≡ kind_text kind }
{
    match kind {
        FailKind::Bounds => b"index out of bounds",
        FailKind::Division => b"division by zero",
        FailKind::Power => b"negative exponent",
        FailKind::Assert => b"assertion failed",
        FailKind::Size => b"size mismatch",
        FailKind::Range => b"bad range",
        FailKind::TooLarge => b"array too large",
        FailKind::Turns => b"turns spent",
    }
}

fn failure_line<'a>(report: Report, path: &'a Name) -> Line<'a>
    ensures { line_in result ≡ Placed path.now report.place (codes "failure: ") (kind_text report.kind) [] }
{
    let kind = kind_text(report.kind);
    Line::Placed(
        path.as_str().as_bytes(),
        report.place,
        b"failure: ",
        kind,
        b"",
    )
}

/// What is said of a status.
fn line_form(status: &Status) -> Line<'_>
    ensures { line_in result ≡ line_form status.now }
{
    match status {
        Status::Done => Line::Nothing,
        Status::Usage { word } => Line::Counted(b"usage: word ", *word, b""),
        Status::LoadFault(refused) => why_line(refused),
        Status::Text(refused) => why_line(refused),
        Status::Names(refused) => why_line(refused),
        Status::Types(refused) => why_line(refused),
        Status::Sizes(refused) => why_line(refused),
        Status::Unique(refused) => why_line(refused),
        Status::Entry(reason, name) => entry_line(*reason, name),
        Status::Limit { what } => limit_line(*what),
        Status::ReadFault => Line::Said(b"read failed"),
        Status::Input(reason) => input_line(*reason),
        Status::Failure(report, path) => failure_line(*report, path),
        Status::Turns(report, path) => {
            let path = path.as_str().as_bytes();
            Line::Placed(path, report.place, b"turns spent", b"", b"")
        }
        Status::WriteFault => Line::Said(b"write failed"),
        Status::Memory => Line::Said(b"out of memory"),
    }
}

/// Writes the line of a status, or a prefix of it where err fails.
fn tell<E: Sink>(err: &mut E, status: &Status)
    ensures { Told (E.seen err.old) (E.seen err.new) (line_of status.now) }
{
    let line = line_form(status);
    let _ = write_line(err, line);
}

/// Writes the line of a status on err, or a prefix of it where err fails; nothing after Done. It takes no memory.
pub fn report<E: Sink>(err: &mut E, status: &Status)
    ensures { Reported status.now (E.seen err.old) (E.seen err.new) }
{
    match status {
        Status::Done => {}
        other => tell(err, other),
    }
}
