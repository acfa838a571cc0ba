// The statuses of refusals.
ghost use Rattle.std.specs.Prelude.{◌≡◌};
ghost use Rattle.futhark_core.specs.Private.Stages.{Is_failed_status, input_status, report_status, unread_why, why_of};
ghost use Rattle.module_state.specs.Written.{files_of};
ghost use Rattle.futhark_core.specs.Row.{status_for};

use front::{Refused as NotAccepted, RefusedFile, SourceFile, Unread, path_at};
use fut_eval::EvalErr;
use fut_parser::ParseErr;
use fut_scalar::{FailKind, Name, Report};
use futhark_status::{LimitKind, NameErr, Refused, Status, Why};
use std::alloc::Global;
use value_text::TextErr;

/// The status that a refusal of the source is answered with.
fn status_of(why: Why, path: Name) -> Status
    ensures { result ≡ status_for why path }
{
    match why {
        Why::Load => Status::LoadFault(Refused { why, path }),
        Why::FileBytes => Status::Limit {
            what: LimitKind::FileBytes,
        },
        Why::Parse(ParseErr::TooDeep { at: _ }) => Status::Limit {
            what: LimitKind::Nesting,
        },
        Why::Files => Status::Limit {
            what: LimitKind::Files,
        },
        Why::Names(NameErr::TooManyApplications { at: _ }) => Status::Limit {
            what: LimitKind::Applications,
        },
        Why::Lex(_) | Why::Parse(_) | Why::NotBuilt { at: _ } => {
            Status::Text(Refused { why, path })
        }
        Why::ImportCycle | Why::Names(_) => Status::Names(Refused { why, path }),
        Why::Types(_) => Status::Types(Refused { why, path }),
        Why::Sizes(_) => Status::Sizes(Refused { why, path }),
        Why::Unique(_) => Status::Unique(Refused { why, path }),
        Why::Memory => Status::Memory,
    }
}

/// Why a file is not read, as a status tells it.
fn unread_why(unread: Unread) -> Why
    ensures { result ≡ unread_why unread }
{
    match unread {
        Unread::Load => Why::Load,
        Unread::TooLong => Why::FileBytes,
        Unread::Lex(err) => Why::Lex(err),
        Unread::Parse(err) => Why::Parse(err),
        Unread::NotBuilt { at } => Why::NotBuilt { at },
        Unread::TooMany => Why::Files,
        Unread::Memory => Why::Memory,
    }
}

/// Why a program is not accepted, as a status tells it.
fn why_of(refused: NotAccepted) -> Why
    ensures { result ≡ why_of refused }
{
    match refused {
        NotAccepted::Unread(err) => unread_why(err),
        NotAccepted::ImportCycle => Why::ImportCycle,
        NotAccepted::Names(err) => Why::Names(err),
        NotAccepted::Types(err) => Why::Types(err),
        NotAccepted::Misfit(err) => Why::Sizes(err),
        NotAccepted::Misused(err) => Why::Unique(err),
        NotAccepted::Memory => Why::Memory,
    }
}

/// The status of a program that is not accepted.
pub fn refused_status(refused: RefusedFile) -> Status
    ensures { result ≡ status_for (why_of refused.why) refused.path }
{
    status_of(why_of(refused.why), refused.path)
}

fn report_status(report: Report, path: Name) -> Status
    ensures { result ≡ report_status report path }
{
    match report.kind {
        FailKind::Turns => Status::Turns(report, path),
        FailKind::Bounds
        | FailKind::Division
        | FailKind::Power
        | FailKind::Assert
        | FailKind::Size
        | FailKind::Range
        | FailKind::TooLarge => Status::Failure(report, path),
    }
}

/// The status of a program that has no result. Its failure stands in one of its files.
pub fn failed_status(alloc: Global, err: EvalErr, files: &[SourceFile<'_>]) -> Status
    ensures { Is_failed_status (files_of files.now) err result }
{
    let report = match err {
        EvalErr::Failed(report) => report,
        EvalErr::Memory => return Status::Memory,
    };
    match Name::new(alloc, path_at(files, report.place.file)) {
        Ok(path) => report_status(report, path),
        Err(_) => Status::Memory,
    }
}

/// The status of an input that gives no arguments.
pub fn input_status(err: TextErr) -> Status
    ensures { result ≡ input_status err }
{
    match err {
        TextErr::Memory => Status::Memory,
        err => Status::Input(err),
    }
}
