// The run of an accepted source.
ghost use Rattle.std.specs.Prelude.{◌≡◌, Ok};
ghost use Rattle.fut_blocks.specs.Programs.{Rising};
ghost use Rattle.command_words.specs.Held.{command_in};
ghost use Rattle.typed_programs.specs.Known.{Is_known};
ghost use Rattle.module_elab.specs.Elaborated.{program_of as flat_of};
ghost use Rattle.entry_sizes.specs.Wanted.{Are_wanted};
ghost use Rattle.fut_typing.specs.Program.{program_of as typing_of};
ghost use Rattle.sized_programs.specs.Sizings.{Has_sizing};
ghost use Rattle.sizing_tables.specs.Claims.{Is_resolved};
ghost use Rattle.type_infer.specs.Inferring.{Told_by};
ghost use Rattle.elab_scopes.specs.Elaboration.{Elaborates};
ghost use Rattle.module_state.specs.Written.{files_of};
ghost use Rattle.futhark_core.specs.Acceptance.{Source as TheSource};
ghost use Rattle.futhark_core.specs.Meaning.{Entered};
ghost use Rattle.futhark_core.specs.Private.Finding.{Is_found};
ghost use Rattle.futhark_core.specs.Private.Stages.{IsUnentered, Never_wrong_for, Runs_for, unprepared};
ghost use Rattle.futhark_core.specs.Row.{ActionRow, CheckRow, IsReady, ProgramRow};

use crate::entries::{Entry, FindErr, find_entry};
use crate::statuses::{failed_status, input_status};
use crate::values::{print_result, read_data};
use bumpalo::Bump;
use command_words::{Action, Command};
use front::{SizedProgram, SourceFile};
use fut_blocks::Program;
use fut_eval::eval;
use fut_io::{ReadErr, Sink, Source, read_all, write_all};
use fut_scalar::Name;
use futhark_status::{EntryErr, LimitKind, Status};
use std::alloc::Global;
use unfolded_runs::{PrepareErr, prepare};

/// The most bytes of the input.
const MOST_INPUT_BYTES: u64 = 67_108_864;

/// The run of a program that is ready.
fn run_ready<S: Source, K: Sink>(
    alloc: Global,
    command: &Command<'_>,
    program: &Program<'_>,
    entry: &Entry,
    files: &[SourceFile<'_>],
    input: &mut S,
    out: &mut K,
) -> Status
    requires rising { Rising program.now }
    requires wanted { Are_wanted entry.now.ty.params entry.now.wanted }
    requires never_wrong { Never_wrong_for entry.now.ty.params command.now.turns program.now }
    ensures { (source : TheSource) (e : Entered) → source.files ≡ files_of files.now → e.params ≡ entry.now.ty.params → e.wanted ≡ entry.now.wanted → e.tuple ≡ entry.now.ty.tuple → e.results ≡ entry.now.ty.results → IsReady (command_in command.now) source e → Runs_for source e command.now.turns program.now → ProgramRow result (command_in command.now) source
        (record { input = S.seen input.old; out = K.seen out.old })
        (record { input = S.seen input.new; out = K.seen out.new }) }
{
    let bytes = match read_all(alloc, input, MOST_INPUT_BYTES) {
        Ok(bytes) => bytes,
        Err(ReadErr::Failed) => return Status::ReadFault,
        Err(ReadErr::TooLong) => return Status::Limit {
            what: LimitKind::InputBytes,
        },
        Err(ReadErr::Memory) => return Status::Memory,
    };
    let arguments = match read_data(alloc, &entry.wanted, bytes.as_slice()) {
        Ok(arguments) => arguments,
        Err(err) => return input_status(err),
    };
    let results = match eval(alloc, program, arguments.as_slice(), command.turns) {
        Ok(results) => results,
        Err(err) => return failed_status(alloc, err, files),
    };
    let Ok(text) = print_result(
        alloc,
        entry.ty.tuple,
        entry.ty.results.as_slice(),
        results.as_slice(),
    ) else {
        return Status::Memory;
    };
    match write_all(out, &text) {
        Ok(()) => Status::Done,
        Err(_) => Status::WriteFault,
    }
}

/// The status of a program that is not ready.
fn unprepared(err: PrepareErr) -> Status
    ensures { result ≡ unprepared err }
{
    match err {
        PrepareErr::Nodes => Status::Limit {
            what: LimitKind::Nodes,
        },
        PrepareErr::Depth => Status::Limit {
            what: LimitKind::Depth,
        },
        PrepareErr::Memory => Status::Memory,
    }
}

/// The run of an accepted source from an entry.
fn run_entered<'a, S: Source, K: Sink>(
    alloc: Global,
    bump: &'a Bump,
    command: &Command<'_>,
    program: &SizedProgram<'a>,
    entry: &Entry,
    files: &[SourceFile<'_>],
    input: &mut S,
    out: &mut K,
) -> Status
    requires known { Is_known program.now.accepted.now }
    requires sized { Told_by (Has_sizing (typing_of program.now.accepted.now.flat) program.now.sizing.now) program.now.accepted.now.inference }
    requires resolved { Is_resolved program.now.accepted.now.flat }
    requires found { Is_found program.now.accepted.now program.now.sizing.now command.now.entry.now entry.now }
    ensures { (source : TheSource) → source.files ≡ files_of files.now → source.flat ≡ program.now.accepted.now.flat → Elaborates source.files (Ok (flat_of source.flat)) → ProgramRow result (command_in command.now) source
        (record { input = S.seen input.old; out = K.seen out.old })
        (record { input = S.seen input.new; out = K.seen out.new }) }
{
    let params = entry.ty.params.as_slice();
    match prepare(alloc, bump, program, entry.number, params) {
        Ok(program) => run_ready(alloc, command, &program, entry, files, input, out),
        Err(err) => unprepared(err),
    }
}

/// The status of a source without an entry.
fn unentered(alloc: Global, err: EntryErr, name: &str) -> Status
    ensures { IsUnentered err name.now result }
{
    match Name::new(alloc, name) {
        Ok(name) => Status::Entry(err, name),
        Err(_) => Status::Memory,
    }
}

/// The run of an accepted source.
fn run_program<'a, S: Source, K: Sink>(
    alloc: Global,
    bump: &'a Bump,
    command: &Command<'_>,
    program: &SizedProgram<'a>,
    files: &[SourceFile<'_>],
    input: &mut S,
    out: &mut K,
) -> Status
    requires known { Is_known program.now.accepted.now }
    requires sized { Told_by (Has_sizing (typing_of program.now.accepted.now.flat) program.now.sizing.now) program.now.accepted.now.inference }
    requires resolved { Is_resolved program.now.accepted.now.flat }
    ensures { (source : TheSource) → source.files ≡ files_of files.now → source.flat ≡ program.now.accepted.now.flat → Elaborates source.files (Ok (flat_of source.flat)) → ProgramRow result (command_in command.now) source
        (record { input = S.seen input.old; out = K.seen out.old })
        (record { input = S.seen input.new; out = K.seen out.new }) }
{
    match find_entry(alloc, bump, program, command.entry) {
        Ok(entry) => run_entered(alloc, bump, command, program, &entry, files, input, out),
        Err(FindErr::Entry(err)) => unentered(alloc, err, command.entry),
        Err(FindErr::Memory) => Status::Memory,
    }
}

/// Tells that a source is accepted.
fn tell_accepted<S: Source, K: Sink>(input: &S, out: &mut K) -> Status
    ensures { CheckRow result
        (record { input = S.seen input.now; out = K.seen out.old })
        (record { input = S.seen input.now; out = K.seen out.new }) }
{
    let _input = input;
    match write_all(out, b"accepted\n") {
        Ok(()) => Status::Done,
        Err(_) => Status::WriteFault,
    }
}

/// What is done with an accepted source.
pub fn act<'a, S: Source, K: Sink>(
    alloc: Global,
    bump: &'a Bump,
    command: &Command<'_>,
    program: &SizedProgram<'a>,
    files: &[SourceFile<'_>],
    input: &mut S,
    out: &mut K,
) -> Status
    requires known { Is_known program.now.accepted.now }
    requires sized { Told_by (Has_sizing (typing_of program.now.accepted.now.flat) program.now.sizing.now) program.now.accepted.now.inference }
    requires resolved { Is_resolved program.now.accepted.now.flat }
    ensures { (source : TheSource) → source.files ≡ files_of files.now → source.flat ≡ program.now.accepted.now.flat → Elaborates source.files (Ok (flat_of source.flat)) → ActionRow command.now.action result (command_in command.now) source
        (record { input = S.seen input.old; out = K.seen out.old })
        (record { input = S.seen input.new; out = K.seen out.new }) }
{
    match command.action {
        Action::Run => run_program(alloc, bump, command, program, files, input, out),
        Action::Check => tell_accepted(&*input, out),
    }
}
