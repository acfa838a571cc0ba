// The run, from its words to its status.
ghost use Rattle.std.specs.Prelude.{◌≡◌};
ghost use Rattle.command_words.specs.Held.{command_in};
ghost use Rattle.futhark_core.specs.Comes.{Complete};
ghost use Rattle.futhark_core.specs.Private.Stages.{SourceRow};
ghost use Rattle.futhark_core.specs.Row.{RunRow};
ghost use Rattle.futhark_status.specs.Report.{Reported};

use crate::program::act;
use crate::statuses::refused_status;
use bumpalo::Bump;
use command_words::{Command, read_words};
use front::{accept, read_prelude};
use fut_io::{Loader, Sink, Source};
use fut_scalar::{List, Name};
use futhark_status::{Status, report};
use std::alloc::Global;

/// How many bytes the trees and blocks of a run may take. What unfolds may have as many parts as a program likes, so that it
/// is this limit that ends a run before the machine has no memory left.
const MOST_BYTES: usize = 2_147_483_648;

/// What is done with the program that begins with the file of a command. Its trees stand in memory until then.
fn run_source<L: Loader, S: Source, K: Sink>(
    alloc: Global,
    command: &Command<'_>,
    loader: &mut L,
    input: &mut S,
    out: &mut K,
) -> Status
    ensures { SourceRow (command_in command.now) result
        (record { loader = L.seen loader.old; input = S.seen input.old; out = K.seen out.old })
        (record { loader = L.seen loader.new; input = S.seen input.new; out = K.seen out.new }) }
{
    let Ok(prelude) = read_prelude(alloc) else {
        return Status::Memory;
    };
    let bump = Bump::new(alloc);
    bump.set_allocation_limit(Some(MOST_BYTES));
    match accept(alloc, &bump, &prelude, loader, command.file) {
        Ok(it) => act(alloc, &bump, command, &it.program, it.files, input, out),
        Err(refused) => refused_status(refused),
    }
}

/// The stages of a run, from its words on.
fn run_stages<L: Loader, S: Source, K: Sink>(
    alloc: Global,
    words: &List<Name>,
    loader: &mut L,
    input: &mut S,
    out: &mut K,
) -> Status
    ensures { RunRow result words.now
        (record { loader = L.seen loader.old; input = S.seen input.old; out = K.seen out.old })
        (record { loader = L.seen loader.new; input = S.seen input.new; out = K.seen out.new }) }
{
    let command = match read_words(words) {
        Ok(command) => command,
        Err(word) => return Status::Usage { word },
    };
    run_source(alloc, &command, loader, input, out)
}

/// The run, but for its line on err.
fn run_command<L: Loader, S: Source, K: Sink>(
    alloc: Global,
    words: &List<Name>,
    loader: &mut L,
    input: &mut S,
    out: &mut K,
) -> Status
    ensures row { RunRow result words.now
        (record { loader = L.seen loader.old; input = S.seen input.old; out = K.seen out.old })
        (record { loader = L.seen loader.new; input = S.seen input.new; out = K.seen out.new }) }
    ensures complete { Complete result words.now
        (record { loader = L.seen loader.old; input = S.seen input.old; out = K.seen out.old })
        (record { loader = L.seen loader.new; input = S.seen input.new; out = K.seen out.new }) }
{
    let status = run_stages(alloc, words, loader, input, out);
    status
}

/// Runs the program that the words name on the input, or checks it. Out gets its result, or `accepted`, and err the line
/// of another status.
///
/// The words are those behind the program's name. Nothing is read from input before the source is accepted, its entry found,
/// and the program unfolded from there measured.
pub fn run_futhark<L: Loader, S: Source, K: Sink, E: Sink>(
    alloc: Global,
    words: &List<Name>,
    loader: &mut L,
    input: &mut S,
    out: &mut K,
    err: &mut E,
) -> Status
    // Each status comes only where its row holds.
    ensures row { RunRow result words.now
        (record { loader = L.seen loader.old; input = S.seen input.old; out = K.seen out.old })
        (record { loader = L.seen loader.new; input = S.seen input.new; out = K.seen out.new }) }
    // What the words, the told files and the told input call for comes, faults and want of memory aside.
    ensures complete { Complete result words.now
        (record { loader = L.seen loader.old; input = S.seen input.old; out = K.seen out.old })
        (record { loader = L.seen loader.new; input = S.seen input.new; out = K.seen out.new }) }
    // The line of the status came on err, or a prefix of it and a fault of err; after Done err is as before.
    ensures line { Reported result (E.seen err.old) (E.seen err.new) }
{
    let status = run_command(alloc, words, loader, input, out);
    report(err, &status);
    status
}
