// A call of the program.
ghost use Rattle.std.specs.Prelude.{◌≡◌};
ghost use Rattle.futhark_status.specs.Report.{Reported};
ghost use Rattle.futhark_command.specs.Call.{text_asked, AskedComplete, AskedRow, CallComplete, CallRow, WrittenRow};

use crate::gather::{WordsErr, all_words};
use crate::told::text_asked;
use fut_io::{Loader, Sink, Source, Words, write_all};
use fut_scalar::{List, Name};
use futhark_core::run_futhark;
use futhark_status::{Status, report};
use std::alloc::Global;

/// Writes a text on out.
fn tell<K: Sink>(out: &mut K, text: &str) -> Status
    ensures { WrittenRow result text.now (K.seen out.old) (K.seen out.new) }
{
    match write_all(out, text.as_bytes()) {
        Ok(()) => Status::Done,
        Err(_) => Status::WriteFault,
    }
}

/// The status, with its line on err.
fn reported<E: Sink>(err: &mut E, status: Status) -> Status
    ensures status { result ≡ status }
    ensures line { Reported status (E.seen err.old) (E.seen err.new) }
{
    report(err, &status);
    status
}

/// Does what the words ask for.
fn answer<L: Loader, S: Source, K: Sink, E: Sink>(
    alloc: Global,
    words: &List<Name>,
    loader: &mut L,
    input: &mut S,
    out: &mut K,
    err: &mut E,
) -> Status
    ensures row { AskedRow (text_asked words.now) result words.now
        (record { loader = L.seen loader.old; input = S.seen input.old; out = K.seen out.old })
        (record { loader = L.seen loader.new; input = S.seen input.new; out = K.seen out.new }) }
    ensures complete { AskedComplete (text_asked words.now) result words.now
        (record { loader = L.seen loader.old; input = S.seen input.old; out = K.seen out.old })
        (record { loader = L.seen loader.new; input = S.seen input.new; out = K.seen out.new }) }
    ensures line { Reported result (E.seen err.old) (E.seen err.new) }
{
    match text_asked(words) {
        Some(text) => {
            let status = tell(out, text);
            reported(err, status)
        }
        None => run_futhark(alloc, words, loader, input, out, err),
    }
}

/// Does what the words behind the program's name ask for: a run or a check of a file, or `--help` or `--version` alone.
pub fn run_command_line<W: Words, L: Loader, S: Source, K: Sink, E: Sink>(
    alloc: Global,
    words: &W,
    loader: &mut L,
    input: &mut S,
    out: &mut K,
    err: &mut E,
) -> Status
    // Each status comes only where its row holds, of all the words that are given.
    ensures row { CallRow result (W.told words.now)
        (record { loader = L.seen loader.old; input = S.seen input.old; out = K.seen out.old })
        (record { loader = L.seen loader.new; input = S.seen input.new; out = K.seen out.new }) }
    // What the told words, files and input call for comes, faults and want of memory aside.
    ensures complete { CallComplete result (W.told words.now)
        (record { loader = L.seen loader.old; input = S.seen input.old; out = K.seen out.old })
        (record { loader = L.seen loader.new; input = S.seen input.new; out = K.seen out.new }) }
    // The line of the status came on err, or a prefix of it and a fault of err; after Done err is as before.
    ensures line { Reported result (E.seen err.old) (E.seen err.new) }
{
    match all_words(alloc, words) {
        Ok(names) => answer(alloc, &names, loader, input, out, err),
        Err(WordsErr::NotText { word }) => reported(err, Status::Usage { word }),
        Err(WordsErr::Memory) => reported(err, Status::Memory),
    }
}
