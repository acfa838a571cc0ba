// What the run of a row is given.
use crate::fault::Wrong;
use crate::parts::Parts;
use crate::runs::row::Row;
use crate::tally::Tally;
use crate::texts::{Text, expand};
use fut_io::{MemLoader, MemSink, MemSource, MemWords};
use fut_scalar::{List, Name, NoMemory};
use std::alloc::Global;
use std::str;

/// The most bytes that a read gives, where a row says nothing.
const GIVEN: u64 = 2;

/// The most bytes that a write takes.
const TAKEN: u64 = 3;

/// The most bytes that out or err takes in all, where a row says nothing.
const ROOM: u64 = 4096;

/// The bytes of a word with its escapes read.
fn bytes_of(alloc: Global, row: Row<'_>, word: &[u8], tally: &mut Tally) -> List<u8> {
    let mut text = Text::new(alloc);
    if !expand(&mut text, word) {
        tally.refuse(row.first, Wrong::Escape);
    }
    if text.is_spent {
        tally.spend();
    }
    text.into_list()
}

/// The words of a row.
pub fn words_of(alloc: Global, row: Row<'_>, tally: &mut Tally) -> MemWords {
    let mut words = List::new(alloc);
    let line = row.behind(b"run", tally);
    if line.is_none() {
        tally.refuse(row.first, Wrong::NoRun);
    }
    for word in Parts::new(line.unwrap_or(b""), b' ') {
        if words.push(bytes_of(alloc, row, word, tally)).is_err() {
            tally.spend();
        }
    }
    MemWords::new(words)
}

/// The name of a file with its escapes read.
fn name_of(alloc: Global, row: Row<'_>, name: &[u8], tally: &mut Tally) -> Result<Name, NoMemory> {
    let bytes = bytes_of(alloc, row, name, tally);
    match str::from_utf8(bytes.as_slice()) {
        Ok(text) => Name::new(alloc, text),
        Err(_) => {
            tally.refuse(row.first, Wrong::Name);
            Name::new(alloc, "")
        }
    }
}

/// Puts a file, whose text stands behind a line, behind the others.
fn add_file(
    alloc: Global,
    files: &mut List<(Name, List<u8>)>,
    row: Row<'_>,
    line: &[u8],
    name: &[u8],
    tally: &mut Tally,
) {
    let Ok(name) = name_of(alloc, row, name, tally) else {
        return tally.spend();
    };
    if files.push((name, row.text(alloc, line, tally))).is_err() {
        tally.spend();
    }
}

/// The files of a row.
fn files_of(alloc: Global, row: Row<'_>, tally: &mut Tally) -> List<(Name, List<u8>)> {
    let mut files = List::new(alloc);
    for line in Parts::new(row.text, b'\n') {
        if let Some(name) = line.strip_prefix(b"file ") {
            add_file(alloc, &mut files, row, line, name, tally);
        }
    }
    files
}

/// The files of a row, and the loads that fail.
pub fn loader_of(alloc: Global, row: Row<'_>, tally: &mut Tally) -> MemLoader {
    let files = files_of(alloc, row, tally);
    let fails = row.calls(alloc, b"fails load", tally);
    MemLoader::new(files, fails)
}

/// The input of a row, and the reads that fail.
pub fn source_of(alloc: Global, row: Row<'_>, tally: &mut Tally) -> MemSource {
    let input = row.text(alloc, b"input", tally);
    let given = row.number(b"gives input", tally).unwrap_or(GIVEN);
    let fails = row.calls(alloc, b"fails input", tally);
    MemSource::new(input, given.max(1), fails)
}

/// Out and err.
pub fn sinks_of(
    alloc: Global,
    row: Row<'_>,
    tally: &mut Tally,
) -> Result<(MemSink, MemSink), NoMemory> {
    let out = sink_of(alloc, row, b"room out", b"fails out", tally)?;
    let err = sink_of(alloc, row, b"room err", b"fails err", tally)?;
    Ok((out, err))
}

/// What one of them takes in all, by the word of its room, and the writes that fail.
fn sink_of(
    alloc: Global,
    row: Row<'_>,
    room: &[u8],
    fails: &[u8],
    tally: &mut Tally,
) -> Result<MemSink, NoMemory> {
    let room = row.number(room, tally).unwrap_or(ROOM);
    let fails = row.calls(alloc, fails, tally);
    MemSink::new(alloc, room, TAKEN, fails)
}
