// The real outside: a reader, a writer and the files of a runtime. What they hold is not told.
ghost use Rattle.std.specs.Prelude.{◌≡◌, ◌<◌, ◌≤◌, [], length, take, None, IfOk, OnErr, IfSome};
ghost use Rattle.std.specs.Io.KnownBytes.{ReadConsumes, WriteAppends};
ghost use Rattle.fut_io.specs.Outside.{Gave, SourceFailed, Took, SinkFailed};

use crate::outside::MOST_FILE_BYTES;
use crate::{Failed, LoadErr, Loader, ReadErr, Sink, Source, read_all};
use fut_scalar::{List, Name};
use std::alloc::Global;
use std::fs;
use std::io::{ErrorKind, Read, Write};
use std::rt::Files;

/// The bytes of a reader. Their content is not told.
#[derive(Drop)]
pub struct StdSource<R: Read> {
    inner: R,
    taken: u64,
    faults: u64,
}

impl<R: Read> StdSource<R> {
    /// A source of what the reader gives. It takes no memory.
    pub fn new(inner: R) -> Self
        ensures seen { ⟦<StdSource<R> as Source>⟧.seen result ≡ record { left = None; taken = 0; faults = 0 } }
        ensures inner { result.inner ≡ inner }
    {
        StdSource {
            inner,
            taken: 0,
            faults: 0,
        }
    }
}

/// Reads once, and again where a signal cut the read short. Turns are counted, so that it is seen to end.
fn read_some<R: Read>(from: &mut R, into: &mut [u8]) -> Result<u64, Failed>
    ensures within { IfOk result (λ k. k ≤ length into.new) }
    ensures bytes { ReadConsumes (R.remaining from.old) (R.remaining from.new) result into.new }
{
    'reads: for _ in 0..u64::MAX {
        match from.read(into) {
            Ok(count) => return Ok(count as u64),
            Err(error) if error.kind() == ErrorKind::Interrupted => {}
            Err(_) => return Err(Failed),
        }
    }
    Err(Failed)
}

impl<R: Read> Source for StdSource<R> {
    ghost seen = { λ s. record { left = None; taken = s.taken; faults = s.faults } };

    fn read(&mut self, into: &mut [u8]) -> Result<u64, Failed>
        requires { 0 < length into.old }
        ensures ok { IfOk result (λ k. Gave (⟦<StdSource<R> as Source>⟧.seen self.old) (⟦<StdSource<R> as Source>⟧.seen self.new) into.new k) }
        ensures end { IfOk result (λ k. k ≡ 0 → IfSome (⟦<StdSource<R> as Source>⟧.seen self.old).left (λ left. left ≡ [])) }
        ensures failed { OnErr result (SourceFailed (⟦<StdSource<R> as Source>⟧.seen self.old) (⟦<StdSource<R> as Source>⟧.seen self.new)) }
        ensures inner { ReadConsumes (R.remaining self.old.inner) (R.remaining self.new.inner) result into.new }
    {
        let answer = read_some(&mut self.inner, into);
        match answer {
            Ok(count) => self.taken = self.taken.saturating_add(count),
            Err(Failed) => self.faults = self.faults.saturating_add(1),
        }
        answer
    }
}

/// The bytes that a writer takes. Their content is not told.
#[derive(Drop)]
pub struct StdSink<W: Write> {
    inner: W,
    faults: u64,
}

impl<W: Write> StdSink<W> {
    /// A sink for the writer, which is to hold nothing back. It takes no memory.
    pub fn new(inner: W) -> Self
        ensures seen { ⟦<StdSink<W> as Sink>⟧.seen result ≡ record { held = None; faults = 0 } }
        ensures inner { result.inner ≡ inner }
    {
        StdSink { inner, faults: 0 }
    }
}

/// Writes once, and again where a signal cut the write short. A writer that takes nothing has failed.
fn write_some<W: Write>(to: &mut W, piece: &[u8]) -> Result<u64, Failed>
    ensures some { IfOk result (λ k. 0 < k) }
    ensures within { IfOk result (λ k. k ≤ length piece.now) }
    ensures bytes { WriteAppends (W.contents to.old) (W.contents to.new) result piece.now }
{
    'writes: for _ in 0..u64::MAX {
        match to.write(piece) {
            Ok(0) => return Err(Failed),
            Ok(count) => return Ok(count as u64),
            Err(error) if error.kind() == ErrorKind::Interrupted => {}
            Err(_) => return Err(Failed),
        }
    }
    Err(Failed)
}

impl<W: Write> Sink for StdSink<W> {
    ghost seen = { λ s. record { held = None; faults = s.faults } };

    fn write(&mut self, piece: &[u8]) -> Result<u64, Failed>
        requires { 0 < length piece.now }
        ensures some { IfOk result (λ k. 0 < k) }
        ensures within { IfOk result (λ k. k ≤ length piece.now) }
        ensures ok { IfOk result (λ k. Took (⟦<StdSink<W> as Sink>⟧.seen self.old) (⟦<StdSink<W> as Sink>⟧.seen self.new) (take k piece.now)) }
        ensures failed { OnErr result (SinkFailed (⟦<StdSink<W> as Sink>⟧.seen self.old) (⟦<StdSink<W> as Sink>⟧.seen self.new)) }
        ensures inner { WriteAppends (W.contents self.old.inner) (W.contents self.new.inner) result piece.now }
    {
        let answer = write_some(&mut self.inner, piece);
        if answer.is_err() {
            self.faults = self.faults.saturating_add(1);
        }
        answer
    }
}

/// The files of a runtime, by their paths. What they hold is not told.
#[derive(Drop)]
pub struct FileLoader<R: Files> {
    files: R,
    faults: u64,
    overs: u64,
    lost: Option<Name>,
}

impl<R: Files> FileLoader<R> {
    /// A loader of the runtime's files. It takes no memory.
    pub fn new(files: R) -> Self
        ensures seen { ⟦<FileLoader<R> as Loader>⟧.seen result ≡ record { files = None; faults = 0; overs = 0; lost = None } }
        ensures files { result.files ≡ files }
    {
        FileLoader {
            files,
            faults: 0,
            overs: 0,
            lost: None,
        }
    }
}

/// The bytes of a file. A file that cannot be opened is a fault, as is one that cannot be read.
fn read_file<R: Files>(alloc: Global, files: &R, name: &str) -> Result<List<u8>, LoadErr>
    ensures { IfOk result (λ text. length text ≤ MOST_FILE_BYTES) }
{
    let Ok(file) = fs::open(files, name) else {
        return Err(LoadErr::Failed);
    };
    match read_all(alloc, &mut StdSource::new(file), MOST_FILE_BYTES) {
        Ok(text) => Ok(text),
        Err(ReadErr::Failed) => Err(LoadErr::Failed),
        Err(ReadErr::TooLong) => Err(LoadErr::TooLong),
        Err(ReadErr::Memory) => Err(LoadErr::Memory),
    }
}

impl<R: Files> Loader for FileLoader<R> {
    ghost seen = { λ s. record { files = None; faults = s.faults; overs = s.overs; lost = s.lost } };

    fn load(&mut self, alloc: Global, name: &str) -> Result<List<u8>, LoadErr> {
        let Ok(lost) = Name::new(alloc, name) else {
            return Err(LoadErr::Memory);
        };
        let answer = read_file(alloc, &self.files, name);
        match answer {
            Err(LoadErr::Failed) => {
                self.faults = self.faults.saturating_add(1);
                self.lost = Some(lost);
            }
            Err(LoadErr::TooLong) => {
                self.overs = self.overs.saturating_add(1);
                self.lost = Some(lost);
            }
            Ok(_) | Err(LoadErr::Memory) => {}
        }
        answer
    }
}
