// Bytes that are taken into memory, up to a bound.
ghost use Rattle.std.specs.Prelude.{◌≡◌, ◌<◌, ◌≤◌, ◌-◌, ◌++◌, ◌⊎◌, [], length, take, min, Some, vec_capacity, IfOk, OnOk, OnErr, Contains};
ghost use Rattle.fut_io.specs.Counts.{counted};
ghost use Rattle.fut_io.specs.Outside.{Took, SinkFailed};

use crate::memory::is_listed;
use crate::{Failed, Sink};
use fut_scalar::{List, NoMemory};
use std::alloc::Global;

/// Takes bytes up to a bound, in pieces. It fails at the calls that are numbered in `fails`, counting from 0, and
/// where it is full.
#[derive(Drop)]
pub struct MemSink {
    held: Vec<u8>,
    room: u64,
    piece: u64,
    fails: List<u64>,
    calls: u64,
    faults: u64,
    ghost held_within: { length held.items ≤ room },
    ghost has_room: { room ≤ vec_capacity held },
    ghost some_piece: { 0 < piece },
}

/// Adds as many of the bytes as there is room for, at most `most`, and says how many. It takes no memory.
fn add_piece(held: &mut Vec<u8>, room: u64, most: u64, bytes: &[u8]) -> u64
    requires within { length held.old.items ≤ room }
    requires room { room ≤ vec_capacity held.old }
    ensures count { result ≡ min (min (length bytes.now) (room - length held.old.items)) most }
    ensures held { held.new.items ≡ held.old.items ++ take result bytes.now }
    ensures room { room ≤ vec_capacity held.new }
{
    let count = (bytes.len() as u64).min(room - held.len() as u64).min(most);
    held.extend_from_slice(&bytes[..count as usize]).unwrap();
    count
}

impl MemSink {
    /// An empty sink with memory for `room` bytes, that takes at most `piece` bytes a call, which is at least 1.
    pub fn new(alloc: Global, room: u64, piece: u64, fails: List<u64>) -> Result<MemSink, NoMemory>
        requires { 0 < piece }
        ensures seen { IfOk result (λ sink. ⟦<MemSink as Sink>⟧.seen sink ≡ record { held = Some []; faults = 0 }) }
        ensures room { IfOk result (λ sink. sink.room ≡ room) }
        ensures most { IfOk result (λ sink. sink.piece ≡ piece) }
        ensures listed { IfOk result (λ sink. sink.fails ≡ fails) }
        ensures first { IfOk result (λ sink. sink.calls ≡ 0) }
    {
        match Vec::with_capacity(alloc, room as usize) {
            Ok(held) => Ok(MemSink {
                held,
                room,
                piece,
                fails,
                calls: 0,
                faults: 0,
            }),
            Err(_) => Err(NoMemory),
        }
    }

    /// The bytes taken so far.
    pub fn held(&self) -> &[u8]
        ensures { (⟦<MemSink as Sink>⟧.seen self.now).held ≡ Some result.now }
    {
        &self.held
    }
}

impl Sink for MemSink {
    ghost seen = { λ s. record { held = Some s.held.items; faults = s.faults } };

    fn write(&mut self, piece: &[u8]) -> Result<u64, Failed>
        requires { 0 < length piece.now }
        ensures some { IfOk result (λ k. 0 < k) }
        ensures within { IfOk result (λ k. k ≤ length piece.now) }
        ensures ok { IfOk result (λ k. Took (⟦<MemSink as Sink>⟧.seen self.old) (⟦<MemSink as Sink>⟧.seen self.new) (take k piece.now)) }
        ensures failed { OnErr result (SinkFailed (⟦<MemSink as Sink>⟧.seen self.old) (⟦<MemSink as Sink>⟧.seen self.new)) }
        ensures count { IfOk result (λ k. k ≡ min (min (length piece.now) (self.old.room - length self.old.held.items)) self.old.piece) }
        ensures refused { OnErr result (Contains self.old.fails self.old.calls ⊎ (length self.old.held.items ≡ self.old.room)) }
        ensures passed { OnOk result (¬ Contains self.old.fails self.old.calls) }
        ensures calls { self.new.calls ≡ counted self.old.calls 1 }
        ensures kept { (self.new.room ≡ self.old.room) × (self.new.piece ≡ self.old.piece) × (self.new.fails ≡ self.old.fails) }
    {
        let call = self.calls;
        self.calls = call.saturating_add(1);
        if is_listed(self.fails.as_slice(), call) || self.held.len() as u64 == self.room {
            self.faults = self.faults.saturating_add(1);
            return Err(Failed);
        }
        Ok(add_piece(&mut self.held, self.room, self.piece, piece))
    }
}

/// Takes bytes up to a bound, and fails only where it is full.
#[derive(Drop)]
pub struct SureSink {
    held: Vec<u8>,
    room: u64,
    faults: u64,
    ghost held_within: { length held.items ≤ room },
    ghost has_room: { room ≤ vec_capacity held },
}

impl SureSink {
    /// An empty sink with memory for `room` bytes.
    pub fn new(alloc: Global, room: u64) -> Result<SureSink, NoMemory>
        ensures seen { IfOk result (λ sink. ⟦<SureSink as Sink>⟧.seen sink ≡ record { held = Some []; faults = 0 }) }
        ensures room { IfOk result (λ sink. sink.room ≡ room) }
    {
        match Vec::with_capacity(alloc, room as usize) {
            Ok(held) => Ok(SureSink {
                held,
                room,
                faults: 0,
            }),
            Err(_) => Err(NoMemory),
        }
    }

    /// The bytes taken so far.
    pub fn held(&self) -> &[u8]
        ensures { (⟦<SureSink as Sink>⟧.seen self.now).held ≡ Some result.now }
    {
        &self.held
    }
}

impl Sink for SureSink {
    ghost seen = { λ s. record { held = Some s.held.items; faults = s.faults } };

    fn write(&mut self, piece: &[u8]) -> Result<u64, Failed>
        requires { 0 < length piece.now }
        ensures some { IfOk result (λ k. 0 < k) }
        ensures within { IfOk result (λ k. k ≤ length piece.now) }
        ensures ok { IfOk result (λ k. Took (⟦<SureSink as Sink>⟧.seen self.old) (⟦<SureSink as Sink>⟧.seen self.new) (take k piece.now)) }
        ensures failed { OnErr result (SinkFailed (⟦<SureSink as Sink>⟧.seen self.old) (⟦<SureSink as Sink>⟧.seen self.new)) }
        ensures count { IfOk result (λ k. k ≡ min (length piece.now) (self.old.room - length self.old.held.items)) }
        ensures refused { OnErr result (length self.old.held.items ≡ self.old.room) }
        ensures kept { self.new.room ≡ self.old.room }
    {
        if self.held.len() as u64 == self.room {
            self.faults = self.faults.saturating_add(1);
            return Err(Failed);
        }
        Ok(add_piece(&mut self.held, self.room, u64::MAX, piece))
    }
}
