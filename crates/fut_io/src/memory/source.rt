// Bytes in memory that are given in pieces.
ghost use Rattle.std.specs.Prelude.{◌≡◌, ◌<◌, ◌≤◌, [], length, take, drop, min, Some, IfOk, OnOk, OnErr, IsOk, IfSome, Contains};
ghost use Rattle.fut_io.specs.Counts.{counted};
ghost use Rattle.fut_io.specs.Outside.{Gave, SourceFailed};

use crate::memory::is_listed;
use crate::{Failed, Source};
use fut_scalar::List;

/// Bytes that are given in pieces. It fails at the calls that are numbered in `fails`, counting from 0.
#[derive(Drop)]
pub struct MemSource {
    bytes: List<u8>,
    at: u64,
    piece: u64,
    fails: List<u64>,
    calls: u64,
    faults: u64,
    ghost at_within: { at ≤ length bytes },
    ghost some_piece: { 0 < piece },
}

impl MemSource {
    /// A source of `bytes` that gives at most `piece` bytes a call, which is at least 1. It takes no memory.
    pub fn new(bytes: List<u8>, piece: u64, fails: List<u64>) -> MemSource
        requires { 0 < piece }
        ensures seen { ⟦<MemSource as Source>⟧.seen result ≡ record { left = Some bytes; taken = 0; faults = 0 } }
        ensures most { result.piece ≡ piece }
        ensures listed { result.fails ≡ fails }
        ensures first { result.calls ≡ 0 }
    {
        MemSource {
            bytes,
            at: 0,
            piece,
            fails,
            calls: 0,
            faults: 0,
        }
    }
}

/// Copies as many bytes as there are, at most `most` and as `into` has room for, and says how many.
fn copy_piece(from: &[u8], most: u64, into: &mut [u8]) -> usize
    ensures count { result ≡ min (min (length from.now) (length into.old)) most }
    ensures copied { take result into.new ≡ take result from.now }
{
    let mut count = from.len().min(into.len());
    if most < count as u64 {
        count = most as usize;
    }
    into[..count].copy_from_slice(&from[..count]);
    count
}

impl Source for MemSource {
    ghost seen = { λ s. record { left = Some (drop s.at s.bytes); taken = s.at; faults = s.faults } };

    fn read(&mut self, into: &mut [u8]) -> Result<u64, Failed>
        requires { 0 < length into.old }
        ensures ok { IfOk result (λ k. Gave (⟦<MemSource as Source>⟧.seen self.old) (⟦<MemSource as Source>⟧.seen self.new) into.new k) }
        ensures end { IfOk result (λ k. k ≡ 0 → IfSome (⟦<MemSource as Source>⟧.seen self.old).left (λ left. left ≡ [])) }
        ensures failed { OnErr result (SourceFailed (⟦<MemSource as Source>⟧.seen self.old) (⟦<MemSource as Source>⟧.seen self.new)) }
        ensures count { IfOk result (λ k. k ≡ min (min (length (drop self.old.at self.old.bytes)) (length into.old)) self.old.piece) }
        ensures listed { OnErr result (Contains self.old.fails self.old.calls) }
        ensures passed { OnOk result (¬ Contains self.old.fails self.old.calls) }
        ensures calls { self.new.calls ≡ counted self.old.calls 1 }
        ensures kept { (self.new.piece ≡ self.old.piece) × (self.new.fails ≡ self.old.fails) }
    {
        let call = self.calls;
        self.calls = call.saturating_add(1);
        if is_listed(self.fails.as_slice(), call) {
            self.faults = self.faults.saturating_add(1);
            return Err(Failed);
        }
        let count = copy_piece(&self.bytes.as_slice()[self.at as usize..], self.piece, into) as u64;
        self.at += count;
        Ok(count)
    }
}

/// Bytes that are given in pieces. It never fails.
#[derive(Drop)]
pub struct SureSource {
    bytes: List<u8>,
    at: u64,
    piece: u64,
    ghost at_within: { at ≤ length bytes },
    ghost some_piece: { 0 < piece },
}

impl SureSource {
    /// A source of `bytes` that gives at most `piece` bytes a call, which is at least 1. It takes no memory.
    pub fn new(bytes: List<u8>, piece: u64) -> SureSource
        requires { 0 < piece }
        ensures seen { ⟦<SureSource as Source>⟧.seen result ≡ record { left = Some bytes; taken = 0; faults = 0 } }
        ensures most { result.piece ≡ piece }
    {
        SureSource {
            bytes,
            at: 0,
            piece,
        }
    }
}

impl Source for SureSource {
    ghost seen = { λ s. record { left = Some (drop s.at s.bytes); taken = s.at; faults = 0 } };

    fn read(&mut self, into: &mut [u8]) -> Result<u64, Failed>
        requires { 0 < length into.old }
        ensures ok { IfOk result (λ k. Gave (⟦<SureSource as Source>⟧.seen self.old) (⟦<SureSource as Source>⟧.seen self.new) into.new k) }
        ensures end { IfOk result (λ k. k ≡ 0 → IfSome (⟦<SureSource as Source>⟧.seen self.old).left (λ left. left ≡ [])) }
        ensures sure { IsOk result }
        ensures count { IfOk result (λ k. k ≡ min (min (length (drop self.old.at self.old.bytes)) (length into.old)) self.old.piece) }
        ensures kept { self.new.piece ≡ self.old.piece }
    {
        let count = copy_piece(&self.bytes.as_slice()[self.at as usize..], self.piece, into) as u64;
        self.at += count;
        Ok(count)
    }
}
