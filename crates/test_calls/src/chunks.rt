//! Chunks on workers: that several run, which a gate shows that holds one chunk until another has come, and that outcomes and
//! pairs are the same under every schedule. Each test ends by itself.
ghost use Rattle.std.specs.Prelude.{◌≡◌, ◌*◌, ◌+◌, ◌≤◌, ◌<◌, ◌%◌, ◌^◌, nat_lt, if◌then◌else◌, [], ◌∷◌, length, IfOk};
ghost use Rattle.phase_model.specs.Tables.{pair};

use crate::gates::{Holding, MANY};
use chunk_work::{Gate, OpenGate, Puts, SharedTable, Task, in_chunks, pairs_in_chunks};
use fut_scalar::{List, NoMemory};
use pair_table::{Operation, PairTable};
use std::alloc::Global;
use std::test::Fail;
use std::thread::Threads;

// Three times each chunk's number.
#[derive(Drop)]
struct Threes;

impl Task<u64> for Threes {
    ghost ran = { λ _ c o. o ≡ (c * 3) % 2 ^ 64 };

    ghost chunks = { λ _. 33554432 };

    fn run(&self, _alloc: Global, chunk: u64) -> Result<u64, NoMemory> {
        Ok(chunk.wrapping_mul(3))
    }
}

#[test]
fn two_workers_meet(rt: HostRuntime) -> Result<(), Fail> {
    let gate = Holding::until(0, 1, MANY);
    let outcomes = in_chunks(&rt, rt.alloc(), &Threes, 2, 2, &gate)?;
    assert!(rt; gate.met());
    assert!(rt; outcomes.len() == 2 && outcomes[0] == 0 && outcomes[1] == 3);
    Ok(())
}

#[test]
fn the_third_chunk_comes_while_the_second_is_held(rt: HostRuntime) -> Result<(), Fail> {
    let gate = Holding::until(1, 2, MANY);
    let outcomes = in_chunks(&rt, rt.alloc(), &Threes, 3, 2, &gate)?;
    assert!(rt; gate.met());
    assert!(rt; outcomes.len() == 3 && outcomes[1] == 3 && outcomes[2] == 6);
    Ok(())
}

#[test]
fn one_worker_goes_in_order(rt: HostRuntime) -> Result<(), Fail> {
    let gate = Holding::until(0, 1, 1000);
    let outcomes = in_chunks(&rt, rt.alloc(), &Threes, 2, 1, &gate)?;
    assert!(rt; !gate.met());
    assert!(rt; outcomes.len() == 2 && outcomes[0] == 0 && outcomes[1] == 3);
    Ok(())
}

#[test]
fn an_empty_job_has_no_outcome(rt: HostRuntime) -> Result<(), Fail> {
    let outcomes = in_chunks(&rt, rt.alloc(), &Threes, 0, 4, &OpenGate)?;
    assert!(rt; outcomes.is_empty());
    Ok(())
}

#[test]
fn sixty_four_workers_leave_the_order(rt: HostRuntime) -> Result<(), Fail> {
    let outcomes = in_chunks(&rt, rt.alloc(), &Threes, 1000, 64, &OpenGate)?;
    assert!(rt; outcomes.len() == 1000 && outcomes[0] == 0 && outcomes[999] == 2997);
    Ok(())
}

// One word for one place, where there is such a place.
struct Written {
    place: u64,
    word: u64,
}

impl Puts<u64> for Written {
    ghost pairs_of = { λ places w. if nat_lt w.place places then pair w.place w.word ∷ [] else [] };

    ghost keeps = { λ w k. k ≡ w.word };

    fn put<S, P: SharedTable<S>>(
        self,
        _alloc: Global,
        table: &P,
        seat: &mut S,
        places: u64,
    ) -> u64 {
        let Written { place, word } = self;
        if place < places {
            table.step(seat, place, word);
        }
        word
    }
}

// Each chunk's number and one for place 0, but for one chunk, which has them for place 1.
#[derive(Drop)]
struct Numbers {
    apart: u64,
}

impl Task<Written> for Numbers {
    ghost ran = { λ _ c w. w.word ≡ (c + 1) % 2 ^ 64 };

    ghost chunks = { λ _. 33554432 };

    fn run(&self, _alloc: Global, chunk: u64) -> Result<Written, NoMemory> {
        let place = if chunk == self.apart { 1 } else { 0 };
        Ok(Written {
            place,
            word: chunk.wrapping_add(1),
        })
    }
}

/// The words of a table when all pairs are put, and how many chunks there were.
fn raced<R: Threads + Sync, G: Gate>(
    rt: &R,
    alloc: Global,
    operation: Operation,
    old: &[u64],
    apart: u64,
    chunks: u64,
    workers: u32,
    gate: &G,
) -> Result<(List<u64>, u64), NoMemory>
    requires { (chunks ≤ 33554432) × (1 ≤ workers) × (workers ≤ 64) }
{
    let words = List::from_slice(alloc, old)?;
    let (table, seat) = PairTable::open(alloc, operation, words, u64::from(workers))?;
    let places = old.len() as u64;
    let task = Numbers { apart };
    let (seat, kept) = pairs_in_chunks(
        rt, alloc, &table, seat, places, &task, chunks, workers, gate,
    )?;
    Ok((table.close(seat), kept.len() as u64))
}

#[test]
fn all_pairs_on_one_place(rt: HostRuntime) -> Result<(), Fail> {
    let (words, kept) = raced(
        &rt,
        rt.alloc(),
        Operation::Add,
        &[5],
        10_000,
        10_000,
        64,
        &OpenGate,
    )?;
    assert!(rt; words.as_slice() == [50_005_005].as_slice() && kept == 10_000);
    Ok(())
}

#[test]
fn a_place_that_is_none_is_left_out(rt: HostRuntime) -> Result<(), Fail> {
    let (words, kept) = raced(&rt, rt.alloc(), Operation::Max, &[0], 99, 100, 3, &OpenGate)?;
    assert!(rt; words.as_slice() == [99].as_slice() && kept == 100);
    Ok(())
}

#[test]
fn an_empty_job_puts_nothing(rt: HostRuntime) -> Result<(), Fail> {
    let (words, kept) = raced(
        &rt,
        rt.alloc(),
        Operation::Store,
        &[7, 8],
        0,
        0,
        64,
        &OpenGate,
    )?;
    assert!(rt; words.as_slice() == [7, 8].as_slice() && kept == 0);
    Ok(())
}

// Chunks 0 and 1 store at one place, and chunk 2 comes when the one that is not held has stored.
#[test]
fn the_chunk_that_is_held_stores_last(rt: HostRuntime) -> Result<(), Fail> {
    let first = Holding::until(0, 2, MANY);
    let (words, _) = raced(&rt, rt.alloc(), Operation::Store, &[9, 9], 2, 3, 2, &first)?;
    assert!(rt; first.met() && words.as_slice() == [1, 3].as_slice());
    let second = Holding::until(1, 2, MANY);
    let (words, _) = raced(&rt, rt.alloc(), Operation::Store, &[9, 9], 2, 3, 2, &second)?;
    assert!(rt; second.met() && words.as_slice() == [2, 3].as_slice());
    Ok(())
}
