//! Phases on workers: that several run, which a gate shows that holds one chunk until another has come, and that map, reduce
//! and scan come to the same on every number of workers, and fail by the same failure. Each test ends by itself.
ghost use Rattle.std.specs.Prelude.{◌≤◌, ◌<◌};

use crate::gates::{Holding, MANY};
use crate::words::{Generator, Sum, Words};
use fut_scalar::NoMemory;
use std::alloc::Global;
use std::test::Fail;
use std::thread::Threads;
use worker_runtime::{
    Chunk, Gate, OpenGate, Options, StageFault, map_phase, reduce_phase, scan_phase,
};

const NEVER: u64 = u64::MAX;

// Each element's own number, and sums of these.
fn numbers(first: u64, second: u64) -> Generator {
    Generator {
        rounds: 0,
        first,
        second,
    }
}

/// What is made of the numbers below `count`: a map, a reduction and a scan.
#[derive(Drop)]
struct Outcomes {
    mapped: Chunk<Words>,
    reduced: Chunk<Words>,
    scanned: Chunk<Words>,
}

fn all_phases<R: Threads + Sync>(
    rt: &R,
    alloc: Global,
    code: &Generator,
    op: &Sum,
    count: u64,
    chunk: u64,
    workers: u32,
) -> Result<Outcomes, NoMemory>
    requires { (count ≤ 33554432) × (0 < chunk) × (chunk ≤ 1048576) × (0 < workers) × (workers ≤ 64) }
{
    let options = Options { workers, chunk };
    let mapped = map_phase(rt, alloc, code, count, &options, &OpenGate)?;
    let reduced = reduce_phase(rt, alloc, code, op, count, &options, &OpenGate)?;
    let scanned = scan_phase(rt, alloc, code, op, count, &options, &OpenGate)?;
    Ok(Outcomes {
        mapped,
        reduced,
        scanned,
    })
}

// Each word is the number of its place, for which so many words were handed out.
fn are_numbers(chunk: &Chunk<Words>, count: u64) -> bool {
    let Chunk::Came(made) = chunk else {
        return false;
    };
    let mut next: u64 = 0;
    for word in made.words.words.as_slice() {
        if *word != next {
            return false;
        }
        next = next.wrapping_add(1);
    }
    next == count && made.handed == count
}

// Each word is the sum of the numbers up to its place.
fn are_sums(chunk: &Chunk<Words>, count: u64) -> bool {
    let Chunk::Came(made) = chunk else {
        return false;
    };
    let mut next: u64 = 0;
    let mut sum: u64 = 0;
    for word in made.words.words.as_slice() {
        sum = sum.wrapping_add(next);
        if *word != sum {
            return false;
        }
        next = next.wrapping_add(1);
    }
    next == count && made.handed == count
}

fn is_sum(chunk: &Chunk<Words>, sum: u64, count: u64) -> bool {
    match chunk {
        Chunk::Came(made) => {
            made.words.words.as_slice() == [sum].as_slice() && made.handed == count
        }
        Chunk::Failed(_) => false,
    }
}

fn fails_at(chunk: &Chunk<Words>, stage: u32, element: u64) -> bool {
    match chunk {
        Chunk::Came(_) => false,
        Chunk::Failed(fault) => fault.stage == stage && fault.element == element,
    }
}

#[test]
fn phases_run_on_two_workers(rt: HostRuntime) -> Result<(), Fail> {
    let code = numbers(NEVER, NEVER);
    let op = Sum { most: NEVER };
    let options = Options {
        workers: 2,
        chunk: 1,
    };
    let alloc = rt.alloc();
    let gate = Holding::until(0, 1, MANY);
    let mapped = map_phase(&rt, alloc, &code, 3, &options, &gate)?;
    assert!(rt; gate.met() && are_numbers(&mapped, 3));
    let gate = Holding::until(0, 1, MANY);
    let reduced = reduce_phase(&rt, alloc, &code, &op, 3, &options, &gate)?;
    assert!(rt; gate.met() && is_sum(&reduced, 3, 3));
    let gate = Holding::until(1, 2, MANY);
    let scanned = scan_phase(&rt, alloc, &code, &op, 3, &options, &gate)?;
    assert!(rt; gate.met() && are_sums(&scanned, 3));
    Ok(())
}

// Of 1,000 numbers, and of none.
fn comes<R: Threads + Sync>(
    rt: &R,
    alloc: Global,
    chunk: u64,
    workers: u32,
) -> Result<bool, NoMemory>
    requires { (0 < chunk) × (chunk ≤ 1048576) × (0 < workers) × (workers ≤ 64) }
{
    let code = numbers(NEVER, NEVER);
    let op = Sum { most: NEVER };
    let some = all_phases(rt, alloc, &code, &op, 1000, chunk, workers)?;
    let none = all_phases(rt, alloc, &code, &op, 0, chunk, workers)?;
    Ok(
        are_numbers(&some.mapped, 1000)
            && is_sum(&some.reduced, 499500, 1000)
            && are_sums(&some.scanned, 1000)
            && are_numbers(&none.mapped, 0)
            && is_sum(&none.reduced, 0, 0)
            && are_sums(&none.scanned, 0),
    )
}

#[test]
fn each_number_of_workers_gives_the_same(rt: HostRuntime) -> Result<(), Fail> {
    let alloc = rt.alloc();
    assert!(rt; comes(&rt, alloc, 1, 1)?);
    assert!(rt; comes(&rt, alloc, 1, 64)?);
    assert!(rt; comes(&rt, alloc, 7, 3)?);
    assert!(rt; comes(&rt, alloc, 999, 2)?);
    assert!(rt; comes(&rt, alloc, 1048576, 4)?);
    Ok(())
}

// All phases of 1,000 numbers in chunks of one fail so.
fn all_fail<R: Threads + Sync>(
    rt: &R,
    alloc: Global,
    code: &Generator,
    stage: u32,
    element: u64,
    workers: u32,
) -> Result<bool, NoMemory>
    requires { (0 < workers) × (workers ≤ 64) }
{
    let op = Sum { most: NEVER };
    let all = all_phases(rt, alloc, code, &op, 1000, 1, workers)?;
    Ok(
        fails_at(&all.mapped, stage, element)
            && fails_at(&all.reduced, stage, element)
            && fails_at(&all.scanned, stage, element),
    )
}

#[test]
fn the_least_stage_and_element_fail(rt: HostRuntime) -> Result<(), Fail> {
    let alloc = rt.alloc();
    assert!(rt; all_fail(&rt, alloc, &numbers(700, 300), 0, 700, 64)?);
    assert!(rt; all_fail(&rt, alloc, &numbers(700, 300), 0, 700, 1)?);
    assert!(rt; all_fail(&rt, alloc, &numbers(NEVER, 300), 1, 300, 64)?);
    assert!(rt; all_fail(&rt, alloc, &numbers(0, 999), 0, 0, 64)?);
    Ok(())
}

// 0 + 1 + .. + 45 is the first sum above 1,000.
#[test]
fn an_operator_fails_behind_the_stages(rt: HostRuntime) -> Result<(), Fail> {
    let alloc = rt.alloc();
    let op = Sum { most: 1000 };
    let code = numbers(NEVER, NEVER);
    let one = all_phases(&rt, alloc, &code, &op, 1000, 1, 64)?;
    assert!(rt; are_numbers(&one.mapped, 1000));
    assert!(rt; fails_at(&one.reduced, 2, 45) && fails_at(&one.scanned, 2, 45));
    let later = all_phases(&rt, alloc, &numbers(NEVER, 999), &op, 1000, 1, 64)?;
    assert!(rt; fails_at(&later.reduced, 1, 999) && fails_at(&later.scanned, 1, 999));
    Ok(())
}
