// Tables on which workers race: what every schedule leaves, and each call once.
ghost use Rattle.std.specs.Prelude.{◌≡◌, ℕ, ◌<◌, ◌≤◌, [], IfOk, length};
ghost use Rattle.std.specs.Thread.{IsSync};
ghost use Rattle.chunk_draw.specs.Seats as draws;
ghost use Rattle.pair_table.specs.Pairs as pairs;

use chunk_draw::{Draw, DrawSeat};
use fut_scalar::{List, NoMemory};
use hist_table::{Hist, HistOp};
use pair_table::{Operation, PairSeat, PairTable};
use scatter_table::{Claims, Scatter};
use std::alloc::Global;
use std::thread::{Threads, join};

/// One worker draws chunks until none is left. Each chunk has one pair, for the place 0: its number and one.
fn work(
    draw: &Draw,
    mut seat: DrawSeat,
    table: &PairTable,
    mut mine: PairSeat,
) -> (DrawSeat, PairSeat)
    requires own { draws.IsSeatOf draw.now seat × pairs.IsSeatOf table.now mine × (0 < length table.now.old) }
    ensures draw { draws.IsSeatOf draw.now result.0 × (result.0.parts ≡ seat.parts) }
    ensures table { pairs.IsSeatOf table.now result.1 × (result.1.parts ≡ mine.parts) }
{
    for _turn in 0..33_554_433u64 {
        let Some(chunk) = draw.next(&mut seat) else {
            break;
        };
        table.step(&mut mine, 0, chunk.wrapping_add(1));
    }
    (seat, mine)
}

/// As many workers as the seats have parts, each in a thread of its own where one can be made.
fn work_all<R: Threads + Sync>(
    rt: &R,
    draw: &Draw,
    mut seat: DrawSeat,
    table: &PairTable,
    mut mine: PairSeat,
    workers: u64,
) -> (DrawSeat, PairSeat)
    requires own { draws.IsSeatOf draw.now seat × (seat.numbers ≡ []) × pairs.IsSeatOf table.now mine × (0 < length table.now.old) }
    requires workers { (0 < workers) × (seat.parts ≡ workers) × (mine.parts ≡ workers) }
    ensures draw { draws.IsSeatOf draw.now result.0 × (result.0.parts ≡ workers) }
    ensures table { pairs.IsSeatOf table.now result.1 × (result.1.parts ≡ workers) }
{
    let others = workers - 1;
    if others == 0 {
        return work(draw, seat, table, mine);
    }
    let here = draw.split(&mut seat);
    let there = table.split(&mut mine);
    let one = move || -> (DrawSeat, PairSeat)
        requires own { draws.IsSeatOf draw.now here × (here.parts ≡ 1) × pairs.IsSeatOf table.now there × (there.parts ≡ 1) × (0 < length table.now.old) }
        ensures draw { draws.IsSeatOf draw.entry.now result.0 × (result.0.parts ≡ 1) }
        ensures table { pairs.IsSeatOf table.entry.now result.1 × (result.1.parts ≡ 1) }
    { work(draw, here, table, there) };
    let rest = move || -> (DrawSeat, PairSeat)
        requires bounds { IsSync R.row }
        requires own { draws.IsSeatOf draw.now seat × (seat.numbers ≡ []) × pairs.IsSeatOf table.now mine × (0 < length table.now.old) }
        requires workers { (0 < others) × (seat.parts ≡ others) × (mine.parts ≡ others) }
        ensures draw { draws.IsSeatOf draw.entry.now result.0 × (result.0.parts ≡ others) }
        ensures table { pairs.IsSeatOf table.entry.now result.1 × (result.1.parts ≡ others) }
    { work_all(rt, draw, seat, table, mine, others) };
    let ((mut seat, mut mine), (theirs, more)) = join(rt, one, rest);
    draw.join(&mut seat, theirs);
    table.join(&mut mine, more);
    (seat, mine)
}

/// What so many workers make of one word, by one step a chunk, and how many steps that took.
fn race<R: Threads + Sync>(
    rt: &R,
    alloc: Global,
    operation: Operation,
    old: u64,
    chunks: u64,
    workers: u64,
) -> Result<(List<u64>, u64), NoMemory>
    requires { (chunks ≤ 33554432) × (1 ≤ workers) × (workers ≤ 64) }
{
    let words = List::from_slice(alloc, &[old])?;
    let (table, mine) = PairTable::open(alloc, operation, words, workers)?;
    let (draw, seat) = Draw::open(alloc, chunks, workers)?;
    let (seat, mine) = work_all(rt, &draw, seat, &table, mine, workers);
    draw.finish(seat);
    let steps = mine.steps();
    Ok((table.close(mine), steps))
}

/// Whether the race makes one step a chunk and leaves one of these words, from the least to the greatest.
fn leaves<R: Threads + Sync>(
    rt: &R,
    alloc: Global,
    operation: Operation,
    old: u64,
    chunks: u64,
    workers: u64,
    least: u64,
    greatest: u64,
) -> bool
    requires { (chunks ≤ 33554432) × (1 ≤ workers) × (workers ≤ 64) }
{
    match race(rt, alloc, operation, old, chunks, workers) {
        Ok((words, steps)) => match words.as_slice() {
            [word] => steps == chunks && least <= *word && *word <= greatest,
            _ => false,
        },
        Err(NoMemory) => false,
    }
}

#[test]
fn no_step_is_lost(rt: HostRuntime) {
    let all = rt.alloc();
    assert!(rt;
        leaves(
            &rt,
            all,
            Operation::Add,
            5,
            10_000,
            64,
            50_005_005,
            50_005_005
        )
    );
    assert!(rt; leaves(&rt, all, Operation::Max, 5, 10_000, 3, 10_000, 10_000));
    assert!(rt; leaves(&rt, all, Operation::Min, 5, 10_000, 2, 1, 1));
    assert!(rt; leaves(&rt, all, Operation::Or, 0, 4_095, 8, 4_095, 4_095));
    assert!(rt; leaves(&rt, all, Operation::And, 7, 3, 8, 0, 0));
    assert!(rt; leaves(&rt, all, Operation::Xor, 1, 3, 4, 1, 1));
    assert!(rt; leaves(&rt, all, Operation::Store, 0, 10_000, 8, 1, 10_000));
}

#[test]
fn no_chunk_leaves_the_old_word(rt: HostRuntime) {
    assert!(rt; leaves(&rt, rt.alloc(), Operation::Store, 9, 0, 64, 9, 9));
    assert!(rt; leaves(&rt, rt.alloc(), Operation::Add, 9, 1, 64, 10, 10));
}

/// Each call of a scatter once: the two pairs of a place, in the order of one thread.
fn scattered(alloc: Global) -> Result<bool, NoMemory> {
    let (table, mut seat) = Scatter::open(alloc, List::from_slice(alloc, &[1, 2, 3])?, 2)?;
    let mut other = table.split(&mut seat);
    table.put(&mut seat, 2, 7);
    table.put(&mut other, 0, 8);
    table.put(&mut seat, 2, 9);
    table.join(&mut seat, other);
    let steps = Scatter::steps(&seat);
    let words = table.close(seat);
    Ok(steps == 3 && words.as_slice() == [8, 2, 9].as_slice())
}

/// Each call of claims once: the least number wins a place.
fn claimed(alloc: Global) -> Result<bool, NoMemory> {
    let (table, mut seat) = Claims::open(alloc, 2, 2)?;
    let mut other = table.split(&mut seat);
    table.claim(&mut seat, 1, 6);
    table.claim(&mut other, 1, 4);
    table.join(&mut seat, other);
    let steps = Claims::steps(&seat);
    let words = table.close(seat);
    Ok(steps == 2 && words.as_slice() == [u64::MAX, 4].as_slice())
}

/// Each call of a histogram once, with every operator.
fn combined(alloc: Global, op: HistOp, word: u64) -> Result<bool, NoMemory> {
    let (table, mut seat) = Hist::open(alloc, op, List::from_slice(alloc, &[0, 12])?, 2)?;
    let mut other = table.split(&mut seat);
    table.combine(&mut seat, 1, 10);
    table.combine(&mut other, 1, 9);
    table.join(&mut seat, other);
    let steps = Hist::steps(&seat);
    let words = table.close(seat);
    Ok(steps == 2 && words.as_slice() == [0, word].as_slice())
}

#[test]
fn each_call_once(rt: HostRuntime) {
    let alloc = rt.alloc();
    assert!(rt; matches!(scattered(alloc), Ok(true)));
    assert!(rt; matches!(claimed(alloc), Ok(true)));
    assert!(rt; matches!(combined(alloc, HistOp::Add, 31), Ok(true)));
    assert!(rt; matches!(combined(alloc, HistOp::And, 8), Ok(true)));
    assert!(rt; matches!(combined(alloc, HistOp::Or, 15), Ok(true)));
    assert!(rt; matches!(combined(alloc, HistOp::Xor, 15), Ok(true)));
    assert!(rt; matches!(combined(alloc, HistOp::Max, 12), Ok(true)));
    assert!(rt; matches!(combined(alloc, HistOp::Min, 9), Ok(true)));
}
