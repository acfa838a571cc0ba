//! How many workers are worth their threads.
ghost use Rattle.std.specs.Prelude.{◌≡◌, ◌<◌, ◌≤◌, max};

/// At most so many workers run.
pub const MOST_WORKERS: u32 = 64;

/// Chunks of fewer elements are taken to be dear, so each may have a worker of its own.
const LONG: u64 = 1024;

/// With long chunks a worker pays for its thread from so many elements on.
const ENOUGH: u64 = 2048;

/// How many workers should run so many chunks of `chunk` elements, `count` in all, where at most `workers` may. A thread costs
/// 7 to 15 microseconds, so short arrays in chunks of the usual length have one worker.
pub fn workers_for(workers: u32, chunk: u64, chunks: u64, count: u64) -> u32
    requires { 1 ≤ workers }
    ensures some { 1 ≤ result }
    ensures most { result ≤ workers }
    ensures busy { result ≤ max 1 chunks }
    ensures short { 1024 ≤ chunk → count < 4096 → result ≡ 1 }
{
    let worth = if chunk < LONG {
        chunks
    } else {
        chunks.min(count / ENOUGH)
    };
    u64::from(workers).min(worth).max(1) as u32
}
