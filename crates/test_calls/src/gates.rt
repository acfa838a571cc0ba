//! A gate that holds one chunk until another has come, for so many looks at most.
use chunk_work::Gate;
use std::sync::atomic::AtomicBool;
use std::sync::atomic::Ordering::SeqCst;
use std::thread;

/// So many looks take a third of a second and more.
pub const MANY: u64 = 268_435_456;

/// Holds chunk `held` until chunk `awaited` has come, or for so many looks, and tells whether it came.
#[derive(Drop)]
pub struct Holding {
    held: u64,
    awaited: u64,
    looks: u64,
    came: AtomicBool,
    met: AtomicBool,
}

impl Gate for Holding {
    fn at(&self, _worker: u32, chunk: u64) {
        if chunk == self.awaited {
            self.came.store(true, SeqCst);
        }
        if chunk == self.held {
            for look in 0..self.looks {
                if look % 1024 == 0 {
                    thread::yield_now();
                }
                if self.came.load(SeqCst) {
                    self.met.store(true, SeqCst);
                    break;
                }
            }
        }
    }
}

impl Holding {
    pub fn until(held: u64, awaited: u64, looks: u64) -> Holding {
        Holding {
            held,
            awaited,
            looks,
            came: AtomicBool::new(false),
            met: AtomicBool::new(false),
        }
    }

    /// Whether the chunk that was waited for came while the other was held.
    pub fn met(&self) -> bool {
        self.met.load(SeqCst)
    }
}
