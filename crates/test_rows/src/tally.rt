// What came of a file: how many rows it has, the first that differs, and the first fault.
use crate::fault::{Fault, Wrong};
use std::alloc::Global;

/// The rows that a file has had so far.
#[derive(Drop)]
pub struct Tally {
    pub rows: u64,
    pub differing: u64,
    /// The line of the first row that differs.
    pub line: u64,
    /// What came there.
    pub came: String,
    pub fault: Option<Fault>,
}

impl Tally {
    /// No row. It takes no memory.
    pub fn new(alloc: Global) -> Tally {
        Tally {
            rows: 0,
            differing: 0,
            line: 0,
            came: String::new(alloc),
            fault: None,
        }
    }

    /// Counts a row, and keeps what came if it is the first that differs.
    pub fn add(&mut self, line: u64, holds: bool, came: &str) {
        self.rows = self.rows.saturating_add(1);
        if holds {
            return;
        }
        self.differing = self.differing.saturating_add(1);
        if self.differing == 1 {
            self.line = line;
            if self.came.push_str(came).is_err() {
                self.spend();
            }
        }
    }

    /// Whether there are rows and all of them hold.
    pub fn all_hold(&self) -> bool {
        self.rows > 0 && self.differing == 0 && self.fault.is_none()
    }

    /// Tells that a line is written wrong.
    pub fn refuse(&mut self, line: u64, wrong: Wrong) {
        if self.fault.is_none() {
            self.fault = Some(Fault::Malformed { line, wrong });
        }
    }

    /// Tells that memory ran out.
    pub fn spend(&mut self) {
        if self.fault.is_none() {
            self.fault = Some(Fault::Memory);
        }
    }
}
