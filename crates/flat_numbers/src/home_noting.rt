// What is noted of numbers, one behind the other.
ghost use Rattle.std.specs.Prelude.{◌≡◌, [], true, false, IfOk};
ghost use Rattle.flat_numbers.specs.Listed.{one};
ghost use Rattle.flat_numbers.specs.Noted.{Noted};

use fut_scalar::{List, NoMemory};
use std::alloc::Global;

/// The homes of numbers. Once memory has run out they are of no account, and it is told when they are asked for, so that a
/// walk that notes them has no early exits.
#[derive(Drop)]
pub struct Noting {
    homes: List<u32>,
    is_full: bool,
}

impl Noting {
    /// None yet.
    pub fn new(alloc: Global) -> Noting
        ensures homes { result.homes ≡ [] }
        ensures full { result.is_full ≡ false }
    {
        Noting {
            homes: List::new(alloc),
            is_full: false,
        }
    }

    /// Notes the home of one number.
    pub fn push(&mut self, home: u32)
        ensures { Noted self.old self.new (one home) }
    {
        match self.homes.push(home) {
            Ok(()) => (),
            Err(NoMemory) => self.is_full = true,
        }
    }

    /// Nothing more can be noted.
    pub fn stop(&mut self)
        ensures { self.new.is_full ≡ true }
    {
        self.is_full = true;
    }

    /// All that was noted.
    pub fn noted(self) -> Result<List<u32>, NoMemory>
        ensures { IfOk result (λ homes. (homes ≡ self.homes) × (self.is_full ≡ false)) }
    {
        if self.is_full {
            Err(NoMemory)
        } else {
            Ok(self.homes)
        }
    }
}
