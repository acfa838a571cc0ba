// What is noted of numbers, one behind the other.
ghost use Rattle.std.specs.Prelude.{◌≡◌, [], true, false, IfOk};
ghost use Rattle.flat_numbers.specs.PlaceNoted.{Noted};
ghost use Rattle.flat_numbers.specs.Places.{one};

use fut_scalar::{List, NoMemory, Place};
use std::alloc::Global;

/// The places of numbers. Once memory has run out they are of no account, and it is told when they are asked for, so that a
/// walk that notes them has no early exits.
#[derive(Drop)]
pub struct Noting {
    places: List<Place>,
    is_full: bool,
}

impl Noting {
    /// None yet.
    pub fn new(alloc: Global) -> Noting
        ensures places { result.places ≡ [] }
        ensures full { result.is_full ≡ false }
    {
        Noting {
            places: List::new(alloc),
            is_full: false,
        }
    }

    /// Notes the place of one number.
    pub fn push(&mut self, at: Place)
        ensures { Noted self.old self.new (one at) }
    {
        match self.places.push(at) {
            Ok(()) => (),
            Err(NoMemory) => self.is_full = true,
        }
    }

    /// Nothing more can be noted.
    pub fn stop(&mut self)
        ensures { self.new.is_full ≡ true }
    {
        self.is_full = true;
    }

    /// All that was noted.
    pub fn noted(self) -> Result<List<Place>, NoMemory>
        ensures { IfOk result (λ places. (places ≡ self.places) × (self.is_full ≡ false)) }
    {
        if self.is_full {
            Err(NoMemory)
        } else {
            Ok(self.places)
        }
    }
}
