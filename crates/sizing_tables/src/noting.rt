// What is noted of the names that a program binds.
ghost use Rattle.std.specs.Prelude.{◌≡◌, ◌∷◌, [], true, false, IfOk, Option};
ghost use Rattle.sizing_tables.specs.Noted.{Noted, Noted_of};

use fut_scalar::{List, NoMemory};
use std::alloc::Global;

/// The names that patterns bind, by the numbers of nodes, and the names of sizes. Once memory has run out they are of no account,
/// and it is told when they are asked for, so that a walk that notes them has no early exits.
#[derive(Drop)]
pub struct Noting {
    names: List<Option<u32>>,
    sizes: List<u32>,
    is_full: bool,
}

/// All that was noted.
#[derive(Drop)]
pub struct Names {
    pub names: List<Option<u32>>,
    pub sizes: List<u32>,
}

impl Noting {
    /// Nothing yet.
    pub fn new(alloc: Global) -> Noting
        ensures names { result.names ≡ [] }
        ensures sizes { result.sizes ≡ [] }
        ensures full { result.is_full ≡ false }
    {
        Noting {
            names: List::new(alloc),
            sizes: List::new(alloc),
            is_full: false,
        }
    }

    /// Notes the name, if any, that the next node binds.
    pub fn node(&mut self, name: Option<u32>)
        ensures { Noted self.old self.new (name ∷ []) [] }
    {
        match self.names.push(name) {
            Ok(()) => (),
            Err(NoMemory) => self.is_full = true,
        }
    }

    /// Notes the name of a size.
    pub fn size(&mut self, name: u32)
        ensures { Noted self.old self.new [] (name ∷ []) }
    {
        match self.sizes.push(name) {
            Ok(()) => (),
            Err(NoMemory) => self.is_full = true,
        }
    }

    /// All that was noted.
    pub fn noted(self) -> Result<Names, NoMemory>
        ensures { IfOk result (Noted_of self) }
    {
        if self.is_full {
            Err(NoMemory)
        } else {
            Ok(Names {
                names: self.names,
                sizes: self.sizes,
            })
        }
    }
}
