// Names that hide one another, each found at once.
ghost use Rattle.std.specs.Prelude.{◌≡◌, ◌-◌, ◌++◌, [], ◌∷◌, IfOk, OnErr, OnOk, length, map, reverse, take};
ghost use Rattle.elab_scopes.specs.Hiding.{in_space};
ghost use Rattle.elab_scopes.specs.Table.{entries_of};

use crate::newest::Newest;
use crate::table::Entry;
use bumpalo::Bump;
use bumpalo::collections::into_bump_slice;
use fut_scalar::{BindId, List, NoMemory};
use std::alloc::Global;
use std::marker::Model;

/// A name in scope, and the number that its text had before.
#[derive(Clone, Copy)]
pub struct Layer<'a> {
    pub entry: Entry<'a>,
    pub hides: Option<BindId>,
}

/// Names in scope, the newest last. Contracts see the list of them.
#[derive(Drop)]
pub struct Scope<'a> {
    layers: List<Layer<'a>>,
    newest: Newest<'a>,
}

impl<'a> Model for Scope<'a> {
    ghost use Rattle.std.specs.Prelude.{List, map};
    ghost use Rattle.elab_scopes.specs.declared.table.Entry.{Entry as HeldEntry};

    ghost Value = { List HeldEntry };

    ghost view = { λ s. map (λ l. l.entry) s.layers };

    ghost use Rattle.elab_scopes.specs.Hiding.{Ties};

    ghost invariant = { λ s. Ties s.layers s.newest };
}

impl<'a> Scope<'a> {
    /// No names. It takes no memory.
    #[tactic(auto, using(crate::proofs::Tied::hidings))]
    pub fn new(alloc: Global) -> Scope<'a>
        ensures { result ≡ [] }
    {
        Scope {
            layers: List::new(alloc),
            newest: Newest::new(alloc),
        }
    }

    pub fn len(&self) -> usize
        ensures { result ≡ length self.now }
    {
        self.layers.len()
    }

    /// The newest number of a name as a type or as a value.
    #[tactic(auto, using(crate::proofs::Tied::hidings))]
    pub fn of(&self, is_type: bool, name: &str) -> Option<BindId>
        ensures { result ≡ in_space (reverse (entries_of self.now)) is_type name.now }
    {
        self.newest.of(is_type, name)
    }

    /// Brings a name in scope. After a refusal all is as before.
    #[tactic(auto, using(crate::proofs::Tied::hidings))]
    pub fn enter(&mut self, entry: Entry<'a>) -> Result<(), NoMemory>
        ensures ok { OnOk result (self.new ≡ self.old ++ entry.entry ∷ []) }
        ensures err { OnErr result (self.new ≡ self.old) }
    {
        let count = self.layers.len();
        let hides = self.newest.of(entry.is_type, entry.name);
        match self.layers.push(Layer { entry, hides }) {
            Ok(()) => (),
            Err(_) => return Err(NoMemory),
        }
        match self.newest.set(entry.is_type, entry.name, Some(entry.bind)) {
            Ok(()) => Ok(()),
            Err(_) => {
                self.layers.truncate(count);
                Err(NoMemory)
            }
        }
    }

    /// Takes the newest name out of scope.
    #[tactic(auto, using(crate::proofs::Tied::hidings))]
    fn forget(&mut self)
        ensures { self.new ≡ take (length self.old - 1) self.old }
    {
        if let Some(layer) = self.layers.pop() {
            let entry = layer.entry;
            // the text has a number, so this takes no memory
            match self.newest.set(entry.is_type, entry.name, layer.hides) {
                Ok(()) => (),
                Err(_) => (),
            }
        }
    }

    /// Takes the newest names out of scope until so many are left.
    #[tactic(auto, using(crate::proofs::Tied::leaving))]
    pub fn leave(&mut self, height: u128)
        ensures { self.new ≡ take height self.old }
    {
        while self.len() as u128 > height {
            self.forget();
        }
    }

    /// The names, held by the arena.
    pub fn names(&self, bump: &'a Bump) -> Result<&'a [Entry<'a>], NoMemory>
        ensures { IfOk result (λ names. names.now ≡ self.now) }
    {
        let mut names = Vec::new(bump);
        let layers = self.layers.as_slice();
        for layer in layers {
            match names.push(layer.entry) {
                Ok(()) => (),
                Err(_) => return Err(NoMemory),
            }
        }
        Ok(into_bump_slice(names))
    }
}
