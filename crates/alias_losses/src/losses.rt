// What was consumed, in order.
ghost use Rattle.std.specs.Prelude.{◌≡◌, ◌-◌, ◌++◌, ◌∷◌, [], None, IfOk, OnErr, OnOk, length, take};
ghost use Rattle.fut_aliases.specs.Steps.{behind, lose, lose_all, losses_at, lost, lost_at};
ghost use Rattle.alias_losses.specs.Tellings.{told};

use crate::chains::{Entry, found, later, node_of, number_at, reach};
use bumpalo::Bump;
use fut_aliases::{Alias, Broken, Loss, Named, Spot};
use fut_scalar::{BindId, List, NoMemory};
use std::alloc::Global;
use std::marker::Model;

/// What was consumed, each alias once, with the place where that happened first. Contracts see the list.
#[derive(Drop)]
pub struct Losses {
    entries: List<Entry>,
    /// Of each node, how many entries there were up to the newest of its aliases.
    newest: List<u32>,
}

impl Model for Losses {
    ghost use Rattle.std.specs.Prelude.{List, map};
    ghost use Rattle.fut_aliases.specs.declared.refusals.Loss.{Loss as HeldLoss};

    ghost Value = { List HeldLoss };

    ghost view = { λ s. map (λ e. e.loss) s.entries };

    ghost use Rattle.alias_losses.specs.Chains.{Chained};

    ghost invariant = { λ s. Chained s.entries s.newest };
}

/// What a refusal tells of what was lost.
#[derive(Clone, Copy)]
pub enum Telling {
    /// The alias that was.
    TheAlias,
    /// The name that is used.
    TheName(BindId),
}

impl Telling {
    fn of(self, alias: Alias) -> Named
        ensures { result ≡ told self alias }
    {
        match self {
            Telling::TheAlias => Named::ByAlias(alias),
            Telling::TheName(bind) => Named::ByName(bind),
        }
    }
}

impl Losses {
    /// Nothing was consumed. It takes no memory.
    #[tactic(auto, using(crate::proofs::Keeping::keeping))]
    pub fn new(alloc: Global) -> Losses
        ensures { result ≡ [] }
    {
        Losses {
            entries: List::new(alloc),
            newest: List::new(alloc),
        }
    }

    /// How much was consumed.
    pub fn len(&self) -> usize
        ensures { result ≡ length self.now }
    {
        self.entries.len()
    }

    /// Where an alias was consumed first, among what was consumed after the first so many.
    pub fn lost_behind(&self, count: usize, alias: Alias) -> Option<Spot>
        ensures { result ≡ lost_at (behind count self.now) alias }
    {
        found(
            self.entries.as_slice(),
            self.newest.as_slice(),
            count,
            alias,
        )
    }

    /// Where an alias was consumed first.
    pub fn lost_at(&self, alias: Alias) -> Option<Spot>
        ensures { result ≡ lost_at self.now alias }
    {
        self.lost_behind(0, alias)
    }

    /// What was consumed after the first so many, held by the arena.
    pub fn later<'a>(&self, bump: &'a Bump, count: usize) -> Result<&'a [Loss], NoMemory>
        ensures { IfOk result (λ losses. losses.now ≡ behind count self.now) }
    {
        later(bump, self.entries.as_slice(), count)
    }

    // Puts a loss behind the others.
    #[tactic(auto, using(crate::proofs::Keeping::keeping))]
    fn push(&mut self, loss: Loss) -> Result<(), NoMemory>
        requires new { lost_at self.old loss.alias ≡ None }
        ensures ok { OnOk result (self.new ≡ self.old ++ loss ∷ []) }
        ensures err { OnErr result (self.new ≡ self.old) }
    {
        let node = node_of(loss.alias) as usize;
        let Ok(count) = u32::try_from(self.entries.len()) else {
            return Err(NoMemory);
        };
        if count == u32::MAX {
            return Err(NoMemory);
        }
        let before = number_at(self.newest.as_slice(), node);
        reach(&mut self.newest, node)?;
        self.entries.push(Entry { loss, before })?;
        self.newest.set(node, count + 1);
        Ok(())
    }

    // Takes the newest loss off.
    #[tactic(auto, using(crate::proofs::Keeping::keeping))]
    fn forget(&mut self)
        ensures { self.new ≡ take (length self.old - 1) self.old }
    {
        if let Some(entry) = self.entries.pop() {
            let node = node_of(entry.loss.alias) as usize;
            if node < self.newest.len() {
                self.newest.set(node, entry.before);
            }
        }
    }

    /// Puts back what was consumed after the first so many.
    #[tactic(auto, using(crate::proofs::Keeping::putting_back))]
    pub fn put_back(&mut self, count: usize)
        ensures { self.new ≡ take count self.old }
    {
        while self.len() > count {
            self.forget();
        }
    }

    /// One more is consumed. Where that happened before, the first place stays. After a refusal all is as before.
    #[tactic(auto, using(crate::proofs::Losing::one_loss))]
    pub fn lose(&mut self, loss: Loss) -> Result<(), NoMemory>
        ensures ok { OnOk result (self.new ≡ lose loss self.old) }
        ensures err { OnErr result (self.new ≡ self.old) }
    {
        match self.lost_at(loss.alias) {
            Some(_) => Ok(()),
            None => self.push(loss),
        }
    }

    /// These are consumed too.
    #[tactic(auto, using(crate::proofs::Losing::many_losses))]
    pub fn lose_all(&mut self, losses: &[Loss]) -> Result<(), NoMemory>
        ensures { OnOk result (self.new ≡ lose_all losses.now self.old) }
    {
        for i in 0..losses.len() {
            self.lose(losses[i])?;
        }
        Ok(())
    }

    /// All aliases of a set are consumed at a place.
    #[tactic(auto, using(crate::proofs::Losing::all_consumed))]
    pub fn consume(&mut self, at: Spot, set: &[Alias]) -> Result<(), NoMemory>
        ensures { OnOk result (self.new ≡ lose_all (losses_at at set.now) self.old) }
    {
        for i in 0..set.len() {
            self.lose(Loss { alias: set[i], at })?;
        }
        Ok(())
    }

    /// The refusal where an alias of a set was consumed after the first so many: it tells of the least of them.
    #[tactic(auto, using(crate::proofs::Losing::least_lost))]
    pub fn lost(&self, count: usize, telling: Telling, used: Spot, set: &[Alias]) -> Option<Broken>
        ensures { result ≡ lost (behind count self.now) (told telling) used set.now }
    {
        for i in 0..set.len() {
            let alias = set[i];
            match self.lost_behind(count, alias) {
                Some(at) => return Some(Broken::Consumed(telling.of(alias), at, used)),
                None => (),
            }
        }
        None
    }
}
