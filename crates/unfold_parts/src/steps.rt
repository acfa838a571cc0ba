// The steps so far.
ghost use Rattle.std.specs.Prelude.{◌≡◌, ◌≤◌, ◌∷◌, [], IfErr, IfOk, length};
ghost use Rattle.fut_blocks.specs.Plain.{Give, Operate, action_of, binding_of, body_of};
ghost use Rattle.unfold.specs.Unfolding.{both_hold};
ghost use Rattle.unfold_parts.specs.Answers.{Blocked, Computed, Cut, Named_as, Pushed};
ghost use Rattle.unfold_parts.specs.States.{steps_of};
ghost use Rattle.unfold_parts.specs.declared.refusal.Refusal.TheVariants as refusal;

use crate::refusal::Refusal;
use bumpalo::Bump;
use fut_blocks::{Act, Atom, Block, Operation, Step};
use fut_scalar::Scalar;

/// The steps so far, in their order, the next name that may be taken, and which nodes pack what they give.
#[derive(Drop)]
pub struct Unfolding<'a> {
    pub bump: &'a Bump,
    pub next: u32,
    pub steps: Vec<Step<'a>, &'a Bump>,
    pub packing: Vec<bool, &'a Bump>,
}

impl<'a> Unfolding<'a> {
    /// A new name.
    #[tactic(auto, using(crate::proofs::Stepping::stepping))]
    pub fn name(&mut self) -> Result<u32, Refusal>
        ensures name { Named_as self.old.next self.new.next result }
        ensures steps { steps_of self.new ≡ steps_of self.old }
    {
        let name = self.next;
        match name.checked_add(1) {
            Some(next) => {
                self.next = next;
                Ok(name)
            }
            None => Err(Refusal::Memory),
        }
    }

    /// One more step.
    #[tactic(auto, using(crate::proofs::Stepping::stepping))]
    pub fn push(&mut self, step: Step<'a>) -> Result<(), Refusal>
        ensures steps { Pushed (binding_of step.entry) (steps_of self.old) (steps_of self.new) result }
        ensures next { self.new.next ≡ self.old.next }
    {
        match self.steps.push(step) {
            Ok(()) => Ok(()),
            Err(_) => Err(Refusal::Memory),
        }
    }

    // One more step, under a new name in place of its own.
    fn named(&mut self, step: Step<'a>) -> Result<Atom, Refusal>
        ensures { Computed (binding_of step.entry).1 self.old.next (steps_of self.old) (steps_of self.new) self.new.next result }
    {
        let name = match self.name() {
            Ok(name) => name,
            Err(refusal) => return Err(refusal),
        };
        let names = match self.bump.try_alloc_slice_copy(&[name]) {
            Ok(names) => names,
            Err(_) => return Err(Refusal::Memory),
        };
        match self.push(Step {
            names,
            act: step.act,
        }) {
            Ok(()) => Ok(Atom::Name(name)),
            Err(refusal) => Err(refusal),
        }
    }

    /// One more step, which gives one component a new name.
    pub fn made(&mut self, act: Act<'a>) -> Result<Atom, Refusal>
        ensures { Computed (action_of act.entry) self.old.next (steps_of self.old) (steps_of self.new) self.new.next result }
    {
        self.named(Step { names: &[], act })
    }

    /// One more step, which gives a scalar a new name.
    pub fn compute(&mut self, operation: Operation) -> Result<Atom, Refusal>
        ensures { Computed (Operate operation) self.old.next (steps_of self.old) (steps_of self.new) self.new.next result }
    {
        self.named(Step {
            names: &[],
            act: Act::Operate(operation),
        })
    }

    /// How many steps there are.
    pub fn mark(&self) -> usize
        ensures { result ≡ length (steps_of self.now) }
    {
        self.steps.len()
    }

    /// The steps up to the mark alone, as they were when `next` was the next name.
    pub fn cut(&mut self, mark: usize, next: u32)
        requires mark { mark ≤ length (steps_of self.old) }
        ensures steps { Cut mark (steps_of self.old) (steps_of self.new) }
        ensures next { self.new.next ≡ next }
    {
        self.steps.truncate(mark);
        self.next = next;
    }

    /// Whether the node of this number packs what it gives.
    pub fn packs(&self, number: u32) -> bool {
        let at = number as usize;
        if at < self.packing.len() {
            self.packing[at]
        } else {
            false
        }
    }

    /// From now on the node of this number packs what it gives.
    pub fn note(&mut self, number: u32) -> Result<(), Refusal>
        ensures steps { steps_of self.new ≡ steps_of self.old }
        ensures next { self.new.next ≡ self.old.next }
        ensures err { IfErr result (λ r. r ≡ refusal.Memory) }
    {
        let at = number as usize;
        while self.packing.len() <= at {
            match self.packing.push(false) {
                Ok(()) => {}
                Err(_) => return Err(Refusal::Memory),
            }
        }
        self.packing[at] = true;
        Ok(())
    }

    // The block in a place of its own.
    fn kept(&self, block: Block<'a>) -> Result<&'a Block<'a>, Refusal>
        ensures ok { IfOk result (λ b. b.now ≡ block.entry) }
        ensures err { IfErr result (λ r. r ≡ refusal.Memory) }
    {
        match self.bump.try_alloc_slice_copy(&[block]) {
            Ok(cells) => {
                let cells: &'a [Block<'a>] = cells;
                Ok(&cells[0])
            }
            Err(_) => Err(Refusal::Memory),
        }
    }

    /// The steps from the mark on as a block with these results, which are steps no longer. The mark is no
    /// more than `mark` says now.
    pub fn block(&mut self, mark: usize, results: &'a [Atom]) -> Result<&'a Block<'a>, Refusal>
        requires mark { mark ≤ length (steps_of self.old) }
        ensures block { Blocked mark results.now (steps_of self.old) (steps_of self.new) result }
        ensures next { self.new.next ≡ self.old.next }
    {
        match self.bump.try_alloc_slice_copy(&self.steps[mark..]) {
            Ok(steps) => {
                self.steps.truncate(mark);
                self.kept(Block { steps, results })
            }
            Err(_) => Err(Refusal::Memory),
        }
    }

    // A block without steps.
    fn giving(&self, atom: Atom) -> Result<&'a Block<'a>, Refusal>
        ensures ok { IfOk result (λ b. body_of b.now ≡ Give (atom ∷ [])) }
        ensures err { IfErr result (λ r. r ≡ refusal.Memory) }
    {
        match self.bump.try_alloc_slice_copy(&[atom]) {
            Ok(results) => self.kept(Block {
                steps: &[],
                results,
            }),
            Err(_) => Err(Refusal::Memory),
        }
    }

    /// One more step, which says whether both truth values hold.
    pub fn both_hold(&mut self, first: Atom, second: Atom) -> Result<Atom, Refusal>
        ensures { Computed (both_hold first second) self.old.next (steps_of self.old) (steps_of self.new) self.new.next result }
    {
        let yes = match self.giving(second) {
            Ok(yes) => yes,
            Err(refusal) => return Err(refusal),
        };
        let no = match self.giving(Atom::Constant(Scalar::Bool(false))) {
            Ok(no) => no,
            Err(refusal) => return Err(refusal),
        };
        self.named(Step {
            names: &[],
            act: Act::If(first, yes, no),
        })
    }
}
