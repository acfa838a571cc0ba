// New names for components.
ghost use Rattle.std.specs.Prelude.{◌≡◌};
ghost use Rattle.fut_blocks.specs.Plain.{action_of};
ghost use Rattle.unfold_parts.specs.Answers.{Newly_named, Opened_to};
ghost use Rattle.unfold_parts.specs.States.{steps_of};

use crate::refusal::Refusal;
use crate::steps::Unfolding;
use bumpalo::collections::into_bump_slice;
use fut_blocks::{Act, Atom, Step};
use unfold::{Known, KnownForm};

/// New names, and what is known of the components that have them.
#[derive(Clone, Copy)]
pub struct Named<'a> {
    pub names: &'a [u32],
    pub knowns: &'a [Known<'a>],
}

impl<'a> Unfolding<'a> {
    /// So many new names.
    pub fn names(&mut self, count: usize) -> Result<Named<'a>, Refusal>
        ensures named { Newly_named count self.old.next self.new.next result }
        ensures steps { steps_of self.new ≡ steps_of self.old }
    {
        let mut names = Vec::new(self.bump);
        let mut knowns = Vec::new(self.bump);
        while names.len() < count {
            let name = match self.name() {
                Ok(name) => name,
                Err(refusal) => return Err(refusal),
            };
            match names.push(name) {
                Ok(()) => {}
                Err(_) => return Err(Refusal::Memory),
            }
            match knowns.push(Known {
                form: KnownForm::Scalar(Atom::Name(name)),
            }) {
                Ok(()) => {}
                Err(_) => return Err(Refusal::Memory),
            }
        }
        Ok(Named {
            names: into_bump_slice(names),
            knowns: into_bump_slice(knowns),
        })
    }

    /// One more step, which gives so many components new names.
    pub fn opened(&mut self, act: Act<'a>, count: usize) -> Result<&'a [Known<'a>], Refusal>
        ensures { Opened_to (action_of act.entry) count self.old.next (steps_of self.old) (steps_of self.new) self.new.next result }
    {
        let named = match self.names(count) {
            Ok(named) => named,
            Err(refusal) => return Err(refusal),
        };
        match self.push(Step {
            names: named.names,
            act,
        }) {
            Ok(()) => Ok(named.knowns),
            Err(refusal) => Err(refusal),
        }
    }
}
