// What is known of the definitions.
ghost use Rattle.std.specs.Prelude.{◌≡◌, ◌∷◌, [], IfErr, IfOk};
ghost use Rattle.fut_blocks.specs.Meaning.{look};
ghost use Rattle.unfold.specs.Held.{known_of};
ghost use Rattle.unfold_parts.specs.Held.{maybe_known};
ghost use Rattle.unfold_parts.specs.Tables.{Kept, definitions_of, tops_of};
ghost use Rattle.unfold_parts.specs.declared.refusal.Refusal.TheVariants as refusal;

use crate::refusal::Refusal;
use bumpalo::Bump;
use fut_scalar::BindId;
use std::slice;
use unfold::Known;

/// Definitions with what is known of them, the last one first.
#[derive(Clone, Copy)]
pub enum Defined<'a> {
    Nothing,
    Behind(BindId, Known<'a>, &'a Defined<'a>),
}

static NOTHING: Defined<'static> = Defined::Nothing;

/// What is known of the definitions: in order, the last one first, and by their numbers.
#[derive(Drop)]
pub struct Tops<'a> {
    pub bump: &'a Bump,
    pub list: &'a Defined<'a>,
    pub table: Vec<Option<Known<'a>>, &'a Bump>,
}

// One more definition.
#[tactic(auto, using(crate::proofs::Tabling::tabling))]
fn behind<'a>(
    bump: &'a Bump,
    number: BindId,
    known: Known<'a>,
    list: &'a Defined<'a>,
) -> Result<&'a Defined<'a>, Refusal>
    ensures ok { IfOk result (λ longer. definitions_of longer.now ≡ (number.0, known_of known.entry) ∷ definitions_of list.now) }
    ensures err { IfErr result (λ r. r ≡ refusal.Memory) }
{
    let longer = Defined::Behind(number, known, list);
    match bump.try_alloc_slice_copy(slice::from_ref(&longer)) {
        Ok(cells) => {
            let cells: &'a [Defined<'a>] = cells;
            Ok(&cells[0])
        }
        Err(_) => Err(Refusal::Memory),
    }
}

impl<'a> Tops<'a> {
    /// No definitions.
    #[tactic(auto, using(crate::proofs::Tabling::tabling))]
    pub fn new(bump: &'a Bump) -> Tops<'a>
        ensures kept { Kept result }
        ensures tops { tops_of result ≡ [] }
    {
        Tops {
            bump,
            list: &NOTHING,
            table: Vec::new(bump),
        }
    }

    /// What is known of a definition.
    pub fn of(&self, number: BindId) -> Option<Known<'a>>
        requires kept { Kept self.now }
        ensures { maybe_known result ≡ look (tops_of self.now) number.0 }
    {
        let at = number.0 as usize;
        if at < self.table.len() {
            self.table[at]
        } else {
            None
        }
    }

    /// What is known with one more definition.
    #[tactic(auto, using(crate::proofs::Tabling::tabling))]
    pub fn with(self, number: BindId, known: Known<'a>) -> Result<Tops<'a>, Refusal>
        requires kept { Kept self }
        ensures kept { IfOk result (λ made. Kept made) }
        ensures tops { IfOk result (λ made. tops_of made ≡ (number.0, known_of known.entry) ∷ tops_of self.entry) }
        ensures err { IfErr result (λ r. r ≡ refusal.Memory) }
    {
        let bump = self.bump;
        let list = match behind(bump, number, known, self.list) {
            Ok(list) => list,
            Err(refusal) => return Err(refusal),
        };
        let mut table = self.table;
        let at = number.0 as usize;
        while table.len() <= at {
            match table.push(None) {
                Ok(()) => {}
                Err(_) => return Err(Refusal::Memory),
            }
        }
        table[at] = Some(known);
        Ok(Tops { bump, list, table })
    }
}
