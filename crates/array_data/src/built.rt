// Rows that are put together, one after the other.
ghost use Rattle.std.specs.Prelude.{◌≡◌, [], length, true, IfSome};
ghost use Rattle.fut_arithmetic.specs.Types.{type_of};
ghost use Rattle.array_data.specs.Answers.{Added};
ghost use Rattle.array_data.specs.Held.{built_rows, held, scalars};
ghost use Rattle.array_data.specs.declared.data.Data.TheVariants.{Scalar as Held_scalar};

use crate::data::Data;
use crate::form::sort_of;
use crate::stop::Stop;
use fut_arithmetic::encode_word;
use fut_scalar::{List, Scalar, ScalarType};
use std::alloc::Global;

/// Rows for an array: scalars of one type by their words, and behind them all others.
#[derive(Drop)]
pub struct Built {
    pub ty: ScalarType,
    pub words: List<u64>,
    pub rows: List<Data>,
}

impl Built {
    /// No rows. It takes no memory.
    #[tactic(auto, using(crate::proofs::Building::building))]
    pub fn new(alloc: Global) -> Built
        ensures { built_rows result ≡ [] }
    {
        Built {
            ty: ScalarType::Bool,
            words: List::new(alloc),
            rows: List::new(alloc),
        }
    }

    /// How many rows there are.
    #[tactic(auto, using(crate::proofs::Building::lengths))]
    pub fn len(&self) -> Option<usize>
        ensures { IfSome result (λ n. n ≡ length (built_rows self.now)) }
    {
        self.words.len().checked_add(self.rows.len())
    }

    /// Puts a row behind the others.
    #[tactic(auto, using(crate::proofs::Building::building))]
    pub fn push(&mut self, row: Data) -> Result<(), Stop>
        ensures { Added (held row) (built_rows self.old) (built_rows self.new) result }
    {
        if let Data::Scalar(scalar) = &row {
            let scalar = *scalar;
            if self.takes_words(sort_of(scalar)) {
                return self.push_word(scalar);
            }
        }
        match self.rows.push(row) {
            Ok(()) => Ok(()),
            Err(_) => Err(Stop::Memory),
        }
    }

    /// Whether words of a type can come next.
    #[tactic(auto, using(crate::proofs::Building::building))]
    fn takes_words(&self, ty: ScalarType) -> bool
        ensures rows { result ≡ true → self.now.rows ≡ [] }
        ensures words { result ≡ true → scalars self.now.ty self.now.words ≡ scalars ty self.now.words }
    {
        if self.rows.len() > 0 {
            return false;
        }
        if self.words.len() == 0 {
            return true;
        }
        self.ty == ty
    }

    /// Puts a scalar behind words of its type.
    #[tactic(auto, using(crate::proofs::Building::building))]
    fn push_word(&mut self, scalar: Scalar) -> Result<(), Stop>
        requires rows { self.old.rows ≡ [] }
        requires words { scalars self.old.ty self.old.words ≡ scalars (type_of scalar) self.old.words }
        ensures { Added (held (Held_scalar scalar)) (built_rows self.old) (built_rows self.new) result }
    {
        self.ty = sort_of(scalar);
        match self.words.push(encode_word(scalar)) {
            Ok(()) => Ok(()),
            Err(_) => Err(Stop::Memory),
        }
    }
}
