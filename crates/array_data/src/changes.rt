// The rows of an array, apart from it, of which single ones are replaced.
ghost use Rattle.std.specs.Prelude.{◌≡◌, ◌<◌, length, IfOk};
ghost use Rattle.array_data.specs.Changes.{Found, Replaced, Taken_out, as_found};
ghost use Rattle.array_data.specs.Held.{as_held, built_rows, held, held_all, rows_in};

use crate::built::Built;
use crate::data::{Data, copy};
use crate::form::sort_of;
use crate::handle::Handle;
use crate::stop::Stop;
use crate::tuples::push_parts;
use fut_arithmetic::{decode_word, encode_word};
use fut_scalar::{List, NoMemory, Scalar, ScalarType};
use std::alloc::Global;
use std::mem::replace;

/// The words of a handle, which are copied where others have them too.
fn own_words(alloc: Global, words: Handle<List<u64>>) -> Result<List<u64>, NoMemory>
    ensures { IfOk result (λ own. own ≡ words) }
{
    match words.take() {
        Ok(own) => Ok(own),
        Err(shared) => List::from_slice(alloc, shared.get().as_slice()),
    }
}

/// The rows of a handle, which are shared where others have them too.
#[tactic(auto, using(crate::proofs::Changing::owning))]
fn own_rows(alloc: Global, rows: Handle<List<Data>>) -> Result<List<Data>, NoMemory>
    ensures { IfOk result (λ own. held_all own ≡ held_all rows) }
{
    let shared = match rows.take() {
        Ok(own) => return Ok(own),
        Err(shared) => shared,
    };
    let mut handles = Vec::new(alloc);
    let Ok(()) = push_parts(shared.get().as_slice(), &mut handles) else {
        return Err(NoMemory);
    };
    Ok(List::from_vec(handles))
}

impl Built {
    /// The rows of an array. They are copied where others have the array too, and else taken out of it.
    #[tactic(auto, using(crate::proofs::Changing::taking_apart))]
    pub fn of(alloc: Global, array: Data) -> Result<Built, NoMemory>
        ensures { IfOk result (λ built. built_rows built ≡ rows_in (held array)) }
    {
        match array {
            Data::Words(ty, words) => Ok(Built {
                ty,
                words: own_words(alloc, words)?,
                rows: List::new(alloc),
            }),
            Data::Rows(_, _, rows) => Ok(Built {
                ty: ScalarType::Bool,
                words: List::new(alloc),
                rows: own_rows(alloc, rows)?,
            }),
            Data::Scalar(_) | Data::Tuple(_, _) | Data::Record(_, _, _) => Err(NoMemory),
        }
    }

    /// The row at an index, where there is one.
    #[tactic(auto, using(crate::proofs::Changing::finding))]
    pub fn row(&self, at: u64) -> Result<Option<Data>, Stop>
        ensures { Found (built_rows self.now) at (as_found result) }
    {
        let words = self.words.as_slice();
        if at < words.len() as u64 {
            let word = words[at as usize];
            return Ok(Some(Data::Scalar(decode_word(self.ty, word))));
        }
        let rows = self.rows.as_slice();
        let beyond = at - words.len() as u64;
        if beyond >= rows.len() as u64 {
            return Ok(None);
        }
        Ok(Some(copy(&rows[beyond as usize])?))
    }

    /// The row at an index. It is taken out, so that another one has to be put there before the rows are used.
    #[tactic(auto, using(crate::proofs::Changing::taking_out))]
    pub fn take_row(&mut self, alloc: Global, at: u64) -> Result<Data, Stop>
        ensures { Taken_out at (built_rows self.old) (built_rows self.new) (as_held result) }
    {
        let words = self.words.as_slice();
        if at < words.len() as u64 {
            let word = words[at as usize];
            return Ok(Data::Scalar(decode_word(self.ty, word)));
        }
        let beyond = at - words.len() as u64;
        if beyond >= self.rows.len() as u64 {
            return Err(Stop::Memory);
        }
        let mut rows = replace(&mut self.rows, List::new(alloc)).into_vec();
        let row = replace(
            &mut rows[beyond as usize],
            Data::Scalar(Scalar::Bool(false)),
        );
        self.rows = List::from_vec(rows);
        Ok(row)
    }

    /// Puts another row in the place of one. A word is replaced by one of its type alone.
    #[tactic(auto, using(crate::proofs::Changing::replacing))]
    pub fn set(&mut self, at: u64, row: Data) -> Result<(), Stop>
        ensures { Replaced at (held row) (built_rows self.old) (built_rows self.new) result }
    {
        let words = self.words.len() as u64;
        if at < words {
            return self.set_word(at as usize, &row);
        }
        let beyond = at - words;
        if beyond >= self.rows.len() as u64 {
            return Err(Stop::Memory);
        }
        self.rows.set(beyond as usize, row);
        Ok(())
    }

    /// Puts a scalar in the place of a word of its type.
    #[tactic(auto, using(crate::proofs::Changing::replacing_words))]
    fn set_word(&mut self, at: usize, row: &Data) -> Result<(), Stop>
        requires { at < length self.old.words }
        ensures { Replaced at (held row.now) (built_rows self.old) (built_rows self.new) result }
    {
        match row {
            Data::Scalar(scalar) => {
                let scalar = *scalar;
                if sort_of(scalar) != self.ty {
                    return Err(Stop::Memory);
                }
                self.words.set(at, encode_word(scalar));
                Ok(())
            }
            Data::Words(_, _) | Data::Rows(_, _, _) | Data::Tuple(_, _) | Data::Record(_, _, _) => {
                Err(Stop::Memory)
            }
        }
    }
}
