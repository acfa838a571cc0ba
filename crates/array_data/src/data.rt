// Data, whose arrays, tuples and records are shared.
ghost use Rattle.std.specs.Prelude.{◌≡◌, [], ◌∷◌, None, IfOk, IfSome};
ghost use Rattle.array_data.specs.Answers.{Copied};

use crate::form::Form;
use crate::handle::Handle;
use crate::stop::Stop;
use fut_scalar::{List, Name, NoMemory, Scalar, ScalarType, Shared};
use std::alloc::Global;

/// Data. A copy of an array, a tuple or a record shares its parts. These know how deep they are at most.
#[derive(Drop)]
pub enum Data {
    Scalar(Scalar),
    /// An array of scalars of one type, by their words.
    Words(ScalarType, Handle<List<u64>>),
    /// An array: what its rows look like, and the rows.
    Rows(u32, Shared<Form>, Handle<List<Data>>),
    Tuple(u32, Shared<List<Data>>),
    /// A record: the names of its fields, and its parts in their order.
    Record(u32, Shared<List<Name>>, Shared<List<Data>>),
}

/// The same data, which shares all that is in it.
#[tactic(auto, using(crate::proofs::Holding::copies))]
pub fn copy(whole: &Data) -> Result<Data, Stop>
    ensures value { Copied whole.now result }
    ensures same { IfOk result (λ other. other ≡ whole.now) }
{
    match whole {
        Data::Scalar(scalar) => Ok(Data::Scalar(*scalar)),
        Data::Words(ty, words) => match words.share() {
            Ok(words) => Ok(Data::Words(*ty, words)),
            Err(_) => Err(Stop::Memory),
        },
        Data::Rows(depth, form, rows) => {
            let (Ok(form), Ok(rows)) = (form.share(), rows.share()) else {
                return Err(Stop::Memory);
            };
            Ok(Data::Rows(*depth, form, rows))
        }
        Data::Tuple(depth, parts) => match parts.share() {
            Ok(parts) => Ok(Data::Tuple(*depth, parts)),
            Err(_) => Err(Stop::Memory),
        },
        Data::Record(depth, names, parts) => {
            let (Ok(names), Ok(parts)) = (names.share(), parts.share()) else {
                return Err(Stop::Memory);
            };
            Ok(Data::Record(*depth, names, parts))
        }
    }
}

/// The first of some data, apart from the others.
#[tactic(auto, using(crate::proofs::Holding::parting))]
pub fn first_apart(all: List<Data>) -> Option<(Data, List<Data>)>
    ensures parts { IfSome result (λ parts. all ≡ parts.0 ∷ parts.1) }
    ensures none { result ≡ None → all ≡ [] }
{
    let mut rest = all.into_vec();
    if rest.len() == 0 {
        return None;
    }
    let first = rest.remove(0);
    Some((first, List::from_vec(rest)))
}
