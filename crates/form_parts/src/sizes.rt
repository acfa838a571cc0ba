// Integers that sizes are worth.
ghost use Rattle.std.specs.Prelude.{◌≡◌};
ghost use Rattle.fut_meaning.specs.Found.{agrees as agrees_with, count as count_told};
ghost use Rattle.fut_meaning.specs.Places.{size_of};
ghost use Rattle.fut_value.specs.Data.{shape_of};
ghost use Rattle.fut_blocks.specs.Sizes.{datum_worth};
ghost use Rattle.array_data.specs.Held.{held, shape_held};
ghost use Rattle.form_parts.specs.Met.{exact_met};

use array_data::{Data, Exact, Form, count, whole_number};

/// The integer that data is worth as a size, where it is one.
#[tactic(auto, using(crate::proofs::Worths::worths))]
pub fn data_worth(whole: &Data) -> Option<Exact>
    ensures { exact_met result ≡ datum_worth (held whole.now) }
{
    match whole_number(whole) {
        Ok(number) => Some(number),
        Err(_) => None,
    }
}

/// How many rows data has: 0 where it is no array.
#[tactic(auto, using(crate::proofs::Worths::lengths))]
pub fn data_length(whole: &Data) -> u64
    ensures { result ≡ size_of (shape_of (held whole.now)) }
{
    match count(whole) {
        Ok(many) => many as u64,
        Err(_) => 0,
    }
}

/// How many rows data of a form has: 0 where that is no array.
#[tactic(auto, using(crate::proofs::Worths::form_lengths))]
pub fn length_of(whole: &Form) -> u64
    ensures { result ≡ size_of (shape_held whole.now) }
{
    match whole {
        Form::Array(many, _) => *many,
        Form::Unmet | Form::Scalar(_) | Form::Tuple(_) | Form::Record(_, _) => 0,
    }
}

/// As many as an integer says: none where it is below 0, or where there is none.
#[tactic(auto, using(crate::proofs::Worths::counting))]
pub fn counted(size: Option<Exact>) -> u64
    ensures { result ≡ count_told (exact_met size) }
{
    match size {
        Some(Exact::Natural(many)) => many,
        Some(Exact::Below(_)) => 0,
        None => 0,
    }
}

/// Whether an integer is so many. One that is not there agrees with each.
#[tactic(auto, using(crate::proofs::Worths::agreeing))]
pub fn agrees(size: Option<Exact>, many: u64) -> bool
    ensures { result ≡ agrees_with (exact_met size) many }
{
    match size {
        Some(Exact::Natural(natural)) => natural == many,
        Some(Exact::Below(_)) => false,
        None => true,
    }
}
