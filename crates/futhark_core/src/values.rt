// The input as data of a run, and the data of a result as text.
ghost use Rattle.std.specs.Prelude.{◌≡◌, List as Values, IfOk, IfErr, map};
ghost use Rattle.fut_scalar.specs.declared.sizes.DataType.{DataType as Sort};
ghost use Rattle.fut_value.specs.Values.{datum_of};
ghost use Rattle.fut_value.specs.declared.value.Value.{Value as TheValue};
ghost use Rattle.array_data.specs.Held.{held_all};
ghost use Rattle.data_values.specs.Met.{each_met};
ghost use Rattle.value_text.specs.Arguments.{Explains, Reads};
ghost use Rattle.value_text.specs.Printing.{data_output};
ghost use Rattle.unfolded_runs.specs.Results.{Are_arguments, opened};
ghost use Rattle.entry_sizes.specs.Wanted.{Are_wanted};

use array_data::Data;
use data_values::{data_of_all, values_of};
use fut_scalar::{ArgType, DataType, List, NoMemory};
use std::alloc::Global;
use value_text::{TextErr, print_values, read_args};

/// The arguments that a text reads as, one for each that is wanted, as data of a run.
pub fn read_data(alloc: Global, wanted: &List<ArgType>, text: &[u8]) -> Result<List<Data>, TextErr>
    ensures read { IfOk result (λ all. (values : Values TheValue) × Reads wanted.now text.now values × (held_all all ≡ map datum_of values) × ((types : Values Sort) → Are_wanted types wanted.now → Are_arguments types (map datum_of values))) }
    ensures refused { IfErr result (Explains wanted.now text.now) }
{
    let values = match read_args(alloc, wanted, text) {
        Ok(values) => values,
        Err(err) => return Err(err),
    };
    match data_of_all(alloc, values) {
        Ok(all) => Ok(all),
        Err(_) => Err(TextErr::Memory),
    }
}

/// The components of a result, of which a tuple may be the only one.
#[tactic(auto, using(crate::proofs::Opening::openings))]
fn opened(tuple: bool, results: &[Data]) -> &[Data]
    ensures { held_all result.now ≡ opened tuple (held_all results.now) }
{
    if !tuple {
        return results;
    }
    if results.len() != 1 {
        return results;
    }
    match &results[0] {
        Data::Tuple(_, parts) => parts.get().as_slice(),
        Data::Scalar(_) => results,
        Data::Words(_, _) => results,
        Data::Rows(_, _, _) => results,
        Data::Record(_, _, _) => results,
    }
}

/// The text of a result of these types: a line for each of its components.
pub fn print_result(
    alloc: Global,
    tuple: bool,
    types: &[DataType],
    results: &[Data],
) -> Result<Vec<u8>, NoMemory>
    ensures { IfOk result (λ text. text.items ≡ data_output (each_met types.now (opened tuple (held_all results.now)))) }
{
    let components = opened(tuple, results);
    let values = values_of(alloc, types, components)?;
    print_values(alloc, values.as_slice())
}
