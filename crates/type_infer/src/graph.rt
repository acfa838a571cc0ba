// The graph of a program's types.
ghost use Rattle.std.specs.Prelude.{OnOk, IfErr};
ghost use Rattle.fut_typing.specs.Program.{program_numbers, program_of};
ghost use Rattle.flat_numbers.specs.Listed.{AreHomes};
ghost use Rattle.type_rules.specs.Labels.{IsLabels};
ghost use Rattle.type_infer.specs.Graphs.{Graphs, Keeps_numbers, Lacks};
ghost use Rattle.type_infer.specs.Refusals.{At_number, Shows};

use crate::begin::begin;
use crate::definitions::constrain_definitions;
use crate::refusals::{BuildErr, refused};
use fut_flat::Flat;
use fut_scalar::List;
use fut_types::Kind;
use std::alloc::Global;
use type_graph::resolve;
use type_scopes::Inference;

/// The graph of the typings of a program, solved and resolved, where places that may hold data only are of this kind. What was
/// in `inference` before is forgotten, but for the table of labels, which goes on.
pub fn build<'a>(
    alloc: Global,
    places: Kind,
    flat: &Flat<'a>,
    homes: &List<u32>,
    inference: &mut Inference<'a>,
) -> Result<(), BuildErr>
    requires homes { AreHomes homes.now (program_of flat.now) }
    requires labels { IsLabels inference.old.labels inference.old.table }
    ensures ok { OnOk result (Graphs places (program_of flat.now) inference.new) }
    ensures keeps { OnOk result (Keeps_numbers inference.old inference.new) }
    ensures err { IfErr result (Shows (Lacks places (program_of flat.now) inference.new)) }
    ensures keeps_err { IfErr result (Shows (Keeps_numbers inference.old inference.new)) }
    ensures at { IfErr result (At_number (program_numbers (program_of flat.now))) }
{
    let base = homes.len();
    if base >= 4294967295 {
        return Err(BuildErr::Memory);
    }
    match begin(alloc, homes, flat.names.len(), inference) {
        Ok(()) => {}
        Err(_) => return Err(BuildErr::Memory),
    }
    match constrain_definitions(alloc, places, base as u32, flat.definitions, inference) {
        Ok(()) => {}
        Err(error) => return Err(error),
    }
    match resolve(alloc, &inference.nodes, &inference.entries) {
        Ok(()) => Ok(()),
        Err(error) => Err(refused(error, 0, base as u32)),
    }
}
