// Definitions in a row.
ghost use Rattle.std.specs.Prelude.{◌≤◌, map, OnOk, IfErr};
ghost use Rattle.fut_typing.specs.Program.{defined, program_numbers};
ghost use Rattle.type_scopes.specs.Scopes.{Opened, Refused, Safe};
ghost use Rattle.type_infer.specs.Definitions.{Definitions_claim, Definitions_homes, env_definitions};
ghost use Rattle.type_infer.specs.Refusals.{At_number, Shows};

use crate::refusals::{BuildErr, refused};
use fut_flat::Definition;
use fut_types::Kind;
use std::alloc::Global;
use type_constraints::constrain_definition;
use type_scopes::Inference;

/// Asks for the rules of all numbers of definitions in a row, each over those before it.
pub fn constrain_definitions<'a>(
    alloc: Global,
    places: Kind,
    base: u32,
    definitions: &[Definition<'a>],
    inference: &mut Inference<'a>,
) -> Result<(), BuildErr>
    requires safe { Safe base inference.old }
    requires room { program_numbers (map defined definitions.now) ≤ base }
    ensures ok { OnOk result (Opened places base 0 0 (program_numbers (map defined definitions.now)) (Definitions_claim places (map defined definitions.now) 0) (Definitions_homes (map defined definitions.now) 0) (env_definitions definitions.now 0) inference.old inference.new) }
    ensures err { IfErr result (Shows (Refused places base 0 0 (Definitions_claim places (map defined definitions.now) 0) (Definitions_homes (map defined definitions.now) 0) inference.old inference.new)) }
    ensures at { IfErr result (At_number base) }
{
    let mut lo = 0;
    for definition in definitions {
        lo = match constrain_definition(
            alloc,
            places,
            base,
            definition.bind,
            definition.heads,
            definition.value,
            0,
            lo,
            inference,
        ) {
            Ok(next) => next,
            Err(error) => return Err(refused(error, lo, base)),
        };
    }
    Ok(())
}
