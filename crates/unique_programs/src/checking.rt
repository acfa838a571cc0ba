// From a typed program to the rules of aliases and consumption.
ghost use Rattle.std.specs.Prelude.{◌≡◌, OnOk, IfOk, IfErr};
ghost use Rattle.fut_flat.specs.Erased.{texts};
ghost use Rattle.fut_typing.specs.Program.{program_of};
ghost use Rattle.flat_numbers.specs.Places.{program_places};
ghost use Rattle.type_infer.specs.Inferring.{Told_by};
ghost use Rattle.typed_programs.specs.Known.{Is_known};
ghost use Rattle.typed_programs.specs.Ordered.{Some_order};
ghost use Rattle.unique_programs.specs.Rules.{Breaks_none};
ghost use Rattle.unique_programs.specs.Misuses.{Misused};
ghost use Rattle.unique_programs.specs.Shown.{Shows};

use crate::misuse::Misuse;
use crate::numbers::count_numbers;
use crate::telling::misuse_of;
use crate::trees::type_trees;
use alias_check::check;
use alias_parts::PartNames;
use alias_program::Program;
use bumpalo::Bump;
use fut_scalar::NoMemory;
use fut_types::ShapeTable;
use std::alloc::Global;
use std::collections::HashMap;
use typed_programs::Accepted;
use uniqueness::Stop;

/// The numbers of the names of parts.
fn part_numbers<'a>(accepted: &'a Accepted<'a>) -> &'a HashMap<&'a str, u32>
    ensures { result.now ≡ accepted.now.inference.labels.numbers }
{
    &accepted.inference.labels.numbers
}

/// The table of records and positions.
fn part_table<'a>(accepted: &'a Accepted<'a>) -> &'a ShapeTable
    ensures { result.now ≡ accepted.now.inference.table }
{
    &accepted.inference.table
}

/// What the checker asks of a program that has a typing: a tree of the type of each number, and the names of parts. No kinds
/// are told, since what a typing leaves undetermined may stand for an array.
fn shown<'a>(
    alloc: Global,
    bump: &'a Bump,
    accepted: &'a Accepted<'a>,
) -> Result<Program<'a>, NoMemory>
    requires known { Is_known accepted.now }
    ensures { IfOk result (Shows accepted.now) }
{
    let count = count_numbers(&accepted.flat)?;
    let types = type_trees(alloc, bump, &accepted.inference.nodes, count)?;
    Ok(Program {
        kinds: &[],
        types,
        names: PartNames {
            numbers: part_numbers(accepted),
            table: part_table(accepted),
        },
    })
}

/// Whether a program that has a typing breaks no rule of aliases and consumption; else the first that it breaks. Trees of types
/// and values lie in the arena. The cost is that of the types and of one look at each term, and of two at what a loop repeats.
pub fn unique_program<'a>(
    alloc: Global,
    bump: &'a Bump,
    accepted: &'a Accepted<'a>,
) -> Result<(), Misuse>
    requires known { Is_known accepted.now }
    ensures ok { OnOk result (Told_by (Breaks_none (program_of accepted.now.flat)) accepted.now.inference) }
    ensures numbered { OnOk result (Some_order (Breaks_none (program_of accepted.now.flat))) }
    ensures err { IfErr result (Misused (program_of accepted.now.flat) (texts accepted.now.flat.names.now) (program_places accepted.now.flat.definitions.now)) }
{
    let program = match shown(alloc, bump, accepted) {
        Ok(program) => program,
        Err(_) => return Err(Misuse::Memory),
    };
    match check(alloc, bump, &program, &accepted.flat) {
        Ok(()) => Ok(()),
        Err(Stop::Refused(rule)) => Err(misuse_of(alloc, &accepted.flat, rule)),
        Err(Stop::Memory) => Err(Misuse::Memory),
    }
}
