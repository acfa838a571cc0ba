// The definitions of a program, one after another.
ghost use Rattle.std.specs.Prelude.{◌≡◌, ◌+◌, IfOk, None, replicate};
ghost use Rattle.fut_flat.specs.Numbers.{numbers, pattern_numbers};
ghost use Rattle.fut_sizes.specs.Programs.{no_state, sizing};
ghost use Rattle.fut_types.specs.Shapes.{IsTable};
ghost use Rattle.fut_typing.specs.Names.{Names};
ghost use Rattle.fut_typing.specs.Program.{defined, program_of};
ghost use Rattle.alias_parts.specs.Known.{Knows};
ghost use Rattle.size_program.specs.Answers.{Answers, Takes};
ghost use Rattle.size_program.specs.Program.{sub_of};
ghost use Rattle.size_program.specs.Tables.{Stands};
ghost use Rattle.size_check.specs.Checked.{behind_is, defined_going, nodes_are};

use bumpalo::Bump;
use flat_numbers::after;
use fut_flat::{Definition, Flat};
use fut_scalar::{List, NoMemory};
use size_arena::SizeErr;
use size_patterns::{has_parameters, head_names, with_head};
use size_program::{NumberMap, Program, Tables, empty, note, with_general_name};
use size_walk::{Site, size_whole};
use std::alloc::Global;

/// What is known behind definitions, and the number behind theirs.
#[derive(Clone, Copy)]
pub struct Behind<'a> {
    pub names: &'a NumberMap<'a>,
    pub at: u32,
}

// How many terms deep the walk may go: deeper than any source is nested.
const DEPTH: u32 = 1_000_000;

// A definition behind others.
#[tactic(auto, using(crate::proofs::Checking::nothing))]
fn size_definition<'a>(
    program: &Program<'a>,
    definition: &Definition<'a>,
    before: &Behind<'a>,
    tables: &mut Tables<'a>,
    bump: &'a Bump,
    alloc: Global,
) -> Result<Behind<'a>, SizeErr>
    requires table { IsTable program.now.names.table.now }
    ensures sized { Takes behind_is program.now before.now.names.now (defined_going (sub_of program.now.types.now) (defined definition.now) before.now.at) tables.old tables.new result }
    ensures next { IfOk result (λ b. b.at ≡ before.now.at + (pattern_numbers (defined definition.now).name + numbers (defined definition.now).value)) }
{
    let Ok(value) = after(before.at, 1) else {
        return Err(SizeErr::Memory);
    };
    let Ok(heads) = head_names(definition.heads, bump) else {
        return Err(SizeErr::Memory);
    };
    has_parameters(heads, definition.value, value)?;
    let Ok(inside) = with_head(heads, before.names, bump) else {
        return Err(SizeErr::Memory);
    };
    let site = Site {
        program: *program,
        names: inside,
        depth: DEPTH,
    };
    let whole = size_whole(definition.value, heads, value, &site, tables, bump, alloc)?;
    note(tables, before.at, whole.size)?;
    let Ok(names) = with_general_name(definition.bind.0, whole.size, before.names, bump) else {
        return Err(SizeErr::Memory);
    };
    Ok(Behind {
        names,
        at: whole.next,
    })
}

// A table of so many nodes that has nothing of any.
fn nothing_of<T: Drop>(count: usize, alloc: Global) -> Result<List<Option<T>>, NoMemory>
    ensures { IfOk result (λ l. l ≡ replicate count None) }
{
    let mut table = List::new(alloc);
    for _at in 0..count {
        table.push(None)?;
    }
    Ok(table)
}

// Tables of so many nodes, of which nothing is known.
#[tactic(auto, using(crate::proofs::TableForms::tables))]
fn no_tables<'a>(count: usize, alloc: Global) -> Result<Tables<'a>, NoMemory>
    ensures { IfOk result (λ t. Stands t no_state) }
{
    let nodes = nothing_of(count, alloc)?;
    let dropped = nothing_of(count, alloc)?;
    Ok(Tables { nodes, dropped })
}

/// The sized type of each node of a program of these types and names, whatever `N` gives the names that are not known.
///
/// `Err`: the first refusal, or memory ran out.
#[tactic(auto, using(crate::proofs::Checking::nothing))]
pub fn check<'a>(
    program: &Program<'a>,
    flat: &Flat<'a>,
    alloc: Global,
    bump: &'a Bump,
) -> Result<Tables<'a>, SizeErr>
    requires table { IsTable program.now.names.table.now }
    ensures { (N : Names) → Knows program.now.names N → Answers nodes_are (sizing N (sub_of program.now.types.now) (program_of flat.now)) result }
{
    let Ok(names) = empty(bump) else {
        return Err(SizeErr::Memory);
    };
    let Ok(mut tables) = no_tables(program.types.len(), alloc) else {
        return Err(SizeErr::Memory);
    };
    let mut behind = Behind { names, at: 0 };
    for definition in flat.definitions {
        behind = size_definition(program, definition, &behind, &mut tables, bump, alloc)?;
    }
    Ok(tables)
}
