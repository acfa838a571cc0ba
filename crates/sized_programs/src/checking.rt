// From a typed program to the pass over sizes.
ghost use Rattle.std.specs.Prelude.{◌≡◌, IfOk, IfErr};
ghost use Rattle.fut_flat.specs.Erased.{texts};
ghost use Rattle.fut_typing.specs.Program.{program_of};
ghost use Rattle.flat_numbers.specs.Places.{program_places};
ghost use Rattle.type_infer.specs.Inferring.{Infers, Told_by};
ghost use Rattle.typed_programs.specs.Ordered.{Is_ordered, Some_order};
ghost use Rattle.size_arena.specs.Trees.{size_of};
ghost use Rattle.size_program.specs.Tables.{node_at};
ghost use Rattle.sized_programs.specs.Sizings.{Has_sizing};
ghost use Rattle.sized_programs.specs.Misfits.{Misfits};
ghost use Rattle.sized_programs.specs.Prepared.{Is_prepared};

use crate::misfit::Misfit;
use crate::telling::misfit_of;
use crate::trees::type_trees;
use alias_parts::PartNames;
use bumpalo::Bump;
use fut_flat::Flat;
use fut_scalar::{List, NoMemory};
use fut_types::ShapeTable;
use size_arena::{SizeErr, SizeTree, Variable, hole};
use size_check::check;
use size_program::{Program, Tables};
use std::alloc::Global;
use std::collections::HashMap;
use type_scopes::Inference;
use typed_programs::Accepted;
use unique_programs::count_numbers;

/// The sized types of a program's nodes.
#[derive(Drop)]
pub struct Sizing<'a> {
    /// By the numbers of nodes. A node without one has a type variable of its own.
    pub nodes: List<Option<&'a SizeTree<'a>>>,
}

/// A program that is accepted by its types and its sizes: what typing tells of it, and the sized types of its nodes.
#[derive(Clone, Copy)]
pub struct SizedProgram<'a> {
    pub accepted: &'a Accepted<'a>,
    pub sizing: &'a Sizing<'a>,
}

/// The sized type of a node. One without has a type variable of its own.
#[tactic(auto, using(crate::proofs::Nodes::nodes))]
pub fn size_at<'a>(
    sizing: &Sizing<'a>,
    node: u32,
    bump: &'a Bump,
) -> Result<&'a SizeTree<'a>, NoMemory>
    ensures { IfOk result (λ t. size_of t.now ≡ node_at sizing.now.nodes node) }
{
    let at = node as usize;
    if at < sizing.nodes.len() {
        if let Some(size) = sizing.nodes.as_slice()[at] {
            return Ok(size);
        }
    }
    hole(bump, Variable::Inferred(node))
}

/// What the pass over sizes says of nodes, without what it keeps of loops.
fn sizing_of(tables: Tables<'_>) -> Sizing<'_>
    ensures { result.nodes ≡ tables.entry.nodes }
{
    Sizing {
        nodes: tables.nodes,
    }
}

/// The numbers of the names of parts.
fn part_numbers<'a>(inference: &'a Inference<'a>) -> &'a HashMap<&'a str, u32>
    ensures { result.now ≡ inference.now.labels.numbers }
{
    &inference.labels.numbers
}

/// The table of records and positions.
fn part_table<'a>(inference: &'a Inference<'a>) -> &'a ShapeTable
    ensures { result.now ≡ inference.now.table }
{
    &inference.table
}

/// A program that has a typing, as the pass over sizes takes it: a tree of the type of each number, and the names of parts.
fn prepared<'a>(
    alloc: Global,
    bump: &'a Bump,
    flat: &'a Flat<'a>,
    inference: &'a Inference<'a>,
) -> Result<Program<'a>, NoMemory>
    requires { Infers (program_of flat.now) inference.now }
    ensures { IfOk result (Is_prepared (program_of flat.now) inference.now) }
{
    let count = count_numbers(flat)?;
    let types = type_trees(alloc, bump, &inference.nodes, count)?;
    Ok(Program {
        types,
        names: PartNames {
            numbers: part_numbers(inference),
            table: part_table(inference),
        },
    })
}

/// The sized types of the nodes of a program whose types inference tells; else why it has none, by the first refusal in the
/// order of evaluation. Trees of types and of sized types lie in the arena. The cost is that of the pass over sizes.
pub fn sized_program<'a>(
    alloc: Global,
    bump: &'a Bump,
    flat: &'a Flat<'a>,
    inference: &'a Inference<'a>,
) -> Result<Sizing<'a>, Misfit>
    requires infers { Infers (program_of flat.now) inference.now }
    requires ordered { Is_ordered inference.now }
    ensures ok { IfOk result (λ sizing. Told_by (Has_sizing (program_of flat.now) sizing) inference.now) }
    ensures numbered { IfOk result (λ sizing. Some_order (Has_sizing (program_of flat.now) sizing)) }
    ensures err { IfErr result (Misfits (program_of flat.now) (texts flat.now.names.now) (program_places flat.now.definitions.now)) }
{
    let program = match prepared(alloc, bump, flat, inference) {
        Ok(program) => program,
        Err(_) => return Err(Misfit::Memory),
    };
    match check(&program, flat, alloc, bump) {
        Ok(tables) => Ok(sizing_of(tables)),
        Err(SizeErr::Refused(refusal)) => Err(misfit_of(alloc, flat, refusal)),
        Err(SizeErr::Memory) => Err(Misfit::Memory),
    }
}
