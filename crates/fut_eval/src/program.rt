// The public call.
ghost use Rattle.std.specs.Prelude.{◌≡◌, IfOk, vec_len};
ghost use Rattle.array_data.specs.Held.{held_all};
ghost use Rattle.std.specs.Prelude.{true};
ghost use Rattle.fut_blocks.specs.Programs.{NeverWrong, Rising};
ghost use Rattle.fut_eval.specs.Evaluates.{Evaluates};
ghost use Rattle.fut_eval.specs.Runs.{Program_runs};

use crate::blocks::run_block;
use crate::last_uses::moves_of;
use crate::names::store;
use crate::slots::{Moves, Slot};
use array_data::{Data, Stop};
use fut_blocks::Program;
use fut_scalar::{List, NoMemory, Report, Scalar};
use std::alloc::Global;

/// Why a run has no results.
#[derive(Clone, Copy, Debug, PartialEq, Eq)]
pub enum EvalErr {
    /// A failure of the program, with its place.
    Failed(Report),
    Memory,
}

/// A table for the names of a program.
pub fn table_of(alloc: Global, program: &Program) -> Result<Vec<Slot>, NoMemory>
    ensures { IfOk result (λ table. vec_len table ≡ program.now.names) }
{
    let all_moves = moves_of(alloc, program)?;
    let mut table = Vec::new(alloc);
    for name in 0..program.names {
        let name = name as usize;
        let moves = if name < all_moves.len() {
            all_moves[name]
        } else {
            Moves::none()
        };
        table.push(Slot::new(Data::Scalar(Scalar::Bool(false)), moves))?;
    }
    Ok(table)
}

/// Runs a program, and puts its results on the stack.
#[tactic(auto, using(crate::proofs::Whole::whole_run))]
pub fn run(
    alloc: Global,
    program: &Program,
    args: &[Data],
    turns: u64,
    table: &mut [Slot],
    stack: &mut Vec<Data>,
) -> Result<(), Stop>
    ensures { Program_runs turns program.now (held_all args.now) (held_all table.old) (held_all table.new) (held_all stack.old.items) (held_all stack.new.items) result }
{
    store(program.params, table, args)?;
    run_block(alloc, &program.body, turns, table, stack)
}

/// The results of a program for arguments on which it never goes wrong.
///
/// A `while` loop may take at most `turns` turns. `Ok`: results that the meaning of the program allows. `Failed`: a report
/// that it allows. `Memory`: memory ran out.
#[tactic(auto, using(crate::proofs::Whole::evaluations))]
pub fn eval(
    alloc: Global,
    program: &Program,
    args: &[Data],
    turns: u64,
) -> Result<List<Data>, EvalErr>
    requires rising { Rising program.now }
    requires never_wrong { NeverWrong true turns program.now (held_all args.now) }
    ensures { Evaluates turns program.now (held_all args.now) result }
{
    let Ok(mut table) = table_of(alloc, program) else {
        return Err(EvalErr::Memory);
    };
    let mut stack = Vec::new(alloc);
    match run(
        alloc,
        program,
        args,
        turns,
        table.as_mut_slice(),
        &mut stack,
    ) {
        Ok(()) => Ok(List::from_vec(stack)),
        Err(Stop::Failed(report)) => Err(EvalErr::Failed(report)),
        Err(Stop::Memory) => Err(EvalErr::Memory),
        Err(Stop::Stuck) => unreachable!(),
    }
}
