// Arrays of no rows.
ghost use Rattle.std.specs.Prelude.{map};
ghost use Rattle.core_ir.specs.Plain.{group};
ghost use Rattle.core_code.specs.Answers.{OnlyMemory};
ghost use Rattle.core_code.specs.Registers.{state};
ghost use Rattle.core_steps.specs.Empties.{Empty_pushed, None_told, Size_read, Sizes_put};

use crate::arrange::glue_bare;
use core_arrays::Arrays;
use core_code::{Stop, elem_of, push, turns_at};
use core_ir::Atom;
use fut_scalar::{List, Place, ScalarType};

/// The size that an operand tells: an integer below 0 tells 0.
#[tactic(auto, using(crate::proofs::Emptying::telling))]
fn told_size(atom: Atom, table: &[u64]) -> Result<u64, Stop>
    ensures told { Size_read table.now atom result }
    ensures memory { OnlyMemory result }
{
    let ScalarType::Int(ty) = elem_of(atom) else {
        return Err(Stop::Memory);
    };
    turns_at(table, ty, atom)
}

/// Puts the sizes that operands tell behind others.
#[tactic(auto, using(crate::proofs::Emptying::all_sizes_put))]
fn put_sizes(told: &[Atom], table: &[u64], sizes: &mut List<u64>) -> Result<(), Stop>
    ensures told { Sizes_put table.now told.now sizes.old sizes.new result }
    ensures memory { OnlyMemory result }
{
    for atom in told {
        let size = told_size(*atom, table)?;
        sizes.push(size)?;
    }
    Ok(())
}

/// Makes an array of no rows of these sizes, and puts its number on the stack.
#[tactic(auto, using(crate::proofs::Emptying::empties))]
fn push_empty(
    told: &[Atom],
    table: &[u64],
    stack: &mut Vec<u64>,
    arrays: &mut Arrays,
) -> Result<(), Stop>
    ensures told { Empty_pushed told.now (state arrays.old table.now stack.old.items) (state arrays.new table.now stack.new.items) result }
    ensures memory { OnlyMemory result }
{
    let alloc = arrays.alloc();
    let mut sizes = List::new(alloc);
    sizes.push(0)?;
    put_sizes(told, table, &mut sizes)?;
    let number = arrays.put(sizes, List::new(alloc))?;
    push(number, stack)
}

/// Puts arrays of no rows on the stack, of whose components the sizes are told.
#[tactic(auto, using(crate::proofs::Emptying::nones))]
pub fn glue_none(
    told: &[&[Atom]],
    place: Place,
    table: &[u64],
    stack: &mut Vec<u64>,
    arrays: &mut Arrays,
) -> Result<(), Stop>
    ensures { None_told (map group told.now) place (state arrays.old table.now stack.old.items) (state arrays.new table.now stack.new.items) result }
{
    if told.len() == 0 {
        let mark = stack.len();
        return glue_bare(0, mark, place, stack, arrays);
    }
    for i in 0..told.len() {
        push_empty(told[i], table, stack, arrays)?;
    }
    Ok(())
}
