// Whether data is equal: scalars, and tuples and records part by part.
ghost use Rattle.std.specs.Prelude.{◌≡◌};
ghost use Rattle.fut_scalar.specs.Integers.{FitsType};
ghost use Rattle.fut_meaning.specs.Operations.{equal_scalars};
ghost use Rattle.fut_blocks.specs.declared.block.Operation.TheVariants as operation;
ghost use Rattle.array_data.specs.Held.{held, held_all};
ghost use Rattle.fut_eval.specs.Answers.{Operates, Same_at, Tells, data_equal, parts_equal};

use crate::names::{push, read};
use crate::operate::{binary, truth};
use crate::slots::Slot;
use array_data::{Data, Stop, fitted};
use fut_blocks::Atom;
use fut_scalar::{BinOp, Place, Scalar};

/// Whether scalars are equal.
#[tactic(auto, using(crate::proofs::SameData::scalars))]
fn same_scalars(at: Place, a: Scalar, b: Scalar) -> Result<bool, Stop>
    requires left_fits { FitsType a }
    requires right_fits { FitsType b }
    ensures { Tells (equal_scalars a b) result }
{
    let value = binary(BinOp::Eq, at, a, b)?;
    truth(value)
}

/// Whether data is equal. Equality is not defined on arrays.
#[tactic(auto, using(crate::proofs::SameData::wholes))]
#[cycle(same)]
fn same_data(at: Place, left: &Data, right: &Data) -> Result<bool, Stop>
    ensures { Tells (data_equal (held left.now) (held right.now)) result }
{
    match left {
        Data::Scalar(a) => match right {
            Data::Scalar(b) => same_scalars(at, fitted(*a), fitted(*b)),
            _ => Err(Stop::Memory),
        },
        Data::Tuple(_, lefts) => match right {
            Data::Tuple(_, rights) => {
                same_parts(at, lefts.get().as_slice(), rights.get().as_slice())
            }
            _ => Err(Stop::Memory),
        },
        // Records of one type have the same fields in the same order.
        Data::Record(_, _, lefts) => match right {
            Data::Record(_, _, rights) => {
                same_parts(at, lefts.get().as_slice(), rights.get().as_slice())
            }
            _ => Err(Stop::Memory),
        },
        _ => Err(Stop::Memory),
    }
}

/// Whether all parts of two tuples or records are equal.
#[tactic(auto, using(crate::proofs::SameData::all_parts))]
#[cycle(same)]
fn same_parts(at: Place, lefts: &[Data], rights: &[Data]) -> Result<bool, Stop>
    ensures { Tells (parts_equal (held_all lefts.now) (held_all rights.now)) result }
{
    if lefts.len() != rights.len() {
        return Err(Stop::Memory);
    }
    let mut all = true;
    for i in 0..lefts.len() {
        let Ok(same) = same_data(at, &lefts[i], &rights[i]) else {
            return Err(Stop::Memory);
        };
        all = all && same;
    }
    Ok(all)
}

/// Whether the values of atoms are equal.
#[tactic(auto, using(crate::proofs::SameData::atoms))]
fn same_atoms(at: Place, a: Atom, b: Atom, table: &[Slot]) -> Result<bool, Stop>
    ensures { Same_at (held_all table.now) a b result }
{
    let left = read(table, a)?;
    let right = read(table, b)?;
    same_data(at, &left, &right)
}

/// Puts on the stack whether the values of atoms are equal, or whether they differ.
#[tactic(auto, using(crate::proofs::SameData::comparisons))]
pub fn compare(
    op: BinOp,
    at: Place,
    a: Atom,
    b: Atom,
    table: &[Slot],
    stack: &mut Vec<Data>,
) -> Result<(), Stop>
    ensures { Operates (held_all table.now) (operation.Binary op at a b) (held_all stack.old.items) (held_all stack.new.items) result }
{
    match op {
        BinOp::Eq => {
            let same = same_atoms(at, a, b, table)?;
            push(stack, Data::Scalar(Scalar::Bool(same)))
        }
        BinOp::Ne => {
            let same = same_atoms(at, a, b, table)?;
            push(stack, Data::Scalar(Scalar::Bool(!same)))
        }
        _ => Err(Stop::Memory),
    }
}
