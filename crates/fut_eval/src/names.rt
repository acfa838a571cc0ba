// The table of names, and the stack of values that have no names yet.
ghost use Rattle.std.specs.Prelude.{IfOk, IfSome, Ok};
ghost use Rattle.fut_scalar.specs.Integers.{FitsType};
ghost use Rattle.fut_eval.specs.Answers.{Reads, Pushed, Stored, Named, Pops, Pops_one, Takes, Binds, Reads_all, Reads_data, as_all_held};
ghost use Rattle.array_data.specs.Held.{held, held_all, as_held};
ghost use Rattle.array_data.specs.declared.data.Data.TheVariants as hold;
ghost use Rattle.fut_eval.specs.Answers.{as_scalar};

use crate::operate::truth;
use crate::slots::Slot;
use array_data::{Data, Stop, copy, fitted};
use fut_blocks::Atom;
use fut_scalar::{List, Scalar};
use std::alloc::Global;

/// The value of an atom.
#[tactic(auto, using(crate::proofs::Reading::readings))]
pub fn read(table: &[Slot], atom: Atom) -> Result<Data, Stop>
    ensures { Reads (held_all table.now) atom (as_held result) }
{
    match atom {
        Atom::Name(name) => {
            let at = name as usize;
            if at >= table.len() {
                return Err(Stop::Stuck);
            }
            match table[at].get() {
                Some(value) => copy(value),
                None => Err(Stop::Memory),
            }
        }
        Atom::Constant(scalar) => Ok(Data::Scalar(scalar)),
    }
}

/// The value of an atom that is a scalar.
#[tactic(auto, using(crate::proofs::Reading::scalar_readings))]
pub fn scalar_at(table: &[Slot], atom: Atom) -> Result<Scalar, Stop>
    ensures value { Reads (held_all table.now) atom (as_scalar result) }
    ensures fits { IfOk result FitsType }
{
    match atom {
        Atom::Name(name) => {
            let at = name as usize;
            if at >= table.len() {
                return Err(Stop::Stuck);
            }
            let Some(value) = table[at].get() else {
                return Err(Stop::Memory);
            };
            match value {
                Data::Scalar(scalar) => Ok(fitted(*scalar)),
                Data::Words(_, _) => Err(Stop::Memory),
                Data::Rows(_, _, _) => Err(Stop::Memory),
                Data::Tuple(_, _) => Err(Stop::Memory),
                Data::Record(_, _, _) => Err(Stop::Memory),
            }
        }
        Atom::Constant(scalar) => Ok(fitted(scalar)),
    }
}

/// The value of an atom, where it is a scalar.
#[tactic(auto, using(crate::proofs::Reading::scalars_found))]
fn scalar_of(table: &[Slot], atom: Atom) -> Option<Scalar>
    ensures { IfSome result (λ scalar. Reads (held_all table.now) atom (Ok (held (hold.Scalar scalar)))) }
{
    match atom {
        Atom::Name(name) => {
            let at = name as usize;
            if at >= table.len() {
                return None;
            }
            table[at].scalar()
        }
        Atom::Constant(scalar) => Some(scalar),
    }
}

/// Puts a value on the stack.
#[tactic(auto, using(crate::proofs::Reading::pushes))]
pub fn push(stack: &mut Vec<Data>, value: Data) -> Result<(), Stop>
    ensures { Pushed (held value) (held_all stack.old.items) (held_all stack.new.items) result }
{
    match stack.push(value) {
        Ok(()) => Ok(()),
        Err(_) => Err(Stop::Memory),
    }
}

/// Puts the values of atoms on the stack.
#[tactic(auto, using(crate::proofs::Reading::lists))]
pub fn push_all(atoms: &[Atom], table: &[Slot], stack: &mut Vec<Data>) -> Result<(), Stop>
    ensures { Reads_all (held_all table.now) atoms.now (held_all stack.old.items) (held_all stack.new.items) result }
{
    for atom in atoms {
        match scalar_of(table, *atom) {
            Some(scalar) => push(stack, Data::Scalar(scalar))?,
            None => {
                let value = read(table, *atom)?;
                push(stack, value)?;
            }
        }
    }
    Ok(())
}

/// The values of atoms.
#[tactic(auto, using(crate::proofs::Reading::data_lists))]
pub fn read_data(alloc: Global, atoms: &[Atom], table: &[Slot]) -> Result<List<Data>, Stop>
    ensures { Reads_data (held_all table.now) atoms.now (as_all_held result) }
{
    let mut values = Vec::new(alloc);
    push_all(atoms, table, &mut values)?;
    Ok(List::from_vec(values))
}

/// Gives each name its value, where there are as many of both.
#[tactic(auto, using(crate::proofs::Storing::storing))]
pub fn store(names: &[u32], table: &mut [Slot], values: &[Data]) -> Result<(), Stop>
    ensures { Stored names.now (held_all values.now) (held_all table.old) (held_all table.new) result }
{
    if names.len() != values.len() {
        return Err(Stop::Stuck);
    }
    for i in 0..names.len() {
        let at = names[i] as usize;
        if at >= table.len() {
            return Err(Stop::Stuck);
        }
        match &values[i] {
            Data::Scalar(scalar) => table[at].set_scalar(*scalar),
            value => {
                let value = copy(value)?;
                table[at].set(value);
            }
        }
    }
    Ok(())
}

/// Gives names the values that lie on the stack from the mark on, and leaves them there.
#[tactic(auto, using(crate::proofs::Storing::binding))]
pub fn bind(names: &[u32], mark: usize, table: &mut [Slot], stack: &[Data]) -> Result<(), Stop>
    ensures { Binds names.now mark (held_all table.old) (held_all table.new) (held_all stack.now) result }
{
    if mark > stack.len() {
        return Err(Stop::Stuck);
    }
    store(names, table, &stack[mark..])
}

/// Gives names the values that lie on the stack from the mark on, and takes them off.
#[tactic(auto, using(crate::proofs::Storing::binding))]
pub fn take(
    names: &[u32],
    mark: usize,
    table: &mut [Slot],
    stack: &mut Vec<Data>,
) -> Result<(), Stop>
    ensures { Takes names.now mark (held_all table.old) (held_all table.new) (held_all stack.old.items) (held_all stack.new.items) result }
{
    bind(names, mark, table, stack)?;
    stack.truncate(mark);
    Ok(())
}

/// Gives a name its value.
#[tactic(auto, using(crate::proofs::Storing::naming))]
pub fn name(at: u32, value: Data, table: &mut [Slot]) -> Result<(), Stop>
    ensures { Named at (held value) (held_all table.old) (held_all table.new) result }
{
    let at = at as usize;
    if at >= table.len() {
        return Err(Stop::Stuck);
    }
    table[at].set(value);
    Ok(())
}

/// Gives a name a scalar.
#[tactic(auto, using(crate::proofs::Storing::naming))]
pub fn name_scalar(at: u32, scalar: Scalar, table: &mut [Slot]) -> Result<(), Stop>
    ensures { Named at (held (hold.Scalar scalar)) (held_all table.old) (held_all table.new) result }
{
    let at = at as usize;
    if at >= table.len() {
        return Err(Stop::Stuck);
    }
    table[at].set_scalar(scalar);
    Ok(())
}

/// Takes off the one value that lies on the stack from the mark on, and tells whether it holds.
#[tactic(auto, using(crate::proofs::Storing::popping))]
pub fn pop_truth(mark: usize, stack: &mut Vec<Data>) -> Result<bool, Stop>
    ensures { Pops mark (held_all stack.old.items) (held_all stack.new.items) result }
{
    if mark >= stack.len() || stack.len() - mark > 1 {
        return Err(Stop::Stuck);
    }
    match stack.pop() {
        Some(Data::Scalar(value)) => truth(value),
        Some(_) => Err(Stop::Memory),
        None => Err(Stop::Stuck),
    }
}

/// Takes off the one value that lies on the stack from the mark on.
#[tactic(auto, using(crate::proofs::Storing::popping_one))]
pub fn pop_one(mark: usize, stack: &mut Vec<Data>) -> Result<Data, Stop>
    ensures { Pops_one mark (held_all stack.old.items) (held_all stack.new.items) (as_held result) }
{
    if mark >= stack.len() || stack.len() - mark > 1 {
        return Err(Stop::Stuck);
    }
    match stack.pop() {
        Some(value) => Ok(value),
        None => Err(Stop::Stuck),
    }
}
