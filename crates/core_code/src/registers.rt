// Registers, and the words that have no names yet.
ghost use Rattle.std.specs.Prelude.{◌≡◌, ◌∷◌, [], ◌<◌, ◌++◌, IfSome};
ghost use Rattle.core_code.specs.Registers.{elem_of, rank_of};
ghost use Rattle.core_code.specs.Answers.{Binds, OnlyMemory, Pops, Pushed, Reads, Reads_all, Set, Stored, Takes, Truth_reads, Turns_read};

use crate::scalars::{constant, count_of, fits, type_of};
use crate::stop::Stop;
use core_ir::{Atom, Var};
use fut_scalar::{IntType, ScalarType};

/// The type of an operand's elements.
pub fn elem_of(atom: Atom) -> ScalarType
    ensures { result ≡ elem_of atom }
{
    match atom {
        Atom::Var(x) => x.elem,
        Atom::Constant(scalar) => type_of(scalar),
    }
}

/// How many dimensions an operand has.
pub fn rank_of(atom: Atom) -> u32
    ensures { result ≡ rank_of atom }
{
    match atom {
        Atom::Var(x) => x.rank,
        Atom::Constant(_) => 0,
    }
}

/// The word of an operand.
#[tactic(auto, using(crate::proofs::Reading::readings))]
pub fn word_at(table: &[u64], atom: Atom) -> Result<u64, Stop>
    ensures told { Reads table.now atom result }
    ensures memory { OnlyMemory result }
{
    match atom {
        Atom::Var(x) => {
            let at = x.number as usize;
            if at >= table.len() {
                return Err(Stop::Memory);
            }
            Ok(table[at])
        }
        Atom::Constant(scalar) => Ok(constant(scalar)),
    }
}

/// Puts the words of operands behind others.
#[tactic(auto, using(crate::proofs::Reading::lists))]
pub fn push_all(atoms: &[Atom], table: &[u64], stack: &mut Vec<u64>) -> Result<(), Stop>
    ensures told { Reads_all table.now atoms.now stack.old.items stack.new.items result }
    ensures memory { OnlyMemory result }
{
    for atom in atoms {
        let word = word_at(table, *atom)?;
        push(word, stack)?;
    }
    Ok(())
}

/// Puts a word behind others.
#[tactic(auto, using(crate::proofs::Reading::pushes))]
pub fn push(word: u64, stack: &mut Vec<u64>) -> Result<(), Stop>
    ensures told { Pushed word stack.old.items stack.new.items result }
    ensures memory { OnlyMemory result }
{
    match stack.push(word) {
        Ok(()) => Ok(()),
        Err(_) => Err(Stop::Memory),
    }
}

/// Whether the truth value of an operand holds.
#[tactic(auto, using(crate::proofs::Reading::truths))]
pub fn truth_at(table: &[u64], atom: Atom) -> Result<bool, Stop>
    ensures told { Truth_reads table.now atom result }
    ensures memory { OnlyMemory result }
{
    let word = word_at(table, atom)?;
    Ok(word != 0)
}

/// How many turns the integer of an operand says.
#[tactic(auto, using(crate::proofs::Reading::turns))]
pub fn turns_at(table: &[u64], ty: IntType, atom: Atom) -> Result<u64, Stop>
    ensures told { Turns_read table.now ty atom result }
    ensures memory { OnlyMemory result }
{
    let word = word_at(table, atom)?;
    if !fits(ty, word) {
        return Err(Stop::Memory);
    }
    Ok(count_of(ty, word))
}

/// Puts another word in a register.
#[tactic(auto, using(crate::proofs::Storing::setting))]
pub fn set_word(number: u32, word: u64, table: &mut [u64]) -> Result<(), Stop>
    ensures told { Set number word table.old table.new result }
    ensures memory { OnlyMemory result }
{
    let at = number as usize;
    if at >= table.len() {
        return Err(Stop::Memory);
    }
    table[at] = word;
    Ok(())
}

/// The one variable of a step that gives one.
pub fn only(out: &[Var]) -> Option<Var>
    ensures { IfSome result (λ x. out.now ≡ x ∷ []) }
{
    if out.len() != 1 {
        return None;
    }
    Some(out[0])
}

/// Gives each name its word, where there are as many of both.
#[tactic(auto, using(crate::proofs::Storing::storing))]
fn store(names: &[Var], table: &mut [u64], words: &[u64]) -> Result<(), Stop>
    ensures told { Stored names.now words.now table.old table.new result }
    ensures memory { OnlyMemory result }
{
    if names.len() != words.len() {
        return Err(Stop::Memory);
    }
    for i in 0..names.len() {
        set_word(names[i].number, words[i], table)?;
    }
    Ok(())
}

/// Gives names the words that lie on the stack from the mark on, and leaves them there.
#[tactic(auto, using(crate::proofs::Storing::binding))]
pub fn bind(names: &[Var], mark: usize, table: &mut [u64], stack: &[u64]) -> Result<(), Stop>
    ensures told { Binds names.now mark table.old table.new stack.now result }
    ensures memory { OnlyMemory result }
{
    if mark > stack.len() {
        return Err(Stop::Memory);
    }
    store(names, table, &stack[mark..])
}

/// Gives names the words that lie on the stack from the mark on, and takes them off.
#[tactic(auto, using(crate::proofs::Storing::binding))]
pub fn take(names: &[Var], mark: usize, table: &mut [u64], stack: &mut Vec<u64>) -> Result<(), Stop>
    ensures told { Takes names.now mark table.old table.new stack.old.items stack.new.items result }
    ensures memory { OnlyMemory result }
{
    bind(names, mark, table, stack)?;
    stack.truncate(mark);
    Ok(())
}

/// Takes off the one word that lies on the stack from the mark on, and tells whether it holds.
#[tactic(auto, using(crate::proofs::Storing::popping))]
pub fn pop_truth(mark: usize, stack: &mut Vec<u64>) -> Result<bool, Stop>
    ensures told { Pops mark stack.old.items stack.new.items result }
    ensures memory { OnlyMemory result }
{
    if mark >= stack.len() || stack.len() - mark > 1 {
        return Err(Stop::Memory);
    }
    match stack.pop() {
        Some(word) => Ok(word != 0),
        None => Err(Stop::Memory),
    }
}
