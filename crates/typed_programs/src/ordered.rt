// The labels of a program in the order of their names.
ghost use Rattle.std.specs.Prelude.{◌≡◌, ℕ, List as Seq, OnOk, IfOk, IfErr, true};
ghost use Rattle.fut_flat.specs.Erased.{texts};
ghost use Rattle.fut_typing.specs.Program.{program_of};
ghost use Rattle.type_infer.specs.Inferring.{Infers, Says};
ghost use Rattle.type_rules.specs.Labels.{IsLabels};
ghost use Rattle.type_scopes.specs.declared.Inference.{Inference as TheInference};
ghost use Rattle.typed_programs.specs.Ordered.{Is_ordered, Labels_known, Numbered_so, Rise_so};

use fut_flat::Flat;
use fut_scalar::{List, NoMemory};
use std::alloc::Global;
use std::cmp::Ordering;
use type_infer::{InferErr, infer, new_inference};
use type_rules::{Labels, label};
use type_scopes::Inference;

/// The names of all labels, in order.
fn sorted_names<'a>(alloc: Global, labels: &Labels<'a>) -> Result<Vec<&'a str>, NoMemory> {
    let mut names = Vec::new(alloc);
    for name in labels.numbers.keys() {
        match names.push(*name) {
            Ok(()) => {}
            Err(_) => return Err(NoMemory),
        }
    }
    match names.sort_by(|left, right| left.cmp(right)) {
        Ok(()) => Ok(names),
        Err(_) => Err(NoMemory),
    }
}

// Whether these names have the numbers of their places.
fn are_numbered(labels: &Labels<'_>, names: &[&str]) -> bool
    ensures { result ≡ true → Numbered_so labels.now (texts names.now) }
{
    let mut at = 0;
    while at < names.len() {
        match labels.numbers.get(names[at]).copied() {
            Some(number) => {
                if number as usize != at {
                    return false;
                }
            }
            None => return false,
        }
        at += 1;
    }
    true
}

// Whether each name comes behind the one before it.
fn rise(names: &[&str]) -> bool
    ensures { result ≡ true → Rise_so (texts names.now) }
{
    let mut at = 1;
    while at < names.len() {
        match names[at - 1].cmp(names[at]) {
            Ordering::Less => {}
            _ => return false,
        }
        at += 1;
    }
    true
}

// Whether all of these labels are below a number.
fn are_below(labels: &[u32], many: usize) -> bool
    ensures { result ≡ true → Labels_known labels.now many }
{
    let mut at = 0;
    while at < labels.len() {
        if labels[at] as usize >= many {
            return false;
        }
        at += 1;
    }
    true
}

/// Whether labels are in the order of their names, which are these.
fn is_ordered(inference: &Inference<'_>, names: &[&str]) -> bool
    requires { IsLabels inference.now.labels inference.now.table }
    ensures { result ≡ true → Is_ordered inference.now }
{
    let many = inference.table.positions.len();
    if names.len() != many {
        return false;
    }
    if !are_below(inference.table.labels.as_slice(), many) {
        return false;
    }
    if !are_numbered(&inference.labels, names) {
        return false;
    }
    rise(names)
}

// Each of these names gets a number, in a row.
fn enter_names<'a>(inference: &mut Inference<'a>, names: &[&'a str]) -> Result<(), NoMemory>
    requires { IsLabels inference.old.labels inference.old.table }
    ensures { OnOk result (IsLabels inference.new.labels inference.new.table) }
{
    let mut at = 0;
    while at < names.len() {
        match label(&mut inference.labels, &mut inference.table, names[at]) {
            Ok(_) => {}
            Err(_) => return Err(NoMemory),
        }
        at += 1;
    }
    Ok(())
}

/// The inference of a program, where these are the names of its labels, in order.
fn inferred_again<'a>(
    alloc: Global,
    flat: &Flat<'a>,
    names: &[&'a str],
) -> Result<Inference<'a>, InferErr>
    ensures ok { IfOk result (Infers (program_of flat.now)) }
    ensures ordered { IfOk result Is_ordered }
    ensures err { IfErr result (λ err. (i : TheInference) × Says (program_of flat.now) i err) }
{
    let mut inference = new_inference(alloc);
    match enter_names(&mut inference, names) {
        Ok(()) => {}
        Err(_) => return Err(InferErr::Memory),
    }
    match infer(alloc, flat, &mut inference) {
        Ok(()) => {}
        Err(err) => return Err(err),
    }
    if is_ordered(&inference, names) {
        Ok(inference)
    } else {
        Err(InferErr::Memory)
    }
}

/// The inference of a program, with labels in the order of their names. Labels get their numbers as they are met; where that is
/// not their order, the program is inferred again, with all of them in order before it begins. So the cost is at most twice that
/// of inference.
pub fn inferred_in_order<'a>(alloc: Global, flat: &Flat<'a>) -> Result<Inference<'a>, InferErr>
    ensures ok { IfOk result (Infers (program_of flat.now)) }
    ensures ordered { IfOk result Is_ordered }
    ensures err { IfErr result (λ err. (i : TheInference) × Says (program_of flat.now) i err) }
{
    let mut inference = new_inference(alloc);
    match infer(alloc, flat, &mut inference) {
        Ok(()) => {}
        Err(err) => return Err(err),
    }
    let names = match sorted_names(alloc, &inference.labels) {
        Ok(names) => names,
        Err(_) => return Err(InferErr::Memory),
    };
    if is_ordered(&inference, &names) {
        Ok(inference)
    } else {
        inferred_again(alloc, flat, &names)
    }
}
