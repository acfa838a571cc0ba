// Parts by their labels. A label that is not known is want of memory.
ghost use Rattle.std.specs.Prelude.{◌≡◌, ◌≤◌, ◌+◌, length, IfOk};
ghost use Rattle.std.specs.HashMap.{get_by};
ghost use Rattle.std.specs.Str.{bytes_eq};
ghost use Rattle.fut_aliases.specs.Loops.{at_label, in_order};
ghost use Rattle.fut_types.specs.Shapes.{IsTable, labels_from};
ghost use Rattle.fut_typing.specs.Names.{Names};
ghost use Rattle.alias_loops.specs.Labels.{labelled_of};
ghost use Rattle.alias_parts.specs.Known.{Knows};

use alias_parts::PartNames;
use bumpalo::Bump;
use bumpalo::collections::into_bump_slice;
use fut_scalar::{List, NoMemory};
use fut_types::Fields;
use std::collections::HashMap;

/// Where the components of a part begin, under the number of its name.
#[derive(Clone, Copy)]
pub struct Labelled<'a> {
    pub label: u32,
    pub nodes: &'a [u32],
}

fn number_of(numbers: &HashMap<&str, u32>, name: &str) -> Option<u32>
    ensures { result ≡ get_by (λ k. bytes_eq name.now k.now) numbers.now }
{
    numbers.get(name).copied()
}

/// The number of a name.
pub fn label_of(names: &PartNames<'_>, name: &str) -> Result<u32, NoMemory>
    ensures { (N : Names) → Knows names.now N → IfOk result (λ label. N.label name.now ≡ label) }
{
    match number_of(names.numbers, name) {
        Some(label) => Ok(label),
        None => Err(NoMemory),
    }
}

fn labels_in<'t>(labels: &'t List<u32>, row: Fields) -> &'t [u32]
    requires within { row.first + row.count ≤ length labels.now }
    ensures { result.now ≡ labels_from labels.now row.first row.count }
{
    let first = row.first as usize;
    &labels.as_slice()[first..first + row.count as usize]
}

/// The labels of a record, in the order of its parts.
pub fn labels_of<'t>(names: &PartNames<'t>, number: u32) -> Result<&'t [u32], NoMemory>
    requires table { IsTable names.now.table.now }
    ensures { (N : Names) → Knows names.now N → IfOk result (λ labels. labels.now ≡ N.shapes.fields number) }
{
    let table = names.table;
    if number as usize >= table.records.len() {
        return Err(NoMemory);
    }
    let row = table.records.as_slice()[number as usize];
    Ok(labels_in(&table.labels, row))
}

// Where the first part with a label begins.
fn at_label<'a>(bump: &'a Bump, label: u32, labelled: &[Labelled<'a>]) -> &'a [u32]
    ensures { result.now ≡ at_label label (labelled_of labelled.now) }
{
    for i in 0..labelled.len() {
        if labelled[i].label == label {
            return labelled[i].nodes;
        }
    }
    into_bump_slice(Vec::new(bump))
}

/// Where the parts with these labels begin, one after the other. The cost is the product of both lengths.
pub fn in_order<'a>(
    bump: &'a Bump,
    labels: &[u32],
    labelled: &[Labelled<'a>],
) -> Result<&'a [u32], NoMemory>
    ensures { IfOk result (λ nodes. nodes.now ≡ in_order labels.now (labelled_of labelled.now)) }
{
    let mut made = Vec::new(bump);
    for i in 0..labels.len() {
        made.extend_from_slice(at_label(bump, labels[i], labelled))?;
    }
    Ok(into_bump_slice(made))
}
