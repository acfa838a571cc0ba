// The table.
ghost use Rattle.std.specs.Prelude.{◌≡◌, ℕ, List as Seq, None, Some, OnOk, IfOk};
ghost use Rattle.fut_ast.specs.Sorts.{Text};
ghost use Rattle.type_rules.specs.Labels.{Goes_on, IsLabels, number_of, record_of};
ghost use Rattle.type_rules.specs.declared.labels.Labels.{Labels as TheLabels};

use crate::spelled::position;
use fut_scalar::{List, NoMemory};
use fut_types::ShapeTable;
use std::alloc::Global;
use std::collections::HashMap;

/// The numbers of names, and of records by the numbers of their names in ascending order.
#[derive(Drop)]
pub struct Labels<'a> {
    pub numbers: HashMap<&'a str, u32>,
    pub rows: HashMap<Vec<u32>, u32>,
}

/// No names yet.
pub fn no_labels<'a>(alloc: Global) -> Labels<'a>
    ensures names { (s : Text) → number_of result s ≡ None }
    ensures records { (ls : Seq ℕ) → record_of result ls ≡ None }
{
    Labels {
        numbers: HashMap::new(alloc),
        rows: HashMap::new(alloc),
    }
}

/// A table without names and records.
pub fn no_shapes(alloc: Global) -> ShapeTable
    ensures { (labels : TheLabels) → ((s : Text) → number_of labels s ≡ None) → ((ls : Seq ℕ) → record_of labels ls ≡ None) → IsLabels labels result }
{
    ShapeTable {
        records: List::new(alloc),
        labels: List::new(alloc),
        positions: List::new(alloc),
    }
}

/// The number of a name, which is new if the name is.
pub fn label<'a>(
    labels: &mut Labels<'a>,
    table: &mut ShapeTable,
    text: &'a str,
) -> Result<u32, NoMemory>
    requires { IsLabels labels.old table.old }
    ensures is { OnOk result (IsLabels labels.new table.new) }
    ensures on { OnOk result (Goes_on labels.old table.old labels.new table.new) }
    ensures number { IfOk result (λ n. number_of labels.new text.now ≡ Some n) }
{
    match labels.numbers.get(text).copied() {
        Some(number) => return Ok(number),
        None => {}
    }
    let number = table.positions.len();
    if number >= 4294967295 {
        return Err(NoMemory);
    }
    match table.positions.push(position(text)) {
        Ok(()) => {}
        Err(_) => return Err(NoMemory),
    }
    match labels.numbers.insert(text, number as u32) {
        Ok(_) => Ok(number as u32),
        Err(_) => Err(NoMemory),
    }
}
