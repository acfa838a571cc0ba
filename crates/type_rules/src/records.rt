// The records of the table.
ghost use Rattle.std.specs.Prelude.{◌≡◌, ◌++◌, ℕ, List, Some, OnOk, IfOk, cond, length};
ghost use Rattle.std.specs.Bool.{nat_eq};
ghost use Rattle.std.specs.Cmp.Lexicographic.{pointwise};
ghost use Rattle.fut_types.specs.Shapes.{IsTable, Rising};
ghost use Rattle.type_rules.specs.Labels.{Goes_on, IsLabels, One_more, record_of, row_in};

use crate::labels::Labels;
use fut_scalar::{List as Items, NoMemory};
use fut_types::{Fields, ShapeTable};
use std::alloc::Global;
use std::collections::HashMap;

fn push_all(list: &mut Items<u32>, row: &[u32]) -> Result<(), NoMemory>
    ensures { OnOk result (list.new ≡ list.old ++ row.now) }
{
    let mut at = 0;
    while at < row.len() {
        match list.push(row[at]) {
            Ok(()) => {}
            Err(_) => return Err(NoMemory),
        }
        at += 1;
    }
    Ok(())
}

// Adds a record to the table.
fn push_record(table: &mut ShapeTable, row: &[u32]) -> Result<u32, NoMemory>
    requires { IsTable table.old }
    ensures ok { OnOk result (One_more table.old row.now table.new) }
    ensures number { IfOk result (λ n. n ≡ length table.old.records) }
{
    let first = table.labels.len();
    let number = table.records.len();
    if first >= 2147483648 || row.len() >= 2147483648 || number >= 4294967295 {
        return Err(NoMemory);
    }
    match push_all(&mut table.labels, row) {
        Ok(()) => {}
        Err(_) => return Err(NoMemory),
    }
    match table.records.push(Fields {
        first: first as u32,
        count: row.len() as u32,
    }) {
        Ok(()) => Ok(number as u32),
        Err(_) => Err(NoMemory),
    }
}

// Enters the number of a row.
fn enter(rows: &mut HashMap<Vec<u32>, u32>, key: Vec<u32>, number: u32) -> Result<(), NoMemory>
    ensures { OnOk result ((ls : List ℕ) → row_in rows.new ls ≡ cond (pointwise nat_eq key.items ls) (Some number) (row_in rows.old ls)) }
{
    match rows.insert(key, number) {
        Ok(_) => Ok(()),
        Err(_) => Err(NoMemory),
    }
}

/// The number of the record with these labels, which stand in ascending order. It is new if no record has them.
pub fn record(
    alloc: Global,
    labels: &mut Labels<'_>,
    table: &mut ShapeTable,
    row: &[u32],
) -> Result<u32, NoMemory>
    requires is { IsLabels labels.old table.old }
    requires rising { Rising 0 row.now }
    ensures is { OnOk result (IsLabels labels.new table.new) }
    ensures on { OnOk result (Goes_on labels.old table.old labels.new table.new) }
    ensures number { IfOk result (λ n. record_of labels.new row.now ≡ Some n) }
{
    match labels.rows.get(row).copied() {
        Some(number) => return Ok(number),
        None => {}
    }
    let key = match Items::from_slice(alloc, row) {
        Ok(key) => key,
        Err(_) => return Err(NoMemory),
    };
    let number = match push_record(table, row) {
        Ok(number) => number,
        Err(_) => return Err(NoMemory),
    };
    match enter(&mut labels.rows, key.into_vec(), number) {
        Ok(()) => Ok(number),
        Err(_) => Err(NoMemory),
    }
}
