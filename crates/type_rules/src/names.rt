// The labels of a record's names.
ghost use Rattle.std.specs.Prelude.{◌<◌, OnOk, IfOk};
ghost use Rattle.fut_flat.specs.Erased.{texts};
ghost use Rattle.type_rules.specs.Labels.{Goes_on, IsLabels};
ghost use Rattle.type_rules.specs.Fields.{Numbered};

use crate::{Labels, label};
use fut_scalar::{List, NoMemory};
use fut_types::ShapeTable;
use std::alloc::Global;

/// The number of each name.
pub fn labelled<'a>(
    alloc: Global,
    labels: &mut Labels<'a>,
    table: &mut ShapeTable,
    names: &[&'a str],
) -> Result<List<u32>, NoMemory>
    requires { IsLabels labels.old table.old }
    ensures is { OnOk result (IsLabels labels.new table.new) }
    ensures on { OnOk result (Goes_on labels.old table.old labels.new table.new) }
    ensures ok { IfOk result (λ row. Numbered labels.new (texts names.now) row) }
{
    let mut row = List::new(alloc);
    let mut at = 0;
    while at < names.len() {
        let number = match label(labels, table, names[at]) {
            Ok(number) => number,
            Err(_) => return Err(NoMemory),
        };
        match row.push(number) {
            Ok(()) => {}
            Err(_) => return Err(NoMemory),
        }
        at += 1;
    }
    Ok(row)
}
