// The rule of records.
ghost use Rattle.std.specs.Prelude.{◌≡◌, ◌<◌, ◌≤◌, length, OnOk, IfOk, IfErr, MatchOption};
ghost use Rattle.fut_flat.specs.Erased.{texts};
ghost use Rattle.fut_typing.specs.Names.{Names, AreNames, IsRecord, Once};
ghost use Rattle.type_graph.specs.Graph.{Each, Tables, Told, Tells};
ghost use Rattle.type_graph.specs.Claims.{Sound, Extends, Adds, Nowhere, types_of};
ghost use Rattle.type_rules.specs.Labels.{Goes_on, IsLabels, Labelled};
ghost use Rattle.type_rules.specs.Fields.{Row_is};

use crate::names::labelled;
use crate::order::ascending;
use crate::parts::put_record;
use crate::{Labels, record};
use fut_scalar::{List, NoMemory};
use fut_types::ShapeTable;
use std::alloc::Global;
use type_graph::{Entry, Node, UnifyErr};

// The number of the record with these labels, or nothing where one stands twice.
fn number_of_row(
    alloc: Global,
    labels: &mut Labels<'_>,
    table: &mut ShapeTable,
    row: &[u32],
) -> Result<Option<u32>, NoMemory>
    requires { IsLabels labels.old table.old }
    ensures is { OnOk result (IsLabels labels.new table.new) }
    ensures on { OnOk result (Goes_on labels.old table.old labels.new table.new) }
    ensures number { IfOk result (λ found. MatchOption found (Once row.now → ⊥) (λ n. Row_is table.new row.now n)) }
{
    let list = match ascending(alloc, row) {
        Ok(Some(list)) => list,
        Ok(None) => return Ok(None),
        Err(_) => return Err(NoMemory),
    };
    match record(alloc, labels, table, list.as_slice()) {
        Ok(number) => Ok(Some(number)),
        Err(_) => Err(NoMemory),
    }
}

/// A record: its type is that of the fields with these names, which have the types of the parts.
///
/// The table may get new names and a new record, also where the rule is refused.
pub fn fields<'a>(
    alloc: Global,
    labels: &mut Labels<'a>,
    table: &mut ShapeTable,
    base: u32,
    nodes: &mut List<Node>,
    entries: &mut List<Entry>,
    id: u32,
    names: &[&'a str],
    parts: &[u32],
) -> Result<(), UnifyErr>
    requires labels { IsLabels labels.old table.old }
    requires sound { Sound table.old nodes.old entries.old }
    requires base { base ≤ length nodes.old }
    requires id { id < base }
    requires parts { Each (λ part. part < base) parts.now }
    ensures is { OnOk result (IsLabels labels.new table.new) }
    ensures is_err { IfErr result (Tells (IsLabels labels.new table.new)) }
    ensures on { OnOk result (Goes_on labels.old table.old labels.new table.new) }
    ensures extends { OnOk result (Extends table.new nodes.old entries.old nodes.new entries.new) }
    ensures ok { OnOk result ((N : Names) (T : Tables) → AreNames N → Labelled labels.new table.new N → T.shapes ≡ N.shapes → Told table.new entries.new T → Adds T base (λ K a. IsRecord N (texts names.now) (a id) (types_of a parts.now)) (λ home. Unit {0}) nodes.old nodes.new) }
    ensures err { IfErr result (Tells ((N : Names) (T : Tables) → AreNames N → Labelled labels.new table.new N → T.shapes ≡ N.shapes → Told table.new entries.new T → Nowhere T base (λ K a. IsRecord N (texts names.now) (a id) (types_of a parts.now)) nodes.old)) }
    ensures labelled { IfErr result (Tells ((N : Names) → Labelled labels.new table.new N → Labelled labels.old table.old N)) }
    ensures before { IfErr result (Tells ((T : Tables) → Told table.new entries.new T → Told table.old entries.old T)) }
{
    if names.len() != parts.len() {
        return Err(UnifyErr::Clash(id, id));
    }
    let row = match labelled(alloc, labels, table, names) {
        Ok(row) => row,
        Err(_) => return Err(UnifyErr::Memory),
    };
    let number = match number_of_row(alloc, labels, table, row.as_slice()) {
        Ok(Some(number)) => number,
        Ok(None) => return Err(UnifyErr::Clash(id, id)),
        Err(_) => return Err(UnifyErr::Memory),
    };
    put_record(
        alloc,
        table,
        base,
        nodes,
        entries,
        id,
        number,
        row.as_slice(),
        parts,
    )
}
