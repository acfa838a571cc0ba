// The places of parts by their names.
ghost use Rattle.std.specs.Prelude.{◌≡◌, IsTrue, IfOk};
ghost use Rattle.std.specs.HashMap.{get_by};
ghost use Rattle.std.specs.Str.{bytes_eq};
ghost use Rattle.fut_types.specs.Shapes.{IsKnown, IsTable, Tells_position, place};
ghost use Rattle.fut_typing.specs.Names.{Names};
ghost use Rattle.alias_parts.specs.Known.{Knows};

use fut_scalar::NoMemory;
use fut_types::{Head, ShapeTable, place_of};
use std::collections::HashMap;

/// What is known of a program's names: the number of each, and the table of records and positions.
#[derive(Clone, Copy)]
pub struct PartNames<'a> {
    pub numbers: &'a HashMap<&'a str, u32>,
    pub table: &'a ShapeTable,
}

#[tactic(auto, using(crate::proofs::NameForms::known_heads))]
fn is_known(table: &ShapeTable, head: Head) -> bool
    ensures { IsTrue result → IsKnown table.now head }
{
    match head {
        Head::Record(number) => (number as usize) < table.records.len(),
        Head::Scalar(_) => true,
        Head::Array => true,
        Head::Tuple => true,
        Head::Fun => true,
        Head::Rigid(_, _) => true,
        Head::Abstract(_, _) => true,
    }
}

fn number_of(numbers: &HashMap<&str, u32>, name: &str) -> Option<u32>
    ensures { result ≡ get_by (λ k. bytes_eq name.now k.now) numbers.now }
{
    numbers.get(name).copied()
}

/// The place of the part with this name in what is made by a head.
pub fn place_named(names: &PartNames<'_>, head: Head, name: &str) -> Result<Option<u32>, NoMemory>
    requires { IsTable names.now.table.now }
    ensures { (N : Names) → Knows names.now N → IfOk result (λ found. Tells_position found (place N.shapes (N.label name.now) head)) }
{
    let label = match number_of(names.numbers, name) {
        Some(label) => label,
        None => return Err(NoMemory),
    };
    if (label as usize) >= names.table.positions.len() {
        return Err(NoMemory);
    }
    if !is_known(names.table, head) {
        return Err(NoMemory);
    }
    Ok(place_of(names.table, head, label))
}
