// Records of fields with names.
ghost use Rattle.std.specs.Prelude.{◌≡◌, ◌<◌, ℕ, map, OnOk, IfOk, IfErr};
ghost use Rattle.fut_flat.specs.Erased.{texts};
ghost use Rattle.fut_types.specs.declared.Kind.{Kind};
ghost use Rattle.fut_typing.specs.Names.{IsRecord};
ghost use Rattle.type_graph.specs.Graph.{Each, Tells};
ghost use Rattle.type_graph.specs.Claims.{types_of};
ghost use Rattle.type_scopes.specs.Scopes.{Claimed, Refused, Safe};
ghost use Rattle.type_patterns.specs.Asking.{Asked, Unasked, field_name};

use fut_flat::TypeField;
use fut_scalar::List;
use std::alloc::Global;
use type_graph::UnifyErr;
use type_rules::fields;
use type_scopes::Inference;

fn names_of<'a>(alloc: Global, fields: &[TypeField<'a>]) -> Result<List<&'a str>, UnifyErr>
    ensures ok { IfOk result (λ names. texts names ≡ map field_name fields.now) }
    ensures err { IfErr result (Tells ⊥) }
{
    let mut names = List::new(alloc);
    for field in fields {
        match names.push(field.name) {
            Ok(()) => {}
            Err(_) => return Err(UnifyErr::Memory),
        }
    }
    Ok(names)
}

/// Asks that a node has the type of records of these fields, where the types of the fields are those of the nodes in a row.
pub fn ask_fields_of<'a>(
    alloc: Global,
    base: u32,
    node: u32,
    fields: &[TypeField<'a>],
    row: &[u32],
    inference: &mut Inference<'a>,
) -> Result<(), UnifyErr>
    requires safe { Safe base inference.old }
    requires node { node < base }
    requires row { Each (λ part. part < base) row.now }
    ensures ok { OnOk result ((places : Kind) → Asked places base (λ N scope K a. IsRecord N (map field_name fields.now) (a node) (types_of a row.now)) inference.old inference.new) }
    ensures err { IfErr result (Tells ((places : Kind) → Unasked places base (λ N scope K a. IsRecord N (map field_name fields.now) (a node) (types_of a row.now)) inference.old inference.new)) }
{
    let names = match names_of(alloc, fields) {
        Ok(names) => names,
        Err(_) => return Err(UnifyErr::Memory),
    };
    ask_record_of(alloc, base, node, names.as_slice(), row, inference)
}

// Asks that a node has the type of records of fields with these names, which have the types of these nodes. The table may
// get new names and a new record.
fn ask_record_of<'a>(
    alloc: Global,
    base: u32,
    node: u32,
    names: &[&'a str],
    parts: &[u32],
    inference: &mut Inference<'a>,
) -> Result<(), UnifyErr>
    requires safe { Safe base inference.old }
    requires node { node < base }
    requires parts { Each (λ part. part < base) parts.now }
    ensures ok { OnOk result ((places : Kind) → Asked places base (λ N scope K a. IsRecord N (texts names.now) (a node) (types_of a parts.now)) inference.old inference.new) }
    ensures err { IfErr result (Tells ((places : Kind) → Unasked places base (λ N scope K a. IsRecord N (texts names.now) (a node) (types_of a parts.now)) inference.old inference.new)) }
{
    fields(
        alloc,
        &mut inference.labels,
        &mut inference.table,
        base,
        &mut inference.nodes,
        &mut inference.entries,
        node,
        names,
        parts,
    )
}

/// Asks that a number has the type of records of fields with these names, which have the types of these numbers. The table
/// may get new names and a new record.
pub fn constrain_fields<'a>(
    alloc: Global,
    base: u32,
    number: u32,
    names: &[&'a str],
    parts: &[u32],
    inference: &mut Inference<'a>,
) -> Result<(), UnifyErr>
    requires safe { Safe base inference.old }
    requires number { number < base }
    requires parts { Each (λ part. part < base) parts.now }
    ensures ok { OnOk result ((places : Kind) (d from : ℕ) → Claimed places base d from (λ N scope K a. IsRecord N (texts names.now) (a number) (types_of a parts.now)) (λ home. Unit {0}) inference.old inference.new) }
    ensures err { IfErr result (Tells ((places : Kind) (d from : ℕ) → Refused places base d from (λ N scope K a. IsRecord N (texts names.now) (a number) (types_of a parts.now)) (λ home. Unit {0}) inference.old inference.new)) }
{
    ask_record_of(alloc, base, number, names, parts, inference)
}
