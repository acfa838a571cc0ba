// The names of the fields of records.
ghost use Rattle.std.specs.Prelude.{◌≡◌, ◌<◌, ℕ, IfOk, Some, length};
ghost use Rattle.fut_flat.specs.Erased.{texts};
ghost use Rattle.fut_types.specs.Shapes.{fields_of, labels_from};
ghost use Rattle.type_rules.specs.Fields.{Numbered};
ghost use Rattle.type_rules.specs.Labels.{number_of};
ghost use Rattle.sizing_tables.specs.Records.{Are_fields};

use bumpalo::Bump;
use bumpalo::collections::into_bump_slice;
use fut_scalar::NoMemory;
use fut_types::{Fields, ShapeTable};
use std::collections::HashMap;
use type_rules::Labels;

/// By the numbers of labels, a name that has the number.
fn label_texts<'a>(
    bump: &'a Bump,
    labels: &Labels<'a>,
    count: usize,
) -> Result<&'a [Option<&'a str>], NoMemory> {
    let mut texts = vec![in bump; None; count]?;
    for (name, number) in labels.numbers.iter() {
        let at = *number as usize;
        if at < texts.len() {
            texts[at] = Some(*name);
        }
    }
    Ok(into_bump_slice(texts))
}

/// The number of a name.
#[tactic(auto, unfolding(type_rules::specs::Labels::number_of))]
fn number_of(labels: &Labels<'_>, name: &str) -> Option<u32>
    ensures { result ≡ number_of labels.now name.now }
{
    labels.numbers.get(name).copied()
}

/// The name that has the number. One that the program has not is want of memory.
fn text_of<'a>(
    labels: &Labels<'a>,
    known: &[Option<&'a str>],
    label: u32,
) -> Result<&'a str, NoMemory>
    ensures { IfOk result (λ text. number_of labels.now text.now ≡ Some label) }
{
    let at = label as usize;
    if at >= known.len() {
        return Err(NoMemory);
    }
    let Some(text) = known[at] else {
        return Err(NoMemory);
    };
    match number_of(labels, text) {
        Some(number) if number == label => Ok(text),
        _ => Err(NoMemory),
    }
}

/// The names of a record's fields, in the order of its parts.
fn field_names<'a>(
    bump: &'a Bump,
    labels: &Labels<'a>,
    known: &[Option<&'a str>],
    all: &[u32],
    row: Fields,
) -> Result<&'a [&'a str], NoMemory>
    ensures { IfOk result (λ names. Numbered labels.now (texts names.now) (labels_from all.now row.first row.count)) }
{
    let mut names = Vec::new(bump);
    for i in 0..row.count {
        let Some(at) = row.first.checked_add(i) else {
            return Err(NoMemory);
        };
        let at = at as usize;
        if at >= all.len() {
            return Err(NoMemory);
        }
        let text = text_of(labels, known, all[at])?;
        names.push(text)?;
    }
    Ok(into_bump_slice(names))
}

/// The names of the fields of each record. The cost is linear in the table.
pub fn record_fields<'a>(
    bump: &'a Bump,
    labels: &Labels<'a>,
    table: &ShapeTable,
) -> Result<&'a [&'a [&'a str]], NoMemory>
    ensures { IfOk result (λ fields. Are_fields labels.now table.now fields.now) }
{
    let known = label_texts(bump, labels, table.positions.len())?;
    let all = table.labels.as_slice();
    let mut fields = Vec::new(bump);
    for row in table.records.as_slice() {
        let names = field_names(bump, labels, known, all, *row)?;
        fields.push(names)?;
    }
    Ok(into_bump_slice(fields))
}
