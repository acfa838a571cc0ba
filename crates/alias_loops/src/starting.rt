// Where the components of a first value begin: those of a written tuple or record have the places of its parts.
ghost use Rattle.std.specs.Prelude.{◌≡◌, IfOk, map};
ghost use Rattle.fut_aliases.specs.Loops.{all_starts, each_at, fields_start, starts};
ghost use Rattle.fut_aliases.specs.Values.{components};
ghost use Rattle.fut_flat.specs.Erased.{operation_of, term_of, terms, texts};
ghost use Rattle.fut_flat.specs.Terms.{Strict};
ghost use Rattle.fut_scalar.specs.declared.place.Place.{Place};
ghost use Rattle.fut_types.specs.Shapes.{IsTable};
ghost use Rattle.fut_typing.specs.Names.{Names};
ghost use Rattle.alias_loops.specs.Labels.{labelled_of};
ghost use Rattle.alias_loops.specs.Written.{IsWritten};
ghost use Rattle.alias_parts.specs.Known.{Knows};
ghost use Rattle.alias_values.specs.Trees.{value_of, values_of};

use crate::labels::{Labelled, in_order, label_of, labels_of};
use crate::written::{Written, written_as};
use alias_parts::{PartNames, part_named};
use alias_program::after;
use alias_values::{ValueTree, component_count};
use bumpalo::Bump;
use bumpalo::collections::into_bump_slice;
use flat_numbers::after_exp;
use fut_flat::{Act, Exp, Form};
use fut_scalar::NoMemory;

/// Where the components of a term's value begin; the term is at a node.
pub fn starts<'a>(
    bump: &'a Bump,
    names: &PartNames<'_>,
    exp: &Exp<'_>,
    node: u32,
    value: &'a ValueTree<'a>,
) -> Result<&'a [u32], NoMemory>
    requires table { IsTable names.now.table.now }
    ensures { (N : Names) → Knows names.now N → IfOk result (λ nodes. nodes.now ≡ starts N (term_of exp.now) node (value_of value.now)) }
{
    exp_starts(bump, exp, names, node, value)
}

// Each component begins where the whole does.
fn each_at<'a>(bump: &'a Bump, node: u32, value: &ValueTree<'_>) -> Result<&'a [u32], NoMemory>
    ensures { IfOk result (λ nodes. nodes.now ≡ each_at node (components (value_of value.now))) }
{
    let count = component_count(value, 0)?;
    let mut made = Vec::new(bump);
    for _i in 0..count {
        made.push(node)?;
    }
    Ok(into_bump_slice(made))
}

#[cycle(starts)]
fn exp_starts<'a>(
    bump: &'a Bump,
    exp: &Exp<'_>,
    names: &PartNames<'_>,
    node: u32,
    value: &'a ValueTree<'a>,
) -> Result<&'a [u32], NoMemory>
    requires table { IsTable names.now.table.now }
    ensures { (N : Names) → Knows names.now N → IfOk result (λ nodes. nodes.now ≡ starts N (term_of exp.now) node (value_of value.now)) }
{
    match exp.form {
        Form::Strict { act, parts, .. } => strict_starts(bump, parts, &act, names, node, value),
        Form::Lets(row, body) => {
            if row.len() == 0 {
                return exp_starts(bump, body, names, node, value);
            }
            each_at(bump, node, value)
        }
        Form::Use(_, _) => each_at(bump, node, value),
        Form::Lambda(_, _) => each_at(bump, node, value),
        Form::Apply(_, _) => each_at(bump, node, value),
        Form::If(_, _, _) => each_at(bump, node, value),
        Form::Loop(_) => each_at(bump, node, value),
    }
}

#[cycle(starts)]
fn strict_starts<'a>(
    bump: &'a Bump,
    parts: &[Exp<'_>],
    act: &Act<'_>,
    names: &PartNames<'_>,
    node: u32,
    value: &'a ValueTree<'a>,
) -> Result<&'a [u32], NoMemory>
    requires table { IsTable names.now.table.now }
    ensures { (N : Names) (mark : Place) → Knows names.now N → IfOk result (λ nodes. nodes.now ≡ starts N (Strict (operation_of act.now) mark (terms (map term_of parts.now))) node (value_of value.now)) }
{
    match written_as(act, value) {
        Written::Tuple(values) => {
            let first = after(node, 1)?;
            tuple_starts(bump, parts, names, first, values)
        }
        Written::Record(fields, number) => {
            let first = after(node, 1)?;
            let labels = labels_of(names, number)?;
            let labelled = fields_start(bump, parts, fields, names, first, value)?;
            in_order(bump, labels, labelled)
        }
        Written::Other => each_at(bump, node, value),
    }
}

#[cycle(starts)]
fn tuple_starts<'a>(
    bump: &'a Bump,
    parts: &[Exp<'_>],
    names: &PartNames<'_>,
    node: u32,
    values: &'a [ValueTree<'a>],
) -> Result<&'a [u32], NoMemory>
    requires table { IsTable names.now.table.now }
    ensures { (N : Names) → Knows names.now N → IfOk result (λ nodes. nodes.now ≡ all_starts N (terms (map term_of parts.now)) node (values_of values.now)) }
{
    let mut made = Vec::new(bump);
    let mut next = node;
    for i in 0..parts.len().min(values.len()) {
        let nodes = exp_starts(bump, &parts[i], names, next, &values[i])?;
        made.extend_from_slice(nodes)?;
        next = after_exp(next, &parts[i])?;
    }
    Ok(into_bump_slice(made))
}

#[cycle(starts)]
fn fields_start<'a>(
    bump: &'a Bump,
    parts: &[Exp<'_>],
    fields: &[&str],
    names: &PartNames<'_>,
    node: u32,
    value: &'a ValueTree<'a>,
) -> Result<&'a [Labelled<'a>], NoMemory>
    requires table { IsTable names.now.table.now }
    ensures { (N : Names) → Knows names.now N → IfOk result (λ labelled. labelled_of labelled.now ≡ fields_start N (texts fields.now) (terms (map term_of parts.now)) node (value_of value.now)) }
{
    let mut made = Vec::new(bump);
    let mut next = node;
    for i in 0..parts.len().min(fields.len()) {
        let label = label_of(names, fields[i])?;
        let part = part_named(bump, names, fields[i], value)?;
        let nodes = exp_starts(bump, &parts[i], names, next, part)?;
        made.push(Labelled { label, nodes })?;
        next = after_exp(next, &parts[i])?;
    }
    Ok(into_bump_slice(made))
}
