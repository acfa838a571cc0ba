// The shape of data of a sized type.
ghost use Rattle.std.specs.Prelude.{◌≡◌, IfOk, map};
ghost use Rattle.fut_blocks.specs.Rows as blocks;
ghost use Rattle.fut_blocks.specs.Rows.{named_row_of, row_of, rows};
ghost use Rattle.fut_flat.specs.Erased.{texts};
ghost use Rattle.fut_meaning.specs.Found.{Sizing};
ghost use Rattle.size_arena.specs.Trees.{size_of, sizes_of};
ghost use Rattle.told_rows.specs.Findings.{number_in, type_in};
ghost use Rattle.told_rows.specs.Tables.{Tells};
ghost use Rattle.unfold.specs.Held.{entered_of};
ghost use Rattle.unfold.specs.Knowns.{no_entry};
ghost use Rattle.unfold.specs.Telling.{chosen_row, headed, named_rows, told_row, told_rows};

use crate::findings::{Findings, number_in, type_in};
use crate::shapes::{shape, unknown};
use crate::tables::{Sizes, fields_of};
use bumpalo::Bump;
use bumpalo::collections::into_bump_slice;
use fut_blocks::{FieldShape, RowShape};
use fut_scalar::NoMemory;
use fut_types::Head;
use size_arena::SizeTree;
use unfold::Entered;

// The fields of a record, put in order by a stable sort.
fn in_order<'a>(
    names: &'a [&'a str],
    parts: &'a [RowShape<'a>],
    bump: &'a Bump,
) -> Result<&'a [FieldShape<'a>], NoMemory>
    ensures { IfOk result (λ made. blocks.named_rows (map named_row_of made.now) ≡ named_rows (texts names.now) (rows (map row_of parts.now))) }
{
    // A record has as many names as parts.
    if names.len() != parts.len() {
        return Err(NoMemory);
    }
    // from the last one on, since of fields of one name the last comes first
    let mut fields = Vec::new(bump);
    let mut at = parts.len();
    while at > 0 {
        at -= 1;
        fields.push(FieldShape {
            name: names[at],
            row: parts[at],
        })?;
    }
    match fields.sort_by(|left, right| left.name.cmp(right.name)) {
        Ok(()) => Ok(into_bump_slice(fields)),
        Err(_) => Err(NoMemory),
    }
}

// By what a type is made of.
fn headed<'a>(
    head: Head,
    parts: &'a [RowShape<'a>],
    sizes: &Sizes<'a>,
    bump: &'a Bump,
) -> Result<&'a RowShape<'a>, NoMemory>
    ensures { (Z : Sizing) → Tells sizes.now Z → IfOk result (λ made. row_of made.now ≡ headed head (rows (map row_of parts.now)) (λ n. named_rows (Z.fields n) (rows (map row_of parts.now)))) }
{
    match head {
        Head::Scalar(scalar) => shape(bump, RowShape::Scalar(scalar)),
        Head::Tuple => shape(bump, RowShape::Tuple(parts)),
        Head::Record(number) => {
            let names = fields_of(sizes, number)?;
            let fields = in_order(names, parts, bump)?;
            shape(bump, RowShape::Record(fields))
        }
        Head::Array => Ok(unknown()),
        Head::Fun => Ok(unknown()),
        Head::Rigid(_, _) => Ok(unknown()),
        Head::Abstract(_, _) => Ok(unknown()),
    }
}

/// The shape of data of a sized type.
#[cycle(told)]
pub fn told_row<'a>(
    tree: &SizeTree<'a>,
    findings: &Findings<'a>,
    sizes: &Sizes<'a>,
    bump: &'a Bump,
) -> Result<&'a RowShape<'a>, NoMemory>
    ensures { (Z : Sizing) → Tells sizes.now Z → IfOk result (λ made. row_of made.now ≡ told_row Z.fields (number_in Z findings.now) (type_in Z findings.now) (size_of tree.now)) }
{
    match tree {
        SizeTree::Hole(variable) => type_in(*variable, findings, sizes, bump),
        SizeTree::Open { .. } => Ok(unknown()),
        SizeTree::Level { size, row, .. } => {
            let many = number_in(*size, findings, sizes, bump)?;
            let under = told_row(row, findings, sizes, bump)?;
            shape(bump, RowShape::Array(many, under))
        }
        SizeTree::Built { head, parts, .. } => {
            let rows = told_rows(parts, findings, sizes, bump)?;
            headed(*head, rows, sizes, bump)
        }
        SizeTree::Fun { .. } => Ok(unknown()),
    }
}

#[cycle(told)]
fn told_rows<'a>(
    parts: &[SizeTree<'a>],
    findings: &Findings<'a>,
    sizes: &Sizes<'a>,
    bump: &'a Bump,
) -> Result<&'a [RowShape<'a>], NoMemory>
    ensures { (Z : Sizing) → Tells sizes.now Z → IfOk result (λ made. rows (map row_of made.now) ≡ told_rows Z.fields (number_in Z findings.now) (type_in Z findings.now) (sizes_of parts.now)) }
{
    let mut made = Vec::new(bump);
    for part in parts {
        let row = told_row(part, findings, sizes, bump)?;
        made.push(*row)?;
    }
    Ok(into_bump_slice(made))
}

static NOTHING: Entered<'static> = Entered::Nothing;

// Nothing was entered.
#[tactic(auto, using(unfold::proofs::Mirror::mirrors))]
fn nothing<'a>() -> &'a Entered<'a>
    ensures { entered_of result.now ≡ no_entry }
{
    &NOTHING
}

/// The shape of a function's parameter by itself, where each size that the caller chooses is 0.
pub fn chosen_row<'a>(
    tree: &SizeTree<'a>,
    sizes: &Sizes<'a>,
    bump: &'a Bump,
) -> Result<&'a RowShape<'a>, NoMemory>
    ensures { (Z : Sizing) → Tells sizes.now Z → IfOk result (λ made. row_of made.now ≡ chosen_row Z.fields (size_of tree.now)) }
{
    let findings = Findings {
        entered: nothing(),
        given: &[],
        frames: &[],
    };
    told_row(tree, &findings, sizes, bump)
}
