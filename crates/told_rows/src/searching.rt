// What stands where a size or a type variable is first: in what patterns were entered with, and in data.
ghost use Rattle.std.specs.Prelude.{◌≡◌, IfOk, None, cond};
ghost use Rattle.fut_blocks.specs.Rows.{Extent as Plain_extent, extent_of, row_of};
ghost use Rattle.fut_meaning.specs.Found.{Sizing, is_number};
ghost use Rattle.size_arena.specs.Trees.{free_of, size_of, variable_of};
ghost use Rattle.told_rows.specs.Findings.{last_there};
ghost use Rattle.told_rows.specs.Places.{entry_there, maybe_row, results_there, there};
ghost use Rattle.told_rows.specs.Tables.{Tells};
ghost use Rattle.unfold.specs.Held.{entered_of, known_of};
ghost use Rattle.unfold.specs.Telling.{found, named_worth};

use crate::findings::Shaped;
use crate::knowns::{known_row, known_worth};
use crate::places::{Sought, at_row, place};
use crate::shapes::{length_of, unknown};
use crate::standing::{gives_chosen, is_known};
use crate::tables::{Sizes, name_at, size_at};
use bumpalo::Bump;
use fut_blocks::{Extent, RowShape};
use fut_scalar::{NoMemory, ScalarType};
use fut_types::Head;
use size_arena::{Dim, Free, SizeTree, Variable};
use unfold::{Entered, Known};

/// What stands where something is first in data of a sized type that has a shape.
pub fn there<'a>(
    tree: &SizeTree<'a>,
    sought: Sought,
    row: &'a RowShape<'a>,
    sizes: &Sizes<'a>,
    bump: &'a Bump,
) -> Result<Option<&'a RowShape<'a>>, NoMemory>
    ensures { (Z : Sizing) → Tells sizes.now Z → IfOk result (λ found. maybe_row found ≡ there Z.fields sought (size_of tree.now) (row_of row.now) None) }
{
    match place(tree, sought, sizes, bump)? {
        Some(path) => {
            let part = at_row(path, row, bump)?;
            Ok(Some(part))
        }
        None => Ok(None),
    }
}

// In what a function of a sized type tells of its results, which have a shape.
fn results_there<'a>(
    tree: &SizeTree<'a>,
    sought: Sought,
    row: &'a RowShape<'a>,
    sizes: &Sizes<'a>,
    bump: &'a Bump,
) -> Result<Option<&'a RowShape<'a>>, NoMemory>
    ensures { (Z : Sizing) → Tells sizes.now Z → IfOk result (λ found. maybe_row found ≡ results_there Z.fields sought (size_of tree.now) (row_of row.now)) }
{
    match tree {
        SizeTree::Fun {
            chosen,
            from,
            to,
            ..
        } => {
            if !is_known(from) {
                return Ok(None);
            }
            if !gives_chosen(to, *chosen) {
                return Ok(None);
            }
            there(to, sought, row, sizes, bump)
        }
        SizeTree::Hole(_) => Ok(None),
        SizeTree::Open { .. } => Ok(None),
        SizeTree::Level { .. } => Ok(None),
        SizeTree::Built { .. } => Ok(None),
    }
}

/// In what the pattern of a sized type was entered with.
pub fn entry_there<'a>(
    tree: &SizeTree<'a>,
    sought: Sought,
    known: &Known<'a>,
    told: &'a RowShape<'a>,
    sizes: &Sizes<'a>,
    bump: &'a Bump,
) -> Result<Option<&'a RowShape<'a>>, NoMemory>
    ensures { (Z : Sizing) → Tells sizes.now Z → IfOk result (λ found. maybe_row found ≡ entry_there Z.fields sought (size_of tree.now) (known_of known.now) (row_of told.now)) }
{
    match place(tree, sought, sizes, bump)? {
        Some(path) => {
            let row = known_row(known, bump)?;
            let part = at_row(path, row, bump)?;
            Ok(Some(part))
        }
        None => results_there(tree, sought, told, sizes, bump),
    }
}

/// In the last data that has it.
pub fn last_there<'a>(
    sought: Sought,
    given: &'a [Shaped<'a>],
    sizes: &Sizes<'a>,
    bump: &'a Bump,
) -> Result<Option<&'a RowShape<'a>>, NoMemory>
    ensures { (Z : Sizing) → Tells sizes.now Z → IfOk result (λ found. maybe_row found ≡ last_there Z.fields sought given.now) }
{
    let mut at = given.len();
    while at > 0 {
        at -= 1;
        let shaped = given[at];
        let found = there(shaped.tree, sought, shaped.row, sizes, bump)?;
        if let Some(_) = found {
            return Ok(found);
        }
    }
    Ok(None)
}

// Whether data of a sized type is a number.
#[tactic(auto, using(size_arena::proofs::Forms::forms))]
fn is_number(tree: &SizeTree<'_>) -> bool
    ensures { result ≡ is_number (size_of tree.now) }
{
    match tree {
        SizeTree::Built { head, .. } => matches!(head, Head::Scalar(ScalarType::Int(_))),
        SizeTree::Hole(_) => false,
        SizeTree::Open { .. } => false,
        SizeTree::Level { .. } => false,
        SizeTree::Fun { .. } => false,
    }
}

/// Whether a pattern of a sized type at a node binds the name that a size is.
pub fn is_its_name<'a>(
    tree: &SizeTree<'a>,
    node: u32,
    size: Free,
    sizes: &Sizes<'a>,
) -> Result<bool, NoMemory>
    ensures { (Z : Sizing) → Tells sizes.now Z → IfOk result (λ is. (e o : Plain_extent) → named_worth Z.home node (size_of tree.now) e (free_of size) o ≡ cond is e o) }
{
    match size {
        Free::Name(wanted) => match name_at(sizes, node)? {
            Some(name) => {
                if name != wanted {
                    return Ok(false);
                }
                Ok(is_number(tree))
            }
            None => Ok(false),
        },
        Free::Const(_) => Ok(false),
        Free::Own(_, _) => Ok(false),
        Free::Unknown(_, _) => Ok(false),
        Free::Slot(_) => Ok(false),
    }
}

/// What a size is worth by what was entered.
pub fn size_found<'a>(
    entered: &'a Entered<'a>,
    size: Free,
    sizes: &Sizes<'a>,
    bump: &'a Bump,
) -> Result<Extent<'a>, NoMemory>
    ensures { (Z : Sizing) → Tells sizes.now Z → IfOk result (λ many. extent_of many ≡ (found Z (entered_of entered.now)).size (free_of size)) }
{
    let mut current = entered;
    while let Entered::First(node, known, told, older) = current {
        let tree = size_at(sizes, *node, bump)?;
        if is_its_name(tree, *node, size, sizes)? {
            return Ok(known_worth(known));
        }
        let found = entry_there(tree, Sought::Size(Dim::At(size)), known, *told, sizes, bump)?;
        if let Some(row) = found {
            return length_of(row, bump);
        }
        current = *older;
    }
    Ok(Extent::Nowhere)
}

/// What a type variable stands for by what was entered.
pub fn type_found<'a>(
    entered: &'a Entered<'a>,
    variable: Variable,
    sizes: &Sizes<'a>,
    bump: &'a Bump,
) -> Result<&'a RowShape<'a>, NoMemory>
    ensures { (Z : Sizing) → Tells sizes.now Z → IfOk result (λ row. row_of row.now ≡ (found Z (entered_of entered.now)).type (variable_of variable)) }
{
    let mut current = entered;
    while let Entered::First(node, known, told, older) = current {
        let tree = size_at(sizes, *node, bump)?;
        let found = entry_there(tree, Sought::Type(variable), known, *told, sizes, bump)?;
        if let Some(row) = found {
            return Ok(row);
        }
        current = *older;
    }
    Ok(unknown())
}
