// Sizes as expressions: those that nothing tells which was entered are read off what functions take.
ghost use Rattle.std.specs.Prelude.{◌≡◌, ◌-◌, IfOk, map};
ghost use Rattle.fut_blocks.specs.Rows.{extent_of};
ghost use Rattle.fut_flat.specs.Erased.{pattern_of, patterns};
ghost use Rattle.fut_flat.specs.Numbers.{all_pattern_numbers};
ghost use Rattle.fut_meaning.specs.Found.{Sizing};
ghost use Rattle.fut_meaning.specs.Taken.{all_beside, beside, is_outer, outer_size, own_size};
ghost use Rattle.fut_meaning.specs.Telling.{nodes_from};
ghost use Rattle.size_arena.specs.Trees.{dim_of, free_of, size_of, sizes_of};
ghost use Rattle.told_rows.specs.Tables.{Tells};
ghost use Rattle.told_rows.specs.Taken.{Lighter, Says, Steps, entered_weight, is_taken_there, known_weight, maybe_dim};
ghost use Rattle.unfold.specs.Held.{entered_of, known_of};
ghost use Rattle.unfold.specs.Telling.{expression, taken, told};

use crate::places::{Sought, place};
use crate::searching::{entry_there, is_its_name, size_found};
use crate::tables::{Sizes, size_at};
use crate::telling::first_pattern;
use bumpalo::Bump;
use fut_blocks::Extent;
use fut_scalar::NoMemory;
use size_arena::{Dim, Free, SizeTree, same_dim};
use unfold::{Entered, Function, Known, KnownForm};

// Whether something that was entered tells a size.
fn is_told<'a>(
    entered: &'a Entered<'a>,
    size: Free,
    sizes: &Sizes<'a>,
    bump: &'a Bump,
) -> Result<bool, NoMemory>
    ensures { (Z : Sizing) → Tells sizes.now Z → IfOk result (λ is. is ≡ told Z (entered_of entered.now) (free_of size)) }
{
    let mut current = entered;
    while let Entered::First(node, known, row, older) = current {
        let tree = size_at(sizes, *node, bump)?;
        if is_its_name(tree, *node, size, sizes)? {
            return Ok(true);
        }
        let found = entry_there(tree, Sought::Size(Dim::At(size)), known, *row, sizes, bump)?;
        if let Some(_) = found {
            return Ok(true);
        }
        current = *older;
    }
    Ok(false)
}

// Whether a size stands in what a function of a sized type takes.
fn is_taken_there<'a>(
    tree: &SizeTree<'a>,
    size: Free,
    sizes: &Sizes<'a>,
    bump: &'a Bump,
) -> Result<bool, NoMemory>
    ensures { (Z : Sizing) → Tells sizes.now Z → IfOk result (λ is. is ≡ is_taken_there Z.fields (free_of size) (size_of tree.now)) }
{
    match tree {
        SizeTree::Fun { from, .. } => {
            match place(from, Sought::Size(Dim::At(size)), sizes, bump)? {
                Some(_place) => Ok(true),
                None => Ok(false),
            }
        }
        SizeTree::Hole(_) => Ok(false),
        SizeTree::Open { .. } => Ok(false),
        SizeTree::Level { .. } => Ok(false),
        SizeTree::Built { .. } => Ok(false),
    }
}

// Whether a function that was entered takes a size.
fn is_taken<'a>(
    entered: &'a Entered<'a>,
    size: Free,
    sizes: &Sizes<'a>,
    bump: &'a Bump,
) -> Result<bool, NoMemory>
    ensures { (Z : Sizing) → Tells sizes.now Z → IfOk result (λ is. is ≡ taken Z (entered_of entered.now) (free_of size)) }
{
    let mut current = entered;
    while let Entered::First(node, _, _, older) = current {
        let tree = size_at(sizes, *node, bump)?;
        if is_taken_there(tree, size, sizes, bump)? {
            return Ok(true);
        }
        current = *older;
    }
    Ok(false)
}

// Whether a size is a constant, or one that what was entered tells or takes.
fn is_outer<'a>(
    dim: Dim,
    entered: &'a Entered<'a>,
    sizes: &Sizes<'a>,
    bump: &'a Bump,
) -> Result<bool, NoMemory>
    ensures { (Z : Sizing) → Tells sizes.now Z → IfOk result (λ is. is ≡ is_outer (told Z (entered_of entered.now)) (taken Z (entered_of entered.now)) (dim_of dim)) }
{
    match dim {
        Dim::At(size) => match size {
            Free::Const(_) => Ok(true),
            _ => {
                if is_told(entered, size, sizes, bump)? {
                    return Ok(true);
                }
                is_taken(entered, size, sizes, bump)
            }
        },
        Dim::Bound(_, _) => Ok(false),
    }
}

// The size in the second type that stands where one is in the first, level by level.
#[cycle(beside)]
#[tactic(auto, using(crate::proofs::TakenForms::beside_forms))]
fn beside(tree: &SizeTree<'_>, own: &SizeTree<'_>, wanted: Dim) -> Option<Dim>
    ensures { maybe_dim result ≡ beside (size_of tree.now) (size_of own.now) (dim_of wanted) }
{
    match tree {
        SizeTree::Level { size, row, .. } => match own {
            SizeTree::Level {
                size: own_size,
                row: own_row,
                ..
            } => {
                if same_dim(*size, wanted) {
                    Some(*own_size)
                } else {
                    beside(row, own_row, wanted)
                }
            }
            SizeTree::Hole(_) | SizeTree::Open { .. } => None,
            SizeTree::Built { .. } | SizeTree::Fun { .. } => None,
        },
        SizeTree::Built { parts, .. } => match own {
            SizeTree::Built {
                parts: own_parts,
                ..
            } => all_beside(parts, own_parts, wanted),
            SizeTree::Hole(_) | SizeTree::Open { .. } => None,
            SizeTree::Level { .. } | SizeTree::Fun { .. } => None,
        },
        SizeTree::Hole(_) | SizeTree::Open { .. } | SizeTree::Fun { .. } => None,
    }
}

#[cycle(beside)]
fn all_beside(parts: &[SizeTree<'_>], own: &[SizeTree<'_>], wanted: Dim) -> Option<Dim>
    ensures { maybe_dim result ≡ all_beside (sizes_of parts.now) (sizes_of own.now) (dim_of wanted) }
{
    for i in 0..parts.len() {
        if i >= own.len() {
            return None;
        }
        if let Some(found) = beside(&parts[i], &own[i], wanted) {
            return Some(found);
        }
    }
    None
}

// The size at the place of one that a function of a sized type takes, in the type of the function's own first parameter.
fn own_size<'a>(
    tree: &SizeTree<'a>,
    function: &Function<'a>,
    wanted: Dim,
    sizes: &Sizes<'a>,
    bump: &'a Bump,
) -> Result<Option<Dim>, NoMemory>
    ensures { (Z : Sizing) → Tells sizes.now Z → IfOk result (λ found. maybe_dim found ≡ own_size Z (size_of tree.now) (nodes_from (patterns (map pattern_of function.now.parameters.now)) (function.now.first - all_pattern_numbers (patterns (map pattern_of function.now.parameters.now)))) (dim_of wanted)) }
{
    if function.parameters.len() == 0 {
        return Ok(None);
    }
    match tree {
        SizeTree::Fun { from, .. } => {
            let node = first_pattern(function)?;
            let own = size_at(sizes, node, bump)?;
            Ok(beside(from, own, wanted))
        }
        SizeTree::Hole(_) => Ok(None),
        SizeTree::Open { .. } => Ok(None),
        SizeTree::Level { .. } => Ok(None),
        SizeTree::Built { .. } => Ok(None),
    }
}

// The same, where it is a constant or a size of the function's names.
fn said_size<'a>(
    tree: &SizeTree<'a>,
    function: &Function<'a>,
    wanted: Dim,
    sizes: &Sizes<'a>,
    bump: &'a Bump,
) -> Result<Option<Dim>, NoMemory>
    ensures { (Z : Sizing) → Tells sizes.now Z → IfOk result (λ found. maybe_dim found ≡ outer_size (is_outer (told Z (entered_of function.now.entered.now)) (taken Z (entered_of function.now.entered.now))) (own_size Z (size_of tree.now) (nodes_from (patterns (map pattern_of function.now.parameters.now)) (function.now.first - all_pattern_numbers (patterns (map pattern_of function.now.parameters.now)))) (dim_of wanted))) }
{
    match own_size(tree, function, wanted, sizes, bump)? {
        Some(own) => {
            if is_outer(own, function.entered, sizes, bump)? {
                Ok(Some(own))
            } else {
                Ok(None)
            }
        }
        None => Ok(None),
    }
}

/// A size, and what was entered where it is to be looked for.
#[derive(Clone, Copy)]
pub struct Step<'a> {
    pub size: Dim,
    pub entered: &'a Entered<'a>,
}

// The size by which a function of a sized type says one that it takes.
fn said_by<'a>(
    known: &Known<'a>,
    tree: &SizeTree<'a>,
    size: Free,
    sizes: &Sizes<'a>,
    bump: &'a Bump,
) -> Result<Option<Step<'a>>, NoMemory>
    ensures says { (Z : Sizing) → Tells sizes.now Z → IfOk result (Says Z (known_of known.now) (size_of tree.now) (free_of size)) }
    ensures lighter { IfOk result (Lighter (known_weight (known_of known.now))) }
{
    match known.form {
        KnownForm::Function(function) => {
            match said_size(tree, function, Dim::At(size), sizes, bump)? {
                Some(own) => Ok(Some(Step {
                    size: own,
                    entered: function.entered,
                })),
                None => Ok(None),
            }
        }
        KnownForm::Scalar(_) => Ok(None),
        KnownForm::Tuple(_) => Ok(None),
        KnownForm::Record(_) => Ok(None),
        KnownForm::Primitive(_, _, _) => Ok(None),
    }
}

// The same, by the newest function that was entered and says it.
fn next_size<'a>(
    entered: &'a Entered<'a>,
    size: Free,
    sizes: &Sizes<'a>,
    bump: &'a Bump,
) -> Result<Option<Step<'a>>, NoMemory>
    ensures steps { (Z : Sizing) → Tells sizes.now Z → IfOk result (Steps Z (entered_of entered.now) (free_of size)) }
    ensures lighter { IfOk result (Lighter (entered_weight (entered_of entered.now))) }
{
    let mut current = entered;
    while let Entered::First(node, known, _, older) = current {
        let tree = size_at(sizes, *node, bump)?;
        let said = said_by(known, tree, size, sizes, bump)?;
        if let Some(_) = said {
            return Ok(said);
        }
        current = *older;
    }
    Ok(None)
}

/// What a size is worth as an expression, by what was entered. It costs what was entered around each of the functions that it is
/// passed with.
pub fn expression<'a>(
    dim: Dim,
    entered: &'a Entered<'a>,
    sizes: &Sizes<'a>,
    bump: &'a Bump,
) -> Result<Extent<'a>, NoMemory>
    ensures { (Z : Sizing) → Tells sizes.now Z → IfOk result (λ many. extent_of many ≡ expression Z (entered_of entered.now) (dim_of dim)) }
{
    let mut sought = Step { size: dim, entered };
    while let Dim::At(size) = sought.size {
        if let Free::Const(number) = size {
            return Ok(Extent::Exactly(number));
        }
        if is_told(sought.entered, size, sizes, bump)? {
            return size_found(sought.entered, size, sizes, bump);
        }
        let Some(next) = next_size(sought.entered, size, sizes, bump)? else {
            return Ok(Extent::Nowhere);
        };
        sought = next;
    }
    Ok(Extent::Nowhere)
}
