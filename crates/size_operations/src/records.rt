// Records: the parts in the order of their labels, each by its place among those that are written.
ghost use Rattle.std.specs.Prelude.{◌≡◌, IfOk};
ghost use Rattle.fut_flat.specs.Erased.{texts};
ghost use Rattle.fut_sizes.specs.Operations.{record_of};
ghost use Rattle.fut_types.specs.Shapes.{IsTable};
ghost use Rattle.fut_types.specs.Types.{Made, Tys};
ghost use Rattle.fut_typing.specs.Names.{Names};
ghost use Rattle.alias_parts.specs.Known.{Knows};
ghost use Rattle.size_arena.specs.Trees.{size_of, sizes_of, type_of};
ghost use Rattle.size_program.specs.Program.{sub_of};
ghost use Rattle.size_operations.specs.Records.{chosen, record_number};

use bumpalo::Bump;
use bumpalo::collections::into_bump_slice;
use fut_scalar::NoMemory;
use fut_types::Head;
use record_places::written_places;
use size_arena::{SizeTree, TypeTree, built};
use size_program::{Program, type_at};

/// Those of these parts that stand at the places, where they have one.
#[tactic(auto, using(crate::proofs::RecordForms::choosing))]
fn chosen<'a>(
    bump: &'a Bump,
    sizes: &'a [SizeTree<'a>],
    places: &[usize],
) -> Result<&'a [SizeTree<'a>], NoMemory>
    ensures { IfOk result (λ made. sizes_of made.now ≡ chosen (sizes_of sizes.now) places.now) }
{
    let mut made = Vec::new(bump);
    for i in 0..places.len() {
        if places[i] < sizes.len() {
            made.push(sizes[places[i]])?;
        }
    }
    Ok(into_bump_slice(made))
}

fn number_of(head: Head) -> Option<u32>
    ensures { (ts : Tys) → result ≡ record_number (Made head ts) }
{
    match head {
        Head::Record(number) => Some(number),
        Head::Scalar(_) => None,
        Head::Array => None,
        Head::Tuple => None,
        Head::Fun => None,
        Head::Rigid(_, _) => None,
        Head::Abstract(_, _) => None,
    }
}

/// The number of the record that a type is made of.
#[tactic(auto, using(crate::proofs::RecordForms::numbers_of))]
fn record_number(ty: &TypeTree<'_>) -> Option<u32>
    ensures { result ≡ record_number (type_of ty.now) }
{
    match ty {
        TypeTree::Made { head, .. } => number_of(*head),
        TypeTree::Var(_) => None,
    }
}

/// The record at a node, with these parts under these names.
pub(crate) fn record_of<'a>(
    fields: &[&str],
    node: u32,
    sizes: &'a [SizeTree<'a>],
    program: &Program<'a>,
    bump: &'a Bump,
) -> Result<&'a SizeTree<'a>, NoMemory>
    requires table { IsTable program.now.names.table.now }
    ensures { (N : Names) → Knows program.now.names N → IfOk result (λ made. size_of made.now ≡ record_of N (texts fields.now) (sub_of program.now.types.now node) (sizes_of sizes.now)) }
{
    let ty = type_at(program, node)?;
    match record_number(ty) {
        Some(number) => {
            // A record has as many parts as names.
            if fields.len() != sizes.len() {
                return Err(NoMemory);
            }
            let places = written_places(bump, &program.names, number, fields)?;
            let parts = chosen(bump, sizes, places)?;
            built(bump, Head::Record(number), parts)
        }
        None => built(bump, Head::Tuple, sizes),
    }
}
