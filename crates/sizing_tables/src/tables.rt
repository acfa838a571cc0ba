// The tables.
ghost use Rattle.std.specs.Prelude.{◌≡◌, ℕ, IfOk};
ghost use Rattle.fut_meaning.specs.Found.{Sizing};
ghost use Rattle.fut_typing.specs.Names.{Names as Numbering, AreNames};
ghost use Rattle.fut_typing.specs.Program.{program_of};
ghost use Rattle.told_rows.specs.Tables.{Tells, node_at};
ghost use Rattle.type_rules.specs.Labels.{Labelled};
ghost use Rattle.sizing_tables.specs.Bound.{program_names, program_sizes};
ghost use Rattle.sizing_tables.specs.Told.{Is_sizing_of};

use crate::marks::marked;
use crate::noting::{Names, Noting};
use crate::records::record_fields;
use crate::terms::note_definitions;
use bumpalo::Bump;
use fut_flat::Flat;
use fut_scalar::NoMemory;
use fut_types::ShapeTable;
use size_arena::SizeTree;
use std::alloc::Global;
use told_rows::Sizes;
use type_rules::Labels;

/// The names that a program binds.
fn names_bound(alloc: Global, flat: &Flat<'_>) -> Result<Names, NoMemory>
    ensures names { IfOk result (λ bound. bound.names ≡ program_names (program_of flat.now)) }
    ensures sizes { IfOk result (λ bound. bound.sizes ≡ program_sizes (program_of flat.now)) }
{
    let mut noting = Noting::new(alloc);
    note_definitions(&mut noting, flat.definitions);
    noting.noted()
}

/// A table, held by the arena.
fn held<'a>(bump: &'a Bump, names: &[Option<u32>]) -> Result<&'a [Option<u32>], NoMemory>
    ensures { IfOk result (λ held. held.now ≡ names.now) }
{
    match bump.try_alloc_slice_copy(names) {
        Ok(held) => Ok(held),
        Err(_failed) => Err(NoMemory),
    }
}

/// The tables of the sizing of a program, whose nodes have these sized types and whose names of fields these numbers. They lie
/// in the arena. The cost is linear.
pub fn sizing_tables<'a>(
    alloc: Global,
    bump: &'a Bump,
    flat: &Flat<'a>,
    labels: &Labels<'a>,
    table: &ShapeTable,
    nodes: &'a [Option<&'a SizeTree<'a>>],
) -> Result<Sizes<'a>, NoMemory>
    ensures { (N : Numbering) → AreNames N → Labelled labels.now table.now N → (Z : Sizing) → Is_sizing_of flat.now N (node_at nodes.now) Z → IfOk result (λ tables. Tells tables Z) }
{
    let bound = names_bound(alloc, flat)?;
    let names = held(bump, bound.names.as_slice())?;
    let are_sizes = marked(bump, flat.names.len(), bound.sizes.as_slice())?;
    let fields = record_fields(bump, labels, table)?;
    Ok(Sizes {
        nodes,
        names,
        fields,
        are_sizes,
    })
}
