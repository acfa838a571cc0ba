// From an accepted program to its blocks.
ghost use Rattle.std.specs.Prelude.{◌≡◌, ℕ, List, Bool, IfOk, IfErr, length, Some, Ok, Err};
ghost use Rattle.fut_scalar.specs.declared.sizes.DataType.{DataType as Sort};
ghost use Rattle.fut_meaning.specs.Comes.{Program_lost};
ghost use Rattle.fut_meaning.specs.Flats.{flat_tops, named_terms};
ghost use Rattle.fut_meaning.specs.Found.{Sizing};
ghost use Rattle.fut_meaning.specs.Measures.{Measures};
ghost use Rattle.fut_typing.specs.Names.{Names};
ghost use Rattle.sizing_tables.specs.Claims.{Is_resolved};
ghost use Rattle.sizing_tables.specs.Told.{Is_sizing_of, told_with};
ghost use Rattle.told_rows.specs.Tables.{Tells, node_at};
ghost use Rattle.type_infer.specs.Inferring.{Numbers};
ghost use Rattle.typed_programs.specs.Known.{Is_known};
ghost use Rattle.typed_programs.specs.Typed.{integer_at};
ghost use Rattle.unfold.specs.Stuck.{Program_stuck};
ghost use Rattle.unfold_program.specs.Whole.{scalars};
ghost use Rattle.unfolded_runs.specs.Claims.{Is_usable};
ghost use Rattle.unfolded_runs.specs.Prepared.{Is_blocks, Is_past, Is_prepared, Is_sizing_told};
ghost use Rattle.unfolded_runs.specs.declared.preparing.PrepareErr.TheVariants as prepare_err;

use bumpalo::Bump;
use fut_blocks::Program;
use fut_flat::Flat;
use fut_meaning::{MeasureErr, Measured};
use fut_scalar::{BindId, DataType, IntType};
use sized_programs::SizedProgram;
use sizing_tables::sizing_tables;
use std::alloc::Global;
use told_rows::Sizes;
use unfold_measure::measure;
use unfold_program::{Refusal, Told, unfold};

/// Why a program is not ready to be run.
#[derive(Clone, Copy, Debug, PartialEq, Eq)]
pub enum PrepareErr {
    /// With its functions unfolded it has more than 1,048,576 nodes, or more than 1,000 of them inside each other.
    Nodes,
    Depth,
    /// Memory or names for scalars ran out, or one value is more than 1,000 deep or has more than 1,048,576 parts. It is answered
    /// too where unfolding goes deeper than 1,000, which no program within the limits comes to; that is not proved.
    Memory,
}

/// The measure of a program whose sizing these tables tell, which is within the limits.
fn measured<'a>(
    bump: &'a Bump,
    sizes: &'a Sizes<'a>,
    flat: &Flat<'a>,
    entry: BindId,
    params: &[DataType],
) -> Result<Measured, PrepareErr>
    requires found { (Z : Sizing) × Tells sizes.now Z × (Program_lost (Some Z) entry.0 (length params.now) (flat_tops 0 (named_terms flat.now)) → ⊥) }
    ensures measures { (Z : Sizing) → Tells sizes.now Z → IfOk result (λ m. Measures (Some Z) (flat_tops 0 (named_terms flat.now)) entry.0 (length params.now) (Ok m)) }
    ensures past { (Z : Sizing) → Tells sizes.now Z → IfErr result (Is_past flat.now Z entry params.now) }
{
    let Ok(count) = u32::try_from(params.len()) else {
        return Err(PrepareErr::Memory);
    };
    match measure(bump, flat, entry, count, Some(sizes)) {
        Ok(measured) => Ok(measured),
        Err(MeasureErr::Nodes) => Err(PrepareErr::Nodes),
        Err(MeasureErr::Depth) => Err(PrepareErr::Depth),
        Err(MeasureErr::Memory) => Err(PrepareErr::Memory),
    }
}

/// The tables of a program's sizing, held by the arena.
fn tables<'a>(
    alloc: Global,
    bump: &'a Bump,
    program: &SizedProgram<'a>,
) -> Result<&'a Sizes<'a>, PrepareErr>
    ensures ok { (Z : Sizing) → Is_sizing_told program.now Z → IfOk result (λ tables. Tells tables.now Z) }
    ensures memory { IfErr result (λ e. e ≡ prepare_err.Memory) }
{
    let accepted = program.accepted;
    let made = sizing_tables(
        alloc,
        bump,
        &accepted.flat,
        &accepted.inference.labels,
        &accepted.inference.table,
        program.sizing.nodes.as_slice(),
    );
    match made {
        Ok(tables) => match bump.try_alloc(tables) {
            Ok(held) => Ok(held),
            Err(_failed) => Err(PrepareErr::Memory),
        },
        Err(_) => Err(PrepareErr::Memory),
    }
}

/// The blocks of a program whose sizing these tables tell. What they are made of lies in the arena.
#[tactic(auto, using(crate::proofs::Blocks::blocks))]
fn blocks<'a>(
    bump: &'a Bump,
    integers: &[IntType],
    sizes: &'a Sizes<'a>,
    flat: &Flat<'a>,
    entry: BindId,
    params: &[DataType],
) -> Result<Program<'a>, PrepareErr>
    requires told { (Z : Sizing) × Tells sizes.now Z × (Program_stuck (told_with (integer_at integers.now) Z) (flat_tops 0 (named_terms flat.now)) entry.0 (scalars (length params.now)) → ⊥) }
    ensures ok { (Z : Sizing) → Tells sizes.now Z → IfOk result (Is_blocks flat.now (told_with (integer_at integers.now) Z) entry params.now) }
    ensures memory { IfErr result (λ e. e ≡ prepare_err.Memory) }
{
    let Ok(integers) = bump.try_alloc_slice_copy(integers) else {
        return Err(PrepareErr::Memory);
    };
    let Ok(params) = bump.try_alloc_slice_copy(params) else {
        return Err(PrepareErr::Memory);
    };
    let told = Told {
        types: integers,
        sizes: Some(sizes),
    };
    match unfold(bump, told, flat, entry, params) {
        Ok(program) => Ok(program),
        Err(Refusal::Memory) => Err(PrepareErr::Memory),
        Err(Refusal::Lost) => unreachable!(),
    }
}

/// The blocks of an accepted program from an entry on, whose parameters are of these types. They lie in the arena. Rows that are
/// missing and the sizes that data has to have are told by the program's sizing.
pub fn prepare<'a>(
    alloc: Global,
    bump: &'a Bump,
    program: &SizedProgram<'a>,
    entry: BindId,
    params: &[DataType],
) -> Result<Program<'a>, PrepareErr>
    requires known { Is_known program.now.accepted.now }
    requires resolved { Is_resolved program.now.accepted.now.flat }
    requires usable { (tuple : Bool) × (results : List Sort) × Is_usable program.now.accepted.now.flat program.now.accepted.now.inference entry params.now tuple results }
    ensures prepared { (Z : Sizing) → Is_sizing_told program.now Z → IfOk result (Is_prepared program.now.accepted.now.flat (told_with (integer_at program.now.accepted.now.integers) Z) entry params.now) }
    ensures refused { (Z : Sizing) → Is_sizing_told program.now Z → IfErr result (Is_past program.now.accepted.now.flat Z entry params.now) }
{
    let accepted = program.accepted;
    let sizes = tables(alloc, bump, program)?;
    let _measured = measured(bump, sizes, &accepted.flat, entry, params)?;
    blocks(
        bump,
        accepted.integers.as_slice(),
        sizes,
        &accepted.flat,
        entry,
        params,
    )
}
