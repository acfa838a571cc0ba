// The definition at which a run begins.
ghost use Rattle.std.specs.Prelude.{◌≡◌, ◌<◌, Some, None, IfOk, IfErr, length, slice_index_or};
ghost use Rattle.entry_sizes.specs.Wanted.{Because, wanted_of};
ghost use Rattle.size_program.specs.Tables.{node_at};
ghost use Rattle.fut_flat.specs.declared.program.Definition.{Definition as TheDefinition};
ghost use Rattle.typed_programs.specs.EntryTypes.{number_of};
ghost use Rattle.typed_programs.specs.Known.{Is_known};
ghost use Rattle.futhark_core.specs.Private.Finding.{Is_found, Not_found};

use bumpalo::Bump;
use entry_sizes::{WantedErr, wanted_arguments};
use front::{SizedProgram, entry_at};
use fut_flat::Flat;
use fut_scalar::{ArgType, BindId, DataType, List};
use futhark_status::EntryErr;
use sized_programs::size_at;
use std::alloc::Global;
use typed_programs::{EntryType, EntryTypeErr, entry_type, number_of_name};

/// A definition at which a run begins.
#[derive(Drop)]
pub struct Entry {
    /// Its place in the row of definitions.
    pub at: usize,
    pub number: BindId,
    pub ty: EntryType,
    /// What it wants of its arguments.
    pub wanted: List<ArgType>,
}

/// Why no run begins under a name.
#[derive(Clone, Copy)]
pub enum FindErr {
    Entry(EntryErr),
    Memory,
}

/// What a definition wants of arguments of these types, by the sized type of its name.
fn wanted_by<'a>(
    alloc: Global,
    bump: &'a Bump,
    program: &SizedProgram<'a>,
    at: usize,
    params: &[DataType],
) -> Result<List<ArgType>, WantedErr>
    requires within { at < length program.now.accepted.now.flat.definitions.now }
    ensures ok { IfOk result (λ wanted. wanted_of params.now (node_at program.now.sizing.now.nodes (number_of program.now.accepted.now.flat at)) ≡ Some wanted) }
    ensures err { IfErr result (Because (wanted_of params.now (node_at program.now.sizing.now.nodes (number_of program.now.accepted.now.flat at)) ≡ None)) }
{
    let Ok(number) = number_of_name(alloc, &program.accepted.flat, at) else {
        return Err(WantedErr::Memory);
    };
    let Ok(tree) = size_at(program.sizing, number, bump) else {
        return Err(WantedErr::Memory);
    };
    wanted_arguments(alloc, tree, params)
}

/// The number of the name of a definition.
fn bind_of(flat: &Flat<'_>, at: usize) -> BindId
    requires { at < length flat.now.definitions.now }
    ensures { (other : TheDefinition) → (slice_index_or flat.now.definitions.now at other).bind.0 ≡ result.0 }
{
    flat.definitions[at].bind
}

/// The definition at which a run begins under a name, with its type and what it wants of its arguments.
pub fn find_entry<'a>(
    alloc: Global,
    bump: &'a Bump,
    program: &SizedProgram<'a>,
    name: &str,
) -> Result<Entry, FindErr>
    requires known { Is_known program.now.accepted.now }
    ensures ok { IfOk result (Is_found program.now.accepted.now program.now.sizing.now name.now) }
    ensures err { IfErr result (Not_found program.now.accepted.now program.now.sizing.now name.now) }
{
    let flat = &program.accepted.flat;
    let Some(at) = entry_at(flat, name) else {
        return Err(FindErr::Entry(EntryErr::NoEntry));
    };
    let ty = match entry_type(alloc, flat, &program.accepted.inference, at) {
        Ok(ty) => ty,
        Err(EntryTypeErr::Outside) => return Err(FindErr::Entry(EntryErr::OutsideProfile)),
        Err(EntryTypeErr::Memory) => return Err(FindErr::Memory),
    };
    match wanted_by(alloc, bump, program, at, ty.params.as_slice()) {
        Ok(wanted) => Ok(Entry {
            at,
            number: bind_of(flat, at),
            ty,
            wanted,
        }),
        Err(WantedErr::Outside) => Err(FindErr::Entry(EntryErr::OutsideProfile)),
        Err(WantedErr::Memory) => Err(FindErr::Memory),
    }
}
