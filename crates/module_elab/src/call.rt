// The call.
ghost use Rattle.std.specs.Prelude.{◌≡◌, IfErr, IfOk, Ok};
ghost use Rattle.elab_scopes.specs.Elaboration.{Elaborates};
ghost use Rattle.module_elab.specs.Closing.{Closes};
ghost use Rattle.module_elab.specs.Elaborated.{Tells, program_of};
ghost use Rattle.module_state.specs.Written.{files_of};

use crate::refused::ModErr;
use bumpalo::Bump;
use bumpalo::collections::into_bump_slice;
use fut_flat::Flat;
use fut_scalar::NoMemory;
use module_state::{Declaring, SourceFile, Sources};
use module_walk::declared_files;
use std::alloc::Global;

/// How deep modules are looked at in one another: deeper than files nest them, and no deeper than the stack goes.
const MODULE_DEPTH: u32 = 4096;

/// The flat program of all that was declared.
fn closed<'a>(bump: &'a Bump, declared: Declaring<'a>) -> Result<Flat<'a>, NoMemory>
    ensures { IfOk result (Closes declared.entry) }
{
    match declared.names.texts(bump) {
        Ok(names) => Ok(Flat {
            definitions: into_bump_slice(declared.definitions),
            names,
        }),
        Err(_) => Err(NoMemory),
    }
}

/// The flat program of files, held by the arena, or the first refusal in order of text. File 0 is the prelude, whose names all
/// files see; file 1 is run, and the others stand behind it, in the order in which they are loaded.
#[tactic(auto, using(crate::proofs::Whole::telling))]
pub fn elaborate<'a>(
    alloc: Global,
    bump: &'a Bump,
    files: &'a [SourceFile<'a>],
) -> Result<Flat<'a>, ModErr<'a>>
    ensures program { IfOk result (λ flat. Elaborates (files_of files.now) (Ok (program_of flat))) }
    ensures refusal { IfErr result (Tells (Elaborates (files_of files.now))) }
{
    match declared_files(alloc, Sources { files, bump }, MODULE_DEPTH) {
        Ok(declared) => match closed(bump, declared.state) {
            Ok(flat) => Ok(flat),
            Err(_) => Err(ModErr::Memory),
        },
        Err(stop) => Err(ModErr::of(stop)),
    }
}
