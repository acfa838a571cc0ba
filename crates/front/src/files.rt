// From a path to the files of its program, and to the program that they are.
ghost use Rattle.std.specs.Prelude.{◌≡◌, IfErr, IfOk, OnOk, length};
ghost use Rattle.import_cycles.specs.Graphs.{Cycle_is};
ghost use Rattle.module_state.specs.Written.{file_of, files_of};
ghost use Rattle.front.specs.Acceptance.{IsPreludeText};
ghost use Rattle.front.specs.declared.refusals.Refused.TheVariants as Refused;
ghost use Rattle.front.specs.Stages.{Are_sources, Explains, Is_accepted, Is_prelude_file, Is_refused_in, Stand_behind, unread_as};

use crate::accepting::accept_files;
use crate::reading::{Prelude, prelude_tree};
use crate::refusals::{Refused, RefusedFile, refused_at};
use bumpalo::Bump;
use bumpalo::collections::into_bump_slice;
use fut_io::Loader;
use fut_scalar::{Name, NoMemory};
use fut_tree::Program;
use import_cycles::first_cycle;
use import_rows::import_rows;
use module_elab::PRELUDE_PATH;
use module_state::SourceFile;
use sized_programs::SizedProgram;
use source_files::{Unread, path_at, read_files};
use std::alloc::Global;

/// An accepted program, and its files in load order, the prelude first.
#[derive(Clone, Copy)]
pub struct AcceptedFiles<'a> {
    pub files: &'a [SourceFile<'a>],
    pub program: SizedProgram<'a>,
}

/// A tree, held by the arena.
fn held<'a>(bump: &'a Bump, program: Program<'a>) -> Result<&'a Program<'a>, NoMemory>
    ensures { IfOk result (λ held. held.now ≡ program.entry) }
{
    match bump.try_alloc(program) {
        Ok(at) => Ok(at),
        Err(_failed) => Err(NoMemory),
    }
}

/// The prelude among files.
#[tactic(auto, using(crate::proofs::Gathering::gathering))]
fn prelude_file<'a>(bump: &'a Bump, prelude: &'a Prelude) -> Result<SourceFile<'a>, NoMemory>
    requires prelude { IsPreludeText prelude.now.tokens }
    ensures { IfOk result (λ file. Is_prelude_file (file_of file)) }
{
    let program = prelude_tree(bump, prelude)?;
    Ok(SourceFile {
        path: PRELUDE_PATH,
        program: held(bump, program)?,
    })
}

/// The prelude and files behind it.
#[tactic(auto, using(crate::proofs::Gathering::gathering))]
fn with_prelude<'a>(
    bump: &'a Bump,
    prelude: &'a Prelude,
    files: &'a [SourceFile<'a>],
) -> Result<&'a [SourceFile<'a>], NoMemory>
    requires prelude { IsPreludeText prelude.now.tokens }
    ensures { IfOk result (λ all. Stand_behind (files_of files.now) (files_of all.now)) }
{
    let mut all = Vec::new(bump);
    match all.push(prelude_file(bump, prelude)?) {
        Ok(()) => (),
        Err(_) => return Err(NoMemory),
    }
    match all.extend_from_slice(files) {
        Ok(()) => Ok(into_bump_slice(all)),
        Err(_) => Err(NoMemory),
    }
}

/// Memory ran out.
fn out_of_memory(alloc: Global) -> RefusedFile
    ensures { result.why ≡ Refused.Memory }
{
    RefusedFile {
        path: Name::from_string(String::new(alloc)),
        why: Refused::Memory,
    }
}

/// Why files are not read, as a refusal.
fn unread_as(why: Unread) -> Refused
    ensures { result ≡ unread_as why }
{
    match why {
        Unread::Memory => Refused::Memory,
        why => Refused::Unread(why),
    }
}

/// A refusal in the file of this number.
fn refused_in(alloc: Global, files: &[SourceFile<'_>], number: u32, why: Refused) -> RefusedFile
    ensures { Is_refused_in (files_of files.now) number why result.path result.why }
{
    match Name::new(alloc, path_at(files, number)) {
        Ok(path) => RefusedFile { path, why },
        Err(_) => out_of_memory(alloc),
    }
}

/// The files of the program that begins with the file at a path, in load order, the prelude first.
#[tactic(auto, using(crate::proofs::Gathering::gathering))]
fn sources<'a, L: Loader>(
    alloc: Global,
    bump: &'a Bump,
    prelude: &'a Prelude,
    loader: &mut L,
    file: &'a str,
) -> Result<&'a [SourceFile<'a>], RefusedFile>
    requires prelude { IsPreludeText prelude.now.tokens }
    ensures ok { IfOk result (λ all. Are_sources (L.seen loader.old) file.now (files_of all.now)) }
    ensures same { OnOk result (L.seen loader.new ≡ L.seen loader.old) }
    ensures err { IfErr result (λ e. Explains file.now (L.seen loader.old) (L.seen loader.new) e.path e.why) }
{
    let files = match read_files(alloc, bump, loader, file) {
        Ok(files) => files,
        Err(unread) => {
            return Err(RefusedFile {
                path: unread.path,
                why: unread_as(unread.why),
            });
        }
    };
    match with_prelude(bump, prelude, files) {
        Ok(all) => Ok(all),
        Err(_) => Err(out_of_memory(alloc)),
    }
}

/// The number of the first file, in load order, that imports itself, or none. The prelude is file 0.
fn cycle<'a>(
    alloc: Global,
    bump: &'a Bump,
    files: &'a [SourceFile<'a>],
) -> Result<Option<u32>, NoMemory>
    ensures { IfOk result (λ number. Cycle_is (files_of files.now) (length files.now) number) }
{
    let rows = import_rows(files, bump)?;
    first_cycle(alloc, rows)
}

/// The program that begins with the file at a path: its files in load order, and what they are; or why it is not accepted, and the
/// path of the file in which that stands. Its trees lie in the arena.
///
/// A file is loaded, lexed and parsed before the next is loaded. A cycle of imports goes before all refusals of names. The cost is
/// linear in the texts, but for what imports, types, sizes and the sets of aliases cost.
pub fn accept<'a, L: Loader>(
    alloc: Global,
    bump: &'a Bump,
    prelude: &'a Prelude,
    loader: &mut L,
    file: &'a str,
) -> Result<AcceptedFiles<'a>, RefusedFile>
    requires prelude { IsPreludeText prelude.now.tokens }
    ensures accepted { IfOk result (λ it. Is_accepted (L.seen loader.old) file.now it.program.accepted.now it.program.sizing.now (files_of it.files.now)) }
    ensures same { OnOk result (L.seen loader.new ≡ L.seen loader.old) }
    ensures refused { IfErr result (λ e. Explains file.now (L.seen loader.old) (L.seen loader.new) e.path e.why) }
{
    let files = match sources(alloc, bump, prelude, loader, file) {
        Ok(files) => files,
        Err(refused) => return Err(refused),
    };
    match cycle(alloc, bump, files) {
        Ok(None) => (),
        Ok(Some(number)) => return Err(refused_in(alloc, files, number, Refused::ImportCycle)),
        Err(NoMemory) => return Err(out_of_memory(alloc)),
    }
    match accept_files(alloc, bump, files) {
        Ok(program) => Ok(AcceptedFiles { files, program }),
        Err(why) => {
            let number = refused_at(&why);
            Err(refused_in(alloc, files, number, why))
        }
    }
}
