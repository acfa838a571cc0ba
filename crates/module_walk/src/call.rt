// What files declare.
ghost use Rattle.elab_scopes.specs.Declarations.{State, starting_with, walks};
ghost use Rattle.elab_scopes.specs.Held.{module_ref_of};
ghost use Rattle.module_state.specs.Standing.{Does, Stands};
ghost use Rattle.module_state.specs.Written.{files_of};
ghost use Rattle.module_walk.specs.Told.{Files_declared};
ghost use Rattle.module_walk.specs.Steps.{both_files, second_file};

use crate::walk::file_of;
use elab_scopes::{Members, ModuleRef, Names, Stop, no_members};
use fut_scalar::List;
use module_members::members_in;
use module_state::{Declaring, Sources, contents_of};
use std::alloc::Global;

/// What files declare: the module of the file that is run, and all that was declared.
#[derive(Drop)]
pub struct DeclaredFiles<'a> {
    pub made: ModuleRef,
    pub state: Declaring<'a>,
}

/// Files that are declared from here on start with these names.
fn start_with<'a>(members: &'a Members<'a>, state: &mut Declaring<'a>)
    ensures { (s : State) → Stands state.old s → Stands state.new (starting_with members.now s) }
{
    state.start = members;
}

/// The file that is run, which sees the members of the prelude.
#[tactic(auto, using(module_state::proofs::Stands::standing))]
fn second_file<'a>(
    prelude: ModuleRef,
    sources: Sources<'a>,
    state: &mut Declaring<'a>,
    depth: u32,
) -> Result<ModuleRef, Stop<'a>>
    ensures { Does module_ref_of (second_file (walks (files_of sources.entry.files.now) depth) (module_ref_of prelude)) state.old state.new result }
{
    let contents = match contents_of(state.names.modules(), prelude, sources.bump) {
        Ok(contents) => contents,
        Err(_) => return Err(Stop::Memory),
    };
    match members_in(contents, sources.bump) {
        Ok(members) => {
            start_with(members, state);
            file_of(1, sources, state, depth)
        }
        Err(_) => Err(Stop::Memory),
    }
}

/// The prelude, and then the file that is run.
fn both_files<'a>(
    sources: Sources<'a>,
    state: &mut Declaring<'a>,
    depth: u32,
) -> Result<ModuleRef, Stop<'a>>
    ensures { Does module_ref_of (both_files (walks (files_of sources.entry.files.now) depth)) state.old state.new result }
{
    match file_of(0, sources, state, depth) {
        Ok(prelude) => second_file(prelude, sources, state, depth),
        Err(stop) => Err(stop),
    }
}

/// What files declare, or the first refusal. File 0 is the prelude, whose members each file starts with; file 1 is run, and the
/// others are declared where they are imported. Modules are looked at up to this depth in one another.
#[tactic(auto, using(crate::proofs::Calling::no_memory_is_left))]
pub fn declared_files<'a>(
    alloc: Global,
    sources: Sources<'a>,
    depth: u32,
) -> Result<DeclaredFiles<'a>, Stop<'a>>
    ensures { Files_declared (files_of sources.entry.files.now) result }
{
    let none = match no_members(sources.bump) {
        Ok(none) => none,
        Err(_) => return Err(Stop::Memory),
    };
    let mut state = Declaring {
        names: Names::new(alloc),
        functors: List::new(alloc),
        signatures: List::new(alloc),
        definitions: Vec::new(sources.bump),
        applications: 0,
        start: none,
        loaded: List::new(alloc),
    };
    match both_files(sources, &mut state, depth) {
        Ok(made) => Ok(DeclaredFiles { made, state }),
        Err(stop) => Err(stop),
    }
}
