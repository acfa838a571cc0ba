// Files by their numbers.
ghost use Rattle.std.specs.Prelude.{◌≡◌, map, option_map, reverse};
ghost use Rattle.elab_scopes.specs.Declarations.{State, decs_of as decs_in, loaded_at};
ghost use Rattle.elab_scopes.specs.Imports.{item};
ghost use Rattle.fut_tree.specs.Mods.{decs_of};
ghost use Rattle.elab_scopes.specs.Held.{module_ref_of};
ghost use Rattle.module_state.specs.Standing.{Does, Stands, loaded_of};
ghost use Rattle.module_state.specs.Written.{files_of};
ghost use Rattle.module_walk.specs.Steps.{now_loaded};

use elab_scopes::{ModuleRef, Stop};
use fut_tree::Dec;
use module_state::{Declaring, Loaded, SourceFile};

/// The declarations of a file.
pub fn file_decs<'a>(files: &'a [SourceFile<'a>], number: u32) -> &'a [Dec<'a>]
    ensures { decs_of result.now ≡ decs_in (item (files_of files.now) number) }
{
    let at = number as usize;
    if at < files.len() {
        let program = files[at].program;
        return program.decs;
    }
    &[]
}

/// The module of a file among those that were declared, the newest last.
fn loaded_among(loaded: &[Loaded], number: u32) -> Option<ModuleRef>
    ensures { option_map module_ref_of result ≡ loaded_at (reverse (map loaded_of loaded.now)) number }
{
    let mut left = loaded.len();
    while left > 0 {
        left -= 1;
        if loaded[left].file == number {
            return Some(loaded[left].module);
        }
    }
    None
}

/// The module of a file that was declared.
pub fn loaded_file<'a>(state: &Declaring<'a>, number: u32) -> Option<ModuleRef>
    ensures { (s : State) → Stands state.now s → option_map module_ref_of result ≡ loaded_at s.loaded number }
{
    loaded_among(state.loaded.as_slice(), number)
}

/// A file that was declared, by its module.
pub fn now_loaded<'a>(
    number: u32,
    made: ModuleRef,
    state: &mut Declaring<'a>,
) -> Result<ModuleRef, Stop<'a>>
    ensures { Does module_ref_of (now_loaded number (module_ref_of made)) state.old state.new result }
{
    match state.loaded.push(Loaded {
        file: number,
        module: made,
    }) {
        Ok(()) => Ok(made),
        Err(_) => Err(Stop::Memory),
    }
}
