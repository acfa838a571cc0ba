// Files by their paths.
ghost use Rattle.std.specs.Prelude.{◌≡◌, IfOk};
ghost use Rattle.elab_scopes.specs.Imports.{file_number, imported_file, item, path_of};
ghost use Rattle.module_state.specs.Written.{files_of};

use file_paths::imported_path;
use fut_scalar::NoMemory;
use module_state::{SourceFile, Sources};

/// The path of a file.
#[tactic(auto, using(crate::proofs::ImportLaws::paths))]
fn path_of<'a>(files: &'a [SourceFile<'a>], number: u32) -> &'a str
    ensures { result.now ≡ path_of (item (files_of files.now) number) }
{
    let at = number as usize;
    if at < files.len() {
        return files[at].path;
    }
    ""
}

/// The number of the first file with a path.
#[tactic(auto, using(crate::proofs::ImportLaws::searches))]
fn file_number<'a>(files: &'a [SourceFile<'a>], path: &str) -> Result<Option<u32>, NoMemory>
    ensures { IfOk result (λ found. found ≡ file_number (files_of files.now) path.now) }
{
    let mut at = 0usize;
    while at < files.len() {
        if files[at].path == path {
            return match u32::try_from(at) {
                Ok(number) => Ok(Some(number)),
                Err(_) => Err(NoMemory),
            };
        }
        at += 1;
    }
    Ok(None)
}

/// The number of the file that a text names in a file.
pub fn imported_file<'a>(
    sources: Sources<'a>,
    from: u32,
    name: &'a str,
) -> Result<Option<u32>, NoMemory>
    ensures { IfOk result (λ found. found ≡ imported_file (files_of sources.entry.files.now) from name.now) }
{
    match imported_path(path_of(sources.files, from), name, sources.bump) {
        Ok(path) => file_number(sources.files, path),
        Err(_) => Err(NoMemory),
    }
}
