//! The numbers of the files that each file of a program imports.
//!
//! `file_order/specs/Order.antt` says which these are (`imports_of`). From them `import_cycles` tells the first file that imports
//! itself.
#![tactic(auto)]

ghost use Rattle.std.specs.Prelude.{◌≡◌, ◌<◌, ◌++◌, [], IfOk, OnOk, length};
ghost use Rattle.fut_tree.specs.Names.{names};
ghost use Rattle.elab_scopes.specs.Imports.{file_number, imported_file};
ghost use Rattle.file_order.specs.Order.{and_known, imports_of, numbers_of};
ghost use Rattle.import_cycles.specs.Graphs.{Are_imports, Within};
ghost use Rattle.module_state.specs.Written.{files_of};

use bumpalo::Bump;
use bumpalo::collections::into_bump_slice;
use file_imports::imports;
use file_paths::imported_path;
use fut_scalar::NoMemory;
use module_state::SourceFile;
use source_files::file_number;

/// The number of the file at a path, or none.
fn number_at(files: &[SourceFile<'_>], path: &str) -> Result<Option<u32>, NoMemory>
    ensures { IfOk result (λ number. number ≡ file_number (files_of files.now) path.now) }
{
    match file_number(files, path) {
        None => Ok(None),
        Some(at) => match u32::try_from(at) {
            Ok(number) => Ok(Some(number)),
            Err(_) => Err(NoMemory),
        },
    }
}

/// The number of the file that a text names in the file behind so many others, or none.
fn imported_number<'a>(
    files: &'a [SourceFile<'a>],
    from: usize,
    text: &str,
    bump: &'a Bump,
) -> Result<Option<u32>, NoMemory>
    requires { from < length files.now }
    ensures { IfOk result (λ number. number ≡ imported_file (files_of files.now) from text.now) }
{
    let path = imported_path(files[from].path, text, bump)?;
    number_at(files, path)
}

/// Puts the number of the file that a text names behind others, where there is such a file.
fn put_number<'a>(
    files: &'a [SourceFile<'a>],
    from: usize,
    text: &str,
    bump: &'a Bump,
    row: &mut Vec<u32, &'a Bump>,
) -> Result<(), NoMemory>
    requires { from < length files.now }
    ensures { OnOk result (row.new.items ≡ row.old.items ++ and_known (imported_file (files_of files.now) from text.now) []) }
{
    match imported_number(files, from, text, bump)? {
        None => Ok(()),
        Some(number) => match row.push(number) {
            Ok(()) => Ok(()),
            Err(_) => Err(NoMemory),
        },
    }
}

/// Puts the numbers of the files that texts name behind others.
fn put_numbers<'a>(
    files: &'a [SourceFile<'a>],
    from: usize,
    texts: &[&'a str],
    bump: &'a Bump,
    row: &mut Vec<u32, &'a Bump>,
) -> Result<(), NoMemory>
    requires { from < length files.now }
    ensures { OnOk result (row.new.items ≡ row.old.items ++ numbers_of (files_of files.now) from (names texts.now)) }
{
    for text in texts {
        put_number(files, from, *text, bump, row)?;
    }
    Ok(())
}

/// The numbers of the files that the file behind so many others imports, in the order of its text.
fn row_of<'a>(files: &'a [SourceFile<'a>], at: usize, bump: &'a Bump) -> Result<&'a [u32], NoMemory>
    requires { at < length files.now }
    ensures { IfOk result (λ row. row.now ≡ imports_of (files_of files.now) at) }
{
    let texts = imports(files[at].program, bump)?;
    let mut row = Vec::new(bump);
    put_numbers(files, at, texts, bump, &mut row)?;
    Ok(into_bump_slice(row))
}

/// The numbers of the files that each file imports, file 0 being the prelude. They lie in the arena.
///
/// Each import is looked for among the files, which are few, so the cost is the product of files and imports.
#[tactic(auto, using(crate::proofs::Rows::rows_so_far))]
pub fn import_rows<'a>(
    files: &'a [SourceFile<'a>],
    bump: &'a Bump,
) -> Result<&'a [&'a [u32]], NoMemory>
    ensures imports { IfOk result (λ rows. Are_imports (files_of files.now) rows.now) }
    ensures within { IfOk result (λ rows. Within rows.now) }
    ensures length { IfOk result (λ rows. length rows.now ≡ length files.now) }
{
    let mut rows = Vec::new(bump);
    let mut at = 0;
    while at < files.len() {
        let row = row_of(files, at, bump)?;
        match rows.push(row) {
            Ok(()) => (),
            Err(_) => return Err(NoMemory),
        }
        at += 1;
    }
    Ok(into_bump_slice(rows))
}
