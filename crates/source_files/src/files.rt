// All files of a program, in the order in which they are read.
ghost use Rattle.std.specs.Prelude.{◌≡◌, ◌<◌, ◌+◌, [], ◌∷◌, ◌++◌, IfErr, IfOk, OnOk, is_some, length, map, reverse};
ghost use Rattle.std.specs.Str.{bytes_eq};
ghost use Rattle.fut_ast.specs.Sorts.{Text};
ghost use Rattle.fut_tree.specs.Names.{maybe, names};
ghost use Rattle.elab_scopes.specs.Imports.{file_number, imported_path, item, path_of};
ghost use Rattle.module_state.specs.Written.{file_of, files_of};
ghost use Rattle.source_files.specs.Files.{Are_read, Ends_reading, Goes_on, Is_one_too_many, Is_unread_at};
ghost use Rattle.source_files.specs.declared.reading.Unread.TheVariants as Unread;
ghost use Rattle.source_files.specs.Reading.{Is_left, Reading, imported_paths};

use crate::reading::{Unread, read_file};
use bumpalo::Bump;
use bumpalo::collections::into_bump_slice;
use file_imports::imports;
use file_paths::imported_path;
use fut_io::Loader;
use fut_scalar::{List, Name, NoMemory};
use module_state::SourceFile;
use std::alloc::Global;

/// How many files a program may have. The prelude is not counted.
pub const MOST_FILES: usize = 256;

/// Why the files of a program are not read: the path at which reading ended, which is empty for want of memory, and the reason.
#[derive(Debug, Drop)]
pub struct UnreadFile {
    pub path: Name,
    pub why: Unread,
}

/// Memory ran out.
fn out_of_memory(alloc: Global) -> UnreadFile
    ensures { result.why ≡ Unread.Memory }
{
    UnreadFile {
        path: Name::from_string(String::new(alloc)),
        why: Unread::Memory,
    }
}

/// Whether a file has this path.
fn has_path(file: SourceFile<'_>, path: &str) -> bool
    ensures { result ≡ bytes_eq file.entry.path.now path.now }
{
    file.path == path
}

/// The number of the first file at a path, from 0 on, or none.
pub fn file_number(files: &[SourceFile<'_>], path: &str) -> Option<usize>
    ensures { result ≡ file_number (files_of files.now) path.now }
{
    let mut at = 0;
    while at < files.len() {
        if has_path(files[at], path) {
            return Some(at);
        }
        at += 1;
    }
    None
}

/// The path of the file with a number, from 0 on; an empty one where there is no such file.
#[tactic(auto, using(crate::proofs::Finding::paths))]
pub fn path_at<'a>(files: &[SourceFile<'a>], number: u32) -> &'a str
    ensures { result.now ≡ path_of (item (files_of files.now) number) }
{
    let at = number as usize;
    if at < files.len() {
        return files[at].path;
    }
    ""
}

/// Whether a file at this path is among the files.
fn is_known(files: &[SourceFile<'_>], path: &str) -> bool
    ensures { result ≡ is_some (file_number (files_of files.now) path.now) }
{
    file_number(files, path).is_some()
}

/// The next path at which no file was read, or none. Paths are taken from the end.
fn next_unknown<'a>(
    files: &Vec<SourceFile<'a>, &'a Bump>,
    pending: &mut List<&'a str>,
) -> Option<&'a str>
    ensures { (file : Text) → Reading file (files_of files.now.items) (reverse (names pending.old)) → Is_left file (files_of files.now.items) (reverse (names pending.new)) (maybe result) }
{
    while let Some(path) = pending.pop() {
        if !is_known(files.as_slice(), path) {
            return Some(path);
        }
    }
    None
}

/// Puts the path that a text names in a file before those that are still to be looked at: at the end.
fn put_path<'a>(
    from: &'a str,
    text: &'a str,
    bump: &'a Bump,
    pending: &mut List<&'a str>,
) -> Result<(), NoMemory>
    ensures { OnOk result (reverse (names pending.new) ≡ imported_path from.now text.now ∷ reverse (names pending.old)) }
{
    let path = imported_path(from, text, bump)?;
    pending.push(path)
}

/// Puts the paths that texts name in a file before those that are still to be looked at, the last one first.
#[tactic(auto, using(crate::proofs::Putting::puts))]
fn put_paths<'a>(
    from: &'a str,
    texts: &[&'a str],
    bump: &'a Bump,
    pending: &mut List<&'a str>,
) -> Result<(), NoMemory>
    ensures { OnOk result (reverse (names pending.new) ≡ map (imported_path from.now) (names texts.now) ++ reverse (names pending.old)) }
{
    let mut left = texts.len();
    while left > 0 {
        left -= 1;
        put_path(from, texts[left], bump, pending)?;
    }
    Ok(())
}

/// Puts the paths that a file imports before those that are still to be looked at.
fn put_imports<'a>(
    file: SourceFile<'a>,
    bump: &'a Bump,
    pending: &mut List<&'a str>,
) -> Result<(), NoMemory>
    ensures { OnOk result (reverse (names pending.new) ≡ imported_paths (file_of file.entry) ++ reverse (names pending.old)) }
{
    let texts = imports(file.program, bump)?;
    put_paths(file.path, texts, bump, pending)
}

/// Puts a file behind others, and the paths that it imports before those that are still to be looked at.
#[tactic(auto, using(crate::proofs::Putting::file_put))]
fn put_file<'a>(
    file: SourceFile<'a>,
    bump: &'a Bump,
    files: &mut Vec<SourceFile<'a>, &'a Bump>,
    pending: &mut List<&'a str>,
) -> Result<(), NoMemory>
    ensures files { OnOk result (files_of files.new.items ≡ files_of files.old.items ++ file_of file.entry ∷ []) }
    ensures pending { OnOk result (reverse (names pending.new) ≡ imported_paths (file_of file.entry) ++ reverse (names pending.old)) }
{
    match files.push(file) {
        Ok(()) => put_imports(file, bump, pending),
        Err(_) => Err(NoMemory),
    }
}

/// Reads the file at a path, which has this number, and puts it behind others. The path that a refusal needs is copied before
/// anything is loaded.
fn read_next<'a, L: Loader>(
    alloc: Global,
    bump: &'a Bump,
    loader: &mut L,
    number: u32,
    path: &'a str,
    files: &mut Vec<SourceFile<'a>, &'a Bump>,
    pending: &mut List<&'a str>,
) -> Result<(), UnreadFile>
    ensures ok { OnOk result (Goes_on (L.seen loader.old) number path.now (files_of files.old.items) (files_of files.new.items) (reverse (names pending.old)) (reverse (names pending.new))) }
    ensures same { OnOk result (L.seen loader.new ≡ L.seen loader.old) }
    ensures err { IfErr result (λ e. Is_unread_at (L.seen loader.old) (L.seen loader.new) number path.now e.path e.why) }
{
    let Ok(name) = Name::new(alloc, path) else {
        return Err(out_of_memory(alloc));
    };
    let file = match read_file(alloc, bump, loader, number, path) {
        Ok(file) => file,
        Err(why) => return Err(UnreadFile { path: name, why }),
    };
    match put_file(file, bump, files, pending) {
        Ok(()) => Ok(()),
        Err(NoMemory) => Err(out_of_memory(alloc)),
    }
}

/// There are too many files: at this path reading ends.
fn too_many(alloc: Global, path: &str) -> UnreadFile
    ensures { Is_one_too_many path.now result.path result.why }
{
    match Name::new(alloc, path) {
        Ok(path) => UnreadFile {
            path,
            why: Unread::TooMany,
        },
        Err(_) => out_of_memory(alloc),
    }
}

/// The number of the next file: the prelude has 0, and the first file 1.
fn number_behind(files: &Vec<SourceFile<'_>, &Bump>) -> u32
    requires { length files.now.items < MOST_FILES }
    ensures { result ≡ length files.now.items + 1 }
{
    files.len() as u32 + 1
}

/// The path of the named file, which is the first to be looked at.
fn first_pending<'a>(alloc: Global, file: &'a str) -> Result<List<&'a str>, NoMemory>
    ensures { IfOk result (λ pending. names pending ≡ file.now ∷ []) }
{
    let mut pending = List::new(alloc);
    pending.push(file)?;
    Ok(pending)
}

/// The files of a program in the order in which they are read, without the prelude; or the path at which reading ended, and why.
/// Trees, paths and tokens lie in the arena.
///
/// The cost is linear in the texts, but that each import is looked for among the files, which are 256 at most.
#[tactic(auto, using(crate::proofs::Steps::reads))]
pub fn read_files<'a, L: Loader>(
    alloc: Global,
    bump: &'a Bump,
    loader: &mut L,
    file: &'a str,
) -> Result<&'a [SourceFile<'a>], UnreadFile>
    ensures read { IfOk result (λ files. Are_read (L.seen loader.old) file.now (files_of files.now)) }
    ensures same { OnOk result (L.seen loader.new ≡ L.seen loader.old) }
    ensures err { IfErr result (λ e. Ends_reading file.now (L.seen loader.old) (L.seen loader.new) e.path e.why) }
{
    let mut files = Vec::new(bump);
    let Ok(mut pending) = first_pending(alloc, file) else {
        return Err(out_of_memory(alloc));
    };
    for _ in 0..MOST_FILES {
        let Some(path) = next_unknown(&files, &mut pending) else {
            return Ok(into_bump_slice(files));
        };
        let number = number_behind(&files);
        match read_next(alloc, bump, loader, number, path, &mut files, &mut pending) {
            Ok(()) => (),
            Err(unread) => return Err(unread),
        }
    }
    match next_unknown(&files, &mut pending) {
        None => Ok(into_bump_slice(files)),
        Some(path) => Err(too_many(alloc, path)),
    }
}
