//! The path of the file that an import names.
//!
//! `import "p"` in the file at the path `d/x.fut` reads `d/p.fut`; `.` and `..` are taken out of the path as far as that goes
//! (Futhark Language Reference, "Referencing Other Files"). `elab_scopes/specs/Imports.antt` says so.
#![tactic(auto)]

ghost use Rattle.std.specs.Prelude.{◌≡◌, ◌∷◌, ◌++◌, [], IfOk, OnOk, codes};
ghost use Rattle.std.specs.Str.{bytes_eq};
ghost use Rattle.fut_tree.specs.Names.{names};
ghost use Rattle.elab_scopes.specs.Imports.{folder, imported_path, segments, slashed, tidied, upwards};
ghost use Rattle.file_paths.specs.Segments.{is_fixed, newest, with_segment};

use bumpalo::Bump;
use fut_scalar::NoMemory;

/// Puts what stands between the slashes of a path behind other segments.

fn put_segments<'a>(path: &'a str, behind: &mut Vec<&'a str, &'a Bump>) -> Result<(), NoMemory>
    ensures { OnOk result (names behind.new.items ≡ names behind.old.items ++ segments path.now) }
{
    for segment in path.split('/') {
        match behind.push(segment) {
            Ok(()) => (),
            Err(_) => return Err(NoMemory),
        }
    }
    Ok(())
}

/// Whether a segment is `.`.
fn is_here(segment: &str) -> bool
    ensures { result ≡ bytes_eq segment.now (codes ".") }
{
    segment == "."
}

/// Whether a segment is `..`.
fn is_up(segment: &str) -> bool
    ensures { result ≡ bytes_eq segment.now (codes "..") }
{
    segment == ".."
}

/// Whether a segment stays where it is when `..` comes behind it.
fn is_fixed(segment: &str) -> bool
    ensures { result ≡ is_fixed segment.now }
{
    segment.is_empty() || is_up(segment)
}

/// Puts a segment behind others.
fn put<'a>(segment: &'a str, path: &mut Vec<&'a str, &'a Bump>) -> Result<(), NoMemory>
    ensures { OnOk result (path.new.items ≡ path.old.items ++ segment.entry ∷ []) }
{
    match path.push(segment) {
        Ok(()) => Ok(()),
        Err(_) => Err(NoMemory),
    }
}

/// Puts `..` behind the segments of a tidy path.
fn go_up<'a>(path: &mut Vec<&'a str, &'a Bump>) -> Result<(), NoMemory>
    ensures { OnOk result (newest path.new.items ≡ upwards (newest path.old.items)) }
{
    match path.pop() {
        None => put("..", path),
        Some(last) => {
            if !is_fixed(last) {
                return Ok(());
            }
            put(last, path)?;
            put("..", path)
        }
    }
}

/// Puts one more segment behind those of a tidy path: `.` is left out, and `..` takes the one before it away.

fn put_tidied<'a>(segment: &'a str, path: &mut Vec<&'a str, &'a Bump>) -> Result<(), NoMemory>
    ensures { OnOk result (newest path.new.items ≡ with_segment segment.now (newest path.old.items)) }
{
    if is_here(segment) {
        return Ok(());
    }
    if is_up(segment) {
        return go_up(path);
    }
    put(segment, path)
}

/// The tidy path of these segments.

fn put_all_tidied<'a>(
    segments: &[&'a str],
    path: &mut Vec<&'a str, &'a Bump>,
) -> Result<(), NoMemory>
    requires { path.now.items ≡ [] }
    ensures { OnOk result (names path.new.items ≡ tidied [] (names segments.now)) }
{
    for segment in segments {
        match put_tidied(*segment, path) {
            Ok(()) => (),
            Err(NoMemory) => return Err(NoMemory),
        }
    }
    Ok(())
}

/// A segment and others with slashes between them.
#[tactic(auto, using(crate::proofs::Joining::text_begins))]
fn joined<'a>(first: &'a str, rest: &[&'a str], bump: &'a Bump) -> Result<&'a str, NoMemory>
    ensures { IfOk result (λ path. path.now ≡ slashed (first.now ∷ names rest.now)) }
{
    let mut path = match String::from_str(bump, first) {
        Ok(path) => path,
        Err(_) => return Err(NoMemory),
    };
    for next in rest {
        match path.push_str("/") {
            Ok(()) => (),
            Err(_) => return Err(NoMemory),
        }
        match path.push_str(*next) {
            Ok(()) => (),
            Err(_) => return Err(NoMemory),
        }
    }
    match bump.try_alloc_str(path.as_str()) {
        Ok(path) => Ok(path),
        Err(_) => Err(NoMemory),
    }
}

/// Segments with slashes between them.
fn slashed<'a>(segments: &[&'a str], bump: &'a Bump) -> Result<&'a str, NoMemory>
    ensures { IfOk result (λ path. path.now ≡ slashed (names segments.now)) }
{
    match segments {
        [] => Ok(""),
        [first, rest @ ..] => joined(*first, rest, bump),
    }
}

/// A text with the ending of files.
fn with_ending<'a>(text: &str, bump: &'a Bump) -> Result<&'a str, NoMemory>
    ensures { IfOk result (λ path. path.now ≡ text.now ++ codes ".fut") }
{
    let mut path = match String::from_str(bump, text) {
        Ok(path) => path,
        Err(_) => return Err(NoMemory),
    };
    match path.push_str(".fut") {
        Ok(()) => (),
        Err(_) => return Err(NoMemory),
    }
    match bump.try_alloc_str(path.as_str()) {
        Ok(path) => Ok(path),
        Err(_) => Err(NoMemory),
    }
}

/// The segments of the folder of a file, with those of a path in it behind them.

fn in_folder<'a>(
    from: &'a str,
    path: &'a str,
    put: &mut Vec<&'a str, &'a Bump>,
) -> Result<(), NoMemory>
    requires { put.now.items ≡ [] }
    ensures { OnOk result (names put.new.items ≡ folder (segments from.now) ++ segments path.now) }
{
    put_segments(from, put)?;
    put.pop();
    put_segments(path, put)
}

/// The path of the file that a text names in the file at a path.
pub fn imported_path<'a>(from: &'a str, text: &str, bump: &'a Bump) -> Result<&'a str, NoMemory>
    ensures { IfOk result (λ path. path.now ≡ imported_path from.now text.now) }
{
    let file = with_ending(text, bump)?;
    let mut segments = Vec::new(bump);
    in_folder(from, file, &mut segments)?;
    let mut path = Vec::new(bump);
    put_all_tidied(segments.as_slice(), &mut path)?;
    slashed(path.as_slice(), bump)
}
