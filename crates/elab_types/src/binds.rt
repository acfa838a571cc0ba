// Size names, heads and parameters.
ghost use Rattle.std.specs.Prelude.{◌≡◌, ◌++◌, [], ◌∷◌, IfOk, map};
ghost use Rattle.fut_flat.specs.Erased.{parameters};
ghost use Rattle.fut_flat.specs.Sources.{patterns as source_patterns, source_pattern};
ghost use Rattle.fut_tree.specs.Names.{all, names as texts_of};
ghost use Rattle.fut_tree.specs.Pats.{heads_of};
ghost use Rattle.elab_scopes.specs.Answers.{Entered, Went};
ghost use Rattle.elab_scopes.specs.Resolve.{resolve_parameters};
ghost use Rattle.elab_scopes.specs.Table.{entries_of, made_of, scope_of};
ghost use Rattle.elab_types.specs.Bindings.{Brings, Brought, Numbers_head, bound_heads_of, bound_sizes_of, entry_with, heads_numbered, parameters_of, sizes_numbered};
ghost use Rattle.elab_types.specs.Numbering.{Numbers};

use crate::lists::{listed, put};
use crate::numbers::numbered;
use crate::pats::{Bound, resolved_pattern};
use bumpalo::Bump;
use bumpalo::collections::into_bump_slice;
use elab_scopes::{Entry, Names, Stop};
use fut_flat as flat;
use fut_scalar::BindId;
use fut_tree::{Head, HeadForm, Held, Pat};

/// Brings names in scope, the first one first.
#[tactic(auto, using(crate::proofs::BindLaws::entering_rules))]
pub fn bring<'a>(entries: &'a [Entry<'a>], names: &mut Names<'a>) -> Result<(), Stop<'a>>
    ensures { Brings entries.now names.old names.new result }
{
    for entry in entries {
        match names.enter(*entry) {
            Ok(()) => (),
            Err(_) => return Err(Stop::Memory),
        }
    }
    Ok(())
}

/// Numbers a name, and puts it behind those that come in scope.
fn numbered_entry<'a>(
    name: &'a str,
    is_type: bool,
    names: &mut Names<'a>,
    entries: &mut Vec<Entry<'a>, &'a Bump>,
) -> Result<BindId, Stop<'a>>
    ensures numbers { Numbers name.now names.old names.new result }
    ensures entry { IfOk result (λ b. entries.new.items ≡ entries.old.items ++ entry_with name.entry b is_type ∷ []) }
{
    match numbered(name, names) {
        Ok(bind) => match entries.push(Entry {
            name,
            bind,
            is_type,
        }) {
            Ok(()) => Ok(bind),
            Err(_) => Err(Stop::Memory),
        },
        Err(stop) => Err(stop),
    }
}

/// Size names, and how they come in scope.
#[derive(Clone, Copy)]
pub struct Sizes<'a> {
    pub binds: &'a [BindId],
    pub names: &'a [Entry<'a>],
}

fn each_size<'a>(
    sizes: &'a [&'a str],
    names: &mut Names<'a>,
    binds: &mut Vec<BindId, &'a Bump>,
    entries: &mut Vec<Entry<'a>, &'a Bump>,
) -> Result<(), Stop<'a>>
    requires binds { binds.old.items ≡ [] }
    requires entries { entries.old.items ≡ [] }
    ensures { Went (λ u. (binds.new.items, entries_of entries.new.items)) (sizes_numbered (texts_of sizes.now)) names.old names.new result }
{
    for size in sizes {
        match put(numbered_entry(*size, false, names, entries), binds) {
            Ok(()) => (),
            Err(stop) => return Err(stop),
        }
    }
    Ok(())
}

/// Size names, numbered.
pub fn numbered_sizes<'a>(
    sizes: &'a [&'a str],
    bump: &'a Bump,
    names: &mut Names<'a>,
) -> Result<Sizes<'a>, Stop<'a>>
    ensures { Went bound_sizes_of (sizes_numbered (texts_of sizes.now)) names.old names.new result }
{
    let mut binds = Vec::new(bump);
    let mut entries = Vec::new(bump);
    let walked = each_size(sizes, names, &mut binds, &mut entries);
    let made = Sizes {
        binds: into_bump_slice(binds),
        names: into_bump_slice(entries),
    };
    match walked {
        Ok(()) => Ok(made),
        Err(stop) => Err(stop),
    }
}

/// Size and type parameters, and how they come in scope.
#[derive(Clone, Copy)]
pub struct Heads<'a> {
    pub heads: &'a [flat::Head],
    pub names: &'a [Entry<'a>],
}

/// A size or type parameter with its number. The name that it brings is put behind those that come in scope.
fn numbered_head<'a>(
    head: &'a Head<'a>,
    names: &mut Names<'a>,
    entries: &mut Vec<Entry<'a>, &'a Bump>,
) -> Result<flat::Head, Stop<'a>>
    ensures { Numbers_head head.now names.old names.new entries.old.items entries.new.items result }
{
    match head.form {
        HeadForm::Size(name) => match numbered_entry(name, false, names, entries) {
            Ok(bind) => Ok(flat::Head {
                place: head.place,
                form: flat::HeadForm::Size(bind),
            }),
            Err(stop) => Err(stop),
        },
        HeadForm::Var { name, lifted } => match numbered_entry(name, true, names, entries) {
            Ok(bind) => Ok(flat::Head {
                place: head.place,
                form: flat::HeadForm::Var { bind, lifted },
            }),
            Err(stop) => Err(stop),
        },
    }
}

fn each_head<'a>(
    heads: &'a [Head<'a>],
    names: &mut Names<'a>,
    made: &mut Vec<flat::Head, &'a Bump>,
    entries: &mut Vec<Entry<'a>, &'a Bump>,
) -> Result<(), Stop<'a>>
    requires made { made.old.items ≡ [] }
    requires entries { entries.old.items ≡ [] }
    ensures { Went (λ u. (parameters made.new.items, entries_of entries.new.items)) (heads_numbered (heads_of heads.now)) names.old names.new result }
{
    for head in heads {
        match put(numbered_head(head, names, entries), made) {
            Ok(()) => (),
            Err(stop) => return Err(stop),
        }
    }
    Ok(())
}

/// Size and type parameters, numbered.
pub fn numbered_heads<'a>(
    heads: &'a [Head<'a>],
    bump: &'a Bump,
    names: &mut Names<'a>,
) -> Result<Heads<'a>, Stop<'a>>
    ensures { Went bound_heads_of (heads_numbered (heads_of heads.now)) names.old names.new result }
{
    let mut made = Vec::new(bump);
    let mut entries = Vec::new(bump);
    let walked = each_head(heads, names, &mut made, &mut entries);
    let made = Heads {
        heads: into_bump_slice(made),
        names: into_bump_slice(entries),
    };
    match walked {
        Ok(()) => Ok(made),
        Err(stop) => Err(stop),
    }
}

/// Brings the names of a pattern in scope, if it is there.
fn brought<'a>(
    pat: Result<Bound<'a>, Stop<'a>>,
    names: &mut Names<'a>,
) -> Result<flat::Pat<'a>, Stop<'a>>
    ensures { Brought pat.entry names.old names.new result }
{
    match pat {
        Ok(pat) => match bring(pat.names, names) {
            Ok(()) => Ok(pat.pat),
            Err(stop) => Err(stop),
        },
        Err(stop) => Err(stop),
    }
}

fn each_parameter<'a>(
    params: &'a [Held<'a, Pat<'a>>],
    bump: &'a Bump,
    names: &mut Names<'a>,
    made: &mut Vec<flat::Pat<'a>, &'a Bump>,
) -> Result<(), Stop<'a>>
    requires { made.old.items ≡ [] }
    ensures { Entered (λ u. parameters_of made.new.items) (resolve_parameters (source_patterns (map source_pattern (all params.now))) (scope_of names.old) (made_of names.old)) names.new result }
{
    for param in params {
        let next = resolved_pattern(param.at, bump, names);
        match put(brought(next, names), made) {
            Ok(()) => (),
            Err(stop) => return Err(stop),
        }
    }
    Ok(())
}

/// The parameters of a function. Each sees those before it, and all are in scope afterwards.
pub fn resolved_parameters<'a>(
    params: &'a [Held<'a, Pat<'a>>],
    bump: &'a Bump,
    names: &mut Names<'a>,
) -> Result<&'a [flat::Pat<'a>], Stop<'a>>
    ensures { Entered (λ ps. parameters_of ps.now) (resolve_parameters (source_patterns (map source_pattern (all params.now))) (scope_of names.old) (made_of names.old)) names.new result }
{
    let mut made = Vec::new(bump);
    let walked = each_parameter(params, bump, names, &mut made);
    listed(walked, into_bump_slice(made))
}
