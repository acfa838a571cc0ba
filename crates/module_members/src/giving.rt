// Types that are given for those of a module type.
ghost use Rattle.std.specs.Prelude.{◌≡◌, ◌++◌, IfOk, OnOk, map, option_map};
ghost use Rattle.elab_scopes.specs.Declarations.{given_for, given_within};
ghost use Rattle.fut_tree.specs.Names.{names};
ghost use Rattle.module_members.specs.Steps.{below, is_here, maybe_one};
ghost use Rattle.module_state.specs.Standing.{given_of};

use bumpalo::Bump;
use bumpalo::collections::into_bump_slice;
use fut_flat::Ref;
use fut_scalar::NoMemory;
use module_state::Given;

/// Whether a path is this name alone.
fn is_here(path: &[&str], name: &str) -> bool
    ensures { result ≡ is_here (names path.now) name.now }
{
    match path {
        [only] => *only == name,
        _ => false,
    }
}

/// What is given for the type of this name.
pub fn given_for(given: &[Given<'_>], name: &str) -> Option<Ref>
    ensures { result ≡ given_for (map given_of given.now) name.now }
{
    for one in given {
        if is_here(one.path, name) {
            return Some(one.ty);
        }
    }
    None
}

/// What is given for a type of the module of this name.
fn below<'a>(one: Given<'a>, name: &str) -> Option<Given<'a>>
    ensures { option_map given_of result ≡ below (given_of one.entry) name.now }
{
    match one.path {
        [] => None,
        [_] => None,
        [first, rest @ ..] => {
            if *first != name {
                return None;
            }
            Some(Given {
                path: rest,
                ty: one.ty,
            })
        }
    }
}

/// Puts what is given for a type of the module of this name behind those that there are.
fn put_below<'a>(
    one: Given<'a>,
    name: &str,
    within: &mut Vec<Given<'a>, &'a Bump>,
) -> Result<(), NoMemory>
    ensures { OnOk result (map given_of within.new.items ≡ map given_of within.old.items ++ maybe_one (below (given_of one.entry) name.now)) }
{
    match below(one, name) {
        Some(deeper) => match within.push(deeper) {
            Ok(()) => Ok(()),
            Err(_) => Err(NoMemory),
        },
        None => Ok(()),
    }
}

/// What is given for the types of the module of this name.
pub fn given_within<'a>(
    given: &'a [Given<'a>],
    name: &str,
    bump: &'a Bump,
) -> Result<&'a [Given<'a>], NoMemory>
    ensures { IfOk result (λ all. map given_of all.now ≡ given_within (map given_of given.now) name.now) }
{
    let mut within = Vec::new(bump);
    for one in given {
        match put_below(*one, name, &mut within) {
            Ok(()) => (),
            Err(_) => return Err(NoMemory),
        }
    }
    Ok(into_bump_slice(within))
}
