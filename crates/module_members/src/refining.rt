// Types that are given by `with`.
ghost use Rattle.std.specs.Prelude.{◌≡◌, IfErr, IfOk, map};
ghost use Rattle.elab_scopes.specs.Scopes.{members_of};
ghost use Rattle.elab_scopes.specs.Declarations.{given_in, last_name, left_open, refined, with_member, with_type, with_type_at, with_types};
ghost use Rattle.fut_tree.specs.ModTypes.{with_of, withs_of};
ghost use Rattle.fut_tree.specs.Names.{names};
ghost use Rattle.module_members.specs.Steps.{all_given, refined_once};
ghost use Rattle.elab_scopes.specs.Answers.{viewed};
ghost use Rattle.elab_scopes.specs.Held.{member_of, module_ref_of};
ghost use Rattle.elab_scopes.specs.Modules.{contents_of, modules_of};
ghost use Rattle.elab_scopes.specs.declared.refusal.Stop.TheVariants as stop;
ghost use Rattle.module_state.specs.Standing.{Does, given_of, here_of};

use bumpalo::Bump;
use bumpalo::collections::into_bump_slice;
use elab_scopes::{
    Contents, Member, Members, ModuleRef, Refusal, Stop, module_in_module, no_members, type_inside,
};
use fut_flat::Ref;
use fut_scalar::ScalarType;
use fut_tree::With;
use module_definitions::declared;
use module_state::{Declaring, Given, Here, Written, contents_of, more_members, new_module};

/// The last name of a path.
fn last_name<'a>(path: &'a [&'a str]) -> &'a str
    ensures { result.now ≡ last_name (names path.now) }
{
    let count = path.len();
    if count == 0 {
        return "";
    }
    path[count - 1]
}

/// A type that is given, as a definition.
fn with_type<'a>(
    with: With<'a>,
    here: Here<'a>,
    bump: &'a Bump,
    state: &mut Declaring<'a>,
) -> Result<Ref, Stop<'a>>
    ensures { Does (λ r. r) (with_type (here_of here.entry) (with_of with.entry)) state.old state.new result }
{
    let other = Ref::Scalar(ScalarType::Bool);
    let name = last_name(with.path);
    let value = Written::Type(with.place, with.ty);
    declared(other, here, false, name, &[], value, state, bump)
}

/// All types that are given, the newest first.
#[tactic(auto, using(module_state::proofs::Stands::standing))]
pub fn with_types<'a>(
    withs: &'a [With<'a>],
    older: &'a [Given<'a>],
    here: Here<'a>,
    bump: &'a Bump,
    state: &mut Declaring<'a>,
) -> Result<&'a [Given<'a>], Stop<'a>>
    ensures { Does all_given (with_types (here_of here.entry) (withs_of withs.now) (map given_of older.now)) state.old state.new result }
{
    let mut made = Vec::new(bump);
    for with in withs {
        match with_type(*with, here, bump, state) {
            Ok(ty) => match made.push(Given {
                path: with.path,
                ty,
            }) {
                Ok(()) => (),
                Err(_) => return Err(Stop::Memory),
            },
            Err(stop) => return Err(stop),
        }
    }
    made.reverse();
    match made.extend_from_slice(older) {
        Ok(()) => Ok(into_bump_slice(made)),
        Err(_) => Err(Stop::Memory),
    }
}

/// The members of a module: a parametric one has none.
pub fn members_in<'a>(contents: Contents<'a>, bump: &'a Bump) -> Result<&'a Members<'a>, Stop<'a>>
    ensures ok { IfOk result (λ ms. ms.now ≡ members_of (contents_of contents.entry)) }
    ensures err { IfErr result (λ e. e ≡ stop.Memory) }
{
    match contents {
        Contents::Members(members) => Ok(members),
        Contents::Parametric(_) => match no_members(bump) {
            Ok(none) => Ok(none),
            Err(_) => Err(Stop::Memory),
        },
    }
}

/// A module with one more member.
#[tactic(auto, using(module_state::proofs::Stands::standing))]
fn with_member<'a>(
    member: Member<'a>,
    of: ModuleRef,
    bump: &'a Bump,
    state: &mut Declaring<'a>,
) -> Result<ModuleRef, Stop<'a>>
    ensures { Does module_ref_of (with_member (member_of member.entry) (module_ref_of of)) state.old state.new result }
{
    let contents = match contents_of(state.names.modules(), of, bump) {
        Ok(contents) => contents,
        Err(_) => return Err(Stop::Memory),
    };
    let older = match members_in(contents, bump) {
        Ok(older) => older,
        Err(_) => return Err(Stop::Memory),
    };
    match more_members(member, older, bump) {
        Ok(members) => new_module(Contents::Members(members), state),
        Err(_) => Err(Stop::Memory),
    }
}

/// A module with another type at a path. Modules are looked at up to a depth in one another.
#[tactic(auto, using(module_state::proofs::Stands::standing))]
fn with_type_at<'a>(
    of: ModuleRef,
    name: &'a str,
    path: &'a [&'a str],
    ty: Ref,
    bump: &'a Bump,
    state: &mut Declaring<'a>,
    depth: u32,
) -> Result<ModuleRef, Stop<'a>>
    ensures { Does module_ref_of (with_type_at (module_ref_of of) name.now (names path.now) ty) state.old state.new result }
{
    match path {
        [] => with_member(Member::Type(name, ty), of, bump, state),
        [next, rest @ ..] => {
            let inner = match module_in_module(state.names.modules(), of, name) {
                Some(inner) => inner,
                None => return Ok(of),
            };
            if depth == 0 {
                return Err(Stop::Memory);
            }
            match with_type_at(inner, *next, rest, ty, bump, state, depth - 1) {
                Ok(deeper) => with_member(Member::Module(name, deeper), of, bump, state),
                Err(stop) => Err(stop),
            }
        }
    }
}

/// A type is given for one that the module type leaves open.
fn left_open<'a>(
    with: With<'a>,
    of: ModuleRef,
    modules: &[Contents<'a>],
) -> Result<Ref, Refusal<'a>>
    ensures { viewed (λ r. r) result ≡ left_open (modules_of modules.now) with.entry.place (module_ref_of of) (names with.entry.path.now) }
{
    let at = with.place;
    match with.path {
        [] => Err(Refusal::Unbound { name: "", at }),
        [first, rest @ ..] => match type_inside(modules, at, of, *first, rest) {
            Ok(found) => match found {
                Ref::Prim(_) => Ok(Ref::Scalar(ScalarType::Bool)),
                Ref::Bound(_) => Err(Refusal::NoMember {
                    name: last_name(with.path),
                    at,
                }),
                Ref::Scalar(_) => Err(Refusal::NoMember {
                    name: last_name(with.path),
                    at,
                }),
            },
            Err(refusal) => Err(refusal),
        },
    }
}

/// A module with the type that is given at this path.
fn given_in<'a>(
    of: ModuleRef,
    path: &'a [&'a str],
    ty: Ref,
    bump: &'a Bump,
    state: &mut Declaring<'a>,
    depth: u32,
) -> Result<ModuleRef, Stop<'a>>
    ensures { Does module_ref_of (given_in (module_ref_of of) (names path.now) ty) state.old state.new result }
{
    match path {
        [] => Ok(of),
        [first, rest @ ..] => with_type_at(of, *first, rest, ty, bump, state, depth),
    }
}

/// What is behind a module type with one more type given, where names alone are looked at.
fn refined_once<'a>(
    with: With<'a>,
    of: ModuleRef,
    here: Here<'a>,
    bump: &'a Bump,
    state: &mut Declaring<'a>,
    depth: u32,
) -> Result<ModuleRef, Stop<'a>>
    ensures { Does module_ref_of (refined_once (here_of here.entry) (with_of with.entry) (module_ref_of of)) state.old state.new result }
{
    match left_open(with, of, state.names.modules()) {
        Ok(_) => (),
        Err(refusal) => return Err(Stop::Refused(refusal)),
    }
    match with_type(with, here, bump, state) {
        Ok(ty) => given_in(of, with.path, ty, bump, state, depth),
        Err(stop) => Err(stop),
    }
}

/// What is behind a module type with all types given.
pub fn refined<'a>(
    withs: &'a [With<'a>],
    of: ModuleRef,
    here: Here<'a>,
    bump: &'a Bump,
    state: &mut Declaring<'a>,
    depth: u32,
) -> Result<ModuleRef, Stop<'a>>
    ensures { Does module_ref_of (refined (here_of here.entry) (module_ref_of of) (withs_of withs.now)) state.old state.new result }
{
    let mut module = of;
    for with in withs {
        match refined_once(*with, module, here, bump, state, depth) {
            Ok(next) => {
                module = next;
            }
            Err(stop) => return Err(stop),
        }
    }
    Ok(module)
}
