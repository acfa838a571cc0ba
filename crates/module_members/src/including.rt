// Members behind those that a module type has given before.
ghost use Rattle.std.specs.Prelude.{◌≡◌, ◌++◌, IfErr, IfOk, map};
ghost use Rattle.elab_scopes.specs.Declarations.{seen_later};
ghost use Rattle.module_members.specs.Steps.{Behind, include_step, more_specified};
ghost use Rattle.elab_scopes.specs.Held.{member_of};
ghost use Rattle.elab_scopes.specs.Modules.{contents_of};
ghost use Rattle.elab_scopes.specs.declared.refusal.Stop.TheVariants as stop;
ghost use Rattle.module_state.specs.Standing.{Does, alone, specified_of};
ghost use Rattle.module_state.specs.declared.state.Declaring.{Declaring};

use bumpalo::Bump;
use elab_scopes::{Contents, Member, Members, Refusal, Stop, joined, one_by_one};
use fut_tree::ModType;
use module_state::{Specified, more_members, type_called};

/// What later members of a module type see behind a member: types and modules.
fn seen_behind<'a>(
    member: Member<'a>,
    older: &'a Members<'a>,
    bump: &'a Bump,
) -> Result<&'a Members<'a>, Stop<'a>>
    ensures ok { IfOk result (λ ms. ms.now ≡ seen_later (alone member.entry) ++ older.now) }
    ensures err { IfErr result (λ e. e ≡ stop.Memory) }
{
    match member {
        Member::Value(_, _) => Ok(older),
        Member::Type(_, _) => more_members(member, older, bump),
        Member::Module(_, _) => more_members(member, older, bump),
        Member::Signature(_, _) => Ok(older),
    }
}

/// One more member of a module type, of the answer for it.
pub fn specified<'a>(
    made: Result<Member<'a>, Stop<'a>>,
    before: Specified<'a>,
    bump: &'a Bump,
) -> Result<Specified<'a>, Stop<'a>>
    ensures { Behind alone specified_of (λ ms. more_specified ms (specified_of before.entry)) made.entry result }
{
    let member = match made {
        Ok(member) => member,
        Err(stop) => return Err(stop),
    };
    let seen = match seen_behind(member, before.seen, bump) {
        Ok(seen) => seen,
        Err(_) => return Err(Stop::Memory),
    };
    match more_members(member, before.met, bump) {
        Ok(met) => Ok(Specified { seen, met }),
        Err(_) => Err(Stop::Memory),
    }
}

/// Names that others share.
#[derive(Clone, Copy)]
struct Shared<'a> {
    members: &'a Members<'a>,
}

/// What later members of a module type see behind members that it includes.
fn all_seen<'a>(
    members: &'a [Member<'a>],
    older: &'a Members<'a>,
    bump: &'a Bump,
) -> Result<&'a Members<'a>, Stop<'a>>
    ensures ok { IfOk result (λ ms. ms.now ≡ seen_later (map member_of members.now) ++ older.now) }
    ensures err { IfErr result (λ e. e ≡ stop.Memory) }
{
    let mut all = Shared { members: older };
    let mut left = members.len();
    while left > 0 {
        left -= 1;
        all = match seen_behind(members[left], all.members, bump) {
            Ok(members) => Shared { members },
            Err(stop) => return Err(stop),
        };
    }
    Ok(all.members)
}

/// Members that a module type includes.
fn all_specified<'a>(
    members: &'a Members<'a>,
    before: Specified<'a>,
    bump: &'a Bump,
) -> Result<Specified<'a>, Stop<'a>>
    ensures ok { IfOk result (λ after. specified_of after ≡ more_specified members.now (specified_of before.entry)) }
    ensures err { IfErr result (λ e. e ≡ stop.Memory) }
{
    let listed = match one_by_one(members, bump) {
        Ok(listed) => listed,
        Err(_) => return Err(Stop::Memory),
    };
    let seen = match all_seen(listed, before.seen, bump) {
        Ok(seen) => seen,
        Err(stop) => return Err(stop),
    };
    match joined(members, before.met, bump) {
        Ok(met) => Ok(Specified { seen, met }),
        Err(_) => Err(Stop::Memory),
    }
}

/// What a module type includes. What is parametric has no members.
#[tactic(auto, using(module_state::proofs::Stands::standing))]
pub fn included<'a>(
    ty: &'a ModType<'a>,
    contents: Contents<'a>,
    before: Specified<'a>,
    bump: &'a Bump,
) -> Result<Specified<'a>, Stop<'a>>
    ensures { (d : Declaring) → Does specified_of (include_step ty.now (contents_of contents.entry) (specified_of before.entry)) d d result }
{
    match contents {
        Contents::Members(members) => all_specified(members, before, bump),
        Contents::Parametric(_) => match type_called(ty, bump) {
            Ok(name) => Err(Stop::Refused(Refusal::Unbound { name, at: ty.place })),
            Err(_) => Err(Stop::Memory),
        },
    }
}
