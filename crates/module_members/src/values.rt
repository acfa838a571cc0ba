// Values that module types ask for.
ghost use Rattle.std.specs.Prelude.{◌≡◌, IfErr, IfOk};
ghost use Rattle.fut_tree.specs.ModTypes.{label_of};
ghost use Rattle.fut_tree.specs.Pats.{heads_of};
ghost use Rattle.elab_scopes.specs.Declarations.{also_seeing, value_spec};
ghost use Rattle.module_members.specs.Steps.{value_of_met};
ghost use Rattle.elab_scopes.specs.Held.{member_of, module_ref_of};
ghost use Rattle.elab_scopes.specs.declared.refusal.Stop.TheVariants as stop;
ghost use Rattle.module_state.specs.Standing.{Does, alone, here_of, meeting_of};

use crate::definitions::declared_value;
use bumpalo::Bump;
use elab_scopes::{Member, ModuleRef, Refusal, Stop, value_in_module};
use fut_tree::{Head, Label, TypeExp};
use module_state::{Declaring, Here, Meeting, Written, more_members};

/// A name that no text can spell: the member of the module that meets a module type.
pub const INNER_NAME: &str = "     ";

/// The same with one more name in scope.
pub fn also_seeing<'a>(
    member: Member<'a>,
    here: Here<'a>,
    bump: &'a Bump,
) -> Result<Here<'a>, Stop<'a>>
    ensures ok { IfOk result (λ h. here_of h ≡ also_seeing (member_of member.entry) (here_of here.entry)) }
    ensures err { IfErr result (λ e. e ≡ stop.Memory) }
{
    match more_members(member, here.names, bump) {
        Ok(names) => Ok(Here {
            file: here.file,
            live: here.live,
            names,
        }),
        Err(stop) => Err(stop),
    }
}

/// The value of a module that meets a module type, as a member of the type that is written there.
#[tactic(auto, using(module_state::proofs::Stands::standing))]
fn value_of_met<'a>(
    of: ModuleRef,
    label: Label<'a>,
    heads: &'a [Head<'a>],
    ty: &'a TypeExp<'a>,
    here: Here<'a>,
    bump: &'a Bump,
    state: &mut Declaring<'a>,
) -> Result<Member<'a>, Stop<'a>>
    ensures { Does alone (value_of_met (here_of here.entry) (module_ref_of of) (label_of label.entry) (heads_of heads.now) ty.now) state.old state.new result }
{
    let inner = match value_in_module(state.names.modules(), of, label.name) {
        Some(inner) => inner,
        None => return Err(Stop::Refused(Refusal::SealMissing {
            name: label.name,
            at: label.place,
        })),
    };
    match also_seeing(Member::Value(INNER_NAME, inner), here, bump) {
        Ok(inside) => {
            let value = Written::Sealed(label.place, ty);
            declared_value(false, label.name, heads, value, inside, bump, state)
        }
        Err(_) => Err(Stop::Memory),
    }
}

/// A value that a module type asks for.
pub fn value_spec<'a>(
    label: Label<'a>,
    heads: &'a [Head<'a>],
    ty: &'a TypeExp<'a>,
    meeting: Meeting<'a>,
    here: Here<'a>,
    bump: &'a Bump,
    state: &mut Declaring<'a>,
) -> Result<Member<'a>, Stop<'a>>
    ensures { Does alone (value_spec (here_of here.entry) (meeting_of meeting.entry) (label_of label.entry) (heads_of heads.now) ty.now) state.old state.new result }
{
    match meeting {
        Meeting::Hidden(of, _) => value_of_met(of, label, heads, ty, here, bump, state),
        Meeting::Shown(of, _) => value_of_met(of, label, heads, ty, here, bump, state),
        Meeting::Nothing => {
            let value = Written::Type(label.place, ty);
            declared_value(false, label.name, heads, value, here, bump, state)
        }
    }
}
