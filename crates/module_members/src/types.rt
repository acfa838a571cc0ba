// Types that module types ask for.
ghost use Rattle.std.specs.Prelude.{map};
ghost use Rattle.fut_tree.specs.ModTypes.{label_of};
ghost use Rattle.fut_tree.specs.Names.{maybe};
ghost use Rattle.elab_scopes.specs.Declarations.{type_spec};
ghost use Rattle.module_members.specs.Steps.{inner_type, kept_type, type_of_met};
ghost use Rattle.elab_scopes.specs.Held.{module_ref_of};
ghost use Rattle.module_state.specs.Standing.{Does, alone, given_of, here_of, meeting_of};
ghost use Rattle.module_state.specs.Written.{written_of};

use crate::definitions::declared_type;
use crate::giving::given_for;
use crate::values::{INNER_NAME, also_seeing};
use bumpalo::Bump;
use elab_scopes::{Member, ModuleRef, Refusal, Stop, type_in_module};
use fut_flat::{Primitive, Ref};
use fut_tree::{Label, TypeExp};
use module_state::{Declaring, Given, Here, Meeting, Written};

/// A name that no text can spell: a type that is given for one of a module type.
const GIVEN_NAME: &str = "      ";

/// A type of a module that meets a module type, as it is declared outside.
#[tactic(auto, using(module_state::proofs::Stands::standing))]
fn inner_type<'a>(
    label: Label<'a>,
    value: Written<'a>,
    inner: Ref,
    here: Here<'a>,
    bump: &'a Bump,
    state: &mut Declaring<'a>,
) -> Result<Member<'a>, Stop<'a>>
    ensures { Does alone (inner_type (here_of here.entry) (label_of label.entry) (written_of value.entry) inner) state.old state.new result }
{
    match also_seeing(Member::Type(INNER_NAME, inner), here, bump) {
        Ok(inside) => declared_type(label.name, &[], value, inside, bump, state),
        Err(_) => Err(Stop::Memory),
    }
}

/// A type that the module type leaves open: given, new outside, or the module's own.
#[tactic(auto, using(module_state::proofs::Stands::standing))]
fn kept_type<'a>(
    hides: bool,
    given: &'a [Given<'a>],
    label: Label<'a>,
    inner: Ref,
    here: Here<'a>,
    bump: &'a Bump,
    state: &mut Declaring<'a>,
) -> Result<Member<'a>, Stop<'a>>
    ensures { Does alone (kept_type hides (here_of here.entry) (map given_of given.now) (label_of label.entry) inner) state.old state.new result }
{
    match given_for(given, label.name) {
        Some(ty) => match also_seeing(Member::Type(GIVEN_NAME, ty), here, bump) {
            Ok(inside) => inner_type(
                label,
                Written::Given(label.place),
                inner,
                inside,
                bump,
                state,
            ),
            Err(_) => Err(Stop::Memory),
        },
        None => {
            if hides {
                return inner_type(
                    label,
                    Written::Hidden(label.place),
                    inner,
                    here,
                    bump,
                    state,
                );
            }
            Ok(Member::Type(label.name, inner))
        }
    }
}

/// The type of a module that meets a module type.
fn type_of_met<'a>(
    hides: bool,
    of: ModuleRef,
    given: &'a [Given<'a>],
    label: Label<'a>,
    ty: Option<&'a TypeExp<'a>>,
    here: Here<'a>,
    bump: &'a Bump,
    state: &mut Declaring<'a>,
) -> Result<Member<'a>, Stop<'a>>
    ensures { Does alone (type_of_met hides (here_of here.entry) (module_ref_of of) (map given_of given.now) (label_of label.entry) (maybe ty.entry)) state.old state.new result }
{
    let inner = match type_in_module(state.names.modules(), of, label.name) {
        Some(inner) => inner,
        None => return Err(Stop::Refused(Refusal::SealMissing {
            name: label.name,
            at: label.place,
        })),
    };
    match ty {
        Some(ty) => inner_type(
            label,
            Written::Same(label.place, ty),
            inner,
            here,
            bump,
            state,
        ),
        None => kept_type(hides, given, label, inner, here, bump, state),
    }
}

/// A type that a module type asks for.
pub fn type_spec<'a>(
    label: Label<'a>,
    ty: Option<&'a TypeExp<'a>>,
    meeting: Meeting<'a>,
    here: Here<'a>,
    bump: &'a Bump,
    state: &mut Declaring<'a>,
) -> Result<Member<'a>, Stop<'a>>
    ensures { Does alone (type_spec (here_of here.entry) (meeting_of meeting.entry) (label_of label.entry) (maybe ty.entry)) state.old state.new result }
{
    match meeting {
        Meeting::Hidden(of, given) => type_of_met(true, of, given, label, ty, here, bump, state),
        Meeting::Shown(of, given) => type_of_met(false, of, given, label, ty, here, bump, state),
        Meeting::Nothing => match ty {
            Some(ty) => {
                let value = Written::Type(label.place, ty);
                declared_type(label.name, &[], value, here, bump, state)
            }
            None => Ok(Member::Type(label.name, Ref::Prim(Primitive::Copy))),
        },
    }
}
