// Definitions, as members.
ghost use Rattle.std.specs.Prelude.{false};
ghost use Rattle.fut_tree.specs.Pats.{heads_of};
ghost use Rattle.elab_scopes.specs.Declarations.{as_type, as_value, declare, no_type, no_value};
ghost use Rattle.module_state.specs.Standing.{Does, alone, here_of};
ghost use Rattle.module_state.specs.Written.{written_of};

use bumpalo::Bump;
use elab_scopes::{Member, Stop};
use fut_flat::{Primitive, Ref};
use fut_scalar::ScalarType;
use fut_tree::Head;
use module_definitions::declared;
use module_state::{Declaring, Here, Written};

/// A value that is declared, as a member.
pub fn declared_value<'a>(
    is_entry: bool,
    name: &'a str,
    heads: &'a [Head<'a>],
    value: Written<'a>,
    here: Here<'a>,
    bump: &'a Bump,
    state: &mut Declaring<'a>,
) -> Result<Member<'a>, Stop<'a>>
    ensures { Does alone (as_value name.now (declare no_value (here_of here.entry) is_entry name.now (heads_of heads.now) (written_of value.entry))) state.old state.new result }
{
    let other = Ref::Prim(Primitive::Copy);
    match declared(other, here, is_entry, name, heads, value, state, bump) {
        Ok(of) => Ok(Member::Value(name, of)),
        Err(stop) => Err(stop),
    }
}

/// A type that is declared, as a member.
pub fn declared_type<'a>(
    name: &'a str,
    heads: &'a [Head<'a>],
    value: Written<'a>,
    here: Here<'a>,
    bump: &'a Bump,
    state: &mut Declaring<'a>,
) -> Result<Member<'a>, Stop<'a>>
    ensures { Does alone (as_type name.now (declare no_type (here_of here.entry) false name.now (heads_of heads.now) (written_of value.entry))) state.old state.new result }
{
    let other = Ref::Scalar(ScalarType::Bool);
    match declared(other, here, false, name, heads, value, state, bump) {
        Ok(of) => Ok(Member::Type(name, of)),
        Err(stop) => Err(stop),
    }
}
