// Definitions of files with modules: a hidden type for a member that is met, and what is given back where names alone are looked
// at.
use bumpalo::Bump;
use elab_scopes::{Member, Members, Names, Refusal, Stop, no_members, with_member};
use fut_flat::{Primitive, Ref};
use fut_scalar::{List, Place, ScalarType};
use module_definitions::declared;
use module_state::{Declaring, Here, Written};
use std::alloc::Global;

/// The name of the member that is met.
const MET: &str = "     ";

/// Where a hidden type stands.
const AT: Place = Place {
    file: 1,
    line: 2,
    column: 3,
};

/// What stands for a type where names alone are looked at.
const OTHER: Ref = Ref::Prim(Primitive::Copy);

fn nothing_declared<'a>(alloc: Global, start: &'a Members<'a>, bump: &'a Bump) -> Declaring<'a> {
    Declaring {
        names: Names::new(alloc),
        functors: List::new(alloc),
        signatures: List::new(alloc),
        definitions: Vec::new(bump),
        applications: 0,
        start,
        loaded: List::new(alloc),
    }
}

/// Two new types, of a member of this name: how many definitions and numbers there are then, and which type the last one is.
fn hidden_types<'a>(
    alloc: Global,
    live: bool,
    name: &'a str,
    bump: &'a Bump,
) -> Result<(usize, usize, Ref), Stop<'a>> {
    let none = no_members(bump)?;
    let names = with_member(
        Member::Type(name, Ref::Scalar(ScalarType::Bool)),
        none,
        bump,
    )?;
    let here = Here {
        file: 1,
        live,
        names,
    };
    let mut state = nothing_declared(alloc, none, bump);
    declared(
        OTHER,
        here,
        false,
        "t",
        &[],
        Written::Hidden(AT),
        &mut state,
        bump,
    )?;
    let last = declared(
        OTHER,
        here,
        false,
        "u",
        &[],
        Written::Hidden(AT),
        &mut state,
        bump,
    )?;
    Ok((state.definitions.len(), state.names.count(), last))
}

#[test]
fn hidden_types_are_definitions(rt: HostRuntime) {
    let bump = Bump::new(rt.alloc());
    let made = hidden_types(rt.alloc(), true, MET, &bump);
    assert!(rt; matches!(made, Ok((2, 2, Ref::Bound(_)))));
}

#[test]
fn numbers_are_given_back(rt: HostRuntime) {
    let bump = Bump::new(rt.alloc());
    let looked = hidden_types(rt.alloc(), false, MET, &bump);
    assert!(rt; matches!(looked, Ok((0, 0, Ref::Prim(Primitive::Copy)))));
}

#[test]
fn a_member_that_is_not_met_is_unbound(rt: HostRuntime) {
    let bump = Bump::new(rt.alloc());
    let refused = hidden_types(rt.alloc(), true, "other", &bump);
    assert!(rt;
        matches!(
            refused,
            Err(Stop::Refused(Refusal::Unbound { name: _, at: AT }))
        )
    );
}
