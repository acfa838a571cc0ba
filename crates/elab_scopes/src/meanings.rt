// Members, and what a name means by them.
ghost use Rattle.std.specs.Prelude.{◌≡◌};
ghost use Rattle.elab_scopes.specs.Held.{also, no_meaning, text_of};

use fut_flat::Ref;
use fut_scalar::ScalarType;

/// A module: one that the files make, by its number, or that of a scalar type.
#[derive(Clone, Copy)]
pub enum ModuleRef {
    Made(u32),
    Scalar(ScalarType),
}

/// A member of a module, or a name that a file sees, in one of four spaces.
#[derive(Clone, Copy)]
pub enum Member<'a> {
    Value(&'a str, Ref),
    Type(&'a str, Ref),
    Module(&'a str, ModuleRef),
    Signature(&'a str, u32),
}

/// What a name means in each of the four spaces.
#[derive(Clone, Copy)]
pub struct Meanings {
    pub as_value: Option<Ref>,
    pub as_type: Option<Ref>,
    pub as_module: Option<ModuleRef>,
    pub as_signature: Option<u32>,
}

/// What a name means that is nowhere among members.
pub fn no_meaning() -> Meanings
    ensures { result ≡ no_meaning }
{
    Meanings {
        as_value: None,
        as_type: None,
        as_module: None,
        as_signature: None,
    }
}

/// The name of a member.
pub fn text_of<'a>(member: Member<'a>) -> &'a str
    ensures { result.now ≡ text_of member.entry }
{
    match member {
        Member::Value(name, _) => name,
        Member::Type(name, _) => name,
        Member::Module(name, _) => name,
        Member::Signature(name, _) => name,
    }
}

/// What the name of a member means behind it.
pub fn also<'a>(member: Member<'a>, before: Meanings) -> Meanings
    ensures { result ≡ also member.entry before }
{
    let Meanings {
        as_value,
        as_type,
        as_module,
        as_signature,
    } = before;
    match member {
        Member::Value(_, of) => Meanings {
            as_value: Some(of),
            as_type,
            as_module,
            as_signature,
        },
        Member::Type(_, of) => Meanings {
            as_value,
            as_type: Some(of),
            as_module,
            as_signature,
        },
        Member::Module(_, of) => Meanings {
            as_value,
            as_type,
            as_module: Some(of),
            as_signature,
        },
        Member::Signature(_, of) => Meanings {
            as_value,
            as_type,
            as_module,
            as_signature: Some(of),
        },
    }
}
