// What modules hold, and what opening one brings.
ghost use Rattle.std.specs.Prelude.{◌≡◌, ◌++◌, IfErr, IfOk, map};
ghost use Rattle.fut_primitives.specs.Names.{integer_members};
ghost use Rattle.elab_scopes.specs.Declarations.{other_members, primitive_member, scalar_members};
ghost use Rattle.elab_scopes.specs.Held.{module_ref_of};
ghost use Rattle.elab_scopes.specs.Modules.{contents_of, maybe_contents, modules_of};
ghost use Rattle.elab_scopes.specs.declared.refusal.Stop.TheVariants as stop;
ghost use Rattle.module_state.specs.Standing.{Does, block_of};
ghost use Rattle.module_state.specs.Steps.{contents_in, open_step};

use crate::blocks::{brought, more_members};
use crate::naming::called;
use crate::state::{Block, Declaring};
use bumpalo::Bump;
use elab_scopes::{Contents, Member, Members, ModuleRef, Refusal, Stop, contents_at, no_members};
use fut_flat::{Folding, Primitive, Ref};
use fut_primitives::line_of;
use fut_scalar::{IntType, ScalarType};
use fut_tree::ModExp;

/// Members that others share.
#[derive(Clone, Copy)]
struct Shared<'a> {
    members: &'a Members<'a>,
}

/// Primitives by their names, before older members.
#[tactic(auto, using(crate::proofs::Openings::puts))]
fn primitives_before<'a>(
    primitives: &[Primitive],
    older: &'a Members<'a>,
    bump: &'a Bump,
) -> Result<&'a Members<'a>, Stop<'a>>
    ensures ok { IfOk result (λ all. all.now ≡ map primitive_member primitives.now ++ older.now) }
    ensures err { IfErr result (λ e. e ≡ stop.Memory) }
{
    let mut all = Shared { members: older };
    let mut left = primitives.len();
    while left > 0 {
        left -= 1;
        let primitive = primitives[left];
        let member = Member::Value(line_of(primitive).name, Ref::Prim(primitive));
        all = match more_members(member, all.members, bump) {
            Ok(members) => Shared { members },
            Err(stop) => return Err(stop),
        };
    }
    Ok(all.members)
}

/// What an integer type has besides conversions.
fn integers_before<'a>(
    of: IntType,
    older: &'a Members<'a>,
    bump: &'a Bump,
) -> Result<&'a Members<'a>, Stop<'a>>
    ensures ok { IfOk result (λ all. all.now ≡ map primitive_member (integer_members of) ++ older.now) }
    ensures err { IfErr result (λ e. e ≡ stop.Memory) }
{
    let primitives = [
        Primitive::Min(of),
        Primitive::Max(of),
        Primitive::Abs(of),
        Primitive::Popc(of),
        Primitive::Lowest(of),
        Primitive::Highest(of),
        Primitive::NumBits(of),
        Primitive::Fold(Folding::Sum, of),
        Primitive::Fold(Folding::Product, of),
        Primitive::Fold(Folding::Minimum, of),
        Primitive::Fold(Folding::Maximum, of),
    ];
    primitives_before(&primitives, older, bump)
}

/// The members of a scalar type that are no conversions.
#[tactic(auto, using(crate::proofs::Openings::others))]
fn other_members<'a>(of: ScalarType, bump: &'a Bump) -> Result<&'a Members<'a>, Stop<'a>>
    ensures ok { IfOk result (λ all. all.now ≡ map primitive_member (other_members of)) }
    ensures err { IfErr result (λ e. e ≡ stop.Memory) }
{
    let none = match no_members(bump) {
        Ok(none) => none,
        Err(_) => return Err(Stop::Memory),
    };
    match of {
        ScalarType::Int(of) => integers_before(of, none, bump),
        ScalarType::Bool => Ok(none),
    }
}

/// The members of the module of a scalar type: the conversions to it, and what an integer type has besides.
#[tactic(auto, using(crate::proofs::Openings::all_members_of))]
pub fn scalar_members<'a>(of: ScalarType, bump: &'a Bump) -> Result<&'a Members<'a>, Stop<'a>>
    ensures ok { IfOk result (λ all. all.now ≡ scalar_members of) }
    ensures err { IfErr result (λ e. e ≡ stop.Memory) }
{
    let others = match other_members(of, bump) {
        Ok(others) => others,
        Err(stop) => return Err(stop),
    };
    let conversions = [
        Primitive::Convert {
            to: of,
            from: ScalarType::Int(IntType::I8),
        },
        Primitive::Convert {
            to: of,
            from: ScalarType::Int(IntType::I16),
        },
        Primitive::Convert {
            to: of,
            from: ScalarType::Int(IntType::I32),
        },
        Primitive::Convert {
            to: of,
            from: ScalarType::Int(IntType::I64),
        },
        Primitive::Convert {
            to: of,
            from: ScalarType::Int(IntType::U8),
        },
        Primitive::Convert {
            to: of,
            from: ScalarType::Int(IntType::U16),
        },
        Primitive::Convert {
            to: of,
            from: ScalarType::Int(IntType::U32),
        },
        Primitive::Convert {
            to: of,
            from: ScalarType::Int(IntType::U64),
        },
        Primitive::Convert {
            to: of,
            from: ScalarType::Bool,
        },
    ];
    primitives_before(&conversions, others, bump)
}

/// What a module is that may be missing, which has no members then.
#[tactic(auto, using(crate::proofs::Openings::missing_held))]
fn present<'a>(contents: Option<Contents<'a>>, bump: &'a Bump) -> Result<Contents<'a>, Stop<'a>>
    ensures ok { IfOk result (λ c. contents_of c ≡ maybe_contents contents.entry) }
    ensures err { IfErr result (λ e. e ≡ stop.Memory) }
{
    match contents {
        Some(contents) => Ok(contents),
        None => match no_members(bump) {
            Ok(none) => Ok(Contents::Members(none)),
            Err(_) => Err(Stop::Memory),
        },
    }
}

/// What a module is.
#[tactic(auto, using(crate::proofs::Openings::holdings))]
pub fn contents_of<'a>(
    modules: &[Contents<'a>],
    of: ModuleRef,
    bump: &'a Bump,
) -> Result<Contents<'a>, Stop<'a>>
    ensures ok { IfOk result (λ c. contents_of c ≡ contents_in (modules_of modules.now) (module_ref_of of)) }
    ensures err { IfErr result (λ e. e ≡ stop.Memory) }
{
    match of {
        ModuleRef::Made(number) => present(contents_at(modules, number), bump),
        ModuleRef::Scalar(scalar) => match scalar_members(scalar, bump) {
            Ok(members) => Ok(Contents::Members(members)),
            Err(stop) => Err(stop),
        },
    }
}

/// What the opening of a module brings. What is parametric has no members.
pub fn opened<'a>(
    body: &'a ModExp<'a>,
    of: ModuleRef,
    is_local: bool,
    block: Block<'a>,
    bump: &'a Bump,
    state: &mut Declaring<'a>,
) -> Result<Block<'a>, Stop<'a>>
    ensures { Does block_of (open_step is_local body.now (module_ref_of of) (block_of block.entry)) state.old state.new result }
{
    let contents = match contents_of(state.names.modules(), of, bump) {
        Ok(contents) => contents,
        Err(stop) => return Err(stop),
    };
    match contents {
        Contents::Members(members) => brought(is_local, members, block, bump),
        Contents::Parametric(_) => match called(body, bump) {
            Ok(name) => Err(Stop::Refused(Refusal::Unbound {
                name,
                at: body.place,
            })),
            Err(stop) => Err(stop),
        },
    }
}
