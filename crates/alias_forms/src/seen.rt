// What the walk answers for a term.
ghost use Rattle.std.specs.Prelude.{◌≡◌, [], IfOk};
ghost use Rattle.fut_aliases.specs.Aliases.{Naming};
ghost use Rattle.fut_aliases.specs.Capturing.{or_function, or_name};
ghost use Rattle.fut_aliases.specs.Looking.{whole};
ghost use Rattle.fut_aliases.specs.declared.refusals.Named.TheVariants.{AFunction};
ghost use Rattle.fut_flat.specs.Erased.{FlatTerm};
ghost use Rattle.fut_types.specs.Types.{Kinds};
ghost use Rattle.fut_typing.specs.Names.{Names};
ghost use Rattle.alias_program.specs.Program.{sub_of};
ghost use Rattle.alias_values.specs.Trees.{value_of};
ghost use Rattle.uniqueness.specs.Answers.{Stepped};
ghost use Rattle.alias_forms.specs.Plain.{is_plain};
ghost use Rattle.alias_forms.specs.Seen.{Ends, Names_in, part_seen};

use alias_applications::{Told, whole};
use alias_losses::Losses;
use alias_program::{Part, Program};
use alias_scopes::ScopeTree;
use alias_values::ValueTree;
use bumpalo::Bump;
use bumpalo::collections::into_bump_slice;
use fut_aliases::Named;
use fut_flat::Act;
use uniqueness::{Held, Here, Stop};

/// Where a term is looked at.
#[derive(Clone, Copy)]
pub struct Site<'a> {
    pub program: Program<'a>,
    pub here: Here<'a>,
    pub scope: &'a ScopeTree<'a>,
}

/// What the walk answers for a term.
#[derive(Clone, Copy)]
pub struct Seen<'a> {
    pub part: Part<'a>,
    /// What the term is called if it is a function.
    pub called: Named,
    /// The first name in it, if there is one.
    pub first_name: Option<Named>,
    /// The number behind its numbers.
    pub after: u32,
}

/// A term whose value is there.
#[derive(Clone, Copy)]
pub struct Found<'a> {
    pub held: Held<'a>,
    /// What the term is called if it is a function.
    pub called: Named,
    /// The first name in it, if there is one.
    pub first_name: Option<Named>,
    /// The number behind its numbers.
    pub after: u32,
}

/// Several terms one after another whose values are there.
#[derive(Clone, Copy)]
pub struct FoundParts<'a> {
    pub parts: &'a [Held<'a>],
    /// The first name in them, if there is one.
    pub first_name: Option<Named>,
    /// The number behind their numbers.
    pub after: u32,
}

/// What is in scope behind `let`s.
#[derive(Clone, Copy)]
pub struct Inside<'a> {
    pub scope: &'a ScopeTree<'a>,
    /// The first name in their values, if there is one.
    pub first_name: Option<Named>,
    /// The number behind their numbers.
    pub after: u32,
}

/// A function by its name if it has one.
pub fn or_function(name: Option<Named>) -> Named
    ensures { result ≡ or_function name }
{
    match name {
        Some(named) => named,
        None => Named::AFunction,
    }
}

/// The first of two names.
pub fn or_name(one: Option<Named>, other: Option<Named>) -> Option<Named>
    ensures { result ≡ or_name one other }
{
    match one {
        Some(_) => one,
        None => other,
    }
}

/// No arguments.
pub fn no_held<'a>(bump: &'a Bump) -> &'a [Held<'a>]
    ensures { result.now ≡ [] }
{
    into_bump_slice(Vec::new(bump))
}

/// Whether an operation is looked at by the parts that it has, whatever they are.
pub fn is_plain(act: &Act<'_>) -> bool
    ensures { result ≡ is_plain act.now }
{
    match *act {
        Act::Project(_) | Act::Declared(_) => false,
        Act::Int { .. }
        | Act::Truth(_)
        | Act::Tuple
        | Act::Record(_)
        | Act::Array
        | Act::Binary(_)
        | Act::Negate
        | Act::Complement
        | Act::Index(_)
        | Act::Update
        | Act::Replace(_)
        | Act::Ascribe(_)
        | Act::Coerce(_)
        | Act::Assert
        | Act::Range { .. } => true,
    }
}

/// A value at the node of a term that has no name.
pub fn whole_seen<'a>(
    bump: &'a Bump,
    program: &Program<'a>,
    losses: &Losses,
    node: u32,
    first_name: Option<Named>,
    next: u32,
    value: &'a ValueTree<'a>,
) -> Result<Seen<'a>, Stop>
    ensures step { (naming : Naming) (N : Names) (K : Kinds) (e : FlatTerm) → Names_in e AFunction first_name → Stepped part_seen (whole naming N K (sub_of program.now.types.now) e node (value_of value.now)) losses.now losses.now result }
    ensures ends { IfOk result (Ends AFunction first_name next) }
{
    let told = Told {
        node,
        called: Named::AFunction,
        first_name: or_function(first_name),
    };
    let part = whole(bump, program, losses, told, value)?;
    Ok(Seen {
        part,
        called: Named::AFunction,
        first_name,
        after: next,
    })
}
