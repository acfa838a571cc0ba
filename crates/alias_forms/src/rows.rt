// Lets.
ghost use Rattle.std.specs.Prelude.{◌≡◌, ◌+◌, suc, IfOk, List, None, length};
ghost use Rattle.fut_aliases.specs.Aliases.{Naming, first_name_alone};
ghost use Rattle.fut_aliases.specs.Capturing.{called as called_so, or_name};
ghost use Rattle.fut_aliases.specs.Looking.{behind_let, held, let_fits, part_of};
ghost use Rattle.fut_aliases.specs.Steps.{Losses as HeldLosses, and_then, give};
ghost use Rattle.fut_aliases.specs.declared.refusals.Named.TheVariants.{AFunction};
ghost use Rattle.fut_flat.specs.Erased.{FlatTerm, Row, lets, pattern_of};
ghost use Rattle.fut_flat.specs.Numbers.{pattern_numbers};
ghost use Rattle.fut_flat.proofs.ErasedForms.{row_of};
ghost use Rattle.fut_types.specs.Shapes.{IsTable};
ghost use Rattle.fut_types.specs.Types.{Kinds};
ghost use Rattle.fut_typing.specs.Names.{Names};
ghost use Rattle.alias_parts.specs.Known.{Knows};
ghost use Rattle.alias_program.specs.Program.{sub_of};
ghost use Rattle.alias_scopes.specs.Scopes.{scope_of};
ghost use Rattle.alias_values.specs.Trees.{value_of};
ghost use Rattle.uniqueness.specs.Answers.{Stepped};
ghost use Rattle.uniqueness.specs.Held.{held_of, here_of};
ghost use Rattle.alias_forms.specs.Rows.{row_name};
ghost use Rattle.alias_forms.specs.Seen.{Ends, Names_in, part_seen};
ghost use Rattle.alias_forms.specs.Walked.{here_at, kinds_at, types_at};

use crate::seen::{Found, Inside, Seen, Site, no_held, or_function, or_name};
use alias_applications::{Told, hold};
use alias_losses::Losses;
use alias_patterns::{bound, let_fits};
use alias_program::{Part, Program, after, type_at};
use alias_scopes::ScopeTree;
use bumpalo::Bump;
use flat_numbers::after_pattern;
use fut_aliases::Named;
use fut_flat::{Let, Pat};
use fut_scalar::NoMemory;
use uniqueness::{Held, Stop};

/// The node of the value that a pattern is bound to, behind the pattern's, where a let or a loop begins.
pub fn value_node(at: u32, pattern: &Pat<'_>) -> Result<u32, NoMemory>
    ensures { IfOk result (λ node. node ≡ 1 + at + pattern_numbers (pattern_of pattern.now)) }
{
    let first = after(at, 1)?;
    let node = after_pattern(first, pattern)?;
    Ok(node)
}

/// The scope behind a let, whose value fits its pattern.
#[tactic(auto, using(crate::proofs::Binding::nothing))]
pub fn bind_let<'a>(
    bump: &'a Bump,
    site: &Site<'a>,
    one: &Let<'_>,
    at: u32,
    held: &Held<'a>,
) -> Result<&'a ScopeTree<'a>, Stop>
    requires table { IsTable site.now.program.names.table.now }
    ensures { (N : Names) → Knows site.now.program.names N → (ls : HeldLosses) → Stepped (λ made. here_of (scope_of made.now) site.now.here) (and_then (let_fits first_name_alone N (kinds_at site.now) (types_at site.now) (here_at site.now) (row_of one.now).0.pattern (1 + at) (held_of held.now)) (λ z. give (behind_let first_name_alone N (kinds_at site.now) (types_at site.now) (row_of one.now).0 at (held_of held.now) (here_at site.now)))) ls ls result }
{
    let Ok(first) = after(at, 1) else {
        return Err(Stop::Memory);
    };
    let_fits(bump, &site.program, &site.here, &one.pat, first, held)?;
    match bound(
        bump,
        &site.program,
        false,
        &one.pat,
        first,
        held.value,
        site.scope,
    ) {
        Ok(made) => Ok(made),
        Err(_) => Err(Stop::Memory),
    }
}

// How what stands behind the first of so many `let`s is called, before a body that is called so.
#[tactic(auto, using(crate::proofs::NameForms::row_calls))]
fn row_called(count: usize, called: Named) -> Named
    ensures { (ls : List Row) (e : FlatTerm) → count ≡ suc (length ls) → called ≡ called_so e → result ≡ called_so (lets ls e) }
{
    if count == 1 { called } else { Named::AFunction }
}

/// What a row of `let`s gives at a node, of which there are so many: what the body behind it does, in the place of what stands behind
/// the first.
#[tactic(auto, using(crate::proofs::Binding::nothing))]
pub fn end_lets<'a>(
    bump: &'a Bump,
    program: &Program<'a>,
    losses: &Losses,
    count: usize,
    one: &Inside<'a>,
    row: &Inside<'a>,
    found: &Found<'a>,
    at: u32,
) -> Result<Seen<'a>, Stop>
    ensures step { (naming : Naming) (N : Names) (K : Kinds) (ls : List Row) (e : FlatTerm) → count ≡ suc (length ls) → row.now.first_name ≡ row_name ls → Names_in e found.now.called found.now.first_name → Stepped part_seen (and_then (held (lets ls e) one.now.after (value_of found.now.held.value.now)) (λ a. give (part_of a None (sub_of program.now.types.now at)))) losses.now losses.now result }
    ensures ends { IfOk result (Ends AFunction (or_name one.now.first_name (or_name row.now.first_name found.now.first_name)) found.now.after) }
{
    let Ok(ty) = type_at(program, at) else {
        return Err(Stop::Memory);
    };
    let later_name = or_name(row.first_name, found.first_name);
    let told = Told {
        node: one.after,
        called: row_called(count, found.called),
        first_name: or_function(later_name),
    };
    let part = Part {
        head: hold(losses, told, found.held.value),
        name: None,
        ty,
        arguments: no_held(bump),
    };
    Ok(Seen {
        part,
        called: Named::AFunction,
        first_name: or_name(one.first_name, later_name),
        after: found.after,
    })
}
