// Functions: where a body stands, what is wanted of its result, and what stands for the function.
ghost use Rattle.std.specs.Prelude.{◌≡◌, ◌+◌, false, Ok, IfOk, Option, length, map};
ghost use Rattle.fut_aliases.specs.Aliases.{Naming, first_name_alone};
ghost use Rattle.fut_aliases.specs.Calls.{Held as DefinedHeld};
ghost use Rattle.fut_aliases.specs.Capturing.{capture, captures, some_name};
ghost use Rattle.fut_aliases.specs.Looking.{all_kept, both_wanted, capture_fits, function_stars, in_function, or_plain, wanted_result};
ghost use Rattle.fut_aliases.specs.Patterns.{Scope};
ghost use Rattle.fut_aliases.specs.Stars.{Stars, spread, written_stars};
ghost use Rattle.fut_aliases.specs.Steps.{Losses as HeldLosses, Step};
ghost use Rattle.fut_aliases.specs.Values.{Function};
ghost use Rattle.fut_aliases.specs.declared.refusals.Named.TheVariants.{AFunction};
ghost use Rattle.fut_flat.specs.Erased.{pattern_of, patterns, term_of, type_of};
ghost use Rattle.fut_flat.specs.Numbers.{all_pattern_numbers};
ghost use Rattle.fut_types.specs.Shapes.{IsTable};
ghost use Rattle.fut_types.specs.Types.{Kinds, Sub};
ghost use Rattle.fut_typing.specs.Names.{Names};
ghost use Rattle.alias_parts.specs.Known.{Knows};
ghost use Rattle.alias_patterns.specs.Wanted.{wanted_of};
ghost use Rattle.alias_program.specs.Program.{sub_of};
ghost use Rattle.alias_scopes.specs.Scopes.{scope_of};
ghost use Rattle.alias_types.specs.Kinds.{kinds_of};
ghost use Rattle.alias_values.specs.Trees.{stars_of, value_of};
ghost use Rattle.uniqueness.specs.Answers.{Stepped};
ghost use Rattle.uniqueness.specs.Held.{here_of};
ghost use Rattle.alias_forms.specs.Functions.{Enters, function_step};
ghost use Rattle.alias_forms.specs.Seen.{Ends, held_found, part_seen};
ghost use Rattle.alias_forms.specs.Walked.{here_at, kinds_at, types_at};

use crate::seen::{Found, Seen, Site, whole_seen};
use alias_applications::give_back;
use alias_captures::captured;
use alias_joins::either;
use alias_losses::{Losses, Telling};
use alias_patterns::{
    all_kept, declared_stars, function_stars, result_stars, stars_at, with_parameters,
};
use alias_program::{Program, after, type_at};
use alias_scopes::ScopeTree;
use alias_types::spread;
use alias_values::{StarTree, ValueTree, function, union};
use bumpalo::Bump;
use flat_numbers::after_patterns;
use fut_aliases::{Alias, Spot};
use fut_flat::{Exp, Pat, TypeExp};
use fut_scalar::NoMemory;
use uniqueness::{Here, Stop, end_body};

/// Where the body of a function stands, and what is wanted of it.
#[derive(Clone, Copy)]
pub struct Entered<'a> {
    pub here: Here<'a>,
    pub scope: &'a ScopeTree<'a>,
    pub node: u32,
    /// What is declared of its result with what is wanted of it, if anything is.
    pub wanted: Option<&'a StarTree<'a>>,
    /// The stars of its result.
    pub stars: &'a StarTree<'a>,
}

/// The stars that are wanted, or else those of a written type at a node.
pub fn declared_or_wanted<'a>(
    bump: &'a Bump,
    program: &Program<'a>,
    written: &TypeExp<'_>,
    wanted: Option<&'a StarTree<'a>>,
    node: u32,
) -> Result<&'a StarTree<'a>, NoMemory>
    requires table { IsTable program.now.names.table.now }
    ensures { (N : Names) → Knows program.now.names N → IfOk result (λ made. stars_of made.now ≡ or_plain (wanted_of wanted.entry) (written_stars N false (type_of written.now) (sub_of program.now.types.now node))) }
{
    match wanted {
        Some(stars) => Ok(stars),
        None => {
            let stars = stars_at(bump, program, written, node)?;
            Ok(stars)
        }
    }
}

// What is wanted of a function's result.
fn wanted_result<'a>(
    bump: &'a Bump,
    parameters: &[Pat<'_>],
    wanted: Option<&'a StarTree<'a>>,
) -> Result<Option<&'a StarTree<'a>>, NoMemory>
    ensures { IfOk result (λ found. wanted_of found ≡ wanted_result (patterns (map pattern_of parameters.now)) (wanted_of wanted.entry)) }
{
    match wanted {
        Some(stars) => {
            let found = result_stars(bump, parameters, stars)?;
            Ok(Some(found))
        }
        None => Ok(None),
    }
}

// What is wanted in two ways.
fn both_wanted<'a>(
    bump: &'a Bump,
    one: Option<&'a StarTree<'a>>,
    other: Option<&'a StarTree<'a>>,
) -> Result<Option<&'a StarTree<'a>>, NoMemory>
    ensures { (naming : Naming) (N : Names) (K : Kinds) (types : Sub) → IfOk result (λ found. wanted_of found ≡ both_wanted naming N K types (wanted_of one.entry) (wanted_of other.entry)) }
{
    match one {
        Some(stars) => match other {
            Some(also) => {
                let both = either(bump, stars, also)?;
                Ok(Some(both))
            }
            None => Ok(one),
        },
        None => Ok(other),
    }
}

// The stars of a function's result: those that are wanted, or else none over its type.
fn plain_or_wanted<'a>(
    bump: &'a Bump,
    program: &Program<'a>,
    wanted: Option<&'a StarTree<'a>>,
    node: u32,
) -> Result<&'a StarTree<'a>, NoMemory>
    ensures { IfOk result (λ made. stars_of made.now ≡ or_plain (wanted_of wanted.entry) (spread false (sub_of program.now.types.now node))) }
{
    match wanted {
        Some(stars) => Ok(stars),
        None => {
            let ty = type_at(program, node)?;
            let stars = spread(bump, false, ty)?;
            Ok(stars)
        }
    }
}

// The parameters without a star of a function and of those around it.
fn body_here<'a>(
    bump: &'a Bump,
    site: &Site<'a>,
    parameters: &[Pat<'_>],
    first: u32,
    at: u32,
) -> Result<Here<'a>, NoMemory>
    requires table { IsTable site.now.program.names.table.now }
    ensures { (N : Names) → Knows site.now.program.names N → (scope : Scope) → IfOk result (λ here. here_of scope here ≡ in_function at (all_kept first_name_alone N (kinds_at site.now) (types_at site.now) (patterns (map pattern_of parameters.now)) first) scope (here_at site.now)) }
{
    let kept = all_kept(bump, &site.program, parameters, first)?;
    let fixed = union(bump, kept, site.here.fixed)?;
    Ok(Here {
        fixed,
        loop_from: site.here.loop_from,
        function_from: at,
        asked: site.here.asked,
    })
}

/// Enters the body of a function that stands at a node.
#[tactic(auto, using(crate::proofs::Binding::nothing))]
pub fn enter_body<'a>(
    bump: &'a Bump,
    site: &Site<'a>,
    parameters: &[Pat<'_>],
    body: &Exp<'_>,
    wanted: Option<&'a StarTree<'a>>,
    at: u32,
) -> Result<Entered<'a>, NoMemory>
    requires table { IsTable site.now.program.names.table.now }
    ensures node { IfOk result (λ entered. entered.node ≡ 1 + at + all_pattern_numbers (patterns (map pattern_of parameters.now))) }
    ensures enters { (N : Names) → Knows site.now.program.names N → IfOk result (Enters N site.now (patterns (map pattern_of parameters.now)) (term_of body.now) at (wanted_of wanted.entry)) }
{
    let first = after(at, 1)?;
    let node = after_patterns(first, parameters)?;
    let here = body_here(bump, site, parameters, first, at)?;
    let scope = with_parameters(bump, &site.program, parameters, first, site.scope)?;
    let declared = declared_stars(bump, &site.program, body, node)?;
    let also = wanted_result(bump, parameters, wanted)?;
    let both = both_wanted(bump, declared, also)?;
    let stars = plain_or_wanted(bump, &site.program, both, node)?;
    Ok(Entered {
        here,
        scope,
        node,
        wanted: both,
        stars,
    })
}

// Nothing that a function at a node names from outside was consumed.
#[tactic(auto, using(crate::proofs::Binding::nothing))]
fn capture_fits(here: &Here<'_>, losses: &Losses, at: u32, names: &[Alias]) -> Result<(), Stop>
    ensures { (naming : Naming) (N : Names) (K : Kinds) (types : Sub) (scope : Scope) → Stepped (λ u. tt) (capture_fits naming N K types (here_of scope here.now) at names.now) losses.now losses.now result }
{
    if !here.asked {
        return Ok(());
    }
    match losses.lost(0, Telling::TheAlias, Spot::First(at), names) {
        Some(rule) => Err(Stop::Refused(rule)),
        None => Ok(()),
    }
}

// What stands for a function at a node: what its body names from outside, and its stars.
fn function_value<'a>(
    bump: &'a Bump,
    site: &Site<'a>,
    parameters: &[Pat<'_>],
    names: &'a [Alias],
    stars: &'a StarTree<'a>,
    at: u32,
) -> Result<&'a ValueTree<'a>, NoMemory>
    requires table { IsTable site.now.program.names.table.now }
    ensures { (N : Names) → Knows site.now.program.names N → IfOk result (λ made. value_of made.now ≡ Function names.now (function_stars first_name_alone N (kinds_at site.now) (types_at site.now) (patterns (map pattern_of parameters.now)) (1 + at) (stars_of stars.now))) }
{
    let first = after(at, 1)?;
    let arrows = function_stars(bump, &site.program, parameters, first, stars)?;
    let made = function(bump, names, arrows)?;
    Ok(made)
}

/// Leaves the body of a function, whose value is there: what the body consumed is put back, and nothing that it names from outside
/// was consumed before.
#[tactic(auto, using(crate::proofs::Binding::nothing))]
pub fn end_function<'a>(
    bump: &'a Bump,
    site: &Site<'a>,
    losses: &mut Losses,
    before: usize,
    parameters: &[Pat<'_>],
    body: &Exp<'_>,
    entered: &Entered<'a>,
    found: &Found<'a>,
    at: u32,
) -> Result<Seen<'a>, Stop>
    requires table { IsTable site.now.program.names.table.now }
    ensures step { (N : Names) → Knows site.now.program.names N → (w : Option Stars) → Enters N site.now (patterns (map pattern_of parameters.now)) (term_of body.now) at w entered.now → (m : Step DefinedHeld) (ls : HeldLosses) → before ≡ length ls → Stepped held_found m ls losses.old (Ok found.now) → found.now.first_name ≡ some_name (term_of body.now) → Stepped part_seen (function_step N site.now (patterns (map pattern_of parameters.now)) (term_of body.now) at w m) ls losses.new result }
    ensures ends { IfOk result (Ends AFunction found.now.first_name found.now.after) }
{
    give_back(bump, &entered.here, entered.stars, &found.held)?;
    end_body(losses, before);
    let Ok(names) = captured(bump, &site.program.names, site.scope, body) else {
        return Err(Stop::Memory);
    };
    capture_fits(&site.here, losses, at, names)?;
    let Ok(value) = function_value(bump, site, parameters, names, entered.stars, at) else {
        return Err(Stop::Memory);
    };
    whole_seen(
        bump,
        &site.program,
        losses,
        at,
        found.first_name,
        found.after,
        value,
    )
}
