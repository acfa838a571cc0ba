// Whether a value fits the functions that a pattern takes.
ghost use Rattle.std.specs.Prelude.{◌≡◌, map, IfOk};
ghost use Rattle.fut_aliases.specs.Aliases.{first_name_alone};
ghost use Rattle.fut_aliases.specs.Looking.{all_misfit, fields_misfit, let_fits, misfit};
ghost use Rattle.fut_aliases.specs.Patterns.{Scope};
ghost use Rattle.fut_aliases.specs.Steps.{Losses, or_else};
ghost use Rattle.fut_flat.specs.Erased.{pattern_of, patterns};
ghost use Rattle.fut_types.specs.Shapes.{IsTable};
ghost use Rattle.fut_typing.specs.Names.{Names};
ghost use Rattle.flat_numbers.specs.Fields.{field_patterns};
ghost use Rattle.alias_parts.specs.Known.{Knows};
ghost use Rattle.alias_program.specs.Program.{sub_of};
ghost use Rattle.alias_types.specs.Kinds.{kinds_of};
ghost use Rattle.alias_values.specs.Trees.{stars_of, value_of, values_of};
ghost use Rattle.alias_patterns.specs.Fields.{field_names};
ghost use Rattle.alias_patterns.specs.Ruled.{held_with, rule_of};
ghost use Rattle.uniqueness.specs.Answers.{Stepped};
ghost use Rattle.uniqueness.specs.Held.{held_of, here_of};

use crate::written::stars_at;
use alias_parts::part_named;
use alias_program::{Program, after};
use alias_types::functions;
use alias_values::{StarTree, ValueTree, consumes_more, gives_less};
use bumpalo::Bump;
use flat_numbers::after_pattern;
use fut_aliases::{Broken, Spot};
use fut_flat::{Pat, PatField, PatForm};
use fut_scalar::NoMemory;
use uniqueness::{Held, Here, Stop};

/// What a function may not do where another is wanted.
#[derive(Clone, Copy)]
pub enum Rule {
    /// Consume more.
    Hungry,
    /// Give less that is fresh.
    Shared,
}

// A rule for a value where functions with these stars are wanted.
fn ruled(
    bump: &Bump,
    rule: Rule,
    wanted: &StarTree<'_>,
    held: &Held<'_>,
) -> Result<Option<Broken>, NoMemory>
    ensures { IfOk result (λ broken. broken ≡ rule_of rule (stars_of wanted.now) (held_of held.now)) }
{
    let found = functions(bump, held.value)?;
    let broken = match rule {
        Rule::Hungry => consumes_more(wanted, found),
        Rule::Shared => gives_less(wanted, found),
    };
    if !broken {
        return Ok(None);
    }
    let at = Spot::First(held.node);
    match rule {
        Rule::Hungry => Ok(Some(Broken::NotConsumable(held.called, at))),
        Rule::Shared => Ok(Some(Broken::ResultAliases(held.first_name, at))),
    }
}

fn with_held<'a>(value: &'a ValueTree<'a>, held: &Held<'_>) -> Held<'a>
    ensures { held_of result ≡ held_with (value_of value.now) (held_of held.now) }
{
    Held {
        node: held.node,
        called: held.called,
        first_name: held.first_name,
        value,
        losses: held.losses,
    }
}

fn first_of(one: Option<Broken>, other: Option<Broken>) -> Option<Broken>
    ensures { result ≡ or_else one other }
{
    match one {
        Some(_) => one,
        None => other,
    }
}

// The first function that a pattern takes at a written type and that breaks a rule there.
#[cycle(fit)]
fn misfit<'a>(
    bump: &'a Bump,
    program: &Program<'_>,
    rule: Rule,
    pattern: &Pat<'_>,
    node: u32,
    held: &Held<'a>,
) -> Result<Option<Broken>, NoMemory>
    requires table { IsTable program.now.names.table.now }
    ensures { (N : Names) → Knows program.now.names N → IfOk result (λ broken. broken ≡ misfit first_name_alone N (kinds_of program.now.kinds.now) (sub_of program.now.types.now) (rule_of rule) (pattern_of pattern.now) node (held_of held.now)) }
{
    match pattern.form {
        PatForm::Bound(_) => Ok(None),
        PatForm::Wild => Ok(None),
        PatForm::Tuple(parts) => match held.value {
            ValueTree::Parts(_, values) => {
                let first = after(node, 1)?;
                let broken = all_misfit(bump, program, rule, parts, first, held, values)?;
                Ok(broken)
            }
            ValueTree::Scalar => Ok(None),
            ValueTree::Array(_) => Ok(None),
            ValueTree::Function(_, _) => Ok(None),
        },
        PatForm::Record(fields) => {
            let first = after(node, 1)?;
            let broken = fields_misfit(bump, program, rule, fields, first, held)?;
            Ok(broken)
        }
        PatForm::Typed(_, written) => {
            let wanted = stars_at(bump, program, written, node)?;
            let broken = ruled(bump, rule, wanted, held)?;
            Ok(broken)
        }
    }
}

#[cycle(fit)]
fn all_misfit<'a>(
    bump: &'a Bump,
    program: &Program<'_>,
    rule: Rule,
    parts: &[Pat<'_>],
    node: u32,
    held: &Held<'a>,
    values: &'a [ValueTree<'a>],
) -> Result<Option<Broken>, NoMemory>
    requires table { IsTable program.now.names.table.now }
    ensures { (N : Names) → Knows program.now.names N → IfOk result (λ broken. broken ≡ all_misfit first_name_alone N (kinds_of program.now.kinds.now) (sub_of program.now.types.now) (rule_of rule) (patterns (map pattern_of parts.now)) node (held_of held.now) (values_of values.now)) }
{
    let mut at = node;
    for i in 0..parts.len() {
        if i >= values.len() {
            return Ok(None);
        }
        let part = with_held(&values[i], held);
        let broken = misfit(bump, program, rule, &parts[i], at, &part)?;
        if broken.is_some() {
            return Ok(broken);
        }
        at = after_pattern(at, &parts[i])?;
    }
    Ok(None)
}

#[cycle(fit)]
fn fields_misfit<'a>(
    bump: &'a Bump,
    program: &Program<'_>,
    rule: Rule,
    fields: &[PatField<'_>],
    node: u32,
    held: &Held<'a>,
) -> Result<Option<Broken>, NoMemory>
    requires table { IsTable program.now.names.table.now }
    ensures { (N : Names) → Knows program.now.names N → IfOk result (λ broken. broken ≡ fields_misfit first_name_alone N (kinds_of program.now.kinds.now) (sub_of program.now.types.now) (rule_of rule) (field_names fields.now) (field_patterns fields.now) node (held_of held.now)) }
{
    let mut at = node;
    for field in fields {
        let value = part_named(bump, &program.names, field.name, held.value)?;
        let part = with_held(value, held);
        let broken = misfit(bump, program, rule, &field.pat, at, &part)?;
        if broken.is_some() {
            return Ok(broken);
        }
        at = after_pattern(at, &field.pat)?;
    }
    Ok(None)
}

/// A value fits the pattern of a `let`, which begins at a node: no function in it consumes more than the pattern's written types
/// say, and none gives less that is fresh.
pub fn let_fits(
    bump: &Bump,
    program: &Program<'_>,
    here: &Here<'_>,
    pattern: &Pat<'_>,
    node: u32,
    held: &Held<'_>,
) -> Result<(), Stop>
    requires table { IsTable program.now.names.table.now }
    ensures { (N : Names) → Knows program.now.names N → (scope : Scope) (losses : Losses) → Stepped (λ u. tt) (let_fits first_name_alone N (kinds_of program.now.kinds.now) (sub_of program.now.types.now) (here_of scope here.now) (pattern_of pattern.now) node (held_of held.now)) losses losses result }
{
    if !here.asked {
        return Ok(());
    }
    let Ok(hungry) = misfit(bump, program, Rule::Hungry, pattern, node, held) else {
        return Err(Stop::Memory);
    };
    let Ok(shared) = misfit(bump, program, Rule::Shared, pattern, node, held) else {
        return Err(Stop::Memory);
    };
    match first_of(hungry, shared) {
        Some(broken) => Err(Stop::Refused(broken)),
        None => Ok(()),
    }
}
