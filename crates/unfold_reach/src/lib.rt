//! Which definitions of a flat program an entry reaches: those that it names, and those that they name.
//!
//! A definition names others as values, by the uses in its term, and as sizes, by the sized types that are told for the nodes of
//! its term. It is named by later ones alone, so one pass from the last to the first tells. It is linear in the size of the
//! definitions that are reached and of their sized types, with a table by number, beside a pass that numbers the nodes.
#![tactic(auto)]

mod sizes;
mod spans;
mod table;
mod uses;

ghost use Rattle.std.specs.Prelude.{◌≡◌, IfOk, Option, false, length, replicate};
ghost use Rattle.fut_meaning.specs.Found.{Sizing};
ghost use Rattle.told_rows.specs.Tables.{Told_by};
ghost use Rattle.unfold_reach.specs.Reach.{Below, Noted_definition, Reached, Spans};

use crate::sizes::note_told;
use crate::spans::{Span, number};
use crate::table::{is_named, name};
use crate::uses::note;
use bumpalo::Bump;
use bumpalo::collections::into_bump_slice;
use fut_flat::Definition;
use fut_scalar::{BindId, NoMemory};
use told_rows::Sizes;

/// A number above those of all definitions.
pub fn above(definitions: &[Definition<'_>]) -> usize
    ensures { Below result definitions.now }
{
    let mut count = 0;
    for definition in definitions {
        count = count.max(definition.bind.0 as usize + 1);
    }
    count
}

/// Whether each definition is reached, where there may be a sizing. `count` is a number above those of all definitions.
pub fn reached<'a>(
    bump: &'a Bump,
    definitions: &[Definition<'_>],
    count: usize,
    entry: BindId,
    sizes: Option<&Sizes<'_>>,
) -> Result<&'a [bool], NoMemory>
    requires below { Below count definitions.now }
    ensures ok { (z : Option Sizing) → Told_by sizes.entry z → IfOk result (λ flags. Reached z entry.0 definitions.now flags.now) }
    ensures len { IfOk result (λ flags. length flags.now ≡ length definitions.now) }
{
    let mut spans = vec![in bump; Span { first: 0, end: 0 }; definitions.len()]?;
    number(definitions, &mut spans)?;
    let mut named = vec![in bump; false; count]?;
    let mut flags = vec![in bump; false; definitions.len()]?;
    mark(definitions, &spans, entry, sizes, &mut named, &mut flags);
    Ok(into_bump_slice(flags))
}

// Marks the definitions that are reached. A definition is named by later ones alone.
fn mark(
    definitions: &[Definition<'_>],
    spans: &[Span],
    entry: BindId,
    sizes: Option<&Sizes<'_>>,
    named: &mut [bool],
    flags: &mut [bool],
)
    requires below { Below (length named.old) definitions.now }
    requires named { named.old ≡ replicate (length named.old) false }
    requires flags { length flags.old ≡ length definitions.now }
    requires spans { Spans definitions.now spans.now }
    requires numbered { length spans.now ≡ length definitions.now }
    ensures reached { (z : Option Sizing) → Told_by sizes.entry z → Reached z entry.0 definitions.now flags.new }
    ensures len { length flags.new ≡ length flags.old }
{
    name(named, entry);
    let mut at = definitions.len();
    while at > 0 {
        at -= 1;
        flags[at] = note_definition(named, &definitions[at], spans[at], sizes);
    }
}

// Notes what a definition names as a value or as a size, if it is named.
fn note_definition(
    named: &mut [bool],
    definition: &Definition<'_>,
    span: Span,
    sizes: Option<&Sizes<'_>>,
) -> bool
    ensures { Noted_definition sizes.entry span definition.now named.old named.new result }
{
    if is_named(named, definition.bind) {
        note(named, definition.value);
        note_told(named, sizes, span);
        true
    } else {
        false
    }
}
