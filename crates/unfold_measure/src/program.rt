// The measure of a program.
ghost use Rattle.std.specs.Prelude.{◌≡◌, ◌≤◌, ◌+◌, IfErr, IfOk, Option, map, max, length};
ghost use Rattle.fut_flat.specs.Erased.{term_of};
ghost use Rattle.fut_meaning.specs.Comes.{Program_lost};
ghost use Rattle.fut_meaning.specs.Flats.{flat_tops, named_terms};
ghost use Rattle.fut_meaning.specs.Found.{Sizing};
ghost use Rattle.fut_meaning.specs.Knowns.{empty, known_as};
ghost use Rattle.fut_meaning.specs.Measures.{Measures};
ghost use Rattle.fut_meaning.specs.Walk.{Definition_visits};
ghost use Rattle.told_rows.specs.Tables.{Told_by};
ghost use Rattle.unfold_measure.specs.Held.{known_of, scope_of};
ghost use Rattle.unfold_measure.specs.Program.{Definition_to, Definitions_to, Program_to};
ghost use Rattle.unfold_reach.specs.Reach.{Reached, named_term};
ghost use Rattle.unfold_measure.specs.declared.stop.Stop.TheVariants as stop;

use crate::known::Scope;
use crate::scope::{bound, find, no_scope};
use crate::stop::Stop;
use crate::tops::Tops;
use crate::walk::{run_with_data, walk};
use crate::walked::{Used, Walked};
use bumpalo::Bump;
use fut_flat::{Definition, Flat};
use fut_meaning::{MeasureErr, Measured};
use fut_scalar::BindId;
use told_rows::Sizes;
use unfold_reach::{above, reached};

/// What is known of the definitions that were walked, and their visits.
#[derive(Clone, Copy)]
pub struct Made<'a> {
    pub list: &'a Scope<'a>,
    pub nodes: u32,
    pub depth: u32,
}

// What is known with one more definition, and its visits beside those before.
fn enter<'a>(
    bump: &'a Bump,
    made: Made<'a>,
    number: BindId,
    walked: Walked<'a>,
) -> Result<Made<'a>, Stop>
    requires few { made.nodes + walked.nodes ≤ 1048576 }
    ensures list { IfOk result (λ r. scope_of r.list.now ≡ known_as number (known_of walked.entry.known) (scope_of made.entry.list.now)) }
    ensures nodes { IfOk result (λ r. r.nodes ≡ made.entry.nodes + walked.entry.nodes) }
    ensures depth { IfOk result (λ r. r.depth ≡ max made.entry.depth walked.entry.depth) }
    ensures err { IfErr result (λ e. e ≡ stop.Memory) }
{
    let list = match bound(bump, number, walked.known, made.list) {
        Ok(list) => list,
        Err(stop) => return Err(stop),
    };
    Ok(Made {
        list,
        nodes: made.nodes + walked.nodes,
        depth: made.depth.max(walked.depth),
    })
}

// One more definition, if it is reached.
fn walk_definition<'a>(
    bump: &'a Bump,
    made: Made<'a>,
    reached: bool,
    definition: &Definition<'a>,
) -> Result<Made<'a>, Stop>
    requires few { made.nodes ≤ 1048576 }
    requires flat { made.depth ≤ 1000 }
    ensures walk { Definition_to definition.now.bind (term_of definition.now.value.now) reached made.entry result }
    ensures few { IfOk result (λ r. r.nodes ≤ 1048576) }
    ensures flat { IfOk result (λ r. r.depth ≤ 1000) }
{
    if reached {
        let tops = Tops {
            bump,
            known: made.list,
        };
        let used = Used {
            nested: 0,
            level: 0,
            spent: made.nodes,
        };
        match walk(&tops, used, no_scope(), definition.value) {
            Ok(walked) => enter(bump, made, definition.bind, walked),
            Err(stop) => Err(stop),
        }
    } else {
        Ok(made)
    }
}

// The definitions that are reached, in their order.
fn walk_definitions<'a>(
    bump: &'a Bump,
    entry: BindId,
    flags: &[bool],
    definitions: &[Definition<'a>],
) -> Result<Made<'a>, Stop>
    requires length { length flags.now ≡ length definitions.now }
    ensures walk { (z : Option Sizing) → Reached z entry.0 definitions.now flags.now → Definitions_to z entry.0 (flat_tops 0 (map named_term definitions.now)) result }
    ensures few { IfOk result (λ r. r.nodes ≤ 1048576) }
    ensures flat { IfOk result (λ r. r.depth ≤ 1000) }
{
    let mut made = Made {
        list: no_scope(),
        nodes: 0,
        depth: 0,
    };
    let mut at = 0;
    for definition in definitions {
        made = match walk_definition(bump, made, flags[at], definition) {
            Ok(next) => next,
            Err(stop) => return Err(stop),
        };
        at += 1;
    }
    Ok(made)
}

// The entry, applied to so much data, behind the definitions.
#[tactic(auto, using(crate::proofs::Definitions::entries))]
fn walk_entry(
    tops: &Tops<'_>,
    nodes: u32,
    depth: u32,
    flat: &Flat<'_>,
    entry: BindId,
    arguments: u32,
) -> Result<Measured, Stop>
    requires few { nodes ≤ 1048576 }
    requires flat { depth ≤ 1000 }
    ensures { (z : Option Sizing) → Definition_visits z entry.0 empty (flat_tops 0 (named_terms flat.now)) (scope_of tops.now.known.now) nodes depth → Program_to z entry.0 arguments (flat_tops 0 (named_terms flat.now)) result }
{
    match find(tops.known, entry) {
        Some(known) => {
            let r = match run_with_data(
                tops,
                Used {
                    nested: 0,
                    level: 0,
                    spent: nodes,
                },
                arguments,
                known,
            ) {
                Ok(r) => r,
                Err(stop) => return Err(stop),
            };
            Ok(Measured {
                nodes: nodes + r.nodes,
                depth: depth.max(r.depth),
            })
        }
        None => Err(Stop::Lost),
    }
}

/// The measure of a program, or why its walk stops: `Lost` where it comes to what no typed program has. A definition that a
/// size names is walked too, where a sizing is told.
#[tactic(auto, using(crate::proofs::Definitions::programs))]
pub fn measure_or_lost<'a>(
    bump: &'a Bump,
    flat: &Flat<'a>,
    entry: BindId,
    arguments: u32,
    sizes: Option<&Sizes<'_>>,
) -> Result<Measured, Stop>
    ensures { (z : Option Sizing) → Told_by sizes.entry z → Program_to z entry.0 arguments (flat_tops 0 (named_terms flat.now)) result }
{
    let count = above(flat.definitions);
    let flags = match reached(bump, flat.definitions, count, entry, sizes) {
        Ok(flags) => flags,
        Err(_) => return Err(Stop::Memory),
    };
    let made = match walk_definitions(bump, entry, flags, flat.definitions) {
        Ok(made) => made,
        Err(stop) => return Err(stop),
    };
    let tops = Tops {
        bump,
        known: made.list,
    };
    walk_entry(&tops, made.nodes, made.depth, flat, entry, arguments)
}

/// The measure of a program from an entry on, which takes so many arguments: the visits of the walk, and how many of them
/// lie inside each other. Where a sizing is told, definitions that sizes name are visited too. What the walk needs of memory
/// stays in the arena.
///
/// # Errors
///
/// - `Nodes`: the walk comes to a visit with 1,048,576 visits before it.
/// - `Depth`: the walk comes to a visit inside 1,000 others.
/// - `Memory`: no memory.
#[tactic(auto, using(crate::proofs::Definitions::measures))]
pub fn measure<'a>(
    bump: &'a Bump,
    flat: &Flat<'a>,
    entry: BindId,
    arguments: u32,
    sizes: Option<&Sizes<'_>>,
) -> Result<Measured, MeasureErr>
    requires found { (z : Option Sizing) × Told_by sizes z × (Program_lost z entry.0 arguments (flat_tops 0 (named_terms flat.now)) → ⊥) }
    ensures { (z : Option Sizing) → Told_by sizes.entry z → Measures z (flat_tops 0 (named_terms flat.now)) entry.0 arguments result }
{
    match measure_or_lost(bump, flat, entry, arguments, sizes) {
        Ok(measured) => Ok(measured),
        Err(Stop::Nodes) => Err(MeasureErr::Nodes),
        Err(Stop::Depth) => Err(MeasureErr::Depth),
        Err(Stop::Lost) => unreachable!(),
        Err(Stop::Memory) => Err(MeasureErr::Memory),
    }
}
