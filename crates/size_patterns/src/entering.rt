// The parameters of a lambda are entered, with what is wanted of it.
ghost use Rattle.std.specs.Prelude.{◌≡◌, Some, map, IfOk};
ghost use Rattle.sized_types.specs.Sizes.{Size};
ghost use Rattle.fut_flat.specs.Erased.{pattern_of, patterns};
ghost use Rattle.fut_sizes.specs.Matching.{Found as Finding};
ghost use Rattle.fut_sizes.specs.Scopes.{Scope};
ghost use Rattle.fut_sizes.specs.Sizing.{Entered as Entering, all_entered, enter, enter_wanted, entered, in_pattern, own_sizes};
ghost use Rattle.fut_types.specs.Shapes.{IsTable};
ghost use Rattle.fut_types.specs.Types.{Sub};
ghost use Rattle.fut_typing.specs.Names.{Names};
ghost use Rattle.alias_parts.specs.Known.{Knows};
ghost use Rattle.size_arena.specs.Trees.{size_of};
ghost use Rattle.size_patterns.specs.Arrows.{Is_arrow, Wanted_so, arrow_size, open_to, starting};
ghost use Rattle.size_patterns.specs.Bound.{Entered_one, Entered_so};
ghost use Rattle.size_program.specs.Answers.{Answers};
ghost use Rattle.size_program.specs.Program.{sub_of};
ghost use Rattle.size_program.specs.Tables.{In_scope};
ghost use Rattle.size_slots.specs.Held.{Held, Holds, Met};
ghost use Rattle.size_written.specs.Answers.{held};

use crate::binding::bind;
use crate::changing::{Change, changed};
use crate::opening::is_open;
use crate::parameters::in_pattern;
use crate::taking::data_way;
use bumpalo::Bump;
use bumpalo::collections::into_bump_slice;
use flat_numbers::after_pattern;
use fut_flat::Pat;
use fut_scalar::NoMemory;
use size_arena::{Frames, SizeErr, SizeTree};
use size_functions::{Taking, value_name};
use size_matching::meet;
use size_program::{NumberMap, Program, own_size};
use size_slots::Found;
use std::alloc::Global;

/// What is known inside a lambda, its parameters, and what is left of the type that is wanted of it.
#[derive(Clone, Copy)]
pub struct Entered<'a> {
    pub names: &'a NumberMap<'a>,
    pub parameters: &'a [Taking<'a>],
    pub wanted: Option<&'a SizeTree<'a>>,
}

/// The same of one parameter.
#[derive(Clone, Copy)]
pub(crate) struct Entry<'a> {
    pub(crate) names: &'a NumberMap<'a>,
    pub(crate) taking: Taking<'a>,
    pub(crate) wanted: Option<&'a SizeTree<'a>>,
}

/// A function type that is wanted.
#[derive(Clone, Copy)]
pub(crate) struct Arrow<'a> {
    pub(crate) chosen: u32,
    pub(crate) from: &'a SizeTree<'a>,
    pub(crate) to: &'a SizeTree<'a>,
}

/// What is wanted of one parameter at its node: the sized type that it is to have, the one that it has with the sizes that are
/// written, and what is wanted of the rest.
#[derive(Clone, Copy)]
pub(crate) struct Wanted<'a> {
    pub(crate) given: &'a SizeTree<'a>,
    pub(crate) size: &'a SizeTree<'a>,
    pub(crate) rest: &'a SizeTree<'a>,
}

/// The function type that is wanted, if one is.
#[tactic(auto, using(crate::proofs::ArrowForms::arrows))]
fn arrow_of<'a>(wanted: Option<&'a SizeTree<'a>>) -> Option<Arrow<'a>>
    ensures { Is_arrow (held wanted.entry) result }
{
    match wanted {
        Some(tree) => match *tree {
            SizeTree::Fun {
                chosen,
                from,
                to,
                ..
            } => Some(Arrow { chosen, from, to }),
            SizeTree::Hole(_) => None,
            SizeTree::Open { .. } => None,
            SizeTree::Level { .. } => None,
            SizeTree::Built { .. } => None,
        },
        None => None,
    }
}

/// A parameter at a node has this sized type, with the sizes that are written in its pattern.
fn enter_sized<'a>(
    bump: &'a Bump,
    program: &Program<'a>,
    pattern: &'a Pat<'a>,
    node: u32,
    size: &'a SizeTree<'a>,
    rest: Option<&'a SizeTree<'a>>,
    names: &'a NumberMap<'a>,
    alloc: Global,
) -> Result<Entry<'a>, SizeErr>
    requires is_table { IsTable program.now.names.table.now }
    ensures { (N : Names) (types : Sub) (t : Size) (σ : Finding) (E : Entering) → Knows program.now.names N → In_scope names.now E.scope → size_of size.now ≡ in_pattern N types (pattern_of pattern.now) t → Answers (Entered_one (λ τ. τ ≡ σ) E.parameters) (entered N types (pattern_of pattern.now) node t (held rest.entry) σ E) result }
{
    match bind(bump, program, &[], node, pattern, size, names, alloc) {
        Ok(bound) => Ok(Entry {
            names: bound.names,
            taking: Taking {
                pattern,
                node,
                size,
            },
            wanted: rest,
        }),
        Err(error) => Err(error),
    }
}

/// The sized type of a parameter at a node that has sizes of its own where none is written.
fn own_sizes<'a>(
    bump: &'a Bump,
    program: &Program<'a>,
    pattern: &Pat<'_>,
    node: u32,
) -> Result<&'a SizeTree<'a>, NoMemory>
    requires is_table { IsTable program.now.names.table.now }
    ensures { (N : Names) → Knows program.now.names N → IfOk result (λ made. size_of made.now ≡ in_pattern N (sub_of program.now.types.now) (pattern_of pattern.now) (own_sizes N (sub_of program.now.types.now) node)) }
{
    let own = own_size(program, node, bump)?;
    in_pattern(bump, program, pattern, own)
}

/// A parameter at a node of which nothing is wanted.
fn enter_own<'a>(
    bump: &'a Bump,
    program: &Program<'a>,
    pattern: &'a Pat<'a>,
    node: u32,
    rest: Option<&'a SizeTree<'a>>,
    names: &'a NumberMap<'a>,
    alloc: Global,
) -> Result<Entry<'a>, SizeErr>
    requires is_table { IsTable program.now.names.table.now }
    ensures { (N : Names) (σ : Finding) (E : Entering) → Knows program.now.names N → In_scope names.now E.scope → Answers (Entered_one (λ τ. τ ≡ σ) E.parameters) (entered N (sub_of program.now.types.now) (pattern_of pattern.now) node (own_sizes N (sub_of program.now.types.now) node) (held rest.entry) σ E) result }
{
    match own_sizes(bump, program, pattern, node) {
        Ok(size) => enter_sized(bump, program, pattern, node, size, rest, names, alloc),
        Err(NoMemory) => Err(SizeErr::Memory),
    }
}

/// A parameter of which something is wanted that is still open: it has sizes of its own.
fn enter_open<'a>(
    bump: &'a Bump,
    program: &Program<'a>,
    pattern: &'a Pat<'a>,
    node: u32,
    arrow: Arrow<'a>,
    names: &'a NumberMap<'a>,
    alloc: Global,
) -> Result<Entry<'a>, SizeErr>
    requires is_table { IsTable program.now.names.table.now }
    ensures { (N : Names) (σ : Finding) (E : Entering) → Knows program.now.names N → In_scope names.now E.scope → Answers (Entered_one (λ τ. τ ≡ σ) E.parameters) (entered N (sub_of program.now.types.now) (pattern_of pattern.now) node (own_sizes N (sub_of program.now.types.now) node) (Some (open_to (pattern_of pattern.now) node arrow.entry)) σ E) result }
{
    let change = Change::Enter {
        node,
        chosen: arrow.chosen,
        name: value_name(pattern),
        stays_open: true,
    };
    match changed(arrow.to, &change, 0, bump) {
        Ok(rest) => enter_own(bump, program, pattern, node, Some(rest), names, alloc),
        Err(NoMemory) => Err(SizeErr::Memory),
    }
}

/// What is wanted of a parameter at a node by this function type.
fn wanted_of<'a>(
    bump: &'a Bump,
    program: &Program<'a>,
    pattern: &Pat<'_>,
    node: u32,
    arrow: Arrow<'a>,
) -> Result<Wanted<'a>, NoMemory>
    requires is_table { IsTable program.now.names.table.now }
    ensures { (N : Names) (types : Sub) → Knows program.now.names N → IfOk result (Wanted_so N types (pattern_of pattern.now) node arrow.entry) }
{
    let change = Change::Enter {
        node,
        chosen: arrow.chosen,
        name: value_name(pattern),
        stays_open: false,
    };
    let given = changed(arrow.from, &change, 0, bump)?;
    let rest = changed(arrow.to, &change, 0, bump)?;
    let size = in_pattern(bump, program, pattern, given)?;
    Ok(Wanted { given, size, rest })
}

/// What is wanted of a parameter says its sizes, with which those that are written have to agree.
fn enter_met<'a>(
    bump: &'a Bump,
    program: &Program<'a>,
    lambda: u32,
    pattern: &'a Pat<'a>,
    node: u32,
    wanted: Wanted<'a>,
    names: &'a NumberMap<'a>,
    table: &mut Found<'a>,
    alloc: Global,
) -> Result<Entry<'a>, SizeErr>
    requires is_table { IsTable program.now.names.table.now }
    requires holds { Held table.old }
    ensures gives { (N : Names) (types : Sub) (E : Entering) → Knows program.now.names N → In_scope names.now E.scope → Holds table.old E.found → size_of wanted.entry.size.now ≡ in_pattern N types (pattern_of pattern.now) (size_of wanted.entry.given.now) → Answers (Entered_one (Holds table.new) E.parameters) (enter_wanted N types lambda (pattern_of pattern.now) node (size_of wanted.entry.given.now) (size_of wanted.entry.rest.now) E) result }
    ensures holds { IfOk result (λ made. Held table.new) }
{
    match meet(
        lambda,
        data_way(),
        lambda,
        wanted.size,
        wanted.given,
        &Frames::Closed,
        &Frames::Closed,
        table,
        bump,
    ) {
        Ok(()) => enter_sized(
            bump,
            program,
            pattern,
            node,
            wanted.size,
            Some(wanted.rest),
            names,
            alloc,
        ),
        Err(error) => Err(error),
    }
}

/// A parameter at a node of which this function type is wanted.
fn enter_arrow<'a>(
    bump: &'a Bump,
    program: &Program<'a>,
    lambda: u32,
    pattern: &'a Pat<'a>,
    node: u32,
    arrow: Arrow<'a>,
    names: &'a NumberMap<'a>,
    table: &mut Found<'a>,
    alloc: Global,
) -> Result<Entry<'a>, SizeErr>
    requires is_table { IsTable program.now.names.table.now }
    requires holds { Held table.old }
    ensures gives { (N : Names) (E : Entering) → Knows program.now.names N → In_scope names.now E.scope → Holds table.old E.found → Answers (Entered_one (Holds table.new) E.parameters) (enter N (sub_of program.now.types.now) lambda (pattern_of pattern.now) node (Some (arrow_size arrow.entry)) E) result }
    ensures holds { IfOk result (λ made. Held table.new) }
{
    if is_open(arrow.from) {
        return enter_open(bump, program, pattern, node, arrow, names, alloc);
    }
    match wanted_of(bump, program, pattern, node, arrow) {
        Ok(wanted) => enter_met(
            bump, program, lambda, pattern, node, wanted, names, table, alloc,
        ),
        Err(NoMemory) => Err(SizeErr::Memory),
    }
}

/// A parameter at a node of the lambda at another, of which this is wanted.
fn enter<'a>(
    bump: &'a Bump,
    program: &Program<'a>,
    lambda: u32,
    pattern: &'a Pat<'a>,
    node: u32,
    wanted: Option<&'a SizeTree<'a>>,
    names: &'a NumberMap<'a>,
    table: &mut Found<'a>,
    alloc: Global,
) -> Result<Entry<'a>, SizeErr>
    requires is_table { IsTable program.now.names.table.now }
    requires holds { Held table.old }
    ensures gives { (N : Names) (E : Entering) → Knows program.now.names N → In_scope names.now E.scope → Holds table.old E.found → Answers (Entered_one (Holds table.new) E.parameters) (enter N (sub_of program.now.types.now) lambda (pattern_of pattern.now) node (held wanted.entry) E) result }
    ensures holds { IfOk result (λ made. Held table.new) }
{
    match arrow_of(wanted) {
        Some(arrow) => enter_arrow(
            bump, program, lambda, pattern, node, arrow, names, table, alloc,
        ),
        None => enter_own(bump, program, pattern, node, None, names, alloc),
    }
}

// What is known, and what is wanted, so far.
#[derive(Clone, Copy)]
struct Inside<'a> {
    names: &'a NumberMap<'a>,
    wanted: Option<&'a SizeTree<'a>>,
}

/// The parameters of the lambda at a node, which begin at another, are entered one after another. What the lambda is wanted for, if
/// something is, says their sizes where they are not written.
///
/// `Err`: a written size does not agree with what is wanted, or a pattern refuses it; or memory ran out.
pub fn enter_all<'a>(
    bump: &'a Bump,
    program: &Program<'a>,
    lambda: u32,
    pats: &'a [Pat<'a>],
    first: u32,
    wanted: Option<&'a SizeTree<'a>>,
    names: &'a NumberMap<'a>,
    table: &mut Found<'a>,
    alloc: Global,
) -> Result<Entered<'a>, SizeErr>
    requires is_table { IsTable program.now.names.table.now }
    requires holds { Held table.old }
    ensures gives { (N : Names) (scope : Scope) (σ : Finding) → Knows program.now.names N → In_scope names.now scope → Holds table.old σ → Answers (Entered_so table.new) (all_entered N (sub_of program.now.types.now) lambda (patterns (map pattern_of pats.now)) first (starting scope (held wanted.entry) σ)) result }
    ensures holds { IfOk result (λ made. Held table.new) }
{
    let mut parameters = Vec::new(bump);
    let mut inside = Inside { names, wanted };
    let mut at = first;
    for pattern in pats {
        match enter(
            bump,
            program,
            lambda,
            pattern,
            at,
            inside.wanted,
            inside.names,
            table,
            alloc,
        ) {
            Ok(entry) => {
                match parameters.push(entry.taking) {
                    Ok(()) => {}
                    Err(_) => return Err(SizeErr::Memory),
                }
                inside = Inside {
                    names: entry.names,
                    wanted: entry.wanted,
                };
            }
            Err(error) => return Err(error),
        }
        match after_pattern(at, pattern) {
            Ok(next) => at = next,
            Err(NoMemory) => return Err(SizeErr::Memory),
        }
    }
    Ok(Entered {
        names: inside.names,
        parameters: into_bump_slice(parameters),
        wanted: inside.wanted,
    })
}
