// What is done with a lambda before and behind its body.
ghost use Rattle.std.specs.Prelude.{◌≡◌, ◌+◌, map, IfOk, List as Items};
ghost use Rattle.sized_types.specs.Sizes.{Size};
ghost use Rattle.fut_flat.specs.Erased.{pattern_of, patterns};
ghost use Rattle.fut_flat.specs.Numbers.{all_pattern_numbers};
ghost use Rattle.fut_sizes.specs.Functions.{Taking as TheTaking, unchosen};
ghost use Rattle.fut_sizes.specs.Matching.{Found as Finding};
ghost use Rattle.fut_sizes.specs.Scopes.{Scope};
ghost use Rattle.fut_sizes.specs.Sizing.{Entered as Entering, leaving_function, matched, none_left, wanted_size};
ghost use Rattle.fut_types.specs.Shapes.{IsTable};
ghost use Rattle.fut_types.specs.Types.{Sub};
ghost use Rattle.fut_typing.specs.Names.{Names};
ghost use Rattle.alias_parts.specs.Known.{Knows};
ghost use Rattle.size_arena.specs.Answers.{Gives};
ghost use Rattle.size_arena.specs.Trees.{size_of};
ghost use Rattle.size_functions.specs.Takings.{takings_of};
ghost use Rattle.size_program.specs.Answers.{Answers, Steps};
ghost use Rattle.size_program.specs.Program.{sub_of};
ghost use Rattle.size_program.specs.Tables.{In_scope};
ghost use Rattle.size_slots.specs.Held.{Held, Holds, way_of};
ghost use Rattle.size_written.specs.Answers.{held};
ghost use Rattle.size_walk.specs.Lambdas.{Begun_so, lambda_begun, lambda_ended};
ghost use Rattle.size_walk.specs.Walked.{Lambda_met, want_of};

use bumpalo::Bump;
use flat_numbers::{after, after_patterns};
use fut_flat::{Exp, Pat};
use size_applying::Want;
use size_arena::{Frames, Property, Refusal, SizeErr, SizeTree, has, leaving};
use size_functions::{Taking, function_size, unchosen};
use size_matching::meet;
use size_patterns::{enter_all, note_parameters, part_names};
use size_program::{NumberMap, Program, Tables, note};
use size_slots::{Found, Way};
use std::alloc::Global;

/// A lambda that waits for what is wanted of it: its expression and node, what is known of names where it stands, and the size
/// names that its parameters are to choose.
#[derive(Clone, Copy)]
pub struct Lambda<'a> {
    pub exp: &'a Exp<'a>,
    pub node: u32,
    pub names: &'a NumberMap<'a>,
    pub heads: &'a [u32],
}

/// What is known inside a lambda, its parameters, and its body's node.
#[derive(Clone, Copy)]
pub(crate) struct Begun<'a> {
    pub(crate) names: &'a NumberMap<'a>,
    pub(crate) parameters: &'a [Taking<'a>],
    pub(crate) body: u32,
}

/// The sized type that is wanted, if one is.
fn wanted_tree<'a>(want: &Option<Want<'a>>) -> Option<&'a SizeTree<'a>>
    ensures { held result ≡ wanted_size (want_of want.now) }
{
    match want {
        Some(want) => Some(want.size),
        None => None,
    }
}

/// Whether parameters choose all size names of a head.
///
/// `Err`: one is left, or memory ran out.
#[tactic(auto, using(crate::proofs::LambdaForms::chosen))]
fn all_chosen(
    heads: &[u32],
    parameters: &[Taking<'_>],
    node: u32,
    alloc: Global,
) -> Result<(), SizeErr>
    ensures { (N : Names) (types : Sub) (params : Items TheTaking) → params ≡ takings_of parameters.now → Answers (λ u y. y ≡ u) (none_left N types node (unchosen heads.now params)) result }
{
    let left = unchosen(heads, parameters, alloc)?;
    if left.len() == 0 {
        Ok(())
    } else {
        Err(SizeErr::Refused(Refusal::Escapes(node)))
    }
}

/// Enters a lambda: its parameters have the sizes that are written, or wanted of it.
#[tactic(auto, using(crate::proofs::LambdaForms::memory_runs_out))]
pub(crate) fn begin_lambda<'a>(
    lambda: &Lambda<'a>,
    pats: &'a [Pat<'a>],
    want: &Option<Want<'a>>,
    table: &mut Found<'a>,
    program: &Program<'a>,
    tables: &mut Tables<'a>,
    bump: &'a Bump,
    alloc: Global,
) -> Result<Begun<'a>, SizeErr>
    requires table { IsTable program.now.names.table.now }
    requires held { Held table.old }
    ensures begun { (N : Names) (scope : Scope) (σ : Finding) → Knows program.now.names N → In_scope lambda.now.names.now scope → Holds table.old σ → Steps (Begun_so table.new) (lambda_begun N (sub_of program.now.types.now) (patterns (map pattern_of pats.now)) lambda.now.heads.now lambda.now.node (want_of want.now) scope σ) tables.old tables.new result }
    ensures held { IfOk result (λ b. Held table.new) }
    ensures body { IfOk result (λ b. b.body ≡ 1 + lambda.now.node + all_pattern_numbers (patterns (map pattern_of pats.now))) }
{
    let first = after(lambda.node, 1)?;
    let body = after_patterns(first, pats)?;
    let entered = enter_all(
        bump,
        program,
        lambda.node,
        pats,
        first,
        wanted_tree(want),
        lambda.names,
        table,
        alloc,
    )?;
    all_chosen(lambda.heads, entered.parameters, body, alloc)?;
    note_parameters(bump, program, entered.parameters, tables)?;
    Ok(Begun {
        names: entered.names,
        parameters: entered.parameters,
        body,
    })
}

/// Matches a lambda's sized type with what is wanted of it.
#[tactic(auto, using(crate::proofs::LambdaForms::chosen))]
fn match_lambda<'a>(
    node: u32,
    want: &Option<Want<'a>>,
    own: &'a SizeTree<'a>,
    table: &mut Found<'a>,
    bump: &'a Bump,
) -> Result<&'a SizeTree<'a>, SizeErr>
    requires held { Held table.old }
    ensures met { (N : Names) (types : Sub) (σ : Finding) → Holds table.old σ → Answers (Lambda_met table.new) (matched N types node (want_of want.now) (size_of own.now) σ) result }
    ensures held { IfOk result (λ t. Held table.new) }
{
    match want {
        Some(want) => {
            let way = Way {
                left_wanted: true,
                in_result: false,
                regular: want.is_regular,
            };
            meet(
                want.node,
                way,
                node,
                want.size,
                own,
                &Frames::Closed,
                &Frames::Closed,
                table,
                bump,
            )?;
            Ok(own)
        }
        None => Ok(own),
    }
}

/// What the body of a lambda at a node gives leaves it, and with it the names of parts of its arguments.
///
/// `Err`: one of them stands in the sized type of a parameter, or in what a function takes that is given; or memory ran out.
#[tactic(auto, using(crate::proofs::LeavingForms::leaves_parts))]
fn leave_parts<'a>(
    node: u32,
    names: &[u32],
    parameters: &[Taking<'a>],
    body: &'a SizeTree<'a>,
    bump: &'a Bump,
) -> Result<&'a SizeTree<'a>, SizeErr>
    ensures { Gives (leaving_function node names.now (takings_of parameters.now) (size_of body.now)) result }
{
    for parameter in parameters {
        if has(parameter.size, &Property::Names(names)) {
            return Err(SizeErr::Refused(Refusal::Escapes(node)));
        }
    }
    leaving(node, names, body, bump)
}

/// Leaves a lambda whose body has this sized type and ends before a number.
#[tactic(auto, using(crate::proofs::LambdaForms::memory_runs_out))]
pub(crate) fn end_lambda<'a>(
    lambda: &Lambda<'a>,
    pats: &'a [Pat<'a>],
    begun: &Begun<'a>,
    want: &Option<Want<'a>>,
    body: &'a SizeTree<'a>,
    end: u32,
    table: &mut Found<'a>,
    tables: &mut Tables<'a>,
    bump: &'a Bump,
    alloc: Global,
) -> Result<&'a SizeTree<'a>, SizeErr>
    requires held { Held table.old }
    ensures ended { (N : Names) (types : Sub) (E : Entering) → Begun_so table.old begun.now E → Steps (Lambda_met table.new) (lambda_ended N types (patterns (map pattern_of pats.now)) lambda.now.heads.now lambda.now.node end (want_of want.now) E (size_of body.now)) tables.old tables.new result }
    ensures held { IfOk result (λ t. Held table.new) }
{
    let names = part_names(pats, bump)?;
    let given = leave_parts(lambda.node, names, begun.parameters, body, bump)?;
    let own = function_size(
        lambda.heads,
        lambda.node,
        end,
        begun.parameters,
        given,
        bump,
        alloc,
    )?;
    note(tables, lambda.node, own)?;
    match_lambda(lambda.node, want, own, table, bump)
}
