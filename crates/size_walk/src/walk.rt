// The walk over a term, in the order of evaluation.
ghost use Rattle.std.specs.Prelude.{◌≡◌, ◌+◌, [], ◌∷◌, ℕ, suc, true, IfOk, List as Items, length, map, Option as Maybe, Some};
ghost use Rattle.sized_types.specs.Sizes.{Size, levels};
ghost use Rattle.fut_flat.specs.Erased.{lets, operation_of, pattern_of, patterns, term_of, terms};
ghost use Rattle.fut_flat.specs.Numbers.{all_numbers, numbers, turn_numbers};
ghost use Rattle.fut_flat.specs.Terms.{If, Let as LetTerm, Strict};
ghost use Rattle.fut_flat.proofs.ErasedForms.{loop_of, row_of, turns_of};
ghost use Rattle.fut_sizes.specs.Agreeing.{Answer};
ghost use Rattle.fut_sizes.specs.Applications.{Applied, Argument as TheArgument, Met, Part as ThePart, Want as TheWant, Wanting as TheWanting, all_matched, applied, functions_met};
ghost use Rattle.fut_sizes.specs.Compositions.{composition};
ghost use Rattle.fut_sizes.specs.Matching.{Found as Finding, none_opened, nothing_found};
ghost use Rattle.fut_sizes.specs.Scopes.{Scope};
ghost use Rattle.fut_sizes.specs.Sizing.{as_argument, composition_met, finished, turns_from, wanted_as, with_argument};
ghost use Rattle.fut_sizes.specs.Steps.{Step};
ghost use Rattle.fut_types.specs.Shapes.{IsTable};
ghost use Rattle.fut_typing.specs.Names.{Names};
ghost use Rattle.alias_parts.specs.Known.{Knows};
ghost use Rattle.size_arena.specs.Trees.{size_of};
ghost use Rattle.size_applying.specs.Going.{Is_met};
ghost use Rattle.size_applying.specs.declared.arguments.Argument.{Argument as AnArgument};
ghost use Rattle.size_applying.specs.Wanted.{All_want, Are_arguments, Is_argument, Is_part, Waits, Wants, function_taken};
ghost use Rattle.size_applying.proofs.WayLaws.{Under_way, matched_by};
ghost use Rattle.size_forms.specs.Lets.{all_closed, behind_row, let_end, let_opened, row_ends, row_opened};
ghost use Rattle.size_forms.specs.Loops.{turn_taken};
ghost use Rattle.size_forms.specs.Shown.{argument_is, bound_is, each_is, end_of, opened_is, part_is, row_is, tree_is, turn_is, whole_is};
ghost use Rattle.size_forms.specs.Walked.{argument_sized, part_sized, row_sized, whole_sized};
ghost use Rattle.size_program.specs.Answers.{Steps, Takes};
ghost use Rattle.size_program.specs.Tables.{In_scope};
ghost use Rattle.size_program.specs.declared.tables.Tables.{Tables as TheTables};
ghost use Rattle.size_slots.specs.Held.{Held, Holds};
ghost use Rattle.size_walk.specs.Ways.{Taken};
ghost use Rattle.size_walk.specs.Walked.{Has_arguments, Lambda_met, condition_going, each_end, composed_body, nothing_is, turn_going, turns_going, types_at, want_of};

use crate::lambdas::{Lambda, begin_lambda, end_lambda};
use crate::parts::{
    composition_size, heads_behind, late, operate, size_use, unapplied, wait, walked, whole_part,
};
use crate::sites::Site;
use crate::spines::{gathered, spine_of};
use bumpalo::Bump;
use bumpalo::collections::into_bump_slice;
use flat_numbers::{after, after_pattern, own_numbers_of};
use fut_flat::{Act, Exp, Form, Let, Loop, LoopForm};
use fut_scalar::Place;
use size_applying::{
    Application, Argument, Composition, Part, Want, Wanting, begin, behind, composition_of,
    conclude, data_meet, function_meets, note_composed, note_met, take_again, take_arrow, want_of,
};
use size_arena::{SizeErr, SizeTree, kept};
use size_forms::{
    Bound, Each, Ending, Given, Opened, Row, Turn, Walked, Whole, bind_let, carry, close_outer,
    end_let, end_turn, enter_composition, enter_head, enter_turn, levels_of, note_each, plain_lets,
    value_node,
};
use size_patterns::rename_taken;
use size_program::{NumberMap, Tables, note};
use size_slots::{Found, nothing_found};
use std::alloc::Global;

// What is known of names so far.
#[derive(Clone, Copy)]
struct Known<'a> {
    names: &'a NumberMap<'a>,
}

/// The sized type of a term by itself, of which these size names are to be chosen by parameters.
///
/// `Err`: the first refusal, or memory ran out.
#[cycle(walk)]
#[tactic(auto, using(crate::proofs::Walking::nothing))]
pub fn size_whole<'a>(
    exp: &'a Exp<'a>,
    heads: &'a [u32],
    node: u32,
    site: &Site<'a>,
    tables: &mut Tables<'a>,
    bump: &'a Bump,
    alloc: Global,
) -> Result<Whole<'a>, SizeErr>
    requires table { IsTable site.now.program.names.table.now }
    ensures sized { Takes whole_is site.now.program site.now.names.now (whole_sized (types_at site.now) (term_of exp.now) heads.now node) tables.old tables.new result }
    ensures next { IfOk result (λ w. w.next ≡ node + numbers (term_of exp.now)) }
{
    let walked = size_part(exp, heads, node, site, tables, bump, alloc)?;
    let size = finish(&walked.part, node, site, tables, bump, alloc)?;
    Ok(Whole {
        size,
        next: walked.next,
    })
}

// A term that may be applied.
#[cycle(walk)]
#[tactic(auto, using(crate::proofs::Walking::nothing))]
fn size_part<'a>(
    exp: &'a Exp<'a>,
    heads: &'a [u32],
    node: u32,
    site: &Site<'a>,
    tables: &mut Tables<'a>,
    bump: &'a Bump,
    alloc: Global,
) -> Result<Walked<'a>, SizeErr>
    requires table { IsTable site.now.program.names.table.now }
    ensures sized { Takes (part_is (types_at site.now)) site.now.program site.now.names.now (part_sized (types_at site.now) (term_of exp.now) heads.now node) tables.old tables.new result }
    ensures next { IfOk result (λ w. w.next ≡ node + numbers (term_of exp.now)) }
{
    if site.depth == 0 {
        return Err(SizeErr::Memory);
    }
    let inside = Site {
        program: site.program,
        names: site.names,
        depth: site.depth - 1,
    };
    match &exp.form {
        Form::Use(name, before) => {
            size_use(
                *name,
                exp.place,
                *before,
                node,
                site.names,
                &site.program,
                bump,
            )
        }
        Form::Strict { act, mark, parts } => {
            size_strict(act, *mark, parts, node, &inside, tables, bump, alloc)
        }
        Form::Lambda(_, _) => wait(exp, heads, node, site.names),
        Form::Apply(_, _) => size_apply(exp, node, &inside, tables, bump, alloc),
        Form::Lets(row, body) => { size_lets(row, body, heads, node, &inside, tables, bump, alloc) }
        Form::If(test, yes, no) => { size_if(test, yes, no, node, &inside, tables, bump, alloc) }
        Form::Loop(whole) => size_loop(whole, node, &inside, tables, bump, alloc),
    }
}

// A part at a node by itself.
#[cycle(walk)]
#[tactic(auto, using(crate::proofs::Walking::nothing))]
fn finish<'a>(
    part: &Part<'a>,
    node: u32,
    site: &Site<'a>,
    tables: &mut Tables<'a>,
    bump: &'a Bump,
    alloc: Global,
) -> Result<&'a SizeTree<'a>, SizeErr>
    requires table { IsTable site.now.program.names.table.now }
    ensures { (N : Names) → Knows site.now.program.names N → (p : ThePart) → Is_part N (types_at site.now) part.now p → Steps tree_is (finished N (types_at site.now) node p) tables.old tables.new result }
{
    match *part {
        Part::Applied {
            size,
            is_regular,
            arguments,
        } => finish_applied(size, is_regular, arguments, node, site, tables, bump, alloc),
        Part::Waiting {
            exp,
            node: own,
            names,
            heads,
        } => {
            let lambda = Lambda {
                exp,
                node: own,
                names,
                heads,
            };
            let mut table = nothing_found(alloc);
            let size = size_lambda(&lambda, &None, &mut table, site, tables, bump, alloc)?;
            note(tables, node, size)?;
            Ok(size)
        }
    }
}

// A function at a node is applied to all its arguments.
#[cycle(walk)]
#[tactic(auto, using(crate::proofs::Walking::nothing))]
fn finish_applied<'a>(
    size: &'a SizeTree<'a>,
    is_regular: bool,
    arguments: &[Argument<'a>],
    node: u32,
    site: &Site<'a>,
    tables: &mut Tables<'a>,
    bump: &'a Bump,
    alloc: Global,
) -> Result<&'a SizeTree<'a>, SizeErr>
    requires table { IsTable site.now.program.names.table.now }
    ensures { (N : Names) → Knows site.now.program.names N → (given : Items TheArgument) → Are_arguments N (types_at site.now) arguments.now given → Steps tree_is (finished N (types_at site.now) node (Applied (size_of size.now) is_regular given)) tables.old tables.new result }
{
    let mut table = nothing_found(alloc);
    let application = apply(
        size, is_regular, arguments, node, &mut table, site, tables, bump, alloc,
    )?;
    note_met(node, &application, &mut table, tables, bump, alloc)
}

// ---- lambdas

// A lambda of which this may be wanted.
#[cycle(walk)]
#[tactic(auto, using(crate::proofs::Walking::nothing))]
fn size_lambda<'a>(
    lambda: &Lambda<'a>,
    want: &Option<Want<'a>>,
    table: &mut Found<'a>,
    site: &Site<'a>,
    tables: &mut Tables<'a>,
    bump: &'a Bump,
    alloc: Global,
) -> Result<&'a SizeTree<'a>, SizeErr>
    requires table { IsTable site.now.program.names.table.now }
    requires held { Held table.old }
    ensures sized { (N : Names) → Knows site.now.program.names N → (f : Maybe TheWant → Finding → Step Met) → Waits N (types_at site.now) lambda.now.exp.now lambda.now.node lambda.now.names.now lambda.now.heads.now f → (σ : Finding) → Holds table.old σ → Steps (Lambda_met table.new) (f (want_of want.now) σ) tables.old tables.new result }
    ensures held { IfOk result (λ t. Held table.new) }
{
    let Form::Lambda(pats, body) = lambda.exp.form else {
        return Err(SizeErr::Memory);
    };
    if site.depth == 0 {
        return Err(SizeErr::Memory);
    }
    let begun = begin_lambda(
        lambda,
        pats,
        want,
        table,
        &site.program,
        tables,
        bump,
        alloc,
    )?;
    let inside = Site {
        program: site.program,
        names: begun.names,
        depth: site.depth - 1,
    };
    let whole = size_whole(body, &[], begun.body, &inside, tables, bump, alloc)?;
    end_lambda(
        lambda, pats, &begun, want, whole.size, whole.next, table, tables, bump, alloc,
    )
}

// ---- applications

// A term as an argument.
#[cycle(walk)]
#[tactic(auto, using(crate::proofs::Walking::nothing))]
fn size_argument<'a>(
    exp: &'a Exp<'a>,
    node: u32,
    site: &Site<'a>,
    tables: &mut Tables<'a>,
    bump: &'a Bump,
    alloc: Global,
) -> Result<Given<'a>, SizeErr>
    requires table { IsTable site.now.program.names.table.now }
    ensures sized { Takes (argument_is (types_at site.now)) site.now.program site.now.names.now (argument_sized (types_at site.now) (term_of exp.now) node) tables.old tables.new result }
    ensures next { IfOk result (λ g. g.next ≡ node + numbers (term_of exp.now)) }
{
    let walked = size_part(exp, &[], node, site, tables, bump, alloc)?;
    let argument = as_argument(exp, &walked.part, node, site, tables, bump, alloc)?;
    Ok(Given {
        argument,
        next: walked.next,
    })
}

// A part of a term as an argument: a name that is not applied stays open, and a lambda waits.
#[cycle(walk)]
#[tactic(auto, using(crate::proofs::Walking::nothing))]
fn as_argument<'a>(
    exp: &'a Exp<'a>,
    part: &Part<'a>,
    node: u32,
    site: &Site<'a>,
    tables: &mut Tables<'a>,
    bump: &'a Bump,
    alloc: Global,
) -> Result<Argument<'a>, SizeErr>
    requires table { IsTable site.now.program.names.table.now }
    ensures { (N : Names) → Knows site.now.program.names N → (p : ThePart) → Is_part N (types_at site.now) part.now p → Steps (Is_argument N (types_at site.now)) (as_argument N (types_at site.now) node (term_of exp.now) p) tables.old tables.new result }
{
    match *part {
        Part::Applied {
            size,
            arguments,
            ..
        } => {
            if arguments.len() == 0 {
                return unapplied(exp, size, node, tables);
            }
            let whole = finish(part, node, site, tables, bump, alloc)?;
            Ok(Argument::Early {
                node,
                value: None,
                is_use: false,
                size: whole,
            })
        }
        Part::Waiting {
            exp,
            node: own,
            names,
            heads,
        } => late(exp, own, names, heads, node),
    }
}

// An application: the function, then its arguments from left to right.
#[cycle(walk)]
#[tactic(auto, using(crate::proofs::Walking::nothing))]
fn size_apply<'a>(
    exp: &'a Exp<'a>,
    node: u32,
    site: &Site<'a>,
    tables: &mut Tables<'a>,
    bump: &'a Bump,
    alloc: Global,
) -> Result<Walked<'a>, SizeErr>
    requires table { IsTable site.now.program.names.table.now }
    ensures sized { Takes (part_is (types_at site.now)) site.now.program site.now.names.now (part_sized (types_at site.now) (term_of exp.now) [] node) tables.old tables.new result }
    ensures next { IfOk result (λ w. w.next ≡ node + numbers (term_of exp.now)) }
{
    let Ok(spine) = spine_of(exp, bump) else {
        return Err(SizeErr::Memory);
    };
    let mut left = spine.arguments.len();
    let Ok(first) = behind(node, left) else {
        return Err(SizeErr::Memory);
    };
    let head = size_part(spine.function, &[], first, site, tables, bump, alloc)?;
    let mut function = head.part;
    let mut arguments = Vec::new(bump);
    let mut next = head.next;
    while left > 0 {
        left -= 1;
        let given = size_argument(spine.arguments[left], next, site, tables, bump, alloc)?;
        function = give_argument(
            &function,
            &mut arguments,
            given.argument,
            site,
            tables,
            bump,
            alloc,
        )?;
        next = given.next;
    }
    let Ok(part) = gathered(&function, arguments, bump) else {
        return Err(SizeErr::Memory);
    };
    Ok(Walked { part, next })
}

// One more argument is given to a function; a lambda is sized by itself before its first.
#[cycle(walk)]
#[tactic(auto, using(crate::proofs::Walking::nothing))]
fn give_argument<'a>(
    function: &Part<'a>,
    arguments: &mut Vec<Argument<'a>, &'a Bump>,
    argument: Argument<'a>,
    site: &Site<'a>,
    tables: &mut Tables<'a>,
    bump: &'a Bump,
    alloc: Global,
) -> Result<Part<'a>, SizeErr>
    requires table { IsTable site.now.program.names.table.now }
    ensures { (N : Names) → Knows site.now.program.names N → (p : ThePart) → Has_arguments N (types_at site.now) function.now arguments.old.items p → (a : TheArgument) → Is_argument N (types_at site.now) argument.entry a → Steps (λ q. Has_arguments N (types_at site.now) q arguments.new.items) (with_argument N (types_at site.now) p a) tables.old tables.new result }
{
    match *function {
        Part::Applied { .. } => {
            let Ok(()) = arguments.push(argument) else {
                return Err(SizeErr::Memory);
            };
            Ok(*function)
        }
        Part::Waiting {
            exp,
            node,
            names,
            heads,
        } => {
            let lambda = Lambda {
                exp,
                node,
                names,
                heads,
            };
            let mut table = nothing_found(alloc);
            let size = size_lambda(&lambda, &None, &mut table, site, tables, bump, alloc)?;
            arguments.clear();
            let Ok(()) = arguments.push(argument) else {
                return Err(SizeErr::Memory);
            };
            Ok(whole_part(size))
        }
    }
}

// A function at a node is applied to arguments, before anything is found.
#[cycle(walk)]
#[tactic(auto, using(crate::proofs::Walking::nothing))]
fn apply<'a>(
    size: &'a SizeTree<'a>,
    is_regular: bool,
    arguments: &[Argument<'a>],
    node: u32,
    table: &mut Found<'a>,
    site: &Site<'a>,
    tables: &mut Tables<'a>,
    bump: &'a Bump,
    alloc: Global,
) -> Result<Application<'a>, SizeErr>
    requires table { IsTable site.now.program.names.table.now }
    requires nothing { Holds table.old nothing_found }
    ensures met { (N : Names) → Knows site.now.program.names N → (given : Items TheArgument) → Are_arguments N (types_at site.now) arguments.now given → Steps (Is_met table.new) (applied node is_regular given [] none_opened true (size_of size.now) [] nothing_found) tables.old tables.new result }
    ensures held { IfOk result (λ a. Held table.new) }
{
    let Ok(mut application) = begin(size, bump, alloc) else {
        return Err(SizeErr::Memory);
    };
    let mut left = arguments.len();
    for argument in arguments {
        left -= 1;
        let Ok(at) = behind(node, left) else {
            return Err(SizeErr::Memory);
        };
        let goes_on = take(
            argument,
            at,
            is_regular,
            node,
            &mut application,
            table,
            site,
            tables,
            bump,
            alloc,
        )?;
        if !goes_on {
            return Ok(application);
        }
    }
    match_all(
        is_regular,
        application.wantings.as_slice(),
        table,
        site,
        tables,
        bump,
        alloc,
    )?;
    let Ok(()) = conclude(&mut application, table, bump) else {
        return Err(SizeErr::Memory);
    };
    Ok(application)
}

// An application takes an argument at a node along the next arrow. Where none is left, all is matched before, and it goes on along
// the arrows of what it gives. `Ok(false)`: that is no function.
#[cycle(walk)]
#[tactic(auto, using(crate::proofs::Walking::nothing))]
fn take<'a>(
    argument: &Argument<'a>,
    at: u32,
    is_regular: bool,
    node: u32,
    application: &mut Application<'a>,
    table: &mut Found<'a>,
    site: &Site<'a>,
    tables: &mut Tables<'a>,
    bump: &'a Bump,
    alloc: Global,
) -> Result<bool, SizeErr>
    requires table { IsTable site.now.program.names.table.now }
    requires held { Held table.old }
    ensures taken { (N : Names) → Knows site.now.program.names N → (whole : Step Met) (f : TheTables) (left rest : Items AnArgument) → left ≡ argument.now ∷ rest → at ≡ node + length rest → Under_way N (types_at site.now) node is_regular whole f tables.old application.old table.old left → Taken N (types_at site.now) node is_regular whole f rest application.new table.new tables.new result }
    ensures held { IfOk result (λ b. Held table.new) }
{
    let Ok(taken) = take_arrow(at, argument, application, table, bump) else {
        return Err(SizeErr::Memory);
    };
    if taken {
        return Ok(true);
    }
    match_all(
        is_regular,
        application.wantings.as_slice(),
        table,
        site,
        tables,
        bump,
        alloc,
    )?;
    let Ok(goes_on) = take_again(at, argument, application, table, bump) else {
        return Err(SizeErr::Memory);
    };
    Ok(goes_on)
}

// All that is wanted of arguments is matched: first of those that are no functions.
#[cycle(walk)]
#[tactic(auto, using(crate::proofs::Walking::nothing))]
fn match_all<'a>(
    is_regular: bool,
    wantings: &[Wanting<'a>],
    table: &mut Found<'a>,
    site: &Site<'a>,
    tables: &mut Tables<'a>,
    bump: &'a Bump,
    alloc: Global,
) -> Result<(), SizeErr>
    requires table { IsTable site.now.program.names.table.now }
    requires held { Held table.old }
    ensures met { (N : Names) → Knows site.now.program.names N → (ws : Items TheWanting) → All_want N (types_at site.now) wantings.now ws → (σ : Finding) → Holds table.old σ → Steps (matched_by table.new) (all_matched is_regular ws σ) tables.old tables.new result }
    ensures held { IfOk result (λ u. Held table.new) }
{
    data_meet(wantings, table, bump)?;
    match_functions(is_regular, wantings, table, site, tables, bump, alloc)
}

// Then of functions, from left to right.
#[cycle(walk)]
#[tactic(auto, using(crate::proofs::Walking::nothing))]
fn match_functions<'a>(
    is_regular: bool,
    wantings: &[Wanting<'a>],
    table: &mut Found<'a>,
    site: &Site<'a>,
    tables: &mut Tables<'a>,
    bump: &'a Bump,
    alloc: Global,
) -> Result<(), SizeErr>
    requires table { IsTable site.now.program.names.table.now }
    requires held { Held table.old }
    ensures met { (N : Names) → Knows site.now.program.names N → (ws : Items TheWanting) → All_want N (types_at site.now) wantings.now ws → (σ : Finding) → Holds table.old σ → Steps (matched_by table.new) (functions_met is_regular ws σ) tables.old tables.new result }
    ensures held { IfOk result (λ u. Held table.new) }
{
    for wanting in wantings {
        match_function(is_regular, wanting, table, site, tables, bump, alloc)?;
    }
    Ok(())
}

// A lambda is sized with what is wanted of it.
#[cycle(walk)]
#[tactic(auto, using(crate::proofs::Walking::nothing))]
fn match_function<'a>(
    is_regular: bool,
    wanting: &Wanting<'a>,
    table: &mut Found<'a>,
    site: &Site<'a>,
    tables: &mut Tables<'a>,
    bump: &'a Bump,
    alloc: Global,
) -> Result<(), SizeErr>
    requires table { IsTable site.now.program.names.table.now }
    requires held { Held table.old }
    ensures met { (N : Names) → Knows site.now.program.names N → (w : TheWanting) → Wants N (types_at site.now) wanting.now w → (σ : Finding) → Holds table.old σ → Steps (matched_by table.new) (function_taken is_regular w σ) tables.old tables.new result }
    ensures held { IfOk result (λ u. Held table.new) }
{
    match wanting.argument {
        Argument::Early { .. } => function_meets(is_regular, wanting, table, bump),
        Argument::Late {
            exp,
            node: own,
            names,
        } => {
            let Ok(want) = want_of(is_regular, wanting, table, bump) else {
                return Err(SizeErr::Memory);
            };
            let want = Some(want);
            let lambda = Lambda {
                exp,
                node: own,
                names,
                heads: &[],
            };
            size_lambda(&lambda, &want, table, site, tables, bump, alloc)?;
            Ok(())
        }
    }
}

// ---- operations and choices

// Parts from left to right, then the operation.
#[cycle(walk)]
#[tactic(auto, using(crate::proofs::Walking::nothing))]
fn size_strict<'a>(
    act: &'a Act<'a>,
    mark: Place,
    parts: &'a [Exp<'a>],
    node: u32,
    site: &Site<'a>,
    tables: &mut Tables<'a>,
    bump: &'a Bump,
    alloc: Global,
) -> Result<Walked<'a>, SizeErr>
    requires table { IsTable site.now.program.names.table.now }
    ensures sized { (bs : Items ℕ) → Takes (part_is (types_at site.now)) site.now.program site.now.names.now (part_sized (types_at site.now) (Strict (operation_of act.now) mark (terms (map term_of parts.now))) bs node) tables.old tables.new result }
    ensures next { IfOk result (λ w. w.next ≡ node + numbers (Strict (operation_of act.now) mark (terms (map term_of parts.now)))) }
{
    let _mark = mark;
    let Ok(first) = after(node, own_numbers_of(act)) else {
        return Err(SizeErr::Memory);
    };
    let row = size_row(parts, first, site, tables, bump, alloc)?;
    let size = operate(act, node, first, parts, &row, &site.program, tables, bump)?;
    Ok(walked(size, row.next))
}

#[cycle(walk)]
#[tactic(auto, using(crate::proofs::Walking::nothing))]
fn size_row<'a>(
    exps: &'a [Exp<'a>],
    node: u32,
    site: &Site<'a>,
    tables: &mut Tables<'a>,
    bump: &'a Bump,
    alloc: Global,
) -> Result<Row<'a>, SizeErr>
    requires table { IsTable site.now.program.names.table.now }
    ensures sized { Takes row_is site.now.program site.now.names.now (row_sized (types_at site.now) (terms (map term_of exps.now)) node) tables.old tables.new result }
    ensures next { IfOk result (λ r. r.next ≡ node + all_numbers (terms (map term_of exps.now))) }
{
    let mut made = Vec::new(bump);
    let mut next = node;
    for exp in exps {
        let whole = size_whole(exp, &[], next, site, tables, bump, alloc)?;
        let Ok(()) = made.push(*whole.size) else {
            return Err(SizeErr::Memory);
        };
        next = whole.next;
    }
    Ok(Row {
        sizes: into_bump_slice(made),
        next,
    })
}

// A choice keeps the sizes that both branches have.
#[cycle(walk)]
#[tactic(auto, using(crate::proofs::Walking::nothing))]
fn size_if<'a>(
    test: &'a Exp<'a>,
    yes: &'a Exp<'a>,
    no: &'a Exp<'a>,
    node: u32,
    site: &Site<'a>,
    tables: &mut Tables<'a>,
    bump: &'a Bump,
    alloc: Global,
) -> Result<Walked<'a>, SizeErr>
    requires table { IsTable site.now.program.names.table.now }
    ensures sized { (bs : Items ℕ) → Takes (part_is (types_at site.now)) site.now.program site.now.names.now (part_sized (types_at site.now) (If (term_of test.now) (term_of yes.now) (term_of no.now)) bs node) tables.old tables.new result }
    ensures next { IfOk result (λ w. w.next ≡ node + numbers (If (term_of test.now) (term_of yes.now) (term_of no.now))) }
{
    let Ok(first) = after(node, 1) else {
        return Err(SizeErr::Memory);
    };
    let tested = size_whole(test, &[], first, site, tables, bump, alloc)?;
    let one = size_whole(yes, &[], tested.next, site, tables, bump, alloc)?;
    let other = size_whole(no, &[], one.next, site, tables, bump, alloc)?;
    let Ok(size) = kept(one.size, other.size, node, 0, bump) else {
        return Err(SizeErr::Memory);
    };
    Ok(walked(size, other.next))
}

// ---- lets

// A row of lets and the body behind it.
#[cycle(walk)]
#[tactic(auto, using(crate::proofs::Walking::nothing))]
fn size_lets<'a>(
    row: &'a [Let<'a>],
    body: &'a Exp<'a>,
    heads: &'a [u32],
    node: u32,
    site: &Site<'a>,
    tables: &mut Tables<'a>,
    bump: &'a Bump,
    alloc: Global,
) -> Result<Walked<'a>, SizeErr>
    requires table { IsTable site.now.program.names.table.now }
    ensures sized { Takes (part_is (types_at site.now)) site.now.program site.now.names.now (part_sized (types_at site.now) (lets (map row_of row.now) (term_of body.now)) heads.now node) tables.old tables.new result }
    ensures next { IfOk result (λ w. w.next ≡ node + numbers (lets (map row_of row.now) (term_of body.now))) }
{
    let count = plain_lets(row, body);
    let opened = open_lets(&row[..count], node, site, tables, bump, alloc)?;
    let inside = Site {
        program: site.program,
        names: opened.names,
        depth: site.depth,
    };
    let left = heads_behind(&row[..count], heads);
    let behind = size_behind(
        &row[count..],
        body,
        left,
        opened.next,
        &inside,
        tables,
        bump,
        alloc,
    )?;
    let part = close(opened.endings, &behind.part, site, tables, bump, alloc)?;
    Ok(Walked {
        part,
        next: behind.next,
    })
}

// What stands behind the lets of a row that compose nothing: the body, or a composition that begins here.
#[cycle(walk)]
#[tactic(auto, using(crate::proofs::Walking::nothing))]
fn size_behind<'a>(
    row: &'a [Let<'a>],
    body: &'a Exp<'a>,
    heads: &'a [u32],
    node: u32,
    site: &Site<'a>,
    tables: &mut Tables<'a>,
    bump: &'a Bump,
    alloc: Global,
) -> Result<Walked<'a>, SizeErr>
    requires table { IsTable site.now.program.names.table.now }
    ensures sized { Takes (part_is (types_at site.now)) site.now.program site.now.names.now (part_sized (types_at site.now) (lets (map row_of row.now) (term_of body.now)) heads.now node) tables.old tables.new result }
    ensures next { IfOk result (λ w. w.next ≡ node + numbers (lets (map row_of row.now) (term_of body.now))) }
{
    if row.len() == 0 {
        return size_part(body, heads, node, site, tables, bump, alloc);
    }
    match composition_of(&row[0], &row[1..], body) {
        Some(composed) => size_composed(&row[0], &composed, node, site, tables, bump, alloc),
        None => Err(SizeErr::Memory),
    }
}

// Lets in a row, one after another.
#[cycle(walk)]
#[tactic(auto, using(crate::proofs::Walking::nothing))]
fn open_lets<'a>(
    row: &'a [Let<'a>],
    node: u32,
    site: &Site<'a>,
    tables: &mut Tables<'a>,
    bump: &'a Bump,
    alloc: Global,
) -> Result<Opened<'a>, SizeErr>
    requires table { IsTable site.now.program.names.table.now }
    ensures opened { Takes opened_is site.now.program site.now.names.now (row_opened (types_at site.now) (map row_of row.now) node) tables.old tables.new result }
    ensures endings { IfOk result (λ o. map end_of o.endings.now ≡ row_ends (map row_of row.now) node) }
    ensures next { IfOk result (λ o. o.next ≡ behind_row (map row_of row.now) node) }
{
    let mut endings = Vec::new(bump);
    let mut known = Known { names: site.names };
    let mut next = node;
    for one in row {
        let inside = Site {
            program: site.program,
            names: known.names,
            depth: site.depth,
        };
        let bound = open_let(one, next, &inside, tables, bump, alloc)?;
        known = Known { names: bound.names };
        next = bound.ending.inner;
        let Ok(()) = endings.push(bound.ending) else {
            return Err(SizeErr::Memory);
        };
    }
    Ok(Opened {
        names: known.names,
        endings: into_bump_slice(endings),
        next,
    })
}

// One let up to what stands behind it.
#[cycle(walk)]
#[tactic(auto, using(crate::proofs::Walking::nothing))]
fn open_let<'a>(
    one: &'a Let<'a>,
    node: u32,
    site: &Site<'a>,
    tables: &mut Tables<'a>,
    bump: &'a Bump,
    alloc: Global,
) -> Result<Bound<'a>, SizeErr>
    requires table { IsTable site.now.program.names.table.now }
    ensures opened { Takes bound_is site.now.program site.now.names.now (let_opened (types_at site.now) (row_of one.now) node) tables.old tables.new result }
    ensures ending { IfOk result (λ b. end_of b.ending ≡ let_end (row_of one.now) node) }
{
    let head = enter_head(one, node, site.names, bump)?;
    let inside = Site {
        program: site.program,
        names: head.names,
        depth: site.depth,
    };
    let whole = size_whole(
        &one.value, head.heads, head.value, &inside, tables, bump, alloc,
    )?;
    bind_let(
        one,
        node,
        whole.size,
        whole.next,
        site.names,
        &site.program,
        tables,
        bump,
        alloc,
    )
}

// The ends of the scopes of lets in one another, the outermost first, behind which stands a part.
#[cycle(walk)]
#[tactic(auto, using(crate::proofs::Walking::nothing))]
fn close<'a>(
    endings: &'a [Ending<'a>],
    part: &Part<'a>,
    site: &Site<'a>,
    tables: &mut Tables<'a>,
    bump: &'a Bump,
    alloc: Global,
) -> Result<Part<'a>, SizeErr>
    requires table { IsTable site.now.program.names.table.now }
    ensures { (N : Names) → Knows site.now.program.names N → (p : ThePart) → Is_part N (types_at site.now) part.now p → Steps (Is_part N (types_at site.now)) (all_closed (types_at site.now) (map end_of endings.now) p N) tables.old tables.new result }
{
    if endings.len() == 0 {
        return Ok(*part);
    }
    let last = endings.len() - 1;
    let whole = finish(part, endings[last].inner, site, tables, bump, alloc)?;
    let size = end_let(&endings[last], whole, bump)?;
    let outer = close_outer(&endings[..last], size, tables, bump, alloc)?;
    Ok(whole_part(outer))
}

// ---- compositions

// Two functions and the lambda that composes them.
#[cycle(walk)]
#[tactic(auto, using(crate::proofs::Walking::nothing))]
fn size_composed<'a>(
    one: &'a Let<'a>,
    composed: &Composition<'a>,
    node: u32,
    site: &Site<'a>,
    tables: &mut Tables<'a>,
    bump: &'a Bump,
    alloc: Global,
) -> Result<Walked<'a>, SizeErr>
    requires table { IsTable site.now.program.names.table.now }
    requires composes { composition (row_of one.now).0 (composed_body composed.now) ≡ Some composed.now.left_first }
    ensures sized { (bs : Items ℕ) → Takes (part_is (types_at site.now)) site.now.program site.now.names.now (part_sized (types_at site.now) (LetTerm (row_of one.now).0 (row_of one.now).1 (composed_body composed.now)) bs node) tables.old tables.new result }
    ensures next { IfOk result (λ w. w.next ≡ node + numbers (LetTerm (row_of one.now).0 (row_of one.now).1 (composed_body composed.now))) }
{
    let Ok(first) = after(node, 2) else {
        return Err(SizeErr::Memory);
    };
    let left = size_argument(&one.value, first, site, tables, bump, alloc)?;
    let Ok(value) = after(left.next, 2) else {
        return Err(SizeErr::Memory);
    };
    let right = size_argument(&composed.second.value, value, site, tables, bump, alloc)?;
    let size = compose(
        composed.left_first,
        left.argument,
        right.argument,
        node,
        right.next,
        site,
        tables,
        bump,
        alloc,
    )?;
    let names = enter_composition(
        one,
        composed.second,
        node,
        left.next,
        site.names,
        &site.program,
        tables,
        bump,
    )?;
    let inside = Site {
        program: site.program,
        names,
        depth: site.depth,
    };
    let lambda = size_part(
        composed.lambda,
        &[],
        right.next,
        &inside,
        tables,
        bump,
        alloc,
    )?;
    let given = size_wanted(&lambda.part, size, right.next, &inside, tables, bump, alloc)?;
    note(tables, left.next, given)?;
    Ok(walked(given, lambda.next))
}

// What the composition at a node of two functions is, whose lambda is at another.
#[cycle(walk)]
#[tactic(auto, using(crate::proofs::Walking::nothing))]
fn compose<'a>(
    left_first: bool,
    left: Argument<'a>,
    right: Argument<'a>,
    node: u32,
    lambda: u32,
    site: &Site<'a>,
    tables: &mut Tables<'a>,
    bump: &'a Bump,
    alloc: Global,
) -> Result<&'a SizeTree<'a>, SizeErr>
    requires table { IsTable site.now.program.names.table.now }
    ensures { (N : Names) → Knows site.now.program.names N → (f g : TheArgument) → Is_argument N (types_at site.now) left.entry f → Is_argument N (types_at site.now) right.entry g → Steps tree_is (composition_met N (types_at site.now) node left_first f g lambda) tables.old tables.new result }
{
    let Ok(size) = composition_size(left_first, node, lambda, &site.program, bump) else {
        return Err(SizeErr::Memory);
    };
    let functions = [left, right];
    let mut table = nothing_found(alloc);
    let application = apply(
        size, false, &functions, node, &mut table, site, tables, bump, alloc,
    )?;
    note_composed(node, &application, &mut table, tables, bump, alloc)
}

// A lambda of which this is wanted at its node.
#[cycle(walk)]
#[tactic(auto, using(crate::proofs::Walking::nothing))]
fn size_wanted<'a>(
    part: &Part<'a>,
    wanted: &'a SizeTree<'a>,
    node: u32,
    site: &Site<'a>,
    tables: &mut Tables<'a>,
    bump: &'a Bump,
    alloc: Global,
) -> Result<&'a SizeTree<'a>, SizeErr>
    requires table { IsTable site.now.program.names.table.now }
    ensures { (N : Names) → Knows site.now.program.names N → (p : ThePart) → Is_part N (types_at site.now) part.now p → Steps tree_is (wanted_as N (types_at site.now) node (size_of wanted.now) p) tables.old tables.new result }
{
    match *part {
        Part::Applied { .. } => Ok(wanted),
        Part::Waiting {
            exp,
            node: own,
            names,
            heads,
        } => {
            let lambda = Lambda {
                exp,
                node: own,
                names,
                heads,
            };
            let want = Some(Want {
                node,
                is_regular: false,
                size: wanted,
            });
            let mut table = nothing_found(alloc);
            size_lambda(&lambda, &want, &mut table, site, tables, bump, alloc)
        }
    }
}

// ---- loops

// A loop: its first value, what it goes over, and its turns.
#[cycle(walk)]
#[tactic(auto, using(crate::proofs::Walking::nothing))]
fn size_loop<'a>(
    whole: &'a Loop<'a>,
    node: u32,
    site: &Site<'a>,
    tables: &mut Tables<'a>,
    bump: &'a Bump,
    alloc: Global,
) -> Result<Walked<'a>, SizeErr>
    requires table { IsTable site.now.program.names.table.now }
    ensures sized { (bs : Items ℕ) → Takes (part_is (types_at site.now)) site.now.program site.now.names.now (part_sized (types_at site.now) (loop_of whole.now) bs node) tables.old tables.new result }
    ensures next { IfOk result (λ w. w.next ≡ node + numbers (loop_of whole.now)) }
{
    let Ok(value) = value_node(node, &whole.pat) else {
        return Err(SizeErr::Memory);
    };
    let first = size_whole(&whole.first, &[], value, site, tables, bump, alloc)?;
    let each = size_each(&whole.form, first.next, site, tables, bump, alloc)?;
    let turned = size_turns(
        whole, node, first.next, first.size, &each, site, tables, bump, alloc,
    )?;
    Ok(walked(turned.size, turned.next))
}

// What is counted or gone over is sized once.
#[cycle(walk)]
#[tactic(auto, using(crate::proofs::Walking::nothing))]
fn size_each<'a>(
    form: &'a LoopForm<'a>,
    at: u32,
    site: &Site<'a>,
    tables: &mut Tables<'a>,
    bump: &'a Bump,
    alloc: Global,
) -> Result<Each<'a>, SizeErr>
    requires table { IsTable site.now.program.names.table.now }
    ensures sized { Takes (each_is (turns_of form.now) at) site.now.program site.now.names.now (turns_going (types_at site.now) (turns_of form.now) at) tables.old tables.new result }
    ensures next { IfOk result (λ e. e.next ≡ each_end (turns_of form.now) at) }
{
    match form {
        LoopForm::For(_, count) => {
            let Ok(first) = after(at, 1) else {
                return Err(SizeErr::Memory);
            };
            let whole = size_whole(count, &[], first, site, tables, bump, alloc)?;
            note_each(form, at, &whole, &site.program, tables, bump)
        }
        LoopForm::ForIn(pat, array) => {
            let Ok(first) = after_pattern(at, pat) else {
                return Err(SizeErr::Memory);
            };
            let whole = size_whole(array, &[], first, site, tables, bump, alloc)?;
            note_each(form, at, &whole, &site.program, tables, bump)
        }
        LoopForm::While(_) => Ok(Each {
            size: None,
            next: at,
        }),
    }
}

// Turns until one keeps what it carried; there are at most as many as levels and one.
#[cycle(walk)]
#[tactic(auto, using(crate::proofs::Walking::nothing))]
fn size_turns<'a>(
    whole: &'a Loop<'a>,
    node: u32,
    at: u32,
    first: &'a SizeTree<'a>,
    each: &Each<'a>,
    site: &Site<'a>,
    tables: &mut Tables<'a>,
    bump: &'a Bump,
    alloc: Global,
) -> Result<Whole<'a>, SizeErr>
    requires table { IsTable site.now.program.names.table.now }
    requires begins { each.now.next ≡ each_end (turns_of whole.now.form) at }
    ensures sized { (N : Names) (scope : Scope) (f : Scope → Answer Scope) → Knows site.now.program.names N → In_scope site.now.names.now scope → each_is (turns_of whole.now.form) at N each.now f → Steps (whole_is N) (turns_from N (types_at site.now) (suc (levels (size_of first.now))) node (size_of first.now) (turn_going (types_at site.now) whole.now node at f N scope)) tables.old tables.new result }
    ensures next { IfOk result (λ w. w.next ≡ at + turn_numbers (turns_of whole.now.form) + numbers (term_of whole.now.body)) }
{
    let Ok(mut left) = levels_of(first) else {
        return Err(SizeErr::Memory);
    };
    loop {
        let turn = size_turn(whole, node, at, first, each, site, tables, bump, alloc)?;
        match turn.kept {
            Some(size) => {
                return Ok(Whole {
                    size,
                    next: turn.next,
                });
            }
            None => {
                if left == 0 {
                    let Ok(last) = carry(first, node, tables, bump) else {
                        return Err(SizeErr::Memory);
                    };
                    return Ok(Whole {
                        size: last.size,
                        next: turn.next,
                    });
                }
                left -= 1;
            }
        }
    }
}

// A turn, with what the loop keeps so far.
#[cycle(walk)]
#[tactic(auto, using(crate::proofs::Walking::nothing))]
fn size_turn<'a>(
    whole: &'a Loop<'a>,
    node: u32,
    at: u32,
    first: &'a SizeTree<'a>,
    each: &Each<'a>,
    site: &Site<'a>,
    tables: &mut Tables<'a>,
    bump: &'a Bump,
    alloc: Global,
) -> Result<Turn<'a>, SizeErr>
    requires table { IsTable site.now.program.names.table.now }
    requires begins { each.now.next ≡ each_end (turns_of whole.now.form) at }
    ensures sized { (N : Names) (scope : Scope) (f : Scope → Answer Scope) → Knows site.now.program.names N → In_scope site.now.names.now scope → each_is (turns_of whole.now.form) at N each.now f → Steps turn_is (turn_taken N (types_at site.now) node (size_of first.now) (turn_going (types_at site.now) whole.now node at f N scope)) tables.old tables.new result }
    ensures next { IfOk result (λ t. t.next ≡ at + turn_numbers (turns_of whole.now.form) + numbers (term_of whole.now.body)) }
{
    let Ok(carried) = carry(first, node, tables, bump) else {
        return Err(SizeErr::Memory);
    };
    let inside = enter_turn(
        whole,
        node,
        at,
        carried.size,
        each,
        site.names,
        &site.program,
        tables,
        bump,
        alloc,
    )?;
    let within = Site {
        program: site.program,
        names: inside.names,
        depth: site.depth,
    };
    let body = size_condition(&whole.form, each.next, &within, tables, bump, alloc)?;
    let given = size_whole(&whole.body, &[], body, &within, tables, bump, alloc)?;
    let Ok(renamed) = rename_taken(whole.sizes, &inside.bindings.found, given.size, bump) else {
        return Err(SizeErr::Memory);
    };
    end_turn(&carried, renamed, node, given.next, tables, bump, alloc)
}

// The condition of a `while` sees what the loop carries. The body begins behind it.
#[cycle(walk)]
#[tactic(auto, using(crate::proofs::Walking::nothing))]
fn size_condition<'a>(
    form: &'a LoopForm<'a>,
    at: u32,
    site: &Site<'a>,
    tables: &mut Tables<'a>,
    bump: &'a Bump,
    alloc: Global,
) -> Result<u32, SizeErr>
    requires table { IsTable site.now.program.names.table.now }
    ensures sized { (first : ℕ) → at ≡ each_end (turns_of form.now) first → Takes nothing_is site.now.program site.now.names.now (condition_going (types_at site.now) (turns_of form.now) first) tables.old tables.new result }
    ensures next { (first : ℕ) → at ≡ each_end (turns_of form.now) first → IfOk result (λ next. next ≡ first + turn_numbers (turns_of form.now)) }
{
    match form {
        LoopForm::While(test) => {
            let whole = size_whole(test, &[], at, site, tables, bump, alloc)?;
            Ok(whole.next)
        }
        LoopForm::For(_, _) => Ok(at),
        LoopForm::ForIn(_, _) => Ok(at),
    }
}
