// Runs of blocks, steps and loops.
ghost use Rattle.std.specs.Prelude.{◌≡◌, ◌∷◌, [], map};
ghost use Rattle.core_ir.specs.Plain.{Filter, For_in, Map, Of_rows, Of_two, Reduce, Scan, action_of, binding_of, body_of, bundle_form, group, source_form};
ghost use Rattle.core_code.specs.Registers.{state};
ghost use Rattle.core_code.specs.Runs.{Act_runs, Body_runs, For_runs, Step_runs, Test_runs, Turn_runs, While_runs};
ghost use Rattle.core_ir.specs.declared.block.Block.{out-Block};
ghost use Rattle.exec.specs.Folds.{Fold_runs, Row_turn_runs, Under_runs};
ghost use Rattle.exec.specs.Maps.{Each_runs, Element_runs};
ghost use Rattle.exec.specs.Scans.{Prefixes_run};
ghost use Rattle.exec.specs.Tests.{Tests_run};

use core_arrays::Arrays;
use core_code::{
    Stop, bind, pop_truth, push_all, run_operation, set_word, take, truth_at, turns_at,
};
use core_ir::{Atom, Block, Op, Over, Rows, Step, Var};
use core_steps::{
    bundle_count, glue, glue_none, keep_none, keep_passing, push_bundle, push_last, push_source,
    run_making, run_view, source_count,
};
use fut_scalar::{FailKind, IntType, Place, Report, ScalarType};

/// Runs a block, and puts the words of its results on the stack.
#[tactic(auto, using(crate::proofs::Steps::all_steps))]
#[cycle(blocks)]
pub fn run_block(
    block: &Block,
    turns: u64,
    table: &mut [u64],
    stack: &mut Vec<u64>,
    arrays: &mut Arrays,
) -> Result<(), Stop>
    ensures { Body_runs turns (body_of block.now) (state arrays.old table.old stack.old.items) (state arrays.new table.new stack.new.items) result }
{
    for step in block.steps {
        run_step(step, turns, table, stack, arrays)?;
    }
    push_all(block.results, table, stack)
}

/// Runs a step: its names get what it gives.
#[tactic(auto, using(crate::proofs::Steps::one_step))]
#[cycle(blocks)]
fn run_step(
    step: &Step,
    turns: u64,
    table: &mut [u64],
    stack: &mut Vec<u64>,
    arrays: &mut Arrays,
) -> Result<(), Stop>
    ensures { Step_runs turns (binding_of step.now) (state arrays.old table.old stack.old.items) (state arrays.new table.new stack.new.items) result }
{
    if let Op::Operate(operation) = &step.op {
        return run_operation(*operation, step.place, step.out, table, arrays);
    }
    let mark = stack.len();
    run_op(&step.op, step.place, turns, table, stack, arrays)?;
    take(step.out, mark, table, stack)
}

/// Runs what a step does, and puts the words that it gives on the stack.
#[tactic(auto, using(crate::proofs::Acts::act_rules))]
#[cycle(blocks)]
fn run_op(
    op: &Op,
    place: Place,
    turns: u64,
    table: &mut [u64],
    stack: &mut Vec<u64>,
    arrays: &mut Arrays,
) -> Result<(), Stop>
    ensures { Act_runs turns (action_of op.now place) (state arrays.old table.old stack.old.items) (state arrays.new table.new stack.new.items) result }
{
    match op {
        Op::If(condition, yes, no) => {
            if truth_at(table, *condition)? {
                run_block(yes, turns, table, stack, arrays)
            } else {
                run_block(no, turns, table, stack, arrays)
            }
        }
        Op::For {
            params,
            first,
            index,
            count,
            body,
        } => {
            let mark = stack.len();
            push_all(first, table, stack)?;
            let ScalarType::Int(ty) = index.elem else {
                return Err(Stop::Memory);
            };
            let count = turns_at(table, ty, *count)?;
            run_for(
                body, params, *index, ty, count, mark, turns, table, stack, arrays,
            )
        }
        Op::While {
            params,
            first,
            test,
            body,
        } => {
            let mark = stack.len();
            push_all(first, table, stack)?;
            run_while(test, body, params, place, mark, turns, table, stack, arrays)
        }
        _ => run_apply(op, place, turns, table, stack, arrays),
    }
}

/// Runs a step over arrays, and puts the words that it gives on the stack.
#[tactic(auto, using(crate::proofs::Acts::act_rules))]
#[cycle(blocks)]
fn run_apply(
    op: &Op,
    place: Place,
    turns: u64,
    table: &mut [u64],
    stack: &mut Vec<u64>,
    arrays: &mut Arrays,
) -> Result<(), Stop>
    ensures { Act_runs turns (action_of op.now place) (state arrays.old table.old stack.old.items) (state arrays.new table.new stack.new.items) result }
{
    match op {
        Op::View(view) => run_view(*view, place, table, stack, arrays),
        Op::Make(making) => run_making(*making, place, table, stack, arrays),
        Op::Map {
            over,
            sizes,
            params,
            body,
        } => run_map(
            body, params, *over, sizes, place, turns, table, stack, arrays,
        ),
        Op::Filter { rows, params, test } => {
            run_filter(test, params, *rows, place, turns, table, stack, arrays)
        }
        _ => run_folding(op, place, turns, table, stack, arrays),
    }
}

/// Runs a loop over rows or a reduction, and puts the words that it gives on the stack.
#[tactic(auto, using(crate::proofs::Acts::act_rules))]
#[cycle(blocks)]
fn run_folding(
    op: &Op,
    place: Place,
    turns: u64,
    table: &mut [u64],
    stack: &mut Vec<u64>,
    arrays: &mut Arrays,
) -> Result<(), Stop>
    ensures { Act_runs turns (action_of op.now place) (state arrays.old table.old stack.old.items) (state arrays.new table.new stack.new.items) result }
{
    match op {
        Op::ForIn {
            params,
            first,
            row,
            rows,
            body,
        } => run_fold(
            body, params, row, first, *rows, place, turns, table, stack, arrays,
        ),
        Op::Reduce {
            neutral,
            rows,
            operator,
        } => run_fold(
            operator.body,
            operator.left,
            operator.right,
            neutral,
            *rows,
            place,
            turns,
            table,
            stack,
            arrays,
        ),
        Op::Scan {
            neutral,
            rows,
            operator,
        } => run_scan(
            operator.body,
            operator.left,
            operator.right,
            neutral,
            *rows,
            place,
            turns,
            table,
            stack,
            arrays,
        ),
        _ => Err(Stop::Memory),
    }
}

/// Reduces each prefix of the rows of a bundle, and puts arrays of all results on the stack.
#[tactic(auto, using(crate::proofs::Scans::scan_rules))]
#[cycle(blocks)]
fn run_scan(
    body: &Block,
    params: &[Var],
    row: &[Var],
    neutral: &[Atom],
    rows: Rows,
    place: Place,
    turns: u64,
    table: &mut [u64],
    stack: &mut Vec<u64>,
    arrays: &mut Arrays,
) -> Result<(), Stop>
    ensures { Act_runs turns (Scan place neutral.now (bundle_form rows.entry) (Of_two params.now row.now (body_of body.now))) (state arrays.old table.old stack.old.items) (state arrays.new table.new stack.new.items) result }
{
    let mark = stack.len();
    let count = bundle_count(rows, place, table, arrays)?;
    if count == 0 {
        return keep_none(rows, place, table, stack, arrays);
    }
    push_all(neutral, table, stack)?;
    run_row_turn(
        body, params, row, rows, 0, mark, turns, table, stack, arrays,
    )?;
    run_prefixes(body, params, row, rows, count, turns, table, stack, arrays)?;
    glue(results_of(body), count, mark, place, stack, arrays)
}

/// Takes a turn for each row of a bundle behind the first, each from the words that the one before left on the stack.
#[tactic(auto, using(crate::proofs::Scans::prefixes))]
#[cycle(blocks)]
fn run_prefixes(
    body: &Block,
    params: &[Var],
    row: &[Var],
    rows: Rows,
    count: u64,
    turns: u64,
    table: &mut [u64],
    stack: &mut Vec<u64>,
    arrays: &mut Arrays,
) -> Result<(), Stop>
    ensures { Prefixes_run turns (body_of body.now) params.now row.now (bundle_form rows.entry) count (state arrays.old table.old stack.old.items) (state arrays.new table.new stack.new.items) result }
{
    for i in 1..count {
        let mark = stack.len();
        push_last(params.len(), stack)?;
        run_row_turn(
            body, params, row, rows, i, mark, turns, table, stack, arrays,
        )?;
    }
    Ok(())
}

/// Takes a turn for each row of a bundle, from first words of the parameters on. A reduction in order is the same.
#[tactic(auto, using(crate::proofs::Acts::act_rules))]
#[cycle(blocks)]
fn run_fold(
    body: &Block,
    params: &[Var],
    row: &[Var],
    first: &[Atom],
    rows: Rows,
    place: Place,
    turns: u64,
    table: &mut [u64],
    stack: &mut Vec<u64>,
    arrays: &mut Arrays,
) -> Result<(), Stop>
    ensures folded { Act_runs turns (For_in place params.now first.now row.now (bundle_form rows.entry) (body_of body.now)) (state arrays.old table.old stack.old.items) (state arrays.new table.new stack.new.items) result }
    ensures reduced { Act_runs turns (Reduce place first.now (bundle_form rows.entry) (Of_two params.now row.now (body_of body.now))) (state arrays.old table.old stack.old.items) (state arrays.new table.new stack.new.items) result }
{
    let mark = stack.len();
    push_all(first, table, stack)?;
    let count = bundle_count(rows, place, table, arrays)?;
    run_rows(
        body, params, row, rows, count, mark, turns, table, stack, arrays,
    )
}

/// Applies a block to each row of a source, and puts the arrays of all results on the stack.
#[tactic(auto, using(crate::proofs::Acts::act_rules))]
#[cycle(blocks)]
fn run_map(
    body: &Block,
    params: &[Var],
    over: Over,
    sizes: &[&[Atom]],
    place: Place,
    turns: u64,
    table: &mut [u64],
    stack: &mut Vec<u64>,
    arrays: &mut Arrays,
) -> Result<(), Stop>
    ensures { Act_runs turns (Map place (source_form over.entry) (map group sizes.now) params.now (body_of body.now)) (state arrays.old table.old stack.old.items) (state arrays.new table.new stack.new.items) result }
{
    let mark = stack.len();
    let count = source_count(over, place, table, arrays)?;
    if count == 0 {
        return glue_none(sizes, place, table, stack, arrays);
    }
    run_each(body, params, over, count, turns, table, stack, arrays)?;
    glue(results_of(body), count, mark, place, stack, arrays)
}

/// What a block comes to.
fn results_of<'a>(block: &'a Block) -> &'a [Atom]
    ensures { result.now ≡ (out-Block block.now).results.now }
{
    block.results
}

/// Applies a block to each row of a source, and puts the words of all results on the stack.
#[tactic(auto, using(crate::proofs::Maps::maps))]
#[cycle(blocks)]
fn run_each(
    body: &Block,
    params: &[Var],
    over: Over,
    count: u64,
    turns: u64,
    table: &mut [u64],
    stack: &mut Vec<u64>,
    arrays: &mut Arrays,
) -> Result<(), Stop>
    ensures { Each_runs turns (body_of body.now) params.now (source_form over.entry) count (state arrays.old table.old stack.old.items) (state arrays.new table.new stack.new.items) result }
{
    for i in 0..count {
        run_element(body, params, over, i, turns, table, stack, arrays)?;
    }
    Ok(())
}

/// Applies a block to one row of a source.
#[tactic(auto, using(crate::proofs::Maps::elements))]
#[cycle(blocks)]
fn run_element(
    body: &Block,
    params: &[Var],
    over: Over,
    i: u64,
    turns: u64,
    table: &mut [u64],
    stack: &mut Vec<u64>,
    arrays: &mut Arrays,
) -> Result<(), Stop>
    ensures { Element_runs turns (body_of body.now) params.now (source_form over.entry) i (state arrays.old table.old stack.old.items) (state arrays.new table.new stack.new.items) result }
{
    let mark = stack.len();
    push_source(over, i, table, stack, arrays)?;
    run_under(body, params, mark, turns, table, stack, arrays)
}

/// Applies a test to each row of a bundle, and puts arrays of the rows that pass on the stack.
#[tactic(auto, using(crate::proofs::Acts::act_rules))]
#[cycle(blocks)]
fn run_filter(
    test: &Block,
    params: &[Var],
    rows: Rows,
    place: Place,
    turns: u64,
    table: &mut [u64],
    stack: &mut Vec<u64>,
    arrays: &mut Arrays,
) -> Result<(), Stop>
    ensures { Act_runs turns (Filter place (bundle_form rows.entry) params.now (body_of test.now)) (state arrays.old table.old stack.old.items) (state arrays.new table.new stack.new.items) result }
{
    let mark = stack.len();
    let count = bundle_count(rows, place, table, arrays)?;
    run_tests(test, params, rows, count, turns, table, stack, arrays)?;
    keep_passing(rows.arrays, mark, table, stack, arrays)
}

/// Applies a test to each row of a bundle, and puts a word for each outcome on the stack.
#[tactic(auto, using(crate::proofs::Tests::tests))]
#[cycle(blocks)]
fn run_tests(
    test: &Block,
    params: &[Var],
    rows: Rows,
    count: u64,
    turns: u64,
    table: &mut [u64],
    stack: &mut Vec<u64>,
    arrays: &mut Arrays,
) -> Result<(), Stop>
    ensures { Tests_run turns (body_of test.now) params.now (bundle_form rows.entry) count (state arrays.old table.old stack.old.items) (state arrays.new table.new stack.new.items) result }
{
    for i in 0..count {
        run_row(test, params, rows, i, turns, table, stack, arrays)?;
    }
    Ok(())
}

/// Applies a block to one row of a bundle.
#[tactic(auto, using(crate::proofs::Tests::row_elements))]
#[cycle(blocks)]
fn run_row(
    body: &Block,
    params: &[Var],
    rows: Rows,
    i: u64,
    turns: u64,
    table: &mut [u64],
    stack: &mut Vec<u64>,
    arrays: &mut Arrays,
) -> Result<(), Stop>
    ensures { Element_runs turns (body_of body.now) params.now (Of_rows (bundle_form rows.entry ∷ [])) i (state arrays.old table.old stack.old.items) (state arrays.new table.new stack.new.items) result }
{
    let mark = stack.len();
    push_bundle(rows, i, table, stack, arrays)?;
    run_under(body, params, mark, turns, table, stack, arrays)
}

/// Takes a turn for each row of a bundle, with the words of the parameters on the stack from the mark on.
#[tactic(auto, using(crate::proofs::Folds::folds))]
#[cycle(blocks)]
fn run_rows(
    body: &Block,
    params: &[Var],
    row: &[Var],
    rows: Rows,
    count: u64,
    mark: usize,
    turns: u64,
    table: &mut [u64],
    stack: &mut Vec<u64>,
    arrays: &mut Arrays,
) -> Result<(), Stop>
    ensures { Fold_runs turns (body_of body.now) params.now row.now (bundle_form rows.entry) count mark (state arrays.old table.old stack.old.items) (state arrays.new table.new stack.new.items) result }
{
    for i in 0..count {
        run_row_turn(
            body, params, row, rows, i, mark, turns, table, stack, arrays,
        )?;
    }
    Ok(())
}

/// Takes a turn for one row.
#[tactic(auto, using(crate::proofs::Folds::row_turns))]
#[cycle(blocks)]
fn run_row_turn(
    body: &Block,
    params: &[Var],
    row: &[Var],
    rows: Rows,
    i: u64,
    mark: usize,
    turns: u64,
    table: &mut [u64],
    stack: &mut Vec<u64>,
    arrays: &mut Arrays,
) -> Result<(), Stop>
    ensures { Row_turn_runs turns (body_of body.now) params.now row.now (bundle_form rows.entry) i mark (state arrays.old table.old stack.old.items) (state arrays.new table.new stack.new.items) result }
{
    take(params, mark, table, stack)?;
    push_bundle(rows, i, table, stack, arrays)?;
    run_under(body, row, mark, turns, table, stack, arrays)
}

/// Runs a block under parameters whose words lie on the stack from the mark on.
#[tactic(auto, using(crate::proofs::Folds::unders))]
#[cycle(blocks)]
fn run_under(
    body: &Block,
    params: &[Var],
    mark: usize,
    turns: u64,
    table: &mut [u64],
    stack: &mut Vec<u64>,
    arrays: &mut Arrays,
) -> Result<(), Stop>
    ensures { Under_runs turns (body_of body.now) params.now mark (state arrays.old table.old stack.old.items) (state arrays.new table.new stack.new.items) result }
{
    take(params, mark, table, stack)?;
    run_block(body, turns, table, stack, arrays)
}

/// Takes the turns of a counted loop, whose words lie on the stack from the mark on.
#[tactic(auto, using(crate::proofs::Loops::counted))]
#[cycle(blocks)]
fn run_for(
    body: &Block,
    params: &[Var],
    index: Var,
    ty: IntType,
    count: u64,
    mark: usize,
    turns: u64,
    table: &mut [u64],
    stack: &mut Vec<u64>,
    arrays: &mut Arrays,
) -> Result<(), Stop>
    ensures { For_runs turns (body_of body.now) params.now index ty count mark (state arrays.old table.old stack.old.items) (state arrays.new table.new stack.new.items) result }
{
    for turn in 0..count {
        run_turn(
            body, params, index, ty, turn, mark, turns, table, stack, arrays,
        )?;
    }
    Ok(())
}

/// Takes a turn of a counted loop.
#[tactic(auto, using(crate::proofs::Loops::one_turn))]
#[cycle(blocks)]
fn run_turn(
    body: &Block,
    params: &[Var],
    index: Var,
    ty: IntType,
    turn: u64,
    mark: usize,
    turns: u64,
    table: &mut [u64],
    stack: &mut Vec<u64>,
    arrays: &mut Arrays,
) -> Result<(), Stop>
    ensures { Turn_runs turns (body_of body.now) params.now index ty turn mark (state arrays.old table.old stack.old.items) (state arrays.new table.new stack.new.items) result }
{
    take(params, mark, table, stack)?;
    set_word(index.number, turn, table)?;
    run_block(body, turns, table, stack, arrays)
}

/// Whether a loop goes on, with its words on the stack from the mark on.
#[tactic(auto, using(crate::proofs::Loops::one_test))]
#[cycle(blocks)]
fn run_test(
    test: &Block,
    params: &[Var],
    mark: usize,
    turns: u64,
    table: &mut [u64],
    stack: &mut Vec<u64>,
    arrays: &mut Arrays,
) -> Result<bool, Stop>
    ensures { Test_runs turns (body_of test.now) params.now mark (state arrays.old table.old stack.old.items) (state arrays.new table.new stack.new.items) result }
{
    let top = stack.len();
    bind(params, mark, table, stack)?;
    run_block(test, turns, table, stack, arrays)?;
    pop_truth(top, stack)
}

/// Takes turns while the test holds, with the words on the stack from the mark on.
#[tactic(auto, using(crate::proofs::Loops::uncounted))]
#[cycle(blocks)]
fn run_while(
    test: &Block,
    body: &Block,
    params: &[Var],
    place: Place,
    mark: usize,
    turns: u64,
    table: &mut [u64],
    stack: &mut Vec<u64>,
    arrays: &mut Arrays,
) -> Result<(), Stop>
    ensures { While_runs turns (body_of test.now) (body_of body.now) params.now place mark (state arrays.old table.old stack.old.items) (state arrays.new table.new stack.new.items) result }
{
    for _ in 0..turns {
        if !run_test(test, params, mark, turns, table, stack, arrays)? {
            return Ok(());
        }
        stack.truncate(mark);
        run_block(body, turns, table, stack, arrays)?;
    }
    if run_test(test, params, mark, turns, table, stack, arrays)? {
        Err(Stop::Failed(Report {
            kind: FailKind::Turns,
            place,
        }))
    } else {
        Ok(())
    }
}
