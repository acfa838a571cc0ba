// Runs of blocks, acts and loops.
ghost use Rattle.std.specs.Prelude.{◌≡◌, false, length};
ghost use Rattle.fut_blocks.specs.Plain.{Job, action_of, binding_of, body_of};
ghost use Rattle.fut_blocks.specs.Rows.{row_of};
ghost use Rattle.array_data.specs.Answers.{exact_held};
ghost use Rattle.array_data.specs.Held.{as_held, built_rows, held, held_all, rows_in};
ghost use Rattle.fut_eval.specs.Primitives.{Applied_runs, Combine_runs, Each_runs, Fold_runs, Next_runs, Primitive_runs, Scan_runs, Told_runs, Two_runs, Write_runs, as_built, leaving};
ghost use Rattle.fut_eval.specs.Runs.{Act_runs, Body_runs, For_runs, Over_runs, Step_runs, Test_runs, Turn_runs, While_runs};

use crate::finish::finish_each;
use crate::make::make;
use crate::names::{
    bind, name, name_scalar, pop_one, pop_truth, push, push_all, read, read_data, take,
};
use crate::operate::{operate, scalar_result, truth_at, turns_at};
use crate::size_tests::{coerce, put_size};
use crate::slots::{Branch, Slot, give_up_bound, give_up_moved, give_up_used};
use array_data::{
    Built, Data, Exact, Stop, array, copy, count, first_apart, in_place, row, row_depth, row_form,
};
use array_primitives::{Finish, Plan, index_at, plan_of, put_row, scatter};
use fut_blocks::{Act, Atom, Block, RowShape, Step};
use fut_flat::Primitive;
use fut_scalar::{FailKind, IntType, List, Place, Report, Scalar};
use std::alloc::Global;

/// Runs a block, and puts its results on the stack.
#[tactic(auto, using(crate::proofs::Steps::all_steps))]
#[cycle(blocks)]
pub fn run_block(
    alloc: Global,
    block: &Block,
    turns: u64,
    table: &mut [Slot],
    stack: &mut Vec<Data>,
) -> Result<(), Stop>
    ensures { Body_runs turns (body_of block.now) (held_all table.old) (held_all table.new) (held_all stack.old.items) (held_all stack.new.items) result }
{
    for step in block.steps {
        run_step(alloc, step, turns, table, stack)?;
    }
    push_all(block.results, table, stack)?;
    give_up_bound(block.steps, table);
    Ok(())
}

/// Runs a step: its names get what its act gives.
#[tactic(auto, using(crate::proofs::Steps::one_step, crate::proofs::ScalarSteps::scalar_steps))]
#[cycle(blocks)]
fn run_step(
    alloc: Global,
    step: &Step,
    turns: u64,
    table: &mut [Slot],
    stack: &mut Vec<Data>,
) -> Result<(), Stop>
    ensures { Step_runs turns (binding_of step.now) (held_all table.old) (held_all table.new) (held_all stack.old.items) (held_all stack.new.items) result }
{
    if let Act::Operate(operation) = &step.act
        && step.names.len() == 1
        && let Some(scalar) = scalar_result(operation, table)?
    {
        return name_scalar(step.names[0], scalar, table);
    }
    let mark = stack.len();
    run_act(alloc, &step.act, step.names, turns, table, stack)?;
    give_up_used(step, table);
    take(step.names, mark, table, stack)
}

/// Runs an act, and puts what it gives on the stack, for names of its own.
#[tactic(auto, using(crate::proofs::Acts::act_rules))]
#[cycle(blocks)]
fn run_act(
    alloc: Global,
    act: &Act,
    own: &[u32],
    turns: u64,
    table: &mut [Slot],
    stack: &mut Vec<Data>,
) -> Result<(), Stop>
    ensures { Act_runs turns (action_of act.now) (held_all table.old) (held_all table.new) (held_all stack.old.items) (held_all stack.new.items) result }
{
    match act {
        Act::Operate(operation) => operate(*operation, table, stack),
        Act::Make(making, place, atoms) => make(alloc, *making, *place, atoms, own, table, stack),
        Act::Primitive {
            primitive,
            place,
            row: missing,
            data,
            params,
            body,
        } => run_primitive(
            alloc, *primitive, *place, missing, data, own, params, body, turns, table, stack,
        ),
        Act::Size(extent) => put_size(alloc, extent, table, stack),
        Act::Coerce(place, test, row) => coerce(alloc, *place, test, row, table),
        Act::ForEach {
            params,
            first,
            row: element,
            rows,
            body,
        } => {
            let mark = stack.len();
            push_all(first, table, stack)?;
            let rows = read(table, *rows)?;
            let n = count(&rows)?;
            give_up_moved(params, first, Branch::First, table);
            run_over(
                alloc, body, params, *element, &rows, n, mark, turns, table, stack,
            )
        }
        Act::If(condition, yes, no) => {
            if truth_at(table, *condition)? {
                run_block(alloc, yes, turns, table, stack)
            } else {
                run_block(alloc, no, turns, table, stack)
            }
        }
        Act::For {
            params,
            first,
            index,
            count,
            body,
        } => {
            let mark = stack.len();
            push_all(first, table, stack)?;
            let (ty, count) = turns_at(table, *count)?;
            give_up_moved(params, first, Branch::First, table);
            run_for(
                alloc, body, params, *index, ty, count, mark, turns, table, stack,
            )
        }
        Act::While {
            place,
            params,
            first,
            test,
            body,
        } => {
            let mark = stack.len();
            push_all(first, table, stack)?;
            give_up_moved(params, first, Branch::First, table);
            run_while(alloc, test, body, params, *place, mark, turns, table, stack)
        }
    }
}

/// Runs a primitive on arrays.
#[tactic(auto, using(crate::proofs::Jobs::acts))]
#[cycle(blocks)]
fn run_primitive(
    alloc: Global,
    primitive: Primitive,
    place: Place,
    missing: &RowShape,
    atoms: &[Atom],
    own: &[u32],
    params: &[u32],
    body: &Block,
    turns: u64,
    table: &mut [Slot],
    stack: &mut Vec<Data>,
) -> Result<(), Stop>
    ensures { Act_runs turns (Job (row_of missing.now) primitive place atoms.now params.now (body_of body.now)) (held_all table.old) (held_all table.new) (held_all stack.old.items) (held_all stack.new.items) result }
{
    let args = read_data(alloc, atoms, table)?;
    give_up_moved(own, atoms, Branch::First, table);
    match primitive {
        Primitive::Scatter => run_writes(
            alloc, primitive, place, args, params, body, turns, table, stack,
        ),
        Primitive::ReduceByIndex => run_writes(
            alloc, primitive, place, args, params, body, turns, table, stack,
        ),
        _ => run_job(
            alloc,
            primitive,
            place,
            missing,
            args.as_slice(),
            params,
            body,
            turns,
            table,
            stack,
        ),
    }
}

/// Runs a primitive that writes rows of an array, and puts its result on the stack.
#[tactic(auto, using(crate::proofs::Jobs::writing_jobs))]
#[cycle(blocks)]
fn run_writes(
    alloc: Global,
    primitive: Primitive,
    place: Place,
    args: List<Data>,
    params: &[u32],
    body: &Block,
    turns: u64,
    table: &mut [Slot],
    stack: &mut Vec<Data>,
) -> Result<(), Stop>
    ensures { Told_runs turns (body_of body.now) params.now primitive place (held_all args) (held_all table.old) (held_all table.new) (held_all stack.old.items) (held_all stack.new.items) result }
{
    let plan = plan_of(alloc, primitive, place, args.as_slice())?;
    let Some((whole, rest)) = first_apart(args) else {
        return Err(Stop::Memory);
    };
    match plan {
        Plan::Scatter => {
            if rest.len() != 2 {
                return Err(Stop::Memory);
            }
            let rest = rest.as_slice();
            let value = scatter(alloc, place, whole, &rest[0], &rest[1])?;
            push(stack, value)
        }
        Plan::Combine(n) => {
            if rest.len() != 3 {
                return Err(Stop::Memory);
            }
            let rest = rest.as_slice();
            let form = row_form(alloc, &whole)?;
            let deep = row_depth(&whole);
            let mut rows = Built::of(alloc, whole)?;
            run_combine(
                alloc, &mut rows, &rest[1], &rest[2], n, params, body, turns, table, stack,
            )?;
            let value = in_place(alloc, place, form, deep, rows)?;
            push(stack, value)
        }
        _ => Err(Stop::Memory),
    }
}

/// Runs a primitive on its data, and puts its result on the stack; rows that are missing are of the shape that is told.
#[tactic(auto, using(crate::proofs::Jobs::jobs))]
#[cycle(blocks)]
fn run_job(
    alloc: Global,
    primitive: Primitive,
    place: Place,
    missing: &RowShape,
    args: &[Data],
    params: &[u32],
    body: &Block,
    turns: u64,
    table: &mut [Slot],
    stack: &mut Vec<Data>,
) -> Result<(), Stop>
    ensures { Primitive_runs turns (body_of body.now) params.now (row_of missing.now) primitive place (held_all args.now) (held_all table.old) (held_all table.new) (held_all stack.old.items) (held_all stack.new.items) result }
{
    match plan_of(alloc, primitive, place, args)? {
        Plan::Done(value) => push(stack, value),
        Plan::Each(finish, n) => {
            let built = run_each(alloc, finish, args, n, params, body, turns, table, stack)?;
            let value = finish_each(alloc, finish, missing, place, args, built, table)?;
            push(stack, value)
        }
        Plan::Reduce => {
            if args.len() != 2 {
                return Err(Stop::Memory);
            }
            let value = run_fold(alloc, &args[0], &args[1], params, body, turns, table, stack)?;
            push(stack, value)
        }
        Plan::Scan => {
            if args.len() != 2 {
                return Err(Stop::Memory);
            }
            let built = run_scan(alloc, &args[0], &args[1], params, body, turns, table, stack)?;
            let form = row_form(alloc, &args[1])?;
            let value = array(alloc, place, &form, row_depth(&args[1]), built)?;
            push(stack, value)
        }
        Plan::Scatter => Err(Stop::Memory),
        Plan::Combine(_) => Err(Stop::Memory),
    }
}

/// Applies a function to the arguments that lie on the stack from the mark on.
#[tactic(auto, using(crate::proofs::Applying::applying))]
#[cycle(blocks)]
fn apply(
    alloc: Global,
    params: &[u32],
    body: &Block,
    mark: usize,
    turns: u64,
    table: &mut [Slot],
    stack: &mut Vec<Data>,
) -> Result<Data, Stop>
    ensures { Applied_runs turns (body_of body.now) params.now mark (held_all table.old) (held_all table.new) (held_all stack.old.items) (held_all stack.new.items) (as_held result) }
{
    take(params, mark, table, stack)?;
    run_block(alloc, body, turns, table, stack)?;
    pop_one(mark, stack)
}

/// Applies a function to each of so many rows.
#[tactic(auto, using(crate::proofs::Rowing::each_row))]
#[cycle(blocks)]
fn run_each(
    alloc: Global,
    finish: Finish,
    args: &[Data],
    n: usize,
    params: &[u32],
    body: &Block,
    turns: u64,
    table: &mut [Slot],
    stack: &mut Vec<Data>,
) -> Result<Built, Stop>
    ensures { Each_runs turns (body_of body.now) params.now finish (held_all args.now) n (held_all table.old) (held_all table.new) (held_all stack.old.items) (held_all stack.new.items) (as_built result) }
{
    let mut built = Built::new(alloc);
    for i in 0..n {
        let mark = stack.len();
        put_row(finish, args, i, stack)?;
        let value = apply(alloc, params, body, mark, turns, table, stack)?;
        built.push(value)?;
    }
    Ok(built)
}

/// Applies a function to two arguments.
#[tactic(auto, using(crate::proofs::Applying::on_two))]
#[cycle(blocks)]
fn apply_two(
    alloc: Global,
    first: Data,
    second: Data,
    params: &[u32],
    body: &Block,
    turns: u64,
    table: &mut [Slot],
    stack: &mut Vec<Data>,
) -> Result<Data, Stop>
    ensures { Two_runs turns (body_of body.now) params.now (held first) (held second) (held_all table.old) (held_all table.new) (held_all stack.old.items) (held_all stack.new.items) (as_held result) }
{
    let mark = stack.len();
    push(stack, first)?;
    push(stack, second)?;
    apply(alloc, params, body, mark, turns, table, stack)
}

/// One step of a fold. The first element stands for itself.
#[tactic(auto, using(crate::proofs::Applying::next_steps))]
#[cycle(blocks)]
fn fold_next(
    alloc: Global,
    i: usize,
    sofar: Data,
    next: Data,
    params: &[u32],
    body: &Block,
    turns: u64,
    table: &mut [Slot],
    stack: &mut Vec<Data>,
) -> Result<Data, Stop>
    ensures { Next_runs turns (body_of body.now) params.now i (held sofar) (held next) (held_all table.old) (held_all table.new) (held_all stack.old.items) (held_all stack.new.items) (as_held result) }
{
    if i == 0 {
        return Ok(next);
    }
    apply_two(alloc, sofar, next, params, body, turns, table, stack)
}

/// Folds the rows of an array with an operator from the left. Without rows it is the neutral element.
#[tactic(auto, using(crate::proofs::Folding::folds))]
#[cycle(blocks)]
fn run_fold(
    alloc: Global,
    neutral: &Data,
    rows: &Data,
    params: &[u32],
    body: &Block,
    turns: u64,
    table: &mut [Slot],
    stack: &mut Vec<Data>,
) -> Result<Data, Stop>
    ensures { Fold_runs turns (body_of body.now) params.now (held neutral.now) (held rows.now) (held_all table.old) (held_all table.new) (held_all stack.old.items) (held_all stack.new.items) (as_held result) }
{
    let Ok(n) = count(rows) else {
        return Err(Stop::Memory);
    };
    let mut sofar = copy(neutral)?;
    for i in 0..n {
        let next = row(rows, i)?;
        sofar = fold_next(alloc, i, sofar, next, params, body, turns, table, stack)?;
    }
    Ok(sofar)
}

/// Folds the rows of an array with an operator from the left, and gives what each prefix comes to.
#[tactic(auto, using(crate::proofs::Folding::scans))]
#[cycle(blocks)]
fn run_scan(
    alloc: Global,
    neutral: &Data,
    rows: &Data,
    params: &[u32],
    body: &Block,
    turns: u64,
    table: &mut [Slot],
    stack: &mut Vec<Data>,
) -> Result<Built, Stop>
    ensures { Scan_runs turns (body_of body.now) params.now (held neutral.now) (held rows.now) (held_all table.old) (held_all table.new) (held_all stack.old.items) (held_all stack.new.items) (as_built result) }
{
    let Ok(n) = count(rows) else {
        return Err(Stop::Memory);
    };
    let mut built = Built::new(alloc);
    let mut sofar = copy(neutral)?;
    for i in 0..n {
        let next = row(rows, i)?;
        sofar = fold_next(alloc, i, sofar, next, params, body, turns, table, stack)?;
        built.push(copy(&sofar)?)?;
    }
    Ok(built)
}

/// Combines the row that stands at an index with another one. Where no row stands there, nothing changes.
#[tactic(auto, using(crate::proofs::Combining::writes_one))]
#[cycle(blocks)]
fn combine_at(
    alloc: Global,
    rows: &mut Built,
    index: Exact,
    value: Data,
    params: &[u32],
    body: &Block,
    turns: u64,
    table: &mut [Slot],
    stack: &mut Vec<Data>,
) -> Result<(), Stop>
    ensures { Write_runs turns (body_of body.now) params.now (exact_held index) (held value) (built_rows rows.old) (built_rows rows.new) (held_all table.old) (held_all table.new) (held_all stack.old.items) (held_all stack.new.items) result }
{
    match index {
        Exact::Below(_) => Ok(()),
        Exact::Natural(place) => {
            let found = rows.row(place)?;
            match found {
                None => Ok(()),
                Some(old) => {
                    let next = apply_two(alloc, old, value, params, body, turns, table, stack)?;
                    rows.set(place, next)
                }
            }
        }
    }
}

/// Combines rows with those of an array, each at the index that it has, one after the other.
#[tactic(auto, using(crate::proofs::Combining::writes_combined))]
#[cycle(blocks)]
fn run_combine(
    alloc: Global,
    rows: &mut Built,
    indices: &Data,
    values: &Data,
    n: usize,
    params: &[u32],
    body: &Block,
    turns: u64,
    table: &mut [Slot],
    stack: &mut Vec<Data>,
) -> Result<(), Stop>
    ensures { Combine_runs turns (body_of body.now) params.now (built_rows rows.old) (held indices.now) (held values.now) n (held_all table.old) (held_all table.new) (held_all stack.old.items) (held_all stack.new.items) (leaving (built_rows rows.new) result) }
{
    for i in 0..n {
        let index = index_at(indices, i)?;
        let value = row(values, i)?;
        combine_at(alloc, rows, index, value, params, body, turns, table, stack)?;
    }
    Ok(())
}

/// Takes the turns of a counted loop, whose values lie on the stack from the mark on.
#[tactic(auto, using(crate::proofs::Loops::counted))]
#[cycle(blocks)]
fn run_for(
    alloc: Global,
    body: &Block,
    params: &[u32],
    index: u32,
    ty: IntType,
    count: u64,
    mark: usize,
    turns: u64,
    table: &mut [Slot],
    stack: &mut Vec<Data>,
) -> Result<(), Stop>
    ensures { For_runs turns (body_of body.now) params.now index ty count mark (held_all table.old) (held_all table.new) (held_all stack.old.items) (held_all stack.new.items) result }
{
    for turn in 0..count {
        let index_value = Data::Scalar(Scalar::Int { ty, bits: turn });
        run_turn(
            alloc,
            body,
            params,
            index,
            index_value,
            mark,
            turns,
            table,
            stack,
        )?;
    }
    Ok(())
}

/// Takes a turn for each of so many rows, with the values of the loop on the stack from the mark on.
#[tactic(auto, using(crate::proofs::Loops::over_rows))]
#[cycle(blocks)]
fn run_over(
    alloc: Global,
    body: &Block,
    params: &[u32],
    element: u32,
    rows: &Data,
    n: usize,
    mark: usize,
    turns: u64,
    table: &mut [Slot],
    stack: &mut Vec<Data>,
) -> Result<(), Stop>
    requires { n ≡ length (rows_in (held rows.now)) }
    ensures { Over_runs turns (body_of body.now) params.now element (held rows.now) mark (held_all table.old) (held_all table.new) (held_all stack.old.items) (held_all stack.new.items) result }
{
    for i in 0..n {
        let next = row(rows, i)?;
        run_turn(
            alloc, body, params, element, next, mark, turns, table, stack,
        )?;
    }
    Ok(())
}

/// Takes a turn of a loop over indices or rows.
#[tactic(auto, using(crate::proofs::Loops::one_turn))]
#[cycle(blocks)]
fn run_turn(
    alloc: Global,
    body: &Block,
    params: &[u32],
    index: u32,
    value: Data,
    mark: usize,
    turns: u64,
    table: &mut [Slot],
    stack: &mut Vec<Data>,
) -> Result<(), Stop>
    ensures { Turn_runs turns (body_of body.now) params.now index (held value) mark (held_all table.old) (held_all table.new) (held_all stack.old.items) (held_all stack.new.items) result }
{
    take(params, mark, table, stack)?;
    name(index, value, table)?;
    run_block(alloc, body, turns, table, stack)
}

/// Whether a loop goes on, with the values on the stack from the mark on.
#[tactic(auto, using(crate::proofs::Loops::one_test))]
#[cycle(blocks)]
fn run_test(
    alloc: Global,
    test: &Block,
    params: &[u32],
    mark: usize,
    turns: u64,
    table: &mut [Slot],
    stack: &mut Vec<Data>,
) -> Result<bool, Stop>
    ensures { Test_runs turns (body_of test.now) params.now mark (held_all table.old) (held_all table.new) (held_all stack.old.items) (held_all stack.new.items) result }
{
    let top = stack.len();
    bind(params, mark, table, stack)?;
    run_block(alloc, test, turns, table, stack)?;
    pop_truth(top, stack)
}

/// Takes turns while the test holds, with the values on the stack from the mark on.
#[tactic(auto, using(crate::proofs::Loops::uncounted))]
#[cycle(blocks)]
fn run_while(
    alloc: Global,
    test: &Block,
    body: &Block,
    params: &[u32],
    place: Place,
    mark: usize,
    turns: u64,
    table: &mut [Slot],
    stack: &mut Vec<Data>,
) -> Result<(), Stop>
    ensures { While_runs turns (body_of test.now) (body_of body.now) params.now place mark (held_all table.old) (held_all table.new) (held_all stack.old.items) (held_all stack.new.items) result }
{
    for _ in 0..turns {
        if !run_test(alloc, test, params, mark, turns, table, stack)? {
            return Ok(());
        }
        stack.truncate(mark);
        run_block(alloc, body, turns, table, stack)?;
    }
    if run_test(alloc, test, params, mark, turns, table, stack)? {
        Err(Stop::Failed(Report {
            kind: FailKind::Turns,
            place,
        }))
    } else {
        Ok(())
    }
}
