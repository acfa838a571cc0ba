// The numbers of expressions.
ghost use Rattle.std.specs.Prelude.{◌≡◌, ◌+◌, IfOk, [], ◌∷◌, map};
ghost use Rattle.fut_flat.specs.Erased.{FlatTerm, lets, operation_of, term_of, terms};
ghost use Rattle.fut_flat.specs.Numbers.{all_numbers, numbers, own_numbers, turn_numbers};
ghost use Rattle.fut_flat.proofs.ErasedForms.{loop_of, row_of, turns_of};

use crate::patterns::{after, after_pattern, after_patterns};
use fut_flat::{Act, Exp, Form, Let, Loop, LoopForm};
use fut_scalar::NoMemory;

/// How many numbers an operation has beside those of its parts.
pub fn own_numbers_of(act: &Act<'_>) -> u32
    ensures { result ≡ own_numbers (operation_of act.now) }
{
    match *act {
        Act::Binary(_) => 2,
        Act::Project(_) => 2,
        Act::Int { .. } => 1,
        Act::Truth(_) => 1,
        Act::Tuple => 1,
        Act::Record(_) => 1,
        Act::Array => 1,
        Act::Negate => 1,
        Act::Complement => 1,
        Act::Index(_) => 1,
        Act::Update => 1,
        Act::Replace(_) => 1,
        Act::Ascribe(_) => 1,
        Act::Coerce(_) => 1,
        Act::Declared(_) => 1,
        Act::Assert => 1,
        Act::Range { .. } => 1,
    }
}

/// The number behind an expression.
#[cycle(exp)]
pub fn after_exp(at: u32, exp: &Exp<'_>) -> Result<u32, NoMemory>
    ensures { IfOk result (λ next. next ≡ at + numbers (term_of exp.now)) }
{
    match exp.form {
        Form::Use(_, modules) => {
            let once = after(at, 1)?;
            let twice = after(once, modules)?;
            after(twice, modules)
        }
        Form::Strict { act, parts, .. } => {
            let first = after(at, own_numbers_of(&act))?;
            after_parts(first, parts)
        }
        Form::Lambda(params, body) => {
            let first = after(at, 1)?;
            let inside = after_patterns(first, params)?;
            after_exp(inside, body)
        }
        Form::Apply(function, argument) => {
            let first = after(at, 1)?;
            let second = after_exp(first, function)?;
            after_exp(second, argument)
        }
        Form::Lets(row, body) => {
            let last = after_lets(at, row)?;
            after_exp(last, body)
        }
        Form::If(test, yes, no) => {
            let first = after(at, 1)?;
            let second = after_exp(first, test)?;
            let third = after_exp(second, yes)?;
            after_exp(third, no)
        }
        Form::Loop(whole) => after_loop(at, whole),
    }
}

#[cycle(exp)]
fn after_parts(at: u32, exps: &[Exp<'_>]) -> Result<u32, NoMemory>
    ensures { IfOk result (λ next. next ≡ at + all_numbers (terms (map term_of exps.now))) }
{
    let mut next = at;
    for exp in exps {
        next = after_exp(next, exp)?;
    }
    Ok(next)
}

// The number of what stands behind a row of `let`s.
#[cycle(exp)]
fn after_lets(at: u32, row: &[Let<'_>]) -> Result<u32, NoMemory>
    ensures { IfOk result (λ next. (body : FlatTerm) → next + numbers body ≡ at + numbers (lets (map row_of row.now) body)) }
{
    let mut next = at;
    for one in row {
        next = after_let(next, one)?;
    }
    Ok(next)
}

#[cycle(exp)]
fn after_let(at: u32, one: &Let<'_>) -> Result<u32, NoMemory>
    ensures { IfOk result (λ next. (body : FlatTerm) → next + numbers body ≡ at + numbers (lets (row_of one.now ∷ []) body)) }
{
    let first = after(at, 1)?;
    let value = after_pattern(first, &one.pat)?;
    after_exp(value, &one.value)
}

#[cycle(exp)]
fn after_loop(at: u32, whole: &Loop<'_>) -> Result<u32, NoMemory>
    ensures { IfOk result (λ next. next ≡ at + numbers (loop_of whole.now)) }
{
    let name = after(at, 1)?;
    let first = after_pattern(name, &whole.pat)?;
    let turns = after_exp(first, &whole.first)?;
    let body = after_turns(turns, &whole.form)?;
    after_exp(body, &whole.body)
}

#[cycle(exp)]
pub fn after_turns(at: u32, form: &LoopForm<'_>) -> Result<u32, NoMemory>
    ensures { IfOk result (λ next. next ≡ at + turn_numbers (turns_of form.now)) }
{
    match form {
        LoopForm::For(_, count) => {
            let first = after(at, 1)?;
            after_exp(first, count)
        }
        LoopForm::ForIn(pat, rows) => {
            let first = after_pattern(at, pat)?;
            after_exp(first, rows)
        }
        LoopForm::While(test) => after_exp(at, test),
    }
}
