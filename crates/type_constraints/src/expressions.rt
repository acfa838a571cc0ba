// Expressions.
ghost use Rattle.std.specs.Prelude.{◌≡◌, ◌≤◌, ◌<◌, ◌+◌, ◌++◌, map, OnOk, IfOk, IfErr};
ghost use Rattle.fut_flat.specs.Terms.{Apply, Counted, If, Lambda, Over, Strict, While};
ghost use Rattle.fut_flat.specs.Numbers.{all_numbers, numbers};
ghost use Rattle.fut_flat.specs.Erased.{lets as lets_term, operation_of, parameters, pattern_of, patterns, term_of, terms};
ghost use Rattle.fut_flat.proofs.ErasedForms.{loop_of, row_of, turns_of};
ghost use Rattle.fut_typing.specs.Rows.{behind, behind_all, env_rows};
ghost use Rattle.type_scopes.specs.Definitions.{Definition_claim, Definition_homes, env_definition, named};
ghost use Rattle.fut_types.specs.declared.shapes.ShapeTable.{ShapeTable};
ghost use Rattle.type_graph.specs.Graph.{Tells};
ghost use Rattle.type_rules.specs.Demands.{Are_demands};
ghost use Rattle.type_scopes.specs.Scopes.{Claimed, Opened, Refused, Safe};
ghost use Rattle.type_constraints.specs.Parts.{Constrained, Head_claim, Head_homes, Row_claim, Row_homes, Rows_claim, Rows_homes, Ruled, Terms_claim, Terms_homes, Unconstrained, Unruled, behind_head, env_head, env_row, starts, use_term, value_row};

use crate::operations::{constrain_rule, own_numbers_of};
use crate::patterns::{constrain_arrows, constrain_parameters, constrain_pattern, enter_bound};
use crate::setting::Setting;
use crate::uses::use_name;
use fut_flat::{Act, Exp, Form, Head, Let, Loop, LoopForm, Pat, PatForm, Ref};
use fut_scalar::{BindId, List, Place, ScalarType};
use type_graph::UnifyErr;
use type_rules::{Demand, application, carried, choice, counted, gone_over};
use type_scopes::{
    Inference, Known, demand, enter, enter_parameters, enter_pattern, enter_sizes, generalise,
    mark_of, take_back,
};

/// Asks for the rules of all numbers of an expression, which begin at `lo`. The answer is where they end.
#[cycle(constrain)]
pub fn constrain<'a>(
    setting: Setting,
    exp: &Exp<'a>,
    lo: u32,
    inference: &mut Inference<'a>,
) -> Result<u32, UnifyErr>
    requires safe { Safe setting.base inference.old }
    requires room { lo + numbers (term_of exp.now) ≤ setting.base }
    ensures next { IfOk result (λ next. next ≡ lo + numbers (term_of exp.now)) }
    ensures ok { OnOk result (Constrained setting.places setting.base setting.depth lo (term_of exp.now) inference.old inference.new) }
    ensures err { IfErr result (Tells (Unconstrained setting.places setting.base setting.depth lo (term_of exp.now) inference.old inference.new)) }
{
    match exp.form {
        Form::Use(reference, before) => constrain_use(
            setting, reference, exp.place, before, lo, inference,
        ),
        Form::Strict { act, mark, parts } => {
            constrain_strict(setting, &act, mark, parts, lo, inference)
        }
        Form::Lambda(params, body) => { constrain_lambda(setting, params, body, lo, inference) }
        Form::Apply(function, argument) => {
            constrain_apply(setting, function, argument, lo, inference)
        }
        Form::Lets(lets, body) => { constrain_lets(setting, lets, body, lo, inference) }
        Form::If(test, yes, no) => { constrain_if(setting, test, yes, no, lo, inference) }
        Form::Loop(whole) => constrain_loop(setting, whole, lo, inference),
    }
}

// A use of a name, behind names of modules.
fn constrain_use(
    setting: Setting,
    reference: Ref,
    place: Place,
    before: u32,
    lo: u32,
    inference: &mut Inference,
) -> Result<u32, UnifyErr>
    requires safe { Safe setting.base inference.old }
    requires room { lo + numbers (use_term reference place before) ≤ setting.base }
    ensures next { IfOk result (λ next. next ≡ lo + numbers (use_term reference place before)) }
    ensures ok { OnOk result (Constrained setting.places setting.base setting.depth lo (use_term reference place before) inference.old inference.new) }
    ensures err { IfErr result (Tells (Unconstrained setting.places setting.base setting.depth lo (use_term reference place before) inference.old inference.new)) }
{
    let _place = place;
    use_name(setting, reference, lo, inference).and(Ok(lo + (1 + (before + before))))
}

// Parts from left to right, and an operation on them.
#[cycle(constrain)]
fn constrain_strict<'a>(
    setting: Setting,
    act: &Act<'a>,
    mark: Place,
    parts: &[Exp<'a>],
    lo: u32,
    inference: &mut Inference<'a>,
) -> Result<u32, UnifyErr>
    requires safe { Safe setting.base inference.old }
    requires room { lo + numbers (Strict (operation_of act.now) mark (terms (map term_of parts.now))) ≤ setting.base }
    ensures next { IfOk result (λ next. next ≡ lo + numbers (Strict (operation_of act.now) mark (terms (map term_of parts.now)))) }
    ensures ok { OnOk result (Constrained setting.places setting.base setting.depth lo (Strict (operation_of act.now) mark (terms (map term_of parts.now))) inference.old inference.new) }
    ensures err { IfErr result (Tells (Unconstrained setting.places setting.base setting.depth lo (Strict (operation_of act.now) mark (terms (map term_of parts.now))) inference.old inference.new)) }
{
    let _mark = mark;
    let mut begins = List::new(setting.alloc);
    let from = lo + own_numbers_of(act);
    let next = match constrain_parts(setting, parts, from, &mut begins, inference) {
        Ok(next) => next,
        Err(error) => return Err(error),
    };
    constrain_rule(setting, act, lo, begins.as_slice(), inference).and(Ok(next))
}

// Expressions in a row. Where the numbers of each begin is noted.
#[cycle(constrain)]
fn constrain_parts<'a>(
    setting: Setting,
    parts: &[Exp<'a>],
    lo: u32,
    begins: &mut List<u32>,
    inference: &mut Inference<'a>,
) -> Result<u32, UnifyErr>
    requires safe { Safe setting.base inference.old }
    requires room { lo + all_numbers (terms (map term_of parts.now)) ≤ setting.base }
    ensures next { IfOk result (λ next. next ≡ lo + all_numbers (terms (map term_of parts.now))) }
    ensures begins { OnOk result (begins.new ≡ begins.old ++ starts (terms (map term_of parts.now)) lo) }
    ensures ok { OnOk result (Claimed setting.places setting.base setting.depth lo (Terms_claim setting.places (terms (map term_of parts.now)) lo) (Terms_homes setting.depth (terms (map term_of parts.now)) lo) inference.old inference.new) }
    ensures err { IfErr result (Tells (Refused setting.places setting.base setting.depth lo (Terms_claim setting.places (terms (map term_of parts.now)) lo) (Terms_homes setting.depth (terms (map term_of parts.now)) lo) inference.old inference.new)) }
{
    let mut at = lo;
    for part in parts {
        match begins.push(at) {
            Ok(()) => {}
            Err(_) => return Err(UnifyErr::Memory),
        }
        at = match constrain(setting, part, at, inference) {
            Ok(next) => next,
            Err(error) => return Err(error),
        };
    }
    Ok(at)
}

// An expression, and then a rule's demands.
#[cycle(constrain)]
fn constrain_ruled<'a>(
    setting: Setting,
    exp: &Exp<'a>,
    lo: u32,
    rule: &[Demand],
    inference: &mut Inference<'a>,
) -> Result<u32, UnifyErr>
    requires safe { Safe setting.base inference.old }
    requires room { lo + numbers (term_of exp.now) ≤ setting.base }
    requires within { (table : ShapeTable) → Are_demands table setting.base rule.now }
    ensures next { IfOk result (λ next. next ≡ lo + numbers (term_of exp.now)) }
    ensures ok { OnOk result (Ruled setting.places setting.base setting.depth lo (term_of exp.now) rule.now inference.old inference.new) }
    ensures err { IfErr result (Tells (Unruled setting.places setting.base setting.depth lo (term_of exp.now) rule.now inference.old inference.new)) }
{
    let next = match constrain(setting, exp, lo, inference) {
        Ok(next) => next,
        Err(error) => return Err(error),
    };
    demand(setting.alloc, setting.base, inference, rule).and(Ok(next))
}

// A function and its argument.
#[cycle(constrain)]
fn constrain_apply<'a>(
    setting: Setting,
    function: &Exp<'a>,
    argument: &Exp<'a>,
    lo: u32,
    inference: &mut Inference<'a>,
) -> Result<u32, UnifyErr>
    requires safe { Safe setting.base inference.old }
    requires room { lo + numbers (Apply (term_of function.now) (term_of argument.now)) ≤ setting.base }
    ensures next { IfOk result (λ next. next ≡ lo + numbers (Apply (term_of function.now) (term_of argument.now))) }
    ensures ok { OnOk result (Constrained setting.places setting.base setting.depth lo (Apply (term_of function.now) (term_of argument.now)) inference.old inference.new) }
    ensures err { IfErr result (Tells (Unconstrained setting.places setting.base setting.depth lo (Apply (term_of function.now) (term_of argument.now)) inference.old inference.new)) }
{
    let middle = match constrain(setting, function, 1 + lo, inference) {
        Ok(next) => next,
        Err(error) => return Err(error),
    };
    let rule = application(lo, 1 + lo, middle);
    constrain_ruled(setting, argument, middle, &rule, inference)
}

// A condition and two branches.
#[cycle(constrain)]
fn constrain_if<'a>(
    setting: Setting,
    test: &Exp<'a>,
    yes: &Exp<'a>,
    no: &Exp<'a>,
    lo: u32,
    inference: &mut Inference<'a>,
) -> Result<u32, UnifyErr>
    requires safe { Safe setting.base inference.old }
    requires room { lo + numbers (If (term_of test.now) (term_of yes.now) (term_of no.now)) ≤ setting.base }
    ensures next { IfOk result (λ next. next ≡ lo + numbers (If (term_of test.now) (term_of yes.now) (term_of no.now))) }
    ensures ok { OnOk result (Constrained setting.places setting.base setting.depth lo (If (term_of test.now) (term_of yes.now) (term_of no.now)) inference.old inference.new) }
    ensures err { IfErr result (Tells (Unconstrained setting.places setting.base setting.depth lo (If (term_of test.now) (term_of yes.now) (term_of no.now)) inference.old inference.new)) }
{
    let second = match constrain(setting, test, 1 + lo, inference) {
        Ok(next) => next,
        Err(error) => return Err(error),
    };
    let third = match constrain(setting, yes, second, inference) {
        Ok(next) => next,
        Err(error) => return Err(error),
    };
    let rule = choice(lo, 1 + lo, second, third, setting.places);
    constrain_ruled(setting, no, third, &rule, inference)
}

// A function of parameters. Its body sees their names.
#[cycle(constrain)]
fn constrain_lambda<'a>(
    setting: Setting,
    params: &[Pat<'a>],
    body: &Exp<'a>,
    lo: u32,
    inference: &mut Inference<'a>,
) -> Result<u32, UnifyErr>
    requires safe { Safe setting.base inference.old }
    requires room { lo + numbers (Lambda (patterns (map pattern_of params.now)) (term_of body.now)) ≤ setting.base }
    ensures next { IfOk result (λ next. next ≡ lo + numbers (Lambda (patterns (map pattern_of params.now)) (term_of body.now))) }
    ensures ok { OnOk result (Constrained setting.places setting.base setting.depth lo (Lambda (patterns (map pattern_of params.now)) (term_of body.now)) inference.old inference.new) }
    ensures err { IfErr result (Tells (Unconstrained setting.places setting.base setting.depth lo (Lambda (patterns (map pattern_of params.now)) (term_of body.now)) inference.old inference.new)) }
{
    let mark = mark_of(inference);
    let mut begins = List::new(setting.alloc);
    let from = match constrain_parameters(setting, params, 1 + lo, &mut begins, inference) {
        Ok(next) => next,
        Err(error) => return Err(error),
    };
    let next = match constrain(setting, body, from, inference) {
        Ok(next) => next,
        Err(error) => return Err(error),
    };
    take_back(inference, mark);
    constrain_arrows(
        setting.alloc,
        setting.base,
        lo,
        begins.as_slice(),
        from,
        inference,
    )
    .and(Ok(next))
}

// A row of lets, and the body behind it. Elaboration makes no row without a let.
#[cycle(constrain)]
fn constrain_lets<'a>(
    setting: Setting,
    lets: &[Let<'a>],
    body: &Exp<'a>,
    lo: u32,
    inference: &mut Inference<'a>,
) -> Result<u32, UnifyErr>
    requires safe { Safe setting.base inference.old }
    requires room { lo + numbers (lets_term (map row_of lets.now) (term_of body.now)) ≤ setting.base }
    ensures next { IfOk result (λ next. next ≡ lo + numbers (lets_term (map row_of lets.now) (term_of body.now))) }
    ensures ok { OnOk result (Constrained setting.places setting.base setting.depth lo (lets_term (map row_of lets.now) (term_of body.now)) inference.old inference.new) }
    ensures err { IfErr result (Tells (Unconstrained setting.places setting.base setting.depth lo (lets_term (map row_of lets.now) (term_of body.now)) inference.old inference.new)) }
{
    if lets.len() == 0 {
        return Err(UnifyErr::Memory);
    }
    let mark = mark_of(inference);
    let from = match constrain_rows(setting, lets, lo, inference) {
        Ok(next) => next,
        Err(error) => return Err(error),
    };
    let rule = [Demand::Same(lo, from)];
    let next = match constrain_ruled(setting, body, from, &rule, inference) {
        Ok(next) => next,
        Err(error) => return Err(error),
    };
    take_back(inference, mark);
    Ok(next)
}

// Lets in a row, each of which sees the names of those before it. The whole of each has the type of the whole of the first.
#[cycle(constrain)]
fn constrain_rows<'a>(
    setting: Setting,
    lets: &[Let<'a>],
    lo: u32,
    inference: &mut Inference<'a>,
) -> Result<u32, UnifyErr>
    requires safe { Safe setting.base inference.old }
    requires room { behind_all (map row_of lets.now) lo ≤ setting.base }
    ensures next { IfOk result (λ next. next ≡ behind_all (map row_of lets.now) lo) }
    ensures ok { OnOk result (Opened setting.places setting.base setting.depth lo (behind_all (map row_of lets.now) lo) (Rows_claim setting.places lo (map row_of lets.now) lo) (Rows_homes setting.depth (map row_of lets.now) lo) (env_rows (map row_of lets.now) lo) inference.old inference.new) }
    ensures err { IfErr result (Tells (Refused setting.places setting.base setting.depth lo (Rows_claim setting.places lo (map row_of lets.now) lo) (Rows_homes setting.depth (map row_of lets.now) lo) inference.old inference.new)) }
{
    let mut at = lo;
    for one in lets {
        let next = match constrain_row(setting, one, at, inference) {
            Ok(next) => next,
            Err(error) => return Err(error),
        };
        match demand(
            setting.alloc,
            setting.base,
            inference,
            &[Demand::Same(lo, at)],
        ) {
            Ok(()) => {}
            Err(error) => return Err(error),
        }
        at = next;
    }
    Ok(at)
}

// A let.
#[cycle(constrain)]
fn constrain_row<'a>(
    setting: Setting,
    one: &Let<'a>,
    lo: u32,
    inference: &mut Inference<'a>,
) -> Result<u32, UnifyErr>
    requires safe { Safe setting.base inference.old }
    requires room { behind (row_of one.now) lo ≤ setting.base }
    ensures next { IfOk result (λ next. next ≡ behind (row_of one.now) lo) }
    ensures ok { OnOk result (Opened setting.places setting.base setting.depth lo (behind (row_of one.now) lo) (Row_claim setting.places (row_of one.now) lo) (Row_homes setting.depth (row_of one.now) lo) (env_row (row_of one.now) lo) inference.old inference.new) }
    ensures err { IfErr result (Tells (Refused setting.places setting.base setting.depth lo (Row_claim setting.places (row_of one.now) lo) (Row_homes setting.depth (row_of one.now) lo) inference.old inference.new)) }
{
    if !one.is_function {
        // Only a function has parameters.
        if one.heads.len() > 0 {
            return Err(UnifyErr::Memory);
        }
        return constrain_value(setting, one.sizes, &one.pat, &one.value, lo, inference);
    }
    // A function is a definition of a name, and has no size names.
    if one.sizes.len() > 0 {
        return Err(UnifyErr::Clash(lo, lo));
    }
    match one.pat.form {
        PatForm::Bound(bind) => constrain_definition(
            setting,
            bind,
            one.heads,
            &one.value,
            1 + lo,
            inference,
        ),
        PatForm::Wild => Err(UnifyErr::Clash(lo, lo)),
        PatForm::Tuple(_) => Err(UnifyErr::Clash(lo, lo)),
        PatForm::Record(_) => Err(UnifyErr::Clash(lo, lo)),
        PatForm::Typed(_, _) => Err(UnifyErr::Clash(lo, lo)),
    }
}

/// A definition of a name: its parameters, its value, and its uses behind it. Its numbers begin at `lo`, with that of the name;
/// the depth is that around it. The answer is where its numbers end.
#[cycle(constrain)]
pub fn constrain_definition<'a>(
    setting: Setting,
    name: BindId,
    heads: &[Head],
    value: &Exp<'a>,
    lo: u32,
    inference: &mut Inference<'a>,
) -> Result<u32, UnifyErr>
    requires safe { Safe setting.base inference.old }
    requires room { lo + (1 + numbers (term_of value.now)) ≤ setting.base }
    ensures next { IfOk result (λ next. next ≡ lo + (1 + numbers (term_of value.now))) }
    ensures ok { OnOk result (Opened setting.places setting.base setting.depth lo (lo + (1 + numbers (term_of value.now))) (Definition_claim setting.places (named name (parameters heads.now) (term_of value.now)) lo) (Definition_homes setting.depth (named name (parameters heads.now) (term_of value.now)) lo) (env_definition (named name (parameters heads.now) (term_of value.now)) lo) inference.old inference.new) }
    ensures err { IfErr result (Tells (Refused setting.places setting.base setting.depth lo (Definition_claim setting.places (named name (parameters heads.now) (term_of value.now)) lo) (Definition_homes setting.depth (named name (parameters heads.now) (term_of value.now)) lo) inference.old inference.new)) }
{
    let depth = setting.depth;
    if depth >= 4294967294 {
        return Err(UnifyErr::Memory);
    }
    let inside = Setting {
        depth: 1 + depth,
        ..setting
    };
    let mark = mark_of(inference);
    let mut own = List::new(setting.alloc);
    match enter_parameters(
        setting.base,
        heads,
        setting.places,
        1 + depth,
        &mut own,
        inference,
    ) {
        Ok(()) => {}
        Err(_) => return Err(UnifyErr::Memory),
    }
    let rule = [Demand::Same(lo, 1 + lo)];
    let next = match constrain_ruled(inside, value, 1 + lo, &rule, inference) {
        Ok(next) => next,
        Err(error) => return Err(error),
    };
    take_back(inference, mark);
    generalise(own.as_slice(), lo, depth, name.0, inference).and(Ok(next))
}

// A let that is not written as a function.
#[cycle(constrain)]
fn constrain_value<'a>(
    setting: Setting,
    sizes: &[BindId],
    pat: &Pat<'a>,
    value: &Exp<'a>,
    lo: u32,
    inference: &mut Inference<'a>,
) -> Result<u32, UnifyErr>
    requires safe { Safe setting.base inference.old }
    requires room { behind (value_row sizes.now (pattern_of pat.now) (term_of value.now)) lo ≤ setting.base }
    ensures next { IfOk result (λ next. next ≡ behind (value_row sizes.now (pattern_of pat.now) (term_of value.now)) lo) }
    ensures ok { OnOk result (Opened setting.places setting.base setting.depth lo (behind (value_row sizes.now (pattern_of pat.now) (term_of value.now)) lo) (Row_claim setting.places (value_row sizes.now (pattern_of pat.now) (term_of value.now)) lo) (Row_homes setting.depth (value_row sizes.now (pattern_of pat.now) (term_of value.now)) lo) (env_row (value_row sizes.now (pattern_of pat.now) (term_of value.now)) lo) inference.old inference.new) }
    ensures err { IfErr result (Tells (Refused setting.places setting.base setting.depth lo (Row_claim setting.places (value_row sizes.now (pattern_of pat.now) (term_of value.now)) lo) (Row_homes setting.depth (value_row sizes.now (pattern_of pat.now) (term_of value.now)) lo) inference.old inference.new)) }
{
    let next = match constrain_bound(setting, sizes, pat, value, lo, inference) {
        Ok(next) => next,
        Err(error) => return Err(error),
    };
    enter_bound(setting.base, sizes, pat, 1 + lo, inference).and(Ok(next))
}

// A pattern and the value that it is bound to. The pattern sees its size names, the value does not.
#[cycle(constrain)]
fn constrain_bound<'a>(
    setting: Setting,
    sizes: &[BindId],
    pat: &Pat<'a>,
    value: &Exp<'a>,
    lo: u32,
    inference: &mut Inference<'a>,
) -> Result<u32, UnifyErr>
    requires safe { Safe setting.base inference.old }
    requires room { behind (value_row sizes.now (pattern_of pat.now) (term_of value.now)) lo ≤ setting.base }
    ensures next { IfOk result (λ next. next ≡ behind (value_row sizes.now (pattern_of pat.now) (term_of value.now)) lo) }
    ensures ok { OnOk result (Claimed setting.places setting.base setting.depth lo (Row_claim setting.places (value_row sizes.now (pattern_of pat.now) (term_of value.now)) lo) (Row_homes setting.depth (value_row sizes.now (pattern_of pat.now) (term_of value.now)) lo) inference.old inference.new) }
    ensures err { IfErr result (Tells (Refused setting.places setting.base setting.depth lo (Row_claim setting.places (value_row sizes.now (pattern_of pat.now) (term_of value.now)) lo) (Row_homes setting.depth (value_row sizes.now (pattern_of pat.now) (term_of value.now)) lo) inference.old inference.new)) }
{
    let mark = mark_of(inference);
    match enter_sizes(setting.base, sizes, inference) {
        Ok(()) => {}
        Err(_) => return Err(UnifyErr::Memory),
    }
    let from = match constrain_pattern(setting, pat, 1 + lo, inference) {
        Ok(next) => next,
        Err(error) => return Err(error),
    };
    take_back(inference, mark);
    let rule = [Demand::Same(1 + lo, from)];
    constrain_ruled(setting, value, from, &rule, inference)
}

// A loop: what it carries and its turns, and its body.
#[cycle(constrain)]
fn constrain_loop<'a>(
    setting: Setting,
    whole: &Loop<'a>,
    lo: u32,
    inference: &mut Inference<'a>,
) -> Result<u32, UnifyErr>
    requires safe { Safe setting.base inference.old }
    requires room { lo + numbers (loop_of whole.now) ≤ setting.base }
    ensures next { IfOk result (λ next. next ≡ lo + numbers (loop_of whole.now)) }
    ensures ok { OnOk result (Constrained setting.places setting.base setting.depth lo (loop_of whole.now) inference.old inference.new) }
    ensures err { IfErr result (Tells (Unconstrained setting.places setting.base setting.depth lo (loop_of whole.now) inference.old inference.new)) }
{
    let mark = mark_of(inference);
    let from = match constrain_head(setting, whole, lo, inference) {
        Ok(next) => next,
        Err(error) => return Err(error),
    };
    let rule = carried(lo, 1 + lo, from, setting.places);
    let next = match constrain_ruled(setting, &whole.body, from, &rule, inference) {
        Ok(next) => next,
        Err(error) => return Err(error),
    };
    take_back(inference, mark);
    Ok(next)
}

// What a loop carries, and its turns.
#[cycle(constrain)]
fn constrain_head<'a>(
    setting: Setting,
    whole: &Loop<'a>,
    lo: u32,
    inference: &mut Inference<'a>,
) -> Result<u32, UnifyErr>
    requires safe { Safe setting.base inference.old }
    requires room { behind_head (pattern_of whole.now.pat) (term_of whole.now.first) (turns_of whole.now.form) lo ≤ setting.base }
    ensures next { IfOk result (λ next. next ≡ behind_head (pattern_of whole.now.pat) (term_of whole.now.first) (turns_of whole.now.form) lo) }
    ensures ok { OnOk result (Opened setting.places setting.base setting.depth lo (behind_head (pattern_of whole.now.pat) (term_of whole.now.first) (turns_of whole.now.form) lo) (Head_claim setting.places whole.now.sizes.now (pattern_of whole.now.pat) (term_of whole.now.first) (turns_of whole.now.form) lo) (Head_homes setting.depth whole.now.sizes.now (pattern_of whole.now.pat) (term_of whole.now.first) (turns_of whole.now.form) lo) (env_head whole.now.sizes.now (pattern_of whole.now.pat) (term_of whole.now.first) (turns_of whole.now.form) lo) inference.old inference.new) }
    ensures err { IfErr result (Tells (Refused setting.places setting.base setting.depth lo (Head_claim setting.places whole.now.sizes.now (pattern_of whole.now.pat) (term_of whole.now.first) (turns_of whole.now.form) lo) (Head_homes setting.depth whole.now.sizes.now (pattern_of whole.now.pat) (term_of whole.now.first) (turns_of whole.now.form) lo) inference.old inference.new)) }
{
    match whole.form {
        LoopForm::While(ref test) => constrain_while(setting, whole, test, lo, inference),
        LoopForm::For(name, ref bound) => {
            constrain_counted(setting, whole, name, bound, lo, inference)
        }
        LoopForm::ForIn(ref part, ref array) => {
            constrain_over(setting, whole, part, array, lo, inference)
        }
    }
}

// A loop with a condition, which sees the names that the loop carries.
#[cycle(constrain)]
fn constrain_while<'a>(
    setting: Setting,
    whole: &Loop<'a>,
    test: &Exp<'a>,
    lo: u32,
    inference: &mut Inference<'a>,
) -> Result<u32, UnifyErr>
    requires safe { Safe setting.base inference.old }
    requires room { behind_head (pattern_of whole.now.pat) (term_of whole.now.first) (While (term_of test.now)) lo ≤ setting.base }
    ensures next { IfOk result (λ next. next ≡ behind_head (pattern_of whole.now.pat) (term_of whole.now.first) (While (term_of test.now)) lo) }
    ensures ok { OnOk result (Opened setting.places setting.base setting.depth lo (behind_head (pattern_of whole.now.pat) (term_of whole.now.first) (While (term_of test.now)) lo) (Head_claim setting.places whole.now.sizes.now (pattern_of whole.now.pat) (term_of whole.now.first) (While (term_of test.now)) lo) (Head_homes setting.depth whole.now.sizes.now (pattern_of whole.now.pat) (term_of whole.now.first) (While (term_of test.now)) lo) (env_head whole.now.sizes.now (pattern_of whole.now.pat) (term_of whole.now.first) (While (term_of test.now)) lo) inference.old inference.new) }
    ensures err { IfErr result (Tells (Refused setting.places setting.base setting.depth lo (Head_claim setting.places whole.now.sizes.now (pattern_of whole.now.pat) (term_of whole.now.first) (While (term_of test.now)) lo) (Head_homes setting.depth whole.now.sizes.now (pattern_of whole.now.pat) (term_of whole.now.first) (While (term_of test.now)) lo) inference.old inference.new)) }
{
    let from = match constrain_value(
        setting,
        whole.sizes,
        &whole.pat,
        &whole.first,
        lo,
        inference,
    ) {
        Ok(next) => next,
        Err(error) => return Err(error),
    };
    let rule = [Demand::Is(from, ScalarType::Bool)];
    constrain_ruled(setting, test, from, &rule, inference)
}

// A loop that counts its turns. Their number does not see the names that the loop carries.
#[cycle(constrain)]
fn constrain_counted<'a>(
    setting: Setting,
    whole: &Loop<'a>,
    name: BindId,
    bound: &Exp<'a>,
    lo: u32,
    inference: &mut Inference<'a>,
) -> Result<u32, UnifyErr>
    requires safe { Safe setting.base inference.old }
    requires room { behind_head (pattern_of whole.now.pat) (term_of whole.now.first) (Counted name (term_of bound.now)) lo ≤ setting.base }
    ensures next { IfOk result (λ next. next ≡ behind_head (pattern_of whole.now.pat) (term_of whole.now.first) (Counted name (term_of bound.now)) lo) }
    ensures ok { OnOk result (Opened setting.places setting.base setting.depth lo (behind_head (pattern_of whole.now.pat) (term_of whole.now.first) (Counted name (term_of bound.now)) lo) (Head_claim setting.places whole.now.sizes.now (pattern_of whole.now.pat) (term_of whole.now.first) (Counted name (term_of bound.now)) lo) (Head_homes setting.depth whole.now.sizes.now (pattern_of whole.now.pat) (term_of whole.now.first) (Counted name (term_of bound.now)) lo) (env_head whole.now.sizes.now (pattern_of whole.now.pat) (term_of whole.now.first) (Counted name (term_of bound.now)) lo) inference.old inference.new) }
    ensures err { IfErr result (Tells (Refused setting.places setting.base setting.depth lo (Head_claim setting.places whole.now.sizes.now (pattern_of whole.now.pat) (term_of whole.now.first) (Counted name (term_of bound.now)) lo) (Head_homes setting.depth whole.now.sizes.now (pattern_of whole.now.pat) (term_of whole.now.first) (Counted name (term_of bound.now)) lo) inference.old inference.new)) }
{
    let from = match constrain_bound(
        setting,
        whole.sizes,
        &whole.pat,
        &whole.first,
        lo,
        inference,
    ) {
        Ok(next) => next,
        Err(error) => return Err(error),
    };
    let rule = counted(from, 1 + from);
    let next = match constrain_ruled(setting, bound, 1 + from, &rule, inference) {
        Ok(next) => next,
        Err(error) => return Err(error),
    };
    match enter_bound(setting.base, whole.sizes, &whole.pat, 1 + lo, inference) {
        Ok(()) => {}
        Err(_) => return Err(UnifyErr::Memory),
    }
    enter(inference, name.0, Known::Number(from)).and(Ok(next))
}

// A loop over an array. Its pattern sees the names that the loop carries, the array does not.
#[cycle(constrain)]
fn constrain_over<'a>(
    setting: Setting,
    whole: &Loop<'a>,
    part: &Pat<'a>,
    array: &Exp<'a>,
    lo: u32,
    inference: &mut Inference<'a>,
) -> Result<u32, UnifyErr>
    requires safe { Safe setting.base inference.old }
    requires room { behind_head (pattern_of whole.now.pat) (term_of whole.now.first) (Over (pattern_of part.now) (term_of array.now)) lo ≤ setting.base }
    ensures next { IfOk result (λ next. next ≡ behind_head (pattern_of whole.now.pat) (term_of whole.now.first) (Over (pattern_of part.now) (term_of array.now)) lo) }
    ensures ok { OnOk result (Opened setting.places setting.base setting.depth lo (behind_head (pattern_of whole.now.pat) (term_of whole.now.first) (Over (pattern_of part.now) (term_of array.now)) lo) (Head_claim setting.places whole.now.sizes.now (pattern_of whole.now.pat) (term_of whole.now.first) (Over (pattern_of part.now) (term_of array.now)) lo) (Head_homes setting.depth whole.now.sizes.now (pattern_of whole.now.pat) (term_of whole.now.first) (Over (pattern_of part.now) (term_of array.now)) lo) (env_head whole.now.sizes.now (pattern_of whole.now.pat) (term_of whole.now.first) (Over (pattern_of part.now) (term_of array.now)) lo) inference.old inference.new) }
    ensures err { IfErr result (Tells (Refused setting.places setting.base setting.depth lo (Head_claim setting.places whole.now.sizes.now (pattern_of whole.now.pat) (term_of whole.now.first) (Over (pattern_of part.now) (term_of array.now)) lo) (Head_homes setting.depth whole.now.sizes.now (pattern_of whole.now.pat) (term_of whole.now.first) (Over (pattern_of part.now) (term_of array.now)) lo) inference.old inference.new)) }
{
    let mark = mark_of(inference);
    let from = match constrain_value(
        setting,
        whole.sizes,
        &whole.pat,
        &whole.first,
        lo,
        inference,
    ) {
        Ok(next) => next,
        Err(error) => return Err(error),
    };
    let middle = match constrain_pattern(setting, part, from, inference) {
        Ok(next) => next,
        Err(error) => return Err(error),
    };
    take_back(inference, mark);
    let rule = gone_over(from, middle, setting.places);
    let next = match constrain_ruled(setting, array, middle, &rule, inference) {
        Ok(next) => next,
        Err(error) => return Err(error),
    };
    match enter_bound(setting.base, whole.sizes, &whole.pat, 1 + lo, inference) {
        Ok(()) => {}
        Err(_) => return Err(UnifyErr::Memory),
    }
    enter_pattern(setting.base, part, from, inference).and(Ok(next))
}
