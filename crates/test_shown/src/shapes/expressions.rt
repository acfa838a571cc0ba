// Expressions as text: a form is its word or sign and its parts, in parentheses; `(f x)` is an application.
use crate::line::{Before, Shown};
use crate::shapes::names::{show_name, show_path};
use crate::shapes::patterns::{show_heads, show_pat, show_pats, show_sizes};
use crate::shapes::types::{show_maybe_type, show_type};
use crate::texts::{end_text, oper_text};
use fut_tree::{Bind, Exp, ExpField, Form, Held, Ix, LoopForm};

/// The word that an expression begins with.
fn word_of(form: &Form<'_>) -> &'static str {
    match form {
        Form::Path(_) | Form::Int { .. } => "",
        Form::Bool(true) => "true",
        Form::Bool(false) => "false",
        Form::Unit => "()",
        Form::Tuple(_) => "(tuple",
        Form::Record(_) => "(record",
        Form::Array(_) => "(array",
        Form::Apply(_, _) | Form::Binary(_, _, _) | Form::Unary(_, _) | Form::Range { .. } => "(",
        Form::Lambda(_, _, _) => "(fn",
        Form::Lets(_, _) => "(let ",
        Form::If(_, _, _) => "(if",
        Form::Loop(_, _, _, _, _) => "(loop ",
        Form::Index(_, _) => "(index",
        Form::Field(_, _) => "(field",
        Form::Update(_, _, _) => "(update",
        Form::Replace(_, _, _) => "(replace",
        Form::Ascribe(_, _) => "(:",
        Form::Coerce(_, _) => "(:>",
        Form::Assert(_, _) => "(assert",
    }
}

/// The sign behind it, of an operator or a range.
fn sign_of(form: &Form<'_>) -> &'static str {
    match form {
        Form::Binary(oper, _, _) | Form::Unary(oper, _) => oper_text(*oper),
        Form::Range { end, .. } => end_text(*end),
        _ => "",
    }
}

/// An expression behind a text.
#[cycle(expressions)]
pub fn show_exp<'a>(exp: &'a Exp<'a>, before: Before, shown: &mut Shown) {
    let word = word_of(&exp.form);
    shown.open(before, word);
    shown.push(sign_of(&exp.form));
    match exp.form {
        Form::Path(names) => show_path(names, shown),
        Form::Int { value, ty } => shown.integer(value, ty),
        Form::Bool(_) | Form::Unit => {}
        Form::Tuple(parts) => show_exps(parts, shown),
        Form::Record(fields) => show_fields(fields, shown),
        Form::Array(parts) => show_exps(parts, shown),
        _ => show_operation(exp, shown),
    }
    shown.end(word);
    shown.stands(exp.place, exp.mark);
}

/// The parts of an application, an operator, an assertion, a condition, and of what stands before a type.
#[cycle(expressions)]
fn show_operation<'a>(exp: &'a Exp<'a>, shown: &mut Shown) {
    match exp.form {
        Form::Apply(left, right) => {
            show_exp(left, Before::Nothing, shown);
            show_exp(right, Before::Blank, shown);
        }
        Form::Binary(_, left, right) | Form::Assert(left, right) => {
            show_exp(left, Before::Blank, shown);
            show_exp(right, Before::Blank, shown);
        }
        Form::Unary(_, inner) => show_exp(inner, Before::Blank, shown),
        Form::If(test, yes, no) => {
            show_exp(test, Before::Blank, shown);
            show_exp(yes, Before::Blank, shown);
            show_exp(no, Before::Blank, shown);
        }
        Form::Ascribe(inner, ty) | Form::Coerce(inner, ty) => {
            show_exp(inner, Before::Blank, shown);
            show_type(ty, Before::Blank, shown);
        }
        _ => show_access(exp, shown),
    }
}

/// The parts of an index, of a field, and of an array or a record with another part.
#[cycle(expressions)]
fn show_access<'a>(exp: &'a Exp<'a>, shown: &mut Shown) {
    match exp.form {
        Form::Index(array, parts) => {
            show_exp(array, Before::Blank, shown);
            show_index(parts, shown);
        }
        Form::Update(array, indices, value) => {
            show_exp(array, Before::Blank, shown);
            shown.push(" (at");
            show_exps(indices, shown);
            show_exp(value, Before::End, shown);
        }
        Form::Field(inner, name) => {
            show_exp(inner, Before::Blank, shown);
            shown.blank();
            show_name(name, shown);
        }
        Form::Replace(inner, name, value) => {
            show_exp(inner, Before::Blank, shown);
            shown.blank();
            show_name(name, shown);
            show_exp(value, Before::Blank, shown);
        }
        _ => show_longer(exp, shown),
    }
}

/// The parts of a function, a row of `let`s, a loop and a range.
#[cycle(expressions)]
fn show_longer<'a>(exp: &'a Exp<'a>, shown: &mut Shown) {
    match exp.form {
        Form::Lambda(pats, ty, body) => {
            show_pats(pats, shown);
            show_maybe_type(ty, Before::Colon, shown);
            show_exp(body, Before::Arrow, shown);
        }
        Form::Lets(binds, body) => {
            show_binds(binds, shown);
            show_exp(body, Before::Nothing, shown);
        }
        Form::Loop(sizes, pat, first, over, body) => {
            show_sizes(sizes, shown);
            show_pat(pat, Before::Nothing, shown);
            show_exp(first, Before::Equals, shown);
            show_loop(over, shown);
            show_exp(body, Before::End, shown);
        }
        Form::Range { from, next, to, .. } => {
            show_exp(from, Before::Blank, shown);
            if let Some(next) = next {
                show_exp(next, Before::Blank, shown);
            }
            show_exp(to, Before::Blank, shown);
        }
        _ => {}
    }
}

/// Expressions, each behind a blank.
#[cycle(expressions)]
fn show_exps<'a>(exps: &'a [Held<'a, Exp<'a>>], shown: &mut Shown) {
    for exp in exps {
        show_exp(exp.at, Before::Blank, shown);
    }
}

/// Fields, each behind a blank.
#[cycle(expressions)]
fn show_fields<'a>(fields: &'a [ExpField<'a>], shown: &mut Shown) {
    for field in fields {
        shown.field(field.name);
        show_exp(field.exp, Before::Blank, shown);
        shown.close();
    }
}

/// Bindings, each with a blank behind it.
#[cycle(expressions)]
fn show_binds<'a>(binds: &'a [Bind<'a>], shown: &mut Shown) {
    for bind in binds {
        show_left(bind, shown);
        show_exp(bind.value, Before::Equals, shown);
        shown.before(Before::End);
    }
}

/// What stands left of a binding's value.
fn show_left(bind: &Bind<'_>, shown: &mut Shown) {
    shown.push(if bind.is_function { "(function " } else { "(" });
    show_sizes(bind.sizes, shown);
    show_pat(bind.pat, Before::Nothing, shown);
    show_heads(bind.heads, shown);
}

/// What a loop goes over, up to its closing parenthesis.
#[cycle(expressions)]
fn show_loop<'a>(over: &'a LoopForm<'a>, shown: &mut Shown) {
    match over {
        LoopForm::For(name, count) => {
            shown.named(" (for ", *name);
            show_exp(*count, Before::Less, shown);
        }
        LoopForm::ForIn(pat, items) => {
            show_pat(*pat, Before::For, shown);
            show_exp(*items, Before::In, shown);
        }
        LoopForm::While(test) => show_exp(*test, Before::While, shown),
    }
}

/// Parts of an index, each behind a blank.
#[cycle(expressions)]
fn show_index<'a>(parts: &'a [Ix<'a>], shown: &mut Shown) {
    for part in parts {
        match part {
            Ix::At(exp) => show_exp(*exp, Before::Blank, shown),
            Ix::Slice(from, to) => {
                match from {
                    Some(exp) => show_exp(*exp, Before::Slice, shown),
                    None => shown.push(" (slice _"),
                }
                match to {
                    Some(exp) => show_exp(*exp, Before::Blank, shown),
                    None => shown.push(" _"),
                }
                shown.close();
            }
            Ix::Backwards => shown.push(" ::-1"),
        }
    }
}
