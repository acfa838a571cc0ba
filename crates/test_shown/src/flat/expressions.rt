// Expressions of a flat program as text.
use crate::flat::acts::show_act;
use crate::flat::patterns::{show_heads, show_pat, show_pats, show_sizes};
use crate::flat::refs::{show_bind, show_ref};
use crate::line::{Before, Shown};
use fut_flat::{Exp, Form, Let, Loop, LoopForm};

/// The word that an expression begins with.
fn word_of(form: &Form<'_>) -> &'static str {
    match form {
        Form::Use(_, _) | Form::Lets(_, _) | Form::Strict { parts: [], .. } => "",
        Form::Strict { .. } | Form::Apply(_, _) => "(",
        Form::Lambda(_, _) => "(fn",
        Form::If(_, _, _) => "(if ",
        Form::Loop(_) => "(loop ",
    }
}

/// The closing parentheses of so many `let`s.
fn show_ends(count: usize, shown: &mut Shown) {
    for _ in 0..count {
        shown.close();
    }
}

/// An expression behind a text.
#[cycle(expressions)]
pub fn show_exp<'a>(exp: &'a Exp<'a>, before: Before, names: &[&str], shown: &mut Shown) {
    let word = word_of(&exp.form);
    shown.open(before, word);
    match &exp.form {
        Form::Use(of, _) => show_ref(of, names, shown),
        Form::Strict { act, parts, .. } => {
            show_act(act, names, shown);
            show_exps(*parts, names, shown);
        }
        Form::Apply(function, argument) => {
            show_exp(*function, Before::Nothing, names, shown);
            show_exp(*argument, Before::Blank, names, shown);
        }
        Form::If(test, yes, no) => {
            show_exp(*test, Before::Nothing, names, shown);
            show_exp(*yes, Before::Blank, names, shown);
            show_exp(*no, Before::Blank, names, shown);
        }
        _ => show_binding(exp, names, shown),
    }
    shown.end(word);
}

/// The parts of an expression that binds names.
#[cycle(expressions)]
fn show_binding<'a>(exp: &'a Exp<'a>, names: &[&str], shown: &mut Shown) {
    match &exp.form {
        Form::Lambda(pats, body) => {
            show_pats(*pats, names, shown);
            show_exp(*body, Before::Arrow, names, shown);
        }
        Form::Lets(lets, body) => {
            show_lets(*lets, names, shown);
            show_exp(*body, Before::Nothing, names, shown);
            show_ends(lets.len(), shown);
        }
        Form::Loop(over) => show_loop(*over, names, shown),
        _ => {}
    }
}

/// Expressions, each behind a blank.
#[cycle(expressions)]
fn show_exps<'a>(exps: &'a [Exp<'a>], names: &[&str], shown: &mut Shown) {
    for exp in exps {
        show_exp(exp, Before::Blank, names, shown);
    }
}

/// `let`s up to the body, which each of them holds.
#[cycle(expressions)]
fn show_lets<'a>(lets: &'a [Let<'a>], names: &[&str], shown: &mut Shown) {
    for one in lets {
        show_left(one, names, shown);
        show_exp(&one.value, Before::Equals, names, shown);
        shown.before(Before::In);
    }
}

/// What stands left of a `let`'s value.
fn show_left(one: &Let<'_>, names: &[&str], shown: &mut Shown) {
    shown.push(if one.is_function {
        "(let function "
    } else {
        "(let "
    });
    show_sizes(one.sizes, names, shown);
    show_pat(&one.pat, Before::Nothing, names, shown);
    show_heads(one.heads, names, shown);
}

#[cycle(expressions)]
fn show_loop<'a>(over: &'a Loop<'a>, names: &[&str], shown: &mut Shown) {
    show_sizes(over.sizes, names, shown);
    show_pat(&over.pat, Before::Nothing, names, shown);
    show_exp(&over.first, Before::Equals, names, shown);
    show_loop_form(&over.form, names, shown);
    show_exp(&over.body, Before::End, names, shown);
}

/// What a loop goes over, up to its closing parenthesis.
#[cycle(expressions)]
fn show_loop_form<'a>(form: &'a LoopForm<'a>, names: &[&str], shown: &mut Shown) {
    match form {
        LoopForm::For(bind, count) => {
            shown.before(Before::For);
            show_bind(*bind, names, shown);
            show_exp(count, Before::Less, names, shown);
        }
        LoopForm::ForIn(pat, items) => {
            show_pat(pat, Before::For, names, shown);
            show_exp(items, Before::In, names, shown);
        }
        LoopForm::While(test) => show_exp(test, Before::While, names, shown),
    }
}
