// Patterns and the heads of definitions as text.
use crate::line::{Before, Shown};
use crate::shapes::names::show_name;
use crate::shapes::types::show_type;
use fut_tree::{Head, HeadForm, Held, Pat, PatField, PatForm};

/// Size and type parameters, each behind a blank.
pub fn show_heads(heads: &[Head<'_>], shown: &mut Shown) {
    for head in heads {
        match head.form {
            HeadForm::Size(name) => {
                shown.named(" [", name);
                shown.push("]");
            }
            HeadForm::Var { name, lifted } => {
                shown.named(if lifted { " '^" } else { " '" }, name)
            }
        }
    }
}

/// Size names, each with a blank behind it.
pub fn show_sizes(sizes: &[&str], shown: &mut Shown) {
    for size in sizes {
        shown.named("[", size);
        shown.push("] ");
    }
}

/// The word that a pattern begins with.
fn word_of(form: &PatForm<'_>) -> &'static str {
    match form {
        PatForm::Var(_) => "",
        PatForm::Wild => "_",
        PatForm::Unit => "()",
        PatForm::Tuple(_) => "(tuple",
        PatForm::Record(_) => "(record",
        PatForm::Ascribe(_, _) => "(: ",
    }
}

/// A pattern behind a text.
#[cycle(patterns)]
pub fn show_pat<'a>(pat: &'a Pat<'a>, before: Before, shown: &mut Shown) {
    let word = word_of(&pat.form);
    shown.open(before, word);
    match pat.form {
        PatForm::Var(name) => show_name(name, shown),
        PatForm::Wild | PatForm::Unit => {}
        PatForm::Tuple(parts) => show_pats(parts, shown),
        PatForm::Record(fields) => show_fields(fields, shown),
        PatForm::Ascribe(inner, ty) => {
            show_pat(inner, Before::Nothing, shown);
            show_type(ty, Before::Blank, shown);
        }
    }
    shown.end(word);
    shown.stands(pat.place, pat.place);
}

/// Patterns, each behind a blank.
#[cycle(patterns)]
pub fn show_pats<'a>(pats: &'a [Held<'a, Pat<'a>>], shown: &mut Shown) {
    for pat in pats {
        show_pat(pat.at, Before::Blank, shown);
    }
}

/// Fields, each behind a blank.
#[cycle(patterns)]
fn show_fields<'a>(fields: &'a [PatField<'a>], shown: &mut Shown) {
    for field in fields {
        shown.field(field.name);
        show_pat(field.pat, Before::Blank, shown);
        shown.close();
    }
}
