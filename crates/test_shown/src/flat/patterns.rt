// Patterns and heads of a flat program as text.
use crate::flat::refs::show_bind;
use crate::flat::types::show_type;
use crate::line::{Before, Shown};
use fut_flat::{Head, HeadForm, Pat, PatField, PatForm};
use fut_scalar::BindId;

/// Size and type parameters, each behind a blank.
pub fn show_heads(heads: &[Head], names: &[&str], shown: &mut Shown) {
    for head in heads {
        match head.form {
            HeadForm::Size(bind) => {
                shown.push(" [");
                show_bind(bind, names, shown);
                shown.push("]");
            }
            HeadForm::Var { bind, lifted } => {
                shown.push(if lifted { " '^" } else { " '" });
                show_bind(bind, names, shown);
            }
        }
    }
}

/// Size names, each with a blank behind it.
pub fn show_sizes(sizes: &[BindId], names: &[&str], shown: &mut Shown) {
    for size in sizes {
        shown.push("[");
        show_bind(*size, names, shown);
        shown.push("] ");
    }
}

/// The word that a pattern begins with.
fn word_of(form: &PatForm<'_>) -> &'static str {
    match form {
        PatForm::Bound(_) => "",
        PatForm::Wild => "_",
        PatForm::Tuple(_) => "(tuple",
        PatForm::Record(_) => "(record",
        PatForm::Typed(_, _) => "(: ",
    }
}

/// A pattern behind a text.
#[cycle(patterns)]
pub fn show_pat<'a>(pat: &'a Pat<'a>, before: Before, names: &[&str], shown: &mut Shown) {
    let word = word_of(&pat.form);
    shown.open(before, word);
    match &pat.form {
        PatForm::Bound(bind) => show_bind(*bind, names, shown),
        PatForm::Wild => {}
        PatForm::Tuple(parts) => show_pats(*parts, names, shown),
        PatForm::Record(fields) => show_fields(*fields, names, shown),
        PatForm::Typed(inner, ty) => {
            show_pat(*inner, Before::Nothing, names, shown);
            show_type(*ty, Before::Blank, names, shown);
        }
    }
    shown.end(word);
}

/// Patterns, each behind a blank.
#[cycle(patterns)]
pub fn show_pats<'a>(pats: &'a [Pat<'a>], names: &[&str], shown: &mut Shown) {
    for pat in pats {
        show_pat(pat, Before::Blank, names, shown);
    }
}

/// Fields, each behind a blank.
#[cycle(patterns)]
fn show_fields<'a>(fields: &'a [PatField<'a>], names: &[&str], shown: &mut Shown) {
    for field in fields {
        shown.field(field.name);
        show_pat(&field.pat, Before::Blank, names, shown);
        shown.close();
    }
}
