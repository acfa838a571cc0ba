// Types as text: a form is its word or sign and its parts, in parentheses.
use crate::line::{Before, Shown};
use crate::shapes::names::show_path;
use fut_tree::{Held, SizeExp, SizeForm, TypeArg, TypeExp, TypeField, TypeForm};

/// A size behind its bracket.
fn show_size(before: &str, size: Option<SizeExp<'_>>, shown: &mut Shown) {
    shown.push(before);
    if let Some(size) = size {
        match size.form {
            SizeForm::Path(names) => show_path(names, shown),
            SizeForm::Const(value) => shown.number(value),
        }
    }
    shown.push("]");
}

/// The word that a type begins with.
fn word_of(form: &TypeForm<'_>) -> &'static str {
    match form {
        TypeForm::Path(_, []) | TypeForm::Array(_, _) => "",
        TypeForm::Path(_, _) => "(",
        TypeForm::Unique(_) => "*",
        TypeForm::Arrow(_, _) => "(-> ",
        TypeForm::Named(_, _, _) => "(-> (",
        TypeForm::Unit => "()",
        TypeForm::Tuple(_) => "(tuple",
        TypeForm::Record(_) => "(record",
    }
}

/// A type behind a text.
#[cycle(types)]
pub fn show_type<'a>(ty: &'a TypeExp<'a>, before: Before, shown: &mut Shown) {
    let word = word_of(&ty.form);
    shown.open(before, word);
    match ty.form {
        TypeForm::Path(names, arguments) => {
            show_path(names, shown);
            show_arguments(arguments, shown);
        }
        TypeForm::Unit => {}
        TypeForm::Tuple(parts) => show_types(parts, shown),
        TypeForm::Record(fields) => show_fields(fields, shown),
        _ => show_made(ty, shown),
    }
    shown.end(word);
    shown.stands(ty.place, ty.place);
}

/// The parts of an array's type, a unique one and a function's.
#[cycle(types)]
fn show_made<'a>(ty: &'a TypeExp<'a>, shown: &mut Shown) {
    match ty.form {
        TypeForm::Array(size, row) => {
            show_size("[", size, shown);
            show_type(row, Before::Nothing, shown);
        }
        TypeForm::Unique(inner) => show_type(inner, Before::Nothing, shown),
        TypeForm::Arrow(from, to) => {
            show_type(from, Before::Nothing, shown);
            show_type(to, Before::Blank, shown);
        }
        TypeForm::Named(name, from, to) => {
            shown.push(name);
            show_type(from, Before::Colon, shown);
            show_type(to, Before::End, shown);
        }
        _ => {}
    }
}

/// The arguments of a type, each behind a blank.
#[cycle(types)]
fn show_arguments<'a>(arguments: &'a [TypeArg<'a>], shown: &mut Shown) {
    for argument in arguments {
        match argument {
            TypeArg::Size(size) => show_size(" [", *size, shown),
            TypeArg::Of(ty) => show_type(*ty, Before::Blank, shown),
        }
    }
}

/// Types, each behind a blank.
#[cycle(types)]
fn show_types<'a>(types: &'a [Held<'a, TypeExp<'a>>], shown: &mut Shown) {
    for ty in types {
        show_type(ty.at, Before::Blank, shown);
    }
}

/// Fields, each behind a blank.
#[cycle(types)]
fn show_fields<'a>(fields: &'a [TypeField<'a>], shown: &mut Shown) {
    for field in fields {
        shown.field(field.name);
        show_type(field.ty, Before::Blank, shown);
        shown.close();
    }
}

/// A type behind a text, or nothing.
pub fn show_maybe_type<'a>(ty: Option<&'a TypeExp<'a>>, before: Before, shown: &mut Shown) {
    if let Some(ty) = ty {
        show_type(ty, before, shown);
    }
}
