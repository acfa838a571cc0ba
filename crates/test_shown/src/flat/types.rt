// Written types of a flat program as text.
use crate::flat::refs::{show_bind, show_ref};
use crate::line::{Before, Shown};
use fut_flat::{Size, SizeForm, TypeArg, TypeExp, TypeField, TypeForm};
use fut_scalar::BindId;

/// A size behind its bracket.
fn show_size(before: &str, size: &Size, names: &[&str], shown: &mut Shown) {
    shown.push(before);
    match &size.form {
        SizeForm::Use(of) => show_ref(of, names, shown),
        SizeForm::Const(value) => shown.number(*value),
        SizeForm::Blank(bind) => show_bind(*bind, names, shown),
    }
    shown.push("]");
}

/// The name of a function's parameter, where it has one.
fn show_parameter(bind: &Option<BindId>, names: &[&str], shown: &mut Shown) {
    if let Some(bind) = bind {
        show_bind(*bind, names, shown);
        shown.before(Before::Colon);
    }
}

/// The word that a type begins with.
fn word_of(form: &TypeForm<'_>) -> &'static str {
    match form {
        TypeForm::Use(_, []) | TypeForm::Array(_, _) => "",
        TypeForm::Use(_, _) => "(",
        TypeForm::Unique(_) => "*",
        TypeForm::Arrow(_, _, _) => "(-> ",
        TypeForm::Tuple(_) => "(tuple",
        TypeForm::Record(_) => "(record",
    }
}

/// A type behind a text.
#[cycle(types)]
pub fn show_type<'a>(ty: &'a TypeExp<'a>, before: Before, names: &[&str], shown: &mut Shown) {
    let word = word_of(&ty.form);
    shown.open(before, word);
    match &ty.form {
        TypeForm::Use(of, arguments) => {
            show_ref(of, names, shown);
            show_arguments(*arguments, names, shown);
        }
        TypeForm::Array(size, row) => {
            show_size("[", size, names, shown);
            show_type(*row, Before::Nothing, names, shown);
        }
        TypeForm::Unique(inner) => show_type(*inner, Before::Nothing, names, shown),
        TypeForm::Arrow(bind, from, to) => {
            show_parameter(bind, names, shown);
            show_type(*from, Before::Nothing, names, shown);
            show_type(*to, Before::Blank, names, shown);
        }
        TypeForm::Tuple(parts) => show_types(*parts, names, shown),
        TypeForm::Record(fields) => show_fields(*fields, names, shown),
    }
    shown.end(word);
}

/// The arguments of a type, each behind a blank.
#[cycle(types)]
fn show_arguments<'a>(arguments: &'a [TypeArg<'a>], names: &[&str], shown: &mut Shown) {
    for argument in arguments {
        match argument {
            TypeArg::Size(size) => show_size(" [", size, names, shown),
            TypeArg::Of(ty) => show_type(ty, Before::Blank, names, shown),
        }
    }
}

/// Types, each behind a blank.
#[cycle(types)]
fn show_types<'a>(types: &'a [TypeExp<'a>], names: &[&str], shown: &mut Shown) {
    for ty in types {
        show_type(ty, Before::Blank, names, shown);
    }
}

/// Fields, each behind a blank.
#[cycle(types)]
fn show_fields<'a>(fields: &'a [TypeField<'a>], names: &[&str], shown: &mut Shown) {
    for field in fields {
        shown.field(field.name);
        show_type(&field.ty, Before::Blank, names, shown);
        shown.close();
    }
}
