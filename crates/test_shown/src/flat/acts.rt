// What operations are called, each with a blank behind it where parts follow.
use crate::flat::types::show_type;
use crate::line::{Before, Shown};
use crate::texts::{bin_text, end_text};
use fut_flat::{Act, Part};

fn show_parts(parts: &[Part], shown: &mut Shown) {
    for part in parts {
        shown.push(part_text(*part));
    }
}

/// A part of an index. Of a slice it says which bounds are written.
fn part_text(part: Part) -> &'static str {
    match part {
        Part::At => " at",
        Part::Backwards => " ::-1",
        Part::Slice {
            from: true,
            to: true,
        } => " from:to",
        Part::Slice {
            from: true,
            to: false,
        } => " from:",
        Part::Slice {
            from: false,
            to: true,
        } => " :to",
        Part::Slice {
            from: false,
            to: false,
        } => " :",
    }
}

fn show_names(fields: &[&str], shown: &mut Shown) {
    for field in fields {
        shown.named(" ", field);
    }
}

/// The word of an operation.
fn word_of(act: &Act<'_>) -> &'static str {
    match act {
        Act::Int { .. } => "",
        Act::Truth(true) => "true",
        Act::Truth(false) => "false",
        Act::Tuple => "tuple",
        Act::Record(_) => "record",
        Act::Array => "array",
        Act::Binary(op) => bin_text(*op),
        Act::Negate => "neg",
        Act::Complement => "!",
        Act::Index(_) => "index",
        Act::Project(_) => "field ",
        Act::Update => "update",
        Act::Replace(_) => "replace ",
        Act::Ascribe(_) => ": ",
        Act::Coerce(_) => ":> ",
        Act::Declared(_) => "result ",
        Act::Assert => "assert",
        Act::Range { end, .. } => end_text(*end),
    }
}

/// The word of an operation with what it says of its parts. A written type stands before them.
pub fn show_act<'a>(act: &Act<'a>, names: &[&str], shown: &mut Shown) {
    shown.push(word_of(act));
    match act {
        Act::Int { value, ty } => shown.integer(*value, *ty),
        Act::Record(fields) => show_names(*fields, shown),
        Act::Index(parts) => show_parts(*parts, shown),
        Act::Project(field) | Act::Replace(field) => shown.push(*field),
        Act::Ascribe(ty) | Act::Coerce(ty) | Act::Declared(ty) => show_type(
            *ty,
            Before::Nothing,
            names,
            shown,
        ),
        _ => {}
    }
}
