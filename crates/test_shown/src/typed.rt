// Texts and the types of their definitions: `(f#0 (-> a a))`, where letters stand for what each use chooses anew, and `_` for
// what is left undetermined.
use crate::flat::refs::show_bind;
use crate::line::Shown;
use crate::texts::scalar_text;
use flat_numbers::places;
use fut_flat::{Definition, Flat};
use fut_scalar::{IntType, List, ScalarType};
use fut_types::{Head, Kind};
use std::alloc::Global;
use type_graph::Form;
use type_infer::{InferErr, infer, new_inference};
use type_schemes::PartForm;
use type_scopes::{Inference, Known};

/// More pieces than a type in a row has.
const MOST_PIECES: u32 = 10_000;

/// What is still to be shown.
#[derive(Clone, Copy)]
enum Piece {
    /// A part of the type of a definition.
    Part(u32),
    /// The type of a node of the graph.
    Node(u32),
    /// The parts of a tuple, a record or a function from a place on, and the end.
    Row(Made, u32),
    /// The end of a field.
    Close,
}

/// A type that is made by a head of parts: of parts of the template, or of nodes of the graph.
#[derive(Clone, Copy)]
struct Made {
    head: Head,
    first: u32,
    count: u32,
    is_template: bool,
}

impl Made {
    fn piece(&self, step: u32) -> Piece {
        let number = self.first.saturating_add(step);
        if self.is_template {
            Piece::Part(number)
        } else {
            Piece::Node(number)
        }
    }
}

/// What is shown of a definition's type.
#[derive(Drop)]
struct Pieces {
    /// What comes next stands last.
    left: List<Piece>,
    /// The parts that each use chooses anew, in the order in which they are met.
    chosen: List<u32>,
    /// Whether memory ran out.
    is_spent: bool,
}

impl Pieces {
    fn new(alloc: Global) -> Pieces {
        Pieces {
            left: List::new(alloc),
            chosen: List::new(alloc),
            is_spent: false,
        }
    }

    fn push(&mut self, piece: Piece) {
        if self.left.push(piece).is_err() {
            self.is_spent = true;
        }
    }

    /// The place of a part among those that each use chooses anew.
    fn place_of(&mut self, part: u32) -> usize {
        let chosen = self.chosen.as_slice();
        for place in 0..chosen.len() {
            if chosen[place] == part {
                return place;
            }
        }
        let place = chosen.len();
        if self.chosen.push(part).is_err() {
            self.is_spent = true;
        }
        place
    }
}

/// A letter for each of the first parts that each use chooses anew.
fn letter_of(place: usize) -> char {
    match b"abcdefghijklmnopqrstuvwxyz".get(place) {
        Some(letter) => char::from(*letter),
        None => '?',
    }
}

/// The label of a part of a record.
fn label_of(inference: &Inference<'_>, record: u32, part: u32) -> u32 {
    match inference.table.records.as_slice().get(record as usize) {
        Some(row) => {
            let place = row.first.saturating_add(part);
            match inference.table.labels.as_slice().get(place as usize) {
                Some(label) => *label,
                None => u32::MAX,
            }
        }
        None => u32::MAX,
    }
}

/// The name of a field, by its label.
fn show_label(inference: &Inference<'_>, label: u32, shown: &mut Shown) {
    shown.push(" (");
    for (text, number) in &inference.labels.numbers {
        if *number == label {
            shown.push(text);
        }
    }
    shown.blank();
}

/// The next part of a tuple, a record or a function, and behind the last one the end.
fn show_row(
    inference: &Inference<'_>,
    made: &Made,
    step: u32,
    pieces: &mut Pieces,
    shown: &mut Shown,
) {
    if step >= made.count {
        shown.close();
    } else {
        pieces.push(Piece::Row(*made, step.saturating_add(1)));
        if let Head::Record(number) = made.head {
            show_label(inference, label_of(inference, number, step), shown);
            pieces.push(Piece::Close);
        } else {
            shown.blank();
        }
        pieces.push(made.piece(step));
    }
}

/// The word of a head.
fn word_of(head: Head) -> &'static str {
    match head {
        Head::Scalar(ty) => scalar_text(ty),
        Head::Rigid(_, _) => "'",
        Head::Abstract(_, _) => "abstract",
        Head::Array => "[]",
        Head::Tuple => "(tuple",
        Head::Fun => "(->",
        Head::Record(_) => "(record",
    }
}

fn show_made(made: &Made, pieces: &mut Pieces, shown: &mut Shown) {
    shown.push(word_of(made.head));
    match made.head {
        Head::Scalar(_) | Head::Abstract(_, _) => {}
        Head::Rigid(number, _) => shown.number(u64::from(number)),
        Head::Array => pieces.push(made.piece(0)),
        Head::Tuple | Head::Fun | Head::Record(_) => pieces.push(Piece::Row(*made, 0)),
    }
}

fn show_part(inference: &Inference<'_>, number: u32, pieces: &mut Pieces, shown: &mut Shown) {
    let Some(part) = inference.store.as_slice().get(number as usize) else {
        return shown.push("?");
    };
    match part.form {
        PartForm::Free => shown.character(letter_of(pieces.place_of(number))),
        PartForm::Shared(node) => pieces.push(Piece::Node(node)),
        PartForm::Again(earlier) => pieces.push(Piece::Part(earlier)),
        PartForm::Open(_, _) => shown.push("open"),
        PartForm::Made(head, first, count) => {
            let made = Made {
                head,
                first,
                count,
                is_template: true,
            };
            show_made(&made, pieces, shown)
        }
    }
}

/// A type that is left undetermined: i32 if it is of integers.
fn undetermined_text(kind: Kind) -> &'static str {
    match kind {
        Kind::Integer => scalar_text(ScalarType::Int(IntType::I32)),
        Kind::Any | Kind::Data | Kind::Equal | Kind::Scalar => "_",
    }
}

fn show_node(inference: &Inference<'_>, number: u32, pieces: &mut Pieces, shown: &mut Shown) {
    let Some(node) = inference.nodes.as_slice().get(number as usize) else {
        return shown.push("?");
    };
    match node.form {
        Form::Free => shown.push(undetermined_text(node.kind)),
        Form::Link(other) => pieces.push(Piece::Node(other)),
        Form::Open(_, _) => shown.push("open"),
        Form::Made(head, first, count) => {
            let made = Made {
                head,
                first,
                count,
                is_template: false,
            };
            show_made(&made, pieces, shown)
        }
    }
}

/// Shows all that is left, in order.
fn show_pieces(inference: &Inference<'_>, pieces: &mut Pieces, shown: &mut Shown) {
    for _ in 0..MOST_PIECES {
        match pieces.left.pop() {
            None => return,
            Some(Piece::Part(number)) => show_part(inference, number, pieces, shown),
            Some(Piece::Node(number)) => show_node(inference, number, pieces, shown),
            Some(Piece::Row(made, step)) => show_row(inference, &made, step, pieces, shown),
            Some(Piece::Close) => shown.close(),
        }
    }
    shown.push(" ..");
}

fn show_definition(
    alloc: Global,
    definition: &Definition<'_>,
    names: &[&str],
    inference: &Inference<'_>,
    shown: &mut Shown,
) {
    let mut pieces = Pieces::new(alloc);
    shown.push(" (");
    show_bind(definition.bind, names, shown);
    shown.blank();
    match inference.names.as_slice().get(definition.bind.0 as usize) {
        Some(Known::Definition(first, _)) => pieces.push(Piece::Part(*first)),
        _ => shown.push("?"),
    }
    show_pieces(inference, &mut pieces, shown);
    shown.close();
    if pieces.is_spent {
        shown.is_spent = true;
    }
}

/// Why a program has no typing, and where that shows.
fn show_refusal(alloc: Global, flat: &Flat<'_>, refusal: InferErr, shown: &mut Shown) {
    match refusal {
        InferErr::NoType(number) => show_at(alloc, flat, "! no type ", number, shown),
        InferErr::FunctionPlace(number) => show_at(alloc, flat, "! function place ", number, shown),
        InferErr::Ambiguous(number) => show_at(alloc, flat, "! ambiguous ", number, shown),
        InferErr::Memory => shown.push("! memory"),
    }
}

/// Where a number of a program stands, behind a text.
fn show_at(alloc: Global, flat: &Flat<'_>, before: &str, number: u32, shown: &mut Shown) {
    shown.push(before);
    match places(alloc, flat) {
        Ok(places) => match places.as_slice().get(number as usize) {
            Some(at) => shown.place(*at),
            None => shown.push("?"),
        },
        Err(_) => shown.push("memory"),
    }
}

/// The types of the definitions of all files but the prelude.
fn show_definitions(alloc: Global, flat: &Flat<'_>, inference: &Inference<'_>, shown: &mut Shown) {
    shown.push("=");
    for definition in flat.definitions {
        if definition.file > 0 {
            show_definition(alloc, definition, flat.names, inference, shown);
        }
    }
}

/// Shows the types of the definitions of all files but the prelude, or why the program has none and where that shows.
/// What is shown is compared with rows of data, so no clause says it.
pub fn show_types<'a>(alloc: Global, flat: &Flat<'a>, shown: &mut Shown) {
    let mut inference = new_inference(alloc);
    match infer(alloc, flat, &mut inference) {
        Ok(()) => show_definitions(alloc, flat, &inference, shown),
        Err(refusal) => show_refusal(alloc, flat, refusal, shown),
    }
}
