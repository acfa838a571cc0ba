// Written types.
ghost use Rattle.std.specs.Prelude.{◌≡◌, ◌≤◌, ◌<◌, ◌+◌, ◌++◌, ℕ, length, map, OnOk, IfErr};
ghost use Rattle.fut_flat.specs.Terms.{Arrow_type, Array_type, Record_type, Tuple_type};
ghost use Rattle.fut_flat.specs.Erased.{size_of, type_of, types as type_terms};
ghost use Rattle.type_graph.specs.Graph.{Tells, numbers};
ghost use Rattle.type_scopes.specs.Scopes.{Claimed, Refused, Safe};
ghost use Rattle.type_patterns.specs.Asking.{Ascribed_claim, Asked, Result_claim, Type_claim, Types_claim, Unasked, field_name, field_type};

use crate::fields::ask_fields_of;
use crate::named::ask_named;
use crate::sizes::ask_size;
use crate::steps::{add_nodes, ask, ask_tuple_of};
use fut_flat::{Size, TypeExp, TypeField, TypeForm};
use fut_scalar::{BindId, List};
use fut_types::Kind;
use std::alloc::Global;
use type_graph::UnifyErr;
use type_rules::Demand;
use type_scopes::{Inference, Known, enter, mark_of, take_back};

/// Asks that a number has the type that is written.
pub fn constrain_type<'a>(
    alloc: Global,
    places: Kind,
    base: u32,
    ty: &TypeExp<'a>,
    lo: u32,
    inference: &mut Inference<'a>,
) -> Result<(), UnifyErr>
    requires safe { Safe base inference.old }
    requires number { lo < base }
    ensures ok { OnOk result ((d from : ℕ) → Claimed places base d from (Type_claim places (type_of ty.now) lo) (λ home. Unit {0}) inference.old inference.new) }
    ensures err { IfErr result (Tells ((d from : ℕ) → Refused places base d from (Type_claim places (type_of ty.now) lo) (λ home. Unit {0}) inference.old inference.new)) }
{
    ask_type(alloc, places, base, ty, lo, inference)
}

/// Asks that two numbers have the type that is written.
pub fn constrain_ascription<'a>(
    alloc: Global,
    places: Kind,
    base: u32,
    ty: &TypeExp<'a>,
    lo: u32,
    part: u32,
    inference: &mut Inference<'a>,
) -> Result<(), UnifyErr>
    requires safe { Safe base inference.old }
    requires number { lo < base }
    requires part { part < base }
    ensures ok { OnOk result ((d from : ℕ) → Claimed places base d from (Ascribed_claim places (type_of ty.now) lo part) (λ home. Unit {0}) inference.old inference.new) }
    ensures err { IfErr result (Tells ((d from : ℕ) → Refused places base d from (Ascribed_claim places (type_of ty.now) lo part) (λ home. Unit {0}) inference.old inference.new)) }
{
    match ask(alloc, base, inference, &[Demand::Same(lo, part)]) {
        Ok(()) => {}
        Err(error) => return Err(error),
    }
    ask_type(alloc, places, base, ty, lo, inference)
}

// Asks that a node has the type that is written.
#[cycle(written)]
fn ask_type<'a>(
    alloc: Global,
    places: Kind,
    base: u32,
    ty: &TypeExp<'a>,
    node: u32,
    inference: &mut Inference<'a>,
) -> Result<(), UnifyErr>
    requires safe { Safe base inference.old }
    requires node { node < base }
    ensures ok { OnOk result (Asked places base (Type_claim places (type_of ty.now) node) inference.old inference.new) }
    ensures err { IfErr result (Tells (Unasked places base (Type_claim places (type_of ty.now) node) inference.old inference.new)) }
{
    match ty.form {
        TypeForm::Use(reference, given) => {
            if given.len() != 0 {
                return Err(UnifyErr::Clash(node, node));
            }
            ask_named(alloc, base, reference, node, inference)
        }
        TypeForm::Array(size, element) => {
            ask_array(alloc, places, base, size, element, node, inference)
        }
        TypeForm::Unique(inner) => ask_type(alloc, places, base, inner, node, inference),
        TypeForm::Arrow(bind, from, to) => {
            ask_arrow(alloc, places, base, bind, from, to, node, inference)
        }
        TypeForm::Tuple(parts) => ask_tuple(alloc, places, base, parts, node, inference),
        TypeForm::Record(fields) => ask_record(alloc, places, base, fields, node, inference),
    }
}

// An array: a node of its own stands for its elements.
#[cycle(written)]
fn ask_array<'a>(
    alloc: Global,
    places: Kind,
    base: u32,
    size: Size,
    element: &TypeExp<'a>,
    node: u32,
    inference: &mut Inference<'a>,
) -> Result<(), UnifyErr>
    requires safe { Safe base inference.old }
    requires node { node < base }
    ensures ok { OnOk result (Asked places base (Type_claim places (Array_type (size_of size) (type_of element.now)) node) inference.old inference.new) }
    ensures err { IfErr result (Tells (Unasked places base (Type_claim places (Array_type (size_of size) (type_of element.now)) node) inference.old inference.new)) }
{
    let own = match add_nodes(base, inference, 1) {
        Ok(own) => own,
        Err(_) => return Err(UnifyErr::Memory),
    };
    let all = inference.nodes.len() as u32;
    match ask(
        alloc,
        all,
        inference,
        &[Demand::Array(node, own), Demand::Has(own, places)],
    ) {
        Ok(()) => {}
        Err(error) => return Err(error),
    }
    match ask_size(alloc, all, size, node, inference) {
        Ok(()) => {}
        Err(error) => return Err(error),
    }
    ask_type(alloc, places, all, element, own, inference)
}

// A function: nodes of its own stand for its parameter and its result.
#[cycle(written)]
fn ask_arrow<'a>(
    alloc: Global,
    places: Kind,
    base: u32,
    bind: Option<BindId>,
    from: &TypeExp<'a>,
    to: &TypeExp<'a>,
    node: u32,
    inference: &mut Inference<'a>,
) -> Result<(), UnifyErr>
    requires safe { Safe base inference.old }
    requires node { node < base }
    ensures ok { OnOk result (Asked places base (Type_claim places (Arrow_type bind (type_of from.now) (type_of to.now)) node) inference.old inference.new) }
    ensures err { IfErr result (Tells (Unasked places base (Type_claim places (Arrow_type bind (type_of from.now) (type_of to.now)) node) inference.old inference.new)) }
{
    let own = match add_nodes(base, inference, 2) {
        Ok(own) => own,
        Err(_) => return Err(UnifyErr::Memory),
    };
    let all = inference.nodes.len() as u32;
    match ask(alloc, all, inference, &[Demand::Fun(node, own, own + 1)]) {
        Ok(()) => {}
        Err(error) => return Err(error),
    }
    match ask_type(alloc, places, all, from, own, inference) {
        Ok(()) => {}
        Err(error) => return Err(error),
    }
    ask_result(alloc, places, all, bind, own, to, own + 1, inference)
}

// The result of a function, in which the name of the parameter may be used.
#[cycle(written)]
fn ask_result<'a>(
    alloc: Global,
    places: Kind,
    base: u32,
    bind: Option<BindId>,
    argument: u32,
    to: &TypeExp<'a>,
    node: u32,
    inference: &mut Inference<'a>,
) -> Result<(), UnifyErr>
    requires safe { Safe base inference.old }
    requires argument { argument < base }
    requires node { node < base }
    ensures ok { OnOk result (Asked places base (Result_claim places bind argument (type_of to.now) node) inference.old inference.new) }
    ensures err { IfErr result (Tells (Unasked places base (Result_claim places bind argument (type_of to.now) node) inference.old inference.new)) }
{
    let bind = match bind {
        None => return ask_type(alloc, places, base, to, node, inference),
        Some(bind) => bind,
    };
    let mark = mark_of(inference);
    match enter(inference, bind.0, Known::Number(argument)) {
        Ok(()) => {}
        Err(_) => return Err(UnifyErr::Memory),
    }
    match ask_type(alloc, places, base, to, node, inference) {
        Ok(()) => {}
        Err(error) => return Err(error),
    }
    take_back(inference, mark);
    Ok(())
}

// A tuple: nodes of its own stand for its parts.
#[cycle(written)]
fn ask_tuple<'a>(
    alloc: Global,
    places: Kind,
    base: u32,
    parts: &[TypeExp<'a>],
    node: u32,
    inference: &mut Inference<'a>,
) -> Result<(), UnifyErr>
    requires safe { Safe base inference.old }
    requires node { node < base }
    ensures ok { OnOk result (Asked places base (Type_claim places (Tuple_type (type_terms (map type_of parts.now))) node) inference.old inference.new) }
    ensures err { IfErr result (Tells (Unasked places base (Type_claim places (Tuple_type (type_terms (map type_of parts.now))) node) inference.old inference.new)) }
{
    if parts.len() >= 1073741824 {
        return Err(UnifyErr::Memory);
    }
    let own = match add_nodes(base, inference, parts.len() as u32) {
        Ok(own) => own,
        Err(_) => return Err(UnifyErr::Memory),
    };
    let all = inference.nodes.len() as u32;
    let mut row = List::new(alloc);
    match ask_types(alloc, places, all, parts, own, &mut row, inference) {
        Ok(()) => {}
        Err(error) => return Err(error),
    }
    ask_tuple_of(alloc, all, node, row.as_slice(), inference)
}

// Types in a row, at the nodes from one on, whose numbers are noted.
#[cycle(written)]
fn ask_types<'a>(
    alloc: Global,
    places: Kind,
    base: u32,
    parts: &[TypeExp<'a>],
    first: u32,
    row: &mut List<u32>,
    inference: &mut Inference<'a>,
) -> Result<(), UnifyErr>
    requires safe { Safe base inference.old }
    requires own { first + length parts.now ≤ base }
    ensures row { OnOk result (row.new ≡ row.old ++ numbers first (length parts.now)) }
    ensures ok { OnOk result (Asked places base (Types_claim places (map type_of parts.now) first) inference.old inference.new) }
    ensures err { IfErr result (Tells (Unasked places base (Types_claim places (map type_of parts.now) first) inference.old inference.new)) }
{
    let mut at = first;
    for part in parts {
        match row.push(at) {
            Ok(()) => {}
            Err(_) => return Err(UnifyErr::Memory),
        }
        match ask_type(alloc, places, base, part, at, inference) {
            Ok(()) => {}
            Err(error) => return Err(error),
        }
        at += 1;
    }
    Ok(())
}

// A record: nodes of its own stand for its fields.
#[cycle(written)]
fn ask_record<'a>(
    alloc: Global,
    places: Kind,
    base: u32,
    fields: &[TypeField<'a>],
    node: u32,
    inference: &mut Inference<'a>,
) -> Result<(), UnifyErr>
    requires safe { Safe base inference.old }
    requires node { node < base }
    ensures ok { OnOk result (Asked places base (Type_claim places (Record_type (map field_name fields.now) (type_terms (map field_type fields.now))) node) inference.old inference.new) }
    ensures err { IfErr result (Tells (Unasked places base (Type_claim places (Record_type (map field_name fields.now) (type_terms (map field_type fields.now))) node) inference.old inference.new)) }
{
    if fields.len() >= 1073741824 {
        return Err(UnifyErr::Memory);
    }
    let own = match add_nodes(base, inference, fields.len() as u32) {
        Ok(own) => own,
        Err(_) => return Err(UnifyErr::Memory),
    };
    let all = inference.nodes.len() as u32;
    let mut row = List::new(alloc);
    match ask_fields(alloc, places, all, fields, own, &mut row, inference) {
        Ok(()) => {}
        Err(error) => return Err(error),
    }
    ask_fields_of(alloc, all, node, fields, row.as_slice(), inference)
}

// The types of fields in a row, likewise.
#[cycle(written)]
fn ask_fields<'a>(
    alloc: Global,
    places: Kind,
    base: u32,
    fields: &[TypeField<'a>],
    first: u32,
    row: &mut List<u32>,
    inference: &mut Inference<'a>,
) -> Result<(), UnifyErr>
    requires safe { Safe base inference.old }
    requires own { first + length fields.now ≤ base }
    ensures row { OnOk result (row.new ≡ row.old ++ numbers first (length fields.now)) }
    ensures ok { OnOk result (Asked places base (Types_claim places (map field_type fields.now) first) inference.old inference.new) }
    ensures err { IfErr result (Tells (Unasked places base (Types_claim places (map field_type fields.now) first) inference.old inference.new)) }
{
    let mut at = first;
    for field in fields {
        match row.push(at) {
            Ok(()) => {}
            Err(_) => return Err(UnifyErr::Memory),
        }
        match ask_type(alloc, places, base, &field.ty, at, inference) {
            Ok(()) => {}
            Err(error) => return Err(error),
        }
        at += 1;
    }
    Ok(())
}
