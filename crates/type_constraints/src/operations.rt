// The rules of operations.
ghost use Rattle.std.specs.Prelude.{◌≡◌, ◌↔◌, ◌≤◌, ◌<◌, ◌+◌, ℕ, length, IsTrue, OnOk, IfErr};
ghost use Rattle.fut_flat.specs.Numbers.{own_numbers};
ghost use Rattle.fut_flat.specs.Erased.{operation_of};
ghost use Rattle.fut_flat.specs.Terms.{Project, Replace};
ghost use Rattle.fut_types.specs.declared.Kind.{Kind as AnyKind};
ghost use Rattle.type_graph.specs.Graph.{Each, Tells};
ghost use Rattle.type_scopes.specs.Scopes.{Claimed, Refused, Safe};
ghost use Rattle.type_constraints.specs.Parts.{Rule_claim, Rule_homes};
ghost use Rattle.type_constraints.specs.Counts.{Works_on};

use crate::plain::plain_rule;
use crate::setting::Setting;
use fut_flat::Act;
use std::alloc::Global;
use type_graph::UnifyErr;
use type_patterns::{constrain_ascription, constrain_fields};
use type_rules::{array, index, label, projection, replacement, tuple, update_at};
use type_scopes::{Inference, demand};

/// How many numbers an operation has beside those of its parts.
pub fn own_numbers_of(act: &Act<'_>) -> u32
    ensures { result ≡ own_numbers (operation_of act.now) }
{
    match *act {
        Act::Binary(_) | Act::Project(_) => 2,
        _ => 1,
    }
}

// Whether an operation works on so many parts.
fn works_on(act: &Act<'_>, count: usize) -> bool
    ensures { IsTrue result ↔ Works_on (operation_of act.now) count }
{
    match *act {
        Act::Int { .. } | Act::Truth(_) => count == 0,
        Act::Negate | Act::Complement | Act::Project(_) | Act::Assert => count == 1,
        Act::Ascribe(_) | Act::Coerce(_) | Act::Declared(_) => count == 1,
        Act::Binary(_) | Act::Replace(_) => count == 2,
        Act::Range { stepped, .. } => { if stepped { count == 3 } else { count == 2 } }
        Act::Tuple | Act::Array | Act::Index(_) | Act::Update | Act::Record(_) => true,
    }
}

/// Asks for the rule of an operation on parts of these numbers.
pub fn constrain_rule<'a>(
    setting: Setting,
    act: &Act<'a>,
    lo: u32,
    parts: &[u32],
    inference: &mut Inference<'a>,
) -> Result<(), UnifyErr>
    requires safe { Safe setting.base inference.old }
    requires room { lo + own_numbers (operation_of act.now) ≤ setting.base }
    requires parts { Each (λ part. part < setting.base) parts.now }
    ensures ok { OnOk result ((from : ℕ) → lo < from → Claimed setting.places setting.base setting.depth from (Rule_claim setting.places (operation_of act.now) lo parts.now) (Rule_homes setting.depth (operation_of act.now) lo) inference.old inference.new) }
    ensures err { IfErr result (Tells ((from : ℕ) → lo < from → Refused setting.places setting.base setting.depth from (Rule_claim setting.places (operation_of act.now) lo parts.now) (Rule_homes setting.depth (operation_of act.now) lo) inference.old inference.new)) }
{
    if !works_on(act, parts.len()) {
        return Err(UnifyErr::Clash(lo, lo));
    }
    match *act {
        Act::Tuple | Act::Array | Act::Index(_) | Act::Update => {
            constrain_any(setting, act, lo, parts, inference)
        }
        Act::Record(names) => constrain_fields(
            setting.alloc,
            setting.base,
            lo,
            names,
            parts,
            inference,
        ),
        Act::Project(name) => constrain_project(
            setting.alloc,
            setting.base,
            name,
            lo,
            parts,
            inference,
        ),
        Act::Replace(name) => constrain_replace(
            setting.alloc,
            setting.base,
            name,
            lo,
            parts,
            inference,
        ),
        Act::Ascribe(ty) => {
            constrain_ascription(
                setting.alloc,
                setting.places,
                setting.base,
                ty,
                lo,
                parts[0],
                inference,
            )
        }
        Act::Coerce(ty) => {
            constrain_ascription(
                setting.alloc,
                setting.places,
                setting.base,
                ty,
                lo,
                parts[0],
                inference,
            )
        }
        Act::Declared(ty) => {
            constrain_ascription(
                setting.alloc,
                setting.places,
                setting.base,
                ty,
                lo,
                parts[0],
                inference,
            )
        }
        _ => {
            let rule = plain_rule(act, lo, parts);
            demand(setting.alloc, setting.base, inference, rule.as_slice())
        }
    }
}

// An operation on any number of parts.
fn constrain_any(
    setting: Setting,
    act: &Act<'_>,
    lo: u32,
    parts: &[u32],
    inference: &mut Inference,
) -> Result<(), UnifyErr>
    requires safe { Safe setting.base inference.old }
    requires room { lo + own_numbers (operation_of act.now) ≤ setting.base }
    requires parts { Each (λ part. part < setting.base) parts.now }
    ensures ok { OnOk result ((depth from : ℕ) → Claimed setting.places setting.base depth from (Rule_claim setting.places (operation_of act.now) lo parts.now) (Rule_homes depth (operation_of act.now) lo) inference.old inference.new) }
    ensures err { IfErr result (Tells ((depth from : ℕ) → Refused setting.places setting.base depth from (Rule_claim setting.places (operation_of act.now) lo parts.now) (Rule_homes depth (operation_of act.now) lo) inference.old inference.new)) }
{
    let alloc = setting.alloc;
    let base = setting.base;
    let places = setting.places;
    let table = &inference.table;
    let nodes = &mut inference.nodes;
    let entries = &mut inference.entries;
    match *act {
        Act::Tuple => tuple(alloc, table, base, nodes, entries, lo, parts),
        Act::Array => array(alloc, table, base, nodes, entries, lo, parts, places),
        Act::Index(what) => index(alloc, table, base, nodes, entries, lo, parts, what, places),
        Act::Update => update_at(alloc, table, base, nodes, entries, lo, parts, places),
        _ => Err(UnifyErr::Memory),
    }
}

// A field access. Its name may be new in the table.
fn constrain_project<'a>(
    alloc: Global,
    base: u32,
    name: &'a str,
    lo: u32,
    parts: &[u32],
    inference: &mut Inference<'a>,
) -> Result<(), UnifyErr>
    requires safe { Safe base inference.old }
    requires room { lo + 2 ≤ base }
    requires parts { Each (λ part. part < base) parts.now }
    requires few { length parts.now ≡ 1 }
    ensures ok { OnOk result ((places : AnyKind) (depth from : ℕ) → Claimed places base depth from (Rule_claim places (Project name.now) lo parts.now) (Rule_homes depth (Project name.now) lo) inference.old inference.new) }
    ensures err { IfErr result (Tells ((places : AnyKind) (depth from : ℕ) → Refused places base depth from (Rule_claim places (Project name.now) lo parts.now) (Rule_homes depth (Project name.now) lo) inference.old inference.new)) }
{
    let number = match label(&mut inference.labels, &mut inference.table, name) {
        Ok(number) => number,
        Err(_) => return Err(UnifyErr::Memory),
    };
    demand(
        alloc,
        base,
        inference,
        &projection(lo, 1 + lo, parts[0], number),
    )
}

// A replacement. Its name may be new in the table.
fn constrain_replace<'a>(
    alloc: Global,
    base: u32,
    name: &'a str,
    lo: u32,
    parts: &[u32],
    inference: &mut Inference<'a>,
) -> Result<(), UnifyErr>
    requires safe { Safe base inference.old }
    requires room { lo + 1 ≤ base }
    requires parts { Each (λ part. part < base) parts.now }
    requires few { length parts.now ≡ 2 }
    ensures ok { OnOk result ((places : AnyKind) (depth from : ℕ) → Claimed places base depth from (Rule_claim places (Replace name.now) lo parts.now) (Rule_homes depth (Replace name.now) lo) inference.old inference.new) }
    ensures err { IfErr result (Tells ((places : AnyKind) (depth from : ℕ) → Refused places base depth from (Rule_claim places (Replace name.now) lo parts.now) (Rule_homes depth (Replace name.now) lo) inference.old inference.new)) }
{
    let number = match label(&mut inference.labels, &mut inference.table, name) {
        Ok(number) => number,
        Err(_) => return Err(UnifyErr::Memory),
    };
    demand(
        alloc,
        base,
        inference,
        &replacement(lo, parts[0], parts[1], number),
    )
}
