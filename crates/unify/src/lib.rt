//! Unification of types that are given as trees, over substitutions.
//!
//! A substitution has a kind for each variable, perhaps with parts that its type is known to have under labels, and types
//! that variables are bound to (`specs/Substitutions.antt`).
#![tactic(auto)]

ghost use Rattle.std.specs.Prelude.{length, IfOk, IfErr};
ghost use Rattle.fut_types.specs.Shapes.{Shapes, IsTable, Tells as TellsOf};
ghost use Rattle.type_graph.specs.Graph.{Tells};
ghost use Rattle.unify.specs.Substitutions.{Apart, Generals, IsSolved, Unifies, Within, type_of};

mod load;
mod plant;
mod read;

use fut_scalar::List;
use fut_types::{Head, Kind, ShapeTable};
use load::{load, variables};
use read::read_back;
use std::alloc::Global;
use type_graph::{UnifyErr, resolve};

/// A type: a variable, by its number, or made by a head of parts.
#[derive(Drop)]
pub enum Ty {
    Var(u32),
    Made(Head, List<Ty>),
}

/// What is known of a variable: its kind, and parts of its type by their labels.
#[derive(Drop)]
pub struct Known {
    pub kind: Kind,
    pub parts: List<(u32, Ty)>,
}

/// Types for variables. A variable's number is its place in `known`.
///
/// What a variable is bound to may hold variables that are bound themselves.
#[derive(Drop)]
pub struct Subst {
    pub known: List<Known>,
    pub binds: List<(u32, Ty)>,
}

// Makes two types equal.
fn unified(
    alloc: Global,
    table: &ShapeTable,
    subst: &Subst,
    left: &Ty,
    right: &Ty,
) -> Result<Subst, UnifyErr>
    requires table { IsTable table.now }
    requires solved { IsSolved table.now subst.now }
    requires left { Within table.now (length subst.now.known) (type_of left.now) }
    requires right { Within table.now (length subst.now.known) (type_of right.now) }
    ensures solved { IfOk result (λ s. IsSolved table.now s) }
    ensures ok { IfOk result (λ s. (S : Shapes) → TellsOf table.now S → Unifies S subst.now (type_of left.now) (type_of right.now) s) }
    ensures err { IfErr result (Tells ((S : Shapes) → TellsOf table.now S → Apart S subst.now (type_of left.now) (type_of right.now))) }
{
    let mut nodes = match variables(alloc, subst.known.len() as u32) {
        Ok(nodes) => nodes,
        Err(_) => return Err(UnifyErr::Memory),
    };
    let mut entries = List::new(alloc);
    match load(alloc, table, &mut nodes, &mut entries, subst, left, right) {
        Ok(()) => {}
        Err(error) => return Err(error),
    }
    match resolve(alloc, &nodes, &entries) {
        Ok(()) => read_back(alloc, &nodes, &entries),
        Err(error) => Err(error),
    }
}

/// Makes two types equal.
///
/// `Ok`: a most general extension that makes both equal and keeps all kinds. It has variables of its own, behind those of
/// the substitution: one for each part of a type, so that what it binds a variable to is one level of a type, and parts
/// that types share stay shared. `Err`: there is no extension, or memory ran out.
///
/// The cost and the size of the answer are near linear in the size of all that is given. A type that is read from the
/// answer as a whole tree may be exponentially larger, since a shared part stands in it once for each use.
pub fn unify(
    alloc: Global,
    table: &ShapeTable,
    subst: Subst,
    left: &Ty,
    right: &Ty,
) -> Result<Subst, UnifyErr>
    requires table { IsTable table.now }
    requires solved { IsSolved table.now subst }
    requires left { Within table.now (length subst.known) (type_of left.now) }
    requires right { Within table.now (length subst.known) (type_of right.now) }
    ensures solved { IfOk result (λ s. IsSolved table.now s) }
    ensures ok { IfOk result (λ s. (S : Shapes) → TellsOf table.now S → Unifies S subst (type_of left.now) (type_of right.now) s) }
    ensures err { IfErr result (Tells ((S : Shapes) → TellsOf table.now S → Apart S subst (type_of left.now) (type_of right.now))) }
{
    unified(alloc, table, &subst, left, right)
}

/// A solved substitution is most general: whatever meets it is an instance of the types that its binds give, and they meet
/// it themselves, unless named parts are known of a variable.
pub fn solved_substitutions_are_most_general()
    ensures { Generals }
{}
