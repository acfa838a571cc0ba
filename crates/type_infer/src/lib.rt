//! Type inference of a program.
//!
//! A node for each number of the program, at the level of its home (`begin`); definitions in order, each over those before it
//! (`definitions`); then the graph is resolved (`graph`), and what is left undetermined decided. After a refusal a second run
//! lets functions stand everywhere.
#![tactic(auto)]

ghost use Rattle.std.specs.Prelude.{◌≡◌, OnOk, IfErr};
ghost use Rattle.fut_types.specs.declared.Kind.TheVariants as kind;
ghost use Rattle.fut_typing.specs.Program.{program_numbers, program_of};
ghost use Rattle.flat_numbers.specs.Listed.{AreHomes};
ghost use Rattle.type_rules.specs.Labels.{IsLabels};
ghost use Rattle.type_infer.specs.Graphs.{Graphs, Lacks};
ghost use Rattle.type_infer.specs.Inferring.{Infers, Is_shown, Says};
ghost use Rattle.type_infer.specs.Refusals.{At_number};
ghost use Rattle.type_infer.specs.declared.refusals.BuildErr.TheVariants as untyped;

mod begin;
mod definitions;
mod graph;
mod refusals;
mod types;

use crate::graph::build;
use crate::refusals::BuildErr;
pub use begin::new_inference;
use flat_numbers::homes;
use fut_flat::Flat;
use fut_scalar::List;
use fut_types::Kind;
use std::alloc::Global;
use type_answers::undetermined;
use type_scopes::Inference;
pub use types::{general_type_at, type_at};

/// Why a program has no typing to go on with, and the number of the program at which it shows.
#[derive(Clone, Copy)]
pub enum InferErr {
    /// It has none, even if functions may stand everywhere.
    NoType(u32),
    /// It has one only if functions may stand everywhere.
    FunctionPlace(u32),
    /// It has many, and what the principal one leaves undetermined has no default.
    Ambiguous(u32),
    Memory,
}

// Decides what is left undetermined in the graph of a program.
fn decide(
    alloc: Global,
    flat: &Flat<'_>,
    base: u32,
    inference: &Inference<'_>,
) -> Result<(), InferErr>
    requires base { base ≡ program_numbers (program_of flat.now) }
    requires graph { Graphs kind.Data (program_of flat.now) inference.now }
    ensures ok { OnOk result (Infers (program_of flat.now) inference.now) }
    ensures err { IfErr result (Says (program_of flat.now) inference.now) }
    ensures at { IfErr result (Is_shown (program_of flat.now)) }
{
    let _flat = flat;
    match undetermined(alloc, &inference.nodes, base) {
        Ok(None) => Ok(()),
        Ok(Some((at, _))) => Err(InferErr::Ambiguous(at)),
        Err(_) => Err(InferErr::Memory),
    }
}

// Why a program has no typing, which shows at a number: whether it has one if functions may stand everywhere.
fn refusal<'a>(
    alloc: Global,
    flat: &Flat<'a>,
    homes: &List<u32>,
    at: u32,
    inference: &mut Inference<'a>,
) -> InferErr
    requires homes { AreHomes homes.now (program_of flat.now) }
    requires lacks { Lacks kind.Data (program_of flat.now) inference.old }
    requires at { At_number (program_numbers (program_of flat.now)) (untyped.Untyped at) }
    ensures why { Says (program_of flat.now) inference.new result }
    ensures at { Is_shown (program_of flat.now) result }
{
    match build(alloc, Kind::Any, flat, homes, inference) {
        Ok(()) => InferErr::FunctionPlace(at),
        Err(BuildErr::Untyped(number)) => InferErr::NoType(number),
        Err(BuildErr::Memory) => InferErr::Memory,
    }
}

/// The typing of a program. Behind it stands the graph, node n of which is that of number n; the numbers of names and records
/// go on from those in hand, and all else that was in `inference` is forgotten.
pub fn infer<'a>(
    alloc: Global,
    flat: &Flat<'a>,
    inference: &mut Inference<'a>,
) -> Result<(), InferErr>
    requires { IsLabels inference.old.labels inference.old.table }
    ensures ok { OnOk result (Infers (program_of flat.now) inference.new) }
    ensures err { IfErr result (Says (program_of flat.now) inference.new) }
    ensures at { IfErr result (Is_shown (program_of flat.now)) }
{
    let homes = match homes(alloc, flat) {
        Ok(homes) => homes,
        Err(_) => return Err(InferErr::Memory),
    };
    match build(alloc, Kind::Data, flat, &homes, inference) {
        Ok(()) => decide(alloc, flat, homes.len() as u32, &*inference),
        Err(BuildErr::Untyped(at)) => Err(refusal(alloc, flat, &homes, at, inference)),
        Err(BuildErr::Memory) => Err(InferErr::Memory),
    }
}
