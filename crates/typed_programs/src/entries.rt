// The types of definitions from which a run may begin, read off the graph before any default for what is generalised.
ghost use Rattle.std.specs.Prelude.{◌≡◌, ◌<◌, ◌≤◌, ◌+◌, [], IfOk, IfErr, OnOk, length};
ghost use Rattle.fut_flat.specs.Erased.{parameters};
ghost use Rattle.fut_typing.specs.Free.{has_types};
ghost use Rattle.fut_typing.specs.Program.{program_of};
ghost use Rattle.type_graph.specs.Graph.{IsGraph};
ghost use Rattle.type_infer.specs.Inferring.{Infers};
ghost use Rattle.type_infer.specs.Reading.{Generally};
ghost use Rattle.typed_programs.specs.Built.{Is_built};
ghost use Rattle.typed_programs.specs.Entries.{Because, Is_outside, Is_unwritten, Levels_are, May_be_used, No_array, No_entry_type, No_function, No_results, No_data, No_row_of_data, Parameters_are, Pushed, Results_at, Row_is, Type_is};
ghost use Rattle.typed_programs.specs.EntryTypes.{number_of};

use crate::forms::{array_of, function_of, scalar_of, tuple_of};
use flat_numbers::homes;
use fut_flat::{Flat, Head, HeadForm};
use fut_scalar::{DataType, List};
use std::alloc::Global;
use type_infer::general_type_at;
use type_scopes::Inference;

/// A type from which a run may begin: each parameter is a scalar or an array of scalars, and so is the result, or it is a tuple
/// of two or more of these.
#[derive(Drop)]
pub struct EntryType {
    pub params: List<DataType>,
    /// Whether the result is a tuple; else there is one.
    pub tuple: bool,
    pub results: List<DataType>,
}

/// Why a run may not begin at a definition.
#[derive(Clone, Copy)]
pub enum EntryTypeErr {
    /// It has written type parameters, or its type is no type from which a run may begin.
    Outside,
    Memory,
}

/// A node below so many levels of arrays.
#[derive(Clone, Copy)]
struct Below {
    node: u32,
    rank: u32,
}

/// The node below all levels of arrays that a node's type has.
fn below_arrays(inference: &Inference<'_>, node: u32) -> Result<Below, EntryTypeErr>
    requires graph { IsGraph inference.now.nodes }
    requires node { node < length inference.now.nodes }
    ensures within { IfOk result (λ below. below.node < length inference.now.nodes) }
    ensures levels { IfOk result (λ below. Levels_are (Generally inference.now.nodes) node below.rank below.node) }
    ensures last { IfOk result (λ below. No_array (Generally inference.now.nodes) below.node) }
    ensures err { IfErr result (Because ⊥) }
{
    let mut below = Below { node, rank: 0 };
    for _ in 0..inference.nodes.len() {
        match array_of(general_type_at(inference, below.node)) {
            Some(rows) => match below.rank.checked_add(1) {
                Some(rank) => below = Below { node: rows, rank },
                None => return Err(EntryTypeErr::Memory),
            },
            None => return Ok(below),
        }
    }
    Err(EntryTypeErr::Memory)
}

/// Puts the type of a node behind others: a scalar, or an array of scalars. What is generalised has none, though i32 stands
/// for it where its type is asked for.
fn push_data(
    inference: &Inference<'_>,
    node: u32,
    types: &mut List<DataType>,
) -> Result<(), EntryTypeErr>
    requires graph { IsGraph inference.now.nodes }
    requires node { node < length inference.now.nodes }
    ensures ok { OnOk result (Pushed (Generally inference.now.nodes) node types.old types.new) }
    ensures err { IfErr result (Because (No_data (Generally inference.now.nodes) node)) }
{
    let below = match below_arrays(inference, node) {
        Ok(below) => below,
        Err(error) => return Err(error),
    };
    match scalar_of(general_type_at(inference, below.node)) {
        Some(elem) => match types.push(DataType {
            elem,
            rank: below.rank,
        }) {
            Ok(()) => Ok(()),
            Err(_) => Err(EntryTypeErr::Memory),
        },
        None => Err(EntryTypeErr::Outside),
    }
}

/// The types of a function's parameters, and the node of its result's type.
fn params_of(
    inference: &Inference<'_>,
    number: u32,
    params: &mut List<DataType>,
) -> Result<u32, EntryTypeErr>
    requires graph { IsGraph inference.now.nodes }
    requires number { number < length inference.now.nodes }
    requires none { params.old ≡ [] }
    ensures within { IfOk result (λ node. node < length inference.now.nodes) }
    ensures ok { IfOk result (λ node. Parameters_are (Generally inference.now.nodes) number params.new node) }
    ensures result { IfOk result (No_function (Generally inference.now.nodes)) }
    ensures err { IfErr result (Because (No_entry_type (Generally inference.now.nodes) number)) }
{
    let mut node = number;
    for _ in 0..inference.nodes.len() {
        match function_of(general_type_at(inference, node)) {
            Some(first) => match push_data(inference, first, params) {
                Ok(()) => node = first + 1,
                Err(error) => return Err(error),
            },
            None => return Ok(node),
        }
    }
    Err(EntryTypeErr::Memory)
}

/// The types of so many nodes in a row.
fn row_of(
    inference: &Inference<'_>,
    first: u32,
    count: u32,
    types: &mut List<DataType>,
) -> Result<(), EntryTypeErr>
    requires graph { IsGraph inference.now.nodes }
    requires within { first + count ≤ length inference.now.nodes }
    requires none { types.old ≡ [] }
    ensures ok { OnOk result (Row_is (Generally inference.now.nodes) first count types.new) }
    ensures err { IfErr result (Because (No_row_of_data (Generally inference.now.nodes) first count)) }
{
    for at in 0..count {
        match push_data(inference, first + at, types) {
            Ok(()) => {}
            Err(error) => return Err(error),
        }
    }
    Ok(())
}

/// The types of a result, and whether it is a tuple.
fn results_of(
    inference: &Inference<'_>,
    node: u32,
    results: &mut List<DataType>,
) -> Result<bool, EntryTypeErr>
    requires graph { IsGraph inference.now.nodes }
    requires node { node < length inference.now.nodes }
    requires none { results.old ≡ [] }
    ensures ok { IfOk result (λ tuple. Results_at (Generally inference.now.nodes) node tuple results.new) }
    ensures err { IfErr result (Because (No_results (Generally inference.now.nodes) node)) }
{
    match tuple_of(general_type_at(inference, node)) {
        Some((first, count)) => {
            if count < 2 {
                return Err(EntryTypeErr::Outside);
            }
            match row_of(inference, first, count, results) {
                Ok(()) => Ok(true),
                Err(error) => Err(error),
            }
        }
        None => match push_data(inference, node, results) {
            Ok(()) => Ok(false),
            Err(error) => Err(error),
        },
    }
}

/// The type of a node, as one from which a run may begin.
fn entry_type_of(
    alloc: Global,
    inference: &Inference<'_>,
    number: u32,
) -> Result<EntryType, EntryTypeErr>
    requires graph { IsGraph inference.now.nodes }
    requires number { number < length inference.now.nodes }
    ensures ok { IfOk result (λ entry. Type_is (Generally inference.now.nodes) number entry.params entry.tuple entry.results) }
    ensures err { IfErr result (Because (No_entry_type (Generally inference.now.nodes) number)) }
{
    let mut params = List::new(alloc);
    let mut results = List::new(alloc);
    match params_of(inference, number, &mut params) {
        Ok(node) => match results_of(inference, node, &mut results) {
            Ok(tuple) => Ok(EntryType {
                params,
                tuple,
                results,
            }),
            Err(error) => Err(error),
        },
        Err(error) => Err(error),
    }
}

/// The number of the name of a definition: those before it have as many. The cost is linear.
pub fn number_of_name(alloc: Global, flat: &Flat<'_>, at: usize) -> Result<u32, EntryTypeErr>
    requires { at < length flat.now.definitions.now }
    ensures ok { IfOk result (λ number. number ≡ number_of flat.now at) }
    ensures err { IfErr result (Because ⊥) }
{
    let before = Flat {
        definitions: &flat.definitions[..at],
        names: flat.names,
    };
    match homes(alloc, &before) {
        Ok(homes) => {
            if homes.len() >= 4294967296 {
                return Err(EntryTypeErr::Memory);
            }
            Ok(homes.len() as u32)
        }
        Err(_) => Err(EntryTypeErr::Memory),
    }
}

/// Whether type parameters are written.
fn has_types(heads: &[Head]) -> bool
    ensures { result ≡ has_types (parameters heads.now) }
{
    let mut left = heads;
    while let [head, rest @ ..] = left {
        if let HeadForm::Var { .. } = head.form {
            return true;
        }
        left = rest;
    }
    false
}

/// The type of a definition, `at` in the row of definitions, as one from which a run may begin: it has no written type
/// parameters, and in each typing that the graph shows it is used at this type and at no other. The cost is linear.
pub fn entry_type(
    alloc: Global,
    flat: &Flat<'_>,
    inference: &Inference<'_>,
    at: usize,
) -> Result<EntryType, EntryTypeErr>
    requires infers { Infers (program_of flat.now) inference.now }
    requires built { Is_built flat.now }
    requires at { at < length flat.now.definitions.now }
    ensures ok { IfOk result (λ entry. May_be_used flat.now inference.now at entry.params entry.tuple entry.results) }
    ensures unwritten { IfOk result (λ entry. Is_unwritten flat.now at) }
    ensures within { IfOk result (λ entry. Is_outside flat.now inference.now at → ⊥) }
    ensures outside { IfErr result (Because (Is_outside flat.now inference.now at)) }
{
    if has_types(flat.definitions[at].heads) {
        return Err(EntryTypeErr::Outside);
    }
    match number_of_name(alloc, flat, at) {
        Ok(number) => entry_type_of(alloc, inference, number),
        Err(error) => Err(error),
    }
}
