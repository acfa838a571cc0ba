// What is said of a refusal: sizes as they stand in the source, and places.
ghost use Rattle.std.specs.Prelude.{◌≡◌, Some, IfOk, slice_get};
ghost use Rattle.fut_flat.specs.Erased.{texts};
ghost use Rattle.flat_numbers.specs.Places.{program_places};
ghost use Rattle.size_arena.specs.Answers.{refusal_of};
ghost use Rattle.size_arena.specs.Trees.{dim_of};
ghost use Rattle.sized_programs.specs.Misfits.{Tells, Told, is_written, name_shown, size_shown};

use crate::misfit::{Misfit, Shown};
use flat_numbers::places;
use fut_flat::Flat;
use fut_scalar::{Name, NoMemory, Place};
use size_arena::{Dim, Free, Refusal};
use std::alloc::Global;

/// Whether a name stands in the source.
fn is_written(text: &str) -> bool
    ensures { result ≡ is_written text.now }
{
    let bytes = text.as_bytes();
    if bytes.len() == 0 {
        return false;
    }
    bytes[0] != b' '
}

/// A bound name as it is shown.
fn name_shown(alloc: Global, flat: &Flat<'_>, name: u32) -> Result<Shown, NoMemory>
    ensures { IfOk result (λ shown. name_shown (slice_get (texts flat.now.names.now) name) ≡ Some shown) }
{
    match flat.names.get(name as usize) {
        Some(text) => {
            if !is_written(text) {
                return Ok(Shown::Unknown);
            }
            let owned = Name::new(alloc, text)?;
            Ok(Shown::Named(owned))
        }
        None => Err(NoMemory),
    }
}

/// A size as it is shown.
fn size_shown(alloc: Global, flat: &Flat<'_>, size: Dim) -> Result<Shown, NoMemory>
    ensures { IfOk result (λ shown. size_shown (texts flat.now.names.now) (dim_of size) ≡ Some shown) }
{
    match size {
        Dim::At(Free::Const(number)) => Ok(Shown::Number(number)),
        Dim::At(Free::Name(name)) => name_shown(alloc, flat, name),
        Dim::At(Free::Own(_, _)) => Ok(Shown::Unknown),
        Dim::At(Free::Unknown(_, _)) => Ok(Shown::Unknown),
        Dim::At(Free::Slot(_)) => Ok(Shown::Unknown),
        Dim::Bound(_, _) => Ok(Shown::Unknown),
    }
}

/// Where a node stands.
fn place_of(places: &[Place], node: u32) -> Result<Place, NoMemory>
    ensures { IfOk result (λ place. slice_get places.now node ≡ Some place) }
{
    match places.get(node as usize) {
        Some(place) => Ok(*place),
        None => Err(NoMemory),
    }
}

/// A refusal with its sizes as they stand in the source and its place.
fn told(
    alloc: Global,
    flat: &Flat<'_>,
    places: &[Place],
    refusal: Refusal,
) -> Result<Misfit, NoMemory>
    ensures { IfOk result (Tells (texts flat.now.names.now) places.now (refusal_of refusal)) }
{
    match refusal {
        Refusal::Mismatch(node, wanted, found) => {
            let at = place_of(places, node)?;
            let left = size_shown(alloc, flat, wanted)?;
            let right = size_shown(alloc, flat, found)?;
            Ok(Misfit::SizesDiffer { left, right, at })
        }
        Refusal::Escapes(node) => {
            let at = place_of(places, node)?;
            Ok(Misfit::Escapes { at })
        }
        Refusal::Irregular(node) => {
            let at = place_of(places, node)?;
            Ok(Misfit::Irregular { at })
        }
    }
}

/// What is said of a refusal, if there is memory for it.
pub fn misfit_of(alloc: Global, flat: &Flat<'_>, refusal: Refusal) -> Misfit
    ensures { Told (texts flat.now.names.now) (program_places flat.now.definitions.now) (refusal_of refusal) result }
{
    let Ok(places) = places(alloc, flat) else {
        return Misfit::Memory;
    };
    match told(alloc, flat, places.as_slice(), refusal) {
        Ok(misfit) => misfit,
        Err(_) => Misfit::Memory,
    }
}
