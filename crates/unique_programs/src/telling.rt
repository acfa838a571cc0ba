// What is said of a rule that is broken: names as texts, and places.
ghost use Rattle.std.specs.Prelude.{◌≡◌, Some, IfOk, slice_get};
ghost use Rattle.fut_flat.specs.Erased.{texts};
ghost use Rattle.flat_numbers.specs.Places.{program_places};
ghost use Rattle.unique_programs.specs.Misuses.{Tells, Told, place_of, text_of};

use crate::misuse::Misuse;
use flat_numbers::places;
use fut_aliases::{Alias, Broken, Named, Spot};
use fut_flat::Flat;
use fut_primitives::line_of;
use fut_scalar::{BindId, Name, NoMemory, Place};
use std::alloc::Global;

/// The text of a bound name.
fn text_of_bound<'a>(flat: &Flat<'a>, bind: BindId) -> Result<&'a str, NoMemory>
    ensures { IfOk result (λ text. slice_get (texts flat.now.names.now) bind.0 ≡ Some text.now) }
{
    match flat.names.get(bind.0 as usize) {
        Some(text) => Ok(*text),
        None => Err(NoMemory),
    }
}

/// How a name stands in the source.
fn text_of<'a>(flat: &Flat<'a>, named: Named) -> Result<&'a str, NoMemory>
    ensures { IfOk result (λ text. text_of (texts flat.now.names.now) named ≡ Some text.now) }
{
    match named {
        Named::ByAlias(Alias::Part(_, _, bind)) => text_of_bound(flat, bind),
        Named::ByAlias(Alias::Own(_)) => Ok("result"),
        Named::ByName(bind) => text_of_bound(flat, bind),
        Named::ByPrimitive(primitive) => Ok(line_of(primitive).name),
        Named::AFunction => Ok("function"),
    }
}

/// The same text, owned.
fn name_of(alloc: Global, flat: &Flat<'_>, named: Named) -> Result<Name, NoMemory>
    ensures { IfOk result (λ name. text_of (texts flat.now.names.now) named ≡ Some name) }
{
    let text = text_of(flat, named)?;
    Name::new(alloc, text)
}

/// Where something happens.
fn place_of(places: &[Place], spot: Spot) -> Result<Place, NoMemory>
    ensures { IfOk result (λ place. place_of places.now spot ≡ Some place) }
{
    match spot {
        Spot::First(node) => match places.get(node as usize) {
            Some(place) => Ok(*place),
            None => Err(NoMemory),
        },
        Spot::Mark(place) => Ok(place),
    }
}

/// A rule that is broken, with its names as texts and its places.
fn told(alloc: Global, flat: &Flat<'_>, places: &[Place], rule: Broken) -> Result<Misuse, NoMemory>
    ensures { IfOk result (Tells (texts flat.now.names.now) places.now rule) }
{
    match rule {
        Broken::Consumed(named, at, used) => {
            let at = place_of(places, at)?;
            let used = place_of(places, used)?;
            let name = name_of(alloc, flat, named)?;
            Ok(Misuse::Consumed { name, at, used })
        }
        Broken::NotConsumable(named, at) => {
            let at = place_of(places, at)?;
            let name = name_of(alloc, flat, named)?;
            Ok(Misuse::NotConsumable { name, at })
        }
        Broken::Captured(named, at) => {
            let at = place_of(places, at)?;
            let name = name_of(alloc, flat, named)?;
            Ok(Misuse::Captured { name, at })
        }
        Broken::ResultAliases(named, at) => {
            let at = place_of(places, at)?;
            let name = name_of(alloc, flat, named)?;
            Ok(Misuse::ResultAliases { name, at })
        }
    }
}

/// What is said of a rule that is broken, if there is memory for it.
pub fn misuse_of(alloc: Global, flat: &Flat<'_>, rule: Broken) -> Misuse
    ensures { Told (texts flat.now.names.now) (program_places flat.now.definitions.now) rule result }
{
    let Ok(places) = places(alloc, flat) else {
        return Misuse::Memory;
    };
    match told(alloc, flat, places.as_slice(), rule) {
        Ok(misuse) => misuse,
        Err(_) => Misuse::Memory,
    }
}
