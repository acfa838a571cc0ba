// What is known of names, as a map that is handed on.
ghost use Rattle.std.specs.Prelude.{◌≡◌, ℕ, ◌+◌, ◌*◌, None, IfOk};
ghost use Rattle.size_program.specs.Maps.{entry_of, forked, with_entry};

use bumpalo::Bump;
use fut_scalar::NoMemory;
use size_arena::SizeTree;

/// What is known of a name.
#[derive(Clone, Copy)]
pub struct Known<'a> {
    pub size: &'a SizeTree<'a>,
    /// Whether each use chooses what the type variables stand for.
    pub is_general: bool,
}

/// A map from the numbers of names. At a fork stands what is known of 0; an odd number is looked up by its half in the first
/// part, another by one less than its half in the second. A map with one name more shares all but a path with the one without.
#[derive(Clone, Copy)]
pub enum NumberMap<'a> {
    Empty,
    Fork(Option<&'a Known<'a>>, &'a NumberMap<'a>, &'a NumberMap<'a>),
}

/// A map that knows no name.
#[tactic(auto, using(crate::proofs::MapForms::maps))]
pub fn empty<'a>(bump: &'a Bump) -> Result<&'a NumberMap<'a>, NoMemory>
    ensures { IfOk result (λ made. (n : ℕ) → entry_of made.now n ≡ None) }
{
    match bump.try_alloc(NumberMap::Empty) {
        Ok(made) => Ok(made),
        Err(_) => Err(NoMemory),
    }
}

/// What is known of a name. It costs the logarithm of its number.
#[tactic(auto, using(crate::proofs::MapForms::finds))]
pub fn find<'a>(map: &NumberMap<'a>, number: u32) -> Option<&'a Known<'a>>
    ensures { result ≡ entry_of map.now number }
{
    match map {
        NumberMap::Empty => None,
        NumberMap::Fork(own, odd, even) => {
            if number == 0 {
                return *own;
            }
            if number % 2 == 1 {
                find(odd, number / 2)
            } else {
                find(even, number / 2 - 1)
            }
        }
    }
}

#[tactic(auto, using(crate::proofs::MapForms::maps))]
fn fork<'a>(
    bump: &'a Bump,
    own: Option<&'a Known<'a>>,
    odd: &'a NumberMap<'a>,
    even: &'a NumberMap<'a>,
) -> Result<&'a NumberMap<'a>, NoMemory>
    ensures { IfOk result (λ made. (n : ℕ) → entry_of made.now n ≡ forked own.entry (entry_of odd.now) (entry_of even.now) n) }
{
    match bump.try_alloc(NumberMap::Fork(own, odd, even)) {
        Ok(made) => Ok(made),
        Err(_) => Err(NoMemory),
    }
}

#[tactic(auto, using(crate::proofs::MapForms::parts))]
fn odd_part<'a>(map: &'a NumberMap<'a>) -> &'a NumberMap<'a>
    ensures { (n : ℕ) → entry_of result.now n ≡ entry_of map.now (2 * n + 1) }
{
    match map {
        NumberMap::Empty => map,
        NumberMap::Fork(_, odd, _) => *odd,
    }
}

#[tactic(auto, using(crate::proofs::MapForms::parts))]
fn even_part<'a>(map: &'a NumberMap<'a>) -> &'a NumberMap<'a>
    ensures { (n : ℕ) → entry_of result.now n ≡ entry_of map.now (2 * n + 2) }
{
    match map {
        NumberMap::Empty => map,
        NumberMap::Fork(_, _, even) => *even,
    }
}

/// The map that knows this of a name.
#[tactic(auto, using(crate::proofs::MapForms::entries))]
pub(crate) fn with_entry<'a>(
    bump: &'a Bump,
    number: u32,
    known: &'a Known<'a>,
    map: &'a NumberMap<'a>,
) -> Result<&'a NumberMap<'a>, NoMemory>
    ensures { IfOk result (λ made. (n : ℕ) → entry_of made.now n ≡ with_entry number known.entry (entry_of map.now) n) }
{
    let odd = odd_part(map);
    let even = even_part(map);
    if number == 0 {
        return fork(bump, Some(known), odd, even);
    }
    let own = find(map, 0);
    if number % 2 == 1 {
        let part = with_entry(bump, number / 2, known, odd)?;
        fork(bump, own, part, even)
    } else {
        let part = with_entry(bump, number / 2 - 1, known, even)?;
        fork(bump, own, odd, part)
    }
}
