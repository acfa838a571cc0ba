// Whether data is equal.
ghost use Rattle.std.specs.Prelude.{map};
ghost use Rattle.unfold.specs.Held.{field_of, known_of};
ghost use Rattle.unfold.specs.Knowns.{knowns};
ghost use Rattle.unfold_parts.specs.Answers.{All_equal_to, All_hold, Answered, Equal_to, Names_told, Paired_to, Records_paired, Tuples_paired, Whole_equal_to};
ghost use Rattle.unfold_parts.specs.States.{steps_of};

use crate::laying::MOST_DEEP;
use crate::packing::{pack, parts_of};
use crate::refusal::Refusal;
use crate::steps::Unfolding;
use bumpalo::Bump;
use bumpalo::collections::into_bump_slice;
use fut_blocks::{Atom, Operation};
use fut_scalar::{BinOp, Place, Scalar};
use unfold::{Field, Known, KnownForm};

/// The parts of two tuples, or of two records with the same fields.
#[derive(Clone, Copy)]
struct Pair<'a> {
    lefts: &'a [Known<'a>],
    rights: &'a [Known<'a>],
}

/// Whether data is equal: the comparisons of all parts, each of which has to hold, and where one of both has no known parts
/// the comparison of whole data. It lies inside `deep` others, and there is room for so many parts.
#[cycle(equal)]
pub fn equal<'a>(
    work: &mut Unfolding<'a>,
    room: &mut u32,
    deep: u32,
    place: Place,
    left: &Known<'a>,
    right: &Known<'a>,
) -> Result<Atom, Refusal>
    ensures { Equal_to place (known_of left.now) (known_of right.now) work.old.next (steps_of work.old) (steps_of work.new) work.new.next result }
{
    if deep >= MOST_DEEP {
        return Err(Refusal::Memory);
    }
    if *room == 0 {
        return Err(Refusal::Memory);
    }
    *room -= 1;
    match paired(work.bump, left, right) {
        Ok(Some(pair)) => equal_all(work, room, deep + 1, place, pair.lefts, pair.rights),
        Ok(None) => equal_whole(work, place, left, right),
        Err(refusal) => Err(refusal),
    }
}

// Whether all parts are equal: all comparisons come first.
#[cycle(equal)]
fn equal_all<'a>(
    work: &mut Unfolding<'a>,
    room: &mut u32,
    deep: u32,
    place: Place,
    lefts: &'a [Known<'a>],
    rights: &'a [Known<'a>],
) -> Result<Atom, Refusal>
    ensures { All_equal_to place (knowns (map known_of lefts.now)) (knowns (map known_of rights.now)) work.old.next (steps_of work.old) (steps_of work.new) work.new.next result }
{
    if lefts.len() != rights.len() {
        return Err(Refusal::Lost);
    }
    let mut truths = Vec::new(work.bump);
    let mut at = 0;
    for left in lefts {
        let truth = match equal(work, room, deep, place, left, &rights[at]) {
            Ok(truth) => truth,
            Err(refusal) => return Err(refusal),
        };
        match truths.push(truth) {
            Ok(()) => {}
            Err(_) => return Err(Refusal::Memory),
        }
        at += 1;
    }
    all_hold(work, into_bump_slice(truths))
}

// The comparison of both as whole data.
fn equal_whole<'a>(
    work: &mut Unfolding<'a>,
    place: Place,
    left: &Known<'a>,
    right: &Known<'a>,
) -> Result<Atom, Refusal>
    ensures { Whole_equal_to place (known_of left.now) (known_of right.now) work.old.next (steps_of work.old) (steps_of work.new) work.new.next result }
{
    let first = match pack(work, left) {
        Ok(first) => first,
        Err(refusal) => return Err(refusal),
    };
    let second = match pack(work, right) {
        Ok(second) => second,
        Err(refusal) => return Err(refusal),
    };
    work.compute(Operation::Binary(BinOp::Eq, place, first, second))
}

// The parts of both, where they are tuples of as many parts, or records with the same fields.
fn paired<'a>(
    bump: &'a Bump,
    left: &Known<'a>,
    right: &Known<'a>,
) -> Result<Option<Pair<'a>>, Refusal>
    ensures { Paired_to (known_of left.now) (known_of right.now) result }
{
    match left.form {
        KnownForm::Tuple(lefts) => match right.form {
            KnownForm::Tuple(rights) => Ok(tuples_paired(lefts, rights)),
            _ => Ok(None),
        },
        KnownForm::Record(lefts) => match right.form {
            KnownForm::Record(rights) => records_paired(bump, lefts, rights),
            _ => Ok(None),
        },
        _ => Ok(None),
    }
}

fn tuples_paired<'a>(lefts: &'a [Known<'a>], rights: &'a [Known<'a>]) -> Option<Pair<'a>>
    ensures { Tuples_paired (map known_of lefts.now) (map known_of rights.now) result }
{
    if lefts.len() == rights.len() {
        Some(Pair { lefts, rights })
    } else {
        None
    }
}

fn records_paired<'a>(
    bump: &'a Bump,
    lefts: &'a [Field<'a>],
    rights: &'a [Field<'a>],
) -> Result<Option<Pair<'a>>, Refusal>
    ensures { Records_paired (map field_of lefts.now) (map field_of rights.now) result }
{
    if !same_names(lefts, rights) {
        return Ok(None);
    }
    let lefts = match parts_of(bump, lefts) {
        Ok(lefts) => lefts,
        Err(refusal) => return Err(refusal),
    };
    match parts_of(bump, rights) {
        Ok(rights) => Ok(Some(Pair { lefts, rights })),
        Err(refusal) => Err(refusal),
    }
}

// Whether two records have fields of the same names.
fn same_names<'a>(lefts: &'a [Field<'a>], rights: &'a [Field<'a>]) -> bool
    ensures { Names_told (map field_of lefts.now) (map field_of rights.now) result }
{
    if lefts.len() != rights.len() {
        return false;
    }
    let mut at = 0;
    for left in lefts {
        if left.name == rights[at].name {
            at += 1;
        } else {
            return false;
        }
    }
    true
}

// Whether all hold.
fn all_hold<'a>(work: &mut Unfolding<'a>, truths: &'a [Atom]) -> Result<Atom, Refusal>
    ensures { Answered (All_hold truths.now work.old.next) ⊥ (steps_of work.old) (steps_of work.new) work.new.next result }
{
    let mut all = Atom::Constant(Scalar::Bool(true));
    let mut at = truths.len();
    while at > 0 {
        at -= 1;
        all = match work.both_hold(truths[at], all) {
            Ok(both) => both,
            Err(refusal) => return Err(refusal),
        };
    }
    Ok(all)
}
