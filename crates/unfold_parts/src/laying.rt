// Data in components.
ghost use Rattle.std.specs.Prelude.{map};
ghost use Rattle.unfold.specs.Held.{field_of, fields_known, known_of};
ghost use Rattle.unfold.specs.Knowns.{knowns};
ghost use Rattle.unfold_parts.specs.Layouts.{All_laid_behind, Fields_laid_behind, Laid_behind, Laid_to, Put, field_shapes_of, shape_of, shapes_of};

use crate::refusal::Refusal;
use bumpalo::Bump;
use bumpalo::collections::into_bump_slice;
use fut_blocks::Atom;
use unfold::{Field, Known, KnownForm};

/// How deep data may lie in other data.
pub const MOST_DEEP: u32 = 1_000;

/// How many parts data may have, with the parts of its parts: shared ones count each time.
pub const MOST_PARTS: u32 = 1_048_576;

// The components so far, and room for so many parts.
#[derive(Drop)]
struct Laying<'a> {
    room: u32,
    atoms: Vec<Atom, &'a Bump>,
}

/// The components of data, which has to be of the same shape as `like`.
pub fn lay<'a>(bump: &'a Bump, like: Known<'a>, known: Known<'a>) -> Result<&'a [Atom], Refusal>
    ensures { Laid_to (shape_of (known_of like.entry)) (known_of known.entry) result }
{
    let atoms = Vec::new(bump);
    let mut laying = Laying {
        room: MOST_PARTS,
        atoms,
    };
    match lay_behind(&mut laying, 0, &like, &known) {
        Ok(()) => Ok(into_bump_slice(laying.atoms)),
        Err(refusal) => Err(refusal),
    }
}

// Puts the components behind those before.
#[cycle(lay)]
fn lay_behind<'a>(
    laying: &mut Laying<'a>,
    deep: u32,
    like: &Known<'a>,
    known: &Known<'a>,
) -> Result<(), Refusal>
    ensures { Laid_behind (shape_of (known_of like.now)) (known_of known.now) laying.old.atoms.items laying.new.atoms.items result }
{
    if deep >= MOST_DEEP {
        return Err(Refusal::Memory);
    }
    if laying.room == 0 {
        return Err(Refusal::Memory);
    }
    laying.room -= 1;
    match like.form {
        KnownForm::Tuple(likes) => match known.form {
            KnownForm::Tuple(parts) => lay_all(laying, deep + 1, likes, parts),
            _ => Err(Refusal::Lost),
        },
        KnownForm::Record(likes) => match known.form {
            KnownForm::Record(fields) => lay_fields(laying, deep + 1, likes, fields),
            _ => Err(Refusal::Lost),
        },
        _ => match known.form {
            KnownForm::Scalar(atom) => put(laying, atom),
            _ => Err(Refusal::Lost),
        },
    }
}

#[cycle(lay)]
fn lay_all<'a>(
    laying: &mut Laying<'a>,
    deep: u32,
    likes: &'a [Known<'a>],
    parts: &'a [Known<'a>],
) -> Result<(), Refusal>
    ensures { All_laid_behind (shapes_of (knowns (map known_of likes.now))) (knowns (map known_of parts.now)) laying.old.atoms.items laying.new.atoms.items result }
{
    if likes.len() != parts.len() {
        return Err(Refusal::Lost);
    }
    let mut at = 0;
    for like in likes {
        match lay_behind(laying, deep, like, &parts[at]) {
            Ok(()) => {}
            Err(refusal) => return Err(refusal),
        }
        at += 1;
    }
    Ok(())
}

#[cycle(lay)]
fn lay_fields<'a>(
    laying: &mut Laying<'a>,
    deep: u32,
    likes: &'a [Field<'a>],
    fields: &'a [Field<'a>],
) -> Result<(), Refusal>
    ensures { Fields_laid_behind (field_shapes_of (fields_known (map field_of likes.now))) (fields_known (map field_of fields.now)) laying.old.atoms.items laying.new.atoms.items result }
{
    if likes.len() != fields.len() {
        return Err(Refusal::Lost);
    }
    let mut at = 0;
    for like in likes {
        if like.name == fields[at].name {
            match lay_behind(laying, deep, &like.known, &fields[at].known) {
                Ok(()) => {}
                Err(refusal) => return Err(refusal),
            }
            at += 1;
        } else {
            return Err(Refusal::Lost);
        }
    }
    Ok(())
}

fn put<'a>(laying: &mut Laying<'a>, atom: Atom) -> Result<(), Refusal>
    ensures { Put atom laying.old.atoms.items laying.new.atoms.items result }
{
    match laying.atoms.push(atom) {
        Ok(()) => Ok(()),
        Err(_) => Err(Refusal::Memory),
    }
}
