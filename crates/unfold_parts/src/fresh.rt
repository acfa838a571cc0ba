// New names for data.
ghost use Rattle.std.specs.Prelude.{◌≡◌, ◌-◌, IfErr, IfOk, map};
ghost use Rattle.unfold.specs.Held.{field_of, fields_known, known_of};
ghost use Rattle.unfold.specs.Knowns.{knowns};
ghost use Rattle.unfold.specs.Shapes.{All_laid, Fields_laid, Laid, Scalar_shape};
ghost use Rattle.unfold_parts.specs.Layouts.{Has_names, None_are, Renewed, field_shapes_of, numbers_from, shape_of, shapes_of};
ghost use Rattle.unfold_parts.specs.Refused.{Refused};
ghost use Rattle.unfold_parts.specs.declared.refusal.Refusal.TheVariants as refusal;
ghost use Rattle.unfold_parts.specs.States.{steps_of};

use crate::laying::{MOST_DEEP, MOST_PARTS};
use crate::refusal::Refusal;
use crate::steps::Unfolding;
use bumpalo::Bump;
use bumpalo::collections::into_bump_slice;
use fut_blocks::Atom;
use unfold::{Field, Known, KnownForm};

/// Data whose components are new names.
#[derive(Clone, Copy)]
pub struct Fresh<'a> {
    pub names: &'a [u32],
    pub known: Known<'a>,
}

// The next name, and room for so many parts.
#[derive(Clone, Copy)]
struct Naming<'a> {
    bump: &'a Bump,
    room: u32,
    next: u32,
}

impl<'a> Unfolding<'a> {
    /// Data of the same shape as `like`, whose components are new names.
    pub fn fresh(&mut self, like: Known<'a>) -> Result<Fresh<'a>, Refusal>
        ensures fresh { Renewed (known_of like.entry) self.old.next self.new.next result }
        ensures steps { steps_of self.new ≡ steps_of self.old }
    {
        let bump = self.bump;
        let first = self.next;
        let mut naming = Naming {
            bump,
            room: MOST_PARTS,
            next: first,
        };
        match rename(&mut naming, 0, &like) {
            Ok(known) => match names_between(bump, first, naming.next) {
                Ok(names) => {
                    self.next = naming.next;
                    Ok(Fresh { names, known })
                }
                Err(refusal) => Err(refusal),
            },
            Err(refusal) => Err(refusal),
        }
    }
}

// The names from one on, up to another.
#[tactic(auto, using(crate::proofs::Naming::number_more))]
fn names_between<'a>(bump: &'a Bump, first: u32, behind: u32) -> Result<&'a [u32], Refusal>
    ensures ok { IfOk result (λ names. names.now ≡ numbers_from first (behind - first)) }
    ensures err { IfErr result (λ r. r ≡ refusal.Memory) }
{
    let mut names = Vec::new(bump);
    for name in first..behind {
        match names.push(name) {
            Ok(()) => {}
            Err(_) => return Err(Refusal::Memory),
        }
    }
    Ok(into_bump_slice(names))
}

fn rename_scalar<'a>(naming: &mut Naming<'a>) -> Result<Known<'a>, Refusal>
    ensures ok { IfOk result (λ s. Has_names (Laid Scalar_shape (known_of s)) naming.old.next naming.new.next) }
    ensures err { IfErr result (λ r. r ≡ refusal.Memory) }
{
    let name = naming.next;
    match name.checked_add(1) {
        Some(next) => {
            naming.next = next;
            Ok(Known {
                form: KnownForm::Scalar(Atom::Name(name)),
            })
        }
        None => Err(Refusal::Memory),
    }
}

#[cycle(rename)]
fn rename<'a>(naming: &mut Naming<'a>, deep: u32, like: &Known<'a>) -> Result<Known<'a>, Refusal>
    ensures ok { IfOk result (λ s. Has_names (Laid (shape_of (known_of like.now)) (known_of s)) naming.old.next naming.new.next) }
    ensures err { IfErr result (Refused (None_are (Laid (shape_of (known_of like.now)) (known_of like.now)))) }
{
    if deep >= MOST_DEEP {
        return Err(Refusal::Memory);
    }
    if naming.room == 0 {
        return Err(Refusal::Memory);
    }
    naming.room -= 1;
    match like.form {
        KnownForm::Scalar(_) => rename_scalar(naming),
        KnownForm::Tuple(likes) => match rename_all(naming, deep + 1, likes) {
            Ok(parts) => Ok(Known {
                form: KnownForm::Tuple(parts),
            }),
            Err(refusal) => Err(refusal),
        },
        KnownForm::Record(likes) => match rename_fields(naming, deep + 1, likes) {
            Ok(fields) => Ok(Known {
                form: KnownForm::Record(fields),
            }),
            Err(refusal) => Err(refusal),
        },
        _ => Err(Refusal::Lost),
    }
}

#[cycle(rename)]
fn rename_all<'a>(
    naming: &mut Naming<'a>,
    deep: u32,
    likes: &'a [Known<'a>],
) -> Result<&'a [Known<'a>], Refusal>
    ensures ok { IfOk result (λ parts. Has_names (All_laid (shapes_of (knowns (map known_of likes.now))) (knowns (map known_of parts.now))) naming.old.next naming.new.next) }
    ensures err { IfErr result (Refused (None_are (All_laid (shapes_of (knowns (map known_of likes.now))) (knowns (map known_of likes.now))))) }
{
    let mut parts = Vec::new(naming.bump);
    for like in likes {
        let known = match rename(naming, deep, like) {
            Ok(known) => known,
            Err(refusal) => return Err(refusal),
        };
        match parts.push(known) {
            Ok(()) => {}
            Err(_) => return Err(Refusal::Memory),
        }
    }
    Ok(into_bump_slice(parts))
}

#[cycle(rename)]
fn rename_fields<'a>(
    naming: &mut Naming<'a>,
    deep: u32,
    likes: &'a [Field<'a>],
) -> Result<&'a [Field<'a>], Refusal>
    ensures ok { IfOk result (λ fields. Has_names (Fields_laid (field_shapes_of (fields_known (map field_of likes.now))) (fields_known (map field_of fields.now))) naming.old.next naming.new.next) }
    ensures err { IfErr result (Refused (None_are (Fields_laid (field_shapes_of (fields_known (map field_of likes.now))) (fields_known (map field_of likes.now))))) }
{
    let mut fields = Vec::new(naming.bump);
    for like in likes {
        let known = match rename(naming, deep, &like.known) {
            Ok(known) => known,
            Err(refusal) => return Err(refusal),
        };
        match fields.push(Field {
            name: like.name,
            known,
        }) {
            Ok(()) => {}
            Err(_) => return Err(Refusal::Memory),
        }
    }
    Ok(into_bump_slice(fields))
}
