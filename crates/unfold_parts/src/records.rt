// Records, their fields in order of their names.
ghost use Rattle.std.specs.Prelude.{◌≡◌, ◌<◌, IfErr, IfOk, IfSome, length, map};
ghost use Rattle.fut_flat.specs.Erased.{texts};
ghost use Rattle.unfold.specs.Held.{field_of, fields_known, known_of};
ghost use Rattle.unfold.specs.Knowns.{field, replaced};
ghost use Rattle.unfold_parts.specs.Held.{maybe_held};
ghost use Rattle.unfold_parts.specs.Parts.{Place_to, Recorded_to};
ghost use Rattle.unfold_parts.specs.declared.refusal.Refusal.TheVariants as refusal;

use crate::refusal::Refusal;
use bumpalo::Bump;
use bumpalo::collections::into_bump_slice;
use unfold::{Field, Known, KnownForm};

/// What is known of a field.
pub fn field_known<'a>(fields: &'a [Field<'a>], name: &str) -> Option<&'a Known<'a>>
    ensures { maybe_held result ≡ field name.now (fields_known (map field_of fields.now)) }
{
    for field in fields {
        if field.name == name {
            return Some(&field.known);
        }
    }
    None
}

/// A record of these parts, put in order by a stable sort.
pub fn record_of<'a>(
    bump: &'a Bump,
    names: &'a [&'a str],
    parts: &'a [Known<'a>],
) -> Result<Known<'a>, Refusal>
    ensures { Recorded_to (texts names.now) (map known_of parts.now) result }
{
    if names.len() != parts.len() {
        return Err(Refusal::Lost);
    }
    // from the last one on, since of fields of one name the last comes first
    let mut fields = Vec::new(bump);
    let mut at = parts.len();
    while at > 0 {
        at -= 1;
        let field = Field {
            name: names[at],
            known: parts[at],
        };
        match fields.push(field) {
            Ok(()) => {}
            Err(_) => return Err(Refusal::Memory),
        }
    }
    match fields.sort_by(|left, right| left.name.cmp(right.name)) {
        Ok(()) => Ok(Known {
            form: KnownForm::Record(into_bump_slice(fields)),
        }),
        Err(_) => Err(Refusal::Memory),
    }
}

// Where the first field of that name stands.
fn place_of(fields: &[Field<'_>], name: &str) -> Option<usize>
    ensures few { IfSome result (λ at. at < length fields.now) }
    ensures place { Place_to name.now fields.now result }
{
    let mut at = 0;
    for field in fields {
        if field.name == name {
            return Some(at);
        }
        at += 1;
    }
    None
}

/// The same fields, but for what is known of one. They stay where they are.
pub fn replaced<'a>(
    bump: &'a Bump,
    name: &str,
    known: &Known<'a>,
    fields: &'a [Field<'a>],
) -> Result<&'a [Field<'a>], Refusal>
    ensures ok { IfOk result (λ made. fields_known (map field_of made.now) ≡ replaced name.now (known_of known.now) (fields_known (map field_of fields.now))) }
    ensures err { IfErr result (λ r. r ≡ refusal.Memory) }
{
    let made = match bump.try_alloc_slice_copy(fields) {
        Ok(made) => made,
        Err(_) => return Err(Refusal::Memory),
    };
    match place_of(fields, name) {
        Some(at) => {
            made[at] = Field {
                name: fields[at].name,
                known: *known,
            };
            Ok(made)
        }
        None => Ok(made),
    }
}
