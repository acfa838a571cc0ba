// Records that hold functions.
ghost use Rattle.std.specs.Prelude.{◌≡◌, Some, map};
ghost use Rattle.fut_flat.specs.Erased.{texts};
ghost use Rattle.fut_meaning.specs.Knowns.{known_field_of, known_record};
ghost use Rattle.unfold_measure.specs.Held.{known_of, maybe_known, named};
ghost use Rattle.unfold_measure.specs.Answers.{Known_to};

use crate::known::{Known, KnownForm, all_data, held, known_data};
use crate::lists::name_of;
use crate::stop::Stop;
use bumpalo::Bump;

/// What is known of a field.
pub fn field_known<'a>(names: &[&str], parts: &[Known<'a>], name: &str) -> Option<Known<'a>>
    ensures { maybe_known result ≡ known_field_of name.now (named (texts names.now) (map known_of parts.now)) }
{
    let mut at = 0;
    for known in parts {
        if name_of(names, at) == name {
            return Some(*known);
        }
        at += 1;
    }
    None
}

/// A record with these fields, which is data where each is.
pub fn known_record<'a>(
    bump: &'a Bump,
    names: &'a [&'a str],
    parts: &'a [Known<'a>],
) -> Result<Known<'a>, Stop>
    ensures { Known_to (Some (known_record (named (texts names.now) (map known_of parts.now)))) result }
{
    if all_data(parts) {
        Ok(known_data())
    } else {
        held(bump, KnownForm::Record(names, parts))
    }
}
