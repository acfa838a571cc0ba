// The names of patterns.
ghost use Rattle.std.specs.Prelude.{◌≡◌, IfOk, IfErr, length, map, true};
ghost use Rattle.fut_flat.specs.Erased.{pattern_of, patterns};
ghost use Rattle.fut_flat.specs.Terms.{Record_pattern, Tuple_pattern};
ghost use Rattle.unfold_measure.specs.Patterns.{field_names, field_patterns, has_fields, has_parts, one_of, part_at};
ghost use Rattle.unfold_measure.specs.declared.stop.Stop.TheVariants as stop;
ghost use Rattle.fut_meaning.specs.Knowns.{data_bound, known_bound};
ghost use Rattle.unfold_measure.specs.Held.{known_of, knowns, scope_of};
ghost use Rattle.unfold_measure.specs.Answers.{Bound_to};

use crate::known::{Known, KnownForm, Scope, known_data};
use crate::operations::part_of;
use crate::scope::bound;
use crate::stop::Stop;
use bumpalo::Bump;
use fut_flat::{Pat, PatField, PatForm};

/// The names with those of a pattern of data.
pub fn bind_data<'a>(
    bump: &'a Bump,
    pat: &Pat<'_>,
    scope: &'a Scope<'a>,
) -> Result<&'a Scope<'a>, Stop>
    ensures ok { IfOk result (λ inner. scope_of inner.now ≡ data_bound (pattern_of pat.now) (scope_of scope.now)) }
    ensures err { IfErr result (λ e. e ≡ stop.Memory) }
{
    bind(bump, pat, known_data(), scope)
}

// Whether a value is a tuple of so many parts, or data.
fn has_parts(known: Known<'_>, count: usize) -> bool
    ensures { result ≡ has_parts count (known_of known.entry) }
{
    match *known.form {
        KnownForm::Data => true,
        KnownForm::Tuple(parts) => parts.len() == count,
        _ => false,
    }
}

// Whether a value is a record, or data.
fn has_fields(known: Known<'_>) -> bool
    ensures { result ≡ has_fields (known_of known.entry) }
{
    match *known.form {
        KnownForm::Data => true,
        KnownForm::Record(_, _) => true,
        _ => false,
    }
}

// One of several parts.
fn one_of<'a>(parts: &'a [Known<'a>], at: usize) -> Known<'a>
    ensures { known_of result ≡ one_of at (knowns (map known_of parts.now)) }
{
    if at < parts.len() {
        let part = &parts[at];
        *part
    } else {
        known_data()
    }
}

// A part of a tuple, or of data.
fn part_at<'a>(known: Known<'a>, at: usize) -> Known<'a>
    ensures { known_of result ≡ part_at at (known_of known.entry) }
{
    match *known.form {
        KnownForm::Tuple(parts) => one_of(parts, at),
        _ => known_data(),
    }
}

/// The names so far.
#[derive(Clone, Copy)]
struct Names<'a> {
    scope: &'a Scope<'a>,
}

/// The names with those of a pattern, and what is known of the parts of the value.
#[cycle(known)]
pub fn bind<'a>(
    bump: &'a Bump,
    pat: &Pat<'_>,
    known: Known<'a>,
    scope: &'a Scope<'a>,
) -> Result<&'a Scope<'a>, Stop>
    ensures { Bound_to (known_bound (pattern_of pat.now) (known_of known.entry) (scope_of scope.now)) result }
{
    match pat.form {
        PatForm::Bound(number) => bound(bump, number, known, scope),
        PatForm::Wild => Ok(scope),
        PatForm::Tuple(parts) => {
            if has_parts(known, parts.len()) {
                bind_all(bump, parts, known, scope)
            } else {
                Err(Stop::Lost)
            }
        }
        PatForm::Record(fields) => {
            if has_fields(known) {
                bind_fields(bump, fields, known, scope)
            } else {
                Err(Stop::Lost)
            }
        }
        PatForm::Typed(inner, _) => bind(bump, inner, known, scope),
    }
}

#[cycle(known)]
fn bind_all<'a>(
    bump: &'a Bump,
    parts: &[Pat<'_>],
    known: Known<'a>,
    scope: &'a Scope<'a>,
) -> Result<&'a Scope<'a>, Stop>
    requires parts { has_parts (length parts.now) (known_of known) ≡ true }
    ensures { Bound_to (known_bound (Tuple_pattern (patterns (map pattern_of parts.now))) (known_of known.entry) (scope_of scope.now)) result }
{
    let mut names = Names { scope };
    let mut at = 0;
    for part in parts {
        names = match bind(bump, part, part_at(known, at), names.scope) {
            Ok(scope) => Names { scope },
            Err(stop) => return Err(stop),
        };
        at += 1;
    }
    Ok(names.scope)
}

#[cycle(known)]
fn bind_fields<'a>(
    bump: &'a Bump,
    fields: &[PatField<'_>],
    known: Known<'a>,
    scope: &'a Scope<'a>,
) -> Result<&'a Scope<'a>, Stop>
    requires fields { has_fields (known_of known) ≡ true }
    ensures { Bound_to (known_bound (Record_pattern (field_names fields.now) (field_patterns fields.now)) (known_of known.entry) (scope_of scope.now)) result }
{
    let mut names = Names { scope };
    for field in fields {
        let part = match part_of(known, field.name) {
            Ok(part) => part,
            Err(stop) => return Err(stop),
        };
        names = match bind(bump, &field.pat, part, names.scope) {
            Ok(scope) => Names { scope },
            Err(stop) => return Err(stop),
        };
    }
    Ok(names.scope)
}
