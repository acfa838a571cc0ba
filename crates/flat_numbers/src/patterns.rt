// The numbers of patterns.
ghost use Rattle.std.specs.Prelude.{◌≡◌, ◌+◌, IfOk, map};
ghost use Rattle.fut_flat.specs.Erased.{pattern_of, patterns};
ghost use Rattle.fut_flat.specs.Numbers.{all_pattern_numbers, pattern_numbers};
ghost use Rattle.flat_numbers.specs.Fields.{field_patterns};

use fut_flat::{Pat, PatField, PatForm};
use fut_scalar::NoMemory;

/// The number behind so many.
pub fn after(at: u32, count: u32) -> Result<u32, NoMemory>
    ensures { IfOk result (λ next. next ≡ at + count) }
{
    match at.checked_add(count) {
        Some(next) => Ok(next),
        None => Err(NoMemory),
    }
}

/// The number behind a pattern.
#[cycle(pattern)]
pub fn after_pattern(at: u32, pat: &Pat<'_>) -> Result<u32, NoMemory>
    ensures { IfOk result (λ next. next ≡ at + pattern_numbers (pattern_of pat.now)) }
{
    match pat.form {
        PatForm::Bound(_) => after(at, 1),
        PatForm::Wild => after(at, 1),
        PatForm::Tuple(parts) => {
            let first = after(at, 1)?;
            after_patterns(first, parts)
        }
        PatForm::Record(fields) => {
            let first = after(at, 1)?;
            after_fields(first, fields)
        }
        PatForm::Typed(inner, _) => after_pattern(at, inner),
    }
}

/// The number behind several patterns.
#[cycle(pattern)]
pub fn after_patterns(at: u32, parts: &[Pat<'_>]) -> Result<u32, NoMemory>
    ensures { IfOk result (λ next. next ≡ at + all_pattern_numbers (patterns (map pattern_of parts.now))) }
{
    let mut next = at;
    for part in parts {
        next = after_pattern(next, part)?;
    }
    Ok(next)
}

#[cycle(pattern)]
fn after_fields(at: u32, fields: &[PatField<'_>]) -> Result<u32, NoMemory>
    ensures { IfOk result (λ next. next ≡ at + all_pattern_numbers (field_patterns fields.now)) }
{
    let mut next = at;
    for field in fields {
        next = after_pattern(next, &field.pat)?;
    }
    Ok(next)
}
