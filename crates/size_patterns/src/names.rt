// The names of patterns, and those of sizes.
ghost use Rattle.std.specs.Prelude.{◌≡◌, ◌++◌, map, IfOk, OnOk};
ghost use Rattle.fut_flat.specs.Erased.{parameters, pattern_of, patterns};
ghost use Rattle.fut_sizes.specs.Functions.{size_names};
ghost use Rattle.fut_sizes.specs.Scopes.{all_names, names};
ghost use Rattle.fut_sizes.specs.Sizing.{all_part_names, bind_ids, part_names};
ghost use Rattle.flat_numbers.specs.Fields.{field_patterns};

use bumpalo::Bump;
use bumpalo::collections::into_bump_slice;
use fut_flat::{Head, HeadForm, Pat, PatField, PatForm};
use fut_scalar::{BindId, NoMemory};

/// Puts the names that a pattern binds behind others.
#[cycle(names)]
#[tactic(auto, using(crate::proofs::NameForms::puts))]
fn put_names<'a>(pat: &Pat<'_>, made: &mut Vec<u32, &'a Bump>) -> Result<(), NoMemory>
    ensures { OnOk result (made.new.items ≡ made.old.items ++ names (pattern_of pat.now)) }
{
    match pat.form {
        PatForm::Bound(bind) => {
            made.push(bind.0)?;
            Ok(())
        }
        PatForm::Wild => Ok(()),
        PatForm::Tuple(parts) => put_all_names(parts, made),
        PatForm::Record(fields) => put_field_names(fields, made),
        PatForm::Typed(inner, _) => put_names(inner, made),
    }
}

#[cycle(names)]
#[tactic(auto, using(crate::proofs::NameForms::all_puts))]
fn put_all_names<'a>(parts: &[Pat<'_>], made: &mut Vec<u32, &'a Bump>) -> Result<(), NoMemory>
    ensures { OnOk result (made.new.items ≡ made.old.items ++ all_names (patterns (map pattern_of parts.now))) }
{
    for part in parts {
        put_names(part, made)?;
    }
    Ok(())
}

#[cycle(names)]
#[tactic(auto, using(crate::proofs::NameForms::all_puts))]
fn put_field_names<'a>(
    fields: &[PatField<'_>],
    made: &mut Vec<u32, &'a Bump>,
) -> Result<(), NoMemory>
    ensures { OnOk result (made.new.items ≡ made.old.items ++ all_names (field_patterns fields.now)) }
{
    for field in fields {
        put_names(&field.pat, made)?;
    }
    Ok(())
}

/// The names that a pattern binds, as they are read.
pub fn pattern_names<'a>(pat: &Pat<'_>, bump: &'a Bump) -> Result<&'a [u32], NoMemory>
    ensures { IfOk result (λ made. made.now ≡ names (pattern_of pat.now)) }
{
    let mut made = Vec::new(bump);
    put_names(pat, &mut made)?;
    Ok(into_bump_slice(made))
}

/// Puts the numbers of size names behind others.
#[tactic(auto, using(crate::proofs::NameForms::binds))]
fn put_binds<'a>(sizes: &[BindId], made: &mut Vec<u32, &'a Bump>) -> Result<(), NoMemory>
    ensures { OnOk result (made.new.items ≡ made.old.items ++ bind_ids sizes.now) }
{
    for size in sizes {
        made.push(size.0)?;
    }
    Ok(())
}

/// The names that a `let` or a loop binds: those of its pattern, then its size names.
pub fn bound_names<'a>(
    pat: &Pat<'_>,
    sizes: &[BindId],
    bump: &'a Bump,
) -> Result<&'a [u32], NoMemory>
    ensures { IfOk result (λ made. made.now ≡ names (pattern_of pat.now) ++ bind_ids sizes.now) }
{
    let mut made = Vec::new(bump);
    put_names(pat, &mut made)?;
    put_binds(sizes, &mut made)?;
    Ok(into_bump_slice(made))
}

/// The numbers of size names.
pub(crate) fn bind_numbers<'a>(sizes: &[BindId], bump: &'a Bump) -> Result<&'a [u32], NoMemory>
    ensures { IfOk result (λ made. made.now ≡ bind_ids sizes.now) }
{
    let mut made = Vec::new(bump);
    put_binds(sizes, &mut made)?;
    Ok(into_bump_slice(made))
}

/// Puts the names of a parameter that are parts of its argument behind others.
#[tactic(auto, using(crate::proofs::NameForms::puts_part_names))]
fn put_part_names<'a>(pat: &Pat<'_>, made: &mut Vec<u32, &'a Bump>) -> Result<(), NoMemory>
    ensures { OnOk result (made.new.items ≡ made.old.items ++ part_names (pattern_of pat.now)) }
{
    match pat.form {
        PatForm::Bound(_) => Ok(()),
        PatForm::Wild => Ok(()),
        PatForm::Tuple(parts) => put_all_names(parts, made),
        PatForm::Record(fields) => put_field_names(fields, made),
        PatForm::Typed(inner, _) => put_part_names(inner, made),
    }
}

/// The names of parameters that are parts of their arguments: all but that of a parameter which is a name alone.
#[tactic(auto, using(crate::proofs::NameForms::all_part_puts))]
pub fn part_names<'a>(parameters: &[Pat<'_>], bump: &'a Bump) -> Result<&'a [u32], NoMemory>
    ensures { IfOk result (λ made. made.now ≡ all_part_names (patterns (map pattern_of parameters.now))) }
{
    let mut made = Vec::new(bump);
    for parameter in parameters {
        put_part_names(parameter, &mut made)?;
    }
    Ok(into_bump_slice(made))
}

/// The size names among the parameters of a definition's head.
#[tactic(auto, using(crate::proofs::NameForms::head_puts))]
pub fn head_names<'a>(heads: &[Head], bump: &'a Bump) -> Result<&'a [u32], NoMemory>
    ensures { IfOk result (λ made. made.now ≡ size_names (parameters heads.now)) }
{
    let mut made = Vec::new(bump);
    for head in heads {
        match head.form {
            HeadForm::Size(bind) => made.push(bind.0)?,
            HeadForm::Var { .. } => {}
        }
    }
    Ok(into_bump_slice(made))
}
