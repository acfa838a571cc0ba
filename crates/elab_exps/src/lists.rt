// The expressions in lists of other parts, in the order in which they are evaluated.
ghost use Rattle.std.specs.Prelude.{◌≡◌, ◌++◌, [], ◌∷◌, IfErr, IfOk, OnOk, map};
ghost use Rattle.fut_tree.specs.Names.{all};
ghost use Rattle.fut_tree.specs.declared.exp.ExpField.{ExpField};
ghost use Rattle.elab_nodes.specs.Built.{Built0};
ghost use Rattle.elab_scopes.specs.declared.refusal.Stop.TheVariants as stop;
ghost use Rattle.elab_exps.specs.Lists.{all_exps, exps_of, maybe_exp, part_of};

use bumpalo::Bump;
use bumpalo::collections::into_bump_slice;
use elab_scopes::Stop;
use fut_flat as flat;
use fut_flat::Part;
use fut_tree::{Exp, ExpField, Held, Ix};

fn held_exps<'a>(
    exps: &[Held<'a, Exp<'a>>],
    bump: &'a Bump,
) -> Result<&'a [Held<'a, Exp<'a>>], Stop<'a>>
    ensures { Built0 (λ es. es.now ≡ exps.now) result }
{
    match bump.try_alloc_slice_copy(exps) {
        Ok(exps) => Ok(exps),
        Err(_) => Err(Stop::Memory),
    }
}

/// One expression.
pub fn one_exp<'a>(exp: &'a Exp<'a>, bump: &'a Bump) -> Result<&'a [Held<'a, Exp<'a>>], Stop<'a>>
    ensures { Built0 (λ es. all es.now ≡ exp.now ∷ []) result }
{
    held_exps(&[Held { at: exp }], bump)
}

/// Two expressions.
pub fn two_exps<'a>(
    first: &'a Exp<'a>,
    second: &'a Exp<'a>,
    bump: &'a Bump,
) -> Result<&'a [Held<'a, Exp<'a>>], Stop<'a>>
    ensures { Built0 (λ es. all es.now ≡ first.now ∷ second.now ∷ []) result }
{
    held_exps(&[Held { at: first }, Held { at: second }], bump)
}

/// The first element of a range, the second where it is written, and the end.
pub fn range_exps<'a>(
    from: &'a Exp<'a>,
    next: Option<&'a Exp<'a>>,
    to: &'a Exp<'a>,
    bump: &'a Bump,
) -> Result<&'a [Held<'a, Exp<'a>>], Stop<'a>>
    ensures { Built0 (λ es. all es.now ≡ from.now ∷ maybe_exp next.entry ++ to.now ∷ []) result }
{
    match next {
        None => two_exps(from, to, bump),
        Some(next) => held_exps(
            &[Held { at: from }, Held { at: next }, Held { at: to }],
            bump,
        ),
    }
}

/// The names of a record's fields.
pub fn field_names<'a>(
    fields: &'a [ExpField<'a>],
    bump: &'a Bump,
) -> Result<&'a [&'a str], Stop<'a>>
    ensures names { IfOk result (λ ns. ns.now ≡ map (λ (f : ExpField). f.name) fields.now) }
    ensures memory { IfErr result (λ e. e ≡ stop.Memory) }
{
    let mut made = Vec::new(bump);
    for field in fields {
        match made.push(field.name) {
            Ok(()) => (),
            Err(_) => return Err(Stop::Memory),
        }
    }
    Ok(into_bump_slice(made))
}

/// The expressions of a record's fields.
pub fn field_exps<'a>(
    fields: &'a [ExpField<'a>],
    bump: &'a Bump,
) -> Result<&'a [Held<'a, Exp<'a>>], Stop<'a>>
    ensures exps { IfOk result (λ es. all es.now ≡ map (λ (f : ExpField). f.exp.now) fields.now) }
    ensures memory { IfErr result (λ e. e ≡ stop.Memory) }
{
    let mut made = Vec::new(bump);
    for field in fields {
        match made.push(Held { at: field.exp }) {
            Ok(()) => (),
            Err(_) => return Err(Stop::Memory),
        }
    }
    Ok(into_bump_slice(made))
}

fn push_exp<'a>(
    exp: Option<&'a Exp<'a>>,
    made: &mut Vec<Held<'a, Exp<'a>>, &'a Bump>,
) -> Result<(), Stop<'a>>
    ensures exps { OnOk result (all made.new.items ≡ all made.old.items ++ maybe_exp exp.entry) }
    ensures memory { IfErr result (λ e. e ≡ stop.Memory) }
{
    match exp {
        None => Ok(()),
        Some(exp) => match made.push(Held { at: exp }) {
            Ok(()) => Ok(()),
            Err(_) => Err(Stop::Memory),
        },
    }
}

fn push_ix<'a>(ix: &Ix<'a>, made: &mut Vec<Held<'a, Exp<'a>>, &'a Bump>) -> Result<(), Stop<'a>>
    ensures exps { OnOk result (all made.new.items ≡ all made.old.items ++ exps_of ix.now) }
    ensures memory { IfErr result (λ e. e ≡ stop.Memory) }
{
    match ix {
        Ix::At(exp) => push_exp(Some(*exp), made),
        Ix::Slice(from, to) => {
            push_exp(*from, made)?;
            push_exp(*to, made)
        }
        Ix::Backwards => Ok(()),
    }
}

/// The array, and what is evaluated for each part of its index.
pub fn index_exps<'a>(
    array: &'a Exp<'a>,
    ixs: &'a [Ix<'a>],
    bump: &'a Bump,
) -> Result<&'a [Held<'a, Exp<'a>>], Stop<'a>>
    ensures exps { IfOk result (λ es. all es.now ≡ array.now ∷ all_exps ixs.now) }
    ensures memory { IfErr result (λ e. e ≡ stop.Memory) }
{
    let mut made = Vec::new(bump);
    match made.push(Held { at: array }) {
        Ok(()) => (),
        Err(_) => return Err(Stop::Memory),
    }
    for ix in ixs {
        push_ix(ix, &mut made)?;
    }
    Ok(into_bump_slice(made))
}

fn part_of<'a>(ix: &Ix<'a>) -> Part
    ensures { result ≡ part_of ix.now }
{
    match ix {
        Ix::At(_) => Part::At,
        Ix::Slice(from, to) => Part::Slice {
            from: from.is_some(),
            to: to.is_some(),
        },
        Ix::Backwards => Part::Backwards,
    }
}

/// What each part of an index asks for.
pub fn index_kinds<'a>(ixs: &'a [Ix<'a>], bump: &'a Bump) -> Result<&'a [Part], Stop<'a>>
    ensures kinds { IfOk result (λ ks. ks.now ≡ map part_of ixs.now) }
    ensures memory { IfErr result (λ e. e ≡ stop.Memory) }
{
    let mut made = Vec::new(bump);
    for ix in ixs {
        match made.push(part_of(ix)) {
            Ok(()) => (),
            Err(_) => return Err(Stop::Memory),
        }
    }
    Ok(into_bump_slice(made))
}

/// The array, the indices and the new element of an update.
pub fn update_exps<'a>(
    array: &'a Exp<'a>,
    at: &'a [Held<'a, Exp<'a>>],
    value: &'a Exp<'a>,
    bump: &'a Bump,
) -> Result<&'a [Held<'a, Exp<'a>>], Stop<'a>>
    ensures exps { IfOk result (λ es. all es.now ≡ array.now ∷ all at.now ++ value.now ∷ []) }
    ensures memory { IfErr result (λ e. e ≡ stop.Memory) }
{
    let mut made = Vec::new(bump);
    match made.push(Held { at: array }) {
        Ok(()) => (),
        Err(_) => return Err(Stop::Memory),
    }
    for index in at {
        match made.push(*index) {
            Ok(()) => (),
            Err(_) => return Err(Stop::Memory),
        }
    }
    match made.push(Held { at: value }) {
        Ok(()) => (),
        Err(_) => return Err(Stop::Memory),
    }
    Ok(into_bump_slice(made))
}
