// Fields replaced: a record with another value of a field inside.
ghost use Rattle.std.specs.Prelude.{◌≡◌, IfOk, [], ◌∷◌};
ghost use Rattle.fut_ast.specs.Nodes.{bound, exp_at, held_name, let_one, replaced, use_of};
ghost use Rattle.fut_ast.specs.Sorts.{SourceExp};
ghost use Rattle.fut_ast.specs.declared.exp.Form.TheVariants as form;
ghost use Rattle.fut_tree.specs.Names.{names};

use crate::exp_nodes::{held, let_name, name_used, path};
use crate::new_names::HELD_NAME;
use bumpalo::Bump;
use fut_scalar::{NoMemory, Place};
use fut_tree::{Exp, Form};

/// A record with another value of a field inside, where a path leads to it.
#[cycle(replacing)]
#[tactic(auto, using(crate::proofs::FieldLaws::replaced_inside))]
pub fn with_field_replaced<'a>(
    bump: &'a Bump,
    from: Place,
    holder: &'a Exp<'a>,
    fields: &'a [&'a str],
    e: &'a Exp<'a>,
) -> Result<&'a Exp<'a>, NoMemory>
    ensures { IfOk result (λ s. s.now ≡ replaced from holder.now (names fields.now) e.now) }
{
    match fields {
        [] => Ok(e),
        [field] => held(
            bump,
            Exp {
                place: from,
                mark: from,
                form: Form::Replace(holder, field, e),
            },
        ),
        [field, rest @ ..] => match field_used(bump, from, field) {
            Ok(inner) => {
                let value = with_field_replaced(bump, from, inner, rest, e);
                inside_replaced(bump, from, holder, field, value)
            }
            Err(none) => Err(none),
        },
    }
}

fn field_used<'a>(bump: &'a Bump, from: Place, field: &'a str) -> Result<&'a Exp<'a>, NoMemory>
    ensures { IfOk result (λ e. e.now ≡ exp_at from (form.Path (held_name ∷ field.now ∷ []))) }
{
    match bump.try_alloc_slice_copy(&[HELD_NAME, field]) {
        Ok(names) => path(bump, from, names),
        Err(_) => Err(NoMemory),
    }
}

// The record has a name, since its field is used in its new value, if there was memory for that.
fn inside_replaced<'a>(
    bump: &'a Bump,
    from: Place,
    holder: &'a Exp<'a>,
    field: &'a str,
    value: Result<&'a Exp<'a>, NoMemory>,
) -> Result<&'a Exp<'a>, NoMemory>
    ensures { (v : SourceExp) → IfOk value.entry (λ x. x.now ≡ v) → IfOk result (λ s. s.now ≡ exp_at from (form.Lets (let_one (bound from held_name) holder.now ∷ []) (exp_at from (form.Replace (use_of from held_name) field.now v)))) }
{
    match value {
        Ok(value) => match name_used(bump, from, HELD_NAME) {
            Ok(record) => {
                let body = held(
                    bump,
                    Exp {
                        place: from,
                        mark: from,
                        form: Form::Replace(record, field, value),
                    },
                );
                let_name(bump, from, from, HELD_NAME, holder, body)
            }
            Err(none) => Err(none),
        },
        Err(none) => Err(none),
    }
}
