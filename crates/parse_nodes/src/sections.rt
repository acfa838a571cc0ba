// Sections: operators and fields in parentheses.
ghost use Rattle.std.specs.Prelude.{◌≡◌, IfOk, [], ◌∷◌, None};
ghost use Rattle.fut_ast.specs.Nodes.{
  bound,
  exp_at,
  field_section,
  first_name,
  held_name,
  left_section,
  let_one,
  operator_section,
  right_section,
  second_name,
};
ghost use Rattle.fut_ast.specs.declared.exp.Form.TheVariants as form;
ghost use Rattle.fut_ast.specs.Sorts.{SourceExp};
ghost use Rattle.fut_tree.specs.Names.{names};

use crate::binds::path_behind;
use crate::exp_nodes::{function, function_of_name, let_name, path};
use crate::joins::{NameAt, join_names, join_uses};
use crate::new_names::{FIRST_NAME, HELD_NAME, SECOND_NAME};
use bumpalo::Bump;
use fut_scalar::{NoMemory, Place};
use fut_token::Fixed;
use fut_tree::{Exp, Held};
use parse_types::pat_nodes;

/// An operator alone in parentheses.
pub fn operator_alone<'a>(
    bump: &'a Bump,
    fixed: Fixed,
    paren: Place,
    mark: Place,
    name: &'a str,
) -> Result<&'a Exp<'a>, NoMemory>
    ensures { IfOk result (λ e. e.now ≡ operator_section fixed paren mark name.now) }
{
    let first = NameAt {
        place: paren,
        name: FIRST_NAME,
    };
    let second = NameAt {
        place: paren,
        name: SECOND_NAME,
    };
    let body = join_names(bump, fixed, paren, mark, name, first, second);
    function_of_operands(bump, paren, body)
}

// A function of the names of both operands, if there was memory for its body.
fn function_of_operands<'a>(
    bump: &'a Bump,
    place: Place,
    body: Result<&'a Exp<'a>, NoMemory>,
) -> Result<&'a Exp<'a>, NoMemory>
    ensures { (b : SourceExp) → IfOk body.entry (λ x. x.now ≡ b) → IfOk result (λ e. e.now ≡ exp_at place (form.Lambda (bound place first_name ∷ bound place second_name ∷ []) None b)) }
{
    let first = match pat_nodes::name(bump, place, FIRST_NAME) {
        Ok(first) => first,
        Err(none) => return Err(none),
    };
    let second = match pat_nodes::name(bump, place, SECOND_NAME) {
        Ok(second) => second,
        Err(none) => return Err(none),
    };
    match bump.try_alloc_slice_copy(&[Held { at: first }, Held { at: second }]) {
        Ok(params) => match body {
            Ok(body) => function(bump, place, params, None, body),
            Err(none) => Err(none),
        },
        Err(_) => Err(NoMemory),
    }
}

// A function of one operand's name, if there was memory for its body. The other operand is evaluated before it.
fn section<'a>(
    bump: &'a Bump,
    paren: Place,
    e: &'a Exp<'a>,
    name: &'a str,
    body: Result<&'a Exp<'a>, NoMemory>,
) -> Result<&'a Exp<'a>, NoMemory>
    ensures { (b : SourceExp) → IfOk body.entry (λ x. x.now ≡ b) → IfOk result (λ s. s.now ≡ exp_at paren (form.Lets (let_one (bound paren held_name) e.now ∷ []) (exp_at paren (form.Lambda (bound paren name.now ∷ []) None b)))) }
{
    let function = function_of_name(bump, paren, paren, name, body);
    let_name(bump, paren, paren, HELD_NAME, e, function)
}

/// An operator and its right operand in parentheses.
pub fn section_of_right<'a>(
    bump: &'a Bump,
    fixed: Fixed,
    paren: Place,
    mark: Place,
    name: &'a str,
    e: &'a Exp<'a>,
) -> Result<&'a Exp<'a>, NoMemory>
    ensures { IfOk result (λ s. s.now ≡ right_section fixed paren mark name.now e.now) }
{
    let first = NameAt {
        place: paren,
        name: FIRST_NAME,
    };
    let held = NameAt {
        place: e.place,
        name: HELD_NAME,
    };
    let body = join_uses(bump, fixed, paren, mark, name, first, held);
    section(bump, paren, e, first.name, body)
}

/// An operator and its left operand in parentheses.
pub fn section_of_left<'a>(
    bump: &'a Bump,
    fixed: Fixed,
    paren: Place,
    e: &'a Exp<'a>,
    mark: Place,
    name: &'a str,
) -> Result<&'a Exp<'a>, NoMemory>
    ensures { IfOk result (λ s. s.now ≡ left_section fixed paren e.now mark name.now) }
{
    let held = NameAt {
        place: e.place,
        name: HELD_NAME,
    };
    let second = NameAt {
        place: paren,
        name: SECOND_NAME,
    };
    let body = join_uses(bump, fixed, e.place, mark, name, held, second);
    section(bump, paren, e, second.name, body)
}

/// Fields behind a point in parentheses.
pub fn section_of_fields<'a>(
    bump: &'a Bump,
    paren: Place,
    dot: Place,
    fields: &'a [&'a str],
) -> Result<&'a Exp<'a>, NoMemory>
    ensures { IfOk result (λ s. s.now ≡ field_section paren dot (names fields.now)) }
{
    match path_behind(bump, HELD_NAME, fields) {
        Ok(names) => {
            let body = path(bump, dot, names);
            function_of_name(bump, paren, dot, HELD_NAME, body)
        }
        Err(none) => Err(none),
    }
}
