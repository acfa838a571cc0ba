// The size and type parameters of a definition.
ghost use Rattle.std.specs.Prelude.{◌≡◌, ◌≤◌, ◌<◌, length, true, ℕ, IfOk};
ghost use Rattle.fut_ast.specs.PatRows.{size_head, variable_head};
ghost use Rattle.fut_ast.specs.Rows.{of_pat};
ghost use Rattle.fut_ast.specs.Sorts.{Head_item};
ghost use Rattle.fut_ast.specs.Tokens.{starts};
ghost use Rattle.fut_grammar.specs.Phrases.{items, phrases, read_at};
ghost use Rattle.fut_grammar.specs.Reading.{Gives, many_at, row_at};
ghost use Rattle.parse_types.specs.Found.{found_as, heads_found};
ghost use Rattle.fut_tree.specs.Pats.{head_of};

use crate::found::Found;
use crate::lists::{BeginItem, ReadItem, many};
use crate::tokens::{
    begins_parameter, next_spot, refused, rest_of, starts_with, take_variable, take_word_before,
};
use bumpalo::Bump;
use bumpalo::collections::into_bump_slice;
use fut_grammar::Stop;
use fut_token::{Fixed, Token};
use fut_tree::{Head, HeadForm};

/// Parameters, as many as stand there.
pub fn heads<'a>(
    bump: &'a Bump,
    inner: u32,
    tokens: &'a [Token],
) -> Result<Found<'a, &'a [Head<'a>]>, Stop>
    requires { inner < 1000 }
    ensures exact { Gives heads_found result (many_at (phrases (read_at inner)) (length tokens.now) Head_item 0 tokens.now) }
    ensures low { IfOk result (λ x. x.height ≤ inner) }
{
    many(bump, HeadItems, inner, 0, tokens)
}

#[derive(Clone, Copy)]
struct HeadItems;

impl<'a> ReadItem<'a, Head<'a>> for HeadItems {
    ghost sort = { Head_item };

    ghost seen = { head_of };

    ghost reads = { λ s d. Unit {0} };

    fn item(
        self,
        bump: &'a Bump,
        inner: u32,
        tokens: &'a [Token],
    ) -> Result<Found<'a, Head<'a>>, Stop> {
        let _inner = inner;
        let _bump = bump;
        if !begins_parameter(tokens) {
            return Err(Stop::Fault(refused(tokens)));
        }
        if starts_with(tokens, Fixed::OpenBracket) {
            size(tokens)
        } else {
            variable(tokens)
        }
    }
}

impl<'a> BeginItem<'a, Head<'a>> for HeadItems {
    fn begins(self, tokens: &'a [Token]) -> bool {
        begins_parameter(tokens)
    }
}

#[tactic(auto, unfolding(fut_grammar::specs::Reading::row_at, fut_grammar::specs::Reading::parts_at, fut_grammar::specs::Reading::has_at, fut_grammar::specs::Reading::expect))]
fn size<'a>(tokens: &'a [Token]) -> Result<Found<'a, Head<'a>>, Stop>
    requires { starts Fixed.OpenBracket tokens.now ≡ true }
    ensures exact { (inner : ℕ) → Gives (found_as head_of) result (row_at (items (read_at inner)) (of_pat size_head) tokens.now) }
    ensures low { IfOk result (λ x. x.height ≡ 0) }
{
    match take_word_before(rest_of(tokens), Fixed::CloseBracket) {
        Ok((name, rest)) => {
            let place = next_spot(tokens).place;
            let form = HeadForm::Size(name);
            Ok(Found {
                tree: Head { place, form },
                height: 0,
                rest,
            })
        }
        Err(stop) => Err(stop),
    }
}

#[tactic(auto, unfolding(fut_grammar::specs::Reading::row_at, fut_grammar::specs::Reading::parts_at, fut_grammar::specs::Reading::has_at))]
fn variable<'a>(tokens: &'a [Token]) -> Result<Found<'a, Head<'a>>, Stop>
    ensures exact { (inner : ℕ) → Gives (found_as head_of) result (row_at (items (read_at inner)) (of_pat variable_head) tokens.now) }
    ensures low { IfOk result (λ x. x.height ≡ 0) }
{
    match take_variable(tokens) {
        Ok((tree, rest)) => Ok(Found {
            tree,
            height: 0,
            rest,
        }),
        Err(stop) => Err(stop),
    }
}
