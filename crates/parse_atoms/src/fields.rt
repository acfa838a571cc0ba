// The fields of a record.
ghost use Rattle.std.specs.Prelude.{◌≡◌, ◌≤◌, ◌<◌, length, ℕ, IfOk, Ok};
ghost use Rattle.fut_ast.specs.Sorts.{Exp_field, SourceExp};
ghost use Rattle.parse_atoms.specs.Parts.{field_end, field_found, fields_found};
ghost use Rattle.fut_grammar.specs.Phrases.{phrases, read_at};
ghost use Rattle.fut_grammar.specs.Reading.{Gives, Read, commas_at};
ghost use Rattle.parse_types.specs.Found.{found_as};

use crate::items::Items;
use crate::tie::{ExpAnswer, ExpSort, ReadExp};
use bumpalo::Bump;
use fut_grammar::Stop;
use fut_scalar::NoMemory;
use fut_token::{Fixed, Token};
use fut_tree::{Exp, ExpField};
use parse_nodes::exp_nodes::name_used;
use parse_nodes::lists::commas_from;
use parse_types::found::Found;
use parse_types::lists::ReadItem;
use parse_types::tokens::{next_spot, refused, rest_of, starts_with, take_word};

/// Fields with commas between.
pub fn field_list<'a, R: ReadExp<'a>>(
    bump: &'a Bump,
    read: R,
    inner: u32,
    tokens: &'a [Token],
) -> Result<Found<'a, &'a [ExpField<'a>]>, Stop>
    requires law { R.reads read inner }
    requires room { inner < 1000 }
    ensures exact { Gives fields_found result (commas_at (phrases (read_at inner)) (length tokens.now) Exp_field 0 tokens.now) }
    ensures low { IfOk result (λ x. x.height ≤ inner) }
{
    commas_from(bump, Items { read }, inner, 0, tokens)
}

impl<'a, R: ReadExp<'a>> ReadItem<'a, ExpField<'a>> for Items<R> {
    ghost sort = { Exp_field };

    ghost seen = { λ f. (f.name.now, f.exp.now) };

    ghost reads = { λ s d. R.reads s.read d };

    fn item(
        self,
        bump: &'a Bump,
        inner: u32,
        tokens: &'a [Token],
    ) -> Result<Found<'a, ExpField<'a>>, Stop> {
        let place = next_spot(tokens).place;
        match take_word(tokens) {
            Ok((name, rest)) => {
                if starts_with(rest, Fixed::Equal) {
                    set_to(name, self.read.read(inner, ExpSort::Whole, rest_of(rest)))
                } else {
                    named_alike(name, name_used(bump, place, name), rest)
                }
            }
            Err(stop) => Err(stop),
        }
    }
}

// A field with the value that was read, behind which no equals sign stands.
fn set_to<'a>(name: &'a str, value: ExpAnswer<'a>) -> Result<Found<'a, ExpField<'a>>, Stop>
    ensures exact { (what : Read SourceExp) → Gives (found_as (λ t. t.exp.now)) value.entry what → Gives field_found result (field_end name.now what) }
    ensures low { (k : ℕ) → IfOk value.entry (λ x. x.height ≤ k) → IfOk result (λ x. x.height ≤ k) }
{
    match value {
        Ok(value) => {
            if starts_with(value.rest, Fixed::Equal) {
                return Err(Stop::Fault(refused(value.rest)));
            }
            Ok(Found {
                tree: ExpField {
                    name,
                    exp: value.tree.exp,
                },
                height: value.height,
                rest: value.rest,
            })
        }
        Err(stop) => Err(stop),
    }
}

// A field whose value is the name alone, if there was memory for its node.
fn named_alike<'a>(
    name: &'a str,
    node: Result<&'a Exp<'a>, NoMemory>,
    rest: &'a [Token],
) -> Result<Found<'a, ExpField<'a>>, Stop>
    ensures exact { (e : SourceExp) → IfOk node.entry (λ x. x.now ≡ e) → Gives field_found result (Ok ((name.now, e), 0, rest.now)) }
    ensures low { IfOk result (λ x. x.height ≡ 0) }
{
    match node {
        Ok(exp) => Ok(Found {
            tree: ExpField { name, exp },
            height: 0,
            rest,
        }),
        Err(_) => Err(Stop::Memory),
    }
}
