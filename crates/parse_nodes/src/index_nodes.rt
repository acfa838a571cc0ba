// The parts of an index, also in a section, where each expression gets a name.
ghost use Rattle.std.specs.Prelude.{◌≡◌, ◌+◌, ◌%◌, ◌++◌, ◌∷◌, [], None, IfOk, OnOk, map};
ghost use Rattle.fut_ast.specs.Nodes.{
  behind_lets,
  bound,
  exp_at,
  flat,
  held_name,
  index_section,
  name_of_position,
  node,
  use_of,
};
ghost use Rattle.fut_ast.specs.Sorts.{SourceExp};
ghost use Rattle.fut_ast.specs.declared.exp.Form.TheVariants as form;
ghost use Rattle.parse_nodes.specs.Parts.{lets_named, named_all, named_of, plain_part, section_part, uses_named, written_of};
ghost use Rattle.fut_tree.specs.Exps.{binds_of, ix_of, ixs_of};
ghost use Rattle.fut_tree.specs.Names.{maybe};

use crate::exp_nodes::{function_of_name, index, lets, name_let, name_used};
use crate::new_names::HELD_NAME;
use bumpalo::Bump;
use bumpalo::collections::into_bump_slice;
use fut_ast::Spot;
use fut_scalar::{NoMemory, Place};
use fut_tree::{Bind, Exp, Ix};

/// What stands behind the first expression of a part: a colon, and an expression or none.
#[derive(Clone, Copy)]
pub struct Upto<'a> {
    pub colon: Spot,
    pub end: Option<&'a Exp<'a>>,
}

/// A part of an index as it is written, and where it stands. `::-1` has neither an expression nor a colon before one.
#[derive(Clone, Copy)]
pub struct WrittenPart<'a> {
    pub at: Spot,
    pub first: Option<&'a Exp<'a>>,
    pub upto: Option<Upto<'a>>,
}

/// The names of a part's expressions, and the part with the names in their places.
#[derive(Clone, Copy)]
pub struct NamedPart<'a> {
    pub binds: &'a [Bind<'a>],
    pub part: Ix<'a>,
}

/// A part of an index.
pub fn index_part<'a>(part: WrittenPart<'a>) -> Ix<'a>
    ensures { ix_of result ≡ plain_part (written_of part.entry) }
{
    match part.upto {
        None => match part.first {
            None => Ix::Backwards,
            Some(e) => Ix::At(e),
        },
        Some(upto) => Ix::Slice(part.first, upto.end),
    }
}

// ---- the names of expressions in an index

// A letter of a name: a digit to the base 64.
fn letter(number: u64) -> u8
    ensures { result ≡ 33 + number % 64 }
{
    (33 + number % 64) as u8
}

// A name made of a position: a blank, and the digits of the position.
fn position_name<'a>(bump: &'a Bump, position: u64) -> Result<&'a str, NoMemory>
    ensures { IfOk result (λ n. n.now ≡ name_of_position position) }
{
    let letters = [
        b' ',
        letter(position),
        letter(position / 64),
        letter(position / 64 / 64),
        letter(position / 64 / 64 / 64),
        letter(position / 64 / 64 / 64 / 64),
    ];
    match bump.try_alloc_slice_copy(&letters) {
        // It is always a text, since each letter is below 128.
        Ok(letters) => match str::from_utf8(letters) {
            Ok(name) => Ok(name),
            Err(_) => Err(NoMemory),
        },
        Err(_) => Err(NoMemory),
    }
}

// The name of an expression, if there is one, is bound behind the row, and its use stands for the expression.
fn named<'a>(
    bump: &'a Bump,
    at: Spot,
    e: Option<&'a Exp<'a>>,
    row: &mut Vec<Bind<'a>, &'a Bump>,
) -> Result<Option<&'a Exp<'a>>, NoMemory>
    ensures used { IfOk result (λ x. maybe x ≡ uses_named at (maybe e.entry)) }
    ensures row { OnOk result (binds_of row.new.items ≡ binds_of row.old.items ++ lets_named at (maybe e.entry)) }
{
    let e = match e {
        None => return Ok(None),
        Some(e) => e,
    };
    let name = match position_name(bump, at.start) {
        Ok(name) => name,
        Err(none) => return Err(none),
    };
    match name_let(bump, at.place, name, e) {
        Ok(bind) => match row.push(bind) {
            Ok(()) => match name_used(bump, e.place, name) {
                Ok(used) => Ok(Some(used)),
                Err(none) => Err(none),
            },
            Err(_) => Err(NoMemory),
        },
        Err(none) => Err(none),
    }
}

// ---- parts in a section

/// A part of an index in a section.
pub fn named_part<'a>(bump: &'a Bump, part: WrittenPart<'a>) -> Result<NamedPart<'a>, NoMemory>
    ensures { IfOk result (λ p. named_of p ≡ section_part (written_of part.entry)) }
{
    let mut row = Vec::new(bump);
    match part_of_names(bump, part, &mut row) {
        Ok(part) => Ok(NamedPart {
            binds: into_bump_slice(row),
            part,
        }),
        Err(none) => Err(none),
    }
}

// The part with the names in their places, which are bound behind the row.
fn part_of_names<'a>(
    bump: &'a Bump,
    part: WrittenPart<'a>,
    row: &mut Vec<Bind<'a>, &'a Bump>,
) -> Result<Ix<'a>, NoMemory>
    ensures part { IfOk result (λ i. ix_of i ≡ (section_part (written_of part.entry)).1) }
    ensures row { OnOk result (binds_of row.new.items ≡ binds_of row.old.items ++ (section_part (written_of part.entry)).0) }
{
    let first = match named(bump, part.at, part.first, row) {
        Ok(first) => first,
        Err(none) => return Err(none),
    };
    match part.upto {
        None => match first {
            None => Ok(Ix::Backwards),
            Some(used) => Ok(Ix::At(used)),
        },
        Some(upto) => match named(bump, upto.colon, upto.end, row) {
            Ok(end) => Ok(Ix::Slice(first, end)),
            Err(none) => Err(none),
        },
    }
}

/// An index in parentheses, of its named parts.
pub fn section_of_index<'a>(
    bump: &'a Bump,
    paren: Place,
    bracket: Place,
    parts: &'a [NamedPart<'a>],
) -> Result<&'a Exp<'a>, NoMemory>
    ensures { IfOk result (λ s. s.now ≡ index_section paren bracket (named_all parts.now)) }
{
    let mut row = Vec::new(bump);
    let mut indices = Vec::new(bump);
    match take_apart(parts, &mut row, &mut indices) {
        Ok(()) => {
            let function = function_of_array(bump, paren, bracket, into_bump_slice(indices));
            behind_row(bump, paren, into_bump_slice(row), function)
        }
        Err(none) => Err(none),
    }
}

// The names of all parts, and the parts.
fn take_apart<'a>(
    parts: &[NamedPart<'a>],
    row: &mut Vec<Bind<'a>, &'a Bump>,
    indices: &mut Vec<Ix<'a>, &'a Bump>,
) -> Result<(), NoMemory>
    requires no_row { row.old.items ≡ [] }
    requires no_indices { indices.old.items ≡ [] }
    ensures row { OnOk result (binds_of row.new.items ≡ flat (map (λ i. i.0) (named_all parts.now))) }
    ensures indices { OnOk result (ixs_of indices.new.items ≡ map (λ i. i.1) (named_all parts.now)) }
{
    'parts: for part in parts {
        match row.extend_from_slice(part.binds) {
            Ok(()) => match indices.push(part.part) {
                Ok(()) => (),
                Err(_) => return Err(NoMemory),
            },
            Err(_) => return Err(NoMemory),
        }
    }
    Ok(())
}

// The row of names before a body, if there was memory for the body.
fn behind_row<'a>(
    bump: &'a Bump,
    place: Place,
    row: &'a [Bind<'a>],
    body: Result<&'a Exp<'a>, NoMemory>,
) -> Result<&'a Exp<'a>, NoMemory>
    ensures { (b : SourceExp) → IfOk body.entry (λ x. x.now ≡ b) → IfOk result (λ e. e.now ≡ behind_lets place (binds_of row.now) b) }
{
    match body {
        Ok(body) => match row {
            [] => Ok(body),
            [_, ..] => lets(bump, place, place, row, body),
        },
        Err(none) => Err(none),
    }
}

fn function_of_array<'a>(
    bump: &'a Bump,
    paren: Place,
    bracket: Place,
    parts: &'a [Ix<'a>],
) -> Result<&'a Exp<'a>, NoMemory>
    ensures { IfOk result (λ s. s.now ≡ exp_at paren (form.Lambda (bound paren held_name ∷ []) None (node paren bracket (form.Index (use_of paren held_name) (ixs_of parts.now))))) }
{
    match name_used(bump, paren, HELD_NAME) {
        Ok(array) => {
            let body = index(bump, paren, bracket, array, parts);
            function_of_name(bump, paren, paren, HELD_NAME, body)
        }
        Err(none) => Err(none),
    }
}
