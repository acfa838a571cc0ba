// Types.
ghost use Rattle.std.specs.Prelude.{Err, ◌≡◌, ◌&&◌, ◌≤◌, ◌<◌, ◌+◌, suc, true, ℕ, IfOk};
ghost use Rattle.fut_ast.specs.Rows.{of_type};
ghost use Rattle.fut_ast.specs.Sorts.{Applied_type, Type_argument, Type_field, Type_name, Whole_type};
ghost use Rattle.fut_ast.specs.Tokens.{is_word, starts, tail};
ghost use Rattle.fut_ast.specs.TypeRows.{applied_name, array_type, named_arrow, size_argument};
ghost use Rattle.fut_ast.specs.Behind.{begins, begins_named};
ghost use Rattle.parse_types.specs.Handed.{ReadsType, TypeLaw, sort_of};
ghost use Rattle.fut_grammar.specs.Phrases.{applied_type_at, atomic_type_at, items, phrases, read_at, whole_type_at};
ghost use Rattle.fut_grammar.specs.Reading.{Gives, row_at};
ghost use Rattle.parse_types.specs.Found.{found_as, tree_found};
ghost use Rattle.fut_tree.specs.Types.{arg_of};

use crate::found::{Found, closed_by, not_before, part};
use crate::lists::{BeginItem, ReadItem, enclosed, many};
use crate::tokens::{
    begins_argument_of_type, begins_bracket_type, begins_name_and_colon, begins_type, greater,
    next_spot, next_word, refused, refused_type, rest_of, starts_with, starts_with_word, take_path,
    take_size, without_form,
};
use crate::type_nodes as node;
use bumpalo::Bump;
use bumpalo::collections::into_bump_slice;
use fut_ast::What;
use fut_grammar::{Fault, Stop};
use fut_token::{Fixed, Token};
use fut_tree::{Held, TypeArg, TypeExp, TypeField, TypeForm};

/// The sorts of types that stand in productions.
#[derive(Clone, Copy)]
pub enum TypeSort {
    Whole,
    /// Without an arrow at its top.
    Applied,
    /// In brackets.
    Atomic,
}

/// What is read as a type, its height, and the tokens behind it.
pub type TypeAnswer<'a> = Result<Found<'a, &'a TypeExp<'a>>, Stop>;

/// What reads the types in a production.
pub trait ReadType<'a>: Copy {
    /// It reads them up to a height.
    ghost reads: { Self → ℕ → Type 0 };

    /// A type of the sort.
    fn read(self, inner: u32, sort: TypeSort, tokens: &'a [Token]) -> TypeAnswer<'a>
        requires law { reads self inner }
        ensures { ReadsType sort inner tokens.now result };
}

impl<'a, F: Fn(TypeSort, &'a [Token]) -> TypeAnswer<'a>> ReadType<'a> for &F {
    ghost reads = { λ f d. F.IsAlwaysCallable f.now × TypeLaw (F.post f.now) d };

    fn read(self, inner: u32, sort: TypeSort, tokens: &'a [Token]) -> TypeAnswer<'a> {
        let _inner = inner;
        self(sort, tokens)
    }
}

/// A type of a height up to the depth.
pub fn whole_type<'a>(bump: &'a Bump, depth: u32, tokens: &'a [Token]) -> TypeAnswer<'a>
    requires { depth ≤ 1000 }
    ensures exact { Gives tree_found result (read_at depth Whole_type tokens.now) }
    ensures low { IfOk result (λ x. x.height ≤ depth) }
{
    type_of(bump, depth, TypeSort::Whole, tokens)
}

/// A type without an arrow at its top.
pub fn applied_type<'a>(bump: &'a Bump, depth: u32, tokens: &'a [Token]) -> TypeAnswer<'a>
    requires { depth ≤ 1000 }
    ensures exact { Gives tree_found result (read_at depth Applied_type tokens.now) }
    ensures low { IfOk result (λ x. x.height ≤ depth) }
{
    type_of(bump, depth, TypeSort::Applied, tokens)
}

// A type of the sort, of a height up to the depth.
#[cycle(types)]
fn type_of<'a>(bump: &'a Bump, depth: u32, sort: TypeSort, tokens: &'a [Token]) -> TypeAnswer<'a>
    requires { depth ≤ 1000 }
    ensures { ReadsType sort depth tokens.now result }
{
    if depth == 0 {
        return Err(Stop::Fault(nothing_below(sort, tokens)));
    }
    let inner = depth - 1;
    node(
        bump,
        &|next: TypeSort, behind: &[Token]| -> TypeAnswer<'_>
            requires { inner ≤ 1000 }
            ensures { ReadsType next inner behind.now result }
        { type_of(bump, inner, next, behind) },
        inner,
        sort,
        tokens,
    )
}

// Where nothing may stand below, a token that begins a type is too deep.
#[tactic(auto, unfolding(fut_grammar::specs::Phrases::read_at, fut_grammar::specs::Reading::refuse_sort))]
fn nothing_below(sort: TypeSort, tokens: &[Token]) -> Fault
    ensures { ReadsType sort 0 tokens.now (Err (Stop.Fault result)) }
{
    let begins = match sort {
        TypeSort::Whole | TypeSort::Applied => begins_type(tokens),
        TypeSort::Atomic => begins_bracket_type(tokens),
    };
    if begins {
        Fault::TooDeep(tokens.len())
    } else {
        refused_type(tokens)
    }
}

fn node<'a, F: Fn(TypeSort, &'a [Token]) -> TypeAnswer<'a>>(
    bump: &'a Bump,
    read: &F,
    inner: u32,
    sort: TypeSort,
    tokens: &'a [Token],
) -> TypeAnswer<'a>
    requires callable { F.IsAlwaysCallable read.now }
    requires law { TypeLaw (F.post read.now) inner }
    requires room { inner < 1000 }
    ensures { ReadsType sort (suc inner) tokens.now result }
{
    if !begins_sort(sort, tokens) {
        return Err(Stop::Fault(refused_type(tokens)));
    }
    match sort {
        TypeSort::Whole => {
            let ty = whole_type_below(bump, read, inner, tokens);
            not_before(Fixed::Arrow, ty)
        }
        TypeSort::Applied => applied_type_below(bump, read, inner, tokens),
        TypeSort::Atomic => bracket_type_below(bump, read, inner, tokens),
    }
}

// Whether a type of the sort begins here.
fn begins_sort(sort: TypeSort, tokens: &[Token]) -> bool
    ensures { result ≡ begins (sort_of sort) tokens.now }
{
    match sort {
        TypeSort::Whole | TypeSort::Applied => begins_type(tokens),
        TypeSort::Atomic => begins_bracket_type(tokens),
    }
}

// The name of a type, without arguments.
#[tactic(auto, unfolding(fut_grammar::specs::Phrases::read_at, fut_grammar::specs::Phrases::bounded, fut_grammar::specs::Phrases::ended, fut_grammar::specs::Phrases::step, fut_grammar::specs::Reading::refuse_sort, fut_grammar::specs::Reading::row_at, fut_grammar::specs::Reading::parts_at, fut_grammar::specs::Reading::has_at))]
fn type_name<'a>(bump: &'a Bump, depth: u32, tokens: &'a [Token]) -> TypeAnswer<'a>
    requires word { is_word tokens.now ≡ true }
    requires room { depth ≤ 1000 }
    ensures exact { Gives tree_found result (read_at depth Type_name tokens.now) }
    ensures low { IfOk result (λ x. x.height ≤ depth) }
{
    if depth == 0 {
        return Err(Stop::Fault(Fault::TooDeep(tokens.len())));
    }
    match take_path(bump, tokens) {
        Ok((path, rest)) => {
            let place = next_spot(tokens).place;
            let form = TypeForm::Path(path, &[]);
            node::made(bump, TypeExp { place, form }, 1, rest)
        }
        Err(stop) => Err(stop),
    }
}

#[tactic(auto, unfolding(fut_grammar::specs::Phrases::whole_type_at))]
fn whole_type_below<'a, R: ReadType<'a>>(
    bump: &'a Bump,
    read: R,
    inner: u32,
    tokens: &'a [Token],
) -> TypeAnswer<'a>
    requires law { R.reads read inner }
    requires room { inner < 1000 }
    ensures exact { Gives tree_found result (whole_type_at (phrases (read_at inner)) (suc inner) tokens.now) }
    ensures low { IfOk result (λ x. x.height ≤ inner + 1) }
{
    if begins_named_arrow(tokens) {
        return named_arrow(bump, read, inner, tokens);
    }
    let from = match applied_type_below(bump, read, inner, tokens) {
        Ok(from) => from,
        Err(stop) => return Err(stop),
    };
    if !starts_with(from.rest, Fixed::Arrow) {
        return Ok(from);
    }
    if from.height > inner {
        return Err(Stop::Fault(Fault::TooDeep(from.rest.len())));
    }
    match read.read(inner, TypeSort::Whole, rest_of(from.rest)) {
        Ok(to) => {
            let place = next_spot(tokens).place;
            let form = TypeForm::Arrow(from.tree, to.tree);
            let height = greater(from.height, to.height) + 1;
            node::made(bump, TypeExp { place, form }, height, to.rest)
        }
        Err(stop) => Err(stop),
    }
}

// Whether a function type begins here whose parameter has a name.
fn begins_named_arrow(tokens: &[Token]) -> bool
    ensures { result ≡ (starts Fixed.OpenParen tokens.now && begins_named (tail tokens.now)) }
{
    starts_with(tokens, Fixed::OpenParen) && begins_name_and_colon(rest_of(tokens))
}

#[tactic(auto, unfolding(fut_grammar::specs::Reading::row_at, fut_grammar::specs::Reading::parts_at, fut_grammar::specs::Reading::has_at, fut_grammar::specs::Reading::expect, fut_grammar::specs::Reading::sub_at, fut_grammar::specs::Phrases::phrases))]
fn named_arrow<'a, R: ReadType<'a>>(
    bump: &'a Bump,
    read: R,
    inner: u32,
    tokens: &'a [Token],
) -> TypeAnswer<'a>
    requires law { R.reads read inner }
    requires named { (starts Fixed.OpenParen tokens.now && begins_named (tail tokens.now)) ≡ true }
    requires room { inner < 1000 }
    ensures exact { Gives tree_found result (row_at (phrases (read_at inner)) (of_type named_arrow) tokens.now) }
    ensures low { IfOk result (λ x. x.height ≤ inner + 1) }
{
    let behind = rest_of(tokens);
    let name = next_word(behind);
    let from = read.read(inner, TypeSort::Whole, rest_of(rest_of(behind)));
    let inside = closed_by(Fixed::CloseParen, from);
    let from = match closed_by(Fixed::Arrow, inside) {
        Ok(from) => from,
        Err(stop) => return Err(stop),
    };
    match read.read(inner, TypeSort::Whole, from.rest) {
        Ok(to) => {
            let place = next_spot(tokens).place;
            let form = TypeForm::Named(name, from.tree, to.tree);
            let height = greater(from.height, to.height) + 1;
            node::made(bump, TypeExp { place, form }, height, to.rest)
        }
        Err(stop) => Err(stop),
    }
}

#[tactic(auto, unfolding(fut_grammar::specs::Phrases::applied_type_at))]
fn applied_type_below<'a, R: ReadType<'a>>(
    bump: &'a Bump,
    read: R,
    inner: u32,
    tokens: &'a [Token],
) -> TypeAnswer<'a>
    requires law { R.reads read inner }
    requires room { inner < 1000 }
    ensures exact { Gives tree_found result (applied_type_at (phrases (read_at inner)) (suc inner) tokens.now) }
    ensures low { IfOk result (λ x. x.height ≤ inner + 1) }
{
    if starts_with(tokens, Fixed::Star) {
        let place = next_spot(tokens).place;
        let ty = read.read(inner, TypeSort::Applied, rest_of(tokens));
        node::unique(bump, place, ty)
    } else if starts_with(tokens, Fixed::OpenBracket) {
        array(bump, read, inner, tokens)
    } else if starts_with_word(tokens) {
        applied_name(bump, read, inner, tokens)
    } else {
        bracket_type_below(bump, read, inner, tokens)
    }
}

#[tactic(auto, unfolding(fut_grammar::specs::Reading::row_at, fut_grammar::specs::Reading::parts_at, fut_grammar::specs::Reading::has_at, fut_grammar::specs::Reading::expect, fut_grammar::specs::Reading::sub_at, fut_grammar::specs::Phrases::phrases))]
fn array<'a, R: ReadType<'a>>(
    bump: &'a Bump,
    read: R,
    inner: u32,
    tokens: &'a [Token],
) -> TypeAnswer<'a>
    requires law { R.reads read inner }
    requires first { starts Fixed.OpenBracket tokens.now ≡ true }
    requires room { inner < 1000 }
    ensures exact { Gives tree_found result (row_at (phrases (read_at inner)) (of_type array_type) tokens.now) }
    ensures low { IfOk result (λ x. x.height ≤ inner + 1) }
{
    let (size, rest) = match take_size(bump, rest_of(tokens)) {
        Ok(found) => found,
        Err(stop) => return Err(stop),
    };
    match read.read(inner, TypeSort::Applied, rest_of(rest)) {
        Ok(row) => {
            let place = next_spot(tokens).place;
            let form = TypeForm::Array(size, row.tree);
            node::made(bump, TypeExp { place, form }, row.height + 1, row.rest)
        }
        Err(stop) => Err(stop),
    }
}

#[tactic(auto, unfolding(fut_grammar::specs::Reading::row_at, fut_grammar::specs::Reading::parts_at, fut_grammar::specs::Reading::has_at, fut_grammar::specs::Reading::sub_at, fut_grammar::specs::Phrases::phrases))]
fn applied_name<'a, R: ReadType<'a>>(
    bump: &'a Bump,
    read: R,
    inner: u32,
    tokens: &'a [Token],
) -> TypeAnswer<'a>
    requires law { R.reads read inner }
    requires room { inner < 1000 }
    ensures exact { Gives tree_found result (row_at (phrases (read_at inner)) (of_type applied_name) tokens.now) }
    ensures low { IfOk result (λ x. x.height ≤ inner + 1) }
{
    let (path, rest) = match take_path(bump, tokens) {
        Ok(found) => found,
        Err(stop) => return Err(stop),
    };
    let found = match many(bump, read, inner, 0, rest) {
        Ok(found) => found,
        Err(stop) => return Err(stop),
    };
    match without_form(What::ExistentialSize, found.rest) {
        Ok(()) => {
            let place = next_spot(tokens).place;
            let form = TypeForm::Path(path, found.tree);
            node::made(bump, TypeExp { place, form }, found.height + 1, found.rest)
        }
        Err(stop) => Err(stop),
    }
}

#[tactic(auto, unfolding(fut_grammar::specs::Phrases::atomic_type_at))]
fn bracket_type_below<'a, R: ReadType<'a>>(
    bump: &'a Bump,
    read: R,
    inner: u32,
    tokens: &'a [Token],
) -> TypeAnswer<'a>
    requires law { R.reads read inner }
    requires room { inner < 1000 }
    ensures exact { Gives tree_found result (atomic_type_at (phrases (read_at inner)) (suc inner) tokens.now) }
    ensures low { IfOk result (λ x. x.height ≤ inner + 1) }
{
    let place = next_spot(tokens).place;
    if starts_with(tokens, Fixed::OpenParen) {
        node::round(
            bump,
            place,
            enclosed(
                bump,
                read,
                inner,
                Fixed::OpenParen,
                Fixed::CloseParen,
                tokens,
            ),
        )
    } else {
        node::fields(
            bump,
            place,
            enclosed(
                bump,
                read,
                inner,
                Fixed::OpenBrace,
                Fixed::CloseBrace,
                tokens,
            ),
        )
    }
}

// ---- lists of types

// Types in parentheses.
impl<'a, R: ReadType<'a>> ReadItem<'a, Held<'a, TypeExp<'a>>> for R {
    ghost sort = { Whole_type };

    ghost seen = { λ t. t.at.now };

    ghost reads = { λ s d. R.reads s d };

    #[tactic(auto, unfolding(fut_grammar::specs::Phrases::phrases))]
    fn item(
        self,
        bump: &'a Bump,
        inner: u32,
        tokens: &'a [Token],
    ) -> Result<Found<'a, Held<'a, TypeExp<'a>>>, Stop> {
        let _bump = bump;
        part(self.read(inner, TypeSort::Whole, tokens))
    }
}

// Fields of a record's type.
impl<'a, R: ReadType<'a>> ReadItem<'a, TypeField<'a>> for R {
    ghost sort = { Type_field };

    ghost seen = { λ f. (f.name.now, f.ty.now) };

    ghost reads = { λ s d. R.reads s d };

    #[tactic(auto, unfolding(fut_grammar::specs::Reading::row_at, fut_grammar::specs::Reading::parts_at, fut_grammar::specs::Reading::has_at, fut_grammar::specs::Reading::expect, fut_grammar::specs::Reading::sub_at, fut_grammar::specs::Phrases::phrases, fut_grammar::specs::Phrases::bounded, fut_grammar::specs::Phrases::ended, fut_grammar::specs::Phrases::flat_at, fut_grammar::specs::Reading::refuse_sort, fut_grammar::specs::Phrases::items))]
    fn item(
        self,
        bump: &'a Bump,
        inner: u32,
        tokens: &'a [Token],
    ) -> Result<Found<'a, TypeField<'a>>, Stop> {
        let _bump = bump;
        if !starts_with_word(tokens) {
            return Err(Stop::Fault(refused(tokens)));
        }
        let name = next_word(tokens);
        let rest = rest_of(tokens);
        if !starts_with(rest, Fixed::Colon) {
            return Err(Stop::Fault(refused(rest)));
        }
        match self.read(inner, TypeSort::Whole, rest_of(rest)) {
            Ok(Found { tree, height, rest }) => Ok(Found {
                tree: TypeField { name, ty: tree },
                height,
                rest,
            }),
            Err(stop) => Err(stop),
        }
    }
}

// Arguments of a type.
impl<'a, R: ReadType<'a>> ReadItem<'a, TypeArg<'a>> for R {
    ghost sort = { Type_argument };

    ghost seen = { arg_of };

    ghost reads = { λ s d. R.reads s d × (d < 1000) };

    #[tactic(auto, unfolding(fut_grammar::specs::Phrases::phrases, fut_grammar::specs::Phrases::bounded, fut_grammar::specs::Phrases::ended, fut_grammar::specs::Phrases::flat_at, fut_grammar::specs::Reading::refuse_sort))]
    fn item(
        self,
        bump: &'a Bump,
        inner: u32,
        tokens: &'a [Token],
    ) -> Result<Found<'a, TypeArg<'a>>, Stop> {
        if !begins_argument_of_type(tokens) {
            return Err(Stop::Fault(refused(tokens)));
        }
        if starts_with(tokens, Fixed::OpenBracket) {
            size_argument(bump, tokens)
        } else if starts_with_word(tokens) {
            node::argument(type_name(bump, inner, tokens))
        } else {
            node::argument(self.read(inner, TypeSort::Atomic, tokens))
        }
    }
}

impl<'a, R: ReadType<'a>> BeginItem<'a, TypeArg<'a>> for R {
    fn begins(self, tokens: &'a [Token]) -> bool {
        begins_argument_of_type(tokens)
    }
}

#[tactic(auto, unfolding(fut_grammar::specs::Reading::row_at, fut_grammar::specs::Reading::parts_at, fut_grammar::specs::Reading::has_at, fut_grammar::specs::Reading::expect))]
fn size_argument<'a>(bump: &'a Bump, tokens: &'a [Token]) -> Result<Found<'a, TypeArg<'a>>, Stop>
    requires { starts Fixed.OpenBracket tokens.now ≡ true }
    ensures exact { (inner : ℕ) → Gives (found_as arg_of) result (row_at (items (read_at inner)) (of_type size_argument) tokens.now) }
    ensures low { IfOk result (λ x. x.height ≡ 0) }
{
    match take_size(bump, rest_of(tokens)) {
        Ok((size, rest)) => Ok(Found {
            tree: TypeArg::Size(size),
            height: 0,
            rest: rest_of(rest),
        }),
        Err(stop) => Err(stop),
    }
}
