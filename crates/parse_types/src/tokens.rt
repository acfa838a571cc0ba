// What stands next among the tokens, and taking it.
ghost use Rattle.std.specs.Prelude.{◌≡◌, ◌&&◌, IfOk, Ok, max, length, true};
ghost use Rattle.fut_ast.specs.Behind.{begins, begins_atomic_type, begins_mtype, begins_named, begins_pat, begins_spec, begins_type_argument};
ghost use Rattle.fut_ast.specs.Grammar.{is_lifted};
ghost use Rattle.fut_ast.specs.Sorts.{Applied_type, Atomic_type, Head_item, Whole_type};
ghost use Rattle.fut_ast.specs.LeftOut.{begins_left_out, is_char, is_constructor};
ghost use Rattle.fut_ast.specs.Parts.{without};
ghost use Rattle.fut_ast.specs.Tokens.{is_int, is_text, is_variable, is_word, kind_is_fixed, spot_of, starts, tail};
ghost use Rattle.fut_grammar.specs.Reading.{Gives, closed_size, expect, look_at, names_at, number_at, path_at, refuse, refuse_as, refuse_sort, size_at, size_left_out, text_at, variable_at, word_at};
ghost use Rattle.parse_types.specs.Signs.{word_before};
ghost use Rattle.fut_tree.specs.Names.{names};
ghost use Rattle.fut_tree.specs.Pats.{head_of};
ghost use Rattle.fut_tree.specs.Types.{maybe_size_of, size_of};

use bumpalo::Bump;
use bumpalo::collections::into_bump_slice;
use fut_ast::{Spot, What};
use fut_grammar::{Fault, Stop};
use fut_scalar::{IntType, Place};
use fut_token::{Fixed, Lift, Token, TokenKind};
use fut_tree::{Head, HeadForm, SizeExp, SizeForm};

fn is_kind(kind: &TokenKind, fixed: Fixed) -> bool
    ensures { result ≡ kind_is_fixed fixed kind.now }
{
    match kind {
        TokenKind::Fixed(found) => *found == fixed,
        _ => false,
    }
}

/// Whether this keyword or symbol stands next.
pub fn starts_with(tokens: &[Token], fixed: Fixed) -> bool
    ensures { result ≡ starts fixed tokens.now }
{
    match tokens {
        [token, ..] => is_kind(&token.kind, fixed),
        [] => false,
    }
}

/// Whether a name stands next.
pub fn starts_with_word(tokens: &[Token]) -> bool
    ensures { result ≡ is_word tokens.now }
{
    match tokens {
        [token, ..] => matches!(&token.kind, TokenKind::Name(_)),
        [] => false,
    }
}

/// Whether an integer stands next.
pub fn starts_with_int(tokens: &[Token]) -> bool
    ensures { result ≡ is_int tokens.now }
{
    match tokens {
        [token, ..] => matches!(&token.kind, TokenKind::Int { .. }),
        [] => false,
    }
}

fn starts_with_char(tokens: &[Token]) -> bool
    ensures { result ≡ is_char tokens.now }
{
    match tokens {
        [token, ..] => matches!(&token.kind, TokenKind::Char(_)),
        [] => false,
    }
}

fn starts_with_text(tokens: &[Token]) -> bool
    ensures { result ≡ is_text tokens.now }
{
    match tokens {
        [token, ..] => matches!(&token.kind, TokenKind::Text(_)),
        [] => false,
    }
}

fn starts_with_constructor(tokens: &[Token]) -> bool
    ensures { result ≡ is_constructor tokens.now }
{
    match tokens {
        [token, ..] => matches!(&token.kind, TokenKind::Constructor(_)),
        [] => false,
    }
}

/// What stands behind the next token.
pub fn rest_of(tokens: &[Token]) -> &[Token]
    ensures { result.now ≡ tail tokens.now }
{
    match tokens {
        [] => tokens,
        [_, rest @ ..] => rest,
    }
}

/// Where the next token stands.
pub fn next_spot(tokens: &[Token]) -> Spot
    ensures { result ≡ spot_of tokens.now }
{
    match tokens {
        [token, ..] => Spot {
            place: token.place,
            start: token.start,
        },
        [] => Spot {
            place: Place {
                file: 0,
                line: 1,
                column: 1,
            },
            start: 0,
        },
    }
}

fn starts_with_sum(tokens: &[Token]) -> bool
    ensures { result ≡ begins_left_out What.SumType tokens.now }
{
    starts_with(tokens, Fixed::KeyMatch)
        || starts_with(tokens, Fixed::KeyCase)
        || starts_with_constructor(tokens)
}

// The fault where nothing goes on with the next token: a form that is left out everywhere, else the other fault.
#[tactic(auto, unfolding(fut_grammar::specs::Reading::refuse_as))]
fn refused_as(other: Fault, tokens: &[Token]) -> Fault
    ensures { result ≡ refuse_as other tokens.now }
{
    let left = tokens.len();
    if starts_with_char(tokens) {
        Fault::LeftOut(left, What::Character)
    } else if starts_with_text(tokens) {
        Fault::LeftOut(left, What::Text)
    } else if starts_with_sum(tokens) {
        Fault::LeftOut(left, What::SumType)
    } else {
        other
    }
}

/// The fault where nothing goes on with the next token.
#[tactic(auto, unfolding(fut_grammar::specs::Reading::refuse))]
pub fn refused(tokens: &[Token]) -> Fault
    ensures { result ≡ refuse tokens.now }
{
    refused_as(Fault::Syntax(tokens.len()), tokens)
}

fn begins_no_size(tokens: &[Token]) -> bool
    ensures { result ≡ begins_left_out What.SizeExpression tokens.now }
{
    match tokens {
        [] => false,
        [_, ..] => {
            !starts_with_word(tokens)
                && !starts_with_int(tokens)
                && !starts_with(tokens, Fixed::CloseBracket)
        }
    }
}

/// Whether a form begins here that is left out.
pub fn begins_form(what: What, tokens: &[Token]) -> bool
    ensures { result ≡ begins_left_out what tokens.now }
{
    match what {
        What::Character => starts_with_char(tokens),
        What::Text => starts_with_text(tokens),
        What::SumType => starts_with_sum(tokens),
        What::SizeExpression => begins_no_size(tokens),
        What::LiftedType => {
            starts_with(tokens, Fixed::Caret) || starts_with(tokens, Fixed::Tilde)
        }
        What::ExistentialSize => starts_with(tokens, Fixed::Question),
        What::OperatorDefinition => starts_with(tokens, Fixed::OpenParen),
        What::LocalOpen => {
            starts_with(tokens, Fixed::Dot) && starts_with(rest_of(tokens), Fixed::OpenParen)
        }
        What::Stride | What::SliceUpdate => starts_with(tokens, Fixed::Colon),
    }
}

/// Nothing is taken, unless a form begins here that is left out.
pub fn without_form(what: What, tokens: &[Token]) -> Result<(), Stop>
    ensures { Gives (λ x. tt) result (look_at (without what) tokens.now) }
{
    if begins_form(what, tokens) {
        return Err(Stop::Fault(Fault::LeftOut(tokens.len(), what)));
    }
    Ok(())
}

/// The tokens behind this keyword or symbol.
#[tactic(auto, unfolding(fut_grammar::specs::Reading::expect))]
pub fn take(tokens: &[Token], fixed: Fixed) -> Result<&[Token], Stop>
    ensures { Gives (λ x. x.now) result (expect fixed tokens.now) }
{
    if starts_with(tokens, fixed) {
        Ok(rest_of(tokens))
    } else {
        Err(Stop::Fault(refused(tokens)))
    }
}

/// A name and the tokens behind it.
#[tactic(auto, unfolding(fut_grammar::specs::Reading::word_at))]
pub fn take_word<'a>(tokens: &'a [Token]) -> Result<(&'a str, &'a [Token]), Stop>
    ensures { Gives (λ x. (x.0.now, x.1.now)) result (word_at tokens.now) }
{
    match tokens {
        [token, rest @ ..] => match &token.kind {
            TokenKind::Name(name) => Ok((name.as_str(), rest)),
            _ => Err(Stop::Fault(refused(tokens))),
        },
        [] => Err(Stop::Fault(refused(tokens))),
    }
}

/// The name that stands next.
#[tactic(auto, unfolding(fut_grammar::specs::Reading::word_at))]
pub fn next_word<'a>(tokens: &'a [Token]) -> &'a str
    requires { is_word tokens.now ≡ true }
    ensures { word_at tokens.now ≡ Ok (result.now, tail tokens.now) }
{
    match tokens {
        [token, ..] => match &token.kind {
            TokenKind::Name(name) => name.as_str(),
            _ => "",
        },
        [] => "",
    }
}

/// A name, and the tokens behind this keyword or symbol, which stands behind the name.
pub fn take_word_before<'a>(
    tokens: &'a [Token],
    fixed: Fixed,
) -> Result<(&'a str, &'a [Token]), Stop>
    ensures { Gives (λ x. (x.0.now, x.1.now)) result (word_before fixed tokens.now) }
{
    match take_word(tokens) {
        Ok((name, rest)) => {
            if starts_with(rest, fixed) {
                Ok((name, rest_of(rest)))
            } else {
                Err(Stop::Fault(refused(rest)))
            }
        }
        Err(stop) => Err(stop),
    }
}

/// The greater of two heights.
pub fn greater(a: u32, b: u32) -> u32
    ensures { result ≡ max a b }
{
    if a < b { b } else { a }
}

/// The fault where no type begins.
#[tactic(auto, unfolding(fut_grammar::specs::Reading::refuse_sort))]
pub fn refused_type(tokens: &[Token]) -> Fault
    ensures whole { result ≡ refuse_sort Whole_type tokens.now }
    ensures applied { result ≡ refuse_sort Applied_type tokens.now }
    ensures atomic { result ≡ refuse_sort Atomic_type tokens.now }
{
    if starts_with(tokens, Fixed::Question) {
        Fault::LeftOut(tokens.len(), What::ExistentialSize)
    } else {
        refused(tokens)
    }
}

/// Whether a type without an arrow at its top may begin here, or any type.
pub fn begins_type(tokens: &[Token]) -> bool
    ensures { result ≡ begins Whole_type tokens.now }
{
    begins_argument_of_type(tokens) || starts_with(tokens, Fixed::Star)
}

/// Whether a type in brackets begins here.
pub fn begins_bracket_type(tokens: &[Token]) -> bool
    ensures { result ≡ begins_atomic_type tokens.now }
{
    starts_with(tokens, Fixed::OpenParen) || starts_with(tokens, Fixed::OpenBrace)
}

/// Whether an argument of a type begins here.
pub fn begins_argument_of_type(tokens: &[Token]) -> bool
    ensures { result ≡ begins_type_argument tokens.now }
{
    starts_with_word(tokens)
        || starts_with(tokens, Fixed::OpenBracket)
        || begins_bracket_type(tokens)
}

/// Whether a pattern begins here.
pub fn begins_pattern(tokens: &[Token]) -> bool
    ensures { result ≡ begins_pat tokens.now }
{
    starts_with_word(tokens)
        || starts_with(tokens, Fixed::Wildcard)
        || starts_with(tokens, Fixed::OpenParen)
        || starts_with(tokens, Fixed::OpenBrace)
}

/// Whether a type variable stands next.
pub fn starts_with_variable(tokens: &[Token]) -> bool
    ensures { result ≡ is_variable tokens.now }
{
    match tokens {
        [token, ..] => matches!(&token.kind, TokenKind::TypeVar { .. }),
        [] => false,
    }
}

/// Whether a size or type parameter begins here.
pub fn begins_parameter(tokens: &[Token]) -> bool
    ensures { result ≡ begins Head_item tokens.now }
{
    starts_with(tokens, Fixed::OpenBracket) || starts_with_variable(tokens)
}

/// Whether a module type begins here.
pub fn begins_module_type(tokens: &[Token]) -> bool
    ensures { result ≡ begins_mtype tokens.now }
{
    starts_with_word(tokens)
        || starts_with(tokens, Fixed::OpenBrace)
        || starts_with(tokens, Fixed::OpenParen)
}

/// Whether a member of a module type begins here.
pub fn begins_member(tokens: &[Token]) -> bool
    ensures { result ≡ begins_spec tokens.now }
{
    starts_with(tokens, Fixed::KeyVal)
        || starts_with(tokens, Fixed::KeyType)
        || starts_with(tokens, Fixed::KeyModule)
        || starts_with(tokens, Fixed::KeyInclude)
}

fn is_lifted_of(lift: Lift) -> bool
    ensures { result ≡ is_lifted lift }
{
    match lift {
        Lift::Lifted => true,
        Lift::Plain | Lift::SizeLifted => false,
    }
}

/// A type variable and the tokens behind it.
#[tactic(auto, unfolding(fut_grammar::specs::Reading::variable_at))]
pub fn take_variable<'a>(tokens: &'a [Token]) -> Result<(Head<'a>, &'a [Token]), Stop>
    ensures { Gives (λ x. (head_of x.0, x.1.now)) result (variable_at tokens.now) }
{
    match tokens {
        [token, rest @ ..] => match &token.kind {
            TokenKind::TypeVar { lift, name } => {
                let form = HeadForm::Var {
                    name: name.as_str(),
                    lifted: is_lifted_of(*lift),
                };
                Ok((
                    Head {
                        place: token.place,
                        form,
                    },
                    rest,
                ))
            }
            _ => Err(Stop::Fault(refused(tokens))),
        },
        [] => Err(Stop::Fault(refused(tokens))),
    }
}

/// Whether a name and a colon stand next.
pub fn begins_name_and_colon(tokens: &[Token]) -> bool
    ensures { result ≡ begins_named tokens.now }
{
    starts_with_word(tokens) && starts_with(rest_of(tokens), Fixed::Colon)
}

// Names with points between, as many as stand there.
fn names<'a>(bump: &'a Bump, tokens: &'a [Token]) -> Result<(&'a [&'a str], &'a [Token]), Stop>
    ensures { Gives (λ x. (names x.0.now, x.1.now)) result (names_at (length tokens.now) tokens.now) }
{
    let mut made = Vec::new(bump);
    let mut rest = tokens;
    'names: for _turn in 0..tokens.len() {
        let (name, after) = match take_word(rest) {
            Ok(found) => found,
            Err(stop) => return Err(stop),
        };
        match made.push(name) {
            Ok(()) => (),
            Err(_) => return Err(Stop::Memory),
        }
        match without_form(What::LocalOpen, after) {
            Ok(()) => (),
            Err(stop) => return Err(stop),
        }
        if !starts_with(after, Fixed::Dot) {
            return Ok((into_bump_slice(made), after));
        }
        rest = rest_of(after);
    }
    Err(Stop::Fault(refused(rest)))
}

/// A path of names and the tokens behind it.
#[tactic(auto, unfolding(fut_grammar::specs::Reading::path_at))]
pub fn take_path<'a>(
    bump: &'a Bump,
    tokens: &'a [Token],
) -> Result<(&'a [&'a str], &'a [Token]), Stop>
    ensures { Gives (λ x. (names x.0.now, x.1.now)) result (path_at tokens.now) }
{
    names(bump, tokens)
}

/// An integer and the tokens behind it.
#[tactic(auto, unfolding(fut_grammar::specs::Reading::number_at))]
pub fn take_number(tokens: &[Token]) -> Result<(u64, Option<IntType>, &[Token]), Stop>
    ensures { Gives (λ x. ((x.0, x.1), x.2.now)) result (number_at tokens.now) }
{
    match tokens {
        [token, rest @ ..] => match &token.kind {
            TokenKind::Int { value, suffix } => Ok((*value, *suffix, rest)),
            _ => Err(Stop::Fault(refused(tokens))),
        },
        [] => Err(Stop::Fault(refused(tokens))),
    }
}

/// A text and the tokens behind it.
#[tactic(auto, unfolding(fut_grammar::specs::Reading::text_at))]
pub fn take_text<'a>(tokens: &'a [Token]) -> Result<(&'a str, &'a [Token]), Stop>
    ensures { Gives (λ x. (x.0.now, x.1.now)) result (text_at tokens.now) }
{
    match tokens {
        [token, rest @ ..] => match &token.kind {
            TokenKind::Text(text) => Ok((text.as_str(), rest)),
            _ => Err(Stop::Fault(refused(tokens))),
        },
        [] => Err(Stop::Fault(refused(tokens))),
    }
}

// A size and its closing bracket, which stays.
#[tactic(auto)]
fn closed<'a>(
    size: SizeExp<'a>,
    tokens: &'a [Token],
) -> Result<(Option<SizeExp<'a>>, &'a [Token]), Stop>
    ensures exact { Gives (λ x. (maybe_size_of x.0, x.1.now)) result (closed_size (size_of size.entry) tokens.now) }
    ensures close { IfOk result (λ x. starts Fixed.CloseBracket x.1.now ≡ true) }
{
    if starts_with(tokens, Fixed::CloseBracket) {
        Ok((Some(size), tokens))
    } else if starts_with(tokens, Fixed::Plus)
        || starts_with(tokens, Fixed::Minus)
        || starts_with(tokens, Fixed::Star)
    {
        Err(Stop::Fault(Fault::LeftOut(tokens.len(), What::SizeExpression)))
    } else {
        Err(Stop::Fault(refused(tokens)))
    }
}

fn left_out_size(tokens: &[Token]) -> Fault
    ensures { result ≡ size_left_out tokens.now }
{
    match tokens {
        [] => Fault::Syntax(0),
        [_, ..] => refused_as(Fault::LeftOut(tokens.len(), What::SizeExpression), tokens),
    }
}

/// A size or none, before its bracket, and the tokens from the bracket on.
#[tactic(auto, unfolding(fut_grammar::specs::Reading::size_at))]
pub fn take_size<'a>(
    bump: &'a Bump,
    tokens: &'a [Token],
) -> Result<(Option<SizeExp<'a>>, &'a [Token]), Stop>
    ensures exact { Gives (λ x. (maybe_size_of x.0, x.1.now)) result (size_at tokens.now) }
    ensures close { IfOk result (λ x. starts Fixed.CloseBracket x.1.now ≡ true) }
{
    let place = next_spot(tokens).place;
    if starts_with(tokens, Fixed::CloseBracket) {
        Ok((None, tokens))
    } else if starts_with_word(tokens) {
        match take_path(bump, tokens) {
            Ok((path, rest)) => {
                let form = SizeForm::Path(path);
                closed(SizeExp { place, form }, rest)
            }
            Err(stop) => Err(stop),
        }
    } else if starts_with_int(tokens) {
        match take_number(tokens) {
            Ok((value, _, rest)) => {
                let form = SizeForm::Const(value);
                closed(SizeExp { place, form }, rest)
            }
            Err(stop) => Err(stop),
        }
    } else {
        Err(Stop::Fault(left_out_size(tokens)))
    }
}
