// What stands at the front of a text.
ghost use Rattle.std.specs.Prelude.{◌≡◌, ◌≤◌, IfOk, IfSome, length};
ghost use Rattle.std.specs.Str.{encode_utf8_all};
ghost use Rattle.fut_lexer.specs.Rules.{close_len};
ghost use Rattle.fut_lexer.specs.Private.FrontReading.{field_at, front_at, hash_at, integer_at, integer_in, name_len, quote_at, sign_at, symbol_at, text_at, type_variable, type_variable_at, with_suffix, word_kind};
ghost use Rattle.fut_lexer.specs.Words.{keyword};
ghost use Rattle.fut_lexer.specs.Scanned.{joins};

use crate::classes::{behind, front_part, word_len};
use crate::number::Base;
use crate::{classes, number, words};
use fut_scalar::{IntType, Name, NoMemory};
use fut_token::{Fixed, Lift, TokenKind};
use std::alloc::Global;

/// What stands at the front of a text, and how many characters it has.
#[derive(Drop)]
pub enum Front {
    /// Blanks or a comment.
    Gap(usize),
    Attribute(usize),
    Token(TokenKind, usize),
    Bad,
    Float,
}

/// These characters as a name.
fn spelled(alloc: Global, letters: &[char]) -> Result<Name, NoMemory>
    ensures { IfOk result (λ name. name ≡ encode_utf8_all letters.now) }
{
    let mut text = String::new(alloc);
    for c in letters {
        match text.push(*c) {
            Ok(()) => {}
            Err(_) => return Err(NoMemory),
        }
    }
    Ok(Name::from_string(text))
}

fn word_kind(alloc: Global, letters: &[char]) -> Result<TokenKind, NoMemory>
    ensures { IfOk result (λ kind. kind ≡ word_kind (keyword letters.now) letters.now) }
{
    match words::keyword(letters) {
        Some(fixed) => Ok(TokenKind::Fixed(fixed)),
        None => Ok(TokenKind::Name(spelled(alloc, letters)?)),
    }
}

/// The length of a name that is neither a keyword nor the wildcard, or 0.
#[tactic(auto, unfolding(crate::specs::Private::FrontReading::name_len))]
fn name_len(text: &[char]) -> usize
    ensures value { result ≡ name_len text.now }
    ensures within { result ≤ length text.now }
{
    let n = word_len(text);
    match words::keyword(front_part(text, n)) {
        None => n,
        Some(_) => 0,
    }
}

fn with_suffix(value: u64, n: usize, word: usize, suffix: Option<IntType>) -> Front
    requires digits { n ≤ 2305843009213693951 }
    requires word { word ≤ 2305843009213693951 }
    ensures { result ≡ with_suffix value n word suffix }
{
    if word == 0 {
        return Front::Token(
            TokenKind::Int {
                value,
                suffix: None,
            },
            n,
        );
    }
    match suffix {
        None => Front::Bad,
        Some(_) => Front::Token(TokenKind::Int { value, suffix }, n + word),
    }
}

/// An integer whose digits begin behind `skip` characters.
#[tactic(auto, unfolding(crate::specs::Private::FrontReading::integer_in))]
fn integer_in(base: Base, skip: usize, text: &[char]) -> Front
    requires { skip ≤ 2 }
    ensures { result ≡ integer_in base skip text.now }
{
    let inner = behind(text, skip);
    let run = number::number_len(base, inner);
    let digits = front_part(inner, run);
    let rest = behind(inner, run);
    if number::ends_in_underscore(digits) {
        return Front::Bad;
    }
    if number::is_float(base, rest) {
        return Front::Float;
    }
    match number::value(base, digits) {
        None => Front::Bad,
        Some(value) => {
            let word = word_len(rest);
            with_suffix(
                value,
                skip + run,
                word,
                words::suffix_of(front_part(rest, word)),
            )
        }
    }
}

#[tactic(auto, unfolding(crate::specs::Private::FrontReading::integer_at))]
fn integer(text: &[char]) -> Front
    ensures { result ≡ integer_at text.now }
{
    if number::begins_in('x', Base::Hexadecimal, text) {
        integer_in(Base::Hexadecimal, 2, text)
    } else if number::begins_in('b', Base::Binary, text) {
        integer_in(Base::Binary, 2, text)
    } else {
        integer_in(Base::Decimal, 0, text)
    }
}

fn type_variable(alloc: Global, lift: Lift, before: usize, text: &[char]) -> Result<Front, NoMemory>
    requires { before ≤ 2 }
    ensures { IfOk result (λ front. front ≡ type_variable lift before text.now) }
{
    let n = name_len(text);
    if n == 0 {
        return Ok(Front::Bad);
    }
    let name = spelled(alloc, front_part(text, n))?;
    Ok(Front::Token(TokenKind::TypeVar { lift, name }, before + n))
}

#[tactic(auto, unfolding(crate::specs::Private::FrontReading::type_variable_at))]
fn type_variable_at(alloc: Global, text: &[char]) -> Result<Front, NoMemory>
    ensures { IfOk result (λ front. front ≡ type_variable_at text.now) }
{
    match text {
        [] => Ok(Front::Bad),
        [c, rest @ ..] => {
            if *c == '^' {
                type_variable(alloc, Lift::Lifted, 2, rest)
            } else if *c == '~' {
                type_variable(alloc, Lift::SizeLifted, 2, rest)
            } else {
                type_variable(alloc, Lift::Plain, 1, text)
            }
        }
    }
}

/// Behind a quote.
#[tactic(auto, unfolding(crate::specs::Private::FrontReading::quote_at))]
fn quote(alloc: Global, text: &[char]) -> Result<Front, NoMemory>
    ensures { IfOk result (λ front. front ≡ quote_at text.now) }
{
    match text {
        [] => Ok(Front::Bad),
        [_] => type_variable_at(alloc, text),
        [c, d, ..] => {
            if *d == '\'' {
                Ok(Front::Token(TokenKind::Char(*c), 3))
            } else {
                type_variable_at(alloc, text)
            }
        }
    }
}

/// Where the first bracket closes.
fn close_len(text: &[char]) -> Option<usize>
    ensures value { result ≡ close_len 0 0 text.now }
    ensures within { IfSome result (λ n. n ≤ length text.now) }
{
    let mut seen: usize = 0;
    let mut depth: usize = 0;
    for c in text {
        if *c == ']' {
            if depth <= 1 {
                return Some(seen + 1);
            }
            depth -= 1;
        } else if *c == '[' {
            depth += 1;
        }
        seen += 1;
    }
    None
}

/// Behind a `#`.
#[tactic(auto, unfolding(crate::specs::Private::FrontReading::hash_at))]
fn hash(alloc: Global, text: &[char]) -> Result<Front, NoMemory>
    ensures { IfOk result (λ front. front ≡ hash_at text.now) }
{
    match text {
        [] => Ok(Front::Bad),
        [c, ..] => {
            if *c == '[' {
                return match close_len(text) {
                    None => Ok(Front::Bad),
                    Some(n) => Ok(Front::Attribute(1 + n)),
                };
            }
            let n = name_len(text);
            if n == 0 {
                return Ok(Front::Bad);
            }
            let name = spelled(alloc, front_part(text, n))?;
            Ok(Front::Token(TokenKind::Constructor(name), 1 + n))
        }
    }
}

/// Behind a double quote.
#[tactic(auto, unfolding(crate::specs::Private::FrontReading::text_at))]
fn quoted_text(alloc: Global, text: &[char]) -> Result<Front, NoMemory>
    ensures { IfOk result (λ front. front ≡ text_at text.now) }
{
    let n = classes::text_len(text);
    if classes::begins_with('"', behind(text, n)) {
        let inner = spelled(alloc, front_part(text, n))?;
        Ok(Front::Token(TokenKind::Text(inner), 2 + n))
    } else {
        Ok(Front::Bad)
    }
}

fn fixed(fixed: Fixed, n: usize) -> Front
    ensures { result ≡ Front.Token (TokenKind.Fixed fixed) n }
{
    Front::Token(TokenKind::Fixed(fixed), n)
}

/// The longest symbol.
#[tactic(auto, unfolding(crate::specs::Private::FrontReading::symbol_at))]
fn symbol(text: &[char]) -> Front
    ensures { result ≡ symbol_at text.now }
{
    if let [a, b, c, ..] = text {
        if let Some(s) = words::symbol_3(*a, *b, *c) {
            return fixed(s, 3);
        }
    }
    if let [a, b, ..] = text {
        if let Some(s) = words::symbol_2(*a, *b) {
            return fixed(s, 2);
        }
    }
    if let [a, ..] = text {
        if let Some(s) = words::symbol_1(*a) {
            return fixed(s, 1);
        }
    }
    Front::Bad
}

/// Behind the point of a field.
#[tactic(auto, unfolding(crate::specs::Private::FrontReading::field_at))]
fn field(alloc: Global, text: &[char]) -> Result<Front, NoMemory>
    ensures { IfOk result (λ front. front ≡ field_at text.now) }
{
    let n = classes::digits(text);
    let digits = spelled(alloc, front_part(text, n))?;
    Ok(Front::Token(TokenKind::Field(digits), 1 + n))
}

#[tactic(auto, unfolding(crate::specs::Private::FrontReading::sign_at))]
fn sign(alloc: Global, joined: bool, text: &[char]) -> Result<Front, NoMemory>
    ensures { IfOk result (λ front. front ≡ sign_at joined text.now) }
{
    match text {
        [] => Ok(Front::Bad),
        [c, rest @ ..] => {
            if *c == '-' && classes::begins_with('-', rest) {
                return Ok(Front::Gap(classes::line_len(text)));
            }
            if *c == '.' && joined && number::starts_field(rest) {
                return field(alloc, rest);
            }
            Ok(symbol(text))
        }
    }
}

/// What stands at the front of a text that is not empty. Where `joined`, a name, a field or a closing bracket stands directly before.
#[tactic(auto, unfolding(crate::specs::Private::FrontReading::front_at))]
pub fn read_front(alloc: Global, joined: bool, text: &[char]) -> Result<Front, NoMemory>
    ensures { IfOk result (λ front. front ≡ front_at joined text.now) }
{
    match text {
        [] => Ok(Front::Bad),
        [c, rest @ ..] => {
            let c = *c;
            if classes::is_blank(c) {
                Ok(Front::Gap(1 + classes::blanks(rest)))
            } else if name_characters::starts_name(c) {
                let n = word_len(text);
                let kind = word_kind(alloc, front_part(text, n))?;
                Ok(Front::Token(kind, n))
            } else if classes::is_digit(c) {
                Ok(integer(text))
            } else if c == '\'' {
                quote(alloc, rest)
            } else if c == '#' {
                hash(alloc, rest)
            } else if c == '"' {
                quoted_text(alloc, rest)
            } else {
                sign(alloc, joined, text)
            }
        }
    }
}

/// Whether a point and digits directly behind such a token are a field.
#[tactic(auto, unfolding(crate::specs::Scanned::joins))]
pub fn joins(kind: &TokenKind) -> bool
    ensures { result ≡ joins kind.now }
{
    match kind {
        TokenKind::Name(_) | TokenKind::Field(_) => true,
        TokenKind::Fixed(fixed) => match fixed {
            Fixed::CloseParen | Fixed::CloseBracket | Fixed::CloseBrace => true,
            _ => false,
        },
        _ => false,
    }
}
