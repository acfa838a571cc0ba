// What stands next where an expression does, and taking it.
ghost use Rattle.std.specs.Prelude.{◌≡◌, ◌≤◌};
ghost use Rattle.fut_ast.specs.Behind.{
  begins_argument,
  begins_atom,
  begins_big,
  begins_operand,
  behind_app,
  behind_atom,
  behind_chain,
  behind_range,
  behind_typed,
  behind_updated,
  goes_back,
  goes_range,
  head_follows,
  is_function_let,
  is_section,
  is_update_let,
};
ghost use Rattle.fut_ast.specs.Operators.{
  any_operator,
  behind_operator,
  fits,
  fitting_at,
  is_whole,
  left_level,
  level,
  operator_at,
  right_level,
  section_at,
};
ghost use Rattle.fut_ast.specs.Parts.{going_back};
ghost use Rattle.fut_ast.specs.Tokens.{is_tight, starts_loose, starts_tight};
ghost use Rattle.fut_grammar.specs.Phrases.{operator_between};
ghost use Rattle.fut_grammar.specs.Reading.{Gives, digits_at, end_at, look_at, one_at, operator_taken};

use fut_ast::{End, Ended, Spot, What};
use fut_grammar::{Fault, Stop};
use fut_token::{Fixed, Token, TokenKind};
use parse_types::tokens::{
    begins_parameter, begins_pattern, next_spot, refused, rest_of, starts_with, starts_with_int,
    starts_with_word, take_number, take_word_before,
};

fn stands_tight(tokens: &[Token]) -> bool
    ensures { result ≡ is_tight tokens.now }
{
    match tokens {
        [token, ..] => token.tight,
        [] => false,
    }
}

/// Whether a bracket that opens an index stands next.
pub fn starts_with_tight(tokens: &[Token]) -> bool
    ensures { result ≡ starts_tight tokens.now }
{
    starts_with(tokens, Fixed::OpenBracket) && stands_tight(tokens)
}

fn starts_with_loose(tokens: &[Token]) -> bool
    ensures { result ≡ starts_loose tokens.now }
{
    starts_with(tokens, Fixed::OpenBracket) && !stands_tight(tokens)
}

/// Whether an argument of an application begins here.
pub fn begins_exp_argument(tokens: &[Token]) -> bool
    ensures { result ≡ begins_argument tokens.now }
{
    starts_with_word(tokens)
        || starts_with_int(tokens)
        || starts_with(tokens, Fixed::KeyTrue)
        || starts_with(tokens, Fixed::KeyFalse)
        || starts_with(tokens, Fixed::OpenParen)
        || starts_with(tokens, Fixed::OpenBrace)
        || starts_with_loose(tokens)
}

/// Whether an atom begins here.
pub fn begins_exp_atom(tokens: &[Token]) -> bool
    ensures { result ≡ begins_atom tokens.now }
{
    begins_exp_argument(tokens) || starts_with(tokens, Fixed::OpenBracket)
}

/// Whether an operand begins here.
pub fn begins_exp_operand(tokens: &[Token]) -> bool
    ensures { result ≡ begins_operand tokens.now }
{
    begins_exp_atom(tokens)
        || starts_with(tokens, Fixed::Minus)
        || starts_with(tokens, Fixed::Bang)
        || starts_with(tokens, Fixed::KeyAssert)
}

/// Whether a form begins here that reaches far.
pub fn begins_exp_big(tokens: &[Token]) -> bool
    ensures { result ≡ begins_big tokens.now }
{
    starts_with(tokens, Fixed::KeyLet)
        || starts_with(tokens, Fixed::KeyIf)
        || starts_with(tokens, Fixed::KeyLoop)
        || starts_with(tokens, Fixed::Backslash)
}

/// Whether an index or a field stands next.
pub fn goes_on_atom(tokens: &[Token]) -> bool
    ensures { result ≡ behind_atom tokens.now }
{
    starts_with_tight(tokens)
        || starts_with(tokens, Fixed::Dot)
        || matches!(tokens, [token, ..] if matches!(&token.kind, TokenKind::Field(_)))
}

/// The same, or an argument.
pub fn goes_on_app(tokens: &[Token]) -> bool
    ensures { result ≡ behind_app tokens.now }
{
    goes_on_atom(tokens) || begins_exp_argument(tokens)
}

/// The same, or an operator of a level or tighter, behind what ended so.
pub fn goes_on_chain(least: u8, ended: Ended, tokens: &[Token]) -> bool
    ensures { result ≡ behind_chain least ended tokens.now }
{
    match ended {
        Ended::Operands(_) => goes_on_app(tokens) || next_fitting(ended, least, tokens).is_some(),
        Ended::Range | Ended::Update | Ended::Type => false,
    }
}

/// Whether the end of a range stands next, or its second element.
pub fn goes_on_to_range(tokens: &[Token]) -> bool
    ensures { result ≡ goes_range tokens.now }
{
    starts_with(tokens, Fixed::DotDot)
        || starts_with(tokens, Fixed::DotDotLess)
        || starts_with(tokens, Fixed::DotDotGreater)
        || starts_with(tokens, Fixed::DotDotDot)
}

/// Whether the next tokens go on with a range that ended so.
pub fn goes_on_range(ended: Ended, tokens: &[Token]) -> bool
    ensures { result ≡ behind_range ended tokens.now }
{
    goes_on_chain(1, ended, tokens)
        || (matches!(ended, Ended::Operands(_)) && goes_on_to_range(tokens))
}

/// The same, or an update stands next.
pub fn goes_on_updated(ended: Ended, tokens: &[Token]) -> bool
    ensures { result ≡ behind_updated ended tokens.now }
{
    goes_on_range(ended, tokens)
        || (!matches!(ended, Ended::Type) && starts_with(tokens, Fixed::KeyWith))
}

/// The same, or a type stands next.
pub fn goes_on_typed(ended: Ended, tokens: &[Token]) -> bool
    ensures { result ≡ behind_typed ended tokens.now }
{
    goes_on_updated(ended, tokens)
        || starts_with(tokens, Fixed::Colon)
        || starts_with(tokens, Fixed::ColonGreater)
}

/// How tight an operator binds.
pub fn level_of(fixed: Fixed) -> u8
    ensures exact { result ≡ level fixed }
    ensures low { result ≤ 11 }
{
    match fixed {
        Fixed::Backtick => 1,
        Fixed::PipeRight => 2,
        Fixed::PipeLeft => 3,
        Fixed::OrOr => 4,
        Fixed::AndAnd => 5,
        Fixed::EqualEqual
        | Fixed::BangEqual
        | Fixed::Less
        | Fixed::LessEqual
        | Fixed::Greater
        | Fixed::GreaterEqual
        | Fixed::ComposeRight
        | Fixed::ComposeLeft => 6,
        Fixed::And | Fixed::Caret | Fixed::Or => 7,
        Fixed::ShiftLeft | Fixed::ShiftRight => 8,
        Fixed::Plus | Fixed::Minus => 9,
        Fixed::Star | Fixed::Slash | Fixed::Percent | Fixed::SlashSlash | Fixed::PercentPercent =>
            10,
        Fixed::StarStar => 11,
        _ => 0,
    }
}

/// The least level of an operator's left operand.
pub fn left_level_of(fixed: Fixed) -> u8
    ensures { result ≡ left_level fixed }
{
    let level = level_of(fixed);
    if level == 3 { level + 1 } else { level }
}

/// The least level of an operator's right operand.
pub fn right_level_of(fixed: Fixed) -> u8
    ensures { result ≡ right_level fixed }
{
    let level = level_of(fixed);
    if level == 3 { level } else { level + 1 }
}

/// What stands behind an operator.
pub fn past_operator(fixed: Fixed, tokens: &[Token]) -> &[Token]
    ensures { result.now ≡ behind_operator fixed tokens.now }
{
    match fixed {
        Fixed::Backtick => rest_of(rest_of(tokens)),
        _ => tokens,
    }
}

/// The operator of a level or tighter that stands next.
pub fn next_operator(least: u8, tokens: &[Token]) -> Option<Fixed>
    ensures { result ≡ operator_at least tokens.now }
{
    match tokens {
        [token, ..] => match &token.kind {
            TokenKind::Fixed(fixed) => {
                let level = level_of(*fixed);
                if 1 <= level && least <= level {
                    Some(*fixed)
                } else {
                    None
                }
            }
            _ => None,
        },
        [] => None,
    }
}

/// The same, if it may have on its left what stands there, which ended so.
pub fn next_fitting(ended: Ended, least: u8, tokens: &[Token]) -> Option<Fixed>
    ensures { result ≡ fitting_at ended least tokens.now }
{
    match next_operator(least, tokens) {
        Some(fixed) => {
            if takes_left(ended, left_level_of(fixed)) {
                Some(fixed)
            } else {
                None
            }
        }
        None => None,
    }
}

/// The operator that stands next, whatever stands behind it.
pub fn next_any_operator(tokens: &[Token]) -> Option<Fixed>
    ensures { result ≡ any_operator tokens.now }
{
    next_operator(1, tokens)
}

// Whether a name and a backtick stand behind a backtick.
fn stands_whole(fixed: Fixed, tokens: &[Token]) -> bool
    ensures { result ≡ is_whole fixed tokens.now }
{
    match fixed {
        Fixed::Backtick => {
            starts_with_word(tokens) && starts_with(rest_of(tokens), Fixed::Backtick)
        }
        _ => true,
    }
}

/// The operator that stands next, with a closing parenthesis behind it.
pub fn next_section(tokens: &[Token]) -> Option<Fixed>
    ensures { result ≡ section_at tokens.now }
{
    let behind = rest_of(tokens);
    match next_any_operator(tokens) {
        Some(fixed) => {
            if stands_whole(fixed, behind)
                && starts_with(past_operator(fixed, behind), Fixed::CloseParen)
            {
                Some(fixed)
            } else {
                None
            }
        }
        None => None,
    }
}

/// The operator that stands next behind operands that ended so. Where a section may end them, its operator is none of these.
pub fn next_between(section_ends: bool, ended: Ended, least: u8, tokens: &[Token]) -> Option<Fixed>
    ensures { result ≡ operator_between section_ends ended least tokens.now }
{
    if section_ends && next_section(tokens).is_some() {
        None
    } else {
        next_fitting(ended, least, tokens)
    }
}

/// Whether an operator directly behind a parenthesis makes a section.
pub fn makes_section(fixed: Fixed, tokens: &[Token]) -> bool
    ensures { result ≡ is_section (Some fixed) tokens.now }
{
    match fixed {
        Fixed::Minus => starts_with(tokens, Fixed::CloseParen),
        _ => true,
    }
}

/// Whether what ended so may stand on the left of an operator that wants this level or a tighter one there.
pub fn takes_left(ended: Ended, least: u8) -> bool
    ensures { result ≡ fits ended least }
{
    match ended {
        Ended::Operands(Some(last)) => least <= level_of(last),
        Ended::Operands(None) => true,
        Ended::Range | Ended::Update | Ended::Type => false,
    }
}

fn goes_on_head(tokens: &[Token]) -> bool
    ensures { result ≡ head_follows tokens.now }
{
    let second = rest_of(tokens);
    let third = rest_of(second);
    let fourth = rest_of(third);
    starts_with_word(second)
        && starts_with(third, Fixed::CloseBracket)
        && (begins_parameter(fourth) || begins_pattern(fourth))
}

/// Whether a `let` is an update.
pub fn begins_update(tokens: &[Token]) -> bool
    ensures { result ≡ is_update_let tokens.now }
{
    let behind = rest_of(tokens);
    starts_with_word(tokens) && starts_with_tight(behind) && !goes_on_head(behind)
}

/// Whether a `let` is a function.
pub fn begins_function(tokens: &[Token]) -> bool
    ensures { result ≡ is_function_let tokens.now }
{
    let behind = rest_of(tokens);
    starts_with_word(tokens)
        && (begins_parameter(behind) || begins_pattern(behind))
        && !begins_update(tokens)
}

/// A point with digits, and the tokens behind it.
#[tactic(auto, unfolding(fut_grammar::specs::Reading::digits_at))]
pub fn take_digits<'a>(tokens: &'a [Token]) -> Result<(&'a str, &'a [Token]), Stop>
    ensures { Gives (λ x. (x.0.now, x.1.now)) result (digits_at tokens.now) }
{
    match tokens {
        [token, rest @ ..] => match &token.kind {
            TokenKind::Field(name) => Ok((name.as_str(), rest)),
            _ => Err(Stop::Fault(refused(tokens))),
        },
        [] => Err(Stop::Fault(refused(tokens))),
    }
}

/// How a range ends, and the tokens behind it.
#[tactic(auto, unfolding(fut_grammar::specs::Reading::end_at))]
pub fn take_end(tokens: &[Token]) -> Result<(End, &[Token]), Stop>
    ensures { Gives (λ x. (x.0, x.1.now)) result (end_at tokens.now) }
{
    if starts_with(tokens, Fixed::DotDotLess) {
        Ok((End::Below, rest_of(tokens)))
    } else if starts_with(tokens, Fixed::DotDotGreater) {
        Ok((End::Above, rest_of(tokens)))
    } else if starts_with(tokens, Fixed::DotDotDot) {
        Ok((End::Through, rest_of(tokens)))
    } else {
        Err(Stop::Fault(refused(tokens)))
    }
}

// Whether "-1" stands next, or the tokens end before it.
fn goes_backwards(tokens: &[Token]) -> bool
    ensures { result ≡ goes_back tokens.now }
{
    match tokens {
        [] => true,
        [_] => starts_with(tokens, Fixed::Minus),
        [_, next, ..] => {
            starts_with(tokens, Fixed::Minus)
                && matches!(&next.kind, TokenKind::Int { value: 1, .. })
        }
    }
}

/// Nothing is taken from a second colon of an index on, unless other than "-1" stands behind it: a stride is left out.
pub fn without_stride(tokens: &[Token]) -> Result<(), Stop>
    ensures { Gives (λ x. tt) result (look_at going_back tokens.now) }
{
    if goes_backwards(rest_of(tokens)) {
        Ok(())
    } else if starts_with(tokens, Fixed::Colon) {
        Err(Stop::Fault(Fault::LeftOut(tokens.len(), What::Stride)))
    } else {
        Err(Stop::Fault(refused(tokens)))
    }
}

/// The integer 1: what follows it.
#[tactic(auto, unfolding(fut_grammar::specs::Reading::one_at))]
pub fn take_one(tokens: &[Token]) -> Result<&[Token], Stop>
    ensures { Gives (λ x. x.now) result (one_at tokens.now) }
{
    match take_number(tokens) {
        Ok((value, _, rest)) => {
            if value == 1 {
                Ok(rest)
            } else {
                Err(Stop::Fault(refused(tokens)))
            }
        }
        Err(stop) => Err(stop),
    }
}

/// An operator, and the name where it is one in backticks.
#[tactic(auto, unfolding(fut_grammar::specs::Reading::operator_taken, fut_grammar::specs::Reading::backtick_at, fut_grammar::specs::Reading::expect))]
pub fn take_operator<'a>(
    fixed: Fixed,
    tokens: &'a [Token],
) -> Result<((Spot, &'a str), &'a [Token]), Stop>
    ensures { Gives (λ x. ((x.0.0, x.0.1.now), x.1.now)) result (operator_taken fixed tokens.now) }
{
    if !starts_with(tokens, fixed) || level_of(fixed) < 1 {
        return Err(Stop::Fault(refused(tokens)));
    }
    let rest = rest_of(tokens);
    match fixed {
        Fixed::Backtick => match take_word_before(rest, Fixed::Backtick) {
            Ok((name, after)) => Ok(((next_spot(rest), name), after)),
            Err(stop) => Err(stop),
        },
        _ => Ok(((next_spot(tokens), ""), rest)),
    }
}
