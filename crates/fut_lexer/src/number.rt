// The digits and the value of an integer.
ghost use Rattle.std.specs.Prelude.{◌≡◌, ◌≤◌, ◌+◌, ◌*◌, ◌^◌, IfNone, IfSome, length};
ghost use Rattle.std.specs.List.{prefix_len};
ghost use Rattle.fut_lexer.specs.Numbers.{begins_float_suffix, begins_fraction, begins_in, is_float, starts_digit};
ghost use Rattle.fut_lexer.specs.Numbers.{digit_of, ends_in_underscore, is_digit_of, is_in_number, radix, value};

use crate::classes::is_digit;

/// What an integer's digits count in.
#[derive(Clone, Copy)]
pub enum Base {
    Decimal,
    Hexadecimal,
    Binary,
}

fn radix(base: Base) -> u64
    ensures { result ≡ radix base }
{
    match base {
        Base::Decimal => 10,
        Base::Hexadecimal => 16,
        Base::Binary => 2,
    }
}

#[tactic(auto, unfolding(crate::specs::Numbers::is_digit_of))]
fn is_digit_of(base: Base, c: char) -> bool
    ensures { result ≡ is_digit_of base c }
{
    match base {
        Base::Decimal => is_digit(c),
        Base::Hexadecimal => is_digit(c) || ('a' <= c && c <= 'f') || ('A' <= c && c <= 'F'),
        Base::Binary => c == '0' || c == '1',
    }
}

#[tactic(auto, unfolding(crate::specs::Numbers::is_in_number))]
fn is_in_number(base: Base, c: char) -> bool
    ensures { result ≡ is_in_number base c }
{
    is_digit_of(base, c) || c == '_'
}

/// How many digits and underscores stand at the front.
#[tactic(auto, using(crate::proofs::Runs::prefix_within))]
pub fn number_len(base: Base, text: &[char]) -> usize
    ensures value { result ≡ prefix_len (is_in_number base) text.now }
    ensures within { result ≤ length text.now }
{
    text.iter().take_while(|c| is_in_number(base, **c)).count()
}

#[tactic(auto, unfolding(crate::specs::Numbers::digit_of))]
fn digit_of(c: char) -> u64
    ensures { result ≡ digit_of c }
{
    let code = c as u64;
    if code <= 57 {
        code.saturating_sub(48)
    } else if code <= 70 {
        code.saturating_sub(55)
    } else {
        code.saturating_sub(87)
    }
}

fn next_value(base: Base, n: u64, c: char) -> Option<u64>
    ensures some { IfSome result (λ v. v ≡ n * radix base + digit_of c) }
    ensures none { IfNone result (2 ^ 64 ≤ n * radix base + digit_of c) }
{
    match n.checked_mul(radix(base)) {
        None => None,
        Some(tens) => tens.checked_add(digit_of(c)),
    }
}

/// The value of digits with underscores between them, where it is below 2^64.
pub fn value(base: Base, digits: &[char]) -> Option<u64>
    ensures some { IfSome result (λ v. v ≡ value base digits.now) }
    ensures none { IfNone result (2 ^ 64 ≤ value base digits.now) }
{
    let mut n: u64 = 0;
    for c in digits {
        if *c == '_' {
            continue;
        }
        match next_value(base, n, *c) {
            None => return None,
            Some(next) => n = next,
        }
    }
    Some(n)
}

pub fn ends_in_underscore(digits: &[char]) -> bool
    ensures { result ≡ ends_in_underscore digits.now }
{
    match digits {
        [] => false,
        [.., c] => *c == '_',
    }
}

fn starts_digit(base: Base, text: &[char]) -> bool
    ensures { result ≡ starts_digit base text.now }
{
    match text {
        [] => false,
        [c, ..] => is_digit_of(base, *c),
    }
}

fn begins_float_suffix(text: &[char]) -> bool
    ensures { result ≡ begins_float_suffix text.now }
{
    match text {
        [a, b, c, ..] => {
            *a == 'f'
                && ((*b == '1' && *c == '6')
                    || (*b == '3' && *c == '2')
                    || (*b == '6' && *c == '4'))
        }
        _ => false,
    }
}

fn begins_fraction(text: &[char]) -> bool
    ensures { result ≡ begins_fraction text.now }
{
    match text {
        [a, b, ..] => {
            (*a == '.' && is_digit(*b))
                || ((*a == 'e' || *a == 'E') && (is_digit(*b) || *b == '+' || *b == '-'))
        }
        _ => false,
    }
}

/// Whether an integer of the base with this directly behind it is a float.
#[tactic(auto, unfolding(crate::specs::Numbers::is_float))]
pub fn is_float(base: Base, rest: &[char]) -> bool
    ensures { result ≡ is_float base rest.now }
{
    match base {
        Base::Decimal => begins_fraction(rest) || begins_float_suffix(rest),
        Base::Hexadecimal | Base::Binary => false,
    }
}

/// Whether the text begins with `0`, the letter and a digit of the base.
pub fn begins_in(letter: char, base: Base, text: &[char]) -> bool
    ensures { result ≡ begins_in letter base text.now }
{
    match text {
        [z, x, rest @ ..] => *z == '0' && *x == letter && starts_digit(base, rest),
        _ => false,
    }
}

/// Whether the digit of a field stands at the front.
#[tactic(auto, unfolding(crate::specs::Numbers::is_digit_of))]
pub fn starts_field(text: &[char]) -> bool
    ensures { result ≡ starts_digit (Base.Decimal) text.now }
{
    match text {
        [] => false,
        [c, ..] => is_digit(*c),
    }
}
