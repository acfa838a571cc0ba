// Operators between their operands.
ghost use Rattle.std.specs.Prelude.{◌≡◌, IfOk, []};
ghost use Rattle.fut_ast.specs.Nodes.{joined, joined_by, joined_names_by, joining, oper_of, use_of};

use crate::exp_nodes::{call, choice, held, let_name, name_used, truth};
use crate::new_names::PIPED_NAME;
use bumpalo::Bump;
use fut_ast::{Joining, Oper};
use fut_scalar::{BinOp, NoMemory, Place};
use fut_token::Fixed;
use fut_tree::{Exp, Form};

fn oper_for(fixed: Fixed) -> Oper
    ensures { result ≡ oper_of fixed }
{
    match fixed {
        Fixed::EqualEqual => Oper::Bin(BinOp::Eq),
        Fixed::BangEqual => Oper::Bin(BinOp::Ne),
        Fixed::Less => Oper::Bin(BinOp::Lt),
        Fixed::LessEqual => Oper::Bin(BinOp::Le),
        Fixed::Greater => Oper::Bin(BinOp::Gt),
        Fixed::GreaterEqual => Oper::Bin(BinOp::Ge),
        Fixed::ComposeRight => Oper::Then,
        Fixed::ComposeLeft => Oper::After,
        Fixed::And => Oper::Bin(BinOp::And),
        Fixed::Caret => Oper::Bin(BinOp::Xor),
        Fixed::Or => Oper::Bin(BinOp::Or),
        Fixed::ShiftLeft => Oper::Bin(BinOp::Shl),
        Fixed::ShiftRight => Oper::Bin(BinOp::Shr),
        Fixed::Plus => Oper::Bin(BinOp::Add),
        Fixed::Minus => Oper::Bin(BinOp::Sub),
        Fixed::Star => Oper::Bin(BinOp::Mul),
        Fixed::Slash => Oper::Bin(BinOp::Div),
        Fixed::Percent => Oper::Bin(BinOp::Mod),
        Fixed::SlashSlash => Oper::Bin(BinOp::Quot),
        Fixed::PercentPercent => Oper::Bin(BinOp::Rem),
        Fixed::StarStar => Oper::Bin(BinOp::Pow),
        _ => Oper::Not,
    }
}

fn joining_of(fixed: Fixed) -> Joining
    ensures { result ≡ joining fixed }
{
    match fixed {
        Fixed::AndAnd => Joining::Both,
        Fixed::OrOr => Joining::Either,
        Fixed::PipeRight => Joining::Piped,
        Fixed::PipeLeft => Joining::PipedBack,
        Fixed::Backtick => Joining::Named,
        _ => Joining::Plain(oper_for(fixed)),
    }
}

fn piped<'a>(
    bump: &'a Bump,
    from: Place,
    mark: Place,
    a: &'a Exp<'a>,
    b: &'a Exp<'a>,
) -> Result<&'a Exp<'a>, NoMemory>
    ensures { IfOk result (λ e. e.now ≡ joined_by Joining.Piped from mark [] a.now b.now) }
{
    match name_used(bump, a.place, PIPED_NAME) {
        Ok(value) => {
            let called = call(bump, b.place, mark, b, value);
            let_name(bump, from, mark, PIPED_NAME, a, called)
        }
        Err(none) => Err(none),
    }
}

fn named_call<'a>(
    bump: &'a Bump,
    from: Place,
    mark: Place,
    name: &'a str,
    a: &'a Exp<'a>,
    b: &'a Exp<'a>,
) -> Result<&'a Exp<'a>, NoMemory>
    ensures { IfOk result (λ e. e.now ≡ joined_by Joining.Named from mark name.now a.now b.now) }
{
    match name_used(bump, mark, name) {
        Ok(function) => match call(bump, from, mark, function, a) {
            Ok(first) => call(bump, from, mark, first, b),
            Err(none) => Err(none),
        },
        Err(none) => Err(none),
    }
}

/// Two operands and an operator between them; the name is that of an operator in backticks.
pub fn join<'a>(
    bump: &'a Bump,
    fixed: Fixed,
    from: Place,
    mark: Place,
    name: &'a str,
    a: &'a Exp<'a>,
    b: &'a Exp<'a>,
) -> Result<&'a Exp<'a>, NoMemory>
    ensures { IfOk result (λ e. e.now ≡ joined fixed from mark name.now a.now b.now) }
{
    match joining_of(fixed) {
        Joining::Both => match truth(bump, mark, false) {
            Ok(no) => choice(bump, from, mark, a, b, no),
            Err(none) => Err(none),
        },
        Joining::Either => match truth(bump, mark, true) {
            Ok(yes) => choice(bump, from, mark, a, yes, b),
            Err(none) => Err(none),
        },
        Joining::Piped => piped(bump, from, mark, a, b),
        Joining::PipedBack => call(bump, from, mark, a, b),
        Joining::Named => named_call(bump, from, mark, name, a, b),
        Joining::Plain(operator) => held(
            bump,
            Exp {
                place: from,
                mark,
                form: Form::Binary(operator, a, b),
            },
        ),
    }
}

/// A name, and where it is used.
#[derive(Clone, Copy)]
pub struct NameAt<'a> {
    pub place: Place,
    pub name: &'a str,
}

/// The same between the uses of two names.
pub fn join_uses<'a>(
    bump: &'a Bump,
    fixed: Fixed,
    from: Place,
    mark: Place,
    name: &'a str,
    left: NameAt<'a>,
    right: NameAt<'a>,
) -> Result<&'a Exp<'a>, NoMemory>
    ensures { IfOk result (λ e. e.now ≡ joined fixed from mark name.now (use_of left.entry.place left.entry.name.now) (use_of right.entry.place right.entry.name.now)) }
{
    match name_used(bump, left.place, left.name) {
        Ok(a) => match name_used(bump, right.place, right.name) {
            Ok(b) => join(bump, fixed, from, mark, name, a, b),
            Err(none) => Err(none),
        },
        Err(none) => Err(none),
    }
}

/// The same where `|>` needs no other name.
pub fn join_names<'a>(
    bump: &'a Bump,
    fixed: Fixed,
    from: Place,
    mark: Place,
    name: &'a str,
    left: NameAt<'a>,
    right: NameAt<'a>,
) -> Result<&'a Exp<'a>, NoMemory>
    ensures { IfOk result (λ e. e.now ≡ joined_names_by (joining fixed) from mark name.now (use_of left.entry.place left.entry.name.now) (use_of right.entry.place right.entry.name.now)) }
{
    match joining_of(fixed) {
        Joining::Piped => join_uses(bump, Fixed::PipeLeft, from, mark, name, right, left),
        _ => join_uses(bump, fixed, from, mark, name, left, right),
    }
}
