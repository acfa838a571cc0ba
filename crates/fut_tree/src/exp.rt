// Expressions.

use crate::held::Held;
use crate::pat::{Head, Pat};
use crate::ty::TypeExp;
use fut_ast::{End, Oper};
use fut_scalar::{IntType, Place};
use std::marker::Model;

/// An expression.
#[cycle(exp)]
#[derive(Drop)]
pub struct Exp<'a> {
    /// The place of its first token.
    pub place: Place,
    /// Where a report or a consumption of this form stands: its bracket, operator or keyword, else its place.
    pub mark: Place,
    pub form: Form<'a>,
}

#[cycle(exp)]
#[derive(Clone, Copy)]
pub enum Form<'a> {
    Path(&'a [&'a str]),
    Int {
        value: u64,
        ty: Option<IntType>,
    },
    Bool(bool),
    Unit,
    Tuple(&'a [Held<'a, Exp<'a>>]),
    Record(&'a [ExpField<'a>]),
    Array(&'a [Held<'a, Exp<'a>>]),
    Apply(&'a Exp<'a>, &'a Exp<'a>),
    Binary(Oper, &'a Exp<'a>, &'a Exp<'a>),
    Unary(Oper, &'a Exp<'a>),
    Lambda(&'a [Held<'a, Pat<'a>>], Option<&'a TypeExp<'a>>, &'a Exp<'a>),
    /// A row of `let`s and the body behind it.
    Lets(&'a [Bind<'a>], &'a Exp<'a>),
    If(&'a Exp<'a>, &'a Exp<'a>, &'a Exp<'a>),
    /// Size names, parameter, first value, form, body.
    Loop(&'a [&'a str], &'a Pat<'a>, &'a Exp<'a>, &'a LoopForm<'a>, &'a Exp<'a>),
    Index(&'a Exp<'a>, &'a [Ix<'a>]),
    Field(&'a Exp<'a>, &'a str),
    /// An array with another element at the indices.
    Update(&'a Exp<'a>, &'a [Held<'a, Exp<'a>>], &'a Exp<'a>),
    /// A record with another field.
    Replace(&'a Exp<'a>, &'a str, &'a Exp<'a>),
    Ascribe(&'a Exp<'a>, &'a TypeExp<'a>),
    Coerce(&'a Exp<'a>, &'a TypeExp<'a>),
    Assert(&'a Exp<'a>, &'a Exp<'a>),
    Range {
        from: &'a Exp<'a>,
        next: Option<&'a Exp<'a>>,
        end: End,
        to: &'a Exp<'a>,
    },
}

/// A field of a record.
#[cycle(exp)]
#[derive(Clone, Copy)]
pub struct ExpField<'a> {
    pub name: &'a str,
    pub exp: &'a Exp<'a>,
}

/// One `let`. One that is written with parameters binds one name to a lambda, and may have heads.
#[cycle(exp)]
#[derive(Clone, Copy)]
pub struct Bind<'a> {
    pub sizes: &'a [&'a str],
    pub pat: &'a Pat<'a>,
    /// Whether it is written with parameters, and so may be used at several types.
    pub is_function: bool,
    pub heads: &'a [Head<'a>],
    pub value: &'a Exp<'a>,
}

#[cycle(exp)]
#[derive(Clone, Copy)]
pub enum LoopForm<'a> {
    For(&'a str, &'a Exp<'a>),
    ForIn(&'a Pat<'a>, &'a Exp<'a>),
    While(&'a Exp<'a>),
}

/// A part of an index.
#[cycle(exp)]
#[derive(Clone, Copy)]
pub enum Ix<'a> {
    At(&'a Exp<'a>),
    Slice(Option<&'a Exp<'a>>, Option<&'a Exp<'a>>),
    /// `::-1`
    Backwards,
}

impl<'a> Model for Exp<'a> {
    ghost use Rattle.fut_ast.specs.Sorts.{SourceExp};

    ghost Value = { SourceExp };

    ghost use Rattle.fut_ast.specs.contracts.exp.Exp as exp;
    ghost use Rattle.std.specs.Coded.{codes};

    ghost coded = { Prim.hlevel (codes, exp.the_row.coded) };

    ghost use Rattle.fut_tree.specs.Exps.{exp_of, exp_size};

    ghost view = { exp_of };

    ghost size = { exp_size };

    ghost use Rattle.fut_tree.specs.ExpsFall.{exp_falls};

    ghost size_decreases = { λ e is. exp_falls e };
}
