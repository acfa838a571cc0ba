// Patterns, and the heads of definitions.
use crate::held::Held;
use crate::ty::TypeExp;
use fut_scalar::Place;
use std::marker::Model;

/// A pattern and the place of its first token.
#[cycle(pat)]
#[derive(Drop)]
pub struct Pat<'a> {
    pub place: Place,
    pub form: PatForm<'a>,
}

#[cycle(pat)]
#[derive(Clone, Copy)]
pub enum PatForm<'a> {
    Var(&'a str),
    Wild,
    Unit,
    Tuple(&'a [Held<'a, Pat<'a>>]),
    /// `{x, y = p}`, where the field `x` alone is `x = x`.
    Record(&'a [PatField<'a>]),
    Ascribe(&'a Pat<'a>, &'a TypeExp<'a>),
}

/// A field of a record's pattern.
#[cycle(pat)]
#[derive(Clone, Copy)]
pub struct PatField<'a> {
    pub name: &'a str,
    pub pat: &'a Pat<'a>,
}

/// A size or type parameter of a definition.
#[derive(Clone, Copy)]
pub struct Head<'a> {
    pub place: Place,
    pub form: HeadForm<'a>,
}

#[derive(Clone, Copy)]
pub enum HeadForm<'a> {
    /// `[n]`
    Size(&'a str),
    /// `'a`, or lifted, as `'^a`, for all types.
    Var { name: &'a str, lifted: bool },
}

impl<'a> Model for Pat<'a> {
    ghost use Rattle.fut_ast.specs.Sorts.{SourcePat};

    ghost Value = { SourcePat };

    ghost use Rattle.fut_ast.specs.contracts.pat.Pat as pat;
    ghost use Rattle.std.specs.Coded.{codes};

    ghost coded = { Prim.hlevel (codes, pat.the_row.coded) };

    ghost use Rattle.fut_tree.specs.Pats.{pat_of, pat_size};

    ghost view = { pat_of };

    ghost size = { pat_size };

    ghost use Rattle.fut_tree.specs.PatsFall.{pat_falls};

    ghost size_decreases = { λ p is. pat_falls p };
}
