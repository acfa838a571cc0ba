// Declarations, modules and module types. They exist in source texts alone.

use crate::exp::Exp;
use crate::held::Held;
use crate::pat::{Head, Pat};
use crate::ty::TypeExp;
use fut_scalar::Place;
use std::marker::Model;

/// A name and its place.
#[derive(Clone, Copy)]
pub struct Label<'a> {
    pub name: &'a str,
    pub place: Place,
}

/// A module type and the place of its first token.
#[cycle(mtype)]
#[derive(Drop)]
pub struct ModType<'a> {
    pub place: Place,
    pub form: ModTypeForm<'a>,
}

#[cycle(mtype)]
#[derive(Clone, Copy)]
pub enum ModTypeForm<'a> {
    Path(&'a [&'a str]),
    Specs(&'a [Spec<'a>]),
    /// `S with t = type with u = type`
    With(&'a ModType<'a>, &'a [With<'a>]),
    Arrow(Label<'a>, &'a ModType<'a>, &'a ModType<'a>),
}

/// `with t = type`, and the place of the path.
#[derive(Clone, Copy)]
pub struct With<'a> {
    pub place: Place,
    pub path: &'a [&'a str],
    pub ty: &'a TypeExp<'a>,
}

/// A member of a module type and the place of its first token.
#[cycle(mtype)]
#[derive(Clone, Copy)]
pub struct Spec<'a> {
    pub place: Place,
    pub form: SpecForm<'a>,
}

#[cycle(mtype)]
#[derive(Clone, Copy)]
pub enum SpecForm<'a> {
    Value(Label<'a>, &'a [Head<'a>], &'a TypeExp<'a>),
    TypeName(Label<'a>, Option<&'a TypeExp<'a>>),
    Module(Label<'a>, &'a ModType<'a>),
    Include(&'a ModType<'a>),
}

/// A parameter of a parametric module.
#[derive(Clone, Copy)]
pub struct Param<'a> {
    pub label: Label<'a>,
    pub bound: &'a ModType<'a>,
}

/// A module expression and the place of its first token.
#[cycle(module)]
#[derive(Drop)]
pub struct ModExp<'a> {
    pub place: Place,
    pub form: ModForm<'a>,
}

#[cycle(module)]
#[derive(Clone, Copy)]
pub enum ModForm<'a> {
    Path(&'a [&'a str]),
    Decs(&'a [Dec<'a>]),
    /// A parametric module and its arguments.
    Apply(&'a ModExp<'a>, &'a [Held<'a, ModExp<'a>>]),
    Import(&'a str),
    /// Parameter, its module type, the type of the body, the body.
    Lambda(Label<'a>, &'a ModType<'a>, Option<&'a ModType<'a>>, &'a ModExp<'a>),
    Seal(&'a ModExp<'a>, &'a ModType<'a>),
}

/// A declaration and the place of its first token.
#[cycle(module)]
#[derive(Clone, Copy)]
pub struct Dec<'a> {
    pub place: Place,
    pub local: bool,
    pub form: DecForm<'a>,
}

#[cycle(module)]
#[derive(Clone, Copy)]
pub enum DecForm<'a> {
    Def {
        /// Whether it is written `entry`.
        entry: bool,
        label: Label<'a>,
        heads: &'a [Head<'a>],
        params: &'a [Held<'a, Pat<'a>>],
        result: Option<&'a TypeExp<'a>>,
        value: &'a Exp<'a>,
    },
    TypeName(Label<'a>, &'a [Head<'a>], &'a TypeExp<'a>),
    Module(Label<'a>, &'a [Param<'a>], Option<&'a ModType<'a>>, &'a ModExp<'a>),
    ModType(Label<'a>, &'a ModType<'a>),
    Open(&'a ModExp<'a>),
    Import(&'a str),
}

/// A file.
#[derive(Drop)]
pub struct Program<'a> {
    pub decs: &'a [Dec<'a>],
}

impl<'a> Model for ModType<'a> {
    ghost use Rattle.fut_ast.specs.declared.module.ModType.{ModType as PlainModType};

    ghost Value = { PlainModType };

    ghost use Rattle.fut_ast.specs.contracts.module.ModType as mtype;
    ghost use Rattle.std.specs.Coded.{codes};

    ghost coded = { Prim.hlevel (codes, mtype.the_row.coded) };

    ghost use Rattle.fut_tree.specs.ModTypes.{mtype_of, mtype_size};

    ghost view = { mtype_of };

    ghost size = { mtype_size };

    ghost use Rattle.fut_tree.specs.ModTypesFall.{mtype_falls};

    ghost size_decreases = { λ t is. mtype_falls t };
}

impl<'a> Model for ModExp<'a> {
    ghost use Rattle.fut_ast.specs.declared.module.ModExp.{ModExp as PlainModExp};

    ghost Value = { PlainModExp };

    ghost use Rattle.fut_ast.specs.contracts.module.ModExp as module_exp;
    ghost use Rattle.std.specs.Coded.{codes};

    ghost coded = { Prim.hlevel (codes, module_exp.the_row.coded) };

    ghost use Rattle.fut_tree.specs.Mods.{mod_of, mod_size};

    ghost view = { mod_of };

    ghost size = { mod_size };

    ghost use Rattle.fut_tree.specs.ModsFall.{mod_falls};

    ghost size_decreases = { λ m is. mod_falls m };
}

impl<'a> Model for Program<'a> {
    ghost use Rattle.fut_ast.specs.declared.module.Program.{Program as PlainProgram};

    ghost Value = { PlainProgram };

    ghost use Rattle.fut_ast.specs.contracts.module.Program as whole;
    ghost use Rattle.std.specs.Coded.{codes};

    ghost coded = { Prim.hlevel (codes, whole.the_row.coded) };

    ghost use Rattle.fut_tree.specs.Programs.{program_of};

    ghost view = { program_of };
}
