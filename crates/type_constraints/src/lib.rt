//! The rules of the types of expressions, put into a graph.
//!
//! [`constrain`] goes over an expression once, and puts in the rule of each of its numbers. Contracts say it in the words of
//! the definition of typing: what the graph allows behind it is what it allowed before and is typed.
#![tactic(auto)]

ghost use Rattle.std.specs.Prelude.{◌≡◌, ◌≤◌, ◌+◌, OnOk, IfOk, IfErr};
ghost use Rattle.fut_flat.specs.Numbers.{numbers};
ghost use Rattle.fut_flat.specs.Erased.{parameters, term_of};
ghost use Rattle.type_scopes.specs.Definitions.{Definition_claim, Definition_homes, env_definition, named};
ghost use Rattle.type_graph.specs.Graph.{Tells};
ghost use Rattle.type_scopes.specs.Scopes.{Opened, Refused, Safe};

mod expressions;
mod operations;
mod patterns;
mod plain;
mod setting;
mod uses;

pub use expressions::constrain;
use fut_flat::{Exp, Head};
use fut_scalar::BindId;
use fut_types::Kind;
pub use setting::Setting;
use std::alloc::Global;
use type_graph::UnifyErr;
use type_scopes::Inference;

/// A definition of a name: its parameters, its value, and its uses behind it. Its numbers begin at `lo`, with that of the name;
/// `depth` is the depth around it. The answer is where its numbers end.
pub fn constrain_definition<'a>(
    alloc: Global,
    places: Kind,
    base: u32,
    name: BindId,
    heads: &[Head],
    value: &Exp<'a>,
    depth: u32,
    lo: u32,
    inference: &mut Inference<'a>,
) -> Result<u32, UnifyErr>
    requires safe { Safe base inference.old }
    requires room { lo + (1 + numbers (term_of value.now)) ≤ base }
    ensures next { IfOk result (λ next. next ≡ lo + (1 + numbers (term_of value.now))) }
    ensures ok { OnOk result (Opened places base depth lo (lo + (1 + numbers (term_of value.now))) (Definition_claim places (named name (parameters heads.now) (term_of value.now)) lo) (Definition_homes depth (named name (parameters heads.now) (term_of value.now)) lo) (env_definition (named name (parameters heads.now) (term_of value.now)) lo) inference.old inference.new) }
    ensures err { IfErr result (Tells (Refused places base depth lo (Definition_claim places (named name (parameters heads.now) (term_of value.now)) lo) (Definition_homes depth (named name (parameters heads.now) (term_of value.now)) lo) inference.old inference.new)) }
{
    let setting = Setting {
        alloc,
        places,
        base,
        depth,
    };
    expressions::constrain_definition(setting, name, heads, value, lo, inference)
}
