// Names that are used, and what stands around them.
ghost use Rattle.std.specs.Prelude.{◌≡◌};
ghost use Rattle.fut_flat.specs.Erased.{term_of, texts};
ghost use Rattle.fut_flat.specs.Terms.{Project, Strict, Use, no_term, term_and};
ghost use Rattle.elab_nodes.specs.Built.{Built0, Built1};
ghost use Rattle.elab_scopes.specs.Resolve.{projected};

use crate::exps::{node, on_part};
use bumpalo::Bump;
use elab_scopes::Stop;
use fut_flat::{Act, Exp, Form, Ref};
use fut_scalar::Place;

/// A field of a record.
pub fn field<'a>(
    bump: &'a Bump,
    at: Place,
    part: Result<&'a Exp<'a>, Stop<'a>>,
    name: &'a str,
) -> Result<&'a Exp<'a>, Stop<'a>>
    ensures { Built1 (λ e x. term_of x.now ≡ Strict (Project name.now) at (term_and (term_of e.now) no_term)) part.entry result }
{
    on_part(bump, at, at, Act::Project(name), part)
}

/// The most fields that may follow a name. A field is a node around what it is taken of, and a program of more nodes in one
/// another than this is too deep to be run, so that no later stage goes deeper for a path than for what may be run.
const MOST_FIELDS: usize = 1_000;

/// A name, and the fields that follow it in a path. More than 1,000 of them are want of memory.
#[tactic(auto, using(crate::proofs::Parts::paths))]
pub fn path<'a>(
    bump: &'a Bump,
    at: Place,
    of: Ref,
    modules: u32,
    fields: &'a [&'a str],
) -> Result<&'a Exp<'a>, Stop<'a>>
    ensures { Built0 (λ x. term_of x.now ≡ projected at (Use of at modules) (texts fields.now)) result }
{
    if fields.len() > MOST_FIELDS {
        return Err(Stop::Memory);
    }
    let mut made = node(bump, at, Form::Use(of, modules));
    for name in fields {
        made = field(bump, at, made, *name);
    }
    made
}
