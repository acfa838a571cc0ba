// One name more is in scope.
ghost use Rattle.std.specs.Prelude.{IfOk, true};
ghost use Rattle.fut_sizes.specs.Scopes.{Scope, with_known, with_name};
ghost use Rattle.size_arena.specs.Trees.{size_of};
ghost use Rattle.size_program.specs.Tables.{In_scope};

use crate::maps::{Known, NumberMap, with_entry};
use bumpalo::Bump;
use fut_scalar::NoMemory;
use size_arena::SizeTree;

#[tactic(auto, using(crate::proofs::ScopeForms::known_names))]
fn with_one<'a>(
    name: u32,
    known: Known<'a>,
    names: &'a NumberMap<'a>,
    bump: &'a Bump,
) -> Result<&'a NumberMap<'a>, NoMemory>
    ensures { (scope : Scope) → In_scope names.now scope → IfOk result (λ made. In_scope made.now (with_known name (record { size = size_of known.entry.size.now; is_general = known.entry.is_general }) scope)) }
{
    let one = match bump.try_alloc(known) {
        Ok(one) => &*one,
        Err(_) => return Err(NoMemory),
    };
    with_entry(bump, name, one, names)
}

/// What is known behind the binding of a name of this sized type.
pub fn with_name<'a>(
    name: u32,
    size: &'a SizeTree<'a>,
    names: &'a NumberMap<'a>,
    bump: &'a Bump,
) -> Result<&'a NumberMap<'a>, NoMemory>
    ensures { (scope : Scope) → In_scope names.now scope → IfOk result (λ made. In_scope made.now (with_name name (size_of size.now) scope)) }
{
    with_one(
        name,
        Known {
            size,
            is_general: false,
        },
        names,
        bump,
    )
}

/// What is known behind the definition of a function of this sized type: each use chooses what its type variables stand for.
pub fn with_general_name<'a>(
    name: u32,
    size: &'a SizeTree<'a>,
    names: &'a NumberMap<'a>,
    bump: &'a Bump,
) -> Result<&'a NumberMap<'a>, NoMemory>
    ensures { (scope : Scope) → In_scope names.now scope → IfOk result (λ made. In_scope made.now (with_known name (record { size = size_of size.now; is_general = true }) scope)) }
{
    with_one(
        name,
        Known {
            size,
            is_general: true,
        },
        names,
        bump,
    )
}
