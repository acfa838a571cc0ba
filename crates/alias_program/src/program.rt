// What is known of a program whose terms are looked at.
ghost use Rattle.std.specs.Prelude.{◌≡◌, ◌+◌, [], IfOk};
ghost use Rattle.alias_values.specs.Trees.{type_of};
ghost use Rattle.alias_program.specs.Program.{sub_of};

use alias_parts::PartNames;
use alias_values::TypeTree;
use bumpalo::Bump;
use bumpalo::collections::into_bump_slice;
use fut_aliases::Alias;
use fut_scalar::NoMemory;
use fut_types::Kind;

/// The kinds of type variables by their numbers, the type of each node, and the names of parts.
#[derive(Clone, Copy)]
pub struct Program<'a> {
    pub kinds: &'a [Kind],
    pub types: &'a [TypeTree<'a>],
    pub names: PartNames<'a>,
}

/// The type of a node. A node without one is want of memory.
#[tactic(auto, using(crate::proofs::Types::known_types))]
pub fn type_at<'a>(program: &Program<'a>, node: u32) -> Result<&'a TypeTree<'a>, NoMemory>
    ensures { IfOk result (λ ty. type_of ty.now ≡ sub_of program.now.types.now node) }
{
    let at = node as usize;
    if at < program.types.len() {
        Ok(&program.types[at])
    } else {
        Err(NoMemory)
    }
}

/// The number behind so many.
pub fn after(at: u32, count: u32) -> Result<u32, NoMemory>
    ensures { IfOk result (λ next. next ≡ at + count) }
{
    match at.checked_add(count) {
        Some(next) => Ok(next),
        None => Err(NoMemory),
    }
}

/// The empty set.
pub fn no_alias<'a>(bump: &'a Bump) -> &'a [Alias]
    ensures { result.now ≡ [] }
{
    into_bump_slice(Vec::new(bump))
}
