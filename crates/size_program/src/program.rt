// What is known of a program whose terms are sized.
ghost use Rattle.std.specs.Prelude.{◌≡◌, IfOk};
ghost use Rattle.sized_types.specs.Sizes.{At, Own as TheOwn};
ghost use Rattle.fut_sizes.specs.Agreeing.{no_size_of, of_type};
ghost use Rattle.size_arena.specs.Trees.{size_of, type_of};
ghost use Rattle.size_program.specs.Program.{sub_of};

use alias_parts::PartNames;
use bumpalo::Bump;
use fut_scalar::NoMemory;
use size_arena::{SizeTree, TypeTree};
use size_making::{Making, of_type};

/// The type of each node, and the names of parts.
#[derive(Clone, Copy)]
pub struct Program<'a> {
    pub types: &'a [TypeTree<'a>],
    pub names: PartNames<'a>,
}

/// The type of a node. A node without one is want of memory.
#[tactic(auto, using(crate::proofs::Types::known_types))]
pub fn type_at<'a>(program: &Program<'a>, node: u32) -> Result<&'a TypeTree<'a>, NoMemory>
    ensures { IfOk result (λ ty. type_of ty.now ≡ sub_of program.now.types.now node) }
{
    let at = node as usize;
    if at < program.types.len() {
        Ok(&program.types[at])
    } else {
        Err(NoMemory)
    }
}

/// The sized type of a node all of whose levels it makes unknown.
pub fn plain_size<'a>(
    program: &Program<'a>,
    node: u32,
    bump: &'a Bump,
) -> Result<&'a SizeTree<'a>, NoMemory>
    ensures { IfOk result (λ made. size_of made.now ≡ of_type (no_size_of node) 0 (sub_of program.now.types.now node)) }
{
    let ty = type_at(program, node)?;
    of_type(ty, Making::Unknown(node), 0, bump)
}

/// The sized type of a parameter at a node, each of whose levels agrees with itself alone.
pub fn own_size<'a>(
    program: &Program<'a>,
    node: u32,
    bump: &'a Bump,
) -> Result<&'a SizeTree<'a>, NoMemory>
    ensures { IfOk result (λ made. size_of made.now ≡ of_type (λ i. At (TheOwn node i)) 0 (sub_of program.now.types.now node)) }
{
    let ty = type_at(program, node)?;
    of_type(ty, Making::Own(node), 0, bump)
}
