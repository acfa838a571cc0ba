// The integer types of a program's numbers, of which literals without suffix have theirs.
ghost use Rattle.std.specs.Prelude.{IfErr, IfOk, length};
ghost use Rattle.fut_typing.specs.Program.{program_of};
ghost use Rattle.type_graph.specs.Graph.{IsGraph};
ghost use Rattle.type_infer.specs.Inferring.{Infers, Told_by};
ghost use Rattle.typed_programs.specs.Built.{Is_built};
ghost use Rattle.typed_programs.specs.Typed.{Lost_where, Nodes_tell, Typed_by};

use crate::forms::integer_of;
use fut_flat::Flat;
use fut_scalar::{IntType, List};
use std::alloc::Global;
use type_infer::type_at;
use type_scopes::Inference;

/// Why there are no integer types.
#[derive(Clone, Copy)]
pub enum IntegersErr {
    /// An integer type has parts, or a type parameter stands for integers alone. No graph that inference makes says so.
    Lost,
    Memory,
}

/// The integer types of all nodes.
fn integers_of(alloc: Global, inference: &Inference<'_>) -> Result<List<IntType>, IntegersErr>
    requires { IsGraph inference.now.nodes }
    ensures ok { IfOk result (λ integers. Nodes_tell inference.now.nodes integers (length inference.now.nodes)) }
    ensures err { IfErr result (Lost_where inference.now.nodes) }
{
    let mut integers = List::new(alloc);
    let mut node: u32 = 0;
    while (node as usize) < inference.nodes.len() {
        match integer_of(type_at(inference, node)) {
            Some(integer) => match integers.push(integer) {
                Ok(()) => {}
                Err(_) => return Err(IntegersErr::Memory),
            },
            None => return Err(IntegersErr::Lost),
        }
        node += 1;
    }
    Ok(integers)
}

/// The integer type of each number of a program that has been typed, and i32 of a number that has none. With them the program
/// is as the laws of its meaning and of its walk ask for it. The cost is that of reading each node's type once.
pub fn integer_types(
    alloc: Global,
    flat: &Flat<'_>,
    inference: &Inference<'_>,
) -> Result<List<IntType>, IntegersErr>
    requires infers { Infers (program_of flat.now) inference.now }
    requires built { Is_built flat.now }
    ensures ok { IfOk result (λ integers. Told_by (Typed_by flat.now inference.now integers) inference.now) }
    ensures err { IfErr result (Lost_where inference.now.nodes) }
{
    let _flat = flat;
    integers_of(alloc, inference)
}
