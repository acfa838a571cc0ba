// What is known of a program's sizing.
ghost use Rattle.std.specs.Prelude.{◌≡◌, IfOk, slice_get, Some, false, get_or};
ghost use Rattle.fut_flat.specs.Erased.{texts};
ghost use Rattle.fut_meaning.specs.Found.{Sizing};
ghost use Rattle.size_arena.specs.Trees.{size_of};
ghost use Rattle.told_rows.specs.Tables.{Tells, node_at};

use bumpalo::Bump;
use fut_scalar::NoMemory;
use size_arena::{SizeTree, Variable, hole};

/// What is known of a program's sizing.
#[derive(Clone, Copy)]
pub struct Sizes<'a> {
    /// By the numbers of nodes, their sized types. A node without one has a type variable of its own.
    pub nodes: &'a [Option<&'a SizeTree<'a>>],
    /// By the numbers of nodes, the name that the pattern there binds.
    pub names: &'a [Option<u32>],
    /// By the numbers of record types, the names of their fields, in the order of the parts.
    pub fields: &'a [&'a [&'a str]],
    /// By the numbers of names, whether they are those of sizes.
    pub are_sizes: &'a [bool],
}

/// The sized type of a node.
#[tactic(auto, using(crate::proofs::TableForms::nodes))]
pub fn size_at<'a>(
    sizes: &Sizes<'a>,
    node: u32,
    bump: &'a Bump,
) -> Result<&'a SizeTree<'a>, NoMemory>
    ensures { IfOk result (λ t. size_of t.now ≡ node_at sizes.now.nodes.now node) }
{
    let at = node as usize;
    if at < sizes.nodes.len() {
        if let Some(size) = sizes.nodes[at] {
            return Ok(size);
        }
    }
    hole(bump, Variable::Inferred(node))
}

/// The names of a record's fields. One that the program has not is want of memory.
pub fn fields_of<'a>(sizes: &Sizes<'a>, number: u32) -> Result<&'a [&'a str], NoMemory>
    ensures { (Z : Sizing) → Tells sizes.now Z → IfOk result (λ names. texts names.now ≡ Z.fields number) }
{
    match sizes.fields.get(number as usize) {
        Some(names) => Ok(*names),
        None => Err(NoMemory),
    }
}

/// The name that the pattern at a node binds. A node that the program has not is want of memory.
pub fn name_at(sizes: &Sizes<'_>, node: u32) -> Result<Option<u32>, NoMemory>
    ensures { IfOk result (λ name. slice_get sizes.now.names.now node ≡ Some name) }
{
    match sizes.names.get(node as usize) {
        Some(name) => Ok(*name),
        None => Err(NoMemory),
    }
}

/// Whether a number is that of a size's name.
pub fn is_size(sizes: &Sizes<'_>, number: u32) -> bool
    ensures { result ≡ get_or sizes.now.are_sizes.now number false }
{
    let at = number as usize;
    if at < sizes.are_sizes.len() {
        sizes.are_sizes[at]
    } else {
        false
    }
}
