// A search tree that is never changed: one with another name shares its nodes with the one that it was made of. A name stands
// where the digits of its number lead, so a tree of n names is about log n deep.
ghost use Rattle.std.specs.Prelude.{◌≡◌, IfOk, cond, ℕ, List};
ghost use Rattle.std.specs.Str.{bytes_eq};
ghost use Rattle.elab_scopes.specs.Trees.{Forks, Put, Put_by, meant, meant_by};

use crate::meanings::Meanings;
use crate::numbers::digits;
use bumpalo::Bump;
use fut_scalar::NoMemory;

/// How many nodes a tree may be deep. The digits of 32 bits end before, so a tree is as deep only if hundreds of names have one
/// number.
const DEPTH: u32 = 400;

/// A tree from names to what they mean, held by an arena.
#[cycle(tree)]
#[derive(Clone, Copy)]
pub enum Tree<'a> {
    Leaf,
    Fork(&'a Node<'a>),
}

/// A name and what it means, and the trees of the names whose next digit is 0 and 1.
#[cycle(tree)]
#[derive(Drop)]
pub struct Node<'a> {
    name: &'a str,
    meanings: Meanings,
    even: Tree<'a>,
    odd: Tree<'a>,
}

/// What a name means, where these digits are left of its number.
fn below<'a>(tree: Tree<'a>, left: u32, name: &str) -> Meanings
    ensures { result ≡ meant_by tree.entry left name.now }
{
    match tree {
        Tree::Leaf => Meanings {
            as_value: None,
            as_type: None,
            as_module: None,
            as_signature: None,
        },
        Tree::Fork(node) => {
            if node.name == name {
                return node.meanings;
            }
            if left % 2 == 1 {
                below(node.odd, left / 2, name)
            } else {
                below(node.even, left / 2, name)
            }
        }
    }
}

/// What a name means.
#[tactic(auto, unfolding(crate::specs::Trees::meant))]
pub fn named<'a>(tree: Tree<'a>, name: &str) -> Meanings
    ensures { result ≡ meant tree.entry name.now }
{
    below(tree, digits(name), name)
}

/// A node.
fn forked<'a>(
    name: &'a str,
    meanings: Meanings,
    even: Tree<'a>,
    odd: Tree<'a>,
    bump: &'a Bump,
) -> Result<Tree<'a>, NoMemory>
    ensures { IfOk result (λ t. Forks name.now meanings even.entry odd.entry t) }
{
    match bump.try_alloc(Node {
        name,
        meanings,
        even,
        odd,
    }) {
        Ok(node) => Ok(Tree::Fork(node)),
        Err(_) => Err(NoMemory),
    }
}

/// The tree where a name means something else, where these digits are left of its number and the tree may have so much room.
fn put<'a>(
    tree: Tree<'a>,
    room: u32,
    left: u32,
    name: &'a str,
    meanings: Meanings,
    bump: &'a Bump,
) -> Result<Tree<'a>, NoMemory>
    ensures { IfOk result (λ t. Put_by left name.now meanings tree.entry t) }
{
    if room == 0 {
        return Err(NoMemory);
    }
    match tree {
        Tree::Leaf => forked(name, meanings, Tree::Leaf, Tree::Leaf, bump),
        Tree::Fork(node) => {
            if node.name == name {
                return forked(name, meanings, node.even, node.odd, bump);
            }
            if left % 2 == 1 {
                match put(node.odd, room - 1, left / 2, name, meanings, bump) {
                    Ok(odd) => forked(node.name, node.meanings, node.even, odd, bump),
                    Err(_) => Err(NoMemory),
                }
            } else {
                match put(node.even, room - 1, left / 2, name, meanings, bump) {
                    Ok(even) => forked(node.name, node.meanings, even, node.odd, bump),
                    Err(_) => Err(NoMemory),
                }
            }
        }
    }
}

/// The tree where a name means something else. All other names mean what they did.
pub fn with_name<'a>(
    tree: Tree<'a>,
    name: &'a str,
    meanings: Meanings,
    bump: &'a Bump,
) -> Result<Tree<'a>, NoMemory>
    ensures { IfOk result (λ t. Put name.now meanings tree.entry t) }
{
    put(tree, DEPTH, digits(name), name, meanings, bump)
}
