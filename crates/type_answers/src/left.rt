// What is left undetermined.
ghost use Rattle.std.specs.Prelude.{◌≡◌, ◌<◌, ◌≤◌, ◌+◌, ◌^◌, ◌++◌, [], ℕ, length, OnOk, true, false, IfOk, IfErr, IfSome, IfNone, IsTrue, ◌↔◌};
ghost use Rattle.fut_typing.specs.Answers.{IsWanted};
ghost use Rattle.type_graph.specs.declared.UnifyErr.TheVariants as err;
ghost use Rattle.type_graph.specs.Graph.{node_at, numbers, IsGraph, IsRoot};
ghost use Rattle.type_graph.specs.State.{Tops};
ghost use Rattle.type_answers.specs.Left.{Decided, IsUndecided, Seen, Stands_in_type, made_parts, seen_at, with_seen};

use fut_scalar::{List, NoMemory};
use fut_types::Kind;
use std::alloc::Global;
use type_graph::{Form, Node, UnifyErr, find, node_of};

// Whether `==` or `!` wants to know a type of this kind.
fn is_wanted(kind: Kind) -> bool
    ensures { IsTrue result ↔ IsWanted kind }
{
    match kind {
        Kind::Equal | Kind::Scalar => true,
        Kind::Any | Kind::Data | Kind::Integer => false,
    }
}

#[tactic(auto, unfolding(crate::specs::Left::seen_at))]
fn is_seen(seen: &List<bool>, number: u32) -> bool
    requires { number < length seen.now }
    ensures { result ≡ seen_at seen.now number }
{
    seen.as_slice()[number as usize]
}

#[tactic(auto, unfolding(crate::specs::Left::with_seen))]
fn set_seen(seen: &mut List<bool>, number: u32)
    requires { number < length seen.old }
    ensures { seen.new ≡ with_seen seen.old number true }
{
    seen.set(number as usize, true);
}

fn push_numbers(stack: &mut List<u32>, first: u32, count: u32) -> Result<(), NoMemory>
    requires { first + count < 2 ^ 32 }
    ensures { OnOk result (stack.new ≡ stack.old ++ numbers first count) }
{
    let mut at = first;
    let mut rest = count;
    while rest > 0 {
        stack.push(at)?;
        at += 1;
        rest -= 1;
    }
    Ok(())
}

// Whether a root is undecided. If it is not, its parts are to be seen.
fn look(nodes: &List<Node>, stack: &mut List<u32>, root: u32) -> Result<bool, UnifyErr>
    requires graph { IsGraph nodes.now }
    requires within { root < length nodes.now }
    requires root { IsRoot (node_at nodes.now root).form }
    ensures found { IfOk result (λ b. b ≡ true → IsUndecided nodes.now root) }
    ensures fine { IfOk result (λ b. b ≡ false → IsUndecided nodes.now root → ⊥) }
    ensures parts { IfOk result (λ b. b ≡ false → stack.new ≡ stack.old ++ made_parts (node_at nodes.now root).form) }
    ensures err { IfErr result (λ e. e ≡ err.Memory) }
{
    let node = node_of(nodes, root);
    match node.form {
        Form::Free => Ok(is_wanted(node.kind)),
        Form::Link(_) => unreachable!(),
        Form::Open(_, _) => Ok(true),
        Form::Made(_, first, count) => match push_numbers(stack, first, count) {
            Ok(()) => Ok(false),
            Err(_) => Err(UnifyErr::Memory),
        },
    }
}

// A variable that is undecided in a node's type. What was seen before is passed over.
fn search(
    alloc: Global,
    nodes: &List<Node>,
    seen: &mut List<bool>,
    start: u32,
) -> Result<Option<u32>, UnifyErr>
    requires graph { IsGraph nodes.now }
    requires start { start < length nodes.now }
    requires long { length seen.old ≡ length nodes.now }
    requires seen { (top : ℕ → ℕ) → Tops nodes.now top → Seen nodes.now seen.old [] top }
    ensures some { IfOk result (λ o. IfSome o (λ v. IsUndecided nodes.now v)) }
    ensures stands { IfOk result (λ o. IfSome o (λ v. Stands_in_type nodes.now start v)) }
    ensures long { IfOk result (λ o. IfNone o (length seen.new ≡ length nodes.now)) }
    ensures seen { IfOk result (λ o. IfNone o ((top : ℕ → ℕ) → Tops nodes.now top → Seen nodes.now seen.new [] top)) }
    ensures start { IfOk result (λ o. IfNone o ((top : ℕ → ℕ) → Tops nodes.now top → seen_at seen.new (top start) ≡ true)) }
    ensures more { IfOk result (λ o. IfNone o ((i : ℕ) → seen_at seen.old i ≡ true → seen_at seen.new i ≡ true)) }
    ensures err { IfErr result (λ e. e ≡ err.Memory) }
{
    let mut stack = List::new(alloc);
    match stack.push(start) {
        Ok(()) => {}
        Err(_) => return Err(UnifyErr::Memory),
    }
    while let Some(at) = stack.pop() {
        let root = find(nodes, at);
        if !is_seen(seen, root) {
            set_seen(seen, root);
            match look(nodes, &mut stack, root) {
                Ok(false) => {}
                Ok(true) => return Ok(Some(root)),
                Err(error) => return Err(error),
            }
        }
    }
    Ok(None)
}

// Nothing is seen.
fn unseen(alloc: Global, count: usize) -> Result<List<bool>, UnifyErr>
    ensures long { IfOk result (λ seen. length seen ≡ count) }
    ensures none { IfOk result (λ seen. (i : ℕ) → seen_at seen i ≡ false) }
    ensures err { IfErr result (λ e. e ≡ err.Memory) }
{
    let mut seen = List::new(alloc);
    let mut at = 0;
    while at < count {
        seen.push(false)?;
        at += 1;
    }
    Ok(seen)
}

/// The first number of the program in whose type a variable is left undetermined, and that variable: one that `==` or `!`
/// wants to know, or that has named parts. The cost is linear.
pub fn undetermined(
    alloc: Global,
    nodes: &List<Node>,
    base: u32,
) -> Result<Option<(u32, u32)>, UnifyErr>
    requires graph { IsGraph nodes.now }
    requires base { base ≤ length nodes.now }
    ensures within { IfOk result (λ o. IfSome o (λ p. p.0 < base)) }
    ensures stands { IfOk result (λ o. IfSome o (λ p. Stands_in_type nodes.now p.0 p.1)) }
    ensures left { IfOk result (λ o. IfSome o (λ p. IsUndecided nodes.now p.1)) }
    ensures none { IfOk result (λ o. IfNone o ((n : ℕ) → n < base → Decided nodes.now n)) }
    ensures err { IfErr result (λ e. e ≡ err.Memory) }
{
    let mut seen = unseen(alloc, nodes.len())?;
    let mut at = 0;
    while at < base {
        match search(alloc, nodes, &mut seen, at) {
            Ok(None) => {}
            Ok(Some(variable)) => return Ok(Some((at, variable))),
            Err(error) => return Err(error),
        }
        at += 1;
    }
    Ok(None)
}
