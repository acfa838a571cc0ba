// What was consumed of the aliases made at one node.
ghost use Rattle.std.specs.Prelude.{◌≡◌, ◌<◌, ℕ, get_or, length, map, IfOk, OnOk};
ghost use Rattle.fut_aliases.specs.Steps.{behind, lost_at};
ghost use Rattle.alias_losses.specs.Chains.{Chained, node_of};

use alias_values::is_alias;
use bumpalo::Bump;
use bumpalo::collections::into_bump_slice;
use fut_aliases::{Alias, Loss, Spot};
use fut_scalar::{List, NoMemory};

/// A loss, and how many there were from the one before it at its node on back to the first of all; 0 where it is the first at its
/// node.
#[derive(Clone, Copy)]
pub struct Entry {
    pub loss: Loss,
    pub before: u32,
}

/// The node at which an alias was made.
pub fn node_of(alias: Alias) -> u32
    ensures { result ≡ node_of alias }
{
    match alias {
        Alias::Part(node, _, _) => node,
        Alias::Own(node) => node,
    }
}

/// The number of a node in a table that has none for the nodes behind its end.
#[tactic(auto, using(crate::proofs::Tables::tables))]
pub fn number_at(numbers: &[u32], node: usize) -> u32
    ensures { result ≡ get_or numbers.now node 0 }
{
    if node < numbers.len() {
        numbers[node]
    } else {
        0
    }
}

/// Makes room for a node.
#[tactic(auto, using(crate::proofs::Tables::tables))]
pub fn reach(numbers: &mut List<u32>, node: usize) -> Result<(), NoMemory>
    ensures room { OnOk result (node < length numbers.new) }
    ensures kept { (n : ℕ) → get_or numbers.new n 0 ≡ get_or numbers.old n 0 }
{
    while numbers.len() <= node {
        numbers.push(0)?;
    }
    Ok(())
}

/// Where an alias was consumed first, among those behind the first so many, along the chain of its node.
#[tactic(auto, using(crate::proofs::Finding::finding))]
pub fn found(entries: &[Entry], newest: &[u32], count: usize, alias: Alias) -> Option<Spot>
    requires chained { Chained entries.now newest.now }
    ensures { result ≡ lost_at (behind count (map (λ e. e.loss) entries.now)) alias }
{
    let mut at = number_at(newest, node_of(alias) as usize) as usize;
    'chain: while at > count {
        let entry = entries[at - 1];
        if is_alias(alias, entry.loss.alias) {
            return Some(entry.loss.at);
        }
        at = entry.before as usize;
    }
    None
}

/// What was consumed after the first so many, held by the arena.
#[tactic(auto, using(crate::proofs::Losing::later_losses))]
pub fn later<'a>(bump: &'a Bump, entries: &[Entry], count: usize) -> Result<&'a [Loss], NoMemory>
    ensures { IfOk result (λ losses. losses.now ≡ behind count (map (λ e. e.loss) entries.now)) }
{
    let mut losses = Vec::new(bump);
    let mut at = count;
    'later: while at < entries.len() {
        losses.push(entries[at].loss)?;
        at += 1;
    }
    Ok(into_bump_slice(losses))
}
