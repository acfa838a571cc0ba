// Which nodes made which numbers.
ghost use Rattle.std.specs.Prelude.{◌≡◌, IfOk};
ghost use Rattle.fut_sizes.specs.Matching.{Found as Finding, made_at};
ghost use Rattle.size_slots.specs.Held.{Held, Holds, maker_of};

use crate::slots::{Found, Maker};
use fut_scalar::NoMemory;

/// From the next number on, numbers are made at a node.
pub fn made_at(table: &mut Found<'_>, node: u32) -> Result<(), NoMemory>
    ensures made { (σ : Finding) → Holds table.old σ → IfOk result (λ u. Holds table.new (made_at node σ)) }
    ensures held { Held table.old → IfOk result (λ u. Held table.new) }
{
    table.makers.push(Maker {
        first: table.next,
        node,
    })?;
    Ok(())
}

/// The node that made a number.
#[tactic(auto, using(crate::proofs::MakerLaws::finds_maker))]
pub fn maker_of(makers: &[Maker], number: u32) -> u32
    ensures { result ≡ maker_of makers.now number }
{
    let mut node = 0;
    for one in makers {
        if number >= one.first {
            node = one.node;
        }
    }
    node
}
