// The numbers of the nodes of definitions.
ghost use Rattle.std.specs.Prelude.{◌≡◌, OnOk, length};
ghost use Rattle.unfold_reach.specs.Reach.{Spans};

use flat_numbers::{after, after_exp};
use fut_flat::Definition;
use fut_scalar::NoMemory;

/// The nodes of a definition's term: the number of the first, and the number behind the last.
#[derive(Clone, Copy)]
pub struct Span {
    pub first: u32,
    pub end: u32,
}

/// Numbers the nodes of definitions. The name of each has a number, in front of those of its term.
pub fn number(definitions: &[Definition<'_>], spans: &mut [Span]) -> Result<(), NoMemory>
    requires len { length spans.old ≡ length definitions.now }
    ensures ok { OnOk result (Spans definitions.now spans.new) }
    ensures len { length spans.new ≡ length spans.old }
{
    let mut behind = 0;
    let mut at = 0;
    for definition in definitions {
        let first = after(behind, 1)?;
        behind = after_exp(first, definition.value)?;
        spans[at] = Span { first, end: behind };
        at += 1;
    }
    Ok(())
}
