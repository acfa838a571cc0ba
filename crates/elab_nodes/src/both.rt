// Two answers, or the first that was refused.
ghost use Rattle.std.specs.Prelude.{◌≡◌};
ghost use Rattle.elab_nodes.specs.Built.{Built2};

use elab_scopes::Stop;

/// What two walks gave, or why the first of them stopped that did. A builder that takes its parts through this has one
/// early exit, whatever their number.
pub fn both<'a, A: Copy, B: Copy>(
    first: Result<A, Stop<'a>>,
    second: Result<B, Stop<'a>>,
) -> Result<(A, B), Stop<'a>>
    ensures { Built2 (λ a b c. c ≡ (a, b)) first.entry second.entry result }
{
    match first {
        Ok(first) => match second {
            Ok(second) => Ok((first, second)),
            Err(stop) => Err(stop),
        },
        Err(stop) => Err(stop),
    }
}
