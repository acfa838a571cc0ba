// Lists that walks make. A list is handed in by `&mut` to the loop that makes it, so that the loop's early exits let go of
// nothing.
ghost use Rattle.std.specs.Prelude.{◌≡◌};
ghost use Rattle.elab_nodes.specs.Built.{Built1};
ghost use Rattle.elab_types.specs.Lists.{Put};

use bumpalo::Bump;
use elab_scopes::Stop;

/// Puts what a walk gave behind what is made.
pub fn put<'a, T: Copy>(
    next: Result<T, Stop<'a>>,
    made: &mut Vec<T, &'a Bump>,
) -> Result<(), Stop<'a>>
    ensures { Put (λ x. x) next.entry made.old.items made.new.items result }
{
    match next {
        Ok(next) => match made.push(next) {
            Ok(()) => Ok(()),
            Err(_) => Err(Stop::Memory),
        },
        Err(stop) => Err(stop),
    }
}

/// What was made, if the walk that made it went to its end.
pub fn listed<'a, T: Copy>(walked: Result<(), Stop<'a>>, made: &'a [T]) -> Result<&'a [T], Stop<'a>>
    ensures { Built1 (λ u x. x.now ≡ made.now) walked.entry result }
{
    match walked {
        Ok(()) => Ok(made),
        Err(stop) => Err(stop),
    }
}
