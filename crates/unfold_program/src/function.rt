// What is known of a function.
ghost use Rattle.std.specs.Prelude.{◌≡◌, IfErr, IfOk, map};
ghost use Rattle.fut_flat.specs.Erased.{pattern_of, patterns, term_of};
ghost use Rattle.unfold.specs.Held.{known_of, scope_of};
ghost use Rattle.unfold.specs.Knowns.{Function_known};
ghost use Rattle.unfold_parts.specs.declared.refusal.Refusal.TheVariants as refusal;

use bumpalo::Bump;
use fut_flat::{Exp, Pat};
use unfold::{Function, Known, KnownForm, Scope};
use unfold_parts::Refusal;

/// A function of these parameters. The first node of its body has the number `first`.
#[tactic(auto, using(unfold::proofs::Mirror::known_function))]
#[inline(never)]
pub fn function_known<'a>(
    bump: &'a Bump,
    parameters: &'a [Pat<'a>],
    body: &'a Exp<'a>,
    first: u32,
    scope: Scope<'a>,
) -> Result<Known<'a>, Refusal>
    ensures ok { IfOk result (λ k. known_of k ≡ Function_known (patterns (map pattern_of parameters.now)) (term_of body.now) first (scope_of scope.entry)) }
    ensures err { IfErr result (λ r. r ≡ refusal.Memory) }
{
    let function = Function {
        parameters,
        body,
        first,
        names: scope.names,
        entered: scope.entered,
    };
    match bump.try_alloc_slice_copy(&[function]) {
        Ok(cells) => {
            let cells: &'a [Function<'a>] = cells;
            Ok(Known {
                form: KnownForm::Function(&cells[0]),
            })
        }
        Err(_) => Err(Refusal::Memory),
    }
}
