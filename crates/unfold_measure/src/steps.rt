// The names of a loop, and what says how many turns it has.
ghost use Rattle.std.specs.Prelude.{◌≡◌, IfErr, IfOk};
ghost use Rattle.fut_flat.specs.Erased.{pattern_of, term_of};
ghost use Rattle.fut_flat.proofs.ErasedForms.{turns_of};
ghost use Rattle.fut_meaning.specs.Knowns.{data_bound};
ghost use Rattle.unfold_measure.specs.Held.{scope_of};
ghost use Rattle.unfold_measure.specs.Steps.{Turns_at, test_of};
ghost use Rattle.unfold_measure.specs.declared.stop.Stop.TheVariants as stop;

use crate::known::{Scope, known_data};
use crate::patterns::bind_data;
use crate::scope::bound;
use crate::stop::Stop;
use bumpalo::Bump;
use fut_flat::{Exp, Loop, LoopForm};

/// The names around what says how many turns there are, and those of a turn.
#[derive(Clone, Copy)]
pub struct Turn<'a> {
    pub outside: &'a Scope<'a>,
    pub inside: &'a Scope<'a>,
}

/// What says how many turns there are.
pub fn test_of<'a>(form: &'a LoopForm<'a>) -> &'a Exp<'a>
    ensures { term_of result.now ≡ test_of (turns_of form.now) }
{
    match form {
        LoopForm::For(_, count) => count,
        LoopForm::ForIn(_, rows) => rows,
        LoopForm::While(test) => test,
    }
}

/// The names of a loop: what says how many turns there are stands outside of them, but for the condition of a `while`.
pub fn turn_of<'a>(
    bump: &'a Bump,
    whole: &'a Loop<'a>,
    scope: &'a Scope<'a>,
) -> Result<Turn<'a>, Stop>
    ensures ok { IfOk result (λ r. Turns_at (scope_of scope.now) (data_bound (pattern_of whole.now.pat) (scope_of scope.now)) (turns_of whole.now.form) (scope_of r.outside.now) (scope_of r.inside.now)) }
    ensures err { IfErr result (λ e. e ≡ stop.Memory) }
{
    let names = match bind_data(bump, &whole.pat, scope) {
        Ok(names) => names,
        Err(stop) => return Err(stop),
    };
    match &whole.form {
        LoopForm::For(number, _) => match bound(bump, *number, known_data(), names) {
            Ok(inside) => Ok(Turn {
                outside: scope,
                inside,
            }),
            Err(stop) => Err(stop),
        },
        LoopForm::ForIn(pat, _) => match bind_data(bump, pat, names) {
            Ok(inside) => Ok(Turn {
                outside: scope,
                inside,
            }),
            Err(stop) => Err(stop),
        },
        LoopForm::While(_) => Ok(Turn {
            outside: names,
            inside: names,
        }),
    }
}
