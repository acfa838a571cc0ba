// Expressions that are no visits of their own.
ghost use Rattle.std.specs.Prelude.{◌≡◌};
ghost use Rattle.fut_flat.specs.Erased.{term_of};
ghost use Rattle.unfold_measure.specs.Plain.{Peels, Plain, is_declared};

use fut_flat::{Act, Exp, Form};

fn is_declared(act: &Act<'_>) -> bool
    ensures { result ≡ is_declared act.now }
{
    match *act {
        Act::Declared(_) => true,
        _ => false,
    }
}

/// What an expression is without declared types and empty rows of `let`s around it.
pub fn peeled<'a>(exp: &'a Exp<'a>) -> &'a Exp<'a>
    ensures peels { Peels (term_of exp.now) (term_of result.now) }
    ensures plain { Plain result.now }
{
    match exp.form {
        Form::Strict {
            act,
            mark: _,
            parts,
        } => {
            if !is_declared(&act) {
                exp
            } else if parts.len() == 1 {
                peeled(&parts[0])
            } else {
                exp
            }
        }
        Form::Lets(lets, body) => { if lets.len() == 0 { peeled(body) } else { exp } }
        _ => exp,
    }
}
