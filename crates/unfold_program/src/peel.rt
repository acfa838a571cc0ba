// Terms without the declared types around them.
ghost use Rattle.std.specs.Prelude.{◌≡◌, ◌+◌, IfOk};
ghost use Rattle.fut_flat.specs.Erased.{term_of};
ghost use Rattle.unfold_program.specs.Answers.{Peeled_to, is_declared};

use flat_numbers::after;
use fut_flat::{Act, Exp, Form};
use unfold_parts::Refusal;

/// An expression, the number of its node, and the next one, which a node inside may have.
#[derive(Clone, Copy)]
pub struct Peeled<'a> {
    pub exp: &'a Exp<'a>,
    pub at: u32,
    pub inside: u32,
}

fn is_declared(act: &Act<'_>) -> bool
    ensures { result ≡ is_declared act.now }
{
    match *act {
        Act::Declared(_) => true,
        _ => false,
    }
}

/// What an expression is without declared types and empty rows of `let`s around it.
#[tactic(auto, using(crate::proofs::Peeling::peel_bare))]
#[inline(never)]
pub fn stripped<'a>(at: u32, exp: &'a Exp<'a>) -> Result<Peeled<'a>, Refusal>
    ensures peeled { Peeled_to at (term_of exp.now) result }
    ensures inside { IfOk result (λ r. r.inside ≡ r.at + 1) }
{
    let inside = match after(at, 1) {
        Ok(inside) => inside,
        Err(_) => return Err(Refusal::Memory),
    };
    match exp.form {
        Form::Strict { act, parts, .. } => {
            if !is_declared(&act) {
                Ok(Peeled { exp, at, inside })
            } else if parts.len() == 1 {
                stripped(inside, &parts[0])
            } else {
                Ok(Peeled { exp, at, inside })
            }
        }
        Form::Lets(row, body) => {
            if row.len() == 0 {
                stripped(at, body)
            } else {
                Ok(Peeled { exp, at, inside })
            }
        }
        _ => Ok(Peeled { exp, at, inside }),
    }
}
