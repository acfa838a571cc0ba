// Rows of `let`s, one after the other, and the assertions that end them.
ghost use Rattle.std.specs.Prelude.{◌≡◌, ◌<◌, drop, length};
ghost use Rattle.fut_flat.specs.Erased.{term_of};
ghost use Rattle.unfold_measure.specs.Rows.{Condition, Left_of, behind, is_assert};

use fut_flat::{Act, Exp, Form, Let};

/// `let`s that begin with one of a row, and the body behind them, which may be a row again.
#[derive(Clone, Copy)]
pub struct Left<'a> {
    pub lets: &'a [Let<'a>],
    pub body: &'a Exp<'a>,
}

fn is_assert(act: &Act<'_>) -> bool
    ensures { result ≡ is_assert act.now }
{
    match *act {
        Act::Assert => true,
        _ => false,
    }
}

/// The condition of an expression that asks for one.
#[tactic(auto, using(crate::proofs::Asserting::conditions))]
pub fn condition_of<'a>(exp: &'a Exp<'a>) -> Option<&'a Exp<'a>>
    ensures { Condition (term_of exp.now) result }
{
    match exp.form {
        Form::Strict {
            act,
            mark: _,
            parts,
        } => {
            if !is_assert(&act) {
                None
            } else if parts.len() == 1 {
                Some(&parts[0])
            } else {
                None
            }
        }
        Form::Lets(lets, body) => {
            if lets.len() == 0 {
                condition_of(body)
            } else {
                None
            }
        }
        _ => None,
    }
}

/// What is left of a row: none where it ends, at an assertion too.
#[tactic(auto, using(crate::proofs::Asserting::nexts))]
pub fn left_of_row<'a>(lets: &'a [Let<'a>], body: &'a Exp<'a>) -> Option<Left<'a>>
    ensures { Left_of (behind lets.now body.now) result }
{
    if lets.len() == 0 {
        match body.form {
            Form::Lets(lets, body) => left_of_row(lets, body),
            _ => None,
        }
    } else {
        match condition_of(&lets[0].value) {
            Some(_) => None,
            None => Some(Left { lets, body }),
        }
    }
}

/// What stands behind the first of them.
pub fn behind_first<'a>(left: Left<'a>) -> Left<'a>
    requires { 0 < length left.lets.now }
    ensures lets { result.lets.now ≡ drop 1 left.entry.lets.now }
    ensures body { result.body.now ≡ left.entry.body.now }
{
    Left {
        lets: &left.lets[1..],
        body: left.body,
    }
}
