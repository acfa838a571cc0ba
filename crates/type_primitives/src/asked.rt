// What a written type demands of the nodes of its parts.
ghost use Rattle.std.specs.Prelude.{◌≡◌, ◌+◌, ◌<◌, ◌≤◌, IfErr, IfOk, OnOk};
ghost use Rattle.fut_primitives.specs.Written.{number, written_of};
ghost use Rattle.type_graph.specs.Graph.{Tells};
ghost use Rattle.type_primitives.specs.Uses.{asked, node, nodes};

use fut_primitives::{Letter, Scalars, Written};
use fut_scalar::List;
use type_graph::UnifyErr;
use type_rules::{Demand, push_demand};

/// The node of a type, and the first number behind those of its parts.
#[derive(Clone, Copy)]
pub struct Part {
    pub node: u32,
    pub next: u32,
}

// The node of a variable.
fn variable(first: u32, letter: Letter) -> u32
    requires { first + 6 < 4294967295 }
    ensures { result ≡ first + number letter }
{
    first + letter.number()
}

// The part whose node is the next one.
fn last(next: u32) -> Part
    requires { next < 4294967295 }
    ensures node { result.node ≡ next }
    ensures next { result.next ≡ next + 1 }
{
    Part {
        node: next,
        next: next + 1,
    }
}

/// The demands of a type behind others: its variables have the six nodes from the first on, its other parts those from
/// `next` on.
pub fn push_written(
    written: &Written,
    demands: &mut List<Demand>,
    scalars: Scalars,
    first: u32,
    next: u32,
) -> Result<Part, UnifyErr>
    requires room { next + nodes (written_of written.now) < 4294967295 }
    requires first { first + 6 ≤ next }
    ensures ok { OnOk result (demands.new ≡ asked scalars.own scalars.from first demands.old next (written_of written.now)) }
    ensures node { IfOk result (λ part. part.node ≡ node first next (written_of written.now)) }
    ensures next { IfOk result (λ part. part.next ≡ next + nodes (written_of written.now)) }
    ensures err { IfErr result (Tells ⊥) }
{
    match *written {
        Written::Variable(letter) => Ok(Part {
            node: variable(first, letter),
            next,
        }),
        Written::Scalar(ty) => {
            push_demand(demands, Demand::Is(next, ty))?;
            Ok(last(next))
        }
        Written::Own => {
            push_demand(demands, Demand::Is(next, scalars.own))?;
            Ok(last(next))
        }
        Written::From => {
            push_demand(demands, Demand::Is(next, scalars.from))?;
            Ok(last(next))
        }
        Written::Array(_, of) => {
            let of = push_written(of, demands, scalars, first, next)?;
            push_demand(demands, Demand::Array(of.next, of.node))?;
            Ok(last(of.next))
        }
        Written::Unique(of) => push_written(of, demands, scalars, first, next),
        Written::Pair(one, two) => {
            let one = push_written(one, demands, scalars, first, next)?;
            let two = push_written(two, demands, scalars, first, one.next)?;
            let demand = Demand::Pair(two.next, one.node, two.node);
            push_demand(demands, demand)?;
            Ok(last(two.next))
        }
        Written::Triple(one, two, three) => {
            let one = push_written(one, demands, scalars, first, next)?;
            let two = push_written(two, demands, scalars, first, one.next)?;
            let three = push_written(three, demands, scalars, first, two.next)?;
            let demand = Demand::Triple(three.next, one.node, two.node, three.node);
            push_demand(demands, demand)?;
            Ok(last(three.next))
        }
        Written::Named(_, of) => push_written(of, demands, scalars, first, next),
        Written::Function(from, to) => {
            let from = push_written(from, demands, scalars, first, next)?;
            let to = push_written(to, demands, scalars, first, from.next)?;
            let demand = Demand::Fun(to.next, from.node, to.node);
            push_demand(demands, demand)?;
            Ok(last(to.next))
        }
    }
}
