// Operations whose rule is demands on the numbers of the operation and of its parts.
ghost use Rattle.std.specs.Prelude.{◌≡◌, ◌<◌, ◌+◌, ◌^◌, length};
ghost use Rattle.fut_flat.specs.Erased.{operation_of};
ghost use Rattle.fut_flat.specs.Numbers.{own_numbers};
ghost use Rattle.type_constraints.specs.Counts.{Works_on};
ghost use Rattle.type_constraints.specs.Plain.{Demanded, IsPlain, demands_of};

use fut_flat::Act;
use type_rules::{
    Demand, assertion, binary, complement, literal, negation, range, range_by, truth,
};

/// One to four demands.
#[derive(Clone, Copy)]
pub enum Plain {
    One([Demand; 1]),
    Two([Demand; 2]),
    Three([Demand; 3]),
    Four([Demand; 4]),
}

impl Plain {
    pub fn as_slice(&self) -> &[Demand]
        ensures { result.now ≡ demands_of self.now }
    {
        match self {
            Plain::One(demands) => demands,
            Plain::Two(demands) => demands,
            Plain::Three(demands) => demands,
            Plain::Four(demands) => demands,
        }
    }
}

/// The demands that are the rule of an operation on parts of these numbers.
pub fn plain_rule(act: &Act<'_>, lo: u32, parts: &[u32]) -> Plain
    requires plain { IsPlain (operation_of act.now) }
    requires few { Works_on (operation_of act.now) (length parts.now) }
    requires room { lo + own_numbers (operation_of act.now) < 2 ^ 32 }
    ensures { Demanded (operation_of act.now) lo parts.now (demands_of result) }
{
    match *act {
        Act::Int { ty, .. } => Plain::One(literal(lo, ty)),
        Act::Truth(_) => Plain::One(truth(lo)),
        Act::Negate => Plain::Two(negation(lo, parts[0])),
        Act::Complement => Plain::Two(complement(lo, parts[0])),
        Act::Binary(op) => Plain::Four(binary(op, lo, 1 + lo, parts[0], parts[1])),
        Act::Assert => Plain::Two(assertion(lo, parts[0])),
        Act::Range { stepped, .. } => {
            if stepped {
                return Plain::Four(range_by(lo, parts[0], parts[1], parts[2]));
            }
            Plain::Three(range(lo, parts[0], parts[1]))
        }
        _ => unreachable!(),
    }
}
