// The demands of operators and literals.
ghost use Rattle.std.specs.Prelude.{◌∷◌, [], ℕ};
ghost use Rattle.fut_flat.specs.Terms.{Binary, Integer};
ghost use Rattle.fut_types.specs.Types.{Kinds, Ty, more, none};
ghost use Rattle.fut_types.specs.declared.Kind.{Kind};
ghost use Rattle.fut_typing.specs.Names.{Names};
ghost use Rattle.fut_typing.specs.Rules.{Operator, Rule};
ghost use Rattle.type_rules.specs.Demands.{Always_allowed, By_class, Say, Stay_within};

use crate::demand::Demand;
use fut_scalar::{BinOp, IntType, ScalarType};
use fut_types::Kind;

/// Operators by what they take and give.
#[derive(Clone, Copy)]
enum Class {
    /// Two values that may be compared give a truth value.
    Equality,
    /// Two integers give a truth value.
    Comparison,
    /// Two integers give an integer.
    Arithmetic,
}

fn class_of(op: BinOp) -> Class
    ensures { (K : Kinds) (t u : Ty) → (By_class result K t u → Operator op K t u) × (Operator op K t u → By_class result K t u) }
{
    match op {
        BinOp::Add => Class::Arithmetic,
        BinOp::Sub => Class::Arithmetic,
        BinOp::Mul => Class::Arithmetic,
        BinOp::Div => Class::Arithmetic,
        BinOp::Mod => Class::Arithmetic,
        BinOp::Quot => Class::Arithmetic,
        BinOp::Rem => Class::Arithmetic,
        BinOp::Pow => Class::Arithmetic,
        BinOp::And => Class::Arithmetic,
        BinOp::Or => Class::Arithmetic,
        BinOp::Xor => Class::Arithmetic,
        BinOp::Shl => Class::Arithmetic,
        BinOp::Shr => Class::Arithmetic,
        BinOp::Eq => Class::Equality,
        BinOp::Ne => Class::Equality,
        BinOp::Lt => Class::Comparison,
        BinOp::Le => Class::Comparison,
        BinOp::Gt => Class::Comparison,
        BinOp::Ge => Class::Comparison,
        BinOp::Min => Class::Arithmetic,
        BinOp::Max => Class::Arithmetic,
    }
}

/// An operator: its operands have one type, which has a number of its own.
pub fn binary(op: BinOp, id: u32, operands: u32, left: u32, right: u32) -> [Demand; 4]
    ensures says { (N : Names) (places : Kind) → Say result (λ K a. Rule N places K (Binary op) (a id) (a operands) (more (a left) (more (a right) none))) }
    ensures within { Stay_within result (id ∷ operands ∷ left ∷ right ∷ []) }
    ensures allowed { Always_allowed result }
{
    let of_left = Demand::Same(left, operands);
    let of_right = Demand::Same(right, operands);
    match class_of(op) {
        Class::Equality => [
            Demand::Is(id, ScalarType::Bool),
            Demand::Has(operands, Kind::Equal),
            of_left,
            of_right,
        ],
        Class::Comparison => [
            Demand::Is(id, ScalarType::Bool),
            Demand::Has(operands, Kind::Integer),
            of_left,
            of_right,
        ],
        Class::Arithmetic => [
            Demand::Same(id, operands),
            Demand::Has(operands, Kind::Integer),
            of_left,
            of_right,
        ],
    }
}

/// An integer, whose type is its suffix where it has one.
pub fn literal(id: u32, ty: Option<IntType>) -> [Demand; 1]
    ensures says { (N : Names) (places : Kind) (n : ℕ) (u : Ty) → Say result (λ K a. Rule N places K (Integer n ty) (a id) u none) }
    ensures within { Stay_within result (id ∷ []) }
    ensures allowed { Always_allowed result }
{
    match ty {
        None => [Demand::Has(id, Kind::Integer)],
        Some(ty) => [Demand::Is(id, ScalarType::Int(ty))],
    }
}
