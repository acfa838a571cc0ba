// The demands of operations.
ghost use Rattle.std.specs.Prelude.{◌≡◌, ◌<◌, ◌∷◌, [], ℕ, Bool, true, false, length};
ghost use Rattle.fut_ast.specs.Sorts.{Text};
ghost use Rattle.fut_ast.specs.declared.node.End.{End};
ghost use Rattle.fut_flat.specs.Terms.{Assert, Complement, Index, Negate, Project, Range, Replace, Truth, Update};
ghost use Rattle.fut_flat.specs.declared.act.Part.TheVariants as part;
ghost use Rattle.fut_types.specs.Types.{Ty, more, none};
ghost use Rattle.fut_types.specs.declared.Kind.{Kind};
ghost use Rattle.fut_types.specs.declared.shapes.ShapeTable.{ShapeTable};
ghost use Rattle.fut_typing.specs.Names.{Names};
ghost use Rattle.fut_typing.specs.Rules.{Rule};
ghost use Rattle.type_rules.specs.Demands.{All_below, Always_allowed, Are_demands, Say, Say_in, Stay_within};

use crate::demand::Demand;
use fut_scalar::{IntType, ScalarType};
use fut_types::Kind;

/// A truth value.
pub fn truth(id: u32) -> [Demand; 1]
    ensures says { (N : Names) (places : Kind) (b : Bool) (u : Ty) → Say result (λ K a. Rule N places K (Truth b) (a id) u none) }
    ensures within { Stay_within result (id ∷ []) }
    ensures allowed { Always_allowed result }
{
    [Demand::Is(id, ScalarType::Bool)]
}

/// A negation, of an integer.
pub fn negation(id: u32, part: u32) -> [Demand; 2]
    ensures says { (N : Names) (places : Kind) (u : Ty) → Say result (λ K a. Rule N places K Negate (a id) u (more (a part) none)) }
    ensures within { Stay_within result (id ∷ part ∷ []) }
    ensures allowed { Always_allowed result }
{
    [Demand::Same(id, part), Demand::Has(id, Kind::Integer)]
}

/// A complement, of an integer or a truth value.
pub fn complement(id: u32, part: u32) -> [Demand; 2]
    ensures says { (N : Names) (places : Kind) (u : Ty) → Say result (λ K a. Rule N places K Complement (a id) u (more (a part) none)) }
    ensures within { Stay_within result (id ∷ part ∷ []) }
    ensures allowed { Always_allowed result }
{
    [Demand::Same(id, part), Demand::Has(id, Kind::Scalar)]
}

/// An assertion: a truth value, and a truth value again.
pub fn assertion(id: u32, test: u32) -> [Demand; 2]
    ensures says { (N : Names) (places : Kind) (u : Ty) → Say result (λ K a. Rule N places K Assert (a id) u (more (a test) none)) }
    ensures within { Stay_within result (id ∷ test ∷ []) }
    ensures allowed { Always_allowed result }
{
    [
        Demand::Is(test, ScalarType::Bool),
        Demand::Is(id, ScalarType::Bool),
    ]
}

/// A range without a second element: the ends are integers of one type.
pub fn range(id: u32, from: u32, to: u32) -> [Demand; 3]
    ensures says { (N : Names) (places : Kind) (end : End) (u : Ty) → Say result (λ K a. Rule N places K (Range false end) (a id) u (more (a from) (more (a to) none))) }
    ensures within { Stay_within result (id ∷ from ∷ to ∷ []) }
    ensures allowed { Always_allowed result }
{
    [
        Demand::Array(id, from),
        Demand::Has(from, Kind::Integer),
        Demand::Same(to, from),
    ]
}

/// A range with a second element: it and the ends are integers of one type.
pub fn range_by(id: u32, from: u32, next: u32, to: u32) -> [Demand; 4]
    ensures says { (N : Names) (places : Kind) (end : End) (u : Ty) → Say result (λ K a. Rule N places K (Range true end) (a id) u (more (a from) (more (a next) (more (a to) none)))) }
    ensures within { Stay_within result (id ∷ from ∷ next ∷ to ∷ []) }
    ensures allowed { Always_allowed result }
{
    [
        Demand::Array(id, from),
        Demand::Has(from, Kind::Integer),
        Demand::Same(next, from),
        Demand::Same(to, from),
    ]
}

/// An array at one index: what is left is an element.
pub fn element(id: u32, array: u32, index: u32, places: Kind) -> [Demand; 3]
    ensures says { (N : Names) (u : Ty) → Say result (λ K a. Rule N places K (Index (part.At ∷ [])) (a id) u (more (a array) (more (a index) none))) }
    ensures within { Stay_within result (id ∷ array ∷ index ∷ []) }
    ensures allowed { Always_allowed result }
{
    [
        Demand::Is(index, ScalarType::Int(IntType::I64)),
        Demand::Array(array, id),
        Demand::Has(id, places),
    ]
}

/// An array updated at one index.
pub fn update(id: u32, array: u32, index: u32, value: u32, places: Kind) -> [Demand; 4]
    ensures says { (N : Names) (u : Ty) → Say result (λ K a. Rule N places K Update (a id) u (more (a array) (more (a index) (more (a value) none)))) }
    ensures within { Stay_within result (id ∷ array ∷ index ∷ value ∷ []) }
    ensures allowed { Always_allowed result }
{
    [
        Demand::Same(id, array),
        Demand::Is(index, ScalarType::Int(IntType::I64)),
        Demand::Array(array, value),
        Demand::Has(value, places),
    ]
}

/// A field access: the part of the record's type under the label.
pub fn projection(id: u32, whole: u32, part: u32, label: u32) -> [Demand; 2]
    ensures says { (N : Names) (places : Kind) (f : Text) → N.label f ≡ label → Say_in N.shapes result (λ K a. Rule N places K (Project f) (a id) (a whole) (more (a part) none)) }
    ensures within { (table : ShapeTable) (base : ℕ) → All_below base (id ∷ whole ∷ part ∷ []) → label < length table.positions → Are_demands table base result }
    ensures allowed { Always_allowed result }
{
    [Demand::Same(part, whole), Demand::Part(whole, label, id)]
}

/// A replacement: the new part has the type of the old one, and the record keeps its own.
pub fn replacement(id: u32, whole: u32, value: u32, label: u32) -> [Demand; 2]
    ensures says { (N : Names) (places : Kind) (f : Text) (u : Ty) → N.label f ≡ label → Say_in N.shapes result (λ K a. Rule N places K (Replace f) (a id) u (more (a whole) (more (a value) none))) }
    ensures within { (table : ShapeTable) (base : ℕ) → All_below base (id ∷ whole ∷ value ∷ []) → label < length table.positions → Are_demands table base result }
    ensures allowed { Always_allowed result }
{
    [Demand::Same(id, whole), Demand::Part(id, label, value)]
}
