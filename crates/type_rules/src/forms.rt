// The demands of the forms that are no operations.
ghost use Rattle.std.specs.Prelude.{◌≡◌, ◌∷◌, []};
ghost use Rattle.fut_types.specs.Types.{HasKind, fun_ty};
ghost use Rattle.fut_types.specs.declared.Kind.TheVariants as kind;
ghost use Rattle.fut_typing.specs.Primitives.{bool_ty};
ghost use Rattle.fut_typing.specs.Scopes.{IsArray};
ghost use Rattle.type_rules.specs.Demands.{Always_allowed, Say, Stay_within};

use crate::demand::Demand;
use fut_scalar::ScalarType;
use fut_types::Kind;

/// An application: the function's type is from the argument's to the whole's.
pub fn application(id: u32, function: u32, argument: u32) -> [Demand; 1]
    ensures says { Say result (λ K a. a function ≡ fun_ty (a argument) (a id)) }
    ensures within { Stay_within result (id ∷ function ∷ argument ∷ []) }
    ensures allowed { Always_allowed result }
{
    [Demand::Fun(function, argument, id)]
}

/// An `if`: the condition is a truth value, both branches have the type of the whole, and it is of a kind.
pub fn choice(id: u32, test: u32, yes: u32, no: u32, places: Kind) -> [Demand; 4]
    ensures says { Say result (λ K a. (a test ≡ bool_ty) × (a id ≡ a yes) × (a id ≡ a no) × HasKind K places (a id)) }
    ensures within { Stay_within result (id ∷ test ∷ yes ∷ no ∷ []) }
    ensures allowed { Always_allowed result }
{
    [
        Demand::Is(test, ScalarType::Bool),
        Demand::Same(id, yes),
        Demand::Same(id, no),
        Demand::Has(id, places),
    ]
}

/// What a loop carries: its pattern and its body have the type of the whole, and it is of a kind.
pub fn carried(id: u32, pattern: u32, body: u32, places: Kind) -> [Demand; 3]
    ensures says { Say result (λ K a. (a id ≡ a pattern) × (a id ≡ a body) × HasKind K places (a id)) }
    ensures within { Stay_within result (id ∷ pattern ∷ body ∷ []) }
    ensures allowed { Always_allowed result }
{
    [
        Demand::Same(id, pattern),
        Demand::Same(id, body),
        Demand::Has(id, places),
    ]
}

/// A name that counts turns has the type of their number, an integer.
pub fn counted(name: u32, bound: u32) -> [Demand; 2]
    ensures says { Say result (λ K a. (a name ≡ a bound) × HasKind K kind.Integer (a name)) }
    ensures within { Stay_within result (name ∷ bound ∷ []) }
    ensures allowed { Always_allowed result }
{
    [Demand::Same(name, bound), Demand::Has(name, Kind::Integer)]
}

/// What a loop goes over is an array, whose elements the pattern stands for.
pub fn gone_over(pattern: u32, array: u32, places: Kind) -> [Demand; 2]
    ensures says { Say result (λ K a. IsArray places K (a array) (a pattern)) }
    ensures within { Stay_within result (pattern ∷ array ∷ []) }
    ensures allowed { Always_allowed result }
{
    [Demand::Array(array, pattern), Demand::Has(pattern, places)]
}
