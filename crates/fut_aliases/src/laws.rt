// The laws of stars and of sets by themselves.
ghost use Rattle.std.specs.Prelude.{◌≡◌, ◌||◌};
ghost use Rattle.fut_flat.specs.declared.prim.Primitive.{Primitive};
ghost use Rattle.fut_primitives.specs.Table.{arity};
ghost use Rattle.fut_aliases.specs.declared.aliases.Alias.{Alias};
ghost use Rattle.fut_aliases.specs.Aliases.{Set, is_in, union};
ghost use Rattle.fut_aliases.specs.Stars.{arrows, primitive_stars};

/// A primitive is called with as many arguments as its type has arrows, and a union has the aliases of both sets.
#[tactic(auto, using(crate::proofs::Sets::has_union))]
pub fn stars_and_sets()
    ensures arguments { (p : Primitive) → arrows (primitive_stars p) ≡ arity p }
    ensures unions { (c : Alias) (s t : Set) → is_in c (union s t) ≡ (is_in c s || is_in c t) }
{}
