// The laws of sized types by themselves.
ghost use Rattle.std.specs.Prelude.{◌≡◌};
ghost use Rattle.fut_flat.specs.declared.prim.Primitive.{Primitive};
ghost use Rattle.fut_typing.specs.Primitives.{prim_type};
ghost use Rattle.sized_types.specs.Sizes.{erased};
ghost use Rattle.fut_sizes.specs.Primitives.{prim_size};

/// Without its sizes, the sized type of a primitive is its type.
#[tactic(auto, using(crate::proofs::Erasing::primitive_erased))]
pub fn primitives_have_their_types()
    ensures { (p : Primitive) → erased (prim_size p) ≡ prim_type p }
{}
