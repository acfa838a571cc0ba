// Sizes by themselves, and type variables.
ghost use Rattle.std.specs.Prelude.{◌≡◌};
ghost use Rattle.sized_types.specs.Sizes.{is_free, is_dim};
ghost use Rattle.size_arena.specs.Trees.{free_of, dim_of};

use fut_types::Kind;

/// A size by itself.
#[derive(Clone, Copy)]
pub enum Free {
    Const(u64),
    /// The value of a name.
    Name(u32),
    /// Of the parameter at a node, a level whose size is not written: it agrees with itself alone.
    Own(u32, u32),
    /// Met at a node when that runs.
    Unknown(u32, u32),
    /// One that a function's caller chooses, while the function is applied.
    Slot(u32),
}

/// The size of a level.
#[derive(Clone, Copy)]
pub enum Dim {
    At(Free),
    /// How many function types stand between, and the position in the frame.
    Bound(u32, u32),
}

/// A type variable: one that inference left open, or a type parameter that the program writes.
#[derive(Clone, Copy)]
pub enum Variable {
    Inferred(u32),
    Written(u32, Kind),
}

/// Whether two sizes are one constant, one name, one size of its own, or one unknown of one node.
#[tactic(auto, using(crate::proofs::Same::frees))]
pub fn same_free(left: Free, right: Free) -> bool
    ensures { result ≡ is_free (free_of left) (free_of right) }
{
    match left {
        Free::Const(one) => matches!(right, Free::Const(other) if one == other),
        Free::Name(one) => matches!(right, Free::Name(other) if one == other),
        Free::Own(one, level) => {
            matches!(right, Free::Own(other, other_level) if one == other && level == other_level)
        }
        Free::Unknown(one, number) => {
            matches!(right, Free::Unknown(other, other_number) if one == other && number == other_number)
        }
        Free::Slot(one) => matches!(right, Free::Slot(other) if one == other),
    }
}

/// Whether two sizes are one.
#[tactic(auto, using(crate::proofs::Same::dims))]
pub fn same_dim(left: Dim, right: Dim) -> bool
    ensures { result ≡ is_dim (dim_of left) (dim_of right) }
{
    match left {
        Dim::At(one) => match right {
            Dim::At(other) => same_free(one, other),
            Dim::Bound(_, _) => false,
        },
        Dim::Bound(between, place) => {
            matches!(right, Dim::Bound(other, other_place) if between == other && place == other_place)
        }
    }
}
