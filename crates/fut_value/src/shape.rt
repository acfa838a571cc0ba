// Shapes: the type of scalars with the size of each level.
ghost use Rattle.std.specs.Prelude.{◌≡◌, ◌≤◌, ◌<◌, ◌*◌, ◌-◌, ◌^◌, max, min, MatchOption};
ghost use Rattle.fut_value.specs.Data.{weight as weight_of_shape};
ghost use Rattle.fut_value.specs.Values.{greatest_weight, shape_in, weight_of};

use fut_scalar::{List, ScalarType};

/// What a value looks like.
#[derive(Drop)]
pub struct Shape {
    /// The type of each scalar.
    pub elem: ScalarType,
    /// The sizes from the outermost level inwards, none of a scalar. A size is below 2^63.
    pub sizes: List<u64>,
}

/// The greatest weight that an array may have, in words: 256 MiB.
pub const GREATEST_WEIGHT: u64 = 33_554_432;

/// The weight of arrays of these sizes, or the greatest number where it is above.
pub fn weight_of(sizes: &[u64]) -> u64
    ensures { result ≡ min (weight_of sizes.now) (2 ^ 64 - 1) }
{
    match sizes {
        [] => 1,
        [size, rest @ ..] => size.saturating_mul(weight_of(rest).max(1)),
    }
}

/// The weight of so many rows of these sizes, or the greatest number where it is above.
pub fn weight_of_rows(count: u64, sizes: &[u64]) -> u64
    ensures { result ≡ min (count * max 1 (weight_of sizes.now)) (2 ^ 64 - 1) }
{
    count.saturating_mul(weight_of(sizes).max(1))
}

/// The weight of a shape: the greatest product of sizes from the outermost one on, in words. None exactly where it passes
/// 33,554,432.
#[tactic(auto, using(crate::proofs::Weights::weighs))]
pub fn weight(shape: &Shape) -> Option<u64>
    ensures { MatchOption result (greatest_weight < weight_of_shape (shape_in shape.now)) (λ n. (n ≡ weight_of_shape (shape_in shape.now)) × (n ≤ greatest_weight)) }
{
    let all = weight_of(shape.sizes.as_slice());
    if all > GREATEST_WEIGHT {
        None
    } else {
        Some(all)
    }
}
