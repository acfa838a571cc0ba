// Values in a store.
ghost use Rattle.std.specs.Prelude.{◌≡◌, map};
ghost use Rattle.block_store.specs.Helds.{low_bits};

use crate::view::View;
use fut_arithmetic::{decode_word, encode_word};
use fut_scalar::{List, Scalar, ScalarType};

/// Where a value stands: a scalar by itself, and an array of scalars in a block.
#[derive(Drop)]
pub enum Held {
    Scalar(Scalar),
    Array { view: View, elem: ScalarType },
}

/// Keeps of each word the low bits, as many as the type has.
pub fn with_low_bits(elem: ScalarType, words: List<u64>) -> List<u64>
    ensures { result ≡ map (low_bits elem) words }
{
    let mut words = words;
    for i in 0..words.len() {
        let scalar = decode_word(elem, words.as_slice()[i]);
        words.set(i, encode_word(scalar));
    }
    words
}
