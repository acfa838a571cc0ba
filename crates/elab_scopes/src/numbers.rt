// The number whose digits lead to a name.
ghost use Rattle.std.specs.Prelude.{◌≡◌};
ghost use Rattle.elab_scopes.specs.Numbers.{digits_of};

/// The digits of the number lead to the name in a tree, the lowest first. Each byte of a name changes the low digits.
#[tactic(auto, using(crate::proofs::Bytes::digit_steps))]
pub fn digits(name: &str) -> u32
    ensures { result ≡ digits_of name.now }
{
    let mut number = 0u32;
    for byte in name.as_bytes() {
        number = number.wrapping_mul(31).wrapping_add(*byte as u32);
    }
    number
}
