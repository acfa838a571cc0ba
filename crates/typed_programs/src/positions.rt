// Names that are positions of parts.
ghost use Rattle.std.specs.Prelude.{◌≡◌, ℕ, true, false};
ghost use Rattle.std.specs.List.{All};
ghost use Rattle.typed_programs.specs.Trees.{Is_digit};
ghost use Rattle.fut_typing.specs.Names.{Spells};

fn are_digits(bytes: &[u8]) -> bool
    ensures digits { result ≡ true → All Is_digit bytes.now }
    ensures others { result ≡ false → All Is_digit bytes.now → ⊥ }
{
    for byte in bytes {
        if *byte < 48 || *byte > 57 {
            return false;
        }
    }
    true
}

/// Whether a name is the position of a part: a number without zeros in front.
pub(crate) fn is_position(name: &str) -> bool
    ensures position { result ≡ true → (n : ℕ) × Spells name.now n }
    ensures name { result ≡ false → (n : ℕ) → Spells name.now n → ⊥ }
{
    let bytes = name.as_bytes();
    if bytes.len() == 0 {
        return false;
    }
    if bytes.len() == 1 {
        return are_digits(bytes);
    }
    if bytes[0] == 48 {
        return false;
    }
    are_digits(bytes)
}
