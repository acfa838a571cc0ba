// Names that are positions.
ghost use Rattle.fut_typing.specs.Names.{Digits, Spells};
ghost use Rattle.type_rules.specs.Labels.{Tells_number};

// The number whose digits these are.
fn digits(bytes: &[u8]) -> Option<u32>
    ensures { Tells_number (Digits 0 bytes.now) result }
{
    let mut value: u64 = 0;
    let mut at = 0;
    while at < bytes.len() {
        let code = bytes[at];
        if code < 48 {
            return None;
        }
        if code > 57 {
            return None;
        }
        if value >= 4294967296 {
            return None;
        }
        value = 10 * value + (code - 48) as u64;
        at += 1;
    }
    if value >= 4294967296 {
        return None;
    }
    Some(value as u32)
}

/// The position that a name spells, where it is a number without zeros in front, and a type in hand may have a part there.
pub fn position(text: &str) -> Option<u32>
    ensures { Tells_number (Spells text.now) result }
{
    let bytes = text.as_bytes();
    if bytes.len() == 0 {
        return None;
    }
    if bytes.len() == 1 {
        return digits(bytes);
    }
    if bytes[0] == 48 {
        return None;
    }
    digits(bytes)
}
