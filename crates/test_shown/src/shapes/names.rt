// Names and paths as text.
use crate::line::Shown;

/// The position that a new name is made of: five digits in base 64, the lowest first, as characters from `!` on.
fn position_of(digits: &[u8]) -> u64 {
    let mut position = 0u64;
    let mut weight = 1u64;
    for digit in digits {
        let value = u64::from(*digit).wrapping_sub(33);
        position = position.wrapping_add(value.wrapping_mul(weight));
        weight = weight.wrapping_mul(64);
    }
    position
}

/// A name. The new names of sugar begin with a blank: of blanks alone they are shown as `$0`, `$1` and so
/// on by their number, else as `$at7` by their position.
pub fn show_name(name: &str, shown: &mut Shown) {
    match name.as_bytes() {
        [b' ', b' ', others @ ..] => {
            shown.push("$");
            shown.number((others.len() as u64).saturating_add(1));
        }
        [b' '] => shown.push("$0"),
        [b' ', digits @ ..] => {
            shown.push("$at");
            shown.number(position_of(digits));
        }
        _ => shown.push(name),
    }
}

/// The names of a path, with a point between them.
pub fn show_path(names: &[&str], shown: &mut Shown) {
    let mut between = "";
    for name in names {
        shown.push(between);
        show_name(name, shown);
        between = ".";
    }
}
