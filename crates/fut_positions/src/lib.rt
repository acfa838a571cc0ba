//! Which part of a tuple a name spells: its position, a decimal number without zeros in front.
#![tactic(auto)]

ghost use Rattle.fut_positions.specs.Positions.{Spelled};

use itoa::Buffer;

/// The position below a count that a name spells. It costs the length of the name.
pub fn position(name: &str, count: usize) -> Option<usize>
    ensures { Spelled name.now count result }
{
    let at = match name.parse::<usize>() {
        Ok(at) => at,
        Err(_) => return None,
    };
    let mut buffer = Buffer::new();
    if at < count && buffer.format(at) == name {
        Some(at)
    } else {
        None
    }
}
