// The table of the numbers that are named.
ghost use Rattle.std.specs.Prelude.{◌≡◌};
ghost use Rattle.unfold_reach.specs.Reach.{Named_more, is_set};

use fut_scalar::BindId;

pub fn is_named(named: &[bool], number: BindId) -> bool
    ensures { result ≡ is_set named.now number.0 }
{
    let at = number.0 as usize;
    at < named.len() && named[at]
}

pub fn name(named: &mut [bool], number: BindId)
    ensures { Named_more number named.old named.new }
{
    let at = number.0 as usize;
    if at < named.len() {
        named[at] = true;
    }
}
