// Names that are numbered, and come in scope.
ghost use Rattle.std.specs.Prelude.{◌≡◌};
ghost use Rattle.elab_scopes.specs.Table.{bound_of};
ghost use Rattle.elab_types.specs.Numbering.{Numbers, Comes};

use elab_scopes::{Entry, Names, Stop};
use fut_scalar::BindId;

/// The next number, for a name of this text.
#[tactic(auto, using(crate::proofs::Numbering::numbers))]
pub fn numbered<'a>(name: &'a str, names: &mut Names<'a>) -> Result<BindId, Stop<'a>>
    ensures numbers { Numbers name.now names.old names.new result }
    ensures bound { bound_of names.new ≡ bound_of names.old }
{
    match names.number(name) {
        Ok(bind) => Ok(bind),
        Err(_) => Err(Stop::Memory),
    }
}

/// Brings a value that was numbered in scope.
#[tactic(auto, using(crate::proofs::Numbering::numbers))]
pub fn in_scope<'a>(
    name: &'a str,
    bind: Result<BindId, Stop<'a>>,
    names: &mut Names<'a>,
) -> Result<BindId, Stop<'a>>
    ensures comes { Comes name.now bind.entry names.old names.new result }
    ensures bound { bound_of names.new ≡ bound_of names.old }
{
    match bind {
        Ok(bind) => match names.enter(Entry {
            name,
            bind,
            is_type: false,
        }) {
            Ok(()) => Ok(bind),
            Err(_) => Err(Stop::Memory),
        },
        Err(stop) => Err(stop),
    }
}
