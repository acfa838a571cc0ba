//! Definitions of files with modules: each sees the names in scope where it stands, and modules.
//!
//! `elab_scopes` (`specs/Declarations.antt`) has the definition, and `module_state` what files have declared so far.
#![tactic(auto)]

ghost use Rattle.fut_tree.specs.Pats.{heads_of};
ghost use Rattle.elab_scopes.specs.Declarations.{declare};
ghost use Rattle.module_state.specs.Standing.{Does, here_of};
ghost use Rattle.module_state.specs.Written.{written_of};

mod definition;
mod written;

use bumpalo::Bump;
use definition::resolved_definition;
use elab_scopes::Stop;
use fut_flat::Ref;
use fut_tree::Head;
use module_state::{Declaring, Here, Written};

/// Declares a definition, or only looks at its names: it counts where its part does, and else `other` stands for it, and its
/// numbers are given back.
pub fn declared<'a>(
    other: Ref,
    here: Here<'a>,
    is_entry: bool,
    name: &'a str,
    heads: &'a [Head<'a>],
    value: Written<'a>,
    state: &mut Declaring<'a>,
    bump: &'a Bump,
) -> Result<Ref, Stop<'a>>
    ensures { Does (λ r. r) (declare other (here_of here.entry) is_entry name.now (heads_of heads.now) (written_of value.entry)) state.old state.new result }
{
    let before = state.names.count();
    state.names.see(here.names);
    let names = &mut state.names;
    match resolved_definition(here.file, is_entry, name, heads, value, bump, names) {
        Ok(definition) => {
            if !here.live {
                state.names.forget(before);
                return Ok(other);
            }
            match state.definitions.push(definition) {
                Ok(()) => Ok(Ref::Bound(definition.bind)),
                Err(_) => Err(Stop::Memory),
            }
        }
        Err(stop) => Err(stop),
    }
}
