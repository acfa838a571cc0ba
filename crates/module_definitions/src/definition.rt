// Definitions with their names resolved.
ghost use Rattle.std.specs.Prelude.{◌≡◌};
ghost use Rattle.fut_tree.specs.Pats.{heads_of};
ghost use Rattle.elab_nodes.specs.Built.{Built3};
ghost use Rattle.elab_scopes.specs.Answers.{Went};
ghost use Rattle.elab_scopes.specs.Programs.{define};
ghost use Rattle.module_state.specs.Standing.{definition_of};
ghost use Rattle.module_state.specs.Written.{written_of};

use crate::written::written_value;
use bumpalo::Bump;
use elab_exps::brought_heads;
use elab_nodes::both::both;
use elab_scopes::{Names, Stop};
use elab_types::numbered;
use fut_flat as flat;
use fut_scalar::BindId;
use fut_tree::Head;
use module_state::Written;

/// A definition, of the answers for its parts.
fn joined<'a>(
    file: u32,
    is_entry: bool,
    bind: Result<BindId, Stop<'a>>,
    heads: Result<&'a [flat::Head], Stop<'a>>,
    value: Result<&'a flat::Exp<'a>, Stop<'a>>,
) -> Result<flat::Definition<'a>, Stop<'a>>
    ensures { Built3 (λ b hs v d. d ≡ record { bind = b; heads = hs; value = v; is_entry = is_entry; file = file }) bind.entry heads.entry value.entry result }
{
    match both(bind, both(heads, value)) {
        Ok((bind, (heads, value))) => Ok(flat::Definition {
            bind,
            heads,
            value,
            is_entry,
            file,
        }),
        Err(stop) => Err(stop),
    }
}

/// A definition with its names resolved. It does not see itself.
pub fn resolved_definition<'a>(
    file: u32,
    is_entry: bool,
    name: &'a str,
    heads: &'a [Head<'a>],
    value: Written<'a>,
    bump: &'a Bump,
    names: &mut Names<'a>,
) -> Result<flat::Definition<'a>, Stop<'a>>
    ensures { Went definition_of (define file is_entry name.now (heads_of heads.now) (written_of value.entry)) names.old names.new result }
{
    let bind = numbered(name, names);
    let height = names.height();
    let heads = brought_heads(heads, bump, names);
    let value = written_value(value, bump, names);
    names.leave(height);
    joined(file, is_entry, bind, heads, value)
}
