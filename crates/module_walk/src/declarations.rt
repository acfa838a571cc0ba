// Definitions and types that are declared.
ghost use Rattle.elab_scopes.specs.Declarations.{type_term};
ghost use Rattle.fut_flat.specs.Sources.{source_type};
ghost use Rattle.fut_tree.specs.ModTypes.{label_of};
ghost use Rattle.fut_tree.specs.Pats.{heads_of};
ghost use Rattle.module_state.specs.Standing.{Does, block_of, here_of};
ghost use Rattle.module_state.specs.Written.{written_of};
ghost use Rattle.module_walk.specs.Steps.{type_declared, value_declared};

use crate::bringing::made_brought;
use crate::parts::twice;
use bumpalo::Bump;
use elab_scopes::Stop;
use fut_tree::{Head, Label, TypeExp};
use module_members::{declared_type, declared_value};
use module_state::{Block, Declaring, Here, Written, is_type_again, is_value_again};

/// A definition.
pub fn value_dec<'a>(
    is_entry: bool,
    label: Label<'a>,
    heads: &'a [Head<'a>],
    value: Written<'a>,
    is_local: bool,
    block: Block<'a>,
    here: Here<'a>,
    bump: &'a Bump,
    state: &mut Declaring<'a>,
) -> Result<Block<'a>, Stop<'a>>
    ensures { Does block_of (value_declared (here_of here.entry) is_local is_entry (label_of label.entry) (heads_of heads.now) (written_of value.entry) (block_of block.entry)) state.old state.new result }
{
    if is_value_again(is_local, block.own, label.name) {
        return Err(twice(label));
    }
    let made = declared_value(is_entry, label.name, heads, value, here, bump, state);
    made_brought(made, is_local, block, bump)
}

/// A type.
pub fn type_dec<'a>(
    label: Label<'a>,
    heads: &'a [Head<'a>],
    ty: &'a TypeExp<'a>,
    is_local: bool,
    block: Block<'a>,
    here: Here<'a>,
    bump: &'a Bump,
    state: &mut Declaring<'a>,
) -> Result<Block<'a>, Stop<'a>>
    ensures { Does block_of (type_declared (here_of here.entry) is_local (label_of label.entry) (heads_of heads.now) (type_term label.entry.place (source_type ty.now)) (block_of block.entry)) state.old state.new result }
{
    if is_type_again(is_local, block.own, label.name) {
        return Err(twice(label));
    }
    let value = Written::Type(label.place, ty);
    let made = declared_type(label.name, heads, value, here, bump, state);
    made_brought(made, is_local, block, bump)
}
