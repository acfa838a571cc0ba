// Blocks of declarations.
ghost use Rattle.std.specs.Prelude.{◌≡◌, ◌++◌, ◌∷◌, [], IfErr, IfOk};
ghost use Rattle.elab_scopes.specs.Declarations.{brought};
ghost use Rattle.elab_scopes.specs.Held.{member_of};
ghost use Rattle.elab_scopes.specs.declared.refusal.Stop.TheVariants as stop;
ghost use Rattle.module_state.specs.Standing.{block_of};

use crate::state::Block;
use bumpalo::Bump;
use elab_scopes::{Member, Members, Stop, joined, with_member};

/// Newer members before older ones.
fn all_members<'a>(
    newer: &'a Members<'a>,
    older: &'a Members<'a>,
    bump: &'a Bump,
) -> Result<&'a Members<'a>, Stop<'a>>
    ensures ok { IfOk result (λ all. all.now ≡ newer.now ++ older.now) }
    ensures err { IfErr result (λ e. e ≡ stop.Memory) }
{
    match joined(newer, older, bump) {
        Ok(all) => Ok(all),
        Err(_) => Err(Stop::Memory),
    }
}

/// One newer member before older ones.
pub fn more_members<'a>(
    member: Member<'a>,
    older: &'a Members<'a>,
    bump: &'a Bump,
) -> Result<&'a Members<'a>, Stop<'a>>
    ensures ok { IfOk result (λ all. all.now ≡ member_of member.entry ∷ older.now) }
    ensures err { IfErr result (λ e. e ≡ stop.Memory) }
{
    match with_member(member, older, bump) {
        Ok(all) => Ok(all),
        Err(_) => Err(Stop::Memory),
    }
}

/// What the opening of a module brings: names that the block does not declare itself.
pub fn brought<'a>(
    is_local: bool,
    members: &'a Members<'a>,
    block: Block<'a>,
    bump: &'a Bump,
) -> Result<Block<'a>, Stop<'a>>
    ensures ok { IfOk result (λ b. block_of b ≡ brought is_local members.now [] (block_of block.entry)) }
    ensures err { IfErr result (λ e. e ≡ stop.Memory) }
{
    let names = match all_members(members, block.names, bump) {
        Ok(names) => names,
        Err(stop) => return Err(stop),
    };
    if is_local {
        return Ok(Block {
            names,
            exported: block.exported,
            own: block.own,
        });
    }
    match all_members(members, block.exported, bump) {
        Ok(exported) => Ok(Block {
            names,
            exported,
            own: block.own,
        }),
        Err(stop) => Err(stop),
    }
}

/// What the declaration of a member brings.
pub fn member_brought<'a>(
    member: Member<'a>,
    is_local: bool,
    block: Block<'a>,
    bump: &'a Bump,
) -> Result<Block<'a>, Stop<'a>>
    ensures ok { IfOk result (λ b. block_of b ≡ brought is_local (member_of member.entry ∷ []) (member_of member.entry ∷ []) (block_of block.entry)) }
    ensures err { IfErr result (λ e. e ≡ stop.Memory) }
{
    let names = match more_members(member, block.names, bump) {
        Ok(names) => names,
        Err(stop) => return Err(stop),
    };
    if is_local {
        return Ok(Block {
            names,
            exported: block.exported,
            own: block.own,
        });
    }
    let exported = match more_members(member, block.exported, bump) {
        Ok(exported) => exported,
        Err(stop) => return Err(stop),
    };
    match more_members(member, block.own, bump) {
        Ok(own) => Ok(Block {
            names,
            exported,
            own,
        }),
        Err(stop) => Err(stop),
    }
}
