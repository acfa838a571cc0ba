// What declarations bring, of the answers for what is declared.
ghost use Rattle.std.specs.Prelude.{◌∷◌, []};
ghost use Rattle.elab_scopes.specs.Declarations.{brought};
ghost use Rattle.elab_scopes.specs.Scopes.{module_member, signature_member};
ghost use Rattle.module_members.specs.Steps.{Behind};
ghost use Rattle.elab_scopes.specs.Held.{module_ref_of};
ghost use Rattle.module_state.specs.Standing.{alone, block_of};

use bumpalo::Bump;
use elab_scopes::{Member, ModuleRef, Stop};
use module_state::{Block, member_brought};

/// What the declaration of a member brings.
pub fn made_brought<'a>(
    made: Result<Member<'a>, Stop<'a>>,
    is_local: bool,
    block: Block<'a>,
    bump: &'a Bump,
) -> Result<Block<'a>, Stop<'a>>
    ensures { Behind alone block_of (λ ms. brought is_local ms ms (block_of block.entry)) made.entry result }
{
    match made {
        Ok(member) => match member_brought(member, is_local, block, bump) {
            Ok(block) => Ok(block),
            Err(_) => Err(Stop::Memory),
        },
        Err(stop) => Err(stop),
    }
}

/// What the declaration of a module brings.
pub fn module_brought<'a>(
    name: &'a str,
    made: Result<ModuleRef, Stop<'a>>,
    is_local: bool,
    block: Block<'a>,
    bump: &'a Bump,
) -> Result<Block<'a>, Stop<'a>>
    ensures { Behind module_ref_of block_of (λ m. brought is_local (module_member name.now m ∷ []) (module_member name.now m ∷ []) (block_of block.entry)) made.entry result }
{
    match made {
        Ok(module) => {
            match member_brought(Member::Module(name, module), is_local, block, bump) {
                Ok(block) => Ok(block),
                Err(_) => Err(Stop::Memory),
            }
        }
        Err(stop) => Err(stop),
    }
}

/// What the declaration of a module type brings.
pub fn signature_brought<'a>(
    name: &'a str,
    made: Result<u32, Stop<'a>>,
    is_local: bool,
    block: Block<'a>,
    bump: &'a Bump,
) -> Result<Block<'a>, Stop<'a>>
    ensures { Behind (λ k. k) block_of (λ k. brought is_local (signature_member name.now k ∷ []) (signature_member name.now k ∷ []) (block_of block.entry)) made.entry result }
{
    match made {
        Ok(number) => {
            match member_brought(Member::Signature(name, number), is_local, block, bump) {
                Ok(block) => Ok(block),
                Err(_) => Err(Stop::Memory),
            }
        }
        Err(stop) => Err(stop),
    }
}
