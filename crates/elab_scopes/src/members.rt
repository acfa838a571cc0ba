// Members, the newest first, each name of which is found at once.
ghost use Rattle.std.specs.Prelude.{◌≡◌, ◌∷◌, ◌++◌, [], IfOk, map, option_map};
ghost use Rattle.elab_scopes.specs.Scopes.{module_among, signature_among, type_among, value_among};
ghost use Rattle.elab_scopes.specs.Held.{member_of, module_ref_of};

use crate::meanings::{Meanings, Member, also, text_of};
use crate::tree::{Tree, named, with_name};
use bumpalo::Bump;
use bumpalo::collections::into_bump_slice;
use fut_scalar::NoMemory;
use std::marker::Model;

/// Members of a module, or the names that a file sees. Contracts see the list of them, the newest first.
#[derive(Drop)]
pub struct Members<'a> {
    row: Option<(Member<'a>, &'a Members<'a>)>,
    index: Tree<'a>,
}

impl<'a> Model for Members<'a> {
    ghost use Rattle.std.specs.Prelude.{List, length};
    ghost use Rattle.elab_scopes.specs.Scopes.{Member as PlainMember};
    ghost use Rattle.elab_scopes.specs.Rows.{row_of};
    ghost use Rattle.elab_scopes.specs.Trees.{Indexed};

    ghost Value = { List PlainMember };

    ghost view = { λ m. row_of m.row };

    ghost invariant = { λ m. Indexed (row_of m.row) m.index };

    ghost size = { length };

    ghost use Rattle.std.proofs.Common.{arith};

    ghost size_decreases = { λ m h. Prim.grind (arith) };
}

impl<'a> Members<'a> {
    /// What a name means among the members.
    #[tactic(auto, using(crate::proofs::Indexes::meaning))]
    pub fn named(&self, name: &str) -> Meanings
        ensures value { value_among self.now name.now ≡ result.as_value }
        ensures ty { type_among self.now name.now ≡ result.as_type }
        ensures submodule { module_among self.now name.now ≡ option_map module_ref_of result.as_module }
        ensures signature { signature_among self.now name.now ≡ result.as_signature }
    {
        named(self.index, name)
    }
}

/// No members.
#[tactic(auto, using(crate::proofs::Indexes::indexes))]
pub fn no_members<'a>(bump: &'a Bump) -> Result<&'a Members<'a>, NoMemory>
    ensures { IfOk result (λ ms. ms.now ≡ []) }
{
    match bump.try_alloc(Members {
        row: None,
        index: Tree::Leaf,
    }) {
        Ok(members) => Ok(members),
        Err(_) => Err(NoMemory),
    }
}

/// One more member, which is the newest.
#[tactic(auto, using(crate::proofs::Indexes::indexes))]
pub fn with_member<'a>(
    member: Member<'a>,
    older: &'a Members<'a>,
    bump: &'a Bump,
) -> Result<&'a Members<'a>, NoMemory>
    ensures { IfOk result (λ ms. ms.now ≡ member_of member.entry ∷ older.now) }
{
    let name = text_of(member);
    let meanings = also(member, named(older.index, name));
    let index = match with_name(older.index, name, meanings, bump) {
        Ok(index) => index,
        Err(_) => return Err(NoMemory),
    };
    match bump.try_alloc(Members {
        row: Some((member, older)),
        index,
    }) {
        Ok(members) => Ok(members),
        Err(_) => Err(NoMemory),
    }
}

/// Members that others share.
#[derive(Clone, Copy)]
struct Shared<'a> {
    members: &'a Members<'a>,
}

/// The members one by one, the newest first.
#[tactic(auto, using(crate::proofs::Indexes::rows))]
pub fn one_by_one<'a>(
    members: &'a Members<'a>,
    bump: &'a Bump,
) -> Result<&'a [Member<'a>], NoMemory>
    ensures { IfOk result (λ ms. map member_of ms.now ≡ members.now) }
{
    let mut listed = Vec::new(bump);
    let mut rest = members;
    while let Some((member, older)) = rest.row {
        match listed.push(member) {
            Ok(()) => (),
            Err(_) => return Err(NoMemory),
        }
        rest = older;
    }
    Ok(into_bump_slice(listed))
}

/// Newer members before older ones.
#[tactic(auto, using(crate::proofs::Indexes::puts))]
pub fn joined<'a>(
    newer: &'a Members<'a>,
    older: &'a Members<'a>,
    bump: &'a Bump,
) -> Result<&'a Members<'a>, NoMemory>
    ensures { IfOk result (λ ms. ms.now ≡ newer.now ++ older.now) }
{
    let listed = match one_by_one(newer, bump) {
        Ok(listed) => listed,
        Err(_) => return Err(NoMemory),
    };
    let mut all = Shared { members: older };
    let mut left = listed.len();
    while left > 0 {
        left -= 1;
        all = match with_member(listed[left], all.members, bump) {
            Ok(members) => Shared { members },
            Err(_) => return Err(NoMemory),
        };
    }
    Ok(all.members)
}
