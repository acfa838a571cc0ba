// The names in scope.
ghost use Rattle.std.specs.Prelude.{◌≡◌, ◌++◌, [], ◌∷◌, IfOk, OnOk, length, map, take};
ghost use Rattle.elab_scopes.specs.Modules.{contents_of, modules_of, names_seen};
ghost use Rattle.elab_scopes.specs.Resolve.{has, next, with_text};
ghost use Rattle.elab_scopes.specs.Scopes.{a_world, type_in, value_in, world_of};
ghost use Rattle.elab_scopes.specs.Table.{bottom, bound_of, entries_of, entry_of, locals_of, made_of, modules_in, outside, scope_of};

use crate::members::Members;
use crate::modules::Contents;
use crate::scope::Scope;
use bumpalo::Bump;
use fut_scalar::{BindId, List, NoMemory};
use std::alloc::Global;

/// A name of the space of values or of that of types, and its number.
#[derive(Clone, Copy)]
pub struct Entry<'a> {
    pub name: &'a str,
    pub bind: BindId,
    pub is_type: bool,
}

/// The local names in scope, those that the pattern at hand has bound so far, the text of each number, the names that are seen
/// outside of a definition, and the modules by their numbers.
#[derive(Drop)]
pub struct Names<'a> {
    scope: Scope<'a>,
    bound: Scope<'a>,
    made: List<&'a str>,
    outside: Option<&'a Members<'a>>,
    modules: List<Contents<'a>>,
}

impl<'a> Names<'a> {
    /// No names, and nothing outside. It takes no memory.
    #[tactic(auto, using(crate::proofs::Tables::tables), unfolding(crate::specs::Table::scope_of, crate::specs::Table::bound_of, crate::specs::Table::made_of, crate::specs::Table::locals_of, crate::specs::Table::modules_in))]
    pub fn new(alloc: Global) -> Names<'a>
        ensures scope { scope_of result ≡ [] }
        ensures bound { bound_of result ≡ [] }
        ensures made { made_of result ≡ [] }
        ensures locals { locals_of result ≡ [] }
        ensures modules { modules_in result ≡ [] }
    {
        Names {
            scope: Scope::new(alloc),
            bound: Scope::new(alloc),
            made: List::new(alloc),
            outside: None,
            modules: List::new(alloc),
        }
    }

    /// How many entries stand below the local names. A height may be one more than a `usize` holds.
    #[tactic(auto, using(crate::proofs::Tables::bottoms))]
    fn below(&self) -> u128
        ensures { result ≡ length (bottom self.now.outside (modules_of self.now.modules)) }
    {
        match self.outside {
            Some(_) => 1,
            None => 0,
        }
    }

    /// How many names are in scope, with what stands outside.
    #[tactic(auto, using(crate::proofs::Tables::tables), unfolding(crate::specs::Table::scope_of, crate::specs::Table::bound_of, crate::specs::Table::made_of))]
    pub fn height(&self) -> u128
        ensures { result ≡ length (scope_of self.now) }
    {
        self.scope.len() as u128 + self.below()
    }

    /// The newest value of a name.
    #[tactic(auto, using(crate::proofs::Tables::bottoms), unfolding(crate::specs::Table::scope_of))]
    pub fn value(&self, name: &str) -> Option<BindId>
        ensures { result ≡ value_in (scope_of self.now) name.now }
    {
        self.scope.of(false, name)
    }

    /// The newest type of a name.
    #[tactic(auto, using(crate::proofs::Tables::bottoms), unfolding(crate::specs::Table::scope_of))]
    pub fn type_name(&self, name: &str) -> Option<BindId>
        ensures { result ≡ type_in (scope_of self.now) name.now }
    {
        self.scope.of(true, name)
    }

    /// Brings a name in scope.
    #[tactic(auto, using(crate::proofs::Tables::tables), unfolding(crate::specs::Table::scope_of, crate::specs::Table::bound_of, crate::specs::Table::made_of))]
    pub fn enter(&mut self, entry: Entry<'a>) -> Result<(), NoMemory>
        ensures scope { OnOk result (scope_of self.new ≡ entry_of entry.entry ∷ scope_of self.old) }
        ensures bound { bound_of self.new ≡ bound_of self.old }
        ensures made { made_of self.new ≡ made_of self.old }
    {
        self.scope.enter(entry)
    }

    /// Takes the newest names out of scope until so many are left.
    #[tactic(auto, using(crate::proofs::Tables::tables), unfolding(crate::specs::Table::scope_of, crate::specs::Table::bound_of, crate::specs::Table::made_of))]
    pub fn leave(&mut self, height: u128)
        ensures scope { scope_of self.new ≡ outside height (scope_of self.old) }
        ensures bound { bound_of self.new ≡ bound_of self.old }
        ensures made { made_of self.new ≡ made_of self.old }
    {
        let below = self.below();
        if height < below {
            self.outside = None;
        }
        self.scope.leave(height.saturating_sub(below));
    }

    /// The next number, for a name of this text.
    #[tactic(auto, using(crate::proofs::Tables::tables), unfolding(crate::specs::Table::scope_of, crate::specs::Table::bound_of, crate::specs::Table::made_of))]
    pub fn number(&mut self, text: &'a str) -> Result<BindId, NoMemory>
        ensures number { IfOk result (λ bind. bind ≡ next (made_of self.old)) }
        ensures made { OnOk result (made_of self.new ≡ with_text (made_of self.old) text.now) }
        ensures scope { scope_of self.new ≡ scope_of self.old }
        ensures bound { bound_of self.new ≡ bound_of self.old }
    {
        let Ok(number) = u32::try_from(self.made.len()) else {
            return Err(NoMemory);
        };
        self.made.push(text)?;
        Ok(BindId(number))
    }

    /// Begins a pattern, which has bound no name yet.
    #[tactic(auto, using(crate::proofs::Tables::tables), unfolding(crate::specs::Table::scope_of, crate::specs::Table::bound_of, crate::specs::Table::made_of))]
    pub fn begin_pattern(&mut self)
        ensures bound { bound_of self.new ≡ [] }
        ensures scope { scope_of self.new ≡ scope_of self.old }
        ensures made { made_of self.new ≡ made_of self.old }
    {
        self.bound.leave(0);
    }

    /// Whether the pattern at hand has bound the name.
    #[tactic(auto, using(crate::proofs::Tables::tables), unfolding(crate::specs::Table::scope_of, crate::specs::Table::bound_of, crate::specs::Table::made_of))]
    pub fn is_bound(&self, name: &str) -> bool
        ensures { result ≡ has (bound_of self.now) name.now }
    {
        self.bound.of(false, name).is_some()
    }

    /// Binds a name in the pattern at hand. It comes in scope behind the pattern.
    #[tactic(auto, using(crate::proofs::Tables::tables), unfolding(crate::specs::Table::scope_of, crate::specs::Table::bound_of, crate::specs::Table::made_of))]
    pub fn bind(&mut self, entry: Entry<'a>) -> Result<(), NoMemory>
        ensures bound { OnOk result (bound_of self.new ≡ bound_of self.old ++ entry_of entry.entry ∷ []) }
        ensures scope { scope_of self.new ≡ scope_of self.old }
        ensures made { made_of self.new ≡ made_of self.old }
    {
        self.bound.enter(entry)
    }

    /// The names that the pattern has bound.
    #[tactic(auto, using(crate::proofs::Tables::tables), unfolding(crate::specs::Table::scope_of, crate::specs::Table::bound_of, crate::specs::Table::made_of))]
    pub fn pattern_names(&self, bump: &'a Bump) -> Result<&'a [Entry<'a>], NoMemory>
        ensures { IfOk result (λ names. entries_of names.now ≡ bound_of self.now) }
    {
        self.bound.names(bump)
    }

    /// The text of each number, held by the arena.
    #[tactic(auto, unfolding(crate::specs::Table::made_of))]
    pub fn texts(&self, bump: &'a Bump) -> Result<&'a [&'a str], NoMemory>
        ensures { IfOk result (λ texts. map (λ x. x.now) texts.now ≡ made_of self.now) }
    {
        Ok(bump.try_alloc_slice_copy(self.made.as_slice())?)
    }

    /// How many numbers there are.
    #[tactic(auto, unfolding(crate::specs::Table::made_of))]
    pub fn count(&self) -> usize
        ensures { result ≡ length (made_of self.now) }
    {
        self.made.len()
    }

    /// Gives numbers back until so many are left.
    #[tactic(auto, using(crate::proofs::Tables::bottoms), unfolding(crate::specs::Table::scope_of, crate::specs::Table::made_of, crate::specs::Table::locals_of, crate::specs::Table::modules_in))]
    pub fn forget(&mut self, count: usize)
        ensures made { made_of self.new ≡ take count (made_of self.old) }
        ensures scope { scope_of self.new ≡ scope_of self.old }
        ensures locals { locals_of self.new ≡ locals_of self.old }
        ensures modules { modules_in self.new ≡ modules_in self.old }
    {
        self.made.truncate(count);
    }

    // ---- what stands outside

    /// Sees these names outside.
    #[tactic(auto, unfolding(crate::specs::Table::scope_of, crate::specs::Table::made_of, crate::specs::Table::locals_of, crate::specs::Table::modules_in))]
    pub fn see(&mut self, members: &'a Members<'a>)
        ensures scope { scope_of self.new ≡ locals_of self.old ++ a_world (record { names = members.now; modules = modules_in self.old }) ∷ [] }
        ensures made { made_of self.new ≡ made_of self.old }
        ensures locals { locals_of self.new ≡ locals_of self.old }
        ensures modules { modules_in self.new ≡ modules_in self.old }
    {
        self.outside = Some(members);
    }

    /// The names that are seen outside, if any are.
    #[tactic(auto, using(crate::proofs::Tables::bottoms))]
    pub fn seen(&self) -> Option<&'a Members<'a>>
        ensures { names_seen result ≡ (world_of (scope_of self.now)).names }
    {
        self.outside
    }

    /// The modules that are seen outside.
    #[tactic(auto, using(crate::proofs::Tables::bottoms))]
    pub fn modules_seen(&self) -> &[Contents<'a>]
        ensures { modules_of result.now ≡ (world_of (scope_of self.now)).modules }
    {
        match self.outside {
            Some(_) => self.modules.as_slice(),
            None => &[],
        }
    }

    /// The modules by their numbers.
    #[tactic(auto, unfolding(crate::specs::Table::modules_in))]
    pub fn modules(&self) -> &[Contents<'a>]
        ensures { modules_of result.now ≡ modules_in self.now }
    {
        self.modules.as_slice()
    }

    /// One more module, by its number.
    #[tactic(auto, unfolding(crate::specs::Table::made_of, crate::specs::Table::locals_of, crate::specs::Table::modules_in))]
    pub fn add_module(&mut self, contents: Contents<'a>) -> Result<u32, NoMemory>
        ensures number { IfOk result (λ number. number ≡ length (modules_in self.old)) }
        ensures modules { OnOk result (modules_in self.new ≡ modules_in self.old ++ contents_of contents.entry ∷ []) }
        ensures made { made_of self.new ≡ made_of self.old }
        ensures locals { locals_of self.new ≡ locals_of self.old }
    {
        let Ok(number) = u32::try_from(self.modules.len()) else {
            return Err(NoMemory);
        };
        self.modules.push(contents)?;
        Ok(number)
    }
}
