// The newest number of each text.
ghost use Rattle.std.specs.Prelude.{◌≡◌, Bool, None, OnErr, OnOk, cond};
ghost use Rattle.std.specs.HashMap as hash;
ghost use Rattle.std.specs.Str.{bytes_eq};
ghost use Rattle.fut_ast.specs.Sorts.{Text};
ghost use Rattle.elab_scopes.specs.Hiding.{Keeps, Sets, flat, newest};

use fut_scalar::{BindId, NoMemory};
use std::alloc::Global;
use std::collections::HashMap;

/// The number that each text has as a value, and as a type, where it has one.
#[derive(Drop)]
pub struct Newest<'a> {
    values: HashMap<&'a str, Option<BindId>>,
    types: HashMap<&'a str, Option<BindId>>,
}

fn found(numbers: &HashMap<&str, Option<BindId>>, name: &str) -> Option<BindId>
    ensures { result ≡ flat (hash.get_by (λ k. bytes_eq name.now k.now) numbers.now) }
{
    match numbers.get(name) {
        Some(number) => *number,
        None => None,
    }
}

/// After a refusal all is as before, and the text had no number.
#[tactic(auto, using(crate::proofs::Finding::puts))]
fn put<'a>(
    numbers: &mut HashMap<&'a str, Option<BindId>>,
    name: &'a str,
    number: Option<BindId>,
) -> Result<(), NoMemory>
    ensures ok { OnOk result ((y : Text) → flat (hash.get_by (λ k. bytes_eq y k.now) numbers.new) ≡ cond (bytes_eq name.now y) number (flat (hash.get_by (λ k. bytes_eq y k.now) numbers.old))) }
    ensures err { OnErr result (numbers.new.entries ≡ numbers.old.entries) }
    ensures absent { OnErr result (hash.get_by (λ k. bytes_eq name.now k.now) numbers.old ≡ None) }
{
    match numbers.insert(name, number) {
        Ok(_) => Ok(()),
        Err(_) => Err(NoMemory),
    }
}

impl<'a> Newest<'a> {
    /// No text has a number. It takes no memory.
    #[tactic(auto, using(crate::proofs::Finding::finds))]
    pub fn new(alloc: Global) -> Newest<'a>
        ensures { (is_type : Bool) (x : Text) → newest result is_type x ≡ None }
    {
        Newest {
            values: HashMap::new(alloc),
            types: HashMap::new(alloc),
        }
    }

    /// The number of a text.
    #[tactic(auto, using(crate::proofs::Finding::finds), unfolding(crate::specs::Hiding::newest))]
    pub fn of(&self, is_type: bool, name: &str) -> Option<BindId>
        ensures { result ≡ newest self.now is_type name.now }
    {
        if is_type {
            found(&self.types, name)
        } else {
            found(&self.values, name)
        }
    }

    /// Gives a text another number. It takes memory only where the text has none; after a refusal all is as before.
    #[tactic(auto, using(crate::proofs::Finding::finds))]
    pub fn set(
        &mut self,
        is_type: bool,
        name: &'a str,
        number: Option<BindId>,
    ) -> Result<(), NoMemory>
        ensures sets { OnOk result (Sets self.old is_type name.now number self.new) }
        ensures kept { OnErr result (Keeps self.old self.new) }
        ensures absent { OnErr result (newest self.old is_type name.now ≡ None) }
    {
        if is_type {
            put(&mut self.types, name, number)
        } else {
            put(&mut self.values, name, number)
        }
    }
}
