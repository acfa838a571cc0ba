// What was read.
ghost use Rattle.std.specs.Prelude.{◌≤◌, ℕ, IfOk};
ghost use Rattle.fut_ast.specs.Sorts.{Sort, Tree};
ghost use Rattle.fut_grammar.specs.Reading.{Gives, Read};
ghost use Rattle.parse_types.specs.Closed.{Closes};
ghost use Rattle.parse_types.specs.Found.{found_as, tree_found};
ghost use Rattle.parse_types.specs.Signs.{not_before};

use crate::tokens::{refused, rest_of, starts_with};
use fut_grammar::Stop;
use fut_token::{Fixed, Token};
use fut_tree::Held;
use std::alloc::AllocError;

/// What a function read, how high it is, and the tokens behind it.
pub struct Found<'a, T> {
    pub tree: T,
    pub height: u32,
    pub rest: &'a [Token],
}

impl<'a, T: Copy> Copy for Found<'a, T> {}

impl<'a, T: Copy> Clone for Found<'a, T> {
    fn clone(&self) -> Result<Found<'a, T>, AllocError> {
        Ok(Found {
            tree: self.tree,
            height: self.height,
            rest: self.rest,
        })
    }
}

/// A tree that was read, as a part of a list.
pub fn part<'a, T>(found: Result<Found<'a, &'a T>, Stop>) -> Result<Found<'a, Held<'a, T>>, Stop>
    ensures exact { (m : Read T) → Gives tree_found found.entry m → Gives (found_as (λ h. h.at.now)) result m }
    ensures low { (k : ℕ) → IfOk found.entry (λ x. x.height ≤ k) → IfOk result (λ x. x.height ≤ k) }
{
    match found {
        Ok(Found { tree, height, rest }) => Ok(Found {
            tree: Held { at: tree },
            height,
            rest,
        }),
        Err(stop) => Err(stop),
    }
}

/// What was read, if this keyword or symbol stands behind it, and the tokens behind that.
pub fn closed_by<'a, T: Copy>(
    fixed: Fixed,
    found: Result<Found<'a, T>, Stop>,
) -> Result<Found<'a, T>, Stop>
    ensures { Closes fixed found.entry result }
{
    match found {
        Ok(Found { tree, height, rest }) => {
            if starts_with(rest, fixed) {
                Ok(Found {
                    tree,
                    height,
                    rest: rest_of(rest),
                })
            } else {
                Err(Stop::Fault(refused(rest)))
            }
        }
        Err(stop) => Err(stop),
    }
}

/// What was read, if this symbol, which would go on with it, does not stand behind it.
pub fn not_before<'a, T: Copy>(
    fixed: Fixed,
    found: Result<Found<'a, T>, Stop>,
) -> Result<Found<'a, T>, Stop>
    ensures exact { (n : Sort) (view : T → Tree n) (m : Read (Tree n)) → Gives (found_as view) found.entry m → Gives (found_as view) result (not_before fixed m) }
    ensures low { (k : ℕ) → IfOk found.entry (λ x. x.height ≤ k) → IfOk result (λ x. x.height ≤ k) }
{
    match found {
        Ok(found) => {
            if starts_with(found.rest, fixed) {
                Err(Stop::Fault(refused(found.rest)))
            } else {
                Ok(found)
            }
        }
        Err(stop) => Err(stop),
    }
}
