// What stands behind a phrase and goes on with it, read in one way for all sorts.
ghost use Rattle.std.specs.Prelude.{◌≡◌, ◌≤◌, ◌<◌, ◌+◌, ◌||◌, suc, true, false, if◌then◌else◌, Bool, List, length, nat_lt, ℕ, IfOk};
ghost use Rattle.fut_ast.specs.Behind.{goes_on};
ghost use Rattle.fut_ast.specs.Rows.{Suffix, suffix_parts, suffix_tree};
ghost use Rattle.fut_ast.specs.Sorts.{Sort, Tree};
ghost use Rattle.fut_ast.specs.Tokens.{spot_of};
ghost use Rattle.fut_token.specs.declared.token.Token.{Token};
ghost use Rattle.fut_grammar.specs.Phrases.{again_at, phrases, read_at};
ghost use Rattle.fut_grammar.specs.Reading.{Gives, parts_at, refuse};
ghost use Rattle.parse_types.specs.Found.{found_as};

use bumpalo::Bump;
use fut_ast::Spot;
use fut_grammar::{Fault, Stop};
use fut_token::Token;
use parse_types::found::Found;
use parse_types::tokens::refused;

/// What reads the suffixes that go on with a phrase of one sort.
pub trait ReadSuffix<'a, T>: Copy {
    /// The sort of the phrase, with its suffixes or without.
    ghost sort: { Sort };

    /// The tree that what was read stands for.
    ghost seen: { T → Tree sort };

    /// Whether a suffix stands next.
    ghost test: { List Token → Bool };

    /// The suffix that then stands there.
    ghost choose: { List Token → Suffix sort sort };

    /// It reads suffixes whose phrases are of up to a height.
    ghost reads: { Self → ℕ → Type 0 };

    /// Whether a suffix stands next.
    fn begins(self, tokens: &'a [Token]) -> bool
        ensures { result ≡ test tokens.now };

    /// Whether something tighter goes on with what was read, so that no suffix may stand behind it.
    fn goes_on_tighter(self, first: &Found<'a, T>) -> bool
        ensures { result ≡ goes_on (choose first.now.rest.now) (seen first.now.tree) first.now.rest.now };

    /// What was read, with one suffix more.
    fn longer(
        self,
        bump: &'a Bump,
        inner: u32,
        at: Spot,
        first: &Found<'a, T>,
    ) -> Result<Found<'a, T>, Stop>
        requires sign { test first.now.rest.now ≡ true }
        requires law { reads self inner }
        requires room { (inner < 1000) × (first.now.height ≤ inner) }
        ensures exact { Gives (found_as seen) result (parts_at (phrases (read_at inner)) true sort (suffix_parts (choose first.now.rest.now)) (suffix_tree (choose first.now.rest.now) at (spot_of first.now.rest.now) (seen first.now.tree)) first.now.height first.now.rest.now) }
        ensures low { IfOk result (λ x. x.height ≤ inner + 1) };
}

/// What was read, with all suffixes that stand behind it.
pub fn suffixes_behind<'a, T: Copy, R: ReadSuffix<'a, T>>(
    bump: &'a Bump,
    read: R,
    inner: u32,
    at: Spot,
    first: Found<'a, T>,
) -> Result<Found<'a, T>, Stop>
    requires law { R.reads read inner }
    requires room { (inner < 1000) × (first.height ≤ inner + 1) }
    ensures exact { Gives (found_as R.seen) result (again_at (phrases (read_at inner)) (suc inner) R.test R.choose at (suc inner) (R.seen first.entry.tree) first.entry.height first.entry.rest.now) }
    ensures low { IfOk result (λ x. x.height ≤ inner + 1) }
{
    let mut found = first;
    let mut turns = inner + 1;
    'behind: while read.begins(found.rest) {
        let goes_on = read.goes_on_tighter(&found);
        if turns == 0 || is_full(goes_on, found.height, inner) {
            return Err(Stop::Fault(too_high(goes_on, found.rest)));
        }
        turns -= 1;
        found = read.longer(bump, inner, at, &found)?;
    }
    Ok(found)
}

/// Whether one more suffix may not stand behind a phrase: something tighter goes on with it, or it is as high as may be.
pub fn is_full(goes_on: bool, height: u32, inner: u32) -> bool
    ensures full { result ≡ (goes_on || nat_lt inner height) }
    ensures free { result ≡ false → height ≤ inner }
{
    goes_on || height > inner
}

/// The fault where one more suffix would make the tree too high: it is refused where something tighter goes on.
pub fn too_high(goes_on: bool, tokens: &[Token]) -> Fault
    ensures { result ≡ (if goes_on then refuse tokens.now else Fault.TooDeep (length tokens.now)) }
{
    if goes_on {
        refused(tokens)
    } else {
        Fault::TooDeep(tokens.len())
    }
}
