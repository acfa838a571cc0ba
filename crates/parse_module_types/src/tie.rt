// What reads the module types and members in a production is handed over to the function that reads the production.
ghost use Rattle.std.specs.Prelude.{◌≡◌, ◌≤◌, true, if◌then◌else◌, Err, ℕ, IfOk};
ghost use Rattle.fut_ast.specs.Tokens.{starts, tail};
ghost use Rattle.fut_ast.specs.Sorts.{Spec_item, Whole_mtype};
ghost use Rattle.fut_grammar.specs.Phrases.{read_at};
ghost use Rattle.fut_grammar.specs.Reading.{Gives, refuse};
ghost use Rattle.parse_module_types.specs.MtypeFound.{spec_found};
ghost use Rattle.parse_module_types.specs.MtypeTie.{Law, Mtype_law};
ghost use Rattle.parse_types.specs.Found.{tree_found};

use fut_grammar::Stop;
use fut_token::{Fixed, Token};
use fut_tree::{ModType, Spec};
use parse_types::found::Found;
use parse_types::tokens::{refused, rest_of, starts_with};

/// What is read as a module type.
pub type ModTypeAnswer<'a> = Result<Found<'a, &'a ModType<'a>>, Stop>;

/// What is read as a member of a module type.
pub type MemberAnswer<'a> = Result<Found<'a, Spec<'a>>, Stop>;

/// What reads the module types in a production.
pub trait ReadModType<'a>: Copy {
    /// It reads them up to a height.
    ghost reads: { Self → ℕ → Type 0 };

    /// A module type, in which the types behind `with` may have arrows or not.
    fn whole(self, inner: u32, arrows: bool, tokens: &'a [Token]) -> ModTypeAnswer<'a>
        requires law { reads self inner }
        ensures exact { Gives tree_found result (read_at inner (Whole_mtype arrows) tokens.now) }
        ensures low { IfOk result (λ x. x.height ≤ inner) };
}

impl<'a, F: Fn(bool, &'a [Token]) -> ModTypeAnswer<'a>> ReadModType<'a> for &F {
    ghost reads = { λ f d. F.IsAlwaysCallable f.now × Mtype_law (F.post f.now) d };

    fn whole(self, inner: u32, arrows: bool, tokens: &'a [Token]) -> ModTypeAnswer<'a> {
        let _inner = inner;
        self(arrows, tokens)
    }
}

/// A module type behind a keyword or symbol, where types behind its `with` may have arrows or not.
pub fn whole_behind<'a, R: ReadModType<'a>>(
    read: R,
    inner: u32,
    fixed: Fixed,
    arrows: bool,
    tokens: &'a [Token],
) -> ModTypeAnswer<'a>
    requires law { R.reads read inner }
    ensures sign { IfOk result (λ x. starts fixed tokens.now ≡ true) }
    ensures exact { Gives tree_found result (if starts fixed tokens.now then read_at inner (Whole_mtype arrows) (tail tokens.now) else Err (refuse tokens.now)) }
    ensures low { IfOk result (λ x. x.height ≤ inner) }
{
    if !starts_with(tokens, fixed) {
        return Err(Stop::Fault(refused(tokens)));
    }
    read.whole(inner, arrows, rest_of(tokens))
}

/// What reads the members in a production.
pub trait ReadMember<'a>: Copy {
    /// It reads them up to a height.
    ghost reads: { Self → ℕ → Type 0 };

    /// A member of a module type.
    fn member(self, inner: u32, tokens: &'a [Token]) -> MemberAnswer<'a>
        requires law { reads self inner }
        ensures exact { Gives spec_found result (read_at inner Spec_item tokens.now) }
        ensures low { IfOk result (λ x. x.height ≤ inner) };
}

impl<'a, F: Fn(&'a [Token]) -> MemberAnswer<'a>> ReadMember<'a> for &F {
    ghost reads = { λ f d. F.IsAlwaysCallable f.now × Law Spec_item spec_found (F.post f.now) d };

    fn member(self, inner: u32, tokens: &'a [Token]) -> MemberAnswer<'a> {
        let _inner = inner;
        self(tokens)
    }
}
