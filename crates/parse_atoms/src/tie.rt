// What reads the expressions in a production is handed over to the function that reads the production.
ghost use Rattle.std.specs.Prelude.{◌≡◌, ◌≤◌, true, ℕ, IfOk};
ghost use Rattle.fut_ast.specs.Tokens.{starts};
ghost use Rattle.parse_atoms.specs.Tie.{Law, Reads, behind, seen, sort_of};
ghost use Rattle.fut_grammar.specs.Phrases.{read_at};
ghost use Rattle.fut_grammar.specs.Reading.{Gives};
ghost use Rattle.parse_types.specs.Found.{found_as};

use fut_ast::Ended;
use fut_grammar::Stop;
use fut_token::{Fixed, Token};
use fut_tree::Exp;
use parse_types::found::Found;
use parse_types::tokens::{refused, rest_of, starts_with};

/// The sorts of expressions that stand in productions.
#[derive(Clone, Copy)]
pub enum ExpSort {
    Atom,
    Unary,
    /// Operators of a level or tighter.
    Operands(u8),
    /// The right operand of an operator, whose operators are of a level or tighter.
    Operand(u8),
    /// The new value of an update.
    Right,
    Whole,
    /// Any expression, as the last part of a form.
    Last,
    /// What stands first in parentheses.
    Inside,
    /// The names of a field inside, and its new value.
    Replacing,
}

/// An expression and how it ended.
#[derive(Clone, Copy)]
pub struct Ending<'a> {
    pub exp: &'a Exp<'a>,
    pub ended: Ended,
}

/// What stands first in parentheses, and the operator behind it where that makes it the operand of a section.
#[derive(Clone, Copy)]
pub struct FirstInside<'a> {
    pub exp: &'a Exp<'a>,
    pub section: Option<Fixed>,
}

/// The names of a field inside, and its new value.
#[derive(Clone, Copy)]
pub struct Replacement<'a> {
    pub path: &'a [&'a str],
    pub exp: &'a Exp<'a>,
}

/// What is read of any sort: an expression, and what belongs to it in its sort.
#[derive(Clone, Copy)]
pub struct AnyExp<'a> {
    pub exp: &'a Exp<'a>,
    /// How it ended, if it is the last part of a form.
    pub ended: Ended,
    /// The operator behind it, if it stands first in parentheses and is the operand of a section.
    pub section: Option<Fixed>,
    /// The names before it, if it is what a field inside is replaced by.
    pub path: &'a [&'a str],
}

/// What reading any sort answers.
pub type ExpAnswer<'a> = Result<Found<'a, AnyExp<'a>>, Stop>;

/// What reads the expressions in a production.
pub trait ReadExp<'a>: Copy {
    /// It reads expressions up to a height.
    ghost reads: { Self → ℕ → Type 0 };

    /// An expression up to the height.
    fn read(self, inner: u32, sort: ExpSort, tokens: &'a [Token]) -> ExpAnswer<'a>
        requires law { reads self inner }
        ensures exact { Reads sort inner tokens.now result }
        ensures low { IfOk result (λ x. x.height ≤ inner) };
}

impl<'a, F: Fn(ExpSort, &'a [Token]) -> ExpAnswer<'a>> ReadExp<'a> for &F {
    ghost reads = { λ f d. F.IsAlwaysCallable f.now × Law (F.post f.now) d };

    fn read(self, inner: u32, sort: ExpSort, tokens: &'a [Token]) -> ExpAnswer<'a> {
        let _inner = inner;
        self(sort, tokens)
    }
}

/// An expression behind a keyword or symbol.
pub fn read_behind<'a, R: ReadExp<'a>>(
    read: R,
    inner: u32,
    fixed: Fixed,
    sort: ExpSort,
    tokens: &'a [Token],
) -> ExpAnswer<'a>
    requires law { R.reads read inner }
    ensures sign { IfOk result (λ x. starts fixed tokens.now ≡ true) }
    ensures exact { Gives (found_as (seen sort)) result (behind fixed (read_at inner (sort_of sort)) tokens.now) }
    ensures low { IfOk result (λ x. x.height ≤ inner) }
{
    if !starts_with(tokens, fixed) {
        return Err(Stop::Fault(refused(tokens)));
    }
    read.read(inner, sort, rest_of(tokens))
}
