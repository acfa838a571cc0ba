// What reads the modules and declarations in a production is handed over to the function that reads the production.
ghost use Rattle.std.specs.Prelude.{◌≤◌, ℕ, IfOk};
ghost use Rattle.fut_ast.specs.Sorts.{Dec_item};
ghost use Rattle.fut_grammar.specs.Phrases.{read_at};
ghost use Rattle.fut_grammar.specs.Reading.{Gives};
ghost use Rattle.fut_parser.specs.Private.ModFound.{dec_found};
ghost use Rattle.parse_module_types.specs.MtypeTie.{Law};
ghost use Rattle.fut_parser.specs.Private.ModTie.{Mod_law, Reads_mod};

use fut_grammar::Stop;
use fut_token::Token;
use fut_tree::{Dec, ModExp};
use parse_types::found::Found;

/// The sorts of module expressions that stand in productions.
#[derive(Clone, Copy)]
pub enum ModSort {
    Whole,
    /// An argument of a parametric module.
    Argument,
    /// The last part of a form: what goes on with it depends on how it ended.
    Last,
}

/// A module expression, and whether it ended with its seal.
#[derive(Clone, Copy)]
pub struct ModEnding<'a> {
    pub module: &'a ModExp<'a>,
    pub is_sealed: bool,
}

/// What is read as a module expression.
pub type ModAnswer<'a> = Result<Found<'a, ModEnding<'a>>, Stop>;

/// What is read as a declaration.
pub type DecAnswer<'a> = Result<Found<'a, Dec<'a>>, Stop>;

/// What reads the module expressions in a production.
pub trait ReadModule<'a>: Copy {
    /// It reads them up to a height.
    ghost reads: { Self → ℕ → Type 0 };

    /// A module expression up to the height.
    fn read(self, inner: u32, sort: ModSort, tokens: &'a [Token]) -> ModAnswer<'a>
        requires law { reads self inner }
        ensures exact { Reads_mod sort inner tokens.now result }
        ensures low { IfOk result (λ x. x.height ≤ inner) };
}

impl<'a, F: Fn(ModSort, &'a [Token]) -> ModAnswer<'a>> ReadModule<'a> for &F {
    ghost reads = { λ f d. F.IsAlwaysCallable f.now × Mod_law (F.post f.now) d };

    fn read(self, inner: u32, sort: ModSort, tokens: &'a [Token]) -> ModAnswer<'a> {
        let _inner = inner;
        self(sort, tokens)
    }
}

/// What reads the declarations in a production.
pub trait ReadDeclaration<'a>: Copy {
    /// It reads them up to a height.
    ghost reads: { Self → ℕ → Type 0 };

    /// A declaration.
    fn declaration(self, inner: u32, tokens: &'a [Token]) -> DecAnswer<'a>
        requires law { reads self inner }
        ensures exact { Gives dec_found result (read_at inner Dec_item tokens.now) }
        ensures low { IfOk result (λ x. x.height ≤ inner) };
}

impl<'a, F: Fn(&'a [Token]) -> DecAnswer<'a>> ReadDeclaration<'a> for &F {
    ghost reads = { λ f d. F.IsAlwaysCallable f.now × Law Dec_item dec_found (F.post f.now) d };

    fn declaration(self, inner: u32, tokens: &'a [Token]) -> DecAnswer<'a> {
        let _inner = inner;
        self(tokens)
    }
}
