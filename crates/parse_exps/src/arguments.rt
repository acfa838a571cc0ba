// Arguments behind a function.
ghost use Rattle.fut_ast.specs.Behind.{begins_argument};
ghost use Rattle.fut_ast.specs.Rows.{applied};
ghost use Rattle.fut_ast.specs.Sorts.{App};

use bumpalo::Bump;
use fut_ast::Spot;
use fut_grammar::Stop;
use fut_token::Token;
use fut_tree::Exp;
use parse_atoms::made::made;
use parse_atoms::suffixes::ReadSuffix;
use parse_atoms::tie::{ExpSort, ReadExp};
use parse_nodes::exp_nodes::call;
use parse_nodes::exp_tokens::{begins_exp_argument, goes_on_atom};
use parse_types::found::Found;
use parse_types::tokens::greater;

/// Arguments, each of which makes one application more.
#[derive(Clone, Copy)]
pub struct Arguments<R> {
    pub read: R,
}

impl<'a, R: ReadExp<'a>> ReadSuffix<'a, &'a Exp<'a>> for Arguments<R> {
    ghost sort = { App };

    ghost seen = { λ e. e.now };

    ghost test = { λ ts. begins_argument ts };

    ghost choose = { λ ts. applied };

    ghost reads = { λ s d. R.reads s.read d };

    fn begins(self, tokens: &'a [Token]) -> bool {
        begins_exp_argument(tokens)
    }

    fn goes_on_tighter(self, first: &Found<'a, &'a Exp<'a>>) -> bool {
        goes_on_atom(first.rest)
    }

    fn longer(
        self,
        bump: &'a Bump,
        inner: u32,
        at: Spot,
        first: &Found<'a, &'a Exp<'a>>,
    ) -> Result<Found<'a, &'a Exp<'a>>, Stop> {
        let value = self.read.read(inner, ExpSort::Atom, first.rest)?;
        made(
            call(bump, at.place, at.place, first.tree, value.tree.exp),
            greater(first.height, value.height) + 1,
            value.rest,
        )
    }
}
