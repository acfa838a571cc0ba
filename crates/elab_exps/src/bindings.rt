// Lets and the turns of loops, of the answers for their parts.
ghost use Rattle.std.specs.Prelude.{◌≡◌};
ghost use Rattle.fut_flat.specs.declared.exp.LoopForm.TheVariants as turns;
ghost use Rattle.elab_nodes.specs.Built.{Built2, Built3};

use crate::heads::Head;
use elab_nodes::both::both;
use elab_nodes::rows::Turning;
use elab_scopes::Stop;
use elab_types::Bound;
use fut_flat as flat;
use fut_flat::Exp;
use fut_scalar::BindId;

/// One let.
pub fn let_row<'a>(
    is_function: bool,
    head: Result<Head<'a>, Stop<'a>>,
    heads: Result<&'a [flat::Head], Stop<'a>>,
    value: Result<&'a Exp<'a>, Stop<'a>>,
) -> Result<flat::Let<'a>, Stop<'a>>
    ensures { Built3 (λ h hs v l. l ≡ record { sizes = h.sizes.binds; heads = hs; is_function = is_function; pat = h.pat.pat; value = v.now }) head.entry heads.entry value.entry result }
{
    match both(head, both(heads, value)) {
        Ok((head, (heads, value))) => Ok(flat::Let {
            sizes: head.sizes.binds,
            heads,
            is_function,
            pat: head.pat.pat,
            value: *value,
        }),
        Err(stop) => Err(stop),
    }
}

/// A turn for each number below a count.
pub fn counted<'a>(
    bind: Result<BindId, Stop<'a>>,
    count: Result<&'a Exp<'a>, Stop<'a>>,
) -> Result<Turning<'a>, Stop<'a>>
    ensures { Built2 (λ b e t. t ≡ record { form = turns.For b e.now }) bind.entry count.entry result }
{
    match both(bind, count) {
        Ok((bind, count)) => Ok(Turning {
            form: flat::LoopForm::For(bind, *count),
        }),
        Err(stop) => Err(stop),
    }
}

/// A turn for each element of an array.
pub fn over<'a>(
    pat: Result<Bound<'a>, Stop<'a>>,
    array: Result<&'a Exp<'a>, Stop<'a>>,
) -> Result<Turning<'a>, Stop<'a>>
    ensures { Built2 (λ p e t. t ≡ record { form = turns.ForIn p.pat e.now }) pat.entry array.entry result }
{
    match both(pat, array) {
        Ok((pat, array)) => Ok(Turning {
            form: flat::LoopForm::ForIn(pat.pat, *array),
        }),
        Err(stop) => Err(stop),
    }
}

/// Turns while a condition holds.
pub fn repeated<'a>(
    brought: Result<(), Stop<'a>>,
    test: Result<&'a Exp<'a>, Stop<'a>>,
) -> Result<Turning<'a>, Stop<'a>>
    ensures { Built2 (λ u e t. t ≡ record { form = turns.While e.now }) brought.entry test.entry result }
{
    match both(brought, test) {
        Ok((_, test)) => Ok(Turning {
            form: flat::LoopForm::While(*test),
        }),
        Err(stop) => Err(stop),
    }
}
