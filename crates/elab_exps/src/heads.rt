// Size names with a pattern, and what they bring.
ghost use Rattle.fut_flat.specs.Sources.{source_pattern};
ghost use Rattle.fut_tree.specs.Names.{names as texts_of};
ghost use Rattle.elab_scopes.specs.Answers.{Went};
ghost use Rattle.elab_types.specs.Bindings.{bound_pattern_of};
ghost use Rattle.fut_tree.specs.Pats.{heads_of};
ghost use Rattle.elab_exps.specs.Heads.{Behind, Brought_head, Brought_heads, Brought_name, Brought_pattern, head_of};
ghost use Rattle.elab_exps.specs.Parts.{inside_pattern, sized_pattern};

use bumpalo::Bump;
use elab_scopes::{Names, Stop};
use elab_types::{Bound, Sizes, bring, in_scope, numbered_heads, numbered_sizes, resolved_pattern};
use fut_flat as flat;
use fut_scalar::BindId;
use fut_tree::{Head as SourceHead, Pat};

/// Size names, and a pattern that sees them.
#[derive(Clone, Copy)]
pub struct Head<'a> {
    pub sizes: Sizes<'a>,
    pub pat: Bound<'a>,
}

/// Size names and a pattern, numbered and resolved. They are not in scope behind it.
pub fn sized_pattern<'a>(
    sizes: &'a [&'a str],
    pat: &'a Pat<'a>,
    bump: &'a Bump,
    names: &mut Names<'a>,
) -> Result<Head<'a>, Stop<'a>>
    ensures { Went head_of (sized_pattern (texts_of sizes.now) (source_pattern pat.now)) names.old names.new result }
{
    let height = names.height();
    let sizes = numbered_sizes(sizes, bump, names)?;
    bring(sizes.names, names)?;
    let pat = resolved_pattern(pat, bump, names)?;
    names.leave(height);
    Ok(Head { sizes, pat })
}

/// Brings the size names and the names of a pattern in scope.
#[tactic(auto, using(crate::proofs::HeadLaws::bring_rules))]
pub fn bring_head<'a>(head: &Head<'a>, names: &mut Names<'a>) -> Result<(), Stop<'a>>
    ensures { Behind (head_of head.now) names.old names.new result }
{
    bring(head.sizes.names, names)?;
    bring(head.pat.names, names)
}

/// The pattern of a loop over an array, which sees what the loop's own pattern binds.
pub fn element_pattern<'a>(
    pat: &'a Pat<'a>,
    head: &Head<'a>,
    bump: &'a Bump,
    names: &mut Names<'a>,
) -> Result<Bound<'a>, Stop<'a>>
    ensures { Went bound_pattern_of (inside_pattern (source_pattern pat.now) (head_of head.now)) names.old names.new result }
{
    let height = names.height();
    bring_head(head, names)?;
    let pat = resolved_pattern(pat, bump, names)?;
    names.leave(height);
    Ok(pat)
}

// ---- behind what a walk gave

/// Brings the size names and the names of a pattern in scope, if they are there.
pub fn brought_head<'a>(
    head: Result<Head<'a>, Stop<'a>>,
    names: &mut Names<'a>,
) -> Result<Head<'a>, Stop<'a>>
    ensures { Brought_head head.entry names.old names.new result }
{
    let head = head?;
    bring_head(&head, names)?;
    Ok(head)
}

/// Brings a loop's own names in scope, and then a name that was numbered.
pub fn brought_name<'a>(
    name: &'a str,
    bind: Result<BindId, Stop<'a>>,
    head: &Head<'a>,
    names: &mut Names<'a>,
) -> Result<BindId, Stop<'a>>
    ensures { Brought_name (head_of head.now) name.now bind.entry names.old names.new result }
{
    bring_head(head, names)?;
    in_scope(name, bind, names)
}

/// Brings a loop's own names in scope, and then those of a pattern.
pub fn brought_pattern<'a>(
    pat: Result<Bound<'a>, Stop<'a>>,
    head: &Head<'a>,
    names: &mut Names<'a>,
) -> Result<Bound<'a>, Stop<'a>>
    ensures { Brought_pattern (head_of head.now) pat.entry names.old names.new result }
{
    let pat = pat?;
    bring_head(head, names)?;
    bring(pat.names, names)?;
    Ok(pat)
}

/// Numbers size and type parameters, and brings them in scope.
pub fn brought_heads<'a>(
    heads: &'a [SourceHead<'a>],
    bump: &'a Bump,
    names: &mut Names<'a>,
) -> Result<&'a [flat::Head], Stop<'a>>
    ensures { Brought_heads (heads_of heads.now) names.old names.new result }
{
    let heads = numbered_heads(heads, bump, names)?;
    bring(heads.names, names)?;
    Ok(heads.heads)
}
