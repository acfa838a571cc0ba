// Where a let begins: the size names of its head are known in its value, and its names are bound behind it.
ghost use Rattle.std.specs.Prelude.{◌≡◌, ◌+◌, IfOk};
ghost use Rattle.fut_flat.specs.Erased.{pattern_of};
ghost use Rattle.fut_flat.specs.Numbers.{pattern_numbers};
ghost use Rattle.fut_flat.proofs.ErasedForms.{row_of};
ghost use Rattle.fut_sizes.specs.Functions.{size_names};
ghost use Rattle.fut_sizes.specs.Scopes.{Scope};
ghost use Rattle.fut_types.specs.Shapes.{IsTable};
ghost use Rattle.fut_types.specs.Types.{Sub};
ghost use Rattle.fut_typing.specs.Names.{Names};
ghost use Rattle.size_arena.specs.Trees.{size_of};
ghost use Rattle.size_program.specs.Answers.{Answers, Takes};
ghost use Rattle.size_program.specs.Program.{sub_of};
ghost use Rattle.size_program.specs.Tables.{In_scope};
ghost use Rattle.size_forms.specs.Lets.{body_at, head_entered, let_bound, let_end, value_at};
ghost use Rattle.size_forms.specs.Shown.{bound_is, end_of, head_is};

use bumpalo::Bump;
use flat_numbers::{after, after_pattern};
use fut_flat::{Let, Pat};
use fut_scalar::NoMemory;
use size_arena::{SizeErr, SizeTree};
use size_patterns::{bound_names, has_parameters, head_names, let_scope, note_pattern, with_head};
use size_program::{NumberMap, Program, Tables};
use std::alloc::Global;

/// What is known in the value of a let.
#[derive(Clone, Copy)]
pub struct Head<'a> {
    pub names: &'a NumberMap<'a>,
    /// The size names that the value's parameters are to choose.
    pub heads: &'a [u32],
    /// The value's node.
    pub value: u32,
}

/// The end of a let's scope: its node, that of what stands behind it, and the names that it binds.
#[derive(Clone, Copy)]
pub struct Ending<'a> {
    pub node: u32,
    pub inner: u32,
    pub names: &'a [u32],
}

/// What is known behind a let.
#[derive(Clone, Copy)]
pub struct Bound<'a> {
    pub names: &'a NumberMap<'a>,
    pub ending: Ending<'a>,
}

/// What is known behind lets in a row, their ends, and the number behind them.
#[derive(Clone, Copy)]
pub struct Opened<'a> {
    pub names: &'a NumberMap<'a>,
    pub endings: &'a [Ending<'a>],
    pub next: u32,
}

/// The node of the value that a pattern is bound to, behind the pattern's, where a let or a loop begins.
pub fn value_node(node: u32, pattern: &Pat<'_>) -> Result<u32, NoMemory>
    ensures { IfOk result (λ value. value ≡ 1 + node + pattern_numbers (pattern_of pattern.now)) }
{
    let first = after(node, 1)?;
    let value = after_pattern(first, pattern)?;
    Ok(value)
}

/// What is known in the value of a let at a node.
///
/// `Err`: a size name of its head has no parameter that could choose it, or memory ran out.
pub fn enter_head<'a>(
    one: &'a Let<'a>,
    node: u32,
    names: &'a NumberMap<'a>,
    bump: &'a Bump,
) -> Result<Head<'a>, SizeErr>
    ensures entered { (N : Names) (types : Sub) (scope : Scope) → In_scope names.now scope → Answers head_is (head_entered types (row_of one.now) node N scope) result }
    ensures heads { IfOk result (λ h. h.heads.now ≡ size_names (row_of one.now).0.parameters) }
    ensures value { IfOk result (λ h. h.value ≡ value_at (row_of one.now) node) }
{
    let value = value_node(node, &one.pat)?;
    let heads = head_names(one.heads, bump)?;
    has_parameters(heads, &one.value, value)?;
    let inside = with_head(heads, names, bump)?;
    Ok(Head {
        names: inside,
        heads,
        value,
    })
}

/// Binds the names of a let at a node, whose value has this sized type and before which this number stands.
///
/// `Err`: the value doesn't have the sizes that are written, a size name is found in no level, or memory ran out.
pub fn bind_let<'a>(
    one: &'a Let<'a>,
    node: u32,
    size: &'a SizeTree<'a>,
    behind: u32,
    names: &'a NumberMap<'a>,
    program: &Program<'a>,
    tables: &mut Tables<'a>,
    bump: &'a Bump,
    alloc: Global,
) -> Result<Bound<'a>, SizeErr>
    requires table { IsTable program.now.names.table.now }
    ensures bound { Takes bound_is program.now names.now (let_bound (sub_of program.now.types.now) (row_of one.now) node (size_of size.now)) tables.old tables.new result }
    ensures ending { behind ≡ body_at (row_of one.now) node → IfOk result (λ b. end_of b.ending ≡ let_end (row_of one.now) node) }
{
    let first = after(node, 1)?;
    let value = after_pattern(first, &one.pat)?;
    let inner = let_scope(bump, program, one, value, size, names, alloc)?;
    note_pattern(bump, program, &one.pat, first, size, tables)?;
    let bound = bound_names(&one.pat, one.sizes, bump)?;
    Ok(Bound {
        names: inner,
        ending: Ending {
            node,
            inner: behind,
            names: bound,
        },
    })
}
