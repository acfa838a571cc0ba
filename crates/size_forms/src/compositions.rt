// Compositions in a row of lets.
ghost use Rattle.std.specs.Prelude.{◌≡◌, ◌<◌, ◌≤◌, None, drop, length, map, take, IfOk};
ghost use Rattle.fut_flat.specs.Erased.{lets, pattern_of, term_of};
ghost use Rattle.fut_flat.proofs.ErasedForms.{row_of};
ghost use Rattle.fut_sizes.specs.Scopes.{Scope};
ghost use Rattle.fut_sizes.specs.Sizing.{with_pattern_name};
ghost use Rattle.fut_types.specs.Shapes.{IsTable};
ghost use Rattle.fut_types.specs.Types.{Sub};
ghost use Rattle.fut_typing.specs.Names.{Names};
ghost use Rattle.size_arena.specs.Trees.{size_of};
ghost use Rattle.size_program.specs.Answers.{Takes};
ghost use Rattle.size_program.specs.Program.{sub_of};
ghost use Rattle.size_program.specs.Tables.{In_scope};
ghost use Rattle.size_forms.specs.Compositions.{composition_at, composition_entered, function_entered, second_at};
ghost use Rattle.size_forms.specs.Lets.{Plain};
ghost use Rattle.size_forms.specs.Shown.{known_is};

use bumpalo::Bump;
use flat_numbers::after;
use fut_flat::{Exp, Let, Pat, PatForm};
use fut_scalar::NoMemory;
use size_applying::composition_of;
use size_arena::{SizeErr, SizeTree};
use size_patterns::note_pattern;
use size_program::{NumberMap, Program, Tables, node_size, with_name};

/// How many lets of a row before a body stand before the first that begins a composition. What stands there is asked of
/// `composition_of` once more: a struct of a slice of lets, a let and a composition would reach too many fields.
pub fn plain_lets<'a>(row: &'a [Let<'a>], body: &'a Exp<'a>) -> usize
    ensures plain { Plain (map row_of (take result row.now)) (lets (map row_of (drop result row.now)) (term_of body.now)) }
    ensures within { result ≤ length row.now }
    ensures composes { result < length row.now → composition_at (lets (map row_of (drop result row.now)) (term_of body.now)) ≡ None → ⊥ }
{
    let mut count = 0;
    while count < row.len() {
        match composition_of(&row[count], &row[count + 1..], body) {
            Some(_) => return count,
            None => count += 1,
        }
    }
    count
}

/// What is known behind a pattern that is the name of a function.
fn with_pattern_name<'a>(
    pat: &Pat<'_>,
    size: &'a SizeTree<'a>,
    names: &'a NumberMap<'a>,
    bump: &'a Bump,
) -> Result<&'a NumberMap<'a>, NoMemory>
    ensures { (N : Names) (types : Sub) (scope : Scope) → In_scope names.now scope → IfOk result (λ made. In_scope made.now (with_pattern_name N types (pattern_of pat.now) (size_of size.now) scope)) }
{
    match pat.form {
        PatForm::Bound(bind) => with_name(bind.0, size, names, bump),
        PatForm::Wild => Ok(names),
        PatForm::Tuple(_) => Ok(names),
        PatForm::Record(_) => Ok(names),
        PatForm::Typed(_, _) => Ok(names),
    }
}

/// The names of a composition's functions are known with the sized types of their nodes. Its lets stand at these nodes: a let's
/// function is at the second behind it.
pub fn enter_composition<'a>(
    left: &Let<'_>,
    right: &Let<'_>,
    node: u32,
    second: u32,
    names: &'a NumberMap<'a>,
    program: &Program<'a>,
    tables: &mut Tables<'a>,
    bump: &'a Bump,
) -> Result<&'a NumberMap<'a>, SizeErr>
    requires table { IsTable program.now.names.table.now }
    ensures { second ≡ second_at (row_of left.now) node → Takes known_is program.now names.now (composition_entered (sub_of program.now.types.now) (row_of left.now) (row_of right.now) node) tables.old tables.new result }
{
    let inside = enter_function(&left.pat, node, names, program, tables, bump)?;
    enter_function(&right.pat, second, inside, program, tables, bump)
}

/// A let at a node binds the name of a function, whose node is the second behind it.
fn enter_function<'a>(
    pat: &Pat<'_>,
    node: u32,
    names: &'a NumberMap<'a>,
    program: &Program<'a>,
    tables: &mut Tables<'a>,
    bump: &'a Bump,
) -> Result<&'a NumberMap<'a>, SizeErr>
    requires table { IsTable program.now.names.table.now }
    ensures { Takes known_is program.now names.now (function_entered (sub_of program.now.types.now) (pattern_of pat.now) node) tables.old tables.new result }
{
    let first = after(node, 1)?;
    let value = after(node, 2)?;
    let size = node_size(tables, value, bump)?;
    note_pattern(bump, program, pat, first, size, tables)?;
    let inside = with_pattern_name(pat, size, names, bump)?;
    Ok(inside)
}
