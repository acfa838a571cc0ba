// The sized types of parameters.
ghost use Rattle.std.specs.Prelude.{◌≡◌, map, IfOk};
ghost use Rattle.fut_flat.specs.Erased.{pattern_of, patterns};
ghost use Rattle.fut_sizes.specs.Sizing.{in_pattern, in_patterns};
ghost use Rattle.fut_types.specs.Shapes.{IsTable};
ghost use Rattle.fut_types.specs.Types.{Sub};
ghost use Rattle.fut_typing.specs.Names.{Names};
ghost use Rattle.alias_parts.specs.Known.{Knows};
ghost use Rattle.size_arena.specs.Trees.{size_of, sizes_of};

use crate::rows::row_of;
use bumpalo::Bump;
use bumpalo::collections::into_bump_slice;
use fut_flat::{Pat, PatForm};
use fut_scalar::NoMemory;
use size_arena::{SizeTree, built};
use size_program::Program;
use size_written::parameter_size;

/// A parameter has the sizes that are written, and where none is those that it comes with.
#[cycle(parameter)]
pub(crate) fn in_pattern<'a>(
    bump: &'a Bump,
    program: &Program<'a>,
    pat: &Pat<'_>,
    size: &'a SizeTree<'a>,
) -> Result<&'a SizeTree<'a>, NoMemory>
    requires is_table { IsTable program.now.names.table.now }
    ensures { (N : Names) (types : Sub) → Knows program.now.names N → IfOk result (λ made. size_of made.now ≡ in_pattern N types (pattern_of pat.now) (size_of size.now)) }
{
    match pat.form {
        PatForm::Bound(_) => Ok(size),
        PatForm::Wild => Ok(size),
        PatForm::Record(_) => Ok(size),
        PatForm::Tuple(parts) => match row_of(size) {
            Some(row) => {
                let made = in_patterns(bump, program, parts, row.parts)?;
                built(bump, row.head, made)
            }
            None => Ok(size),
        },
        PatForm::Typed(inner, written) => {
            let same = parameter_size(bump, &program.names, written, size)?;
            in_pattern(bump, program, inner, same)
        }
    }
}

#[cycle(parameter)]
fn in_patterns<'a>(
    bump: &'a Bump,
    program: &Program<'a>,
    parts: &[Pat<'_>],
    row: &'a [SizeTree<'a>],
) -> Result<&'a [SizeTree<'a>], NoMemory>
    requires is_table { IsTable program.now.names.table.now }
    ensures { (N : Names) (types : Sub) → Knows program.now.names N → IfOk result (λ made. sizes_of made.now ≡ in_patterns N types (patterns (map pattern_of parts.now)) (sizes_of row.now)) }
{
    let mut made = Vec::new(bump);
    for i in 0..row.len() {
        if i < parts.len() {
            let part = in_pattern(bump, program, &parts[i], &row[i])?;
            made.push(*part)?;
        } else {
            made.push(row[i])?;
        }
    }
    Ok(into_bump_slice(made))
}
