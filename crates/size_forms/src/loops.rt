// What a loop counts or goes over.
ghost use Rattle.std.specs.Prelude.{◌≡◌, IfOk};
ghost use Rattle.fut_flat.proofs.ErasedForms.{turns_of};
ghost use Rattle.fut_sizes.specs.Sizing.{row_of};
ghost use Rattle.fut_types.specs.Shapes.{IsTable};
ghost use Rattle.fut_types.specs.Types.{Sub};
ghost use Rattle.fut_typing.specs.Names.{Names};
ghost use Rattle.alias_parts.specs.Known.{Knows};
ghost use Rattle.size_arena.specs.Trees.{size_of};
ghost use Rattle.size_program.specs.Answers.{Steps};
ghost use Rattle.size_program.specs.Program.{sub_of};
ghost use Rattle.size_forms.specs.Loops.{each_given};
ghost use Rattle.size_forms.specs.Shown.{each_is};

use crate::walked::Whole;
use bumpalo::Bump;
use fut_flat::LoopForm;
use size_arena::{SizeErr, SizeTree};
use size_patterns::note_pattern;
use size_program::{Program, Tables, note};

/// What each turn's names are bound to.
#[derive(Clone, Copy)]
pub struct Each<'a> {
    /// The count, or a row of what is gone over; a `while` has none.
    pub size: Option<&'a SizeTree<'a>>,
    /// The number behind what is counted or gone over; where a `while`'s condition begins.
    pub next: u32,
}

// The sized type of an array's rows.
fn row_size<'a>(tree: &'a SizeTree<'a>) -> &'a SizeTree<'a>
    ensures { (N : Names) (types : Sub) → size_of result.now ≡ row_of N types (size_of tree.now) }
{
    match tree {
        SizeTree::Level { row, .. } => *row,
        SizeTree::Hole(_) => tree,
        SizeTree::Open { .. } => tree,
        SizeTree::Built { .. } => tree,
        SizeTree::Fun { .. } => tree,
    }
}

/// What each turn's names are, of a loop whose turns begin at a node and which counts or goes over this.
pub fn note_each<'a>(
    form: &LoopForm<'_>,
    at: u32,
    whole: &Whole<'a>,
    program: &Program<'a>,
    tables: &mut Tables<'a>,
    bump: &'a Bump,
) -> Result<Each<'a>, SizeErr>
    requires table { IsTable program.now.names.table.now }
    ensures each { (N : Names) → Knows program.now.names N → Steps (each_is (turns_of form.now) at N) (each_given (sub_of program.now.types.now) (turns_of form.now) at (size_of whole.now.size.now) N) tables.old tables.new result }
    ensures next { IfOk result (λ e. e.next ≡ whole.now.next) }
{
    match form {
        LoopForm::For(_, _) => {
            note(tables, at, whole.size)?;
            Ok(Each {
                size: Some(whole.size),
                next: whole.next,
            })
        }
        LoopForm::ForIn(pat, _) => {
            let row = row_size(whole.size);
            note_pattern(bump, program, pat, at, row, tables)?;
            Ok(Each {
                size: Some(row),
                next: whole.next,
            })
        }
        LoopForm::While(_) => Ok(Each {
            size: None,
            next: whole.next,
        }),
    }
}
