// What operations make of their parts.
ghost use Rattle.std.specs.Prelude.{◌≡◌, map};
ghost use Rattle.fut_flat.specs.Erased.{operation_of, term_of, terms};
ghost use Rattle.fut_sizes.specs.Operations.{operation};
ghost use Rattle.fut_sizes.specs.Sizing.{second_noted};
ghost use Rattle.fut_types.specs.Shapes.{IsTable};
ghost use Rattle.fut_types.specs.Types.{Sub};
ghost use Rattle.fut_typing.specs.Names.{Names};
ghost use Rattle.alias_parts.specs.Known.{Knows};
ghost use Rattle.size_arena.specs.Trees.{size_of, sizes_of};
ghost use Rattle.size_program.specs.Answers.{Answers, Steps};
ghost use Rattle.size_program.specs.Program.{sub_of};
ghost use Rattle.size_operations.specs.Plain.{Holds_none, operand_noted};

use crate::answers::sized;
use crate::arrays::array;
use crate::indices::index;
use crate::ranges::range;
use crate::records::record_of;
use crate::single::{ascribe, coerce, declare, project, replace};
use crate::updates::update;
use bumpalo::Bump;
use flat_numbers::after;
use fut_flat::{Act, Exp};
use fut_types::Head;
use size_arena::{SizeErr, SizeTree, built};
use size_program::{Program, Tables, note, plain_size};

/// Whether what an operation makes holds no array.
#[tactic(auto, using(crate::proofs::OperationForms::plain_forms))]
fn is_plain(act: &Act<'_>) -> bool
    ensures { Holds_none (operation_of act.now) result }
{
    match act {
        Act::Int { .. } => true,
        Act::Truth(_) => true,
        Act::Binary(_) => true,
        Act::Negate => true,
        Act::Complement => true,
        Act::Assert => true,
        _ => false,
    }
}

/// What an operation at a node makes of its parts, whose nodes begin at `first`.
///
/// `Err`: a part does not agree with the sizes that are wanted of it, an array without elements has elements that are arrays, or
/// memory ran out.
pub fn operation<'a>(
    act: &Act<'_>,
    node: u32,
    first: u32,
    parts: &[Exp<'_>],
    sizes: &'a [SizeTree<'a>],
    program: &Program<'a>,
    bump: &'a Bump,
) -> Result<&'a SizeTree<'a>, SizeErr>
    requires table { IsTable program.now.names.table.now }
    ensures { (N : Names) → Knows program.now.names N → Answers (λ t y. y ≡ size_of t.now) (operation N (sub_of program.now.types.now) (operation_of act.now) node first (terms (map term_of parts.now)) (sizes_of sizes.now)) result }
{
    // Each part has a sized type.
    if parts.len() != sizes.len() {
        return Err(SizeErr::Memory);
    }
    if is_plain(act) {
        return sized(plain_size(program, node, bump));
    }
    match act {
        Act::Tuple => sized(built(bump, Head::Tuple, sizes)),
        Act::Record(fields) => sized(record_of(fields, node, sizes, program, bump)),
        Act::Array => array(node, first, parts, sizes, program, bump),
        Act::Index(asked) => index(asked, node, parts, sizes, bump),
        Act::Project(name) => project(name, node, sizes, program, bump),
        Act::Update => update(node, first, parts, sizes),
        Act::Replace(name) => replace(name, sizes, &program.names, bump),
        Act::Ascribe(written) => ascribe(written, first, sizes, &program.names, bump),
        Act::Coerce(written) => coerce(written, first, sizes, &program.names, bump),
        Act::Declared(written) => declare(written, node, first, sizes, &program.names, bump),
        Act::Range { stepped, end } => sized(range(node, *stepped, *end, parts, program, bump)),
        _ => Err(SizeErr::Memory),
    }
}

/// The first of these sized types is that of the node behind one.
#[tactic(auto, using(crate::proofs::OperationForms::operands))]
fn note_operand<'a>(
    node: u32,
    sizes: &'a [SizeTree<'a>],
    tables: &mut Tables<'a>,
) -> Result<(), SizeErr>
    ensures { Steps (λ u y. y ≡ u) (operand_noted node (sizes_of sizes.now)) tables.old tables.new result }
{
    if sizes.len() == 0 {
        return Ok(());
    }
    let second = after(node, 1)?;
    note(tables, second, &sizes[0])
}

/// The second node of a binary operator has the sized type of its first operand, that of a field access the one of its record.
#[tactic(auto, using(crate::proofs::OperationForms::seconds))]
pub fn note_second<'a>(
    act: &Act<'_>,
    node: u32,
    sizes: &'a [SizeTree<'a>],
    tables: &mut Tables<'a>,
) -> Result<(), SizeErr>
    ensures { (N : Names) (types : Sub) → Steps (λ u y. y ≡ u) (second_noted N types (operation_of act.now) node (sizes_of sizes.now)) tables.old tables.new result }
{
    match act {
        Act::Binary(_) => note_operand(node, sizes, tables),
        Act::Project(_) => note_operand(node, sizes, tables),
        _ => Ok(()),
    }
}
