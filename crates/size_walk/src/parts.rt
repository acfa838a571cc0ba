// What is made of parts that are sized, where no term is gone into.
ghost use Rattle.std.specs.Prelude.{◌≡◌, ◌+◌, [], map, ℕ, IfOk, List as Items, Option as Maybe};
ghost use Rattle.fut_flat.specs.Erased.{FlatTerm, operation_of, term_of, terms};
ghost use Rattle.fut_flat.specs.declared.prim.Ref.{Ref as TheRef};
ghost use Rattle.fut_flat.specs.Numbers.{numbers};
ghost use Rattle.fut_flat.specs.Terms.{Lambda, Patterns, Use};
ghost use Rattle.fut_flat.proofs.ErasedForms.{row_of};
ghost use Rattle.fut_scalar.specs.declared.place.BindId.{BindId};
ghost use Rattle.fut_sizes.specs.Applications.{Late, Met, Want as TheWant, whole};
ghost use Rattle.fut_sizes.specs.Compositions.{composing};
ghost use Rattle.fut_sizes.specs.Matching.{Found as Finding};
ghost use Rattle.fut_sizes.specs.Scopes.{Scope};
ghost use Rattle.fut_sizes.specs.Steps.{Step, give};
ghost use Rattle.fut_types.specs.Shapes.{IsTable};
ghost use Rattle.fut_types.specs.Types.{Sub};
ghost use Rattle.fut_typing.specs.Names.{Names};
ghost use Rattle.alias_parts.specs.Known.{Knows};
ghost use Rattle.size_applying.specs.Wanted.{Is_argument, Is_part, Waits};
ghost use Rattle.size_arena.specs.Trees.{size_of, sizes_of};
ghost use Rattle.size_forms.specs.Lets.{behind_heads};
ghost use Rattle.size_forms.specs.Shown.{part_is};
ghost use Rattle.size_forms.specs.Walked.{part_sized};
ghost use Rattle.size_program.specs.Answers.{Steps, Takes};
ghost use Rattle.size_program.specs.Program.{sub_of};
ghost use Rattle.size_program.specs.Tables.{In_scope};
ghost use Rattle.size_program.specs.declared.program.Program.{Program as TheProgram};
ghost use Rattle.size_program.specs.declared.tables.Tables.{Tables as TheTables};
ghost use Rattle.size_walk.specs.Walked.{operated_on, unapplied_argument};

use bumpalo::Bump;
use flat_numbers::{after, after_exp};
use fut_flat::{Act, Exp, Let, Ref};
use fut_scalar::{NoMemory, Place};
use size_applying::{Argument, Part, composing};
use size_arena::{SizeErr, SizeTree};
use size_forms::{Row, Walked, use_name};
use size_operations::{is_use, named_value, note_second, operation};
use size_program::{NumberMap, Program, Tables, note, type_at};

/// A part that is applied to nothing.
#[tactic(auto, using(crate::proofs::PartForms::wholes))]
pub(crate) fn whole_part<'a>(size: &'a SizeTree<'a>) -> Part<'a>
    ensures { (N : Names) (types : Sub) → Is_part N types result (whole (size_of size.now)) }
{
    Part::Applied {
        size,
        is_regular: false,
        arguments: &[],
    }
}

/// A term that is applied to nothing, and the number behind it.
pub(crate) fn walked<'a>(size: &'a SizeTree<'a>, next: u32) -> Walked<'a>
    ensures part { (N : Names) (types : Sub) → Is_part N types result.part (whole (size_of size.now)) }
    ensures next { result.next ≡ next }
{
    Walked {
        part: whole_part(size),
        next,
    }
}

/// The use of a name, before which so many names of modules stand.
#[tactic(auto, using(crate::proofs::PartForms::uses))]
pub(crate) fn size_use<'a>(
    name: Ref,
    place: Place,
    before: u32,
    node: u32,
    names: &'a NumberMap<'a>,
    program: &Program<'a>,
    bump: &'a Bump,
) -> Result<Walked<'a>, SizeErr>
    ensures sized { (bs : Items ℕ) (f : TheTables) → Takes (part_is (sub_of program.now.types.now)) program.now names.now (part_sized (sub_of program.now.types.now) (Use name place before) bs node) f f result }
    ensures next { IfOk result (λ w. w.next ≡ node + numbers {B = BindId} (Use name place before)) }
{
    let _place = place;
    let Ok(part) = use_name(name, node, names, program, bump) else {
        return Err(SizeErr::Memory);
    };
    let Ok(first) = after(node, 1) else {
        return Err(SizeErr::Memory);
    };
    let Ok(second) = after(first, before) else {
        return Err(SizeErr::Memory);
    };
    let Ok(next) = after(second, before) else {
        return Err(SizeErr::Memory);
    };
    Ok(Walked { part, next })
}

/// A lambda waits.
#[tactic(auto, using(crate::proofs::PartForms::waits))]
pub(crate) fn wait<'a>(
    exp: &'a Exp<'a>,
    heads: &'a [u32],
    node: u32,
    names: &'a NumberMap<'a>,
) -> Result<Walked<'a>, SizeErr>
    ensures sized { (p : TheProgram) (f : TheTables) (ps : Patterns TheRef BindId) (e : FlatTerm) → term_of exp.now ≡ Lambda ps e → Takes (part_is (sub_of p.types.now)) p names.now (part_sized (sub_of p.types.now) (term_of exp.now) heads.now node) f f result }
    ensures next { IfOk result (λ w. w.next ≡ node + numbers (term_of exp.now)) }
{
    let Ok(next) = after_exp(node, exp) else {
        return Err(SizeErr::Memory);
    };
    Ok(Walked {
        part: Part::Waiting {
            exp,
            node,
            names,
            heads,
        },
        next,
    })
}

/// A name that is an argument stays open; any other term that is applied to nothing is noted.
#[tactic(auto, using(crate::proofs::PartForms::unapplieds))]
pub(crate) fn unapplied<'a>(
    exp: &Exp<'_>,
    size: &'a SizeTree<'a>,
    node: u32,
    tables: &mut Tables<'a>,
) -> Result<Argument<'a>, SizeErr>
    ensures { (N : Names) (types : Sub) → Steps (Is_argument N types) (unapplied_argument node (term_of exp.now) (size_of size.now)) tables.old tables.new result }
{
    let value = named_value(exp);
    if is_use(exp) {
        return Ok(Argument::Early {
            node,
            value,
            is_use: true,
            size,
        });
    }
    note(tables, node, size)?;
    Ok(Argument::Early {
        node,
        value,
        is_use: false,
        size,
    })
}

/// A lambda that waits, as an argument at a node. It stands there, and has no size names of a head.
#[tactic(auto, using(crate::proofs::PartForms::lates))]
pub(crate) fn late<'a>(
    exp: &'a Exp<'a>,
    own: u32,
    names: &'a NumberMap<'a>,
    heads: &'a [u32],
    node: u32,
) -> Result<Argument<'a>, SizeErr>
    ensures { (N : Names) (types : Sub) (f : Maybe TheWant → Finding → Step Met) (t : TheTables) → Waits N types exp.now own names.now heads.now f → Steps (Is_argument N types) (give (Late node f)) t t result }
{
    if own != node {
        return Err(SizeErr::Memory);
    }
    if heads.len() != 0 {
        return Err(SizeErr::Memory);
    }
    Ok(Argument::Late {
        exp,
        node: own,
        names,
    })
}

/// An operation on parts whose nodes begin at `first`.
#[tactic(auto, using(crate::proofs::PartForms::operates))]
pub(crate) fn operate<'a>(
    act: &Act<'_>,
    node: u32,
    first: u32,
    parts: &[Exp<'_>],
    row: &Row<'a>,
    program: &Program<'a>,
    tables: &mut Tables<'a>,
    bump: &'a Bump,
) -> Result<&'a SizeTree<'a>, SizeErr>
    requires table { IsTable program.now.names.table.now }
    ensures { (N : Names) → Knows program.now.names N → Steps (λ t y. y ≡ whole (size_of t.now)) (operated_on N (sub_of program.now.types.now) (operation_of act.now) (terms (map term_of parts.now)) node first (sizes_of row.now.sizes.now)) tables.old tables.new result }
{
    let size = operation(act, node, first, parts, row.sizes, program, bump)?;
    note_second(act, node, row.sizes, tables)?;
    Ok(size)
}

/// The size names that are to be chosen behind lets.
#[tactic(auto, using(crate::proofs::PartForms::heads))]
pub(crate) fn heads_behind<'a>(lets: &[Let<'_>], heads: &'a [u32]) -> &'a [u32]
    ensures { result.now ≡ behind_heads (map row_of lets.now) heads.now }
{
    if lets.len() == 0 { heads } else { &[] }
}

/// What composes at a node, with its lambda at another.
#[tactic(auto, using(crate::proofs::PartForms::wholes))]
pub(crate) fn composition_size<'a>(
    left_first: bool,
    node: u32,
    lambda: u32,
    program: &Program<'a>,
    bump: &'a Bump,
) -> Result<&'a SizeTree<'a>, NoMemory>
    ensures { IfOk result (λ made. size_of made.now ≡ composing left_first node (sub_of program.now.types.now (1 + lambda)) (sub_of program.now.types.now (4 + lambda)) (sub_of program.now.types.now (2 + lambda))) }
{
    let first = after(lambda, 1)?;
    let second = after(lambda, 2)?;
    let fourth = after(lambda, 4)?;
    let taken = type_at(program, first)?;
    let between = type_at(program, fourth)?;
    let given = type_at(program, second)?;
    composing(left_first, node, taken, between, given, bump)
}
