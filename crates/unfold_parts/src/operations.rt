// Operations on evaluated parts.
ghost use Rattle.std.specs.Prelude.{◌≡◌, ◌∷◌, [], map};
ghost use Rattle.fut_blocks.specs.Plain.{Part_at, Read, making_form};
ghost use Rattle.fut_flat.specs.Erased.{operation_of};
ghost use Rattle.fut_flat.specs.Terms.{Array_of, Assert, Binary, Project, Replace};
ghost use Rattle.fut_scalar.specs.declared.scalar.IntType.{IntType as Integer_type};
ghost use Rattle.unfold.specs.Held.{known_of, scope_of};
ghost use Rattle.unfold.specs.Unfolding.{literal_type};
ghost use Rattle.unfold_parts.specs.Answers.{Answered, Both_equal_to, Changed_to, Coerced_at, Is_step, Made_to, Operated, Operated_at};
ghost use Rattle.unfold_parts.specs.Parts.{Constant_to, One_to};
ghost use Rattle.unfold_parts.specs.Tables.{integer_at};
ghost use Rattle.unfold_parts.specs.States.{steps_of};

use crate::equality::equal;
use crate::laying::MOST_PARTS;
use crate::packing::{NOWHERE, pack, pack_all};
use crate::parts::{part, scalar};
use crate::records::{record_of, replaced};
use crate::refusal::Refusal;
use crate::stepped::{binary, computed, made, unary};
use crate::steps::Unfolding;
use crate::tested::tested;
use crate::told::Told;
use fut_blocks::{Act as StepAct, Atom, Making, Operation, Step};
use fut_flat::Act;
use fut_scalar::{BinOp, IntType, Place, Scalar, UnOp};
use told_rows::{row_of_literal, test_at};
use unfold::{Known, KnownForm, Scope};

// The type of an integer without a suffix, by the number of its node.
fn literal_type_at(types: &[IntType], number: u32) -> IntType
    ensures { result ≡ integer_at types.now number }
{
    let at = number as usize;
    if at < types.len() {
        types[at]
    } else {
        IntType::I32
    }
}

fn literal_type(ty: IntType, suffix: Option<IntType>) -> IntType
    ensures { result ≡ literal_type ty suffix }
{
    match suffix {
        Some(own) => own,
        None => ty,
    }
}

// A constant has no parts.
fn constant<'a>(value: Scalar, parts: &'a [Known<'a>]) -> Result<Known<'a>, Refusal>
    ensures { Constant_to value (map known_of parts.now) result }
{
    match parts {
        [] => Ok(Known {
            form: KnownForm::Scalar(Atom::Constant(value)),
        }),
        _ => Err(Refusal::Lost),
    }
}

// A part: of a component by a step.
fn project<'a>(
    work: &mut Unfolding<'a>,
    ty: IntType,
    name: &'a str,
    mark: Place,
    parts: &'a [Known<'a>],
) -> Result<Known<'a>, Refusal>
    ensures { Operated ty (Project name.now) mark (map known_of parts.now) work.old.next (steps_of work.old) (steps_of work.new) work.new.next result }
{
    if parts.len() != 1 {
        return Err(Refusal::Lost);
    }
    match scalar(&parts[0]) {
        Some(atom) => part_read(work, name, atom),
        None => match part(&parts[0], name) {
            Some(known) => Ok(*known),
            None => Err(Refusal::Lost),
        },
    }
}

fn part_read<'a>(work: &mut Unfolding<'a>, name: &'a str, atom: Atom) -> Result<Known<'a>, Refusal>
    ensures { Answered (λ bs s next. Is_step (Read (Part_at name.now) (atom ∷ [])) work.old.next bs (known_of s) next) ⊥ (steps_of work.old) (steps_of work.new) work.new.next result }
{
    match work.bump.try_alloc_slice_copy(&[atom]) {
        Ok(whole) => made(work, StepAct::Make(Making::Part(name), NOWHERE, whole)),
        Err(_) => Err(Refusal::Memory),
    }
}

// Another value of a field: in a component by a step.
fn replace<'a>(
    work: &mut Unfolding<'a>,
    ty: IntType,
    name: &'a str,
    mark: Place,
    parts: &'a [Known<'a>],
) -> Result<Known<'a>, Refusal>
    ensures { Operated ty (Replace name.now) mark (map known_of parts.now) work.old.next (steps_of work.old) (steps_of work.new) work.new.next result }
{
    if parts.len() != 2 {
        return Err(Refusal::Lost);
    }
    let whole = &parts[0];
    match whole.form {
        KnownForm::Scalar(atom) => changed(work, name, atom, &parts[1]),
        KnownForm::Record(fields) => match replaced(work.bump, name, &parts[1], fields) {
            Ok(made) => Ok(Known {
                form: KnownForm::Record(made),
            }),
            Err(refusal) => Err(refusal),
        },
        _ => Err(Refusal::Lost),
    }
}

fn changed<'a>(
    work: &mut Unfolding<'a>,
    name: &'a str,
    atom: Atom,
    known: &Known<'a>,
) -> Result<Known<'a>, Refusal>
    ensures { Changed_to name.now atom (known_of known.now) work.old.next (steps_of work.old) (steps_of work.new) work.new.next result }
{
    let part = match pack(work, known) {
        Ok(part) => part,
        Err(refusal) => return Err(refusal),
    };
    match work.bump.try_alloc_slice_copy(&[atom, part]) {
        Ok(both) => made(work, StepAct::Make(Making::Replace(name), NOWHERE, both)),
        Err(_) => Err(Refusal::Memory),
    }
}

// An array, or what is made of one: the parts as components, and one step.
fn make<'a>(
    work: &mut Unfolding<'a>,
    making: Making<'a>,
    mark: Place,
    parts: &'a [Known<'a>],
) -> Result<Known<'a>, Refusal>
    ensures { Made_to (making_form making.entry mark) (map known_of parts.now) work.old.next (steps_of work.old) (steps_of work.new) work.new.next result }
{
    match pack_all(work, parts) {
        Ok(atoms) => made(work, StepAct::Make(making, mark, atoms)),
        Err(refusal) => Err(refusal),
    }
}

// Whether both of two parts are equal.
fn both_equal<'a>(
    work: &mut Unfolding<'a>,
    mark: Place,
    parts: &'a [Known<'a>],
) -> Result<Atom, Refusal>
    ensures { Both_equal_to mark (map known_of parts.now) work.old.next (steps_of work.old) (steps_of work.new) work.new.next result }
{
    if parts.len() != 2 {
        return Err(Refusal::Lost);
    }
    let mut room = MOST_PARTS;
    equal(work, &mut room, 0, mark, &parts[0], &parts[1])
}

fn operate_binary<'a>(
    work: &mut Unfolding<'a>,
    op: BinOp,
    mark: Place,
    parts: &'a [Known<'a>],
) -> Result<Known<'a>, Refusal>
    ensures { (t : Integer_type) → Operated t (Binary op) mark (map known_of parts.now) work.old.next (steps_of work.old) (steps_of work.new) work.new.next result }
{
    match op {
        BinOp::Eq => match both_equal(work, mark, parts) {
            Ok(atom) => Ok(Known {
                form: KnownForm::Scalar(atom),
            }),
            Err(refusal) => Err(refusal),
        },
        BinOp::Ne => match both_equal(work, mark, parts) {
            Ok(atom) => computed(work, Operation::Unary(UnOp::Not, atom)),
            Err(refusal) => Err(refusal),
        },
        _ => binary(work, op, mark, parts),
    }
}

// The condition is asserted by a step without names, and is its own value.
#[tactic(auto, using(crate::proofs::Operated::assert_ok))]
fn assert_first<'a>(
    work: &mut Unfolding<'a>,
    ty: IntType,
    mark: Place,
    parts: &'a [Known<'a>],
) -> Result<Known<'a>, Refusal>
    ensures { Operated ty Assert mark (map known_of parts.now) work.old.next (steps_of work.old) (steps_of work.new) work.new.next result }
{
    if parts.len() != 1 {
        return Err(Refusal::Lost);
    }
    match scalar(&parts[0]) {
        Some(atom) => {
            match work.push(Step {
                names: &[],
                act: StepAct::Operate(Operation::Assert(mark, atom)),
            }) {
                Ok(()) => Ok(parts[0]),
                Err(refusal) => Err(refusal),
            }
        }
        None => Err(Refusal::Lost),
    }
}

// What has a written type is what it was.
fn same<'a>(parts: &'a [Known<'a>]) -> Result<Known<'a>, Refusal>
    ensures { One_to (map known_of parts.now) result }
{
    if parts.len() != 1 {
        return Err(Refusal::Lost);
    }
    Ok(parts[0])
}

// An array literal: the shape of its rows is told, which stands for those that are missing.
fn literal<'a>(
    work: &mut Unfolding<'a>,
    told: Told<'a>,
    scope: Scope<'a>,
    at: u32,
    mark: Place,
    parts: &'a [Known<'a>],
) -> Result<Known<'a>, Refusal>
    ensures { Operated_at told.entry (scope_of scope.entry) at Array_of mark (map known_of parts.now) work.old.next (steps_of work.old) (steps_of work.new) work.new.next result }
{
    match row_of_literal(told.sizes, scope, at, work.bump) {
        Ok(row) => make(work, Making::Array(row), mark, parts),
        Err(_) => Err(Refusal::Memory),
    }
}

// Data that has to have the sizes of a written type, where there is a sizing.
fn coerced<'a>(
    work: &mut Unfolding<'a>,
    told: Told<'a>,
    scope: Scope<'a>,
    at: u32,
    mark: Place,
    parts: &'a [Known<'a>],
) -> Result<Known<'a>, Refusal>
    ensures { Coerced_at told.entry (scope_of scope.entry) at mark (map known_of parts.now) work.old.next (steps_of work.old) (steps_of work.new) work.new.next result }
{
    if parts.len() != 1 {
        return Err(Refusal::Lost);
    }
    match test_at(told.sizes, scope, at, work.bump) {
        Ok(Some(wanted)) => tested(work, wanted, mark, &parts[0]),
        Ok(None) => Ok(parts[0]),
        Err(_) => Err(Refusal::Memory),
    }
}

/// An operation on parts, under the names of a scope, at the node of the number `at`.
pub fn operate<'a>(
    work: &mut Unfolding<'a>,
    told: Told<'a>,
    scope: Scope<'a>,
    at: u32,
    act: &Act<'a>,
    mark: Place,
    parts: &'a [Known<'a>],
) -> Result<Known<'a>, Refusal>
    ensures { Operated_at told.entry (scope_of scope.entry) at (operation_of act.now) mark (map known_of parts.now) work.old.next (steps_of work.old) (steps_of work.new) work.new.next result }
{
    let ty = literal_type_at(told.types, at);
    match *act {
        Act::Int { value, ty: suffix } => {
            let ty = literal_type(ty, suffix);
            constant(Scalar::Int { ty, bits: value }, parts)
        }
        Act::Truth(value) => constant(Scalar::Bool(value), parts),
        Act::Tuple => Ok(Known {
            form: KnownForm::Tuple(parts),
        }),
        Act::Record(names) => record_of(work.bump, names, parts),
        Act::Binary(op) => operate_binary(work, op, mark, parts),
        Act::Negate => unary(work, UnOp::Neg, parts),
        Act::Complement => unary(work, UnOp::Not, parts),
        Act::Project(name) => project(work, ty, name, mark, parts),
        Act::Replace(name) => replace(work, ty, name, mark, parts),
        Act::Ascribe(_) => same(parts),
        Act::Coerce(_) => coerced(work, told, scope, at, mark, parts),
        Act::Declared(_) => same(parts),
        Act::Assert => assert_first(work, ty, mark, parts),
        Act::Array => literal(work, told, scope, at, mark, parts),
        Act::Index(asked) => make(work, Making::Index(asked), mark, parts),
        Act::Update => make(work, Making::Update, mark, parts),
        Act::Range { stepped, end } => make(work, Making::Range { stepped, end }, mark, parts),
    }
}
