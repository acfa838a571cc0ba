// Ranges of integers.
ghost use Rattle.std.specs.Prelude.{◌≡◌, ◌+◌, ◌-◌, ◌/◌, ◌<◌, ◌+ℤ◌, ◌-ℤ◌, pos, Some, IfOk, IfSome};
ghost use Rattle.fut_scalar.specs.declared.scalar.ScalarType.TheVariants as sort;
ghost use Rattle.fut_meaning.specs.Arrays.{range as range_made, range_by, range_count, stepped_from, unit_step};
ghost use Rattle.fut_ast.specs.declared.node.End.TheVariants as end;
ghost use Rattle.array_data.specs.Answers.{Tells};
ghost use Rattle.array_data.specs.Held.{as_held, held, held_all, scalars};
ghost use Rattle.array_primitives.specs.Ranges.{Integer_is, Leads, Long_is, Spans, many, over_lowest, step_held};

use array_data::{Data, Handle, Stop, failed, fitted, is_few};
use fut_arithmetic::{decode_order, encode_order, encode_word};
use fut_ast::End;
use fut_scalar::{FailKind, IntType, List, NoMemory, Place, Scalar, ScalarType};
use std::alloc::Global;

/// An integer: its type, and how far it is above the lowest of it.
#[derive(Clone, Copy)]
pub struct Integer {
    pub ty: IntType,
    pub above: u64,
}

/// The step from one element of a range to the next.
#[derive(Clone, Copy)]
pub enum Stride {
    Up(u64),
    Down(u64),
}

/// The way to the end of a range: the step, which is not 0, and how far it is.
#[derive(Clone, Copy)]
pub struct Way {
    pub step: u64,
    pub far: u64,
}

/// The integer that data is.
#[tactic(auto, using(crate::proofs::Ranging::integers))]
fn integer_in(whole: &Data) -> Result<Integer, Stop>
    ensures { Integer_is (held whole.now) result }
{
    match whole {
        Data::Scalar(scalar) => {
            let scalar = fitted(*scalar);
            match scalar {
                Scalar::Int { ty, bits: _ } => Ok(Integer {
                    ty,
                    above: encode_order(scalar),
                }),
                Scalar::Bool(_) => Err(Stop::Memory),
            }
        }
        Data::Words(_, _) | Data::Rows(_, _, _) | Data::Tuple(_, _) | Data::Record(_, _, _) => {
            Err(Stop::Memory)
        }
    }
}

/// The step between two integers of one type.
#[tactic(auto, using(crate::proofs::Ranging::strides))]
fn stride_between(from: u64, next: u64) -> Stride
    ensures { step_held result ≡ pos next -ℤ pos from }
{
    if from <= next {
        Stride::Up(next - from)
    } else {
        Stride::Down(from - next)
    }
}

/// The step of a range without a second element.
#[tactic(auto, using(crate::proofs::Ranging::strides))]
fn unit_stride(end: End) -> Stride
    ensures { step_held result ≡ unit_step end }
{
    match end {
        End::Above => Stride::Down(1),
        End::Below => Stride::Up(1),
        End::Through => Stride::Up(1),
    }
}

/// How far a number is above another, where there is a step and it is not below it.
#[tactic(auto, using(crate::proofs::Ranging::spanning))]
fn span(step: u64, low: u64, high: u64) -> Option<Way>
    ensures { Spans step low high result }
{
    if step == 0 {
        return None;
    }
    if high < low {
        return None;
    }
    Some(Way {
        step,
        far: high - low,
    })
}

/// The way of a range to its end, where it leads there.
#[tactic(auto, using(crate::proofs::Ranging::leading))]
fn way_to_end(end: End, from: Integer, stride: Stride, to: u64) -> Option<Way>
    ensures { Leads end (over_lowest from.ty from.above) (step_held stride) (over_lowest from.ty to) result }
{
    match stride {
        Stride::Up(step) => match end {
            End::Above => None,
            End::Below => span(step, from.above, to),
            End::Through => span(step, from.above, to),
        },
        Stride::Down(step) => match end {
            End::Below => None,
            End::Above => span(step, to, from.above),
            End::Through => span(step, to, from.above),
        },
    }
}

/// How many elements there are on a way before its end.
#[tactic(auto, using(crate::proofs::Ranging::counted))]
fn steps_before(way: Way) -> u64
    requires { 0 < way.step }
    ensures { result ≡ (way.far + way.step - 1) / way.step }
{
    if way.far == 0 {
        0
    } else {
        (way.far - 1) / way.step + 1
    }
}

/// So many elements, where they are not too many.
#[tactic(auto, using(crate::proofs::Ranging::lengths))]
fn no_more(at: Place, many: u64) -> Result<u64, Stop>
    ensures { Long_is at (Some many) result }
{
    if is_few(many) {
        Ok(many)
    } else {
        Err(failed(FailKind::TooLarge, at))
    }
}

/// How many elements there are on a way with its end.
#[tactic(auto, using(crate::proofs::Ranging::lengths))]
fn count_through(at: Place, way: Way) -> Result<u64, Stop>
    requires { 0 < way.step }
    ensures { Long_is at (Some (many end.Through way.step way.far)) result }
{
    let before = way.far / way.step;
    if !is_few(before) {
        return Err(failed(FailKind::TooLarge, at));
    }
    no_more(at, before + 1)
}

/// How many elements a range has.
#[tactic(auto, using(crate::proofs::Ranging::lengths))]
fn count_elements(at: Place, end: End, from: Integer, stride: Stride, to: u64) -> Result<u64, Stop>
    ensures { Long_is at (range_count end (over_lowest from.ty from.above) (step_held stride) (over_lowest from.ty to)) result }
{
    let Some(way) = way_to_end(end, from, stride, to) else {
        return Err(failed(FailKind::Range, at));
    };
    match end {
        End::Below => no_more(at, steps_before(way)),
        End::Above => no_more(at, steps_before(way)),
        End::Through => count_through(at, way),
    }
}

/// The integer one step on, where it has its place in the type.
#[tactic(auto, using(crate::proofs::Ranging::strides))]
fn after(stride: Stride, above: u64) -> Option<u64>
    ensures { IfSome result (λ next. pos next ≡ pos above +ℤ step_held stride) }
{
    match stride {
        Stride::Up(step) => {
            if step <= u64::MAX - above {
                Some(above + step)
            } else {
                None
            }
        }
        Stride::Down(step) => {
            if step <= above {
                Some(above - step)
            } else {
                None
            }
        }
    }
}

/// The words of so many elements.
#[tactic(auto, using(crate::proofs::Ranging::stepping))]
fn range_words(
    alloc: Global,
    from: Integer,
    stride: Stride,
    many: u64,
) -> Result<List<u64>, NoMemory>
    ensures { IfOk result (λ words. scalars (sort.Int from.ty) words ≡ stepped_from from.ty (over_lowest from.ty from.above) (step_held stride) many) }
{
    let mut words = List::new(alloc);
    let mut next = Some(from.above);
    for i in 0..many {
        let Some(above) = next else {
            return Err(NoMemory);
        };
        words.push(encode_word(decode_order(ScalarType::Int(from.ty), above)))?;
        next = after(stride, above);
    }
    Ok(words)
}

/// The range by steps.
#[tactic(auto, using(crate::proofs::Ranging::ranging))]
fn range_by(
    alloc: Global,
    at: Place,
    end: End,
    from: Integer,
    stride: Stride,
    to: u64,
) -> Result<Data, Stop>
    ensures { Tells (range_by at end from.ty (over_lowest from.ty from.above) (step_held stride) (over_lowest from.ty to)) (as_held result) }
{
    let many = count_elements(at, end, from, stride, to)?;
    let words = range_words(alloc, from, stride, many)?;
    Ok(Data::Words(ScalarType::Int(from.ty), Handle::new(alloc, words)?))
}

/// A range of integers of one type: from the first, by steps of 1 or to the second, to the last.
#[tactic(auto, using(crate::proofs::Ranging::ranges))]
pub fn range(
    alloc: Global,
    at: Place,
    stepped: bool,
    end: End,
    parts: &[Data],
) -> Result<Data, Stop>
    ensures { Tells (range_made at stepped end (held_all parts.now)) (as_held result) }
{
    if stepped {
        if parts.len() != 3 {
            return Err(Stop::Memory);
        }
        let from = integer_in(&parts[0])?;
        let next = integer_in(&parts[1])?;
        let to = integer_in(&parts[2])?;
        if from.ty != next.ty || from.ty != to.ty {
            return Err(Stop::Memory);
        }
        let stride = stride_between(from.above, next.above);
        return range_by(alloc, at, end, from, stride, to.above);
    }
    if parts.len() != 2 {
        return Err(Stop::Memory);
    }
    let from = integer_in(&parts[0])?;
    let to = integer_in(&parts[1])?;
    if from.ty != to.ty {
        return Err(Stop::Memory);
    }
    range_by(alloc, at, end, from, unit_stride(end), to.above)
}
