// The sized types of the primitives, read off the language's table.
ghost use Rattle.std.specs.Prelude.{◌≡◌, ◌+◌, ◌++◌, ◌∷◌, IfOk};
ghost use Rattle.fut_primitives.specs.Written.{written_of};
ghost use Rattle.fut_sizes.specs.Primitives.{argument, chosen, is_bound, is_letter, is_regular, letter, letter_from, pair_size, place, prim_size, scalar_size, sized_type, triple_size};
ghost use Rattle.sized_types.specs.Sizes.{no_size};
ghost use Rattle.size_arena.specs.Trees.{dim_of, size_of, sizes_of};
ghost use Rattle.size_making.specs.Letters.{letters_of};

use bumpalo::Bump;
use bumpalo::collections::into_bump_slice;
use fut_flat::Primitive;
use fut_primitives::{Scalars, Size, Written, line_of, scalars_of};
use fut_scalar::{NoMemory, ScalarType};
use fut_types::Head;
use size_arena::{Dim, Free, SizeTree, Variable, built, function, hole, level, past};

/// The sizes that the function types around bind, in the order of their positions, the nearest first.
#[derive(Clone, Copy)]
pub enum Letters<'a> {
    Outside,
    Inside(&'a [Size], &'a Letters<'a>),
}

/// Whether two sizes have one name.
fn is_letter(left: Size, right: Size) -> bool
    ensures { result ≡ is_letter left right }
{
    match left {
        Size::N => matches!(right, Size::N),
        Size::M => matches!(right, Size::M),
        Size::K => matches!(right, Size::K),
        Size::Unknown => false,
    }
}

/// The position of a size in a frame.
#[tactic(auto, using(crate::proofs::PrimitiveForms::places))]
fn place(size: Size, letters: &[Size]) -> Option<usize>
    ensures { result ≡ place size letters.now }
{
    for at in 0..letters.len() {
        if is_letter(size, letters[at]) {
            return Some(at);
        }
    }
    None
}

fn narrow(number: usize) -> Result<u32, NoMemory>
    ensures { IfOk result (λ same. same ≡ number) }
{
    match u32::try_from(number) {
        Ok(same) => Ok(same),
        Err(_) => Err(NoMemory),
    }
}

fn next_of(number: u32) -> Result<u32, NoMemory>
    ensures { IfOk result (λ next. next ≡ number + 1) }
{
    match number.checked_add(1) {
        Some(next) => Ok(next),
        None => Err(NoMemory),
    }
}

/// A size of the table that has a name, inside so many function types more.
#[tactic(auto, using(crate::proofs::PrimitiveForms::named))]
fn letter_from(letters: &Letters<'_>, deeper: u32, size: Size) -> Result<Dim, NoMemory>
    ensures { IfOk result (λ dim. dim_of dim ≡ letter_from deeper (letters_of letters.now) size) }
{
    match letters {
        Letters::Outside => Ok(Dim::At(Free::Const(0))),
        Letters::Inside(bound, outer) => match place(size, bound) {
            Some(at) => {
                let position = narrow(at)?;
                Ok(Dim::Bound(deeper, position))
            }
            None => {
                let next = next_of(deeper)?;
                letter_from(outer, next, size)
            }
        },
    }
}

/// A size of the table, where this is the position of the first that is met.
#[tactic(auto, using(crate::proofs::PrimitiveForms::letter_forms))]
fn letter(letters: &Letters<'_>, first: u32, size: Size) -> Result<Dim, NoMemory>
    ensures { IfOk result (λ dim. dim_of dim ≡ letter (letters_of letters.now) first size) }
{
    match size {
        Size::Unknown => Ok(Dim::Bound(0, first)),
        _ => letter_from(letters, 0, size),
    }
}

/// Whether a function type around binds a size.
#[tactic(auto, using(crate::proofs::PrimitiveForms::bounds))]
fn is_bound(letters: &Letters<'_>, size: Size) -> bool
    ensures { result ≡ is_bound (letters_of letters.now) size }
{
    match letters {
        Letters::Outside => false,
        Letters::Inside(bound, outer) => match place(size, bound) {
            Some(_) => true,
            None => is_bound(outer, size),
        },
    }
}

/// One frame more.
#[tactic(auto, using(crate::proofs::PrimitiveForms::frames))]
fn inside<'a>(
    bound: &'a [Size],
    outer: &'a Letters<'a>,
    bump: &'a Bump,
) -> Result<&'a Letters<'a>, NoMemory>
    ensures { IfOk result (λ made. letters_of made.now ≡ bound.now ∷ letters_of outer.now) }
{
    match bump.try_alloc(Letters::Inside(bound, outer)) {
        Ok(made) => Ok(made),
        Err(_) => Err(NoMemory),
    }
}

/// Sizes in a row, behind others.
fn joined<'a>(first: &[Size], second: &[Size], bump: &'a Bump) -> Result<&'a [Size], NoMemory>
    ensures { IfOk result (λ made. made.now ≡ first.now ++ second.now) }
{
    let mut made = Vec::new(bump);
    made.extend_from_slice(first)?;
    made.extend_from_slice(second)?;
    Ok(into_bump_slice(made))
}

/// The sizes of a parameter that no function type around it binds.
#[tactic(auto, using(crate::proofs::PrimitiveForms::choices))]
fn chosen<'a>(
    written: &Written,
    letters: &'a Letters<'a>,
    bump: &'a Bump,
) -> Result<&'a [Size], NoMemory>
    ensures { IfOk result (λ made. made.now ≡ chosen (letters_of letters.now) (written_of written.now)) }
{
    match *written {
        Written::Variable(_) => joined(&[], &[], bump),
        Written::Scalar(_) => joined(&[], &[], bump),
        Written::Own => joined(&[], &[], bump),
        Written::From => joined(&[], &[], bump),
        Written::Array(size, of) => {
            let one = joined(&[size], &[], bump)?;
            let inner = inside(one, letters, bump)?;
            let rest = chosen(of, inner, bump)?;
            if is_bound(letters, size) {
                Ok(rest)
            } else {
                joined(one, rest, bump)
            }
        }
        Written::Unique(of) => chosen(of, letters, bump),
        Written::Pair(one, two) => {
            let first = chosen(one, letters, bump)?;
            let inner = inside(first, letters, bump)?;
            let second = chosen(two, inner, bump)?;
            joined(first, second, bump)
        }
        Written::Triple(one, two, three) => {
            let first = chosen(one, letters, bump)?;
            let inner = inside(first, letters, bump)?;
            let second = chosen(two, inner, bump)?;
            let alone = chosen(two, letters, bump)?;
            let outer = inside(alone, letters, bump)?;
            let innermost = inside(first, outer, bump)?;
            let third = chosen(three, innermost, bump)?;
            let behind = joined(second, third, bump)?;
            joined(first, behind, bump)
        }
        Written::Named(_, _) => joined(&[], &[], bump),
        Written::Function(_, _) => joined(&[], &[], bump),
    }
}

/// The sizes that a function's result may name: those that its caller chooses, and the value of its argument.
#[tactic(auto, using(crate::proofs::PrimitiveForms::arguments))]
fn with_argument<'a>(
    chosen: &'a [Size],
    written: &Written,
    bump: &'a Bump,
) -> Result<&'a [Size], NoMemory>
    ensures { IfOk result (λ made. made.now ≡ chosen.now ++ argument (written_of written.now)) }
{
    match *written {
        Written::Named(size, _) => joined(chosen, &[size], bump),
        Written::Variable(_)
        | Written::Scalar(_)
        | Written::Own
        | Written::From
        | Written::Array(_, _)
        | Written::Unique(_)
        | Written::Pair(_, _)
        | Written::Triple(_, _, _)
        | Written::Function(_, _) => joined(chosen, &[], bump),
    }
}

#[tactic(auto, using(crate::proofs::PrimitiveForms::tuples))]
fn no_parts<'a>(bump: &'a Bump) -> &'a [SizeTree<'a>]
    ensures { sizes_of result.now ≡ no_size }
{
    into_bump_slice(Vec::new(bump))
}

#[tactic(auto, using(crate::proofs::PrimitiveForms::scalars))]
fn scalar<'a>(bump: &'a Bump, of: ScalarType) -> Result<&'a SizeTree<'a>, NoMemory>
    ensures { IfOk result (λ made. size_of made.now ≡ scalar_size of) }
{
    built(bump, Head::Scalar(of), no_parts(bump))
}

#[tactic(auto, using(crate::proofs::PrimitiveForms::tuples))]
fn pair<'a>(
    bump: &'a Bump,
    one: &'a SizeTree<'a>,
    two: &'a SizeTree<'a>,
) -> Result<&'a SizeTree<'a>, NoMemory>
    ensures { IfOk result (λ made. size_of made.now ≡ pair_size (size_of one.now) (size_of two.now)) }
{
    let mut parts = Vec::new(bump);
    parts.push(*one)?;
    parts.push(*two)?;
    built(bump, Head::Tuple, into_bump_slice(parts))
}

#[tactic(auto, using(crate::proofs::PrimitiveForms::tuples))]
fn triple<'a>(
    bump: &'a Bump,
    one: &'a SizeTree<'a>,
    two: &'a SizeTree<'a>,
    three: &'a SizeTree<'a>,
) -> Result<&'a SizeTree<'a>, NoMemory>
    ensures { IfOk result (λ made. size_of made.now ≡ triple_size (size_of one.now) (size_of two.now) (size_of three.now)) }
{
    let mut parts = Vec::new(bump);
    parts.push(*one)?;
    parts.push(*two)?;
    parts.push(*three)?;
    built(bump, Head::Tuple, into_bump_slice(parts))
}

/// A type of the table with its sizes, inside these function types. The first size that is met has the position `first`.
#[tactic(auto, using(crate::proofs::PrimitiveForms::types))]
fn sized_type<'a>(
    written: &Written,
    members: Scalars,
    letters: &'a Letters<'a>,
    first: u32,
    bump: &'a Bump,
) -> Result<&'a SizeTree<'a>, NoMemory>
    ensures { IfOk result (λ made. size_of made.now ≡ sized_type members.own members.from (letters_of letters.now) first (written_of written.now)) }
{
    match *written {
        Written::Variable(letter) => hole(bump, Variable::Inferred(letter.number())),
        Written::Scalar(of) => scalar(bump, of),
        Written::Own => scalar(bump, members.own),
        Written::From => scalar(bump, members.from),
        Written::Array(size, of) => {
            let dim = letter(letters, first, size)?;
            let next = next_of(first)?;
            let row = sized_type(of, members, letters, next, bump)?;
            level(bump, dim, row)
        }
        Written::Unique(of) => sized_type(of, members, letters, first, bump),
        Written::Pair(one, two) => {
            let one = sized_type(one, members, letters, first, bump)?;
            let next = past(one, first)?;
            let two = sized_type(two, members, letters, next, bump)?;
            pair(bump, one, two)
        }
        Written::Triple(one, two, three) => {
            let one = sized_type(one, members, letters, first, bump)?;
            let two = sized_type(two, members, letters, first, bump)?;
            let three = sized_type(three, members, letters, first, bump)?;
            triple(bump, one, two, three)
        }
        Written::Named(_, of) => sized_type(of, members, letters, first, bump),
        Written::Function(from, to) => {
            let bound = chosen(from, letters, bump)?;
            let count = narrow(bound.len())?;
            let around = inside(bound, letters, bump)?;
            let taken = sized_type(from, members, around, 0, bump)?;
            let named = with_argument(bound, from, bump)?;
            let behind = inside(named, letters, bump)?;
            let met = next_of(count)?;
            let given = sized_type(to, members, behind, met, bump)?;
            function(bump, count, taken, given)
        }
    }
}

/// The sized type of a primitive. A size that a parameter names is chosen by the caller at the first arrow in whose parameter it
/// stands, a named parameter is the value of its argument, and what the result leaves unknown is met at the last arrow.
pub fn primitive_size<'a>(
    primitive: Primitive,
    bump: &'a Bump,
) -> Result<&'a SizeTree<'a>, NoMemory>
    ensures { IfOk result (λ made. size_of made.now ≡ prim_size primitive) }
{
    let outside = match bump.try_alloc(Letters::Outside) {
        Ok(outside) => outside,
        Err(_) => return Err(NoMemory),
    };
    sized_type(
        line_of(primitive).written,
        scalars_of(primitive),
        outside,
        0,
        bump,
    )
}

/// Whether a primitive's function argument may give no array of a size that no name and no constant tells.
pub fn is_regular(primitive: Primitive) -> bool
    ensures { result ≡ is_regular primitive }
{
    match primitive {
        Primitive::Map
        | Primitive::Map2
        | Primitive::Map3
        | Primitive::Map4
        | Primitive::Map5
        | Primitive::Tabulate
        | Primitive::Scan
        | Primitive::Reduce
        | Primitive::ReduceComm
        | Primitive::ReduceByIndex => true,
        Primitive::Filter
        | Primitive::Partition
        | Primitive::Scatter
        | Primitive::Zip
        | Primitive::Zip3
        | Primitive::Unzip
        | Primitive::Unzip3
        | Primitive::Iota
        | Primitive::Replicate
        | Primitive::Indices
        | Primitive::Length
        | Primitive::Null
        | Primitive::Head
        | Primitive::Last
        | Primitive::Init
        | Primitive::Tail
        | Primitive::Take
        | Primitive::Drop
        | Primitive::Reverse
        | Primitive::Rotate
        | Primitive::Concat
        | Primitive::Flatten
        | Primitive::Unflatten
        | Primitive::Transpose
        | Primitive::Copy
        | Primitive::Convert { .. }
        | Primitive::Min(_)
        | Primitive::Max(_)
        | Primitive::Abs(_)
        | Primitive::Popc(_)
        | Primitive::Lowest(_)
        | Primitive::Highest(_)
        | Primitive::NumBits(_)
        | Primitive::Fold(_, _) => false,
    }
}
