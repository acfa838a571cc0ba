// The sizes that data of a sized type has to have.
ghost use Rattle.std.specs.Prelude.{◌≡◌, IfOk, map};
ghost use Rattle.fut_blocks.specs.Rows as blocks;
ghost use Rattle.fut_blocks.specs.Rows.{extent_of, named_test_of, test_of, tests};
ghost use Rattle.fut_flat.specs.Erased.{texts};
ghost use Rattle.fut_meaning.specs.Found.{Sizing};
ghost use Rattle.size_arena.specs.Trees.{dim_of, size_of, sizes_of};
ghost use Rattle.told_rows.specs.Tables.{Tells};
ghost use Rattle.unfold.specs.Held.{entered_of};
ghost use Rattle.unfold.specs.Telling.{found, named_tests, number, size_test, size_tests};

use crate::findings::{Findings, number_in};
use crate::tables::{Sizes, fields_of};
use bumpalo::Bump;
use bumpalo::collections::into_bump_slice;
use fut_blocks::{Extent, FieldTest, SizeTest};
use fut_scalar::NoMemory;
use fut_types::Head;
use size_arena::{Dim, SizeTree};
use unfold::Entered;

fn made_test<'a>(bump: &'a Bump, wanted: SizeTest<'a>) -> Result<&'a SizeTest<'a>, NoMemory>
    ensures { IfOk result (λ made. made.now ≡ wanted.entry) }
{
    match bump.try_alloc(wanted) {
        Ok(made) => Ok(made),
        Err(_) => Err(NoMemory),
    }
}

/// What a size is worth by what was entered.
pub fn number_found<'a>(
    dim: Dim,
    entered: &'a Entered<'a>,
    sizes: &Sizes<'a>,
    bump: &'a Bump,
) -> Result<Extent<'a>, NoMemory>
    ensures { (Z : Sizing) → Tells sizes.now Z → IfOk result (λ many. extent_of many ≡ number (found Z (entered_of entered.now)) (dim_of dim)) }
{
    let findings = Findings {
        entered,
        given: &[],
        frames: &[],
    };
    number_in(dim, &findings, sizes, bump)
}

/// The sizes that data of a sized type has to have.
#[cycle(wanted)]
pub fn size_test<'a>(
    tree: &SizeTree<'a>,
    entered: &'a Entered<'a>,
    sizes: &Sizes<'a>,
    bump: &'a Bump,
) -> Result<&'a SizeTest<'a>, NoMemory>
    ensures { (Z : Sizing) → Tells sizes.now Z → IfOk result (λ made. test_of made.now ≡ size_test Z.fields (found Z (entered_of entered.now)) (size_of tree.now)) }
{
    match tree {
        SizeTree::Hole(_) => made_test(bump, SizeTest::Any),
        SizeTree::Open { .. } => made_test(bump, SizeTest::Any),
        SizeTree::Level { size, row, .. } => {
            let many = number_found(*size, entered, sizes, bump)?;
            let under = size_test(row, entered, sizes, bump)?;
            made_test(bump, SizeTest::Array(many, under))
        }
        SizeTree::Built { head, parts, .. } => match head {
            Head::Tuple => {
                let wanted = size_tests(parts, entered, sizes, bump)?;
                made_test(bump, SizeTest::Tuple(wanted))
            }
            Head::Record(number) => {
                let names = fields_of(sizes, *number)?;
                let wanted = field_tests(parts, names, entered, sizes, bump)?;
                made_test(bump, SizeTest::Record(wanted))
            }
            Head::Scalar(_) => made_test(bump, SizeTest::Any),
            Head::Array => made_test(bump, SizeTest::Any),
            Head::Fun => made_test(bump, SizeTest::Any),
            Head::Rigid(_, _) => made_test(bump, SizeTest::Any),
            Head::Abstract(_, _) => made_test(bump, SizeTest::Any),
        },
        SizeTree::Fun { .. } => made_test(bump, SizeTest::Any),
    }
}

#[cycle(wanted)]
fn size_tests<'a>(
    parts: &[SizeTree<'a>],
    entered: &'a Entered<'a>,
    sizes: &Sizes<'a>,
    bump: &'a Bump,
) -> Result<&'a [SizeTest<'a>], NoMemory>
    ensures { (Z : Sizing) → Tells sizes.now Z → IfOk result (λ made. tests (map test_of made.now) ≡ size_tests Z.fields (found Z (entered_of entered.now)) (sizes_of parts.now)) }
{
    let mut made = Vec::new(bump);
    for part in parts {
        let wanted = size_test(part, entered, sizes, bump)?;
        made.push(*wanted)?;
    }
    Ok(into_bump_slice(made))
}

#[cycle(wanted)]
fn field_tests<'a>(
    parts: &[SizeTree<'a>],
    names: &'a [&'a str],
    entered: &'a Entered<'a>,
    sizes: &Sizes<'a>,
    bump: &'a Bump,
) -> Result<&'a [FieldTest<'a>], NoMemory>
    ensures { (Z : Sizing) → Tells sizes.now Z → IfOk result (λ made. blocks.named_tests (map named_test_of made.now) ≡ named_tests Z.fields (found Z (entered_of entered.now)) (texts names.now) (sizes_of parts.now)) }
{
    // A record has as many names as parts.
    if names.len() != parts.len() {
        return Err(NoMemory);
    }
    let mut made = Vec::new(bump);
    for i in 0..parts.len() {
        let wanted = size_test(&parts[i], entered, sizes, bump)?;
        made.push(FieldTest {
            name: names[i],
            test: *wanted,
        })?;
    }
    Ok(into_bump_slice(made))
}
