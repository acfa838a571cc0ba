// Types of arrays' elements.
ghost use Rattle.std.specs.Prelude.{◌≡◌};
ghost use Rattle.fut_sizes.specs.Operations.{element_ty, is_i64};
ghost use Rattle.fut_types.specs.Types.{Made, Tys};
ghost use Rattle.fut_types.specs.declared.Head.TheVariants.{Scalar};
ghost use Rattle.size_arena.specs.Trees.{type_of};
ghost use Rattle.size_operations.specs.Elements.{element, type_held};

use fut_scalar::{IntType, ScalarType};
use fut_types::Head;
use size_arena::TypeTree;

/// The type of an array's elements, if a type is one of arrays.
#[tactic(auto, using(crate::proofs::ElementForms::elements))]
pub(crate) fn element<'a>(ty: &TypeTree<'a>) -> Option<&'a TypeTree<'a>>
    ensures { type_held result ≡ element (type_of ty.now) }
{
    match ty {
        TypeTree::Var(_) => None,
        TypeTree::Made { head, parts, .. } => match head {
            Head::Array => {
                if parts.len() == 1 {
                    Some(&parts[0])
                } else {
                    None
                }
            }
            _ => None,
        },
    }
}

/// The type of an array's elements; of what is no array, its own.
#[tactic(auto, using(crate::proofs::ElementForms::element_types))]
pub(crate) fn element_or_own<'a>(ty: &'a TypeTree<'a>) -> &'a TypeTree<'a>
    ensures { type_of result.now ≡ element_ty (type_of ty.now) }
{
    if let Some(one) = element(ty) {
        return one;
    }
    ty
}

/// Whether the scalar types that are built so are `i64`.
fn is_i64_scalar(scalar: ScalarType) -> bool
    ensures { (ts : Tys) → result ≡ is_i64 (Made (Scalar scalar) ts) }
{
    match scalar {
        ScalarType::Int(int) => match int {
            IntType::I64 => true,
            IntType::I8 => false,
            IntType::I16 => false,
            IntType::I32 => false,
            IntType::U8 => false,
            IntType::U16 => false,
            IntType::U32 => false,
            IntType::U64 => false,
        },
        ScalarType::Bool => false,
    }
}

/// Whether a type is `i64`.
#[tactic(auto, using(crate::proofs::ElementForms::integers))]
pub(crate) fn is_i64(ty: &TypeTree<'_>) -> bool
    ensures { result ≡ is_i64 (type_of ty.now) }
{
    match ty {
        TypeTree::Var(_) => false,
        TypeTree::Made { head, .. } => match head {
            Head::Scalar(scalar) => is_i64_scalar(*scalar),
            _ => false,
        },
    }
}
