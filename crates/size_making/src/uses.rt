// A use of a general name: each variable of its type is open, of the type that stands there in the use's type.
ghost use Rattle.std.specs.Prelude.{◌≡◌, IfOk, true, length, []};
ghost use Rattle.fut_sizes.specs.Scopes.{instance, instances, type_in, type_of as type_where, used};
ghost use Rattle.sized_types.specs.Sizes.{variable_ty};
ghost use Rattle.size_arena.specs.Trees.{size_of, sizes_of, type_of, tys_of, variable_of};
ghost use Rattle.size_making.specs.Uses.{chooses, element_in, found_type, is_function_of};

use crate::variables::same_variable;
use bumpalo::Bump;
use bumpalo::collections::into_bump_slice;
use fut_scalar::NoMemory;
use fut_types::Head;
use size_arena::{SizeTree, TypeTree, Variable, built, function, level, open};

/// The element of an array.
#[tactic(auto, using(crate::proofs::UseForms::elements))]
fn element<'a>(head: Head, parts: &'a [TypeTree<'a>]) -> Option<&'a TypeTree<'a>>
    ensures { found_type result ≡ element_in head (tys_of parts.now) }
{
    match head {
        Head::Array => {
            if parts.len() == 1 {
                Some(&parts[0])
            } else {
                None
            }
        }
        _ => None,
    }
}

/// Whether a type is a function from one type to another.
#[tactic(auto, using(crate::proofs::UseForms::functions))]
fn is_function(head: Head, parts: &[TypeTree<'_>]) -> bool
    ensures is { result ≡ is_function_of head (tys_of parts.now) }
    ensures two { result ≡ true → length parts.now ≡ 2 }
{
    match head {
        Head::Fun => parts.len() == 2,
        _ => false,
    }
}

/// The type that stands in one type where a variable stands in another.
#[cycle(there)]
#[tactic(auto, using(crate::proofs::UseForms::stands))]
fn type_there<'a>(
    tree: &SizeTree<'_>,
    variable: Variable,
    ty: &'a TypeTree<'a>,
) -> Option<&'a TypeTree<'a>>
    ensures { found_type result ≡ type_where (variable_of variable) (size_of tree.now) (type_of ty.now) }
{
    match tree {
        SizeTree::Hole(other) => {
            if same_variable(variable, *other) {
                Some(ty)
            } else {
                None
            }
        }
        SizeTree::Open { .. } => None,
        SizeTree::Level { row, .. } => match ty {
            TypeTree::Var(_) => None,
            TypeTree::Made { head, parts, .. } => match element(*head, parts) {
                Some(under) => type_there(row, variable, under),
                None => None,
            },
        },
        SizeTree::Built { parts, .. } => match ty {
            TypeTree::Var(_) => None,
            TypeTree::Made { parts: types, .. } => type_in(parts, variable, types),
        },
        SizeTree::Fun { from, to, .. } => match ty {
            TypeTree::Var(_) => None,
            TypeTree::Made { head, parts, .. } => {
                if !is_function(*head, parts) {
                    return None;
                }
                match type_there(from, variable, &parts[0]) {
                    Some(found) => Some(found),
                    None => type_there(to, variable, &parts[1]),
                }
            }
        },
    }
}

#[cycle(there)]
#[tactic(auto, using(crate::proofs::UseForms::all_stand))]
fn type_in<'a>(
    parts: &[SizeTree<'_>],
    variable: Variable,
    types: &'a [TypeTree<'a>],
) -> Option<&'a TypeTree<'a>>
    ensures { found_type result ≡ type_in (variable_of variable) (sizes_of parts.now) (tys_of types.now) }
{
    for i in 0..parts.len() {
        if i >= types.len() {
            return None;
        }
        if let Some(found) = type_there(&parts[i], variable, &types[i]) {
            return Some(found);
        }
    }
    None
}

fn type_made<'a>(bump: &'a Bump, tree: TypeTree<'a>) -> Result<&'a TypeTree<'a>, NoMemory>
    ensures { IfOk result (λ made. made.now ≡ tree.entry) }
{
    match bump.try_alloc(tree) {
        Ok(made) => Ok(made),
        Err(_) => Err(NoMemory),
    }
}

fn no_types<'a>(bump: &'a Bump) -> &'a [TypeTree<'a>]
    ensures { result.now ≡ [] }
{
    into_bump_slice(Vec::new(bump))
}

/// A variable by itself, as a type.
#[tactic(auto, using(crate::proofs::UseForms::by_itself))]
fn alone<'a>(bump: &'a Bump, variable: Variable) -> Result<&'a TypeTree<'a>, NoMemory>
    ensures { IfOk result (λ made. type_of made.now ≡ variable_ty (variable_of variable)) }
{
    match variable {
        Variable::Inferred(number) => type_made(bump, TypeTree::Var(number)),
        Variable::Written(name, kind) => type_made(
            bump,
            TypeTree::Made {
                height: 0,
                head: Head::Rigid(name, kind),
                parts: no_types(bump),
            },
        ),
    }
}

/// What the use at a node of a general type makes of a part of it, where the use has this type.
#[cycle(instance)]
#[tactic(auto, using(crate::proofs::UseForms::instances_of))]
fn instance<'a>(
    tree: &'a SizeTree<'a>,
    node: u32,
    whole: &'a SizeTree<'a>,
    ty: &'a TypeTree<'a>,
    bump: &'a Bump,
) -> Result<&'a SizeTree<'a>, NoMemory>
    ensures { IfOk result (λ made. size_of made.now ≡ instance node (chooses (size_of whole.now) (type_of ty.now)) (size_of tree.now)) }
{
    match tree {
        SizeTree::Hole(variable) => match type_there(whole, *variable, ty) {
            Some(found) => open(bump, node, *variable, found),
            None => {
                let own = alone(bump, *variable)?;
                open(bump, node, *variable, own)
            }
        },
        SizeTree::Open { .. } => Ok(tree),
        SizeTree::Level { size, row, .. } => {
            let under = instance(row, node, whole, ty, bump)?;
            level(bump, *size, under)
        }
        SizeTree::Built { head, parts, .. } => {
            let made = instances(parts, node, whole, ty, bump)?;
            built(bump, *head, made)
        }
        SizeTree::Fun {
            chosen,
            from,
            to,
            ..
        } => {
            let taken = instance(from, node, whole, ty, bump)?;
            let given = instance(to, node, whole, ty, bump)?;
            function(bump, *chosen, taken, given)
        }
    }
}

#[cycle(instance)]
#[tactic(auto, using(crate::proofs::UseForms::all_instances))]
fn instances<'a>(
    parts: &'a [SizeTree<'a>],
    node: u32,
    whole: &'a SizeTree<'a>,
    ty: &'a TypeTree<'a>,
    bump: &'a Bump,
) -> Result<&'a [SizeTree<'a>], NoMemory>
    ensures { IfOk result (λ made. sizes_of made.now ≡ instances node (chooses (size_of whole.now) (type_of ty.now)) (sizes_of parts.now)) }
{
    let mut made = Vec::new(bump);
    for part in parts {
        let after = instance(part, node, whole, ty, bump)?;
        made.push(*after)?;
    }
    Ok(into_bump_slice(made))
}

/// The use at a node of a general name with this sized type, where the use has this type.
#[tactic(auto, unfolding(fut_sizes::specs::Scopes::used))]
pub fn used<'a>(
    node: u32,
    ty: &'a TypeTree<'a>,
    tree: &'a SizeTree<'a>,
    bump: &'a Bump,
) -> Result<&'a SizeTree<'a>, NoMemory>
    ensures { IfOk result (λ made. size_of made.now ≡ used node (type_of ty.now) (size_of tree.now)) }
{
    instance(tree, node, tree, ty, bump)
}
