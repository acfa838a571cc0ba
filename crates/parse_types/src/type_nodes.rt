// The nodes of types.
ghost use Rattle.std.specs.Prelude.{◌≤◌, ◌<◌, ◌+◌, ℕ, List, IfOk, Ok};
ghost use Rattle.fut_ast.specs.Nodes.{round_type_of, type_at};
ghost use Rattle.fut_ast.specs.Sorts.{SourceType, Tree, Type_field, Whole_type};
ghost use Rattle.fut_ast.specs.declared.ty.TypeArg.TheVariants as type_arg;
ghost use Rattle.fut_ast.specs.declared.ty.TypeForm.TheVariants as type_form;
ghost use Rattle.fut_grammar.specs.Reading.{Gives, Read};
ghost use Rattle.parse_types.specs.Found.{found_as, list_found, tree_found};
ghost use Rattle.parse_types.specs.Made.{node_of, read_as};
ghost use Rattle.fut_tree.specs.Types.{arg_of, type_fields};

use crate::found::Found;
use crate::types::TypeAnswer;
use bumpalo::Bump;
use fut_grammar::Stop;
use fut_scalar::Place;
use fut_token::Token;
use fut_tree::{Held, TypeArg, TypeExp, TypeField, TypeForm};

/// This type was read, and the arena holds it.
pub fn made<'a>(bump: &'a Bump, ty: TypeExp<'a>, height: u32, rest: &'a [Token]) -> TypeAnswer<'a>
    ensures { Gives tree_found result (Ok (ty.entry, height, rest.now)) }
{
    match bump.try_alloc(ty) {
        Ok(tree) => Ok(Found { tree, height, rest }),
        Err(_) => Err(Stop::Memory),
    }
}

/// A type that is unique, if the type was read.
pub fn unique<'a>(bump: &'a Bump, place: Place, ty: TypeAnswer<'a>) -> TypeAnswer<'a>
    requires { IfOk ty (λ x. x.height < 1000) }
    ensures exact { (m : Read SourceType) → Gives tree_found ty.entry m → Gives tree_found result (node_of (λ t. type_at place (type_form.Unique t)) m) }
    ensures low { (k : ℕ) → IfOk ty.entry (λ x. x.height ≤ k) → IfOk result (λ x. x.height ≤ k + 1) }
{
    match ty {
        Ok(found) => {
            let form = TypeForm::Unique(found.tree);
            made(bump, TypeExp { place, form }, found.height + 1, found.rest)
        }
        Err(stop) => Err(stop),
    }
}

/// Types in parentheses, if they were read: one alone is that type.
pub fn round<'a>(
    bump: &'a Bump,
    place: Place,
    types: Result<Found<'a, &'a [Held<'a, TypeExp<'a>>]>, Stop>,
) -> TypeAnswer<'a>
    requires { IfOk types (λ x. x.height < 1000) }
    ensures exact { (m : Read (List (Tree Whole_type))) → Gives list_found types.entry m → Gives tree_found result (node_of (round_type_of place) m) }
    ensures low { (k : ℕ) → IfOk types.entry (λ x. x.height ≤ k) → IfOk result (λ x. x.height ≤ k + 1) }
{
    let found = match types {
        Ok(found) => found,
        Err(stop) => return Err(stop),
    };
    let form = match found.tree {
        [] => TypeForm::Unit,
        [only] => {
            return Ok(Found {
                tree: only.at,
                height: found.height + 1,
                rest: found.rest,
            });
        }
        [_, _, ..] => TypeForm::Tuple(found.tree),
    };
    made(bump, TypeExp { place, form }, found.height + 1, found.rest)
}

/// Fields in braces, if they were read.
pub fn fields<'a>(
    bump: &'a Bump,
    place: Place,
    fields: Result<Found<'a, &'a [TypeField<'a>]>, Stop>,
) -> TypeAnswer<'a>
    requires { IfOk fields (λ x. x.height < 1000) }
    ensures exact { (m : Read (List (Tree Type_field))) → Gives (found_as (λ t. type_fields t.now)) fields.entry m → Gives tree_found result (node_of (λ fs. type_at place (type_form.Record fs)) m) }
    ensures low { (k : ℕ) → IfOk fields.entry (λ x. x.height ≤ k) → IfOk result (λ x. x.height ≤ k + 1) }
{
    match fields {
        Ok(found) => {
            let form = TypeForm::Record(found.tree);
            made(bump, TypeExp { place, form }, found.height + 1, found.rest)
        }
        Err(stop) => Err(stop),
    }
}

/// A type as an argument of another, if it was read.
pub fn argument<'a>(ty: TypeAnswer<'a>) -> Result<Found<'a, TypeArg<'a>>, Stop>
    ensures exact { (m : Read SourceType) → Gives tree_found ty.entry m → Gives (found_as arg_of) result (read_as type_arg.Of m) }
    ensures low { (k : ℕ) → IfOk ty.entry (λ x. x.height ≤ k) → IfOk result (λ x. x.height ≤ k) }
{
    match ty {
        Ok(Found { tree, height, rest }) => Ok(Found {
            tree: TypeArg::Of(tree),
            height,
            rest,
        }),
        Err(stop) => Err(stop),
    }
}
