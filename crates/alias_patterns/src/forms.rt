// The outermost forms of types, stars and values.
ghost use Rattle.std.specs.Prelude.{◌≡◌};
ghost use Rattle.alias_values.specs.Trees.{stars_of, type_of, value_of};
ghost use Rattle.alias_patterns.specs.Heads.{Function_types, Record_types, Row_parts, Tuple_types, is_fun, is_record, is_tuple};

use alias_values::{StarTree, TypeTree, ValueTree};
use fut_types::Head;

/// The type of a record.
#[derive(Clone, Copy)]
pub struct RecordType<'a> {
    pub head: Head,
    pub types: &'a [TypeTree<'a>],
}

/// Stars and values of parts, one by one.
#[derive(Clone, Copy)]
pub struct RowParts<'a> {
    pub row: &'a [StarTree<'a>],
    pub head: Head,
    pub values: &'a [ValueTree<'a>],
}

fn is_tuple(head: Head) -> bool
    ensures { result ≡ is_tuple head }
{
    match head {
        Head::Tuple => true,
        Head::Scalar(_) | Head::Array | Head::Record(_) | Head::Fun => false,
        Head::Rigid(_, _) | Head::Abstract(_, _) => false,
    }
}

fn is_record(head: Head) -> bool
    ensures { result ≡ is_record head }
{
    match head {
        Head::Record(_) => true,
        Head::Scalar(_) | Head::Array | Head::Tuple | Head::Fun => false,
        Head::Rigid(_, _) | Head::Abstract(_, _) => false,
    }
}

fn is_fun(head: Head) -> bool
    ensures { result ≡ is_fun head }
{
    match head {
        Head::Fun => true,
        Head::Scalar(_) | Head::Array | Head::Tuple | Head::Record(_) => false,
        Head::Rigid(_, _) | Head::Abstract(_, _) => false,
    }
}

/// The parameter and the result of a function's type.
pub(crate) fn function_types<'a>(ty: &TypeTree<'a>) -> Option<&'a [TypeTree<'a>]>
    ensures { Function_types (type_of ty.now) result }
{
    match ty {
        TypeTree::Made(head, types) => {
            if !is_fun(*head) {
                return None;
            }
            if types.len() != 2 {
                return None;
            }
            Some(*types)
        }
        TypeTree::Var(_) => None,
    }
}

/// The types of a tuple's parts.
pub(crate) fn tuple_types<'a>(ty: &TypeTree<'a>) -> Option<&'a [TypeTree<'a>]>
    ensures { Tuple_types (type_of ty.now) result }
{
    match ty {
        TypeTree::Made(head, types) => {
            if !is_tuple(*head) {
                return None;
            }
            Some(*types)
        }
        TypeTree::Var(_) => None,
    }
}

/// A record's type.
pub(crate) fn record_types<'a>(ty: &TypeTree<'a>) -> Option<RecordType<'a>>
    ensures { Record_types (type_of ty.now) result }
{
    match ty {
        TypeTree::Made(head, types) => {
            if !is_record(*head) {
                return None;
            }
            Some(RecordType { head: *head, types })
        }
        TypeTree::Var(_) => None,
    }
}

/// The parts of stars and of a value, where both have parts.
pub(crate) fn row_parts<'a>(stars: &StarTree<'a>, value: &ValueTree<'a>) -> Option<RowParts<'a>>
    ensures { Row_parts (stars_of stars.now) (value_of value.now) result }
{
    match stars {
        StarTree::Row(row) => match value {
            ValueTree::Parts(head, values) => Some(RowParts {
                row,
                head: *head,
                values,
            }),
            ValueTree::Scalar => None,
            ValueTree::Array(_) => None,
            ValueTree::Function(_, _) => None,
        },
        StarTree::Leaf(_) => None,
        StarTree::Arrow(_, _, _) => None,
    }
}
