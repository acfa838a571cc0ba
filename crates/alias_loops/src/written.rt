// Whether the parts of a written tuple or record are those of a value.
ghost use Rattle.std.specs.Prelude.{◌≡◌};
ghost use Rattle.alias_loops.specs.Written.{IsWritten, fields_in, is_tuple, record_in, record_of, row_in, texts_held, values_held};
ghost use Rattle.alias_values.specs.Trees.{value_of};

use alias_values::ValueTree;
use fut_flat::Act;
use fut_types::Head;

/// How the components of a value follow from the parts that it is written with.
#[derive(Clone, Copy)]
pub enum Written<'a, 'e> {
    /// A tuple, with the values of its parts.
    Tuple(&'a [ValueTree<'a>]),
    /// A record's fields as they are written, and its number.
    Record(&'e [&'e str], u32),
    Other,
}

fn is_tuple(act: &Act<'_>) -> bool
    ensures { result ≡ is_tuple act.now }
{
    match *act {
        Act::Tuple => true,
        _ => false,
    }
}

fn fields_in<'e>(act: &Act<'e>) -> Option<&'e [&'e str]>
    ensures { texts_held result ≡ fields_in act.now }
{
    match *act {
        Act::Record(fields) => Some(fields),
        _ => None,
    }
}

fn row_in<'a>(value: &'a ValueTree<'a>) -> Option<&'a [ValueTree<'a>]>
    ensures { values_held result ≡ row_in (value_of value.now) }
{
    match value {
        ValueTree::Parts(_, values) => Some(*values),
        ValueTree::Scalar => None,
        ValueTree::Array(_) => None,
        ValueTree::Function(_, _) => None,
    }
}

fn record_of(head: Head) -> Option<u32>
    ensures { result ≡ record_of head }
{
    match head {
        Head::Record(number) => Some(number),
        Head::Scalar(_) | Head::Array | Head::Tuple | Head::Fun => None,
        Head::Rigid(_, _) | Head::Abstract(_, _) => None,
    }
}

fn record_in(value: &ValueTree<'_>) -> Option<u32>
    ensures { result ≡ record_in (value_of value.now) }
{
    match value {
        ValueTree::Parts(head, _) => record_of(*head),
        ValueTree::Scalar => None,
        ValueTree::Array(_) => None,
        ValueTree::Function(_, _) => None,
    }
}

/// How a value's components follow from the parts of an operation.
pub fn written_as<'a, 'e>(act: &Act<'e>, value: &'a ValueTree<'a>) -> Written<'a, 'e>
    ensures { IsWritten act.now (value_of value.now) result }
{
    if is_tuple(act) {
        match row_in(value) {
            Some(values) => return Written::Tuple(values),
            None => return Written::Other,
        }
    }
    match fields_in(act) {
        Some(fields) => match record_in(value) {
            Some(number) => Written::Record(fields, number),
            None => Written::Other,
        },
        None => Written::Other,
    }
}
