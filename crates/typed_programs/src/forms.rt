// What the form of a node says of its type.
ghost use Rattle.std.specs.Prelude.{◌≡◌};
ghost use Rattle.typed_programs.specs.Forms.{array_form, function_form, integer_form, scalar_form, tuple_form};

use fut_scalar::{IntType, ScalarType};
use fut_types::{Head, Kind};
use type_graph::Form;

/// The integer type that is made like that, and i32 if none is. No graph that inference makes has what is answered by `None`.
pub(crate) fn integer_of(form: Form) -> Option<IntType>
    ensures { result ≡ integer_form form }
{
    match form {
        Form::Made(Head::Scalar(ScalarType::Int(integer)), _, count) => {
            if count == 0 { Some(integer) } else { None }
        }
        Form::Made(Head::Rigid(_, Kind::Integer), _, _) => None,
        _ => Some(IntType::I32),
    }
}

/// The scalar type that is made like that.
pub(crate) fn scalar_of(form: Form) -> Option<ScalarType>
    ensures { result ≡ scalar_form form }
{
    match form {
        Form::Made(Head::Scalar(scalar), _, count) => {
            if count == 0 { Some(scalar) } else { None }
        }
        _ => None,
    }
}

/// Of a function, the node of its parameter's type; behind it stands that of its result's.
pub(crate) fn function_of(form: Form) -> Option<u32>
    ensures { result ≡ function_form form }
{
    match form {
        Form::Made(Head::Fun, first, count) => { if count == 2 { Some(first) } else { None } }
        _ => None,
    }
}

/// Of an array, the node of its rows' type.
pub(crate) fn array_of(form: Form) -> Option<u32>
    ensures { result ≡ array_form form }
{
    match form {
        Form::Made(Head::Array, first, count) => { if count == 1 { Some(first) } else { None } }
        _ => None,
    }
}

/// Of a tuple, the first node of its parts, and how many there are.
pub(crate) fn tuple_of(form: Form) -> Option<(u32, u32)>
    ensures { result ≡ tuple_form form }
{
    match form {
        Form::Made(Head::Tuple, first, count) => Some((first, count)),
        _ => None,
    }
}
