// Uses and numbers as text.
use crate::line::Shown;
use crate::texts::{int_text, scalar_text};
use fut_flat::{Primitive, Ref};
use fut_primitives::line_of;
use fut_scalar::{BindId, ScalarType};

/// A number, behind the name that it stands for.
pub fn show_bind(bind: BindId, names: &[&str], shown: &mut Shown) {
    let name = match names.get(bind.0 as usize) {
        Some(name) => name.trim_start(),
        None => "?",
    };
    shown.push(name);
    shown.push("#");
    shown.number(u64::from(bind.0));
}

fn show_primitive(prim: Primitive, shown: &mut Shown) {
    match prim {
        Primitive::Convert {
            to: ScalarType::Bool,
            ..
        } => shown.push("bool."),
        Primitive::Convert {
            to: ScalarType::Int(ty),
            ..
        }
        | Primitive::Min(ty)
        | Primitive::Max(ty)
        | Primitive::Abs(ty)
        | Primitive::Popc(ty)
        | Primitive::Lowest(ty)
        | Primitive::Highest(ty)
        | Primitive::NumBits(ty)
        | Primitive::Fold(_, ty) => shown.named(int_text(ty), "."),
        _ => {}
    }
    shown.push(line_of(prim).name);
}

/// A use of a name.
pub fn show_ref(of: &Ref, names: &[&str], shown: &mut Shown) {
    match *of {
        Ref::Bound(bind) => show_bind(bind, names, shown),
        Ref::Prim(prim) => show_primitive(prim, shown),
        Ref::Scalar(ty) => shown.push(scalar_text(ty)),
    }
}
