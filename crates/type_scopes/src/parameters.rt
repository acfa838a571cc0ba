// The parameters of a definition.
ghost use Rattle.std.specs.Prelude.{◌≡◌, [], ◌∷◌, ◌++◌, OnOk, IfErr};
ghost use Rattle.fut_flat.specs.Erased.{parameter_form, parameters};
ghost use Rattle.fut_typing.specs.Generalised.{parameter_kind};
ghost use Rattle.type_graph.specs.Graph.{Tells};
ghost use Rattle.type_schemes.specs.Uses.{type_numbers};
ghost use Rattle.type_scopes.specs.Scopes.{Safe};
ghost use Rattle.type_scopes.specs.Parameters.{Meets_all, Meets_one, Met_type};

use crate::{Inference, Known, Seat, enter, note_seat};
use fut_flat::{Head, HeadForm};
use fut_scalar::List;
use fut_types::Kind;
use type_graph::{UnifyErr, push_parameter};

// The types that a type parameter stands for.
fn kind_of(places: Kind, lifted: bool) -> Kind
    ensures { result ≡ parameter_kind places lifted }
{
    if lifted { Kind::Any } else { places }
}

// Gives a type parameter its node, and lets its name stand for it.
fn enter_type(
    base: u32,
    parameter: u32,
    kind: Kind,
    depth: u32,
    inference: &mut Inference,
) -> Result<(), UnifyErr>
    requires safe { Safe base inference.old }
    ensures ok { OnOk result (Met_type base depth parameter kind inference.old inference.new) }
    ensures err { IfErr result (Tells ⊥) }
{
    let node = match push_parameter(
        &inference.table,
        base,
        &mut inference.nodes,
        &inference.entries,
        parameter,
        kind,
        depth,
    ) {
        Ok(node) => node,
        Err(error) => return Err(error),
    };
    match note_seat(inference, parameter, Seat { node, depth }) {
        Ok(()) => {}
        Err(error) => return Err(error),
    }
    enter(inference, parameter, Known::Type(node))
}

// Lets the name of a parameter stand for a size, or for a type of its own.
fn enter_parameter(
    base: u32,
    head: &Head,
    places: Kind,
    depth: u32,
    own: &mut List<u32>,
    inference: &mut Inference,
) -> Result<(), UnifyErr>
    requires safe { Safe base inference.old }
    ensures own { OnOk result (own.new ≡ own.old ++ type_numbers (parameter_form head.now.form ∷ [])) }
    ensures ok { OnOk result (Meets_one places base depth (parameter_form head.now.form) inference.old inference.new) }
    ensures err { IfErr result (Tells ⊥) }
{
    match head.form {
        HeadForm::Size(bind) => enter(inference, bind.0, Known::Size),
        HeadForm::Var { bind, lifted } => {
            match own.push(bind.0) {
                Ok(()) => {}
                Err(_) => return Err(UnifyErr::Memory),
            }
            enter_type(base, bind.0, kind_of(places, lifted), depth, inference)
        }
    }
}

/// Lets the names of a definition's parameters stand for sizes and types. The numbers of its type parameters are noted.
///
/// `depth` is the definition's own. `Err`: memory ran out, or a name is not known, or was met before.
pub fn enter_parameters(
    base: u32,
    heads: &[Head],
    places: Kind,
    depth: u32,
    own: &mut List<u32>,
    inference: &mut Inference,
) -> Result<(), UnifyErr>
    requires safe { Safe base inference.old }
    ensures own { OnOk result (own.new ≡ own.old ++ type_numbers (parameters heads.now)) }
    ensures ok { OnOk result (Meets_all places base depth (parameters heads.now) inference.old inference.new) }
    ensures safe { OnOk result (Safe base inference.new) }
    ensures err { IfErr result (Tells ⊥) }
{
    for head in heads {
        match enter_parameter(base, head, places, depth, own, inference) {
            Ok(()) => {}
            Err(error) => return Err(error),
        }
    }
    Ok(())
}
