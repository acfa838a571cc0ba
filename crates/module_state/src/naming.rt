// How a module or a module type is called that is refused.
ghost use Rattle.std.specs.Prelude.{◌≡◌, IfErr, IfOk};
ghost use Rattle.fut_tree.specs.Names.{names};
ghost use Rattle.elab_scopes.specs.Declarations.{joined};
ghost use Rattle.elab_scopes.specs.declared.refusal.Stop.TheVariants as stop;
ghost use Rattle.module_state.specs.Steps.{called_of, type_called_of};

use bumpalo::Bump;
use elab_scopes::Stop;
use fut_tree::{ModExp, ModForm, ModType, ModTypeForm};

/// The text of a path: its names with dots between them.
#[tactic(auto, using(crate::proofs::Namings::texts))]
fn joined<'a>(first: &'a str, rest: &'a [&'a str], bump: &'a Bump) -> Result<&'a str, Stop<'a>>
    ensures ok { IfOk result (λ text. text.now ≡ joined first.now (names rest.now)) }
    ensures err { IfErr result (λ e. e ≡ stop.Memory) }
{
    let mut text = match String::from_str(bump, first) {
        Ok(text) => text,
        Err(_) => return Err(Stop::Memory),
    };
    for next in rest {
        match text.push_str(".") {
            Ok(()) => (),
            Err(_) => return Err(Stop::Memory),
        }
        match text.push_str(*next) {
            Ok(()) => (),
            Err(_) => return Err(Stop::Memory),
        }
    }
    match bump.try_alloc_str(text.as_str()) {
        Ok(text) => Ok(text),
        Err(_) => Err(Stop::Memory),
    }
}

/// How a module is called that is refused: by its path, or else as a module.
pub fn called<'a>(exp: &'a ModExp<'a>, bump: &'a Bump) -> Result<&'a str, Stop<'a>>
    ensures ok { IfOk result (λ text. text.now ≡ called_of exp.now) }
    ensures err { IfErr result (λ e. e ≡ stop.Memory) }
{
    match exp.form {
        ModForm::Path(path) => match path {
            [] => Ok("module"),
            [first, rest @ ..] => joined(*first, rest, bump),
        },
        ModForm::Decs(_) => Ok("module"),
        ModForm::Apply(_, _) => Ok("module"),
        ModForm::Import(_) => Ok("module"),
        ModForm::Lambda(_, _, _, _) => Ok("module"),
        ModForm::Seal(_, _) => Ok("module"),
    }
}

/// How a module type is called that is refused: by its path, or else as a module type.
pub fn type_called<'a>(ty: &'a ModType<'a>, bump: &'a Bump) -> Result<&'a str, Stop<'a>>
    ensures ok { IfOk result (λ text. text.now ≡ type_called_of ty.now) }
    ensures err { IfErr result (λ e. e ≡ stop.Memory) }
{
    match ty.form {
        ModTypeForm::Path(path) => match path {
            [] => Ok("module type"),
            [first, rest @ ..] => joined(*first, rest, bump),
        },
        ModTypeForm::Specs(_) => Ok("module type"),
        ModTypeForm::With(_, _) => Ok("module type"),
        ModTypeForm::Arrow(_, _, _) => Ok("module type"),
    }
}
