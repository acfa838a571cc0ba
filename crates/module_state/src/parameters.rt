// Parameters of modules.
ghost use Rattle.std.specs.Prelude.{◌≡◌, IfErr, IfOk};
ghost use Rattle.fut_ast.specs.ModRows.{mod_at};
ghost use Rattle.fut_ast.specs.declared.module.ModForm.TheVariants as form;
ghost use Rattle.fut_tree.specs.ModTypes.{label_of, params_of};
ghost use Rattle.fut_tree.specs.Names.{maybe};
ghost use Rattle.elab_scopes.specs.declared.refusal.Stop.TheVariants as stop;
ghost use Rattle.module_state.specs.Steps.{with_parameters};

use bumpalo::Bump;
use elab_scopes::Stop;
use fut_scalar::Place;
use fut_tree::{ModExp, ModForm, ModType, Param};

/// What is behind a parameter: the module type of a body, and the body.
#[derive(Clone, Copy)]
struct Behind<'a> {
    seal: Option<&'a ModType<'a>>,
    body: &'a ModExp<'a>,
}

/// A parametric module.
fn parametric_at<'a>(
    at: Place,
    param: Param<'a>,
    behind: Behind<'a>,
    bump: &'a Bump,
) -> Result<&'a ModExp<'a>, Stop<'a>>
    ensures ok { IfOk result (λ m. m.now ≡ mod_at at (form.Lambda (label_of param.entry.label) param.entry.bound.now (maybe behind.entry.seal) behind.entry.body.now)) }
    ensures err { IfErr result (λ e. e ≡ stop.Memory) }
{
    match bump.try_alloc(ModExp {
        place: at,
        form: ModForm::Lambda(param.label, param.bound, behind.seal, behind.body),
    }) {
        Ok(made) => Ok(made),
        Err(_) => Err(Stop::Memory),
    }
}

/// The parameters of a module one after the other, the last with the module type of the body.
#[tactic(auto, using(crate::proofs::Currying::currying))]
pub fn curried<'a>(
    at: Place,
    params: &'a [Param<'a>],
    seal: Option<&'a ModType<'a>>,
    body: &'a ModExp<'a>,
    bump: &'a Bump,
) -> Result<&'a ModExp<'a>, Stop<'a>>
    ensures ok { IfOk result (λ m. m.now ≡ with_parameters at (params_of params.now) (maybe seal.entry) body.now) }
    ensures err { IfErr result (λ e. e ≡ stop.Memory) }
{
    let mut behind = Behind { seal, body };
    let mut left = params.len();
    while left > 0 {
        left -= 1;
        behind = match parametric_at(at, params[left], behind, bump) {
            Ok(made) => Behind {
                seal: None,
                body: made,
            },
            Err(stop) => return Err(stop),
        };
    }
    Ok(behind.body)
}
