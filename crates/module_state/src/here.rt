// Where a part stands, and what it sees.
ghost use Rattle.std.specs.Prelude.{◌≡◌, IfErr, IfOk};
ghost use Rattle.elab_scopes.specs.Declarations.{bare, in_body, seeing, within};
ghost use Rattle.elab_scopes.specs.Held.{module_ref_of};
ghost use Rattle.elab_scopes.specs.declared.refusal.Stop.TheVariants as stop;
ghost use Rattle.module_state.specs.Standing.{functor_of, here_of};

use crate::blocks::more_members;
use crate::state::{Functor, Here};
use bumpalo::Bump;
use elab_scopes::{Member, Members, ModuleRef, Stop};

/// The same with other names in scope.
pub fn sees<'a>(names: &'a Members<'a>, here: Here<'a>) -> Here<'a>
    ensures { here_of result ≡ seeing names.now (here_of here.entry) }
{
    Here {
        file: here.file,
        live: here.live,
        names,
    }
}

/// The same where names alone are looked at.
pub fn looking<'a>(here: Here<'a>) -> Here<'a>
    ensures { here_of result ≡ bare (here_of here.entry) }
{
    Here {
        file: here.file,
        live: false,
        names: here.names,
    }
}

/// The body of a parametric module, which sees its parameter.
pub fn in_body<'a>(
    name: &'a str,
    parameter: ModuleRef,
    names: &'a Members<'a>,
    here: Here<'a>,
    bump: &'a Bump,
) -> Result<Here<'a>, Stop<'a>>
    ensures ok { IfOk result (λ h. here_of h ≡ in_body (here_of here.entry) name.now (module_ref_of parameter) names.now) }
    ensures err { IfErr result (λ e. e ≡ stop.Memory) }
{
    match more_members(Member::Module(name, parameter), names, bump) {
        Ok(names) => Ok(sees(names, here)),
        Err(stop) => Err(stop),
    }
}

/// The parts of a parametric module stand where it was declared, and see its parameter.
pub fn within<'a>(
    here: Here<'a>,
    functor: Functor<'a>,
    parameter: ModuleRef,
    bump: &'a Bump,
) -> Result<Here<'a>, Stop<'a>>
    ensures ok { IfOk result (λ h. here_of h ≡ within (here_of here.entry) (functor_of functor.entry) (module_ref_of parameter)) }
    ensures err { IfErr result (λ e. e ≡ stop.Memory) }
{
    match more_members(
        Member::Module(functor.parameter, parameter),
        functor.names,
        bump,
    ) {
        Ok(names) => Ok(Here {
            file: functor.file,
            live: here.live,
            names,
        }),
        Err(stop) => Err(stop),
    }
}
