// The walk over declarations, module expressions and module types. Modules are looked at up to a depth in one another, whose end
// is answered as want of memory: so much stack is there, and so the walk ends, for the body of a parametric module is no part
// of what applies it.
ghost use Rattle.std.specs.Prelude.{◌≡◌, map};
ghost use Rattle.elab_scopes.specs.Declarations.{applied_to, arrow_met, block_of as block_module, counted, dec_with, decs_with, file_declared, function_met, given_by, import_of, looked_at, mod_with, module_met, module_spec, module_with, refined_met, sealed_by, sig_with, walks};
ghost use Rattle.elab_scopes.specs.Imports.{imported_file};
ghost use Rattle.fut_ast.specs.declared.module.DecForm.{out-DecForm};
ghost use Rattle.fut_ast.specs.declared.module.ModExp.{out-ModExp};
ghost use Rattle.fut_ast.specs.declared.module.ModForm.{out-ModForm};
ghost use Rattle.fut_ast.specs.declared.module.ModType.{out-ModType};
ghost use Rattle.fut_ast.specs.declared.module.ModTypeForm.{out-ModTypeForm};
ghost use Rattle.fut_ast.specs.declared.module.SpecForm.{out-SpecForm};
ghost use Rattle.fut_tree.specs.Mods.{dec_form_of, decs_of};
ghost use Rattle.fut_tree.specs.ModTypes.{label_of, params_of, spec_form_of, specs_of, withs_of};
ghost use Rattle.fut_tree.specs.Names.{all, maybe, names};
ghost use Rattle.elab_scopes.specs.Held.{module_ref_of};
ghost use Rattle.elab_scopes.specs.Modules.{contents_of};
ghost use Rattle.module_state.specs.Standing.{Does, alone, block_of, functor_of, given_of, giving_of, here_of, meeting_of, met_of, specified_of};
ghost use Rattle.module_state.specs.Steps.{called_of};
ghost use Rattle.module_state.specs.Written.{files_of};
ghost use Rattle.module_walk.specs.Steps.{application, argument_applied, argument_met, arrow, arrow_made, function_of_met, given_met, lambda_body, lambda_module, open_import, open_module, path_met, sealed_body, sealed_module, signature_declared, spec_step, specs_behind, specs_met, with_met};

use crate::bringing::{module_brought, signature_brought};
use crate::declarations::{type_dec, value_dec};
use crate::files::{file_decs, loaded_file, now_loaded};
use crate::imports::imported_file;
use crate::parts::{Arrow, may_begin, meeting_within, meets, module_contents, opened_file, twice};
use elab_scopes::{Contents, Member, ModuleRef, Refusal, Stop, no_members};
use fut_scalar::Place;
use fut_tree::{
    Dec, DecForm, Held, Label, ModExp, ModForm, ModType, ModTypeForm, Param, Spec, SpecForm, With,
};
use module_members::{included, refined, specified, type_spec, value_spec, with_types};
use module_state::{
    Block, Declaring, Functor, Given, Giving, Here, Meeting, Signature, Sources, Specified,
    Written, called, curried, functor_at, functor_in, in_body, is_module_again, is_signature_again,
    met_as, new_functor, new_module, new_signature, opened, path_module, signature_named,
    signature_numbered, within,
};

/// How often parametric modules may be applied.
const APPLICATIONS: u32 = 1024;

// ---- module expressions

/// What a module expression gives.
#[cycle(walk)]
pub fn module_of<'a>(
    exp: &'a ModExp<'a>,
    here: Here<'a>,
    sources: Sources<'a>,
    state: &mut Declaring<'a>,
    depth: u32,
) -> Result<ModuleRef, Stop<'a>>
    ensures { Does module_ref_of ((walks (files_of sources.entry.files.now) depth).module_of (here_of here.entry) exp.now) state.old state.new result }
{
    if depth == 0 {
        return Err(Stop::Memory);
    }
    form_of(exp, here, sources, state, depth - 1)
}

/// The same by its form.
#[cycle(walk)]
fn form_of<'a>(
    exp: &'a ModExp<'a>,
    here: Here<'a>,
    sources: Sources<'a>,
    state: &mut Declaring<'a>,
    depth: u32,
) -> Result<ModuleRef, Stop<'a>>
    ensures { Does module_ref_of (mod_with (files_of sources.entry.files.now) (walks (files_of sources.entry.files.now) depth) (here_of here.entry) (out-ModExp exp.now).place (out-ModForm (out-ModExp exp.now).form)) state.old state.new result }
{
    match exp.form {
        ModForm::Path(path) => path_module(path, exp.place, here, state),
        ModForm::Decs(decs) => module_of_block(decs, false, here, sources, state, depth),
        ModForm::Apply(function, given) => {
            application(function, given, here, sources, state, depth)
        }
        ModForm::Import(name) => imported(name, exp.place, here, sources, state, depth),
        ModForm::Lambda(label, bound, seal, body) => {
            lambda(label, bound, seal, body, here, sources, state, depth)
        }
        ModForm::Seal(body, ty) => sealed_module(body, ty, here, sources, state, depth),
    }
}

/// A module that is sealed.
#[cycle(walk)]
fn sealed_module<'a>(
    body: &'a ModExp<'a>,
    ty: &'a ModType<'a>,
    here: Here<'a>,
    sources: Sources<'a>,
    state: &mut Declaring<'a>,
    depth: u32,
) -> Result<ModuleRef, Stop<'a>>
    ensures { Does module_ref_of (sealed_module (files_of sources.entry.files.now) (walks (files_of sources.entry.files.now) depth) (here_of here.entry) body.now ty.now) state.old state.new result }
{
    match module_of(body, here, sources, state, depth) {
        Ok(made) => {
            let meeting = Meeting::Hidden(made, &[]);
            module_met(ty, meeting, here, sources, state, depth)
        }
        Err(stop) => Err(stop),
    }
}

// ---- parametric modules

/// A parametric module.
#[cycle(walk)]
fn lambda<'a>(
    label: Label<'a>,
    bound: &'a ModType<'a>,
    seal: Option<&'a ModType<'a>>,
    body: &'a ModExp<'a>,
    here: Here<'a>,
    sources: Sources<'a>,
    state: &mut Declaring<'a>,
    depth: u32,
) -> Result<ModuleRef, Stop<'a>>
    ensures { Does module_ref_of (lambda_module (files_of sources.entry.files.now) (walks (files_of sources.entry.files.now) depth) (here_of here.entry) (label_of label.entry) bound.now (maybe seal.entry) body.now) state.old state.new result }
{
    let dry = Here {
        file: here.file,
        live: false,
        names: here.names,
    };
    let parameter = match module_met(bound, Meeting::Nothing, dry, sources, state, depth) {
        Ok(parameter) => parameter,
        Err(stop) => return Err(stop),
    };
    let inside = match in_body(label.name, parameter, here.names, here, sources.bump) {
        Ok(inside) => inside,
        Err(_) => return Err(Stop::Memory),
    };
    match looked_at(seal, inside, sources, state, depth) {
        Ok(_) => lambda_body(
            label, bound, seal, body, here, inside, sources, state, depth,
        ),
        Err(stop) => Err(stop),
    }
}

/// The body of a parametric module, whose names alone are looked at where it stands.
#[cycle(walk)]
fn lambda_body<'a>(
    label: Label<'a>,
    bound: &'a ModType<'a>,
    seal: Option<&'a ModType<'a>>,
    body: &'a ModExp<'a>,
    here: Here<'a>,
    inside: Here<'a>,
    sources: Sources<'a>,
    state: &mut Declaring<'a>,
    depth: u32,
) -> Result<ModuleRef, Stop<'a>>
    ensures { Does module_ref_of (lambda_body (files_of sources.entry.files.now) (walks (files_of sources.entry.files.now) depth) (here_of here.entry) (here_of inside.entry) (label_of label.entry) bound.now (maybe seal.entry) body.now) state.old state.new result }
{
    let dry = Here {
        file: inside.file,
        live: false,
        names: inside.names,
    };
    let bare = match sealed_body(seal, body, dry, sources, state, depth) {
        Ok(bare) => bare,
        Err(stop) => return Err(stop),
    };
    let functor = Functor {
        file: here.file,
        parameter: label.name,
        bound,
        names: here.names,
        gives: Giving::Body(seal, body),
        bare,
    };
    match new_functor(functor, state) {
        Ok(contents) => new_module(contents, state),
        Err(stop) => Err(stop),
    }
}

/// A parametric module and its arguments.
#[cycle(walk)]
fn application<'a>(
    function: &'a ModExp<'a>,
    given: &'a [Held<'a, ModExp<'a>>],
    here: Here<'a>,
    sources: Sources<'a>,
    state: &mut Declaring<'a>,
    depth: u32,
) -> Result<ModuleRef, Stop<'a>>
    ensures { Does module_ref_of (application (files_of sources.entry.files.now) (walks (files_of sources.entry.files.now) depth) (here_of here.entry) function.now (all given.now)) state.old state.new result }
{
    match module_of(function, here, sources, state, depth) {
        Ok(made) => applied_to(function, given, made, here, sources, state, depth),
        Err(stop) => Err(stop),
    }
}

/// Arguments one after the other.
#[cycle(walk)]
fn applied_to<'a>(
    function: &'a ModExp<'a>,
    given: &'a [Held<'a, ModExp<'a>>],
    made: ModuleRef,
    here: Here<'a>,
    sources: Sources<'a>,
    state: &mut Declaring<'a>,
    depth: u32,
) -> Result<ModuleRef, Stop<'a>>
    ensures { Does module_ref_of (applied_to (files_of sources.entry.files.now) (walks (files_of sources.entry.files.now) depth) (here_of here.entry) (out-ModExp function.now).place (called_of function.now) (all given.now) (module_ref_of made)) state.old state.new result }
{
    let mut module = made;
    for argument in given {
        match argument_applied(function, argument.at, module, here, sources, state, depth) {
            Ok(next) => {
                module = next;
            }
            Err(stop) => return Err(stop),
        }
    }
    Ok(module)
}

/// One argument. What is applied has to be parametric.
#[cycle(walk)]
fn argument_applied<'a>(
    function: &'a ModExp<'a>,
    argument: &'a ModExp<'a>,
    of: ModuleRef,
    here: Here<'a>,
    sources: Sources<'a>,
    state: &mut Declaring<'a>,
    depth: u32,
) -> Result<ModuleRef, Stop<'a>>
    ensures { Does module_ref_of (argument_applied (files_of sources.entry.files.now) (walks (files_of sources.entry.files.now) depth) (here_of here.entry) function.now argument.now (module_ref_of of)) state.old state.new result }
{
    let number = match functor_in(state.names.modules(), of) {
        Some(number) => number,
        None => {
            return match called(function, sources.bump) {
                Ok(name) => Err(Stop::Refused(Refusal::Unbound {
                    name,
                    at: function.place,
                })),
                Err(_) => Err(Stop::Memory),
            };
        }
    };
    match module_of(argument, here, sources, state, depth) {
        Ok(made) => counted(number, made, argument.place, here, sources, state, depth),
        Err(stop) => Err(stop),
    }
}

/// An application counts where its part does.
#[cycle(walk)]
fn counted<'a>(
    number: u32,
    argument: ModuleRef,
    at: Place,
    here: Here<'a>,
    sources: Sources<'a>,
    state: &mut Declaring<'a>,
    depth: u32,
) -> Result<ModuleRef, Stop<'a>>
    ensures { Does module_ref_of (counted (files_of sources.entry.files.now) (walks (files_of sources.entry.files.now) depth) here.entry.live (here_of here.entry) at number (module_ref_of argument)) state.old state.new result }
{
    if !here.live {
        return applied(number, argument, here, sources, state, depth);
    }
    if state.applications >= APPLICATIONS {
        return Err(Stop::Refused(Refusal::TooManyApplications { at }));
    }
    state.applications += 1;
    applied(number, argument, here, sources, state, depth)
}

/// What the parametric module of a number gives for an argument.
#[cycle(walk)]
fn applied<'a>(
    number: u32,
    argument: ModuleRef,
    here: Here<'a>,
    sources: Sources<'a>,
    state: &mut Declaring<'a>,
    depth: u32,
) -> Result<ModuleRef, Stop<'a>>
    ensures { Does module_ref_of ((walks (files_of sources.entry.files.now) depth).applied (here_of here.entry) number (module_ref_of argument)) state.old state.new result }
{
    if depth == 0 {
        return Err(Stop::Memory);
    }
    match functor_at(state, number) {
        Some(functor) => argument_met(functor, argument, here, sources, state, depth - 1),
        None => Err(Stop::Memory),
    }
}

/// The argument meets the module type of the parameter. Where names alone are looked at, the body was looked at before.
#[cycle(walk)]
fn argument_met<'a>(
    functor: Functor<'a>,
    argument: ModuleRef,
    here: Here<'a>,
    sources: Sources<'a>,
    state: &mut Declaring<'a>,
    depth: u32,
) -> Result<ModuleRef, Stop<'a>>
    ensures { Does module_ref_of (argument_met (files_of sources.entry.files.now) (walks (files_of sources.entry.files.now) depth) (here_of here.entry) (functor_of functor.entry) (module_ref_of argument)) state.old state.new result }
{
    let bound = Here {
        file: here.file,
        live: here.live,
        names: functor.names,
    };
    let meeting = Meeting::Shown(argument, &[]);
    match module_met(functor.bound, meeting, bound, sources, state, depth) {
        Ok(parameter) => {
            if !here.live {
                return Ok(functor.bare);
            }
            given_by(functor, parameter, here, sources, state, depth)
        }
        Err(stop) => Err(stop),
    }
}

/// What an application gives.
#[cycle(walk)]
fn given_by<'a>(
    functor: Functor<'a>,
    parameter: ModuleRef,
    here: Here<'a>,
    sources: Sources<'a>,
    state: &mut Declaring<'a>,
    depth: u32,
) -> Result<ModuleRef, Stop<'a>>
    ensures { Does module_ref_of (given_by (files_of sources.entry.files.now) (walks (files_of sources.entry.files.now) depth) (here_of here.entry) (functor_of functor.entry) (functor_of functor.entry).gives (module_ref_of parameter)) state.old state.new result }
{
    let inside = match within(here, functor, parameter, sources.bump) {
        Ok(inside) => inside,
        Err(_) => return Err(Stop::Memory),
    };
    match functor.gives {
        Giving::Body(seal, body) => sealed_body(seal, body, inside, sources, state, depth),
        Giving::Another(number, hides, ty) => {
            match applied(number, parameter, here, sources, state, depth) {
                Ok(made) => {
                    let meeting = met_as(hides, made);
                    module_met(ty, meeting, inside, sources, state, depth)
                }
                Err(stop) => Err(stop),
            }
        }
        Giving::Names => Ok(functor.bare),
    }
}

/// A body with the module type that it may have.
#[cycle(walk)]
fn sealed_body<'a>(
    seal: Option<&'a ModType<'a>>,
    body: &'a ModExp<'a>,
    here: Here<'a>,
    sources: Sources<'a>,
    state: &mut Declaring<'a>,
    depth: u32,
) -> Result<ModuleRef, Stop<'a>>
    ensures { Does module_ref_of (sealed_body (files_of sources.entry.files.now) (walks (files_of sources.entry.files.now) depth) (here_of here.entry) (maybe seal.entry) body.now) state.old state.new result }
{
    match module_of(body, here, sources, state, depth) {
        Ok(made) => sealed_by(seal, made, here, sources, state, depth),
        Err(stop) => Err(stop),
    }
}

/// A module type that may be missing, where its names alone are looked at.
#[cycle(walk)]
fn looked_at<'a>(
    ty: Option<&'a ModType<'a>>,
    here: Here<'a>,
    sources: Sources<'a>,
    state: &mut Declaring<'a>,
    depth: u32,
) -> Result<Contents<'a>, Stop<'a>>
    ensures { Does contents_of (looked_at (files_of sources.entry.files.now) (walks (files_of sources.entry.files.now) depth) (here_of here.entry) (maybe ty.entry)) state.old state.new result }
{
    match ty {
        Some(ty) => {
            let dry = Here {
                file: here.file,
                live: false,
                names: here.names,
            };
            met(ty, Meeting::Nothing, dry, sources, state, depth)
        }
        None => match no_members(sources.bump) {
            Ok(none) => Ok(Contents::Members(none)),
            Err(_) => Err(Stop::Memory),
        },
    }
}

/// A module behind a module type that it may have.
#[cycle(walk)]
fn sealed_by<'a>(
    ty: Option<&'a ModType<'a>>,
    made: ModuleRef,
    here: Here<'a>,
    sources: Sources<'a>,
    state: &mut Declaring<'a>,
    depth: u32,
) -> Result<ModuleRef, Stop<'a>>
    ensures { Does module_ref_of (sealed_by (files_of sources.entry.files.now) (walks (files_of sources.entry.files.now) depth) (here_of here.entry) (maybe ty.entry) (module_ref_of made)) state.old state.new result }
{
    match ty {
        Some(ty) => {
            let meeting = Meeting::Hidden(made, &[]);
            module_met(ty, meeting, here, sources, state, depth)
        }
        None => Ok(made),
    }
}

// ---- module types

/// A module with what a module type makes of what it meets.
#[cycle(walk)]
fn module_met<'a>(
    ty: &'a ModType<'a>,
    meeting: Meeting<'a>,
    here: Here<'a>,
    sources: Sources<'a>,
    state: &mut Declaring<'a>,
    depth: u32,
) -> Result<ModuleRef, Stop<'a>>
    ensures { Does module_ref_of (module_met (files_of sources.entry.files.now) (walks (files_of sources.entry.files.now) depth) (here_of here.entry) (meeting_of meeting.entry) ty.now) state.old state.new result }
{
    match met(ty, meeting, here, sources, state, depth) {
        Ok(contents) => new_module(contents, state),
        Err(stop) => Err(stop),
    }
}

/// What a module type makes of what it meets.
#[cycle(walk)]
fn met<'a>(
    ty: &'a ModType<'a>,
    meeting: Meeting<'a>,
    here: Here<'a>,
    sources: Sources<'a>,
    state: &mut Declaring<'a>,
    depth: u32,
) -> Result<Contents<'a>, Stop<'a>>
    ensures { Does contents_of ((walks (files_of sources.entry.files.now) depth).met (here_of here.entry) (meeting_of meeting.entry) ty.now) state.old state.new result }
{
    if depth == 0 {
        return Err(Stop::Memory);
    }
    met_by_form(ty, meeting, here, sources, state, depth - 1)
}

/// The same by its form.
#[cycle(walk)]
fn met_by_form<'a>(
    ty: &'a ModType<'a>,
    meeting: Meeting<'a>,
    here: Here<'a>,
    sources: Sources<'a>,
    state: &mut Declaring<'a>,
    depth: u32,
) -> Result<Contents<'a>, Stop<'a>>
    ensures { Does contents_of (sig_with (files_of sources.entry.files.now) (walks (files_of sources.entry.files.now) depth) (here_of here.entry) (meeting_of meeting.entry) (out-ModType ty.now).place (out-ModTypeForm (out-ModType ty.now).form)) state.old state.new result }
{
    match ty.form {
        ModTypeForm::Path(path) => {
            signature_met(path, ty.place, meeting, here, sources, state, depth)
        }
        ModTypeForm::Specs(specs) => specs_met(specs, meeting, here, sources, state, depth),
        ModTypeForm::With(inner, withs) => {
            with_met(inner, withs, meeting, here, sources, state, depth)
        }
        ModTypeForm::Arrow(label, bound, result) => {
            arrow(label, bound, result, meeting, here, sources, state, depth)
        }
    }
}

/// A module type by its path, which sees what it saw where it was declared.
#[cycle(walk)]
fn signature_met<'a>(
    path: &'a [&'a str],
    at: Place,
    meeting: Meeting<'a>,
    here: Here<'a>,
    sources: Sources<'a>,
    state: &mut Declaring<'a>,
    depth: u32,
) -> Result<Contents<'a>, Stop<'a>>
    ensures { Does contents_of (path_met (files_of sources.entry.files.now) (walks (files_of sources.entry.files.now) depth) (here_of here.entry) (meeting_of meeting.entry) at (names path.now)) state.old state.new result }
{
    let number = match signature_named(path, at, here, state) {
        Ok(number) => number,
        Err(stop) => return Err(stop),
    };
    match signature_numbered(state, number) {
        Some(signature) => {
            let there = Here {
                file: here.file,
                live: here.live,
                names: signature.names,
            };
            met(signature.tree, meeting, there, sources, state, depth)
        }
        None => Err(Stop::Memory),
    }
}

/// A module type by its members.
#[cycle(walk)]
fn specs_met<'a>(
    specs: &'a [Spec<'a>],
    meeting: Meeting<'a>,
    here: Here<'a>,
    sources: Sources<'a>,
    state: &mut Declaring<'a>,
    depth: u32,
) -> Result<Contents<'a>, Stop<'a>>
    ensures { Does contents_of (specs_met (files_of sources.entry.files.now) (walks (files_of sources.entry.files.now) depth) (here_of here.entry) (meeting_of meeting.entry) (specs_of specs.now)) state.old state.new result }
{
    let none = match no_members(sources.bump) {
        Ok(none) => none,
        Err(_) => return Err(Stop::Memory),
    };
    let start = Specified {
        seen: here.names,
        met: none,
    };
    match each_spec(specs, start, meeting, here, sources, state, depth) {
        Ok(specified) => Ok(Contents::Members(specified.met)),
        Err(stop) => Err(stop),
    }
}

/// Members one after the other.
#[cycle(walk)]
fn each_spec<'a>(
    specs: &'a [Spec<'a>],
    start: Specified<'a>,
    meeting: Meeting<'a>,
    here: Here<'a>,
    sources: Sources<'a>,
    state: &mut Declaring<'a>,
    depth: u32,
) -> Result<Specified<'a>, Stop<'a>>
    ensures { Does met_of (specs_behind (files_of sources.entry.files.now) (walks (files_of sources.entry.files.now) depth) (here_of here.entry) (meeting_of meeting.entry) (specs_of specs.now) (specified_of start.entry)) state.old state.new result }
{
    let mut before = start;
    for spec in specs {
        let inside = Here {
            file: here.file,
            live: here.live,
            names: before.seen,
        };
        match one_spec(spec, before, meeting, inside, sources, state, depth) {
            Ok(next) => {
                before = next;
            }
            Err(stop) => return Err(stop),
        }
    }
    Ok(before)
}

/// A member.
#[cycle(walk)]
fn one_spec<'a>(
    spec: &'a Spec<'a>,
    before: Specified<'a>,
    meeting: Meeting<'a>,
    here: Here<'a>,
    sources: Sources<'a>,
    state: &mut Declaring<'a>,
    depth: u32,
) -> Result<Specified<'a>, Stop<'a>>
    ensures { Does specified_of (spec_step (files_of sources.entry.files.now) (walks (files_of sources.entry.files.now) depth) (here_of here.entry) (meeting_of meeting.entry) (out-SpecForm (spec_form_of spec.now.form)) (specified_of before.entry)) state.old state.new result }
{
    let bump = sources.bump;
    match spec.form {
        SpecForm::Value(label, heads, ty) => {
            let made = value_spec(label, heads, ty, meeting, here, bump, state);
            specified(made, before, bump)
        }
        SpecForm::TypeName(label, ty) => {
            let made = type_spec(label, ty, meeting, here, bump, state);
            specified(made, before, bump)
        }
        SpecForm::Module(label, ty) => {
            let made = module_spec(label, ty, meeting, here, sources, state, depth);
            specified(made, before, bump)
        }
        SpecForm::Include(ty) => {
            match met(ty, meeting, here, sources, state, depth) {
                Ok(contents) => included(ty, contents, before, bump),
                Err(stop) => Err(stop),
            }
        }
    }
}

/// A module that a module type asks for.
#[cycle(walk)]
fn module_spec<'a>(
    label: Label<'a>,
    ty: &'a ModType<'a>,
    meeting: Meeting<'a>,
    here: Here<'a>,
    sources: Sources<'a>,
    state: &mut Declaring<'a>,
    depth: u32,
) -> Result<Member<'a>, Stop<'a>>
    ensures { Does alone (module_spec (files_of sources.entry.files.now) (walks (files_of sources.entry.files.now) depth) (here_of here.entry) (meeting_of meeting.entry) (label_of label.entry) ty.now) state.old state.new result }
{
    let inner = match meeting_within(label, meeting, sources.bump, state) {
        Ok(inner) => inner,
        Err(stop) => return Err(stop),
    };
    match module_met(ty, inner, here, sources, state, depth) {
        Ok(made) => Ok(Member::Module(label.name, made)),
        Err(stop) => Err(stop),
    }
}

/// A module type with types given.
#[cycle(walk)]
fn with_met<'a>(
    ty: &'a ModType<'a>,
    withs: &'a [With<'a>],
    meeting: Meeting<'a>,
    here: Here<'a>,
    sources: Sources<'a>,
    state: &mut Declaring<'a>,
    depth: u32,
) -> Result<Contents<'a>, Stop<'a>>
    ensures { Does contents_of (with_met (files_of sources.entry.files.now) (walks (files_of sources.entry.files.now) depth) (here_of here.entry) (meeting_of meeting.entry) ty.now (withs_of withs.now)) state.old state.new result }
{
    let dry = Here {
        file: here.file,
        live: false,
        names: here.names,
    };
    let bare = match module_met(ty, Meeting::Nothing, dry, sources, state, depth) {
        Ok(bare) => bare,
        Err(stop) => return Err(stop),
    };
    match refined(withs, bare, dry, sources.bump, state, depth) {
        Ok(of) => refined_met(ty, withs, of, meeting, here, sources, state, depth),
        Err(stop) => Err(stop),
    }
}

/// What a module type with types given makes of what it meets.
#[cycle(walk)]
fn refined_met<'a>(
    ty: &'a ModType<'a>,
    withs: &'a [With<'a>],
    of: ModuleRef,
    meeting: Meeting<'a>,
    here: Here<'a>,
    sources: Sources<'a>,
    state: &mut Declaring<'a>,
    depth: u32,
) -> Result<Contents<'a>, Stop<'a>>
    ensures { Does contents_of (refined_met (files_of sources.entry.files.now) (walks (files_of sources.entry.files.now) depth) (here_of here.entry) (meeting_of meeting.entry) ty.now (withs_of withs.now) (module_ref_of of)) state.old state.new result }
{
    match meeting {
        Meeting::Hidden(met, older) => {
            given_met(true, met, older, ty, withs, here, sources, state, depth)
        }
        Meeting::Shown(met, older) => {
            given_met(false, met, older, ty, withs, here, sources, state, depth)
        }
        Meeting::Nothing => module_contents(of, sources.bump, state),
    }
}

/// What meets a module type with types given has those too.
#[cycle(walk)]
fn given_met<'a>(
    hides: bool,
    of: ModuleRef,
    older: &'a [Given<'a>],
    ty: &'a ModType<'a>,
    withs: &'a [With<'a>],
    here: Here<'a>,
    sources: Sources<'a>,
    state: &mut Declaring<'a>,
    depth: u32,
) -> Result<Contents<'a>, Stop<'a>>
    ensures { Does contents_of (given_met (files_of sources.entry.files.now) (walks (files_of sources.entry.files.now) depth) (here_of here.entry) hides (module_ref_of of) (map given_of older.now) ty.now (withs_of withs.now)) state.old state.new result }
{
    match with_types(withs, older, here, sources.bump, state) {
        Ok(given) => {
            let meeting = meets(hides, of, given);
            met(ty, meeting, here, sources, state, depth)
        }
        Err(stop) => Err(stop),
    }
}

/// The module type of a parametric module.
#[cycle(walk)]
fn arrow<'a>(
    label: Label<'a>,
    bound: &'a ModType<'a>,
    target: &'a ModType<'a>,
    meeting: Meeting<'a>,
    here: Here<'a>,
    sources: Sources<'a>,
    state: &mut Declaring<'a>,
    depth: u32,
) -> Result<Contents<'a>, Stop<'a>>
    ensures { Does contents_of (arrow (files_of sources.entry.files.now) (walks (files_of sources.entry.files.now) depth) (here_of here.entry) (meeting_of meeting.entry) (label_of label.entry) bound.now target.now) state.old state.new result }
{
    let dry = Here {
        file: here.file,
        live: false,
        names: here.names,
    };
    match module_met(bound, Meeting::Nothing, dry, sources, state, depth) {
        Ok(parameter) => {
            let arrow = Arrow {
                label,
                bound,
                target,
                parameter,
            };
            arrow_met(arrow, meeting, here, sources, state, depth)
        }
        Err(stop) => Err(stop),
    }
}

/// What the module type of a parametric module makes of what it meets.
#[cycle(walk)]
fn arrow_met<'a>(
    arrow: Arrow<'a>,
    meeting: Meeting<'a>,
    here: Here<'a>,
    sources: Sources<'a>,
    state: &mut Declaring<'a>,
    depth: u32,
) -> Result<Contents<'a>, Stop<'a>>
    ensures { Does contents_of (arrow_met (files_of sources.entry.files.now) (walks (files_of sources.entry.files.now) depth) (here_of here.entry) (meeting_of meeting.entry) (label_of arrow.entry.label) arrow.entry.bound.now arrow.entry.target.now (module_ref_of arrow.entry.parameter)) state.old state.new result }
{
    match meeting {
        Meeting::Hidden(of, _) => function_of_met(true, of, arrow, here, sources, state, depth),
        Meeting::Shown(of, _) => function_of_met(false, of, arrow, here, sources, state, depth),
        Meeting::Nothing => {
            let gives = Giving::Names;
            arrow_made(gives, Meeting::Nothing, arrow, here, sources, state, depth)
        }
    }
}

/// The parametric module that meets a module type. It has to be one.
#[cycle(walk)]
fn function_of_met<'a>(
    hides: bool,
    of: ModuleRef,
    arrow: Arrow<'a>,
    here: Here<'a>,
    sources: Sources<'a>,
    state: &mut Declaring<'a>,
    depth: u32,
) -> Result<Contents<'a>, Stop<'a>>
    ensures { Does contents_of (function_of_met (files_of sources.entry.files.now) (walks (files_of sources.entry.files.now) depth) (here_of here.entry) hides (module_ref_of of) (label_of arrow.entry.label) arrow.entry.bound.now arrow.entry.target.now (module_ref_of arrow.entry.parameter)) state.old state.new result }
{
    match functor_in(state.names.modules(), of) {
        Some(number) => function_met(number, hides, arrow, here, sources, state, depth),
        None => Err(Stop::Refused(Refusal::SealMissing {
            name: arrow.label.name,
            at: arrow.label.place,
        })),
    }
}

/// A parametric module that meets a module type is looked at once, for a parameter that has no more than its module type says.
#[cycle(walk)]
fn function_met<'a>(
    number: u32,
    hides: bool,
    arrow: Arrow<'a>,
    here: Here<'a>,
    sources: Sources<'a>,
    state: &mut Declaring<'a>,
    depth: u32,
) -> Result<Contents<'a>, Stop<'a>>
    ensures { Does contents_of (function_met (files_of sources.entry.files.now) (walks (files_of sources.entry.files.now) depth) (here_of here.entry) hides (label_of arrow.entry.label) arrow.entry.bound.now arrow.entry.target.now (module_ref_of arrow.entry.parameter) number) state.old state.new result }
{
    let dry = Here {
        file: here.file,
        live: false,
        names: here.names,
    };
    match applied(number, arrow.parameter, dry, sources, state, depth) {
        Ok(made) => {
            let gives = Giving::Another(number, hides, arrow.target);
            let meeting = Meeting::Hidden(made, &[]);
            arrow_made(gives, meeting, arrow, here, sources, state, depth)
        }
        Err(stop) => Err(stop),
    }
}

/// What meets the module type of a parametric module's result, as a parametric module.
#[cycle(walk)]
fn arrow_made<'a>(
    gives: Giving<'a>,
    meeting: Meeting<'a>,
    arrow: Arrow<'a>,
    here: Here<'a>,
    sources: Sources<'a>,
    state: &mut Declaring<'a>,
    depth: u32,
) -> Result<Contents<'a>, Stop<'a>>
    ensures { Does contents_of (arrow_made (files_of sources.entry.files.now) (walks (files_of sources.entry.files.now) depth) (here_of here.entry) (giving_of gives.entry) (meeting_of meeting.entry) (label_of arrow.entry.label) arrow.entry.bound.now arrow.entry.target.now (module_ref_of arrow.entry.parameter)) state.old state.new result }
{
    let dry = Here {
        file: here.file,
        live: false,
        names: here.names,
    };
    let inside = match in_body(
        arrow.label.name,
        arrow.parameter,
        here.names,
        dry,
        sources.bump,
    ) {
        Ok(inside) => inside,
        Err(_) => return Err(Stop::Memory),
    };
    match module_met(arrow.target, meeting, inside, sources, state, depth) {
        Ok(bare) => {
            let functor = Functor {
                file: here.file,
                parameter: arrow.label.name,
                bound: arrow.bound,
                names: here.names,
                gives,
                bare,
            };
            new_functor(functor, state)
        }
        Err(stop) => Err(stop),
    }
}

// ---- declarations

/// The module of what declarations export.
#[cycle(walk)]
fn module_of_block<'a>(
    decs: &'a [Dec<'a>],
    is_top: bool,
    here: Here<'a>,
    sources: Sources<'a>,
    state: &mut Declaring<'a>,
    depth: u32,
) -> Result<ModuleRef, Stop<'a>>
    ensures { Does module_ref_of (block_module (files_of sources.entry.files.now) (walks (files_of sources.entry.files.now) depth) (here_of here.entry) is_top (decs_of decs.now)) state.old state.new result }
{
    let none = match no_members(sources.bump) {
        Ok(none) => none,
        Err(_) => return Err(Stop::Memory),
    };
    let start = Block {
        names: here.names,
        exported: none,
        own: none,
    };
    match each_dec(decs, is_top, start, here, sources, state, depth) {
        Ok(block) => new_module(Contents::Members(block.exported), state),
        Err(stop) => Err(stop),
    }
}

/// Declarations one after the other.
#[cycle(walk)]
fn each_dec<'a>(
    decs: &'a [Dec<'a>],
    is_top: bool,
    start: Block<'a>,
    here: Here<'a>,
    sources: Sources<'a>,
    state: &mut Declaring<'a>,
    depth: u32,
) -> Result<Block<'a>, Stop<'a>>
    ensures { Does block_of (decs_with (files_of sources.entry.files.now) (walks (files_of sources.entry.files.now) depth) (here_of here.entry) is_top (decs_of decs.now) (block_of start.entry)) state.old state.new result }
{
    let mut block = start;
    for dec in decs {
        let inside = Here {
            file: here.file,
            live: here.live,
            names: block.names,
        };
        match one_dec(dec, is_top, block, inside, sources, state, depth) {
            Ok(next) => {
                block = next;
            }
            Err(stop) => return Err(stop),
        }
    }
    Ok(block)
}

/// A declaration.
#[cycle(walk)]
fn one_dec<'a>(
    dec: &'a Dec<'a>,
    is_top: bool,
    block: Block<'a>,
    here: Here<'a>,
    sources: Sources<'a>,
    state: &mut Declaring<'a>,
    depth: u32,
) -> Result<Block<'a>, Stop<'a>>
    ensures { Does block_of (dec_with (files_of sources.entry.files.now) (walks (files_of sources.entry.files.now) depth) (here_of here.entry) is_top dec.now.local dec.now.place (out-DecForm (dec_form_of dec.now.form)) (block_of block.entry)) state.old state.new result }
{
    let bump = sources.bump;
    let is_local = dec.local;
    match dec.form {
        DecForm::Def {
            entry,
            label,
            heads,
            params,
            result,
            value,
        } => {
            let is_entry = may_begin(is_top, entry, label.name);
            let value = Written::Definition(params, result, value);
            value_dec(
                is_entry, label, heads, value, is_local, block, here, bump, state,
            )
        }
        DecForm::TypeName(label, heads, ty) => {
            type_dec(label, heads, ty, is_local, block, here, bump, state)
        }
        DecForm::Module(label, params, seal, body) => {
            if is_module_again(is_local, block.own, label.name) {
                return Err(twice(label));
            }
            let made = module_dec(params, seal, body, dec.place, here, sources, state, depth);
            module_brought(label.name, made, is_local, block, bump)
        }
        DecForm::ModType(label, ty) => {
            if is_signature_again(is_local, block.own, label.name) {
                return Err(twice(label));
            }
            let made = signature_dec(ty, here, sources, state, depth);
            signature_brought(label.name, made, is_local, block, bump)
        }
        DecForm::Open(body) => open_dec(body, is_local, block, here, sources, state, depth),
        DecForm::Import(name) => { import_dec(name, dec.place, block, here, sources, state, depth) }
    }
}

/// A module that is declared, which may have parameters.
#[cycle(walk)]
fn module_dec<'a>(
    params: &'a [Param<'a>],
    seal: Option<&'a ModType<'a>>,
    body: &'a ModExp<'a>,
    at: Place,
    here: Here<'a>,
    sources: Sources<'a>,
    state: &mut Declaring<'a>,
    depth: u32,
) -> Result<ModuleRef, Stop<'a>>
    ensures { Does module_ref_of (module_with (files_of sources.entry.files.now) (walks (files_of sources.entry.files.now) depth) (here_of here.entry) at (params_of params.now) (maybe seal.entry) body.now) state.old state.new result }
{
    match params {
        [] => match looked_at(seal, here, sources, state, depth) {
            Ok(_) => sealed_body(seal, body, here, sources, state, depth),
            Err(stop) => Err(stop),
        },
        [_, ..] => match curried(at, params, seal, body, sources.bump) {
            Ok(function) => module_of(function, here, sources, state, depth),
            Err(_) => Err(Stop::Memory),
        },
    }
}

/// A module type that is declared: its names alone are looked at.
#[cycle(walk)]
fn signature_dec<'a>(
    ty: &'a ModType<'a>,
    here: Here<'a>,
    sources: Sources<'a>,
    state: &mut Declaring<'a>,
    depth: u32,
) -> Result<u32, Stop<'a>>
    ensures { Does (λ k. k) (signature_declared (files_of sources.entry.files.now) (walks (files_of sources.entry.files.now) depth) (here_of here.entry) ty.now) state.old state.new result }
{
    let dry = Here {
        file: here.file,
        live: false,
        names: here.names,
    };
    match met(ty, Meeting::Nothing, dry, sources, state, depth) {
        Ok(_) => {
            let signature = Signature {
                tree: ty,
                names: here.names,
            };
            new_signature(signature, state)
        }
        Err(stop) => Err(stop),
    }
}

/// A module whose members are opened.
#[cycle(walk)]
fn open_dec<'a>(
    body: &'a ModExp<'a>,
    is_local: bool,
    block: Block<'a>,
    here: Here<'a>,
    sources: Sources<'a>,
    state: &mut Declaring<'a>,
    depth: u32,
) -> Result<Block<'a>, Stop<'a>>
    ensures { Does block_of (open_module (files_of sources.entry.files.now) (walks (files_of sources.entry.files.now) depth) (here_of here.entry) is_local body.now (block_of block.entry)) state.old state.new result }
{
    match module_of(body, here, sources, state, depth) {
        Ok(module) => opened(body, module, is_local, block, sources.bump, state),
        Err(stop) => Err(stop),
    }
}

/// A file whose members are opened, and not exported.
#[cycle(walk)]
fn import_dec<'a>(
    name: &'a str,
    at: Place,
    block: Block<'a>,
    here: Here<'a>,
    sources: Sources<'a>,
    state: &mut Declaring<'a>,
    depth: u32,
) -> Result<Block<'a>, Stop<'a>>
    ensures { Does block_of (open_import (files_of sources.entry.files.now) (walks (files_of sources.entry.files.now) depth) (here_of here.entry) at name.now (block_of block.entry)) state.old state.new result }
{
    match imported(name, at, here, sources, state, depth) {
        Ok(module) => opened_file(name, at, module, block, sources.bump, state),
        Err(stop) => Err(stop),
    }
}

// ---- files

/// The module of the file that a text names.
#[cycle(walk)]
fn imported<'a>(
    name: &'a str,
    at: Place,
    here: Here<'a>,
    sources: Sources<'a>,
    state: &mut Declaring<'a>,
    depth: u32,
) -> Result<ModuleRef, Stop<'a>>
    ensures { Does module_ref_of (import_of (files_of sources.entry.files.now) (walks (files_of sources.entry.files.now) depth) at name.now (imported_file (files_of sources.entry.files.now) here.entry.file name.now)) state.old state.new result }
{
    match imported_file(sources, here.file, name) {
        Ok(found) => match found {
            Some(number) => file_of(number, sources, state, depth),
            None => Err(Stop::Refused(Refusal::Unbound { name, at })),
        },
        Err(_) => Err(Stop::Memory),
    }
}

/// The module of a file, which is declared where it is first imported.
#[cycle(walk)]
pub fn file_of<'a>(
    number: u32,
    sources: Sources<'a>,
    state: &mut Declaring<'a>,
    depth: u32,
) -> Result<ModuleRef, Stop<'a>>
    ensures { Does module_ref_of ((walks (files_of sources.entry.files.now) depth).file_of number) state.old state.new result }
{
    if depth == 0 {
        return Err(Stop::Memory);
    }
    match loaded_file(state, number) {
        Some(module) => Ok(module),
        None => file_declared(number, sources, state, depth - 1),
    }
}

/// A file that was not imported before.
#[cycle(walk)]
fn file_declared<'a>(
    number: u32,
    sources: Sources<'a>,
    state: &mut Declaring<'a>,
    depth: u32,
) -> Result<ModuleRef, Stop<'a>>
    ensures { Does module_ref_of (file_declared (files_of sources.entry.files.now) (walks (files_of sources.entry.files.now) depth) number) state.old state.new result }
{
    let here = Here {
        file: number,
        live: true,
        names: state.start,
    };
    let decs = file_decs(sources.files, number);
    match module_of_block(decs, true, here, sources, state, depth) {
        Ok(module) => now_loaded(number, module, state),
        Err(stop) => Err(stop),
    }
}
