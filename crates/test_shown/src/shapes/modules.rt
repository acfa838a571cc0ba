// Declarations, modules and module types as text: a form is its word or sign and its parts, in parentheses.
use crate::line::{Before, Shown};
use crate::shapes::expressions::show_exp;
use crate::shapes::names::show_path;
use crate::shapes::patterns::{show_heads, show_pats};
use crate::shapes::types::{show_maybe_type, show_type};
use fut_tree::{
    Dec, DecForm, Held, ModExp, ModForm, ModType, ModTypeForm, Param, Program, Spec, SpecForm, With,
};

/// The declarations of a program, each behind a blank. What is shown is compared with rows of data, so no clause says it.
pub fn show_program<'a>(program: &Program<'a>, shown: &mut Shown) {
    show_decs(program.decs, shown);
}

/// The word that a module type begins with.
fn type_word(form: &ModTypeForm<'_>) -> &'static str {
    match form {
        ModTypeForm::Path(_) => "",
        ModTypeForm::Specs(_) => "(specs",
        ModTypeForm::With(_, _) => "(with ",
        ModTypeForm::Arrow(_, _, _) => "(-> (",
    }
}

/// A module type behind a text.
#[cycle(module_types)]
fn show_mod_type<'a>(ty: &'a ModType<'a>, before: Before, shown: &mut Shown) {
    let word = type_word(&ty.form);
    shown.open(before, word);
    match ty.form {
        ModTypeForm::Path(names) => show_path(names, shown),
        ModTypeForm::Specs(specs) => show_specs(specs, shown),
        ModTypeForm::With(inner, items) => {
            show_mod_type(inner, Before::Nothing, shown);
            show_items(items, shown);
        }
        ModTypeForm::Arrow(label, from, to) => {
            shown.push(label.name);
            show_mod_type(from, Before::Colon, shown);
            show_mod_type(to, Before::End, shown);
        }
    }
    shown.end(word);
}

/// The types that a module type is given, each behind a blank.
fn show_items(items: &[With<'_>], shown: &mut Shown) {
    for item in items {
        shown.push(" (");
        show_path(item.path, shown);
        show_type(item.ty, Before::Blank, shown);
        shown.close();
    }
}

/// Members, each behind a blank.
#[cycle(module_types)]
fn show_specs<'a>(specs: &'a [Spec<'a>], shown: &mut Shown) {
    for spec in specs {
        show_spec(spec, shown);
        shown.close();
    }
}

/// A member behind a blank, up to the closing parenthesis.
#[cycle(module_types)]
fn show_spec<'a>(spec: &'a Spec<'a>, shown: &mut Shown) {
    match spec.form {
        SpecForm::Value(label, heads, ty) => {
            shown.named(" (val ", label.name);
            show_heads(heads, shown);
            show_type(ty, Before::Colon, shown);
        }
        SpecForm::TypeName(label, ty) => {
            shown.named(" (type ", label.name);
            show_maybe_type(ty, Before::Equals, shown);
        }
        SpecForm::Module(label, ty) => {
            shown.named(" (module ", label.name);
            show_mod_type(ty, Before::Colon, shown);
        }
        SpecForm::Include(ty) => show_mod_type(ty, Before::Include, shown),
    }
}

/// A module type behind a colon, or nothing.
fn show_maybe_mod_type<'a>(ty: Option<&'a ModType<'a>>, shown: &mut Shown) {
    if let Some(ty) = ty {
        show_mod_type(ty, Before::Colon, shown);
    }
}

/// Parameters of a module, each behind a blank.
fn show_params(params: &[Param<'_>], shown: &mut Shown) {
    for param in params {
        shown.field(param.label.name);
        show_maybe_mod_type(Some(param.bound), shown);
        shown.close();
    }
}

/// The word that a module begins with.
fn module_word(form: &ModForm<'_>) -> &'static str {
    match form {
        ModForm::Path(_) => "",
        ModForm::Import(_) => "(import ",
        ModForm::Decs(_) => "(decs",
        ModForm::Apply(_, _) => "(",
        ModForm::Lambda(_, _, _, _) => "(fn",
        ModForm::Seal(_, _) => "(: ",
    }
}

/// A module behind a text.
#[cycle(modules)]
fn show_module<'a>(module: &'a ModExp<'a>, before: Before, shown: &mut Shown) {
    let word = module_word(&module.form);
    shown.open(before, word);
    match module.form {
        ModForm::Path(names) => show_path(names, shown),
        ModForm::Import(path) => shown.push(path),
        ModForm::Decs(decs) => show_decs(decs, shown),
        ModForm::Apply(function, arguments) => {
            show_module(function, Before::Nothing, shown);
            show_modules(arguments, shown);
        }
        ModForm::Lambda(label, bound, ty, body) => {
            shown.field(label.name);
            show_maybe_mod_type(Some(bound), shown);
            shown.close();
            show_maybe_mod_type(ty, shown);
            show_module(body, Before::Arrow, shown);
        }
        ModForm::Seal(inner, ty) => {
            show_module(inner, Before::Nothing, shown);
            show_mod_type(ty, Before::Blank, shown);
        }
    }
    shown.end(word);
}

/// Modules, each behind a blank.
#[cycle(modules)]
fn show_modules<'a>(modules: &'a [Held<'a, ModExp<'a>>], shown: &mut Shown) {
    for module in modules {
        show_module(module.at, Before::Blank, shown);
    }
}

/// Declarations, each behind a blank.
#[cycle(modules)]
fn show_decs<'a>(decs: &'a [Dec<'a>], shown: &mut Shown) {
    for dec in decs {
        shown.named(if dec.local { " local " } else { " " }, dec_word(&dec.form));
        show_dec(dec, shown);
        shown.close();
    }
}

/// The word that a declaration begins with.
fn dec_word(form: &DecForm<'_>) -> &'static str {
    match form {
        DecForm::Def { entry: true, .. } => "(entry ",
        DecForm::Def { .. } => "(def ",
        DecForm::TypeName(_, _, _) => "(type ",
        DecForm::Module(_, _, _, _) => "(module ",
        DecForm::ModType(_, _) => "(module type ",
        DecForm::Open(_) => "(open ",
        DecForm::Import(_) => "(import ",
    }
}

/// What stands behind a declaration's word.
#[cycle(modules)]
fn show_dec<'a>(dec: &'a Dec<'a>, shown: &mut Shown) {
    match dec.form {
        DecForm::Module(label, params, ty, body) => {
            shown.push(label.name);
            show_params(params, shown);
            show_maybe_mod_type(ty, shown);
            show_module(body, Before::Equals, shown);
        }
        DecForm::Open(module) => show_module(module, Before::Nothing, shown),
        _ => show_plain_dec(dec, shown),
    }
}

/// The same of a declaration that holds no module.
fn show_plain_dec(dec: &Dec<'_>, shown: &mut Shown) {
    match dec.form {
        DecForm::Def {
            label,
            heads,
            params,
            result,
            value,
            ..
        } => {
            shown.push(label.name);
            show_heads(heads, shown);
            show_pats(params, shown);
            show_maybe_type(result, Before::Colon, shown);
            show_exp(value, Before::Equals, shown);
        }
        DecForm::TypeName(label, heads, ty) => {
            shown.push(label.name);
            show_heads(heads, shown);
            show_type(ty, Before::Equals, shown);
        }
        DecForm::ModType(label, ty) => {
            shown.push(label.name);
            show_mod_type(ty, Before::Equals, shown);
        }
        DecForm::Import(path) => shown.push(path),
        _ => {}
    }
}
