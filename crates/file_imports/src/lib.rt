//! Which texts a file imports, in their order.
//!
//! `file_order/specs/Order.antt` has the definition: imports stand in declarations and in module expressions, however deep.
#![tactic(auto)]

ghost use Rattle.std.specs.Prelude.{◌≡◌, ◌∷◌, ◌++◌, [], IfOk, OnOk};
ghost use Rattle.fut_tree.specs.Names.{all, names};
ghost use Rattle.fut_tree.specs.Mods.{dec_of, decs_of};
ghost use Rattle.file_order.specs.Order.{imported_texts};
ghost use Rattle.file_imports.specs.Texts.{decs_texts, module_texts, modules_texts};

use bumpalo::Bump;
use bumpalo::collections::into_bump_slice;
use fut_scalar::NoMemory;
use fut_tree::{Dec, DecForm, Held, ModExp, ModForm, Program};

/// Puts a text behind others.
fn put<'a>(text: &'a str, behind: &mut Vec<&'a str, &'a Bump>) -> Result<(), NoMemory>
    ensures { OnOk result (names behind.new.items ≡ names behind.old.items ++ text.now ∷ []) }
{
    match behind.push(text) {
        Ok(()) => Ok(()),
        Err(_) => Err(NoMemory),
    }
}

/// How deep modules may stand in one another: deeper than any that is nested at most 200 deep.
const MOST_DEPTH: u32 = 1000;

/// Puts the texts that a module expression imports behind others.
#[cycle(modules)]
fn put_module<'a>(
    module: &'a ModExp<'a>,
    depth: u32,
    behind: &mut Vec<&'a str, &'a Bump>,
) -> Result<(), NoMemory>
    ensures { OnOk result (names behind.new.items ≡ names behind.old.items ++ module_texts module.now) }
{
    if depth == 0 {
        return Err(NoMemory);
    }
    match module.form {
        ModForm::Path(_) => Ok(()),
        ModForm::Decs(decs) => put_decs(decs, depth - 1, behind),
        ModForm::Apply(applied, given) => {
            put_module(applied, depth - 1, behind)?;
            put_modules(given, depth - 1, behind)
        }
        ModForm::Import(text) => put(text, behind),
        ModForm::Lambda(_, _, _, body) => put_module(body, depth - 1, behind),
        ModForm::Seal(sealed, _) => put_module(sealed, depth - 1, behind),
    }
}

#[cycle(modules)]
fn put_modules<'a>(
    modules: &'a [Held<'a, ModExp<'a>>],
    depth: u32,
    behind: &mut Vec<&'a str, &'a Bump>,
) -> Result<(), NoMemory>
    ensures { OnOk result (names behind.new.items ≡ names behind.old.items ++ modules_texts (all modules.now)) }
{
    for module in modules {
        put_module(module.at, depth, behind)?;
    }
    Ok(())
}

/// Puts the texts that a declaration imports behind others.
#[cycle(modules)]
fn put_dec<'a>(
    dec: Dec<'a>,
    depth: u32,
    behind: &mut Vec<&'a str, &'a Bump>,
) -> Result<(), NoMemory>
    ensures { OnOk result (names behind.new.items ≡ names behind.old.items ++ imported_texts (dec_of dec.entry)) }
{
    match dec.form {
        DecForm::Module(_, _, _, module) => put_module(module, depth, behind),
        DecForm::Open(module) => put_module(module, depth, behind),
        DecForm::Import(text) => put(text, behind),
        DecForm::Def { .. } => Ok(()),
        DecForm::TypeName(_, _, _) => Ok(()),
        DecForm::ModType(_, _) => Ok(()),
    }
}

#[cycle(modules)]
fn put_decs<'a>(
    decs: &'a [Dec<'a>],
    depth: u32,
    behind: &mut Vec<&'a str, &'a Bump>,
) -> Result<(), NoMemory>
    ensures { OnOk result (names behind.new.items ≡ names behind.old.items ++ decs_texts (decs_of decs.now)) }
{
    for dec in decs {
        put_dec(*dec, depth, behind)?;
    }
    Ok(())
}

/// The texts that a file imports, in their order.
pub fn imports<'a>(program: &'a Program<'a>, bump: &'a Bump) -> Result<&'a [&'a str], NoMemory>
    ensures { IfOk result (λ texts. names texts.now ≡ decs_texts program.now.decs) }
{
    let mut texts = Vec::new(bump);
    put_decs(program.decs, MOST_DEPTH, &mut texts)?;
    Ok(into_bump_slice(texts))
}
