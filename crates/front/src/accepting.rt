// From files to an accepted program.
ghost use Rattle.std.specs.Prelude.{◌≡◌, List, IfOk, IfErr, Ok, OnOk};
ghost use Rattle.elab_scopes.specs.Elaboration.{Elaborates};
ghost use Rattle.elab_scopes.specs.Imports.{Source_file};
ghost use Rattle.module_state.specs.Written.{files_of};
ghost use Rattle.fut_typing.specs.Program.{program_of as typing_of};
ghost use Rattle.module_elab.specs.Elaborated.{program_of as flat_of, Tells};
ghost use Rattle.sized_programs.specs.Sizings.{Has_sizing};
ghost use Rattle.type_infer.specs.Inferring.{Told_by};
ghost use Rattle.typed_programs.specs.Known.{Is_known, Knows};
ghost use Rattle.typed_programs.specs.Ordered.{Some_order};
ghost use Rattle.unique_programs.specs.Rules.{Breaks_none};
ghost use Rattle.front.specs.Stages.{Faults, Misnames, Overwrites, Takes, Unsized, Untyped};

use crate::refusals::{NameErr, Refused};
use bumpalo::Bump;
use fut_flat::Flat;
use fut_scalar::{Name, NoMemory};
use module_elab::{ModErr, elaborate};
use module_state::SourceFile;
use sized_programs::{Misfit, SizedProgram, Sizing, sized_program};
use std::alloc::Global;
use typed_programs::{Accepted, TypeErr, typed_program};
use unique_programs::{Misuse, unique_program};

/// A refusal of names, which owns its name. One of a form that is not built, which tokens tell before, is want of memory.
fn misnamed(alloc: Global, err: ModErr<'_>) -> Refused
    ensures { (files : List Source_file) → Tells (Elaborates files) err.entry → Misnames (Elaborates files) result }
{
    match err {
        ModErr::Unbound { name, at } => match Name::new(alloc, name) {
            Ok(name) => Refused::Names(NameErr::Unbound { name, at }),
            Err(_) => Refused::Memory,
        },
        ModErr::Twice { name, at } => match Name::new(alloc, name) {
            Ok(name) => Refused::Names(NameErr::Twice { name, at }),
            Err(_) => Refused::Memory,
        },
        ModErr::NoMember { name, at } => match Name::new(alloc, name) {
            Ok(name) => Refused::Names(NameErr::NoMember { name, at }),
            Err(_) => Refused::Memory,
        },
        ModErr::SealMissing { name, at } => match Name::new(alloc, name) {
            Ok(name) => Refused::Names(NameErr::SealMissing { name, at }),
            Err(_) => Refused::Memory,
        },
        ModErr::TooManyApplications { at } => Refused::Names(NameErr::TooManyApplications { at }),
        ModErr::NotYet { at: _ } => Refused::Memory,
        ModErr::Memory => Refused::Memory,
    }
}

/// The flat program of files, the prelude first.
fn resolved<'a>(
    alloc: Global,
    bump: &'a Bump,
    files: &'a [SourceFile<'a>],
) -> Result<Flat<'a>, Refused>
    ensures ok { IfOk result (λ flat. Elaborates (files_of files.now) (Ok (flat_of flat))) }
    ensures err { IfErr result (Misnames (Elaborates (files_of files.now))) }
{
    match elaborate(alloc, bump, files) {
        Ok(flat) => Ok(flat),
        Err(err) => Err(misnamed(alloc, err)),
    }
}

/// A typed program, held by the arena.
fn kept<'a>(bump: &'a Bump, accepted: Accepted<'a>) -> Result<&'a Accepted<'a>, NoMemory>
    ensures { IfOk result (λ at. at.now ≡ accepted.entry) }
{
    match bump.try_alloc(accepted) {
        Ok(at) => Ok(at),
        Err(_failed) => Err(NoMemory),
    }
}

/// The types of a flat program, held by the arena.
fn typed<'a>(alloc: Global, bump: &'a Bump, flat: Flat<'a>) -> Result<&'a Accepted<'a>, Refused>
    ensures ok { IfOk result (λ accepted. Knows flat.entry accepted.now) }
    ensures err { IfErr result (Untyped (typing_of flat.entry)) }
{
    match typed_program(alloc, flat) {
        Ok(accepted) => match kept(bump, accepted) {
            Ok(at) => Ok(at),
            Err(_) => Err(Refused::Memory),
        },
        Err(TypeErr::Memory) => Err(Refused::Memory),
        Err(err) => Err(Refused::Types(err)),
    }
}

/// A sizing, held by the arena.
fn kept_sizing<'a>(bump: &'a Bump, sizing: Sizing<'a>) -> Result<&'a Sizing<'a>, NoMemory>
    ensures { IfOk result (λ at. at.now ≡ sizing.entry) }
{
    match bump.try_alloc(sizing) {
        Ok(at) => Ok(at),
        Err(_failed) => Err(NoMemory),
    }
}

/// The sized types of a typed program, held by the arena.
fn sized<'a>(
    alloc: Global,
    bump: &'a Bump,
    accepted: &'a Accepted<'a>,
) -> Result<&'a Sizing<'a>, Refused>
    requires known { Is_known accepted.now }
    ensures ok { IfOk result (λ sizing. Told_by (Has_sizing (typing_of accepted.now.flat) sizing.now) accepted.now.inference) }
    ensures numbered { IfOk result (λ sizing. Some_order (Has_sizing (typing_of accepted.now.flat) sizing.now)) }
    ensures err { IfErr result (Unsized accepted.now.flat) }
{
    match sized_program(alloc, bump, &accepted.flat, &accepted.inference) {
        Ok(sizing) => match kept_sizing(bump, sizing) {
            Ok(at) => Ok(at),
            Err(_) => Err(Refused::Memory),
        },
        Err(Misfit::Memory) => Err(Refused::Memory),
        Err(misfit) => Err(Refused::Misfit(misfit)),
    }
}

/// Whether a typed program breaks no rule of aliases and consumption.
fn unbroken<'a>(alloc: Global, bump: &'a Bump, accepted: &'a Accepted<'a>) -> Result<(), Refused>
    requires known { Is_known accepted.now }
    ensures ok { OnOk result (Some_order (Breaks_none (typing_of accepted.now.flat))) }
    ensures err { IfErr result (Overwrites accepted.now.flat) }
{
    match unique_program(alloc, bump, accepted) {
        Ok(()) => Ok(()),
        Err(Misuse::Memory) => Err(Refused::Memory),
        Err(err) => Err(Refused::Misused(err)),
    }
}

/// The program of files, the prelude first, of which none imports itself; or why it is not accepted.
#[tactic(auto, using(crate::proofs::Joining::joining))]
pub fn accept_files<'a>(
    alloc: Global,
    bump: &'a Bump,
    files: &'a [SourceFile<'a>],
) -> Result<SizedProgram<'a>, Refused>
    ensures accepted { IfOk result (λ program. Takes (files_of files.now) program.accepted.now program.sizing.now) }
    ensures refused { IfErr result (Faults (files_of files.now)) }
{
    let flat = match resolved(alloc, bump, files) {
        Ok(flat) => flat,
        Err(refused) => return Err(refused),
    };
    let accepted = match typed(alloc, bump, flat) {
        Ok(accepted) => accepted,
        Err(refused) => return Err(refused),
    };
    let sizing = match sized(alloc, bump, accepted) {
        Ok(sizing) => sizing,
        Err(refused) => return Err(refused),
    };
    match unbroken(alloc, bump, accepted) {
        Ok(()) => Ok(SizedProgram { accepted, sizing }),
        Err(refused) => Err(refused),
    }
}
