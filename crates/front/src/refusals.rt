// Why a program is not accepted.
ghost use Rattle.std.specs.Prelude.{◌≡◌};
ghost use Rattle.front.specs.Acceptance.{misfit_place, misuse_place, names_place, refused_at, types_place};

use fut_scalar::{Name, Place};
use sized_programs::Misfit;
use source_files::Unread;
use typed_programs::TypeErr;
use unique_programs::Misuse;

/// Why the names of a program are refused, and where.
#[derive(Debug, Drop)]
pub enum NameErr {
    /// The name has no binding in scope.
    Unbound { name: Name, at: Place },
    /// The name is bound before in the same pattern, or defined before in the same file or module.
    Twice { name: Name, at: Place },
    /// The module has no such member.
    NoMember { name: Name, at: Place },
    /// The module that a seal or a parameter asks for has no such member.
    SealMissing { name: Name, at: Place },
    /// Parametric modules are applied more than 1,024 times.
    TooManyApplications { at: Place },
}

/// Why a program is not accepted. What stands inside is never `Memory`.
#[derive(Debug, Drop)]
pub enum Refused {
    /// One of its files is not read.
    Unread(Unread),
    /// A file imports itself, perhaps through others.
    ImportCycle,
    Names(NameErr),
    Types(TypeErr),
    Misfit(Misfit),
    Misused(Misuse),
    /// Memory ran out.
    ///
    /// It is answered too where modules stand deeper in one another than is looked at, where the prelude does not parse, and
    /// where a form comes that is not built though no token told it. The last two never come: that the text of the prelude is
    /// a program, and that such forms are told by their tokens, is not proved.
    Memory,
}

/// Why a program is not accepted, and the path of the file in which that stands, which is empty for want of memory.
#[derive(Debug, Drop)]
pub struct RefusedFile {
    pub path: Name,
    pub why: Refused,
}

/// What no place is told for stands in the prelude.
const NOWHERE: Place = Place {
    file: 0,
    line: 1,
    column: 1,
};

/// Where a refusal of names stands.
fn names_place(err: &NameErr) -> Place
    ensures { result ≡ names_place err.now }
{
    match err {
        NameErr::Unbound { name: _, at } => *at,
        NameErr::Twice { name: _, at } => *at,
        NameErr::NoMember { name: _, at } => *at,
        NameErr::SealMissing { name: _, at } => *at,
        NameErr::TooManyApplications { at } => *at,
    }
}

/// Where a refusal of types stands.
fn types_place(err: &TypeErr) -> Place
    ensures { result ≡ types_place err.now }
{
    match err {
        TypeErr::NoType { at } => *at,
        TypeErr::FunctionPlace { at } => *at,
        TypeErr::Ambiguous { at } => *at,
        TypeErr::Memory => NOWHERE,
    }
}

/// Where a refusal of sizes stands.
fn misfit_place(err: &Misfit) -> Place
    ensures { result ≡ misfit_place err.now }
{
    match err {
        Misfit::SizesDiffer {
            left: _,
            right: _,
            at,
        } => *at,
        Misfit::Escapes { at } => *at,
        Misfit::Irregular { at } => *at,
        Misfit::Memory => NOWHERE,
    }
}

/// Where a refusal because of aliases and consumption stands: at the use of what was consumed.
fn misuse_place(err: &Misuse) -> Place
    ensures { result ≡ misuse_place err.now }
{
    match err {
        Misuse::Consumed {
            name: _,
            at: _,
            used,
        } => *used,
        Misuse::NotConsumable { name: _, at } => *at,
        Misuse::Captured { name: _, at } => *at,
        Misuse::ResultAliases { name: _, at } => *at,
        Misuse::Memory => NOWHERE,
    }
}

/// The number of the file in which a refusal behind reading stands; else that of the prelude.
pub fn refused_at(why: &Refused) -> u32
    ensures { result ≡ refused_at why.now }
{
    match why {
        Refused::Names(err) => names_place(err).file,
        Refused::Types(err) => types_place(err).file,
        Refused::Misfit(err) => misfit_place(err).file,
        Refused::Misused(err) => misuse_place(err).file,
        Refused::Unread(_) | Refused::ImportCycle | Refused::Memory => 0,
    }
}
