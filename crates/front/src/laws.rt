// Laws of acceptance.
ghost use Rattle.std.specs.Prelude.{◌≡◌, ℕ, List, Result, Some};
ghost use Rattle.front.specs.EntryNameEntries.{Begins_at, Begins_nowhere};
ghost use Rattle.fut_ast.specs.Sorts.{Text};
ghost use Rattle.fut_flat.specs.declared.program.Flat.{Flat};
ghost use Rattle.fut_io.specs.Outside.{LoaderSeen};
ghost use Rattle.module_elab.specs.Elaborated.{program_of as flat_of};
ghost use Rattle.elab_scopes.specs.Names.{Refusal};
ghost use Rattle.elab_scopes.specs.Imports.{Source_file};
ghost use Rattle.elab_scopes.specs.Programs.{FlatProgram};
ghost use Rattle.front.specs.Acceptance.{IsAcceptable, IsBehindTypes, IsResolved, Resolves, Unaccepted};
ghost use Rattle.front.specs.Entries.{HasEntry, HasNoEntry};
ghost use Rattle.front.specs.declared.refusals.Refused.{Refused};

/// Files come to one answer behind the prelude, and so does a program whose files a loader tells. Where it is accepted, no refusal has
/// its cause but one of sizes or of aliases and consumption, or that a load fails: that what is met first there does not hang on how
/// names are numbered is not said.
pub fn files_have_one_answer()
    ensures resolves { (files : List Source_file) (a b : Result FlatProgram Refusal) → Resolves files a → Resolves files b → a ≡ b }
    ensures resolved { (seen : LoaderSeen) (told : List (Text × Text)) → seen.files ≡ Some told → (file : Text) (a b : Result FlatProgram Refusal) → IsResolved seen file a → IsResolved seen file b → a ≡ b }
    ensures accepted { (seen new : LoaderSeen) (told : List (Text × Text)) → seen.files ≡ Some told → (file path : Text) (flat : FlatProgram) → IsAcceptable seen file flat → (refused : Refused) → Unaccepted file seen new path refused → IsBehindTypes refused }
{}

/// Where a run may begin is told alike by a program in the arena and by what it is resolved to.
pub fn entries_are_those_of_the_program()
    ensures somewhere { (flat : Flat) (name : Text) (at : ℕ) → Begins_at flat name at → HasEntry (flat_of flat) name at }
    ensures nowhere { (flat : Flat) (name : Text) → Begins_nowhere flat name → HasNoEntry (flat_of flat) name }
{}
