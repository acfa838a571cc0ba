// What a record's number has to do with its names.
ghost use Rattle.std.specs.Prelude.{◌≡◌, ◌↔◌, ℕ, List, length, map};
ghost use Rattle.std.specs.List.{Contains};
ghost use Rattle.fut_ast.specs.Sorts.{Text};
ghost use Rattle.fut_types.specs.Types.{Ty, Tys};
ghost use Rattle.fut_typing.specs.Names.{Names, AreNames, IsRecord, Once};
ghost use Rattle.type_rules.specs.Records.{Has_parts};

/// A type is that of a record with exactly these fields just if it is made by the number that has their labels, and has
/// the parts under them.
pub fn records_go_by_numbers()
    ensures { (N : Names) → AreNames N → (fs : List Text) → Once fs → (number : ℕ) → ((l : ℕ) → Contains (N.shapes.fields number) l ↔ Contains (map N.label fs) l) → length (N.shapes.fields number) ≡ length fs
        → (t : Ty) (us : Tys) → Has_parts N.shapes number (map N.label fs) t us ↔ IsRecord N fs t us }
{}
