// The laws of the grammar by themselves.
ghost use Rattle.std.specs.Prelude.{◌≡◌, ℕ, ◌||◌, false, List};
ghost use Rattle.fut_scalar.specs.declared.place.Place.{Place};
ghost use Rattle.fut_token.specs.declared.token.Fixed.{Fixed};
ghost use Rattle.fut_token.specs.declared.token.Token.{Token};
ghost use Rattle.fut_ast.specs.declared.node.Joining.{Joining};
ghost use Rattle.fut_ast.specs.declared.module.Program.{Program};
ghost use Rattle.fut_ast.specs.Sorts.{Text, SourceExp, Whole};
ghost use Rattle.fut_ast.specs.Nodes.{
  first_name,
  held_name,
  joined,
  joined_by,
  joined_names_by,
  joining,
  piped_name,
  second_name,
  use_of,
};
ghost use Rattle.fut_ast.specs.Grammar.{Derives, Phrase};
ghost use Rattle.fut_grammar.specs.FreeNames.{Uses_both, calls, free, is_name, spelled_in};

/// Tokens are those of one program at most, and that has one height.
#[tactic(auto, using(crate::proofs::OneReading::one_program, crate::proofs::OneReading::one_height))]
pub fn tokens_are_one_program()
    ensures tree { (ts : List Token) (p q : Program) (h k : ℕ) → Derives ts p h → Derives ts q k → p ≡ q }
    ensures height { (ts : List Token) (p q : Program) (h k : ℕ) → Derives ts p h → Derives ts q k → h ≡ k }
{}

/// The new names of sugar are used where their own sugar put them, and nowhere else. A name that no token spells is
/// free in no expression, so none is used outside of the form that binds it. An operator captures no name of its
/// operands but the one that it binds itself, which no section has: so the names of a section are still free where its
/// operator stands, and are those that the section bound.
#[tactic(auto, using(crate::proofs::Closed::no_new_name_free, crate::proofs::FreeSugar::free_joined))]
pub fn sugar_captures_no_name()
    ensures closed { (x : Text) (e : SourceExp) (h : ℕ) (ts rest : List Token) → spelled_in x ts ≡ false → Phrase Whole e h ts rest → free x e ≡ false }
    ensures operands { (x : Text) (o : Fixed) (from mark : Place) (name : Text) (a b : SourceExp) → is_name x piped_name ≡ false → free x (joined o from mark name a b) ≡ ((calls x (joining o) name || free x a) || free x b) }
    ensures operator_section { (w : Joining) (from mark p q : Place) (name : Text) → Uses_both first_name second_name (joined_names_by w from mark name (use_of p first_name) (use_of q second_name)) }
    ensures right_section { (w : Joining) (from mark p q : Place) (name : Text) → Uses_both first_name held_name (joined_by w from mark name (use_of p first_name) (use_of q held_name)) }
    ensures left_section { (w : Joining) (from mark p q : Place) (name : Text) → Uses_both held_name second_name (joined_by w from mark name (use_of p held_name) (use_of q second_name)) }
{}
