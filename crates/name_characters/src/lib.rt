//! Which characters begin a name, and which continue one, by `specs/Names.antt`: those that Unicode Standard Annex 31 gives
//! for identifiers, the underscore, and the quote behind the first character.
#![tactic(auto)]

ghost use Rattle.std.specs.Prelude.{◌≡◌, ◌||◌, ◌==◌};
ghost use Rattle.name_characters.specs.Names.{goes_on_name, starts_name};
ghost use Rattle.unicode_ident.specs.Ident.{is_xid_continue, is_xid_start};

/// Whether a name may begin with the character.
#[tactic(auto, unfolding(crate::specs::Names::starts_name))]
pub fn starts_name(c: char) -> bool
    ensures value { result ≡ starts_name c }
    ensures identifier { result ≡ (is_xid_start c || (c == 95)) }
{
    unicode_ident::is_xid_start(c) || c == '_'
}

/// Whether a name may go on with the character.
#[tactic(auto, unfolding(crate::specs::Names::goes_on_name))]
pub fn goes_on_name(c: char) -> bool
    ensures value { result ≡ goes_on_name c }
    ensures identifier { result ≡ (is_xid_continue c || (c == 39)) }
{
    unicode_ident::is_xid_continue(c) || c == '\''
}
