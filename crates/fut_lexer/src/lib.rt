//! The tokens of a source text, equal to their definition: `specs/Lexing.antt` says what `lex` answers, and `specs/Rules.antt`
//! what stands at a place, rule by rule. `specs/Private/FrontReading.antt` is how the code reads it.
#![tactic(auto)]

mod classes;
mod front;
mod lexer;
mod names;
mod number;
mod position;
mod words;

pub use fut_token::{Fixed, Lift, Token, TokenKind};
pub use lexer::{LexErr, a_text_has_one_reading, lex};
pub use names::is_name;
