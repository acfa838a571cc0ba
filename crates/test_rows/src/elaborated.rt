// Texts and their flat programs, or the types of their definitions. A line `frame prelude` says that each text stands behind the prelude, `frame alone` that it
// stands behind no text.
use crate::parts::{behind_word, text_of};
use crate::rows::Answers;
use crate::tokens::MOST_BYTES;
use bumpalo::Bump;
use fut_lexer::{Token, lex};
use fut_parser::parse;
use fut_scalar::Place;
use fut_tree::Program;
use module_elab::{ModErr, PRELUDE, PRELUDE_PATH, elaborate};
use module_state::SourceFile;
use std::alloc::Global;
use test_shown::{Shown, show_flat, show_types};

/// Answers a text with its flat program, or with the types of its definitions.
#[derive(Clone, Copy)]
pub struct Elaborated {
    alloc: Global,
    has_prelude: bool,
    shows_types: bool,
}

impl Elaborated {
    pub fn new(alloc: Global, shows_types: bool) -> Elaborated {
        Elaborated {
            alloc,
            has_prelude: false,
            shows_types,
        }
    }

    /// Shows what is made of a text, or why nothing is.
    fn show_text(&self, text: &[u8], shown: &mut Shown) {
        let before = if self.has_prelude { PRELUDE } else { "" };
        if before.len() > MOST_BYTES {
            return shown.push("! no prelude");
        }
        match lex(self.alloc, 0, before.as_bytes()) {
            Ok(tokens) => self.show_behind(tokens.as_slice(), text, shown),
            Err(_) => shown.push("! no prelude"),
        }
    }

    /// The same of a text behind the tokens of the prelude.
    fn show_behind(&self, prelude: &[Token], text: &[u8], shown: &mut Shown) {
        if text.len() > MOST_BYTES {
            return shown.push("! too many bytes");
        }
        match lex(self.alloc, 1, text) {
            Ok(tokens) => {
                let bump = Bump::new(self.alloc);
                self.show_tokens(&bump, prelude, tokens.as_slice(), shown);
            }
            Err(_) => shown.push("! no tokens"),
        }
    }

    fn show_tokens<'a>(
        &self,
        bump: &'a Bump,
        first: &'a [Token],
        second: &'a [Token],
        shown: &mut Shown,
    ) {
        let Some(prelude) = tree(bump, 0, first) else {
            return shown.push("! no prelude");
        };
        let Some(program) = tree(bump, 1, second) else {
            return shown.push("! no tree");
        };
        match bump.try_alloc_slice_copy(&[
            SourceFile {
                path: PRELUDE_PATH,
                program: prelude,
            },
            SourceFile {
                path: "text",
                program,
            },
        ]) {
            Ok(files) => self.show_elaborated(bump, files, shown),
            Err(_) => shown.push("! memory"),
        }
    }

    fn show_elaborated<'a>(&self, bump: &'a Bump, files: &'a [SourceFile<'a>], shown: &mut Shown) {
        match elaborate(self.alloc, bump, files) {
            Ok(flat) if self.shows_types => show_types(self.alloc, &flat, shown),
            Ok(flat) => {
                shown.push("=");
                show_flat(&flat, shown);
            }
            Err(refusal) => show_refusal(&refusal, shown),
        }
    }
}

impl Answers for Elaborated {
    fn takes_heading(&mut self, line: &[u8]) -> bool {
        match text_of(behind_word(line, b"frame").unwrap_or(b"")) {
            "alone" => self.has_prelude = false,
            "prelude" => self.has_prelude = true,
            _ => return false,
        }
        true
    }

    fn answer(&mut self, text: &[u8], shown: &mut Shown) -> (&'static [u8], &'static [u8]) {
        shown.begin(false);
        self.show_text(text, shown);
        (b"", b"")
    }
}

/// The tree of a file, held by the arena.
fn tree<'a>(bump: &'a Bump, file: u32, tokens: &'a [Token]) -> Option<&'a Program<'a>> {
    match parse(bump, file, tokens) {
        Ok(program) => match bump.try_alloc(program) {
            Ok(held) => Some(held),
            Err(_) => None,
        },
        Err(_) => None,
    }
}

fn show_named(before: &str, name: &str, at: Place, shown: &mut Shown) {
    shown.named(before, name);
    shown.placed(" ", at);
}

fn show_refusal(refusal: &ModErr<'_>, shown: &mut Shown) {
    match refusal {
        ModErr::Unbound { name, at } => show_named("! unbound ", *name, *at, shown),
        ModErr::Twice { name, at } => show_named("! twice ", *name, *at, shown),
        ModErr::NoMember { name, at } => show_named("! no member ", *name, *at, shown),
        ModErr::SealMissing { name, at } => show_named("! seal missing ", *name, *at, shown),
        ModErr::TooManyApplications { at } => shown.placed("! too many applications ", *at),
        ModErr::NotYet { at } => shown.placed("! not yet ", *at),
        ModErr::Memory => shown.push("! memory"),
    }
}
