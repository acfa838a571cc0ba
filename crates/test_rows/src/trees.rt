// Texts and their trees. A line `frame value` says that the texts behind it are values of a definition; see `Frame`.
use crate::parts::{behind_word, text_of};
use crate::rows::Answers;
use crate::texts::Text;
use crate::tokens::MOST_BYTES;
use bumpalo::Bump;
use fut_ast::form_name;
use fut_lexer::{Token, lex};
use fut_parser::{ParseErr, parse};
use std::alloc::Global;
use test_shown::{Shown, show_program};

/// What stands around each text, in lines of its own, and around the tree of each.
#[derive(Clone, Copy)]
enum Frame {
    /// A text is a whole program.
    Program,
    /// A text is the value of a definition.
    Value,
    /// The same, and the tree is shown with places.
    Places,
    /// A text is the type of a definition.
    Type,
    /// A text is the parameters of a definition.
    Parameters,
    /// A text is a module.
    Module,
    /// A text is a module type.
    ModuleType,
}

impl Frame {
    fn named(name: &str) -> Option<Frame> {
        match name {
            "program" => Some(Frame::Program),
            "value" => Some(Frame::Value),
            "places" => Some(Frame::Places),
            "type" => Some(Frame::Type),
            "parameters" => Some(Frame::Parameters),
            "module" => Some(Frame::Module),
            "module type" => Some(Frame::ModuleType),
            _ => None,
        }
    }

    /// What stands before and behind a text.
    fn around_text(self) -> (&'static [u8], &'static [u8]) {
        match self {
            Frame::Program => (b"", b""),
            Frame::Value | Frame::Places => (b"def v =\n", b""),
            Frame::Type => (b"def v:\n", b"\n= 0"),
            Frame::Parameters => (b"def v\n", b"\n= 0"),
            Frame::Module => (b"module v =\n", b""),
            Frame::ModuleType => (b"module type v =\n", b""),
        }
    }

    /// What stands before and behind its tree.
    fn around_tree(self) -> (&'static [u8], &'static [u8]) {
        match self {
            Frame::Program => (b"", b""),
            Frame::Value | Frame::Places => (b"(def v = ", b")"),
            Frame::Type => (b"(def v : ", b" = 0)"),
            Frame::Parameters => (b"(def v ", b" = 0)"),
            Frame::Module => (b"(module v = ", b")"),
            Frame::ModuleType => (b"(module type v = ", b")"),
        }
    }
}

/// Answers a text with its tree.
#[derive(Drop)]
pub struct Trees {
    alloc: Global,
    frame: Frame,
    program: Text,
}

impl Trees {
    pub fn new(alloc: Global) -> Trees {
        Trees {
            alloc,
            frame: Frame::Program,
            program: Text::new(alloc),
        }
    }

    /// Takes the name of a frame, and says whether it is one.
    fn takes_frame(&mut self, name: &str) -> bool {
        match Frame::named(name) {
            Some(frame) => self.frame = frame,
            None => return false,
        }
        true
    }
}

impl Answers for Trees {
    fn takes_heading(&mut self, line: &[u8]) -> bool {
        match behind_word(line, b"frame") {
            Some(name) => self.takes_frame(text_of(name)),
            None => false,
        }
    }

    fn answer(&mut self, text: &[u8], shown: &mut Shown) -> (&'static [u8], &'static [u8]) {
        let (before, behind) = self.frame.around_text();
        self.program.bytes.clear();
        self.program.add(before);
        self.program.add(text);
        self.program.add(behind);
        shown.begin(matches!(self.frame, Frame::Places));
        shown.push(if self.program.is_spent {
            "! memory; "
        } else {
            ""
        });
        show_text(self.alloc, self.program.bytes.as_slice(), shown);
        self.frame.around_tree()
    }
}

/// Shows the tree of a text, or why there is none.
fn show_text(alloc: Global, text: &[u8], shown: &mut Shown) {
    if text.len() > MOST_BYTES {
        return shown.push("! too many bytes");
    }
    match lex(alloc, 1, text) {
        Err(_) => shown.push("! no tokens"),
        Ok(tokens) => show_tree(alloc, tokens.as_slice(), shown),
    }
}

fn show_tree(alloc: Global, tokens: &[Token], shown: &mut Shown) {
    let bump = Bump::new(alloc);
    match parse(&bump, 1, tokens) {
        Err(refusal) => show_refusal(&refusal, shown),
        Ok(program) => {
            shown.push("=");
            show_program(&program, shown);
        }
    }
}

fn show_refusal(refusal: &ParseErr, shown: &mut Shown) {
    match refusal {
        ParseErr::Syntax { at } => shown.placed("! syntax ", *at),
        ParseErr::TooDeep { at } => shown.placed("! too deep ", *at),
        ParseErr::LeftOut { at, what } => {
            shown.placed("! left out ", *at);
            shown.named(" ", form_name(*what));
        }
        ParseErr::Memory => shown.push("! memory"),
    }
}
